ghost use Rattle.std.specs.Prelude.{◌≡◌, length, IfOk, map};
ghost use Rattle.chart.specs.HeldBars.{bar_of};
ghost use Rattle.chart.specs.HeldColumns.{column_of};
ghost use Rattle.chart.specs.Text.{name_of, outcome_of, longest_name, longest_outcome, room_for, less_to_fit};

use crate::names::{push_name, push_outcome};
use crate::{Bar, Column, less_for};
use std::alloc::{AllocError, Global};

/// The maximum room that is kept for outcomes, in bytes. A longer outcome is cut if it does not fit.
pub const MAX_OUTCOME: usize = 24;

/// Returns by how many characters gaps are made smaller so that these columns fit into a width, in characters, beside the names
/// and outcomes of these bars: the least number that suffices, or the one with which each gap is one character if none does. Long
/// outcomes take no more than 24 characters. Returns `AllocError` if memory runs out.
pub fn less_to_fit(
    alloc: Global,
    width: usize,
    all: &[Column],
    bars: &[Bar<'_, '_>],
) -> Result<usize, AllocError>
    ensures { IfOk result (λ less. less ≡ less_to_fit width (map column_of all.now) (map bar_of bars.now)) }
{
    let names = longest_name(alloc, bars)?;
    let room = room_for(alloc, width, names, bars)?;
    Ok(less_for(room, all))
}

// Returns the room for columns in a width, beside names of this length and the outcomes of these bars.
pub(crate) fn room_for(
    alloc: Global,
    width: usize,
    names: usize,
    bars: &[Bar<'_, '_>],
) -> Result<usize, AllocError>
    ensures { IfOk result (λ room. room ≡ room_for width names (map bar_of bars.now)) }
{
    let outcomes = longest_outcome(alloc, bars)?.min(MAX_OUTCOME);
    Ok(
        width
            .saturating_sub(names)
            .saturating_sub(2)
            .saturating_sub(outcomes)
            .saturating_sub(1),
    )
}

/// Returns the length of the longest name of these bars, in bytes, or 0 if there are no bars. Returns `AllocError` if memory runs
/// out.
pub fn longest_name(alloc: Global, bars: &[Bar<'_, '_>]) -> Result<usize, AllocError>
    ensures { IfOk result (λ longest. longest ≡ longest_name (map bar_of bars.now)) }
{
    let mut longest = 0;
    let mut left = bars.len();
    'bars: while left > 0 {
        left -= 1;
        longest = name_len(alloc, &bars[left])?.max(longest);
    }
    Ok(longest)
}

// Returns the length of the name of a bar.
fn name_len(alloc: Global, bar: &Bar<'_, '_>) -> Result<usize, AllocError>
    ensures { IfOk result (λ len. len ≡ length (name_of (bar_of bar.now))) }
{
    let mut name = Vec::new(alloc);
    push_name(&mut name, bar)?;
    Ok(name.len())
}

/// Returns the length of the longest outcome of these bars, in bytes, or 0 if there are no bars. Returns `AllocError` if memory
/// runs out.
pub fn longest_outcome(alloc: Global, bars: &[Bar<'_, '_>]) -> Result<usize, AllocError>
    ensures { IfOk result (λ longest. longest ≡ longest_outcome (map bar_of bars.now)) }
{
    let mut longest = 0;
    let mut left = bars.len();
    'bars: while left > 0 {
        left -= 1;
        longest = outcome_len(alloc, &bars[left])?.max(longest);
    }
    Ok(longest)
}

// Returns the length of the outcome of a bar.
fn outcome_len(alloc: Global, bar: &Bar<'_, '_>) -> Result<usize, AllocError>
    ensures { IfOk result (λ len. len ≡ length (outcome_of (bar_of bar.now))) }
{
    let mut outcome = Vec::new(alloc);
    push_outcome(&mut outcome, bar)?;
    Ok(outcome.len())
}
