ghost use Rattle.std.specs.Prelude.{IfOk};
ghost use Rattle.trials.specs.Targets.{IsFound};
ghost use Rattle.job_edits.specs.declared.number.Target.TheVariants as target;

use crate::missing::Missing;
use crate::nearest::{is_one_of, nearest_in};
use basics::place_at;
use job_edits::{Number, Target, block_names, block_number, number_at};
use job_tokens::Token;
use job_tree::Name;
use std::alloc::{AllocError, Global};

/// The number that is meant, or why there is none.
#[derive(Clone, Copy)]
pub enum Found {
    /// The number.
    Number(Number),
    /// Why the text does not have it.
    Missing(Missing),
}

// Returns the number that is meant, in a text with these tokens.
pub(crate) fn number_for(
    alloc: Global,
    text: &[u8],
    tokens: &[Token],
    target: Target,
) -> Result<Found, AllocError>
    ensures { IfOk result (IsFound text.now tokens.now target) }
{
    match target {
        Target::NumberOf(name) => deadline_for(alloc, text, tokens, name),
        Target::At { line, column } => Ok(number_on(text, tokens, line, column)),
    }
}

// Returns the deadline of the first scope or nursery with this name.
fn deadline_for(
    alloc: Global,
    text: &[u8],
    tokens: &[Token],
    name: Name,
) -> Result<Found, AllocError>
    ensures { IfOk result (IsFound text.now tokens.now (target.NumberOf name)) }
{
    let blocks = block_names(alloc, tokens)?;
    if !is_one_of(name, blocks.as_slice()) {
        let nearest = nearest_in(alloc, name, blocks.as_slice())?;
        return Ok(Found::Missing(Missing::NoBlock { nearest }));
    }
    match block_number(name, tokens) {
        Some(number) => Ok(Found::Number(number)),
        None => Ok(Found::Missing(Missing::NoDeadline)),
    }
}

// Returns the number at a line and a column.
fn number_on(text: &[u8], tokens: &[Token], line: usize, column: usize) -> Found
    ensures { IsFound text.now tokens.now (target.At line column) result }
{
    let Some(at) = place_at(text, line, column) else {
        return Found::Missing(Missing::NoPlace);
    };
    match number_at(at, tokens) {
        Some(number) => Found::Number(number),
        None => Found::Missing(Missing::NoNumber { at }),
    }
}
