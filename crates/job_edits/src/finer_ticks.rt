ghost use Rattle.std.specs.Prelude.{◌≡◌};
ghost use Rattle.job_meaning.specs.declared.clock.Clock.TheVariants.{ByTicks, ByRounds};
ghost use Rattle.job_edits.specs.FinerTicks.{fits, by_thousand, by_hundred, by_ten, finer_ticks_by, finer_ticks_for, most_ticks, ticks_of, ticks_by};

use crate::number::Number;
use crate::site::{Moment, Site};
use job_meaning::Clock;

/// How much finer the ticks of a changed job text are than those of the original text.
#[derive(Clone, Copy, Debug, PartialEq, Eq)]
pub struct FinerTicks {
    /// How many of the finer ticks make one original tick.
    pub factor: u64,
    /// The length of a hair, in finer ticks: a tenth of the factor.
    pub hair: u64,
}

impl FinerTicks {
    /// Returns how much finer the ticks of a text with these sites may be, if its job is compared up to a limit, in original
    /// ticks. The factor is the first of 1000, 100 and 10 for which no number of ticks exceeds 1,000,000,000 if it is a hair
    /// more, and for which the limit is before the tick to which `forever` sleeps, in finer ticks too; if time is counted by
    /// rounds, only 10 is tried. The hair is a tenth of the factor. Returns `None` if the factor 10 is too large.
    pub fn of(clock: Clock, sites: &[Site], limit: u64) -> Option<FinerTicks>
        ensures { result ≡ finer_ticks_for clock limit sites.now }
    {
        by_most(clock, most_ticks(sites), limit)
    }

    // Returns a number of original ticks in finer ticks.
    pub(crate) fn ticks(self, number: Number) -> u64
        ensures { result ≡ ticks_by self number }
    {
        number.value.saturating_mul(self.factor)
    }
}

// Returns how much finer the ticks may be if `most` is the maximum number of ticks.
fn by_most(clock: Clock, most: u64, limit: u64) -> Option<FinerTicks>
    ensures { result ≡ finer_ticks_by clock most limit }
{
    match clock {
        Clock::ByTicks => greatest_by_most(most, limit),
        Clock::ByRounds => ten_by_most(most, limit),
    }
}

// Returns the greatest of the factors 1000, 100 and 10 that fits if `most` is the maximum number of ticks.
fn greatest_by_most(most: u64, limit: u64) -> Option<FinerTicks>
    ensures { result ≡ finer_ticks_by ByTicks most limit }
{
    if fits_thousand(most, limit) {
        return Some(FinerTicks {
            factor: 1_000,
            hair: 100,
        });
    }
    if fits_hundred(most, limit) {
        return Some(FinerTicks {
            factor: 100,
            hair: 10,
        });
    }
    ten_by_most(most, limit)
}

// Returns the factor 10 if it fits, where `most` is the maximum number of ticks.
fn ten_by_most(most: u64, limit: u64) -> Option<FinerTicks>
    ensures { result ≡ finer_ticks_by ByRounds most limit }
{
    if fits_ten(most, limit) {
        return Some(FinerTicks {
            factor: 10,
            hair: 1,
        });
    }
    None
}

// Returns whether ticks may be a thousand times finer.
fn fits_thousand(most: u64, limit: u64) -> bool
    ensures { result ≡ fits most limit by_thousand }
{
    most <= 999_999 && limit <= 1_099_511_627
}

// Returns whether ticks may be a hundred times finer.
fn fits_hundred(most: u64, limit: u64) -> bool
    ensures { result ≡ fits most limit by_hundred }
{
    most <= 9_999_999 && limit <= 10_995_116_277
}

// Returns whether ticks may be ten times finer.
fn fits_ten(most: u64, limit: u64) -> bool
    ensures { result ≡ fits most limit by_ten }
{
    most <= 99_999_999 && limit <= 109_951_162_777
}

// Returns the maximum number of ticks at these sites.
fn most_ticks(sites: &[Site]) -> u64
    ensures { result ≡ most_ticks sites.now }
{
    let mut most = 0;
    let mut left = sites.len();
    'sites: while left > 0 {
        left -= 1;
        most = ticks_of(sites[left].moment).max(most);
    }
    most
}

// Returns the number of ticks at a site, or 0 if there is none.
pub(crate) fn ticks_of(moment: Moment) -> u64
    ensures { result ≡ ticks_of moment }
{
    match moment {
        Moment::Sleep(number) => number.value,
        Moment::After(_, number) => number.value,
        Moment::At(_, number) => number.value,
        Moment::Checkpoint { .. } => 0,
        Moment::Pace { .. } => 0,
        Moment::Start { .. } => 0,
        Moment::Set(_) => 0,
        Moment::Wait { .. } => 0,
        Moment::Asking(_, _) => 0,
        Moment::Release(_) => 0,
        Moment::Close(_) => 0,
    }
}
