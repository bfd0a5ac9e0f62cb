ghost use Rattle.std.specs.Prelude.{◌≡◌};
ghost use Rattle.job_tree.specs.Formats.{number_of, most_steps, extends_format_1, has_events, newer};

use crate::limits::{MAX_STEPS, MAX_STEPS_OF_FORMAT_1};

/// The format of a job text, as its first line says. Each text of format 1 or 2 with the first line of a later format is a
/// job of that format. In format 2 it has the same meaning, and in format 3 the meaning by rounds.
#[derive(Clone, Copy, Debug, PartialEq, Eq)]
pub enum Format {
    /// `trio-job 1`
    One,
    /// `trio-job 2`. It adds `repeat`, nurseries with a deadline and a shield, and larger jobs.
    Two,
    /// `trio-job 3`. It adds comments, events, and a `start` in a `repeat` in a nursery. A tick has rounds, which are passes of
    /// Trio's run loop.
    Three,
}

impl Format {
    /// Returns the number in the first line: 1, 2 or 3.
    pub fn number(self) -> u64
        ensures { result ≡ number_of self }
    {
        match self {
            Format::One => 1,
            Format::Two => 2,
            Format::Three => 3,
        }
    }

    /// Returns the maximum number of step instances of a job of this format.
    pub fn most_steps(self) -> u64
        ensures { result ≡ most_steps self }
    {
        match self {
            Format::One => MAX_STEPS_OF_FORMAT_1,
            Format::Two | Format::Three => MAX_STEPS,
        }
    }

    /// Returns whether this format has what format 2 added to format 1: `repeat`, and nurseries with a deadline and a
    /// shield.
    pub fn extends_format_1(self) -> bool
        ensures { result ≡ extends_format_1 self }
    {
        match self {
            Format::One => false,
            Format::Two | Format::Three => true,
        }
    }

    /// Returns whether this format has what format 3 added to format 2: events, and a `start` in a `repeat` in a nursery.
    pub fn has_events(self) -> bool
        ensures { result ≡ has_events self }
    {
        match self {
            Format::One | Format::Two => false,
            Format::Three => true,
        }
    }

    /// Returns the newer one of two formats.
    pub fn newer(self, other: Format) -> Format
        ensures { result ≡ newer self other }
    {
        match (self, other) {
            (Format::Three, _) | (_, Format::Three) => Format::Three,
            (Format::Two, _) | (_, Format::Two) => Format::Two,
            (Format::One, Format::One) => Format::One,
        }
    }
}
