ghost use Rattle.std.specs.Prelude.{◌≡◌};
ghost use Rattle.outcomes.specs.Table.{denies, denies_first, denies_kind, denies_some};
ghost use Rattle.outcomes.specs.Views.{job_outcome_held, line_held};

use crate::job_outcome::JobOutcome;
use crate::line::Line;

/// The outcomes that a job should not have, whatever its fault.
#[derive(Clone, Copy, Debug, PartialEq, Eq)]
pub struct Deny {
    /// It does not end by the limit.
    pub stuck: bool,
    /// A task was cancelled in a cleanup, by its end or by the limit, that is not without the fault.
    pub cut: bool,
    /// The exception that the fault raised was lost, by its end or by the limit.
    pub lost: bool,
}

impl Deny {
    /// Returns whether a job should not have its outcome with this fault: it is one of these kinds; or nothing is known of the
    /// job, since its text was refused, and some kind is denied.
    pub fn denies(self, line: &Line) -> bool
        ensures { result ≡ denies self (line_held line.now) }
    {
        self.denies_kind(line) || (self.denies_some() && line.job_outcome.is_refused())
    }

    /// Returns whether a job should not have this outcome without a fault: it does not end by the limit, and that is denied.
    pub fn denies_first(self, first: &JobOutcome) -> bool
        ensures { result ≡ denies_first self (job_outcome_held first.now) }
    {
        self.stuck && first.is_stuck()
    }

    // Returns whether some kind is denied.
    fn denies_some(self) -> bool
        ensures { result ≡ denies_some self }
    {
        self.stuck || self.cut || self.lost
    }

    // Returns whether the outcome with a fault is of a kind that is denied.
    fn denies_kind(self, line: &Line) -> bool
        ensures { result ≡ denies_kind self (line_held line.now) }
    {
        (self.stuck && line.job_outcome.is_stuck())
            || (self.cut && line.cuts)
            || (self.lost && line.job_outcome.has_lost())
    }
}
