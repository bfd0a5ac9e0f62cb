ghost use Rattle.std.specs.Prelude.{◌≡◌};
ghost use Rattle.outcomes.specs.Table.{is_unreached};
ghost use Rattle.outcomes.specs.Views.{line_held};

use crate::job_outcome::JobOutcome;
use job_edits::Variant;

/// The outcome of a job with a fault at one of its steps.
#[derive(Drop)]
pub struct Line {
    /// The line of the job text in which the step begins, counted from 1.
    pub line: usize,
    /// The column in which the step begins, in bytes, counted from 1.
    pub column: usize,
    /// The step and the fault.
    pub variant: Variant,
    /// The outcome of the job.
    pub job_outcome: JobOutcome,
    /// Whether the fault is reached by the limit: the step begins by then or, for a fault that fails late, ends by
    /// then.
    pub reached: bool,
    /// Whether the name of the exception that a step raises is printed. It is where steps raise several exceptions, one at a
    /// time.
    pub is_named: bool,
    /// Whether the outcome, as it is printed of a fault that is reached, differs from that of the same job without the fault.
    pub differs: bool,
    /// Whether a task was cancelled in a cleanup that is not in the same job without the fault.
    pub cuts: bool,
}

impl Line {
    /// Returns whether the text was read and the fault is not reached.
    pub fn is_unreached(&self) -> bool
        ensures { result ≡ is_unreached (line_held self.now) }
    {
        !self.reached && !self.job_outcome.is_refused()
    }
}
