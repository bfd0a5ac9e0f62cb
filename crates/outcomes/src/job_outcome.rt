ghost use Rattle.std.specs.Prelude.{◌≡◌};
ghost use Rattle.outcomes.specs.JobOutcomes.{is_stuck, has_cut, has_lost, is_refused, cut_tasks, has_further, cuts_more};
ghost use Rattle.job_story.specs.Focus.{is_among};
ghost use Rattle.outcomes.specs.Views.{job_outcome_held};

use exceptions::{Exc, Label};
use job_reader::JobFault;

/// The outcome of a job that runs up to a limit, which is the last tick at which it may end.
#[derive(Drop)]
pub enum JobOutcome {
    /// The text of the job is refused, so that nothing is known of it.
    Refused(JobFault),
    /// The job does not end by the limit.
    Stuck {
        /// The tasks that sleep forever, in the order of a report.
        sleeping: Vec<Label>,
        /// The tasks that were cancelled in a cleanup by the limit, in the order of the story, each once.
        cut: Vec<Label>,
        /// Whether the exception that the fault raised was lost by the limit: no handler handled an exception with its name, and
        /// the exception of a cleanup replaced it.
        lost: bool,
    },
    /// The job ends by the limit.
    Ended {
        /// The tick at which it ends.
        end: u64,
        /// The exception that it ends with, or `None` if it ends without one.
        exc: Option<Exc>,
        /// The tasks that ended with a plain `Cancelled`, in the order of a report.
        cancelled: Vec<Label>,
        /// The tasks that were cancelled in a cleanup, in the order of the story, each once.
        cut: Vec<Label>,
        /// Whether the exception that the fault raised was lost: no handler handled an exception with its name, and the
        /// job does not end with one.
        lost: bool,
    },
}

impl JobOutcome {
    /// Returns whether the job does not end by the limit.
    pub fn is_stuck(&self) -> bool
        ensures { result ≡ is_stuck (job_outcome_held self.now) }
    {
        match self {
            JobOutcome::Stuck { .. } => true,
            JobOutcome::Refused(_) | JobOutcome::Ended { .. } => false,
        }
    }

    /// Returns whether a task was cancelled in a cleanup, by the end of the job or by the limit.
    pub fn has_cut(&self) -> bool
        ensures { result ≡ has_cut (job_outcome_held self.now) }
    {
        match self {
            JobOutcome::Refused(_) => false,
            JobOutcome::Stuck { cut, .. } | JobOutcome::Ended { cut, .. } => !cut.is_empty(),
        }
    }

    /// Returns whether the exception that the fault raised was lost, by the end of the job or by the limit.
    pub fn has_lost(&self) -> bool
        ensures { result ≡ has_lost (job_outcome_held self.now) }
    {
        match self {
            JobOutcome::Refused(_) => false,
            JobOutcome::Stuck { lost, .. } | JobOutcome::Ended { lost, .. } => *lost,
        }
    }

    /// Returns whether the text of the job is refused.
    pub fn is_refused(&self) -> bool
        ensures { result ≡ is_refused (job_outcome_held self.now) }
    {
        match self {
            JobOutcome::Refused(_) => true,
            JobOutcome::Stuck { .. } | JobOutcome::Ended { .. } => false,
        }
    }

    // Returns the tasks that were cancelled in a cleanup.
    fn cut_tasks(&self) -> &[Label]
        ensures { result.now ≡ cut_tasks (job_outcome_held self.now) }
    {
        match self {
            JobOutcome::Refused(_) => &[],
            JobOutcome::Stuck { cut, .. } | JobOutcome::Ended { cut, .. } => cut.as_slice(),
        }
    }

    /// Returns whether a task was cancelled in a cleanup that was not cancelled in one in the other outcome.
    pub fn cuts_more_than(&self, before: &JobOutcome) -> bool
        ensures { result ≡ cuts_more (job_outcome_held before.now) (job_outcome_held self.now) }
    {
        has_further(self.cut_tasks(), before.cut_tasks())
    }
}

// Returns whether one of these labels is not among the others.
fn has_further(labels: &[Label], others: &[Label]) -> bool
    ensures { result ≡ has_further labels.now others.now }
{
    'labels: for label in labels {
        if !is_among(label, others) {
            return true;
        }
    }
    false
}

// Returns whether a label is one of these.
fn is_among(label: &Label, labels: &[Label]) -> bool
    ensures { result ≡ is_among label.now labels.now }
{
    'labels: for other in labels {
        if label == other {
            return true;
        }
    }
    false
}
