ghost use Rattle.std.specs.Prelude.{◌≡◌};
ghost use Rattle.job_answers.specs.Statuses.{status_of, check_status_of};
ghost use Rattle.job_answers.specs.declared.verdict.ServeFault.TheVariants.{Send, NoMemory};

use job_reader::JobFault;
use job_report::SendFault;
use std::alloc::AllocError;
use thiserror::Error;

/// What `serve` wrote.
#[derive(Clone, Copy, Debug)]
pub enum Verdict {
    /// The report of a job whose root ended without an exception.
    Done,
    /// The report of a job whose root ended with an exception.
    Raised,
    /// The refusal of the job text.
    JobRefused(JobFault),
    /// The line that says that the job ends later than the limit.
    Limit,
}

impl Verdict {
    /// Returns the exit status of the program that wrote this: 0 if the job ended without an exception, 1 if it
    /// raised, 2 if its text was refused, 3 if it ends later than the limit.
    pub fn status(self) -> u8
        ensures { result ≡ status_of self }
    {
        match self {
            Verdict::Done => 0,
            Verdict::Raised => 1,
            Verdict::JobRefused(_) => 2,
            Verdict::Limit => 3,
        }
    }
}

/// What `check` wrote.
#[derive(Clone, Copy, Debug)]
pub enum CheckVerdict {
    /// The job's canonical text.
    Fine,
    /// The refusal of the job text.
    JobRefused(JobFault),
}

impl CheckVerdict {
    /// Returns the exit status of the program that wrote this: 0 for a job, 2 for a refused text.
    pub fn status(self) -> u8
        ensures { result ≡ check_status_of self }
    {
        match self {
            CheckVerdict::Fine => 0,
            CheckVerdict::JobRefused(_) => 2,
        }
    }
}

/// Why not all bytes were sent.
#[derive(Clone, Copy, Debug, PartialEq, Eq, Error)]
pub enum ServeFault {
    /// The writer failed after the first `sent` bytes.
    #[error("cannot write")]
    Send {
        /// How many bytes from the front were taken.
        sent: usize,
    },
    /// Memory ran out, and nothing was sent.
    #[error("no memory")]
    NoMemory,
}

impl From<AllocError> for ServeFault {
    ghost from_gives = { λ _ fault. fault ≡ NoMemory };

    fn from(_error: AllocError) -> ServeFault {
        ServeFault::NoMemory
    }
}

impl From<SendFault> for ServeFault {
    ghost from_gives = { λ stopped fault. fault ≡ Send stopped.sent };

    fn from(stopped: SendFault) -> ServeFault {
        ServeFault::Send { sent: stopped.sent }
    }
}
