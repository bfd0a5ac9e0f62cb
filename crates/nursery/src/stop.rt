ghost use Rattle.std.specs.Prelude.{◌≡◌};
ghost use Rattle.nursery.specs.Statuses.{status_of};

use feed_tests::TestStop;
use job_answers::{SendFault, ServeFault};
use std::alloc::AllocError;
use thiserror::Error;

/// Why the program has no verdict. It is printed as the user's line, with its newline.
#[derive(Debug, Drop, Error)]
pub enum Stop {
    /// The command line was refused.
    #[error("{text}")]
    Words {
        text: String,
    },
    /// An argument is not UTF-8 text.
    #[error("error: an argument is not UTF-8 text\n")]
    NoText,
    /// The job file cannot be opened or read.
    #[error("cannot read the job file\n{reason}")]
    JobFile {
        /// A line that names the file and says why, or empty if memory ran out for it.
        reason: String,
    },
    /// The input file, or standard input, cannot be opened or read.
    #[error("cannot read the input file\n{reason}")]
    InputFile {
        /// A line that names the file and says why, or empty if memory ran out for it.
        reason: String,
    },
    /// The input has more bytes than it may have.
    #[error("input too long\n")]
    TooLong,
    /// The job file cannot be replaced. It is as it was.
    #[error("cannot write the job file\n{reason}")]
    JobFileKept {
        /// A line that names the file and says why, or empty if memory ran out for it.
        reason: String,
    },
    /// Standard output did not take all bytes.
    #[error("cannot write\n")]
    Write,
    /// Memory ran out.
    #[error("no memory\n")]
    NoMemory,
}

impl Stop {
    // Returns the program's exit status.
    pub(crate) fn status(&self) -> u8
        ensures { result ≡ status_of self.now }
    {
        match self {
            Stop::Words { .. } | Stop::NoText => 2,
            Stop::JobFile { .. }
            | Stop::InputFile { .. }
            | Stop::TooLong
            | Stop::JobFileKept { .. }
            | Stop::Write => 4,
            Stop::NoMemory => 5,
        }
    }
}

impl From<ServeFault> for Stop {
    ghost use Rattle.nursery.specs.Statuses.{stop_of};

    ghost from_gives = { λ fault stop. stop ≡ stop_of fault };

    fn from(fault: ServeFault) -> Stop {
        match fault {
            ServeFault::Send { .. } => Stop::Write,
            ServeFault::NoMemory => Stop::NoMemory,
        }
    }
}

impl From<AllocError> for Stop {
    ghost use Rattle.nursery.specs.declared.stop.Stop.TheVariants.{NoMemory};

    ghost from_gives = { λ _ stop. stop ≡ NoMemory };

    fn from(_error: AllocError) -> Stop {
        Stop::NoMemory
    }
}

impl From<SendFault> for Stop {
    ghost use Rattle.nursery.specs.declared.stop.Stop.TheVariants.{Write};

    ghost from_gives = { λ _ stop. stop ≡ Write };

    fn from(_stopped: SendFault) -> Stop {
        Stop::Write
    }
}

impl From<TestStop> for Stop {
    ghost use Rattle.nursery.specs.Statuses.{test_stop_of};

    ghost from_gives = { λ stopped stop. stop ≡ test_stop_of stopped };

    fn from(stopped: TestStop) -> Stop {
        match stopped {
            TestStop::Write => Stop::Write,
            TestStop::NoMemory => Stop::NoMemory,
        }
    }
}
