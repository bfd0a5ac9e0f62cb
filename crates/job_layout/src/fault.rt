ghost use Rattle.std.specs.Prelude.{◌≡◌};
ghost use Rattle.job_layout.specs.Faults.{fault_of};
ghost use Rattle.job_layout.specs.declared.fault.FormatFault.TheVariants.{NoMemory};

use job_reader::{JobFault, JobKind};
use std::alloc::AllocError;

/// Why a text could not be formatted.
#[derive(Clone, Copy, Debug, PartialEq, Eq)]
pub enum FormatFault {
    /// The text is refused, as it is by `read_job`.
    Refused(JobFault),
    /// The formatted text would have this number of bytes, which is more than a job text may have.
    TooLong(usize),
    /// Memory ran out.
    NoMemory,
}

impl From<AllocError> for FormatFault {
    ghost from_gives = { λ _ fault. fault ≡ NoMemory };

    fn from(_: AllocError) -> FormatFault {
        FormatFault::NoMemory
    }
}

impl From<JobFault> for FormatFault {
    ghost from_gives = { λ fault e. e ≡ fault_of fault };

    fn from(fault: JobFault) -> FormatFault {
        match fault.kind {
            JobKind::NoMemory => FormatFault::NoMemory,
            _ => FormatFault::Refused(fault),
        }
    }
}
