ghost use Rattle.job_runner.specs.declared.fault.RunFault.TheVariants.{NoMemory};
ghost use Rattle.std.specs.Prelude.{◌≡◌};

use std::alloc::AllocError;
use thiserror::Error;

/// Why a run has no records.
#[derive(Debug, Drop, Error)]
pub enum RunFault {
    /// The job's meaning ends later than the limit.
    #[error("limit {limit}")]
    Limit {
        /// The limit of the settings, in ticks.
        limit: u64,
    },
    /// Memory ran out.
    #[error("no memory")]
    NoMemory,
}

impl From<AllocError> for RunFault {
    ghost from_gives = { λ _ e. e ≡ NoMemory };

    fn from(_e: AllocError) -> RunFault {
        RunFault::NoMemory
    }
}
