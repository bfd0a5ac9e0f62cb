ghost use Rattle.std.specs.Prelude.{◌≡◌};
ghost use Rattle.feed_tests.specs.declared.stop.TestStop.TheVariants.{NoMemory};

use std::alloc::AllocError;
use thiserror::Error;

/// Why the tests stopped.
#[derive(Clone, Copy, Debug, PartialEq, Eq, Error)]
pub enum TestStop {
    /// Standard output did not take all bytes.
    #[error("cannot write")]
    Write,
    /// Memory ran out.
    #[error("no memory")]
    NoMemory,
}

impl From<AllocError> for TestStop {
    ghost from_gives = { λ _ stop. stop ≡ NoMemory };

    fn from(_error: AllocError) -> TestStop {
        TestStop::NoMemory
    }
}
