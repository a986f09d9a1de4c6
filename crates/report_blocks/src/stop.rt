//! Why the front of a text was not read.

ghost use Rattle.std.specs.Prelude.{◌≡◌};
ghost use Rattle.report_blocks.specs.declared.stop.Stop.TheVariants.{NoMemory};

use std::alloc::{AllocError, AllocFailed};

/// Why the front of a text was not read.
#[derive(Clone, Copy, Debug, PartialEq, Eq)]
pub enum Stop {
    NoMemory,
    /// At the line where the last `left` bytes begin.
    At { left: usize },
}

impl From<AllocError> for Stop {
    ghost from_gives = { λ _ e. e ≡ NoMemory };

    fn from(_e: AllocError) -> Stop {
        Stop::NoMemory
    }
}

impl<T: Drop> From<AllocFailed<T>> for Stop {
    ghost from_gives = { λ _ e. e ≡ NoMemory };

    fn from(_e: AllocFailed<T>) -> Stop {
        Stop::NoMemory
    }
}
