//! What a plain file is asked to do, and why it may give up.

use flex_io::Fault;
use lists::List;
use std::alloc::AllocError;
use thiserror::Error;

/// An operation on the one file. A write begins at the front.
#[derive(Debug, Drop)]
pub enum PlainOp {
    Create,
    Write { bytes: List<u8> },
    Read { offset: u64, len: u32 },
}

#[derive(Clone, Copy, Debug, PartialEq, Eq, Error)]
pub enum PlainFault {
    #[error("a slot failed")]
    Slot,
    #[error("out of memory")]
    NoMemory,
}

impl From<Fault> for PlainFault {
    ghost use Rattle.std.specs.Prelude.{◌≡◌};
    ghost use Rattle.flex_io.specs.declared.fault.Fault.TheVariants.{Failed};
    ghost use Rattle.plain_file.specs.declared.op.PlainFault.TheVariants.{Slot};

    ghost from_gives = { λ fault told. told ≡ Slot → fault ≡ Failed };

    fn from(fault: Fault) -> PlainFault {
        match fault {
            Fault::Failed => PlainFault::Slot,
            Fault::NoMemory => PlainFault::NoMemory,
        }
    }
}

impl From<AllocError> for PlainFault {
    ghost use Rattle.std.specs.Prelude.{◌≡◌};
    ghost use Rattle.plain_file.specs.declared.op.PlainFault.TheVariants.{NoMemory};

    ghost from_gives = { λ _ told. told ≡ NoMemory };

    fn from(_fault: AllocError) -> PlainFault {
        PlainFault::NoMemory
    }
}
