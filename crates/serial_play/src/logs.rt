//! What a run logged, and why one gave up.

ghost use Rattle.std.specs.Prelude.{◌≡◌};
ghost use Rattle.serial_play.specs.Outcomes.{fault_of};

use board_history::BoardEntry;
use fabric::OpenFault;
use file_history::FileLog;
use flex_io::Fault;
use lists::List;
use std::alloc::AllocError;
use thiserror::Error;

/// What a run logged: the entries of the board, and those of each file in scenario order.
#[derive(Debug, Drop)]
pub struct RunLogs {
    pub board: List<BoardEntry>,
    pub files: List<FileLog>,
}

/// Why a play gave up: the rack failed, memory ran out, or a log was full after these entries.
#[derive(Debug, Drop, Error)]
pub enum PlayFault {
    #[error("the rack failed")]
    Rack,
    #[error("out of memory")]
    NoMemory,
    #[error("a log is full")]
    LogFull { logs: RunLogs },
}

impl From<AllocError> for PlayFault {
    ghost use Rattle.std.specs.Prelude.{◌≡◌};
    ghost use Rattle.serial_play.specs.declared.logs.PlayFault.TheVariants.{NoMemory};

    ghost from_gives = { λ _ told. told ≡ NoMemory };

    fn from(_fault: AllocError) -> PlayFault {
        PlayFault::NoMemory
    }
}

impl From<OpenFault> for PlayFault {
    ghost use Rattle.std.specs.Prelude.{◌≡◌};
    ghost use Rattle.serial_play.specs.Outcomes.{fault_at_open};

    ghost from_gives = { λ fault told. told ≡ fault_at_open fault };

    fn from(fault: OpenFault) -> PlayFault {
        match fault {
            OpenFault::Rack => PlayFault::Rack,
            OpenFault::NoMemory => PlayFault::NoMemory,
        }
    }
}

/// What a fault of the rack at the end of a run means.
pub(crate) fn fault_of(fault: Fault) -> PlayFault
    ensures { result ≡ fault_of fault }
{
    match fault {
        Fault::Failed => PlayFault::Rack,
        Fault::NoMemory => PlayFault::NoMemory,
    }
}
