//! What the answers of paths are to a run: a refusal that is noted is an entry as any other, and stops nothing.

ghost use Rattle.std.specs.Prelude.{◌≡◌};
ghost use Rattle.actor_operations.specs.Stops.{after_create, after_level, after_order, after_read, after_removal};

use board::Grow;
use board_history::Effect;
use level_path::LevelRefusal;
use lists::List;
use read_path::ReadRefusal;
use thiserror::Error;
use write_path::{CreateRefusal, RemoveRefusal};

/// Why an operation has no entry. The run ends there.
#[derive(Clone, Copy, Debug, PartialEq, Eq, Error)]
pub enum Stop {
    #[error("the log is full")]
    LogFull,
    #[error("out of memory")]
    NoMemory,
}

pub(crate) fn after_create(answer: Result<(), CreateRefusal>) -> Result<(), Stop>
    ensures { result ≡ after_create answer }
{
    match answer {
        Ok(()) => Ok(()),
        Err(CreateRefusal::Exists) => Ok(()),
        Err(CreateRefusal::TooFew(_fault)) => Ok(()),
        Err(CreateRefusal::NoRoom(_told)) => Ok(()),
        Err(CreateRefusal::LogFull) => Err(Stop::LogFull),
        Err(CreateRefusal::NoMemory) => Err(Stop::NoMemory),
    }
}

pub(crate) fn after_removal(answer: Result<(), RemoveRefusal>) -> Result<(), Stop>
    ensures { result ≡ after_removal answer }
{
    match answer {
        Ok(()) | Err(RemoveRefusal::Absent) => Ok(()),
        Err(RemoveRefusal::LogFull) => Err(Stop::LogFull),
        Err(RemoveRefusal::NoMemory) => Err(Stop::NoMemory),
    }
}

pub(crate) fn after_read(answer: Result<List<u8>, ReadRefusal>) -> Result<(), Stop>
    ensures { result ≡ after_read answer }
{
    match answer {
        Ok(_bytes) => Ok(()),
        Err(ReadRefusal::Absent) => Ok(()),
        Err(ReadRefusal::Lost(_lost)) => Ok(()),
        Err(ReadRefusal::LogFull) => Err(Stop::LogFull),
        Err(ReadRefusal::NoMemory) => Err(Stop::NoMemory),
    }
}

pub(crate) fn after_level(answer: Result<(), LevelRefusal>) -> Result<(), Stop>
    ensures { result ≡ after_level answer }
{
    match answer {
        Ok(()) | Err(LevelRefusal::Absent) => Ok(()),
        Err(LevelRefusal::LogFull) => Err(Stop::LogFull),
        Err(LevelRefusal::NoMemory) => Err(Stop::NoMemory),
    }
}

pub(crate) fn after_order(answer: Result<Effect, Grow>) -> Result<(), Stop>
    ensures { result ≡ after_order answer }
{
    match answer {
        Ok(_effect) => Ok(()),
        Err(Grow::LogFull) => Err(Stop::LogFull),
        Err(Grow::NoMemory) => Err(Stop::NoMemory),
    }
}
