//! The log of a plain file, as it grows.

ghost use Rattle.std.specs.Prelude.{◌≡◌, [], ◌∷◌, ◌++◌, OnOk, OnErr};

use domains::By;
use file_history::{FileEntry, FileEvent, NotedEntry};
use lists::List;
use std::alloc::AllocError;

/// Writes an entry at the end of the log.
pub(crate) fn note(
    log: &mut Vec<NotedEntry>,
    by: By,
    epoch: u32,
    payload: List<u8>,
    event: FileEvent,
) -> Result<(), AllocError>
    ensures ok { OnOk result (log.new.items ≡ log.old.items
        ++ record { entry = record { by = by; epoch = epoch; event = event }; payload = payload } ∷ []) }
    ensures kept { OnErr result (log.new.items ≡ log.old.items) }
{
    log.push(NotedEntry {
        entry: FileEntry { by, epoch, event },
        payload,
    })?;
    Ok(())
}
