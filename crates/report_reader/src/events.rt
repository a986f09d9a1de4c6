//! What was done to a file, or refused.

ghost use Rattle.std.specs.Prelude.{codes, ◌≡◌, ◌<◌, ◌^◌, ◌++◌, ◌∷◌, ℕ, [], IfOk};
ghost use Rattle.std.specs.Fmt.{decimal};
ghost use Rattle.domains.specs.Level.{Level, IsLevel, level_name};
ghost use Rattle.file_history.specs.declared.entry.Change as change;
ghost use Rattle.file_history.specs.declared.entry.FileEvent as event;
ghost use Rattle.file_history.specs.declared.entry.Refused as refused;
ghost use Rattle.report_reader.specs.Lines.{IsChange, IsEvent, IsRange, IsRefused};
ghost use Rattle.report_reader.specs.Refusals.{reason_head, reason_line, reason_rest};
ghost use Rattle.report_reader.specs.Events.{IsCreate, IsRead, IsWrite, event_rest, event_word, outcome_rest, outcome_text, outcome_word, range_rest, size_rest};

use crate::comma_lists::generations_of;
use crate::groups::{bytes_of, group_of, groups_of};
use crate::refusals::{create_refusal, read_refusal, write_refusal};
use crate::words::{cut, level_of, u8_of, u32_of, u64_of};
use file_history::{Change, FileEvent, Refused};
use std::alloc::{AllocError, Global};

/// The first word of a reason, and what follows it.
fn reason_of(text: &str) -> (&str, &str)
    ensures { (r : refused.Refused) → IsRefused r → text.now ≡ reason_line r → (result.0.now ≡ reason_head r) × (result.1.now ≡ reason_rest r) }
{
    cut(text, ' ')
}

/// What a create did.
pub(crate) fn created(alloc: Global, word: &str, rest: &str) -> Result<FileEvent, AllocError>
    ensures only { IfOk result (λ x. (e : event.FileEvent) → IsEvent e → IsCreate e → word.now ≡ outcome_word e → rest.now ≡ outcome_rest e → x ≡ e) }
    ensures fits { IfOk result IsEvent }
{
    match word {
        "inode" => {
            let inode = group_of(alloc, rest)?;
            Ok(FileEvent::Created { inode })
        }
        _ => {
            let (word, rest) = reason_of(rest);
            let refused = create_refusal(alloc, word, rest)?;
            Ok(FileEvent::Refused(refused))
        }
    }
}

/// The size and the change of a write.
fn change_of(alloc: Global, text: &str) -> Result<(u64, Change), AllocError>
    ensures only { IfOk result (λ x. (size : ℕ) (c : change.Change) → size < 2 ^ 64 → IsChange c → text.now ≡ size_rest size c → (x.0 ≡ size) × (x.1 ≡ c)) }
    ensures fits { IfOk result (λ x. (x.0 < 2 ^ 64) × IsChange x.1) }
{
    let (size, rest) = cut(text, ' ');
    let (_old, rest) = cut(rest, ' ');
    let (generations, rest) = cut(rest, ' ');
    let (_new, rest) = cut(rest, ' ');
    let old = generations_of(alloc, generations)?;
    let (groups, rest) = match groups_of(alloc, rest) {
        Ok(read) => read,
        Err(fault) => return Err(fault),
    };
    let inode = group_of(alloc, rest)?;
    let change = Change {
        old: lists::List::from_vec(old),
        new: lists::List::from_vec(groups),
        inode,
    };
    Ok((u64_of(size), change))
}

/// What a write did.
pub(crate) fn written(
    alloc: Global,
    offset: u64,
    len: u32,
    word: &str,
    rest: &str,
) -> Result<FileEvent, AllocError>
    ensures only { IfOk result (λ x. (e : event.FileEvent) → IsEvent e → IsWrite offset len e → word.now ≡ outcome_word e → rest.now ≡ outcome_rest e → x ≡ e) }
    ensures fits { IfOk result IsEvent }
{
    match word {
        "size" => {
            let (size, change) = change_of(alloc, rest)?;
            Ok(FileEvent::Written {
                offset,
                len,
                size,
                change,
            })
        }
        _ => {
            let (word, rest) = reason_of(rest);
            let refused = write_refusal(alloc, offset, len, word, rest)?;
            Ok(FileEvent::Refused(refused))
        }
    }
}

/// What a read did.
pub(crate) fn shown(
    alloc: Global,
    offset: u64,
    len: u32,
    word: &str,
    rest: &str,
) -> Result<FileEvent, AllocError>
    ensures only { IfOk result (λ x. (e : event.FileEvent) → IsEvent e → IsRead offset len e → word.now ≡ outcome_word e → rest.now ≡ outcome_rest e → x ≡ e) }
    ensures fits { IfOk result IsEvent }
{
    match word {
        "shown" => {
            let bytes = lists::List::from_vec(bytes_of(alloc, rest)?);
            Ok(FileEvent::Shown { offset, len, bytes })
        }
        _ => {
            let (word, rest) = reason_of(rest);
            Ok(FileEvent::Refused(read_refusal(offset, len, word, rest)))
        }
    }
}
