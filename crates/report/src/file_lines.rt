//! The lines of a file's log (docs/FORMATS.md, "Report").

ghost use Rattle.std.specs.Prelude.{◌≡◌, ◌++◌, string_bytes, OnOk};
ghost use Rattle.report.specs.FileLines.{change_text, create_text, event_text, file_line, file_lines, range_text, refused_text};
ghost use Rattle.report.specs.RefusedParts.{operation_text, reason_text};

use crate::words::{
    write_by, write_bytes, write_drives, write_group, write_groups, write_number, write_numbers,
};
use domains::Level;
use file_history::{Change, FileEntry, FileEvent, Refused};
use std::alloc::AllocError;

/// Adds the entries of a file that was declared with this level.
pub(crate) fn write_entries(
    text: &mut String,
    declared: Level,
    log: &[FileEntry],
) -> Result<(), AllocError>
    ensures { OnOk result (string_bytes text.new ≡ string_bytes text.old ++ file_lines declared log.now) }
{
    for entry in log {
        write_file_entry(text, declared, entry)?;
    }
    Ok(())
}

/// Adds the line of an entry of a file that was declared with this level.
#[tactic(auto, unfolding(crate::specs::FileLines::file_line))]
pub fn write_file_entry(
    text: &mut String,
    declared: Level,
    entry: &FileEntry,
) -> Result<(), AllocError>
    ensures { OnOk result (string_bytes text.new ≡ string_bytes text.old ++ file_line declared entry.now) }
{
    write_by(text, entry.by)?;
    text.push_str(" e")?;
    write_number(text, u64::from(entry.epoch))?;
    text.push(' ')?;
    write_event(text, declared, &entry.event)?;
    text.push('\n')
}

/// Adds what was done. What jobs do has no line until jobs are built.
#[tactic(auto, unfolding(crate::specs::FileLines::event_text))]
fn write_event(text: &mut String, declared: Level, event: &FileEvent) -> Result<(), AllocError>
    ensures { OnOk result (string_bytes text.new ≡ string_bytes text.old ++ event_text declared event.now) }
{
    match event {
        FileEvent::Created { inode } => {
            write_create(text, declared)?;
            text.push_str(" inode ")?;
            write_group(text, inode)
        }
        FileEvent::Deleted => text.push_str("delete"),
        FileEvent::Written {
            offset,
            len,
            size,
            change,
        } => {
            write_range(text, "write", *offset, *len)?;
            text.push_str(" size ")?;
            write_number(text, *size)?;
            write_change(text, change)
        }
        FileEvent::Shown { offset, len, bytes } => {
            write_range(text, "read", *offset, *len)?;
            text.push_str(" shown ")?;
            write_bytes(text, bytes.as_slice())
        }
        FileEvent::LevelSet { level } => {
            text.push_str("level ")?;
            text.push_str(level.name())
        }
        FileEvent::Dead {
            generation,
            position,
        } => {
            text.push_str("dead ")?;
            write_number(text, u64::from(*generation))?;
            text.push(' ')?;
            write_number(text, u64::from(*position))
        }
        FileEvent::Placed { .. }
        | FileEvent::Barred { .. }
        | FileEvent::Cleared { .. }
        | FileEvent::Marked { .. } => Ok(()),
        FileEvent::Refused(why) => write_refused(text, declared, why),
    }
}

#[tactic(auto, unfolding(crate::specs::FileLines::create_text))]
fn write_create(text: &mut String, declared: Level) -> Result<(), AllocError>
    ensures { OnOk result (string_bytes text.new ≡ string_bytes text.old ++ create_text declared) }
{
    text.push_str("create ")?;
    text.push_str(declared.name())
}

/// Adds an operation on a range, by its word.
#[tactic(auto, unfolding(crate::specs::FileLines::range_text))]
fn write_range(text: &mut String, word: &str, offset: u64, len: u32) -> Result<(), AllocError>
    ensures { OnOk result (string_bytes text.new ≡ string_bytes text.old ++ range_text word.now offset len) }
{
    text.push_str(word)?;
    text.push(' ')?;
    write_number(text, offset)?;
    text.push(' ')?;
    write_number(text, u64::from(len))
}

#[tactic(auto, unfolding(crate::specs::FileLines::change_text))]
fn write_change(text: &mut String, change: &Change) -> Result<(), AllocError>
    ensures { OnOk result (string_bytes text.new ≡ string_bytes text.old ++ change_text change.now) }
{
    text.push_str(" old ")?;
    write_numbers(text, change.old.as_slice())?;
    text.push_str(" new ")?;
    write_groups(text, change.new.as_slice())?;
    text.push_str(" inode ")?;
    write_group(text, &change.inode)
}

fn write_refused(text: &mut String, declared: Level, refused: &Refused) -> Result<(), AllocError>
    ensures { OnOk result (string_bytes text.new ≡ string_bytes text.old ++ refused_text declared refused.now) }
{
    write_refused_operation(text, declared, refused)?;
    text.push_str(" refused ")?;
    write_reason(text, refused)
}

#[tactic(auto, unfolding(crate::specs::RefusedParts::operation_text))]
fn write_refused_operation(
    text: &mut String,
    declared: Level,
    refused: &Refused,
) -> Result<(), AllocError>
    ensures { OnOk result (string_bytes text.new ≡ string_bytes text.old ++ operation_text declared refused.now) }
{
    match refused {
        Refused::CreateExists | Refused::CreateTooFew(_) | Refused::CreateNoRoom { .. } => {
            write_create(text, declared)
        }
        Refused::DeleteAbsent => text.push_str("delete"),
        Refused::WriteAbsent { offset, len }
        | Refused::WriteTooFew { offset, len, .. }
        | Refused::WriteTooLong { offset, len, .. }
        | Refused::WriteLost { offset, len, .. }
        | Refused::WriteNoRoom { offset, len, .. } => write_range(text, "write", *offset, *len),
        Refused::ReadAbsent { offset, len } | Refused::ReadLost { offset, len, .. } => {
            write_range(text, "read", *offset, *len)
        }
        Refused::LevelAbsent { level } => {
            text.push_str("level ")?;
            text.push_str(level.name())
        }
    }
}

#[tactic(auto, unfolding(crate::specs::RefusedParts::reason_text))]
fn write_reason(text: &mut String, refused: &Refused) -> Result<(), AllocError>
    ensures { OnOk result (string_bytes text.new ≡ string_bytes text.old ++ reason_text refused.now) }
{
    match refused {
        Refused::CreateExists => text.push_str("exists"),
        Refused::DeleteAbsent
        | Refused::WriteAbsent { .. }
        | Refused::ReadAbsent { .. }
        | Refused::LevelAbsent { .. } => text.push_str("absent"),
        Refused::CreateTooFew(fault) | Refused::WriteTooFew { fault, .. } => {
            text.push_str("toofew ")?;
            write_number(text, u64::from(fault.have))?;
            text.push(' ')?;
            write_number(text, u64::from(fault.need))
        }
        Refused::WriteTooLong { count, .. } => {
            text.push_str("toolong ")?;
            write_number(text, *count)
        }
        Refused::WriteLost { lost, .. } | Refused::ReadLost { lost, .. } => {
            text.push_str("lost ")?;
            write_number(text, u64::from(lost.generation))?;
            text.push(' ')?;
            write_number(text, u64::from(lost.have))?;
            text.push(' ')?;
            write_number(text, u64::from(lost.need))
        }
        Refused::CreateNoRoom { need, got, drives }
        | Refused::WriteNoRoom {
            need,
            got,
            drives,
            ..
        } => {
            text.push_str("noroom ")?;
            write_number(text, u64::from(*need))?;
            text.push(' ')?;
            write_number(text, u64::from(*got))?;
            text.push(' ')?;
            write_drives(text, drives.as_slice())
        }
    }
}
