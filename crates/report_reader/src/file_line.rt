//! A line of a file: a guess at its entry, which is kept if it prints as the line.

ghost use Rattle.std.specs.Prelude.{codes, ◌≡◌, ◌<◌, ◌^◌, ◌++◌, ◌∷◌, ℕ, List, [], IfSome, IsSomeAnd, IfOk};
ghost use Rattle.std.specs.Fmt.{decimal};
ghost use Rattle.domains.specs.Level.{Level, IsLevel, level_name};
ghost use Rattle.file_history.specs.declared.entry.FileEntry as entry;
ghost use Rattle.file_history.specs.declared.entry.FileEvent as event;
ghost use Rattle.file_history.specs.declared.entry.FileEvent.TheVariants as events;
ghost use Rattle.file_history.specs.declared.entry.Refused.TheVariants as refusals;
ghost use Rattle.report.specs.FileLines.{file_line};
ghost use Rattle.report_reader.specs.Lines.{IsEvent, IsFileEntry, IsRange};
ghost use Rattle.report_reader.specs.Events.{IsCreate, IsRead, IsWrite, event_rest, event_word, file_text, outcome_text, range_rest};

use crate::events::{created, shown, written};
use crate::words::{after, by_of, cut, level_of, u8_of, u32_of, u64_of};
use domains::Level;
use file_history::{FileEntry, FileEvent, Refused};
use report::write_file_entry;
use std::alloc::{AllocError, Global};

/// What follows the word `create`.
fn create_of(alloc: Global, text: &str) -> Result<FileEvent, AllocError>
    ensures only { IfOk result (λ x. (level : Level) (e : event.FileEvent) → IsLevel level → IsEvent e → IsCreate e → text.now ≡ level_name level ++ 32 ∷ outcome_text e → x ≡ e) }
    ensures fits { IfOk result IsEvent }
{
    let (_level, rest) = cut(text, ' ');
    let (word, rest) = cut(rest, ' ');
    let event = created(alloc, word, rest)?;
    Ok(event)
}

/// What follows the word `write`.
fn write_of(alloc: Global, text: &str) -> Result<FileEvent, AllocError>
    ensures only { IfOk result (λ x. (offset : ℕ) (len : ℕ) (e : event.FileEvent) → IsRange offset len → IsEvent e → IsWrite offset len e → text.now ≡ range_rest offset len e → x ≡ e) }
    ensures fits { IfOk result IsEvent }
{
    let (offset, rest) = cut(text, ' ');
    let (len, rest) = cut(rest, ' ');
    let (word, rest) = cut(rest, ' ');
    let event = written(alloc, u64_of(offset), u32_of(len), word, rest)?;
    Ok(event)
}

/// What follows the word `read`.
fn read_of(alloc: Global, text: &str) -> Result<FileEvent, AllocError>
    ensures only { IfOk result (λ x. (offset : ℕ) (len : ℕ) (e : event.FileEvent) → IsRange offset len → IsEvent e → IsRead offset len e → text.now ≡ range_rest offset len e → x ≡ e) }
    ensures fits { IfOk result IsEvent }
{
    let (offset, rest) = cut(text, ' ');
    let (len, rest) = cut(rest, ' ');
    let (word, rest) = cut(rest, ' ');
    let event = shown(alloc, u64_of(offset), u32_of(len), word, rest)?;
    Ok(event)
}

fn level_outcome(level: Level, rest: &str) -> FileEvent
    ensures set { rest.now ≡ [] → result ≡ events.LevelSet level }
    ensures refused { rest.now ≡ codes "refused absent" → result ≡ events.Refused (refusals.LevelAbsent level) }
    ensures fits { IsLevel level → IsEvent result }
{
    match rest {
        "" => FileEvent::LevelSet { level },
        _ => FileEvent::Refused(Refused::LevelAbsent { level }),
    }
}

/// What follows the word `level`.
fn set_level_of(text: &str) -> FileEvent
    ensures set { (level : Level) → IsLevel level → text.now ≡ level_name level → result ≡ events.LevelSet level }
    ensures refused { (level : Level) → IsLevel level → text.now ≡ level_name level ++ 32 ∷ codes "refused absent" → result ≡ events.Refused (refusals.LevelAbsent level) }
    ensures fits { IsEvent result }
{
    let (name, rest) = cut(text, ' ');
    level_outcome(level_of(name), rest)
}

/// What follows the word `dead`.
fn dead_of(text: &str) -> FileEvent
    ensures only { (generation : ℕ) (position : ℕ) → generation < 2 ^ 32 → position < 2 ^ 8 → text.now ≡ decimal generation ++ 32 ∷ decimal position → result ≡ events.Dead generation position }
    ensures fits { IsEvent result }
{
    let (generation, position) = cut(text, ' ');
    FileEvent::Dead {
        generation: u32_of(generation),
        position: u8_of(position),
    }
}

/// What follows the word `delete`.
fn delete_of(text: &str) -> FileEvent
    ensures deleted { text.now ≡ [] → result ≡ events.Deleted }
    ensures refused { text.now ≡ codes "refused absent" → result ≡ events.Refused refusals.DeleteAbsent }
    ensures fits { IsEvent result }
{
    match text {
        "" => FileEvent::Deleted,
        _ => FileEvent::Refused(Refused::DeleteAbsent),
    }
}

/// The event of a file that was declared with some level, by its first word and what follows it.
fn event_of(alloc: Global, word: &str, rest: &str) -> Result<FileEvent, AllocError>
    ensures only { IfOk result (λ x. (declared : Level) (e : event.FileEvent) → IsLevel declared → IsEvent e → word.now ≡ event_word e → rest.now ≡ event_rest declared e → x ≡ e) }
    ensures fits { IfOk result IsEvent }
{
    match word {
        "create" => {
            let event = create_of(alloc, rest)?;
            Ok(event)
        }
        "delete" => Ok(delete_of(rest)),
        "write" => {
            let event = write_of(alloc, rest)?;
            Ok(event)
        }
        "read" => {
            let event = read_of(alloc, rest)?;
            Ok(event)
        }
        "level" => Ok(set_level_of(rest)),
        _ => Ok(dead_of(rest)),
    }
}

/// The entry that a line tells, without its line feed.
fn entry_of(alloc: Global, text: &str) -> Result<FileEntry, AllocError>
    ensures only { IfOk result (λ x. (declared : Level) (e : entry.FileEntry) → IsLevel declared → IsFileEntry e → text.now ≡ file_text declared e → x ≡ e) }
    ensures fits { IfOk result IsFileEntry }
{
    let (by, rest) = cut(text, ' ');
    let (epoch, rest) = cut(rest, ' ');
    let (_mark, epoch) = cut(epoch, 'e');
    let (word, rest) = cut(rest, ' ');
    let event = event_of(alloc, word, rest)?;
    Ok(FileEntry {
        by: by_of(by),
        epoch: u32_of(epoch),
        event,
    })
}

/// The entry of the line that the text of a file declared with this level begins with, and what stands behind its line feed:
/// nothing if it begins with the line of none (docs/FORMATS.md, "Report"). `scratch` is written over.
pub fn read_file_entry<'a>(
    alloc: Global,
    scratch: &mut String,
    declared: Level,
    text: &'a str,
) -> Result<Option<(FileEntry, &'a str)>, AllocError>
    // What is read prints as the line.
    ensures found { IfOk result (λ r. IfSome r (λ p. text.now ≡ file_line declared p.0 ++ p.1.now)) }
    ensures fits { IfOk result (λ r. IfSome r (λ p. IsFileEntry p.0)) }
    // What prints as the line is read.
    ensures only { IfOk result (λ r. (e : entry.FileEntry) (rest : List ℕ) → IsFileEntry e → text.now ≡ file_line declared e ++ rest → IsSomeAnd r (λ p. (p.0 ≡ e) × (p.1.now ≡ rest))) }
{
    // A level that is read is known to be one.
    let _width = declared.w();
    let (line, _) = cut(text, '\n');
    let entry = entry_of(alloc, line)?;
    scratch.clear();
    write_file_entry(scratch, declared, &entry)?;
    match after(text, scratch.as_str()) {
        Some(rest) => Ok(Some((entry, rest))),
        None => Ok(None),
    }
}
