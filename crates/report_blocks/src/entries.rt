//! The lines of entries.

ghost use Rattle.std.specs.Prelude.{IfErr, IfOk};
ghost use Rattle.domains.specs.Level.{IsLevel};
ghost use Rattle.report.specs.BoardLines.{board_line};
ghost use Rattle.report.specs.FileLines.{file_line};
ghost use Rattle.report_reader.specs.Lines.{IsBoardEntry, IsFileEntry};
ghost use Rattle.report_blocks.specs.Blocks.{AreEntries, all_lines};
ghost use Rattle.report_blocks.specs.Fronts.{IsRead, Stops};

use crate::stop::Stop;
use board_history::BoardEntry;
use domains::Level;
use file_history::FileEntry;
use report_reader::{read_board_entry, read_file_entry};
use std::alloc::Global;

/// The entry of the board whose line comes first, and what stands behind it.
fn next_board_entry<'a>(scratch: &mut String, text: &'a str) -> Result<(BoardEntry, &'a str), Stop>
    ensures read { IfOk result (λ p. IsRead IsBoardEntry board_line text.now p.0 p.1.now) }
    ensures stopped { IfErr result (Stops IsBoardEntry board_line text.now) }
{
    match read_board_entry(scratch, text) {
        Ok(Some(read)) => Ok(read),
        Ok(None) => Err(Stop::At { left: text.len() }),
        Err(_) => Err(Stop::NoMemory),
    }
}

/// The first `count` entries of the board, and what stands behind them.
pub(crate) fn read_board_entries<'a>(
    alloc: Global,
    scratch: &mut String,
    count: u64,
    text: &'a str,
) -> Result<(Vec<BoardEntry>, &'a str), Stop>
    ensures read { IfOk result (λ p. IsRead (AreEntries count IsBoardEntry) (all_lines board_line) text.now p.0.items p.1.now) }
    ensures stopped { IfErr result (Stops (AreEntries count IsBoardEntry) (all_lines board_line) text.now) }
{
    let mut entries = Vec::new(alloc);
    let mut rest = text;
    'entries: while (entries.len() as u64) < count {
        let (entry, after) = match next_board_entry(scratch, rest) {
            Ok(next) => next,
            Err(stop) => return Err(stop),
        };
        entries.push(entry)?;
        rest = after;
    }
    Ok((entries, rest))
}

/// The entry of a file declared with this level whose line comes first, and what stands behind it.
fn next_file_entry<'a>(
    alloc: Global,
    scratch: &mut String,
    declared: Level,
    text: &'a str,
) -> Result<(FileEntry, &'a str), Stop>
    ensures read { IfOk result (λ p. IsRead IsFileEntry (file_line declared) text.now p.0 p.1.now) }
    ensures stopped { IfErr result (Stops IsFileEntry (file_line declared) text.now) }
{
    let _width = declared.w();
    match read_file_entry(alloc, scratch, declared, text) {
        Ok(Some(read)) => Ok(read),
        Ok(None) => Err(Stop::At { left: text.len() }),
        Err(_) => Err(Stop::NoMemory),
    }
}

/// The first `count` entries of a file declared with this level, and what stands behind them.
pub(crate) fn read_file_entries<'a>(
    alloc: Global,
    scratch: &mut String,
    declared: Level,
    count: u64,
    text: &'a str,
) -> Result<(Vec<FileEntry>, &'a str), Stop>
    ensures read { IfOk result (λ p. IsRead (AreEntries count IsFileEntry) (all_lines (file_line declared)) text.now p.0.items p.1.now) }
    ensures stopped { IfErr result (Stops (AreEntries count IsFileEntry) (all_lines (file_line declared)) text.now) }
{
    // A level that is read is known to be one.
    let _width = declared.w();
    let mut entries = Vec::new(alloc);
    let mut rest = text;
    'entries: while (entries.len() as u64) < count {
        let (entry, after) = match next_file_entry(alloc, scratch, declared, rest) {
            Ok(next) => next,
            Err(stop) => return Err(stop),
        };
        entries.push(entry)?;
        rest = after;
    }
    Ok((entries, rest))
}
