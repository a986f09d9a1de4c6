//! A block of the board or of a file: a line with a count, and as many lines of entries.

ghost use Rattle.std.specs.Prelude.{◌≡◌, true, IfErr, IfOk};
ghost use Rattle.domains.specs.Level.{IsLevel};
ghost use Rattle.report.specs.Printed.{board_block, file_block};
ghost use Rattle.report_reader.specs.Counts.{count_line};
ghost use Rattle.report_reader.specs.Fits.{IsWide};
ghost use Rattle.report_reader.specs.Lines.{IsBoardEntry, IsFileEntry, lacks};
ghost use Rattle.report_blocks.specs.Blocks.{IsLog};
ghost use Rattle.report_blocks.specs.Fronts.{IsRead, Stops};

use crate::entries::{read_board_entries, read_file_entries};
use crate::stop::Stop;
use board_history::BoardEntry;
use file_history::FileEntry;
use report_reader::read_count;
use scenario::FileDecl;
use std::alloc::Global;
use std::fmt::Write;

/// The count behind this head, and what stands behind its line.
fn count_behind<'a>(scratch: &mut String, head: &str, text: &'a str) -> Result<(u64, &'a str), Stop>
    requires { lacks 10 head.now ≡ true }
    ensures read { IfOk result (λ p. IsRead IsWide (count_line head.now) text.now p.0 p.1.now) }
    ensures stopped { IfErr result (Stops IsWide (count_line head.now) text.now) }
{
    match read_count(scratch, head, text) {
        Ok(Some(read)) => Ok(read),
        Ok(None) => Err(Stop::At { left: text.len() }),
        Err(_) => Err(Stop::NoMemory),
    }
}

/// The board's entries, and what stands behind its block.
pub(crate) fn read_board<'a>(
    alloc: Global,
    scratch: &mut String,
    text: &'a str,
) -> Result<(Vec<BoardEntry>, &'a str), Stop>
    ensures read { IfOk result (λ p. IsRead (IsLog IsBoardEntry) board_block text.now p.0.items p.1.now) }
    ensures stopped { IfErr result (Stops (IsLog IsBoardEntry) board_block text.now) }
{
    let (count, rest) = count_behind(scratch, "board ", text)?;
    match read_board_entries(alloc, scratch, count, rest) {
        Ok(read) => Ok(read),
        Err(stop) => Err(stop),
    }
}

/// The entries of a file, and what stands behind its block.
pub(crate) fn read_file<'a>(
    alloc: Global,
    scratch: &mut String,
    file: &FileDecl,
    text: &'a str,
) -> Result<(Vec<FileEntry>, &'a str), Stop>
    ensures read { IfOk result (λ p. IsRead (IsLog IsFileEntry) (file_block file.now) text.now p.0.items p.1.now) }
    ensures stopped { IfErr result (Stops (IsLog IsFileEntry) (file_block file.now) text.now) }
    ensures level { IsLevel file.now.level }
{
    // A level that is read is known to be one.
    let _width = file.level.w();
    let mut head = String::new(alloc);
    write!(head, "file {} ", file.name.as_str())?;
    let (count, rest) = count_behind(scratch, head.as_str(), text)?;
    match read_file_entries(alloc, scratch, file.level, count, rest) {
        Ok(read) => Ok(read),
        Err(stop) => Err(stop),
    }
}
