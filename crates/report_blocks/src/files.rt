//! The blocks of all files, and of a whole report.

ghost use Rattle.std.specs.Prelude.{◌≡◌, ◌++◌, IfErr, IfOk};
ghost use Rattle.report.specs.Printed.{file_blocks};
ghost use Rattle.report_blocks.specs.Blocks.{AreFileLogs, AreLevels, AreLogs, IsAny, IsLine, blocks_text};
ghost use Rattle.report_blocks.specs.Fronts.{Fails, IsRead, Stops};

use crate::blocks::{read_board, read_file};
use crate::stop::Stop;
use board_history::BoardEntry;
use file_history::FileLog;
use lists::List;
use report_reader::after;
use scenario::FileDecl;
use std::alloc::Global;

/// The log of each file, and what stands behind their blocks.
pub(crate) fn read_files<'a>(
    alloc: Global,
    scratch: &mut String,
    files: &[FileDecl],
    text: &'a str,
) -> Result<(Vec<FileLog>, &'a str), Stop>
    ensures read { IfOk result (λ p. IsRead (AreFileLogs files.now) (file_blocks files.now) text.now p.0.items p.1.now) }
    ensures levels { IfOk result (λ _. AreLevels files.now) }
    ensures stopped { IfErr result (Stops (AreFileLogs files.now) (file_blocks files.now) text.now) }
{
    let mut logs = Vec::new(alloc);
    let mut rest = text;
    for file in files {
        let (log, after) = match read_file(alloc, scratch, file, rest) {
            Ok(read) => read,
            Err(stop) => return Err(stop),
        };
        logs.push(List::from_vec(log))?;
        rest = after;
    }
    Ok((logs, rest))
}

/// What stands behind this line.
fn behind<'a>(text: &'a str, line: &str) -> Result<&'a str, Stop>
    requires { IsLine line.now }
    ensures read { IfOk result (λ rest. text.now ≡ line.now ++ rest.now) }
    ensures stopped { IfErr result (Stops IsAny (λ _. line.now) text.now) }
{
    match after(text, line) {
        Some(rest) => Ok(rest),
        None => Err(Stop::At { left: text.len() }),
    }
}

/// The entries of the board and of each file, to the end of a report. `scratch` is written over.
pub fn read_blocks(
    alloc: Global,
    scratch: &mut String,
    files: &[FileDecl],
    text: &str,
) -> Result<(Vec<BoardEntry>, Vec<FileLog>), Stop>
    ensures read { IfOk result (λ p. AreLogs files.now (p.0.items, p.1.items) × (text.now ≡ blocks_text files.now (p.0.items, p.1.items))) }
    ensures levels { IfOk result (λ _. AreLevels files.now) }
    ensures failed { IfErr result (Fails (AreLogs files.now) (blocks_text files.now) text.now) }
{
    let (board, rest) = match read_board(alloc, scratch, text) {
        Ok(read) => read,
        Err(stop) => return Err(stop),
    };
    let rest = behind(rest, "engine 0\n")?;
    let (logs, rest) = match read_files(alloc, scratch, files, rest) {
        Ok(read) => read,
        Err(stop) => return Err(stop),
    };
    let rest = behind(rest, "end\n")?;
    if rest.is_empty() {
        Ok((board, logs))
    } else {
        Err(Stop::At { left: rest.len() })
    }
}
