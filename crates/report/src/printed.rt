//! The report of a run (docs/FORMATS.md, "Report").

ghost use Rattle.std.specs.Prelude.{◌≡◌, ◌++◌, string_bytes, IfOk, OnOk};
ghost use Rattle.report.specs.Printed.{board_block, file_block, file_blocks, printed};

use crate::logs::Logs;
use crate::{board_lines, file_lines};
use board_history::BoardEntry;
use file_history::{FileEntry, FileLog};
use scenario::{FileDecl, write_scenario};
use std::alloc::{AllocError, Global};
use std::fmt::Write;

/// The report that prints the logs.
pub fn print(alloc: Global, logs: &Logs) -> Result<String, AllocError>
    ensures { IfOk result (λ text. string_bytes text ≡ printed logs.now) }
{
    let mut text = String::new(alloc);
    write_report(&mut text, logs)?;
    Ok(text)
}

#[tactic(auto, unfolding(crate::specs::Printed::printed))]
fn write_report(text: &mut String, logs: &Logs) -> Result<(), AllocError>
    ensures { OnOk result (string_bytes text.new ≡ string_bytes text.old ++ printed logs.now) }
{
    write!(text, "report 1\n")?;
    write_scenario(text, &logs.scenario)?;
    write_board(text, logs.board.as_slice())?;
    write!(text, "engine 0\n")?;
    write_files(text, logs.scenario.files.as_slice(), logs.files.as_slice())?;
    write!(text, "end\n")
}

/// Adds the board's entries, after their number.
#[tactic(auto, unfolding(crate::specs::Printed::board_block))]
pub fn write_board(text: &mut String, log: &[BoardEntry]) -> Result<(), AllocError>
    ensures { OnOk result (string_bytes text.new ≡ string_bytes text.old ++ board_block log.now) }
{
    writeln!(text, "board {}", log.len())?;
    board_lines::write_entries(text, log)
}

/// Adds the entries of each file that has a log, after its name and their number.
pub fn write_files(
    text: &mut String,
    files: &[FileDecl],
    logs: &[FileLog],
) -> Result<(), AllocError>
    ensures { OnOk result (string_bytes text.new ≡ string_bytes text.old ++ file_blocks files.now logs.now) }
{
    for (file, log) in files.iter().zip(logs) {
        write_file(text, file, log.as_slice())?;
    }
    Ok(())
}

#[tactic(auto, unfolding(crate::specs::Printed::file_block))]
fn write_file(text: &mut String, file: &FileDecl, log: &[FileEntry]) -> Result<(), AllocError>
    ensures { OnOk result (string_bytes text.new ≡ string_bytes text.old ++ file_block file.now log.now) }
{
    writeln!(text, "file {} {}", file.name.as_str(), log.len())?;
    file_lines::write_entries(text, file.level, log)
}
