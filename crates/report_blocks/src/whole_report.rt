//! Reads a whole report of a scenario, and names the first line that is wrong.

ghost use Rattle.std.specs.Prelude.{codes, ◌≡◌, ◌≤◌, ◌++◌, suc, List, ℕ, IsTrue, ◌↔◌, length, IfErr, IfOk, IfSome, IsSomeAnd};
ghost use Rattle.report.specs.Printed.{printed};
ghost use Rattle.report.specs.declared.logs.Logs as logs;
ghost use Rattle.report_blocks.specs.WrongLine.{AreLogsOf, IsBoardNext, IsFaultOf, feeds};

use crate::files::read_blocks;
use crate::stop::Stop;
use lists::List;
use report::Logs;
use report_reader::after;
use scenario::{Scenario, write_scenario};
use std::alloc::{AllocError, Global};
use thiserror::Error;

/// Why a text is no report.
#[derive(Clone, Copy, Debug, PartialEq, Eq, Error)]
pub enum ReportFault {
    /// No logs print this text. Lines count from 1.
    #[error("line {line} of the report is wrong")]
    Bad { line: usize },
    #[error("out of memory")]
    NoMemory,
}

impl From<AllocError> for ReportFault {
    ghost use Rattle.std.specs.Prelude.{◌≡◌};
    ghost use Rattle.report_blocks.specs.declared.whole_report.ReportFault.TheVariants.{NoMemory};

    ghost from_gives = { λ _ e. e ≡ NoMemory };

    fn from(_e: AllocError) -> ReportFault {
        ReportFault::NoMemory
    }
}

/// Whether the text is empty, or begins with a line of the board's count.
fn is_board_next(text: &str) -> bool
    ensures { IsTrue result ↔ IsBoardNext text.now }
{
    match after(text, "board ") {
        Some(_) => true,
        None => text.is_empty(),
    }
}

/// What stands behind the lines of the scenario, if it is empty or begins with a line of the board's count.
fn behind_scenario<'a>(lines: &'a str, scenario: &str) -> Option<&'a str>
    ensures found { IfSome result (λ rest. (lines.now ≡ scenario.now ++ rest.now) × IsBoardNext rest.now) }
    ensures only { (rest : List ℕ) → lines.now ≡ scenario.now ++ rest → IsBoardNext rest → IsSomeAnd result (λ x. x.now ≡ rest) }
{
    let rest = after(lines, scenario)?;
    if is_board_next(rest) {
        Some(rest)
    } else {
        None
    }
}

/// The number of the line in which the last `left` bytes begin.
pub fn line_at(text: &str, left: usize) -> usize
    requires { left ≤ length text.now }
    ensures { (front : List ℕ) (tail : List ℕ) → text.now ≡ front ++ tail → left ≡ length tail → result ≡ suc (feeds front) }
{
    let bytes = text.as_bytes();
    feeds_in(&bytes[..bytes.len() - left]) + 1
}

/// How many line feeds there are.
fn feeds_in(bytes: &[u8]) -> usize
    ensures count { result ≡ feeds bytes.now }
    ensures most { result ≤ length bytes.now }
{
    bytes.iter().filter(|byte| **byte == b'\n').count()
}

/// The logs of the scenario that print the text: the first wrong line if there are none (docs/FORMATS.md, "Report").
pub fn read_logs(alloc: Global, scenario: Scenario, text: &str) -> Result<Logs, ReportFault>
    // What is read prints as the text, and nothing else does.
    ensures found { IfOk result (λ l. AreLogsOf scenario l × (printed l ≡ text.now)) }
    ensures only { IfOk result (λ l. (k : logs.Logs) → AreLogsOf scenario k → printed k ≡ text.now → k ≡ l) }
    // No logs print a text with a wrong line.
    ensures bad { IfErr result (IsFaultOf scenario text.now) }
{
    let Some(lines) = after(text, "report 1\n") else {
        return Err(ReportFault::Bad { line: 1 });
    };
    let mut scratch = String::new(alloc);
    write_scenario(&mut scratch, &scenario)?;
    let Some(rest) = behind_scenario(lines, scratch.as_str()) else {
        return Err(ReportFault::Bad { line: 2 });
    };
    match read_blocks(alloc, &mut scratch, scenario.files.as_slice(), rest) {
        Ok((board, files)) => Ok(Logs {
            scenario,
            board: List::from_vec(board),
            files: List::from_vec(files),
        }),
        Err(Stop::At { left }) => Err(ReportFault::Bad {
            line: line_at(text, left),
        }),
        Err(Stop::NoMemory) => Err(ReportFault::NoMemory),
    }
}
