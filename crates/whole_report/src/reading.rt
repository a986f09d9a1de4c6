//! Reads a whole report, and names the first line that is wrong.

ghost use Rattle.std.specs.Prelude.{◌≡◌, IfErr, IfOk};
ghost use Rattle.whole_report.specs.Printed.{printed};
ghost use Rattle.whole_report.specs.WrongLine.{FitsReport, IsReportFault};
ghost use Rattle.whole_report.specs.declared.logs.Logs as logs;

use crate::logs::Logs;
use crate::scenario_lines::{parted, scenario_of};
use lists::List;
use report_blocks::{ReportFault, Stop, line_at, read_blocks};
use report_reader::after;
use scenario_reader::{canonical_text_is_plain, canonical_text_spells, text_spells_one};
use std::alloc::Global;
use whole_scenario::Scenario;

/// The logs that print the text, with their scenario: the first wrong line if there are none (docs/FORMATS.md, "Report").
pub fn read(alloc: Global, text: &str) -> Result<Logs, ReportFault>
    // What is read prints as the text, and nothing else does.
    ensures found { IfOk result (λ l. FitsReport l × (printed l ≡ text.now)) }
    ensures only { IfOk result (λ l. (k : logs.Logs) → FitsReport k → printed k ≡ text.now → k ≡ l) }
    // No logs print a text with a wrong line.
    ensures bad { IfErr result (IsReportFault text.now) }
{
    canonical_text_is_plain();
    canonical_text_spells();
    text_spells_one();
    let Some(lines) = after(text, "report 1\n") else {
        return Err(ReportFault::Bad { line: 1 });
    };
    let Some((front, rest)) = parted(lines) else {
        return Err(ReportFault::Bad { line: 2 });
    };
    let Some(scenario) = scenario_of(alloc, front)? else {
        return Err(ReportFault::Bad { line: 2 });
    };
    let mut scratch = String::new(alloc);
    match read_blocks(alloc, &mut scratch, scenario.files.as_slice(), rest) {
        Ok((board, files)) => Ok(Logs {
            scenario,
            board: List::from_vec(board),
            files: List::from_vec(files),
        }),
        Err(Stop::At { left }) => Err(ReportFault::Bad {
            line: line_at(text, left),
        }),
        Err(Stop::NoMemory) => Err(ReportFault::NoMemory),
    }
}
