//! The report of a run (docs/FORMATS.md, "Report").

ghost use Rattle.std.specs.Prelude.{◌≡◌, ◌++◌, string_bytes, IfOk, OnOk};
ghost use Rattle.whole_report.specs.Printed.{printed};

use crate::logs::Logs;
use report::{write_board, write_files};
use std::alloc::{AllocError, Global};
use whole_scenario::write_scenario;

/// The report that prints the logs.
pub fn print(alloc: Global, logs: &Logs) -> Result<String, AllocError>
    ensures { IfOk result (λ text. string_bytes text ≡ printed logs.now) }
{
    let mut text = String::new(alloc);
    write_report(&mut text, logs)?;
    Ok(text)
}

#[tactic(auto, unfolding(crate::specs::Printed::printed))]
fn write_report(text: &mut String, logs: &Logs) -> Result<(), AllocError>
    ensures { OnOk result (string_bytes text.new ≡ string_bytes text.old ++ printed logs.now) }
{
    text.push_str("report 1\n")?;
    write_scenario(text, &logs.scenario)?;
    write_board(text, logs.board.as_slice())?;
    text.push_str("engine 0\n")?;
    write_files(text, logs.scenario.files.as_slice(), logs.files.as_slice())?;
    text.push_str("end\n")
}
