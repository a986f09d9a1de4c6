//! The program: plays the scenario on standard input, and writes the report of its run to standard output. What a person
//! needs to know beside that goes to standard error.
#![tactic(auto)]

use flex_io::{OpenGate, StdSink, StdSource, SureRack};
use flex_run::{flex, is_run};
use std::io::IsTerminal;
use std::process::ExitCode;
use std::{env, io};

/// The statuses for which standard error explains what to do (docs/FORMATS.md, "Statuses").
const BAD_WORDS: u8 = 2;

const BAD_SCENARIO: u8 = 3;

const NO_MEMORY: u8 = 6;

fn main(rt: HostRuntime) -> ExitCode {
    let alloc = rt.alloc();
    // Arguments that are not UTF-8 are treated as no arguments, which are refused.
    let words = match env::args(&rt) {
        Ok(words) => words.skip(1).collect(alloc),
        Err(error) if error.kind() == io::ErrorKind::OutOfMemory => {
            return ExitCode::from(NO_MEMORY);
        }
        Err(_) => Ok(Vec::new(alloc)),
    };
    let Ok(words) = words else {
        return ExitCode::from(NO_MEMORY);
    };
    let words: Vec<String> = words;
    if is_run(&words) && rt.stdin().is_terminal() {
        let _ = eprintln!(rt;
            "flex_sim: type a scenario, then Ctrl-D; or run flex_sim run < SCENARIO.toml"
        );
    }
    let mut source = StdSource::new(rt.stdin());
    let mut sink = StdSink::new(rt.stdout());
    let mut rack = SureRack::new(alloc);
    let status = flex(alloc, &words, &mut source, &mut sink, &mut rack, &OpenGate);
    explain(&rt, status);
    ExitCode::from(status)
}

/// Says on standard error what to do about a status. If that cannot be written, nothing is lost: the status stands.
fn explain(rt: &HostRuntime, status: u8) {
    match status {
        BAD_WORDS => {
            let _ = eprintln!(rt; "usage: flex_sim run < SCENARIO.toml > REPORT");
        }
        BAD_SCENARIO => {
            let _ = eprintln!(rt;
                "flex_sim: the line names the first rule that the scenario breaks; unbuilt: this version plays one file at 2x,"
            );
            let _ = eprintln!(rt;
                "one worker, one actor that creates, writes once, reads and fails drives (docs/FORMATS.md)"
            );
        }
        _ => {}
    }
}
