//! Reads the reports on standard input, which are parted by the byte 0x1E, and prints for each `read` if its logs print the same
//! text again, or the first wrong line. With the argument `time` it reads and prints the one report there three times, and
//! prints how long the quickest reading and the quickest printing took.
#![tactic(auto)]

use anyhow::Result;
use report_blocks::ReportFault;
use std::alloc::Global;
use std::env;
use std::io::Read;
use std::str::from_utf8;
use std::time::{Duration, Instant};
use whole_report::{print, read};

/// The byte between two reports.
const BETWEEN: u8 = 0x1E;

/// What is printed for a text.
fn answer(alloc: Global, bytes: &[u8]) -> Result<String> {
    let Ok(text) = from_utf8(bytes) else {
        return Ok(String::from_str(alloc, "utf8\n")?);
    };
    match read(alloc, text) {
        Ok(logs) => {
            let again = print(alloc, &logs)?;
            let word = if again.as_str() == text {
                "read\n"
            } else {
                "other\n"
            };
            Ok(String::from_str(alloc, word)?)
        }
        Err(ReportFault::Bad { line }) => Ok(format!(in alloc; "line {line}\n")?),
        Err(ReportFault::NoMemory) => Ok(String::from_str(alloc, "memory\n")?),
    }
}

/// How long the quickest of three readings took, and of three printings of what was read.
fn quickest(alloc: Global, rt: &HostRuntime, text: &str) -> Result<(Duration, Duration)> {
    let mut reading = Duration::MAX;
    let mut printing = Duration::MAX;
    for _round in 0..3 {
        let start = Instant::now(rt)?;
        let logs = read(alloc, text);
        reading = reading.min(start.elapsed(rt)?);
        if let Ok(logs) = logs {
            let start = Instant::now(rt)?;
            let _text = print(alloc, &logs)?;
            printing = printing.min(start.elapsed(rt)?);
        }
    }
    Ok((reading, printing))
}

fn main(rt: HostRuntime) -> Result<()> {
    let alloc = rt.alloc();
    let mut bytes = Vec::new(alloc);
    rt.stdin().read_to_end(&mut bytes)?;
    if env::args(&rt)?.count() > 1 {
        if let Ok(text) = from_utf8(bytes.as_slice()) {
            let (reading, printing) = quickest(alloc, &rt, text)?;
            println!(rt;
                "read {} us, printed {} us",
                reading.as_micros(),
                printing.as_micros()
            )?;
        }
        return Ok(());
    }
    for piece in bytes.split(|byte| *byte == BETWEEN) {
        print!(rt; "{}", answer(alloc, piece)?)?;
    }
    Ok(())
}
