//! Reads the scenarios on standard input, which are parted by the byte 0x1E, and prints for each its canonical text or
//! the first rule that it breaks, with the place. With the argument `time` it reads the one scenario there ten times and
//! prints how long the quickest reading and printing took.
#![tactic(auto)]

use anyhow::Result;
use scenario_reader::read;
use scenario_rules::ScenarioFault;
use std::alloc::Global;
use std::env;
use std::io::Read;
use std::str::from_utf8;
use std::time::{Duration, Instant};
use whole_scenario::print;

/// The byte between two scenarios.
const BETWEEN: u8 = 0x1E;

/// What is printed for a text.
fn answer(alloc: Global, bytes: &[u8]) -> Result<String> {
    let Ok(text) = from_utf8(bytes) else {
        return Ok(String::from_str(alloc, "utf8 0 0\n")?);
    };
    match read(alloc, text) {
        Ok(scenario) => Ok(print(alloc, &scenario)?),
        Err(ScenarioFault::Bad(bad)) => Ok(format!(in alloc;
            "{} {} {}\n",
            bad.rule.word(),
            bad.place.actor,
            bad.place.op
        )?),
        Err(ScenarioFault::NoMemory) => Ok(String::from_str(alloc, "memory\n")?),
    }
}

/// How long the quickest of ten readings took, and of ten readings and printings.
fn quickest(alloc: Global, rt: &HostRuntime, bytes: &[u8]) -> Result<(Duration, Duration)> {
    let mut reading = Duration::MAX;
    let mut both = Duration::MAX;
    for _round in 0..10 {
        let start = Instant::now(rt)?;
        if let Ok(text) = from_utf8(bytes) {
            let _scenario = read(alloc, text);
        }
        reading = reading.min(start.elapsed(rt)?);
        let start = Instant::now(rt)?;
        let _text = answer(alloc, bytes)?;
        both = both.min(start.elapsed(rt)?);
    }
    Ok((reading, both))
}

fn main(rt: HostRuntime) -> Result<()> {
    let alloc = rt.alloc();
    let mut bytes = Vec::new(alloc);
    rt.stdin().read_to_end(&mut bytes)?;
    if env::args(&rt)?.count() > 1 {
        let (reading, both) = quickest(alloc, &rt, &bytes)?;
        println!(rt;
            "read {} us, read and printed {} us",
            reading.as_micros(),
            both.as_micros()
        )?;
        return Ok(());
    }
    for piece in bytes.split(|byte| *byte == BETWEEN) {
        print!(rt; "{}\x1E", answer(alloc, piece)?)?;
    }
    Ok(())
}
