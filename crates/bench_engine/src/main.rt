//! Plays jobs of the engine to their end. With the argument `time` it plays 64 jobs of 256 items, about 100,000 entries, and
//! prints how long that took.
#![tactic(auto)]

ghost use Rattle.std.specs.Prelude.{◌≡◌, ◌≤◌, ◌<◌, ◌+◌};

use anyhow::{Result, ensure};
use domains::{By, DriveSet, Shape};
use engine_core::{End, Engine, NotOut, Task};
use job_rules::{JobId, JobKind};
use std::env;
use std::time::Instant;

/// How often an item is noted to have come further.
const STEPS: u16 = 5;

const BY: By = By { actor: 1, call: 1 };

/// Starts jobs that share no set, and returns how many.
fn start_jobs(engine: &mut Engine, jobs: u16) -> u16 {
    let mut started: u16 = 0;
    for number in 0..jobs {
        let job = JobId { number };
        if engine.reserve(1).is_err() {
            return started;
        }
        if engine.is_started(job) {
            return started;
        }
        let none = DriveSet::new();
        if engine.start(BY, job, JobKind::SyncCopy, 5, 0, none).is_ok() {
            started = started.wrapping_add(1);
        }
    }
    started
}

/// Begins an item of the task, takes it through its steps and ends it.
fn end_item(engine: &mut Engine, task: &Task, item: u16) -> bool
    requires from { task.now.first ≤ item }
    requires to { item < task.now.first + task.now.count }
{
    if engine.reserve(16).is_err() {
        return false;
    }
    let Some(work) = engine.begin(task, item) else {
        return false;
    };
    for step in 0..STEPS {
        let _go = engine.progress(BY, &work, step);
    }
    match engine.done(BY, &work, End::Whole) {
        Ok(()) => true,
        Err(NotOut) => false,
    }
}

/// Ends the items of a task, and returns how many.
fn end_items(engine: &mut Engine, task: &Task) -> u32 {
    let mut ended: u32 = 0;
    for before in 0..task.count {
        let Some(item) = task.first.checked_add(u16::from(before)) else {
            return ended;
        };
        ended = ended.wrapping_add(u32::from(end_item(engine, task, item)));
    }
    ended
}

/// Hands out and ends items until no job has one to do, and returns how many.
fn play(engine: &mut Engine, tasks: u32) -> u32 {
    let mut ended: u32 = 0;
    for _task in 0..tasks {
        if engine.reserve(1).is_err() {
            return ended;
        }
        let Ok(task) = engine.hand_out(BY, 8) else {
            return ended;
        };
        ended = ended.wrapping_add(end_items(engine, &task));
    }
    ended
}

fn main(rt: HostRuntime) -> Result<()> {
    let timed = env::args(&rt)?.count() > 1;
    let (jobs, files): (u16, u16) = if timed { (64, 256) } else { (3, 20) };
    let mut engine = Engine::new(rt.alloc(), Shape::new(2, 2, 1, 8), files, 1_000_000)?;
    let start = Instant::now(&rt)?;
    let started = start_jobs(&mut engine, jobs);
    let ended = play(&mut engine, 100_000);
    let millis = start.elapsed(&rt)?.as_millis();
    let all = u32::from(jobs) * u32::from(files);
    ensure!(
        started == jobs && ended == all,
        "{started} jobs started, {ended} items ended"
    );
    if timed {
        let entries = engine.entries();
        println!(rt; "{entries} entries: {millis} milliseconds")?;
    }
    println!(rt; "played")?;
    Ok(())
}
