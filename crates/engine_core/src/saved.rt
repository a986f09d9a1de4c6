//! The engine's checkpoint, and a restart from one.

ghost use Rattle.std.specs.Prelude.{◌≡◌, ◌≤◌, ◌<◌, ◌^◌, IfOk, OnErr, OnOk, Ok, Err, Some, length};
ghost use Rattle.checkpoints.specs.CheckpointFields.{Answers, all_of};
ghost use Rattle.checkpoints.specs.Saved.{checkpoint_bytes};
ghost use Rattle.engine_history.specs.declared.entry.EngineEvent.TheVariants as event;
ghost use Rattle.job_log.specs.Jobs.{AreOrderedFrom};
ghost use Rattle.engine_core.specs.EngineView.{IsEngine, IsLegalNow, jobs_now, with_entry};
ghost use Rattle.engine_core.specs.SavedJobs.{IsTaken, before_in, checkpoint_of, differs_at, put, saved_of};

use crate::engine::Engine;
use checkpoints::{BadCheckpoint, Checkpoint, CheckpointFault, ItemSaved, JobSaved, read, write};
use domains::By;
use engine_history::EngineEvent;
use job_log::Job;
use job_rules::JobId;
use lists::List;
use std::alloc::{AllocError, Global};
use thiserror::Error;

/// Why the engine did not go on from a checkpoint.
#[derive(Clone, Copy, Debug, PartialEq, Eq, Error)]
pub enum RestartRefusal {
    /// The bytes are no checkpoint.
    #[error("the bytes are no checkpoint")]
    Bad(BadCheckpoint),
    /// They spell another state than the log leaves; the first byte that differs.
    #[error("the checkpoint is of another state")]
    Other { at: u32 },
    #[error("out of memory")]
    NoMemory,
}

impl Engine {
    /// The bytes that spell the state (docs/FORMATS.md, "Checkpoint").
    pub fn checkpoint(&self, alloc: Global) -> Result<Vec<u8>, AllocError>
        ensures { IfOk result (λ bytes. bytes.items ≡ checkpoint_bytes (checkpoint_of (jobs_now self.now))) }
    {
        let saved = checkpoint_of(alloc, self.log.jobs())?;
        write(alloc, &saved)
    }

    /// Goes on from a checkpoint, which must spell the state that the log leaves. Who has begun which item is no part of it.
    pub fn restart_from(
        &mut self,
        alloc: Global,
        by: By,
        bytes: &[u8],
    ) -> Result<(), RestartRefusal>
        requires spare { 1 ≤ self.old.log.spare }
        requires short { length bytes.now < 2 ^ 32 }
        ensures answer { IsTaken bytes.now (checkpoint_of (jobs_now self.old)) result }
        ensures ok { OnOk result (self.new ≡ with_entry self.old by event.Restart) }
        ensures legal { IsLegalNow self.old by event.Restart }
        ensures kept { OnErr result (self.new ≡ self.old) }
    {
        let Ok(own) = self.checkpoint(alloc) else {
            return Err(RestartRefusal::NoMemory);
        };
        match read(alloc, bytes) {
            Ok(_checkpoint) => {}
            Err(CheckpointFault::Bad(bad)) => return Err(RestartRefusal::Bad(bad)),
            Err(CheckpointFault::NoMemory) => return Err(RestartRefusal::NoMemory),
        }
        if let Some(at) = differs_at(bytes, &own) {
            return Err(RestartRefusal::Other { at });
        }
        self.log.append(by, EngineEvent::Restart);
        Ok(())
    }
}

/// What a checkpoint says of these jobs.
fn checkpoint_of(alloc: Global, jobs: &[Job]) -> Result<Checkpoint, AllocError>
    requires few { length jobs.now ≤ 64 }
    requires ordered { AreOrderedFrom 0 jobs.now }
    ensures { IfOk result (λ c. c ≡ checkpoint_of jobs.now) }
{
    let mut saved = Vec::new(alloc);
    for job in jobs {
        if job.is_active() {
            put(&mut saved, saved_of(alloc, job)?)?;
        }
    }
    Ok(Checkpoint {
        started: jobs.len() as u16,
        jobs: List::from_vec(saved),
    })
}

/// Puts the job behind those with lower numbers.
fn put(saved: &mut Vec<JobSaved>, job: JobSaved) -> Result<(), AllocError>
    ensures { OnOk result (saved.new.items ≡ put job saved.old.items) }
{
    let at = before_in(saved, job.job);
    match saved.insert(at, job) {
        Ok(()) => Ok(()),
        Err(_refused) => Err(AllocError),
    }
}

/// How many jobs at the front have lower numbers.
fn before_in(saved: &[JobSaved], job: JobId) -> usize
    ensures value { result ≡ before_in job saved.now }
    ensures within { result ≤ length saved.now }
{
    let mut before: usize = 0;
    for other in saved {
        if other.job.number >= job.number {
            return before;
        }
        before += 1;
    }
    before
}

fn saved_of(alloc: Global, job: &Job) -> Result<JobSaved, AllocError>
    requires { job.now.order < 64 }
    ensures { IfOk result (λ saved. saved ≡ saved_of job.now) }
{
    let mut items: Vec<ItemSaved> = Vec::with_capacity(alloc, job.items().len())?;
    for item in job.items() {
        items.push(*item)?;
    }
    Ok(JobSaved {
        job: job.id(),
        kind: job.kind(),
        priority: job.priority(),
        order: job.order() as u16,
        paused: job.is_paused() || job.is_cancelled(),
        phase: job.phase(),
        bars: job.bars(),
        earlier: job.has_earlier(),
        items: List::from_vec(items),
    })
}

/// The first byte at which the two differ.
fn differs_at(bytes: &[u8], own: &[u8]) -> Option<u32>
    requires { length bytes.now < 2 ^ 32 }
    ensures { result ≡ differs_at bytes.now own.now }
{
    let mut at: u32 = 0;
    for byte in bytes {
        match own.get(at as usize) {
            Some(other) if other == byte => at += 1,
            _ => return Some(at),
        }
    }
    if own.len() > at as usize {
        Some(at)
    } else {
        None
    }
}
