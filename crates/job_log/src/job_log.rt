//! The engine's log, and the jobs that it leaves.

ghost use Rattle.std.specs.Prelude.{◌≡◌, ◌+◌, ◌<◌, ◌≤◌, ◌↔◌, ◌-◌, ◌^◌, ◌∷◌, [], false, vec_capacity, vec_len, IsErrOf, IfOk, IfSome, OnErr, OnOk, length};
ghost use Rattle.engine_history.specs.Jobs.{after_event, is_started};
ghost use Rattle.engine_history.specs.declared.entry.EngineEvent.TheVariants.{Start};
ghost use Rattle.checkpoints.specs.Saved.{drives_of};
ghost use Rattle.job_log.specs.Changes.{job_of};
ghost use Rattle.job_log.specs.Jobs.{AreApart, IsFoundAt, place_of};
ghost use Rattle.job_log.specs.JobLog.{Fits, IsJobLog, jobs_of, log_of, with_entry};

use crate::entry_stamp::EntryStamp;
use crate::job::Job;
use domains::{By, DriveSet, Shape};
use engine_history::{EngineEntry, EngineEvent, OrderEffect};
use job_rules::{JobId, JobKind};
use lists::List;
use std::alloc::{AllocError, Global};
use std::marker::Model;
use thiserror::Error;

/// Why `reserve` made no room.
#[derive(Clone, Copy, Debug, PartialEq, Eq, Error)]
pub enum Grow {
    #[error("the log is full")]
    LogFull,
    #[error("out of memory")]
    NoMemory,
}

/// The log of an engine, and beside it the jobs that it leaves. Contracts see the log.
#[derive(Drop)]
pub struct JobLog {
    shape: Shape,
    files: u16,
    room: u32,
    turns: u64,
    seat: u8,
    entries: Vec<EngineEntry>,
    stamps: Vec<EntryStamp>,
    jobs: Vec<Job>,
}

impl Model for JobLog {
    ghost use Rattle.std.specs.Prelude.{vec_len, vec_capacity};
    ghost use Rattle.job_log.specs.JobLog.{IsKeptLog, JobLogView, view_of};

    ghost Value = { JobLogView };

    ghost view = { λ l. view_of l.shape l.files l.room l.turns l.seat l.stamps.items l.entries.items (vec_len l.entries) (vec_capacity l.entries) (vec_capacity l.stamps) };

    ghost invariant = { λ l. IsKeptLog l.shape l.files l.room l.stamps.items l.entries.items l.jobs.items (vec_capacity l.jobs) };
}

impl JobLog {
    /// The most jobs that may be started.
    pub const MOST_JOBS: usize = 64;

    /// The log of an engine over a cluster of this shape with 1 to 256 files. It may have at most `room` entries.
    pub fn new(alloc: Global, shape: Shape, files: u16, room: u32) -> Result<JobLog, AllocError>
        requires some { 1 ≤ files }
        requires files { files ≤ 256 }
        ensures ok { IfOk result (λ log. log ≡ record { field = record { shape = shape; files = files }; room = room; turns = 0; seat = 0; notes = []; spare = log.spare }) }
    {
        Ok(JobLog {
            shape,
            files,
            room,
            turns: 0,
            seat: 0,
            entries: Vec::new(alloc),
            stamps: Vec::new(alloc),
            jobs: Vec::with_capacity(alloc, JobLog::MOST_JOBS)?,
        })
    }

    /// Makes room for `entries` more entries.
    pub fn reserve(&mut self, entries: u32) -> Result<(), Grow>
        ensures ok { OnOk result (entries ≤ self.new.spare) }
        ensures log_full { IsErrOf result Grow.LogFull ↔ (self.old.room < length self.old.notes + entries) }
        ensures same { self.new ≡ record self.old { spare = self.new.spare } }
        ensures more { self.old.spare ≤ self.new.spare }
    {
        let more = entries as usize;
        if self.room as usize - self.entries.len() < more {
            return Err(Grow::LogFull);
        }
        if self.entries.reserve(more).is_err() || self.stamps.reserve(more).is_err() {
            return Err(Grow::NoMemory);
        }
        Ok(())
    }

    /// Appends the start of a job. Out of memory leaves the log as it was.
    pub fn start(
        &mut self,
        by: By,
        job: JobId,
        kind: JobKind,
        priority: u8,
        epoch: u32,
        bars: DriveSet,
    ) -> Result<(), AllocError>
        requires spare { 1 ≤ self.old.spare }
        requires fresh { is_started job (jobs_of self.old) ≡ false }
        requires room { length (jobs_of self.old) < 64 }
        requires some_priority { 1 ≤ priority }
        requires priority { priority ≤ 10 }
        requires bars { length (drives_of bars) ≤ 200 }
        ensures ok { OnOk result (self.new ≡ with_entry self.old (record { by = by; event = Start job kind priority epoch bars })) }
        ensures kept { OnErr result (self.new ≡ self.old) }
    {
        let order = self.jobs.len() as u32;
        let _number = number_of(job);
        let started = Job::new(
            *self.jobs.allocator(),
            self.shape,
            self.files,
            order,
            job,
            kind,
            priority,
            bars,
        )?;
        self.jobs.push_reserved(started);
        let event = EngineEvent::Start {
            job,
            kind,
            priority,
            epoch,
            bars,
        };
        self.stamps.push_reserved(EntryStamp {
            turn: self.turns,
            seat: self.seat,
        });
        self.entries.push_reserved(EngineEntry { by, event });
        Ok(())
    }

    /// Appends an entry other than a start.
    pub fn append(&mut self, by: By, event: EngineEvent)
        requires spare { 1 ≤ self.old.spare }
        requires fits { Fits (jobs_of self.old) event }
        ensures { self.new ≡ with_entry self.old (record { by = by; event = event }) }
    {
        change_jobs(&mut self.jobs, self.shape, self.files, &event);
        self.stamps.push_reserved(EntryStamp {
            turn: self.turns,
            seat: self.seat,
        });
        self.entries.push_reserved(EngineEntry { by, event });
    }

    /// The jobs that the log leaves, in the order of their starts.
    pub fn jobs(&self) -> &[Job]
        ensures value { result.now ≡ jobs_of self.now }
        ensures log { IsJobLog self.now }
    {
        &self.jobs
    }

    pub fn shape(&self) -> Shape
        ensures { result ≡ self.now.field.shape }
    {
        self.shape
    }

    pub fn files(&self) -> u16
        ensures { result ≡ self.now.field.files }
    {
        self.files
    }

    /// How many entries there are.
    pub fn entries(&self) -> u32
        ensures { result ≡ length self.now.notes }
    {
        self.entries.len() as u32
    }

    /// How many turns have passed.
    pub fn turns(&self) -> u64
        ensures { result ≡ self.now.turns }
    {
        self.turns
    }

    /// The seat whose turn it is.
    pub fn seat(&self) -> u8
        ensures { result ≡ self.now.seat }
    {
        self.seat
    }

    /// Begins a turn of this seat.
    pub fn begin(&mut self, seat: u8)
        ensures { self.new ≡ record self.old { seat = seat } }
    {
        self.seat = seat;
    }

    /// Ends the turn.
    pub fn pass(&mut self)
        requires { self.old.turns < 2 ^ 64 - 1 }
        ensures { self.new ≡ record self.old { turns = self.old.turns + 1 } }
    {
        self.turns += 1;
    }

    /// The entries.
    pub fn close(self) -> List<EngineEntry>
        ensures { result ≡ log_of self }
    {
        let JobLog { entries, .. } = self;
        List::from_vec(entries)
    }
}

/// The place of the job among these, if it is one of them.
pub fn place_of(jobs: &[Job], job: JobId) -> Option<usize>
    ensures value { result ≡ place_of job jobs.now }
    ensures within { IfSome result (λ at. at < length jobs.now) }
    ensures found { IsFoundAt job jobs.now result }
{
    first_place(jobs, job)
}

fn first_place(jobs: &[Job], job: JobId) -> Option<usize>
    ensures { result ≡ place_of job jobs.now }
{
    for (at, other) in jobs.iter().enumerate() {
        if other.id() == job {
            return Some(at);
        }
    }
    None
}

/// The number of the job. Contracts see that it fits its type.
fn number_of(job: JobId) -> u16
    ensures value { result ≡ job.number }
    ensures small { job.number < 65536 }
{
    job.number
}

/// The job that an entry changes. A start makes a new one.
fn job_of(event: &EngineEvent) -> Option<JobId>
    ensures { result ≡ job_of event.now }
{
    match event {
        EngineEvent::Order {
            job,
            effect: OrderEffect::Changed,
            ..
        }
        | EngineEvent::HandOut { job, .. }
        | EngineEvent::Progress { job, .. }
        | EngineEvent::GiveBack { job, .. }
        | EngineEvent::Done { job, .. }
        | EngineEvent::PhaseEnd { job, .. }
        | EngineEvent::Finish { job, .. } => Some(*job),
        EngineEvent::Start { .. }
        | EngineEvent::JobsFull { .. }
        | EngineEvent::Order { .. }
        | EngineEvent::Restart
        | EngineEvent::Work { .. }
        | EngineEvent::Drain { .. } => None,
    }
}

/// Carries out an entry other than a start.
fn change_jobs(jobs: &mut Vec<Job>, shape: Shape, files: u16, event: &EngineEvent)
    requires files { files ≤ 256 }
    requires apart { AreApart jobs.old.items }
    requires fits { Fits jobs.old.items event.now }
    ensures jobs { jobs.new.items ≡ after_event (record { shape = shape; files = files }) event.now jobs.old.items }
    ensures capacity { vec_capacity jobs.new ≡ vec_capacity jobs.old }
    ensures len { vec_len jobs.new ≡ vec_len jobs.old }
{
    let Some(job) = job_of(event) else {
        return;
    };
    let Some(at) = place_of(jobs, job) else {
        return;
    };
    jobs[at].apply(shape, files, event);
}
