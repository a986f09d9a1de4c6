//! The engine.

ghost use Rattle.std.specs.Prelude.{◌≡◌, ◌+◌, ◌≤◌, ◌<◌, ◌↔◌, IfOk, IsErrOf, OnErr, OnOk, Ok, Err, false, length};
ghost use Rattle.domains.specs.Drive.{Drive, IsDrive};
ghost use Rattle.domains.specs.DriveSet.{has};
ghost use Rattle.engine_history.specs.Jobs.{is_started, views_of};
ghost use Rattle.engine_history.specs.declared.entry.EngineEvent.TheVariants as event;
ghost use Rattle.job_log.specs.JobLog.{log_of};
ghost use Rattle.engine_core.specs.EngineView.{IsEngine, IsLegalNow, IsNewEngine, jobs_now, with_entry};
ghost use Rattle.engine_core.specs.Starts.{AreBars, IsStartLegal};

use crate::begun::{Begun, none_begun};
use crate::serving::see;
use domains::{By, DriveSet, Shape};
use engine_history::{EngineEntry, EngineEvent};
use job_log::{Grow, JobLog};
use job_rules::{JobId, JobKind, JobView};
use lists::List;
use std::alloc::{AllocError, Global};
use std::marker::Model;
use thiserror::Error;

/// Why a job was not started.
#[derive(Clone, Copy, Debug, PartialEq, Eq, Error)]
pub enum StartRefusal {
    #[error("as many jobs were started as an engine takes")]
    JobsFull,
    #[error("out of memory")]
    NoMemory,
}

/// The Job Engine: its log with the jobs that this leaves, and who has begun which item.
#[derive(Drop)]
pub struct Engine {
    pub(crate) log: JobLog,
    pub(crate) begun: Vec<Option<Begun>>,
    // room for what the rules see of the jobs
    pub(crate) views: Vec<JobView>,
}

impl Model for Engine {
    ghost use Rattle.std.specs.Prelude.{◌≤◌, vec_capacity};
    ghost use Rattle.engine_core.specs.EngineView.{EngineView, IsEngine};

    ghost Value = { EngineView };

    ghost view = { λ e. record { log = e.log; begun = e.begun.items } };

    ghost invariant = { λ e. IsEngine (record { log = e.log; begun = e.begun.items }) × (64 ≤ vec_capacity e.views) };
}

impl Engine {
    /// The engine of a cluster of this shape with 1 to 256 files, and a log of at most `room` entries.
    pub fn new(alloc: Global, shape: Shape, files: u16, room: u32) -> Result<Engine, AllocError>
        requires some { 1 ≤ files }
        requires files { files ≤ 256 }
        ensures ok { IfOk result (λ engine. IsNewEngine shape files room engine) }
    {
        Ok(Engine {
            log: JobLog::new(alloc, shape, files, room)?,
            begun: none_begun(alloc)?,
            views: Vec::with_capacity(alloc, JobLog::MOST_JOBS)?,
        })
    }

    /// Makes room for `entries` more entries.
    pub fn reserve(&mut self, entries: u32) -> Result<(), Grow>
        ensures ok { OnOk result (entries ≤ self.new.log.spare) }
        ensures log_full { IsErrOf result Grow.LogFull ↔ (self.old.log.room < length self.old.log.notes + entries) }
        ensures same { self.new ≡ record self.old { log = record self.old.log { spare = self.new.log.spare } } }
        ensures more { self.old.log.spare ≤ self.new.log.spare }
    {
        self.log.reserve(entries)
    }

    /// Starts a job, whose bars are drives of the cluster, and none unless it is a FlexProtect.
    pub fn start(
        &mut self,
        by: By,
        job: JobId,
        kind: JobKind,
        priority: u8,
        epoch: u32,
        bars: DriveSet,
    ) -> Result<(), StartRefusal>
        requires spare { 1 ≤ self.old.log.spare }
        requires fresh { is_started job (jobs_now self.old) ≡ false }
        requires some_priority { 1 ≤ priority }
        requires priority { priority ≤ 10 }
        requires bars { AreBars self.old.log.field.shape kind bars }
        ensures ok { OnOk result (self.new ≡ with_entry self.old by (event.Start job kind priority epoch bars)) }
        ensures legal { OnOk result (IsStartLegal self.old by job kind priority epoch bars) }
        ensures jobs_full { IsErrOf result StartRefusal.JobsFull ↔ (64 ≤ length (jobs_now self.old)) }
        ensures refused { result ≡ Err StartRefusal.JobsFull → (self.new ≡ with_entry self.old by (event.JobsFull job)) × IsLegalNow self.old by (event.JobsFull job) }
        ensures kept { result ≡ Err StartRefusal.NoMemory → self.new ≡ self.old }
    {
        if self.log.jobs().len() >= JobLog::MOST_JOBS {
            self.log.append(by, EngineEvent::JobsFull { job });
            return Err(StartRefusal::JobsFull);
        }
        match self.log.start(by, job, kind, priority, epoch, bars) {
            Ok(()) => Ok(()),
            Err(_out_of_memory) => Err(StartRefusal::NoMemory),
        }
    }

    /// Whether the log has an accepted start of the job.
    pub fn is_started(&self, job: JobId) -> bool
        ensures { result ≡ is_started job (jobs_now self.now) }
    {
        self.log.jobs().iter().any(|started| started.id() == job)
    }

    /// What the rules see of the jobs that are not at their end.
    pub fn views(&self, alloc: Global) -> Result<List<JobView>, AllocError>
        ensures { IfOk result (λ views. views ≡ views_of (jobs_now self.now)) }
    {
        let mut views = Vec::with_capacity(alloc, JobLog::MOST_JOBS)?;
        see(&mut views, self.log.jobs());
        Ok(List::from_vec(views))
    }

    /// How many entries there are.
    pub fn entries(&self) -> u32
        ensures value { result ≡ length self.now.log.notes }
        ensures engine { IsEngine self.now }
    {
        self.log.entries()
    }

    /// The log.
    pub fn close(self) -> List<EngineEntry>
        ensures { result ≡ log_of self.log }
    {
        let Engine { log, .. } = self;
        log.close()
    }
}
