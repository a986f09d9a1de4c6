//! Orders of users to jobs.

ghost use Rattle.std.specs.Prelude.{◌≡◌, ◌≤◌, Some};
ghost use Rattle.engine_history.specs.Jobs.{find_job};
ghost use Rattle.engine_history.specs.Steps.{effect_of};
ghost use Rattle.engine_history.specs.declared.entry.EngineEvent.TheVariants as event;
ghost use Rattle.engine_history.specs.declared.entry.JobOrder.TheVariants as order;
ghost use Rattle.engine_core.specs.EngineView.{IsLegalNow, jobs_now, with_entry};
ghost use Rattle.engine_core.specs.Orders.{effect_told};

use crate::engine::Engine;
use domains::By;
use engine_history::{EngineEvent, JobOrder, OrderEffect};
use job_log::{Job, place_of};
use job_rules::JobId;
use thiserror::Error;

/// What an order did.
#[derive(Clone, Copy, Debug, PartialEq, Eq)]
pub enum Told {
    Changed,
    Same,
}

/// The job is not started, finished or cancelled.
#[derive(Clone, Copy, Debug, PartialEq, Eq, Error)]
#[error("the job is not active")]
pub struct NotActive;

impl Engine {
    /// Hands out no more items of the job until it is resumed.
    pub fn pause(&mut self, by: By, job: JobId) -> Result<Told, NotActive>
        requires { 1 ≤ self.old.log.spare }
        ensures entry { self.new ≡ with_entry self.old by (event.Order job order.Pause (effect_told result)) }
        ensures effect { effect_told result ≡ effect_of order.Pause (find_job job (jobs_now self.old)) }
        ensures legal { IsLegalNow self.old by (event.Order job order.Pause (effect_told result)) }
    {
        self.give(by, job, JobOrder::Pause)
    }

    /// Ends a pause.
    pub fn resume(&mut self, by: By, job: JobId) -> Result<Told, NotActive>
        requires { 1 ≤ self.old.log.spare }
        ensures entry { self.new ≡ with_entry self.old by (event.Order job order.Resume (effect_told result)) }
        ensures effect { effect_told result ≡ effect_of order.Resume (find_job job (jobs_now self.old)) }
        ensures legal { IsLegalNow self.old by (event.Order job order.Resume (effect_told result)) }
    {
        self.give(by, job, JobOrder::Resume)
    }

    /// Hands out no more items of the job, ever. Items that are out may still end or be given back.
    pub fn cancel(&mut self, by: By, job: JobId) -> Result<Told, NotActive>
        requires { 1 ≤ self.old.log.spare }
        ensures entry { self.new ≡ with_entry self.old by (event.Order job order.Cancel (effect_told result)) }
        ensures effect { effect_told result ≡ effect_of order.Cancel (find_job job (jobs_now self.old)) }
        ensures legal { IsLegalNow self.old by (event.Order job order.Cancel (effect_told result)) }
    {
        self.give(by, job, JobOrder::Cancel)
    }

    /// Appends the order with what it does.
    fn give(&mut self, by: By, job: JobId, order: JobOrder) -> Result<Told, NotActive>
        requires { 1 ≤ self.old.log.spare }
        ensures entry { self.new ≡ with_entry self.old by (event.Order job order (effect_told result)) }
        ensures effect { effect_told result ≡ effect_of order (find_job job (jobs_now self.old)) }
        ensures legal { IsLegalNow self.old by (event.Order job order (effect_told result)) }
    {
        let effect = effect_of(self.log.jobs(), job, order);
        self.log
            .append(by, EngineEvent::Order { job, order, effect });
        answer(effect)
    }
}

fn answer(effect: OrderEffect) -> Result<Told, NotActive>
    ensures { effect_told result ≡ effect }
{
    match effect {
        OrderEffect::Changed => Ok(Told::Changed),
        OrderEffect::Same => Ok(Told::Same),
        OrderEffect::NotActive => Err(NotActive),
    }
}

/// What the order does to the job.
fn effect_of(jobs: &[Job], job: JobId, order: JobOrder) -> OrderEffect
    ensures { result ≡ effect_of order (find_job job jobs.now) }
{
    match place_of(jobs, job) {
        None => OrderEffect::NotActive,
        Some(at) => effect_on(&jobs[at], order),
    }
}

fn effect_on(job: &Job, order: JobOrder) -> OrderEffect
    ensures { result ≡ effect_of order (Some job.now) }
{
    if job.is_finished() || job.is_cancelled() {
        return OrderEffect::NotActive;
    }
    let is_same = match order {
        JobOrder::Pause => job.is_paused(),
        JobOrder::Resume => !job.is_paused(),
        JobOrder::Cancel => false,
    };
    if is_same {
        OrderEffect::Same
    } else {
        OrderEffect::Changed
    }
}
