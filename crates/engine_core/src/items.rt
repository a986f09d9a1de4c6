//! Items from `begin` to their end.

ghost use Rattle.std.specs.Prelude.{◌≡◌, ◌≤◌, ◌<◌, ◌+◌, ◌↔◌, ◌∷◌, true, false, if◌then◌else◌, None, Some, IfSome, IsErr, OnErr, OnOk, length, slice_index_or};
ghost use Rattle.job_rules.specs.Chosen.{chosen, has_job};
ghost use Rattle.engine_history.specs.Jobs.{after_event, find_job, views_of};
ghost use Rattle.engine_history.specs.Steps.{due, is_item_out};
ghost use Rattle.checkpoints.specs.declared.checkpoint.ItemSaved.{ItemSaved};
ghost use Rattle.engine_history.specs.declared.entry.EngineEvent.TheVariants as event;
ghost use Rattle.job_log.specs.JobLog.{JobLogView, jobs_of};
ghost use Rattle.job_log.specs.Jobs.{place_of};
ghost use Rattle.engine_core.specs.BegunItems.{place_in};
ghost use Rattle.engine_core.specs.EngineView.{AreLegalNow, IsLegalNow, NoOtherBegan, due_events, jobs_now, log_with_all, with_begun, with_entries, with_entry};
ghost use Rattle.engine_core.specs.EngineTurns.{HasBegun};
ghost use Rattle.engine_core.specs.Tasks.{next_among, next_of, work_in, work_of};
ghost use Rattle.engine_core.specs.Items.{IsDueWithin, IsOutAt, IsWorkAt, after_begin, go_of, worked_event, IsWorkLegal};

use crate::begun::{Begun, ITEMS};
use crate::engine::Engine;
use crate::serving::see;
use crate::work::{Task, Work};
use checkpoints::ItemSaved;
use domains::By;
use engine_history::{End, EngineEvent};
use job_log::{Job, JobLog, place_of};
use job_rules::{JobId, chosen};
use thiserror::Error;

/// Whether to go on with an item.
#[derive(Clone, Copy, Debug, PartialEq, Eq)]
pub enum Go {
    On,
    Yield,
}

/// The item is not out.
#[derive(Clone, Copy, Debug, PartialEq, Eq, Error)]
#[error("the item is not out")]
pub struct NotOut;

impl Engine {
    /// Begins an item of the task for the seat of this turn, until its `done` or `give_back`. `None` if the item is not out in
    /// the task's phase, or a seat has begun it.
    pub fn begin(&mut self, task: &Task, item: u16) -> Option<Work>
        requires from { task.now.first ≤ item }
        requires to { item < task.now.first + task.now.count }
        ensures work { result ≡ work_of self.old task.now item }
        ensures begun { self.new ≡ after_begin self.old task.now.job item result }
        ensures has { IfSome result (λ work. HasBegun self.old.log.seat self.new work.job work.item) }
        ensures own { IfSome result (λ work. NoOtherBegan self.new work.job work.item) }
    {
        let Some((place, work)) = work_of(self.log.jobs(), task, item) else {
            return None;
        };
        if self.begun[place].is_some() {
            return None;
        }
        self.begun[place] = Some(Begun {
            seat: self.log.seat(),
            at: self.log.entries(),
        });
        Some(work)
    }

    /// The item has come to the position `next`. An entry is appended if it is out. `Yield` if the job is not one of those
    /// that run, or the item is not out.
    pub fn progress(&mut self, by: By, work: &Work, next: u16) -> Go
        requires spare { 1 ≤ self.old.log.spare }
        requires next { next ≤ 257 }
        requires own { NoOtherBegan self.old work.now.job work.now.item }
        ensures entry { self.new ≡ (if is_item_out (jobs_now self.old) work.now.job work.now.item then with_entry self.old by (event.Progress work.now.job work.now.item next) else self.old) }
        ensures go { result ≡ go_of (is_item_out (jobs_now self.old) work.now.job work.now.item) (has_job work.now.job (chosen (views_of (jobs_now self.new)))) }
        ensures legal { is_item_out (jobs_now self.old) work.now.job work.now.item ≡ true → IsLegalNow self.old by (event.Progress work.now.job work.now.item next) }
        ensures own { NoOtherBegan self.new work.now.job work.now.item }
        ensures spare { self.old.log.spare ≤ self.new.log.spare + 1 }
    {
        if !is_out(self.log.jobs(), work.job, work.item) {
            return Go::Yield;
        }
        self.log.append(
            by,
            EngineEvent::Progress {
                job: work.job,
                item: work.item,
                next,
            },
        );
        see(&mut self.views, self.log.jobs());
        go_on(chosen(&self.views).has(work.job))
    }

    /// The item has ended. What follows at once is appended too: the ends of phases, and the finish of the job.
    pub fn done(&mut self, by: By, work: &Work, end: End) -> Result<(), NotOut>
        requires spare { 4 ≤ self.old.log.spare }
        requires own { NoOtherBegan self.old work.now.job work.now.item }
        ensures not_out { IsErr result ↔ (is_item_out (jobs_now self.old) work.now.job work.now.item ≡ false) }
        ensures kept { OnErr result (self.new ≡ self.old) }
        ensures entries { OnOk result (self.new ≡ with_entries (with_begun self.old work.now.job work.now.item None) by (event.Done work.now.job work.now.item end
            ∷ due_events 3 self.old.log.field (after_event self.old.log.field (event.Done work.now.job work.now.item end) (jobs_now self.old)))) }
        ensures legal { OnOk result (AreLegalNow self.old by (event.Done work.now.job work.now.item end
            ∷ due_events 3 self.old.log.field (after_event self.old.log.field (event.Done work.now.job work.now.item end) (jobs_now self.old)))) }
    {
        let Some(place) = out_place(self.log.jobs(), work.job, work.item) else {
            return Err(NotOut);
        };
        self.begun[place] = None;
        self.log.append(
            by,
            EngineEvent::Done {
                job: work.job,
                item: work.item,
                end,
            },
        );
        append_due(&mut self.log, by, 3);
        Ok(())
    }

    /// The item is to do again, from the position `next` on.
    pub fn give_back(&mut self, by: By, work: &Work, next: u16) -> Result<(), NotOut>
        requires spare { 1 ≤ self.old.log.spare }
        requires next { next ≤ 257 }
        requires own { NoOtherBegan self.old work.now.job work.now.item }
        ensures not_out { IsErr result ↔ (is_item_out (jobs_now self.old) work.now.job work.now.item ≡ false) }
        ensures kept { OnErr result (self.new ≡ self.old) }
        ensures entry { OnOk result (self.new ≡ with_entry (with_begun self.old work.now.job work.now.item None) by (event.GiveBack work.now.job work.now.item next)) }
        ensures legal { OnOk result (IsLegalNow self.old by (event.GiveBack work.now.job work.now.item next)) }
    {
        let Some(place) = out_place(self.log.jobs(), work.job, work.item) else {
            return Err(NotOut);
        };
        self.begun[place] = None;
        self.log.append(
            by,
            EngineEvent::GiveBack {
                job: work.job,
                item: work.item,
                next,
            },
        );
        Ok(())
    }

    /// Appends the entry of `work`, or, asked for 0, that of `drain`.
    pub fn worked(&mut self, by: By, asked: u32, steps: u32)
        requires spare { 1 ≤ self.old.log.spare }
        requires work { IsWorkLegal self.old by asked steps }
        ensures entry { self.new ≡ with_entry self.old by (worked_event asked steps) }
        ensures legal { IsLegalNow self.old by (worked_event asked steps) }
    {
        self.log.append(by, worked_event(asked, steps));
    }
}

fn worked_event(asked: u32, steps: u32) -> EngineEvent
    ensures { result ≡ worked_event asked steps }
{
    if asked == 0 {
        EngineEvent::Drain { steps }
    } else {
        EngineEvent::Work { asked, steps }
    }
}

/// Appends what is due: at most `most` entries.
fn append_due(log: &mut JobLog, by: By, most: u8)
    requires spare { most ≤ log.old.spare }
    requires within { IsDueWithin most log.old.field (jobs_of log.old) }
    ensures entries { log.new ≡ log_with_all log.old by (due_events most log.old.field (jobs_of log.old)) }
    ensures none { due (jobs_of log.new) ≡ None }
{
    let Some(event) = due(log.jobs()) else {
        return;
    };
    if most == 0 {
        unreachable!()
    }
    log.append(by, event);
    append_due(log, by, most - 1);
}

/// What is due of these jobs.
fn due(jobs: &[Job]) -> Option<EngineEvent>
    ensures { result ≡ due jobs.now }
{
    for job in jobs {
        if let Some(event) = job.due() {
            return Some(event);
        }
    }
    None
}

/// The work of an item of the task, if it is out in its phase, and its place among those that may be begun.
fn work_of(jobs: &[Job], task: &Task, item: u16) -> Option<(usize, Work)>
    requires { length jobs.now ≤ 64 }
    ensures { IsWorkAt jobs.now task.now item result }
{
    let Some(at) = place_of(jobs, task.job) else {
        return None;
    };
    let Some(work) = work_in(&jobs[at], task.phase, item) else {
        return None;
    };
    Some((at * ITEMS + usize::from(item), work))
}

/// The work of the item, if it is out in this phase.
pub(crate) fn work_in(job: &Job, phase: u8, item: u16) -> Option<Work>
    ensures work { result ≡ work_in (Some job.now) phase item }
    ensures few { IfSome result (λ work. item < 256) }
{
    if job.phase() != phase {
        return None;
    }
    let Some(next) = next_of(job.items(), item) else {
        return None;
    };
    Some(Work {
        job: job.id(),
        kind: job.kind(),
        phase,
        item,
        bars: job.bars(),
        from_group: next,
    })
}

/// The next position of the item, if it is out.
fn next_of(items: &[ItemSaved], item: u16) -> Option<u16>
    ensures value { result ≡ next_among item items.now }
    ensures within { IfSome result (λ next. item < length items.now) }
{
    let at = usize::from(item);
    if at >= items.len() {
        return None;
    }
    next_in(item_at(items, at))
}

fn item_at(items: &[ItemSaved], at: usize) -> ItemSaved
    requires { at < length items.now }
    ensures { (other : ItemSaved) → result ≡ slice_index_or items.now at other }
{
    items[at]
}

fn next_in(item: ItemSaved) -> Option<u16>
    ensures { result ≡ next_of item }
{
    match item {
        ItemSaved::Out { next } => Some(next),
        ItemSaved::ToDo { .. } | ItemSaved::Whole | ItemSaved::Lost | ItemSaved::Short => None,
    }
}

/// The place of the item among those that may be begun, if it is out.
fn out_place(jobs: &[Job], job: JobId, item: u16) -> Option<usize>
    requires { length jobs.now ≤ 64 }
    ensures { IsOutAt jobs.now job item result }
{
    let Some(at) = place_of(jobs, job) else {
        return None;
    };
    let Some(_next) = next_of(jobs[at].items(), item) else {
        return None;
    };
    Some(at * ITEMS + usize::from(item))
}

/// Whether the item of the job is out.
fn is_out(jobs: &[Job], job: JobId, item: u16) -> bool
    requires { length jobs.now ≤ 64 }
    ensures { result ≡ is_item_out jobs.now job item }
{
    out_place(jobs, job, item).is_some()
}

/// Whether to go on with an item that is out.
fn go_on(runs: bool) -> Go
    ensures { result ≡ go_of true runs }
{
    if runs { Go::On } else { Go::Yield }
}
