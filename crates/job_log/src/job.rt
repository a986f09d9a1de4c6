//! A job that was started.

ghost use Rattle.std.specs.Prelude.{◌≡◌, ◌≤◌, ◌+◌, if◌then◌else◌, IfOk, length, true, vec_capacity};
ghost use Rattle.std.specs.List.{list_all};
ghost use Rattle.checkpoints.specs.Saved.{drives_of};
ghost use Rattle.domains.specs.declared.drive_set.DriveSet.{DriveSet};
ghost use Rattle.engine_history.specs.Items.{at_item, count_out, handed_out, is_whole, items_from};
ghost use Rattle.engine_history.specs.Jobs.{in_next_phase, is_active, new_job, ordered, view_of, with_items};
ghost use Rattle.job_log.specs.Changes.{after_change, changed, count_in};
ghost use Rattle.engine_history.specs.Steps.{due_of, end_of_phase};
ghost use Rattle.job_rules.specs.Kinds.{phase_at};
ghost use Rattle.job_log.specs.Jobs.{IsRoomFor};

use crate::bars;
use crate::item_change::{
    ItemChange, change_item, count_out, ended, hand_out, have_ended, is_partial, renew,
};
use checkpoints::ItemSaved;
use domains::{DriveSet, Shape};
use engine_history::{EngineEvent, Finished, JobOrder, OrderEffect};
use job_rules::{Items, JobId, JobKind, JobView, Phase};
use std::alloc::{AllocError, Global};
use std::marker::Model;

/// The most items of a phase.
const MOST_ITEMS: usize = 256;

/// A job as the log leaves it. How many drives it bars and how many of its items are out is kept beside it, and room for the
/// items of any phase.
#[derive(Debug, Drop)]
pub struct Job {
    job: JobId,
    kind: JobKind,
    priority: u8,
    order: u32,
    bars: DriveSet,
    barred: u16,
    paused: bool,
    cancelled: bool,
    finished: bool,
    phase: u8,
    earlier: bool,
    items: Vec<ItemSaved>,
    out: u32,
    all_ended: bool,
}

impl Model for Job {
    ghost use Rattle.std.specs.Prelude.{vec_capacity};
    ghost use Rattle.engine_history.specs.declared.job.JobState.{JobState};
    ghost use Rattle.job_log.specs.Jobs.{IsKept};

    ghost Value = { JobState };

    ghost view = { λ j. record {
      job = j.job;
      kind = j.kind;
      priority = j.priority;
      order = j.order;
      bars = j.bars;
      paused = j.paused;
      cancelled = j.cancelled;
      finished = j.finished;
      phase = j.phase;
      earlier = j.earlier;
      items = j.items.items;
    } };

    ghost invariant = { λ j. IsKept j.bars j.barred j.items.items j.out j.all_ended (vec_capacity j.items) };
}

impl Job {
    /// A job that was started after `order` others, in a cluster of this shape with `files` files.
    pub(crate) fn new(
        alloc: Global,
        shape: Shape,
        files: u16,
        order: u32,
        job: JobId,
        kind: JobKind,
        priority: u8,
        bars: DriveSet,
    ) -> Result<Job, AllocError>
        requires files { files ≤ 256 }
        requires bars { length (drives_of bars) ≤ 200 }
        ensures { IfOk result (λ j. j ≡ new_job (record { shape = shape; files = files }) order job kind priority bars) }
    {
        let mut items = Vec::with_capacity(alloc, MOST_ITEMS)?;
        let barred = bars::count_of(&bars);
        renew(&mut items, count_in(shape, files, barred, kind.phase(0)));
        let all_ended = have_ended(&items);
        Ok(Job {
            job,
            kind,
            priority,
            order,
            bars,
            barred,
            paused: false,
            cancelled: false,
            finished: false,
            phase: 0,
            earlier: false,
            items,
            out: 0,
            all_ended,
        })
    }

    pub fn id(&self) -> JobId
        ensures { result ≡ self.now.job }
    {
        self.job
    }

    pub fn kind(&self) -> JobKind
        ensures { result ≡ self.now.kind }
    {
        self.kind
    }

    pub fn priority(&self) -> u8
        ensures { result ≡ self.now.priority }
    {
        self.priority
    }

    /// How many jobs were started before it.
    pub fn order(&self) -> u32
        ensures { result ≡ self.now.order }
    {
        self.order
    }

    pub fn bars(&self) -> DriveSet
        ensures { result ≡ self.now.bars }
    {
        self.bars
    }

    pub fn is_paused(&self) -> bool
        ensures { result ≡ self.now.paused }
    {
        self.paused
    }

    pub fn is_cancelled(&self) -> bool
        ensures { result ≡ self.now.cancelled }
    {
        self.cancelled
    }

    pub fn is_finished(&self) -> bool
        ensures { result ≡ self.now.finished }
    {
        self.finished
    }

    /// Its phase, from 0.
    pub fn phase(&self) -> u8
        ensures { result ≡ self.now.phase }
    {
        self.phase
    }

    /// Whether an item of an earlier phase ended other than whole.
    pub fn has_earlier(&self) -> bool
        ensures { result ≡ self.now.earlier }
    {
        self.earlier
    }

    /// The items of its phase: at most 256.
    pub fn items(&self) -> &[ItemSaved]
        ensures value { result.now ≡ self.now.items }
        ensures many { length result.now ≤ 256 }
    {
        &self.items
    }

    /// Whether it is not at its end: neither finished nor cancelled, or cancelled with items out.
    pub fn is_active(&self) -> bool
        ensures { result ≡ is_active self.now }
    {
        !self.finished && (!self.cancelled || self.out > 0)
    }

    /// The job as the rules see it.
    pub fn view(&self) -> JobView
        ensures { result ≡ view_of self.now }
    {
        JobView {
            job: self.job,
            kind: self.kind,
            priority: self.priority,
            started: self.order,
            by_user: self.paused || self.cancelled,
            out: self.out,
        }
    }

    /// What follows at once where no item of its phase is left: the end of the phase, and behind the last phase the finish.
    pub fn due(&self) -> Option<EngineEvent>
        ensures { result ≡ due_of self.now }
    {
        if self.finished || self.cancelled || !self.all_ended {
            return None;
        }
        Some(self.end_of_phase())
    }

    fn end_of_phase(&self) -> EngineEvent
        ensures { result ≡ end_of_phase self.now (phase_at self.now.kind self.now.phase) }
    {
        match self.kind.phase(self.phase) {
            Some(_phase) => EngineEvent::PhaseEnd {
                job: self.job,
                phase: self.phase,
            },
            None => EngineEvent::Finish {
                job: self.job,
                result: finished(self.earlier),
            },
        }
    }

    /// Carries out an entry of this job.
    pub(crate) fn apply(&mut self, shape: Shape, files: u16, event: &EngineEvent)
        requires { IsRoomFor files self.old event.now }
        ensures { self.new ≡ changed (record { shape = shape; files = files }) event.now self.old }
    {
        match event {
            EngineEvent::Order {
                order,
                effect: OrderEffect::Changed,
                ..
            } => self.obey(*order),
            EngineEvent::HandOut { first, count, .. } => self.hand_out(*first, *count),
            EngineEvent::Progress { item, next, .. } => {
                self.change(*item, ItemChange::ComeTo { next: *next });
            }
            EngineEvent::GiveBack { item, next, .. } => {
                self.change(*item, ItemChange::GiveBack { next: *next });
            }
            EngineEvent::Done { item, end, .. } => {
                self.change(*item, ItemChange::Become { item: ended(end) });
            }
            EngineEvent::PhaseEnd { .. } => self.begin_next_phase(shape, files),
            EngineEvent::Finish { .. } => self.finished = true,
            _ => {}
        }
    }

    fn obey(&mut self, order: JobOrder)
        ensures { self.new ≡ ordered order self.old }
    {
        match order {
            JobOrder::Pause => self.paused = true,
            JobOrder::Resume => self.paused = false,
            JobOrder::Cancel => self.cancelled = true,
        }
    }

    fn hand_out(&mut self, first: u16, count: u8)
        ensures { self.new ≡ with_items (items_from first count handed_out) self.old }
    {
        hand_out(&mut self.items, first, count);
        self.out = count_out(&self.items);
        self.all_ended = have_ended(&self.items);
    }

    fn change(&mut self, item: u16, change: ItemChange)
        ensures { self.new ≡ with_items (at_item item (after_change change)) self.old }
    {
        change_item(&mut self.items, usize::from(item), change);
        self.out = count_out(&self.items);
        self.all_ended = have_ended(&self.items);
    }

    fn begin_next_phase(&mut self, shape: Shape, files: u16)
        requires files { files ≤ 256 }
        requires phase { self.old.phase ≤ 2 }
        ensures { self.new ≡ in_next_phase (record { shape = shape; files = files }) self.old }
    {
        self.earlier = is_partial(self.earlier, &self.items);
        self.phase += 1;
        let count = count_in(shape, files, self.barred, self.kind.phase(self.phase));
        renew(&mut self.items, count);
        self.out = 0;
        self.all_ended = have_ended(&self.items);
    }
}

/// How many items the phase has, of a job that bars `barred` drives.
fn count_in(shape: Shape, files: u16, barred: u16, phase: Option<Phase>) -> u16
    requires files { files ≤ 256 }
    requires barred { barred ≤ 200 }
    ensures value { (bars : DriveSet) → barred ≡ length (drives_of bars) → result ≡ count_in (record { shape = shape; files = files }) bars phase }
    ensures many { result ≤ 256 }
{
    match phase {
        None => 0,
        Some(phase) => match phase.items() {
            Items::Files => files,
            Items::BarredDrives => barred,
            Items::Drives => u16::from(shape.nodes()) * u16::from(shape.drives()),
        },
    }
}

/// How a job finishes, of which an item ended other than whole or none did.
fn finished(earlier: bool) -> Finished
    ensures { result ≡ (if earlier then Finished.Partial else Finished.Done) }
{
    if earlier {
        Finished::Partial
    } else {
        Finished::Done
    }
}
