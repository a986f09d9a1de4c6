//! Handing out items.

ghost use Rattle.std.specs.Prelude.{◌≡◌, ◌≤◌, ◌↔◌, IfOk, IsErr, None, OnErr};
ghost use Rattle.engine_history.specs.Steps.{next_job};
ghost use Rattle.engine_history.specs.declared.entry.EngineEvent.TheVariants as event;
ghost use Rattle.engine_core.specs.EngineView.{IsLegalNow, jobs_now, with_entry};
ghost use Rattle.engine_core.specs.HandOuts.{HandsOut};

use crate::engine::Engine;
use crate::serving::{next_job, next_task, see};
use crate::work::Task;
use domains::By;
use engine_history::EngineEvent;
use thiserror::Error;

/// No job may be served: each waits or has no item to do.
#[derive(Clone, Copy, Debug, PartialEq, Eq, Error)]
#[error("no job has an item to do that may be handed out")]
pub struct Idle;

impl Engine {
    /// Hands out 1 to 8 items, at most `most`, of the first job in rank that does not wait and has an item to do: the first
    /// such item and those that follow it directly.
    pub fn hand_out(&mut self, by: By, most: u8) -> Result<Task, Idle>
        requires spare { 1 ≤ self.old.log.spare }
        requires some { 1 ≤ most }
        requires few { most ≤ 8 }
        ensures ok { IfOk result (λ task. HandsOut self.old most task) }
        ensures entry { IfOk result (λ task. self.new ≡ with_entry self.old by (event.HandOut task.job task.phase task.first task.count)) }
        ensures legal { IfOk result (λ task. IsLegalNow self.old by (event.HandOut task.job task.phase task.first task.count)) }
        ensures idle { IsErr result ↔ (next_job (jobs_now self.old) ≡ None) }
        ensures kept { OnErr result (self.new ≡ self.old) }
    {
        see(&mut self.views, self.log.jobs());
        let Some(next) = next_job(&self.views, self.log.jobs()) else {
            return Err(Idle);
        };
        let task = next_task(self.log.jobs(), next.job, most);
        self.log.append(
            by,
            EngineEvent::HandOut {
                job: task.job,
                phase: task.phase,
                first: task.first,
                count: task.count,
            },
        );
        Ok(task)
    }
}
