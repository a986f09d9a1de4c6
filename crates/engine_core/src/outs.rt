//! Items that are out.

ghost use Rattle.std.specs.Prelude.{◌≡◌, ◌≤◌, None, Some, length};
ghost use Rattle.std.specs.List.{position_or_len};
ghost use Rattle.engine_history.specs.Items.{is_out};
ghost use Rattle.engine_core.specs.EngineView.{jobs_now};
ghost use Rattle.engine_core.specs.Outs.{IsFirstOut, first_out_of, is_lower, lowest_out, out_in};

use crate::engine::Engine;
use crate::items::work_in;
use crate::work::Work;
use checkpoints::ItemSaved;
use job_log::{Job, place_of};
use job_rules::JobId;

/// An item that is out, and the position at which it goes on.
#[derive(Clone, Copy, Debug)]
pub struct OutItem {
    pub work: Work,
    pub next: u16,
}

impl Engine {
    /// The first item that is out, by the numbers of jobs and then of items. `None` if no item is out.
    pub fn first_out(&self) -> Option<OutItem>
        ensures { IsFirstOut (jobs_now self.now) result }
    {
        first_out_of(self.log.jobs())
    }
}

fn first_out_of(jobs: &[Job]) -> Option<OutItem>
    ensures { result ≡ first_out_of jobs.now }
{
    let Some(job) = lowest_out(jobs) else {
        return None;
    };
    let Some(at) = place_of(jobs, job) else {
        return None;
    };
    first_out_in(&jobs[at])
}

/// Of the jobs with items out, the one with the lowest number.
fn lowest_out(jobs: &[Job]) -> Option<JobId>
    ensures { result ≡ lowest_out jobs.now None }
{
    let mut lowest = None;
    for job in jobs {
        if job.view().out > 0 && is_lower(lowest, job.id()) {
            lowest = Some(job.id());
        }
    }
    lowest
}

fn is_lower(lowest: Option<JobId>, job: JobId) -> bool
    ensures { result ≡ is_lower lowest job }
{
    match lowest {
        None => true,
        Some(best) => job.number < best.number,
    }
}

/// The first item of the job that is out.
fn first_out_in(job: &Job) -> Option<OutItem>
    ensures { result ≡ out_in (Some job.now) }
{
    let item = first_out_among(job.items());
    let Some(work) = work_in(job, job.phase(), item) else {
        return None;
    };
    Some(OutItem {
        work,
        next: work.from_group,
    })
}

/// The number of the first item that is out; how many there are, where none is.
fn first_out_among(items: &[ItemSaved]) -> u16
    requires { length items.now ≤ 256 }
    ensures { result ≡ position_or_len is_out items.now }
{
    let mut before: u16 = 0;
    for item in items {
        if matches!(item, ItemSaved::Out { .. }) {
            return before;
        }
        before += 1;
    }
    before
}
