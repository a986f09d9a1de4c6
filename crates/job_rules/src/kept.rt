//! The jobs that run.

ghost use Rattle.std.specs.Prelude.{◌≡◌, ◌<◌, ◌≤◌, [], ◌∷◌, ◌++◌, length};
ghost use Rattle.job_rules.specs.Chosen.{has_job};

use crate::job::JobId;
use crate::kind::JobKind;
use crate::rank::JobView;
use std::marker::Model;

/// At most three jobs, in rank. Contracts see them as a list.
#[derive(Debug, Drop)]
pub struct Kept {
    jobs: [JobView; 3],
    count: usize,
}

impl Model for Kept {
    ghost use Rattle.std.specs.Prelude.{◌≤◌, List, take};
    ghost use Rattle.job_rules.specs.declared.rank.JobView.{JobView};

    ghost Value = { List JobView };

    ghost view = { λ k. take k.count k.jobs };

    ghost invariant = { λ k. k.count ≤ 3 };
}

/// What stands at the places that no job has yet.
const NO_JOB: JobView = JobView {
    job: JobId { number: 0 },
    kind: JobKind::FlexProtect,
    priority: 0,
    started: 0,
    by_user: false,
    out: 0,
};

impl Kept {
    /// The most jobs that run at once.
    pub const MOST: usize = 3;

    pub(crate) fn new() -> Kept
        ensures { result ≡ [] }
    {
        Kept {
            jobs: [NO_JOB; 3],
            count: 0,
        }
    }

    pub(crate) fn push(&mut self, job: JobView)
        requires { length self.old < 3 }
        ensures { self.new ≡ self.old ++ job ∷ [] }
    {
        self.jobs[self.count] = job;
        self.count += 1;
    }

    /// The jobs, in rank.
    pub fn as_slice(&self) -> &[JobView]
        ensures same { result.now ≡ self.now }
        ensures few { length self.now ≤ 3 }
    {
        &self.jobs[..self.count]
    }

    pub fn has(&self, job: JobId) -> bool
        ensures { result ≡ has_job job self.now }
    {
        self.as_slice().iter().any(|kept| kept.job == job)
    }
}
