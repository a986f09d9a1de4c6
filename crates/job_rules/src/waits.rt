//! Why a job waits.

ghost use Rattle.std.specs.Prelude.{◌≡◌, ◌&&◌, ◌∷◌, [], true, Some, map, IsSome, IfSome, IfNone, None};
ghost use Rattle.std.specs.List.{filter, find};
ghost use Rattle.job_rules.specs.Rank.{AreApart, in_rank, is_after};
ghost use Rattle.job_rules.specs.Chosen.{has_job};
ghost use Rattle.job_rules.specs.Why.{counted_by, excluded_by, is_leaving, is_other_out, kept_before, or_else, view_of, why};

use crate::choice::{are_exclusive, chosen, earlier, is_after};
use crate::job::JobId;
use crate::kept::Kept;
use crate::rank::{JobView, rank_before};

/// Why a job waits.
#[derive(Clone, Copy, Debug, PartialEq, Eq)]
pub enum Waits {
    /// A user paused it.
    ByUser,
    /// It shares a set with this job.
    ByExclusion(JobId),
    /// These three jobs run, or still have items out.
    ByCount([JobId; 3]),
}

/// Why the job waits; `None` where items of it may be handed out (docs/FORMATS.md, "Jobs").
pub fn why(jobs: &[JobView], job: JobId) -> Option<Waits>
    requires apart { AreApart jobs.now }
    requires known { has_job job jobs.now ≡ true }
    ensures { result ≡ why jobs.now job }
{
    let own = view_of(jobs, job);
    if own.by_user {
        return Some(Waits::ByUser);
    }
    let kept = chosen(jobs);
    if !kept.has(job) {
        return Some(waits_for(&kept, &own));
    }
    if let Some(other) = first_leaving(jobs, &kept, &own) {
        return Some(Waits::ByExclusion(other.job));
    }
    three_out(jobs, &own)
}

/// The view of the job.
fn view_of(jobs: &[JobView], job: JobId) -> JobView
    requires { has_job job jobs.now ≡ true }
    ensures { view_of job jobs.now ≡ Some result }
{
    for view in jobs {
        if view.job == job {
            return *view;
        }
    }
    unreachable!()
}

/// What a job waits for that is not kept: the first kept job before it that shares a set with it, else all three.
fn waits_for(kept: &Kept, own: &JobView) -> Waits
    requires { IsSome (or_else (excluded_by (kept_before own.now kept.now)) (counted_by kept.now)) }
    ensures { Some result ≡ or_else (excluded_by (kept_before own.now kept.now)) (counted_by kept.now) }
{
    for other in kept.as_slice() {
        if are_exclusive(other, own) && rank_before(other, own) {
            return Waits::ByExclusion(other.job);
        }
    }
    match kept.as_slice() {
        [a, b, c] => Waits::ByCount([a.job, b.job, c.job]),
        _ => unreachable!(),
    }
}

/// The first in rank of the jobs that are not kept, share a set with this one, and have items out.
fn first_leaving(jobs: &[JobView], kept: &Kept, own: &JobView) -> Option<JobView>
    ensures { result ≡ find (is_leaving own.now kept.now) (in_rank jobs.now) }
{
    let mut first = None;
    for job in jobs {
        if !kept.has(job.job) && job.out > 0 && are_exclusive(job, own) {
            first = earlier(first, job);
        }
    }
    first
}

/// The first three in rank of the other jobs with items out, where there are three.
fn three_out(jobs: &[JobView], own: &JobView) -> Option<Waits>
    requires { AreApart jobs.now }
    ensures { result ≡ counted_by (filter (is_other_out own.now) (in_rank jobs.now)) }
{
    let Some(first) = next_out(jobs, own, None) else {
        return None;
    };
    let Some(second) = next_out(jobs, own, Some(first)) else {
        return None;
    };
    let Some(third) = next_out(jobs, own, Some(second)) else {
        return None;
    };
    Some(Waits::ByCount([first.job, second.job, third.job]))
}

/// The first in rank of the other jobs with items out that come after `last`.
fn next_out(jobs: &[JobView], own: &JobView, last: Option<JobView>) -> Option<JobView>
    ensures { result ≡ find (λ v. is_after last v && is_other_out own.now v) (in_rank jobs.now) }
{
    let mut first = None;
    for job in jobs {
        if is_after(last, job) && job.job != own.job && job.out > 0 {
            first = earlier(first, job);
        }
    }
    first
}
