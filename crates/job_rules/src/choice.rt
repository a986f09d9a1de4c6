//! Which jobs run.

ghost use Rattle.std.specs.Prelude.{◌≡◌, ◌&&◌};
ghost use Rattle.std.specs.List.{find};
ghost use Rattle.job_rules.specs.Rank.{AreApart, earlier, in_rank, is_after, share};
ghost use Rattle.job_rules.specs.Chosen.{chosen, fits};

use crate::kept::Kept;
use crate::rank::{JobView, rank_before, shares};

/// The jobs that run, in rank: of those that no user paused the first, and each further one that shares no set with a job
/// kept before it, until three are kept (docs/FORMATS.md, "Jobs").
pub fn chosen(jobs: &[JobView]) -> Kept
    requires { AreApart jobs.now }
    ensures { result ≡ chosen jobs.now }
{
    let mut kept = Kept::new();
    let mut last = None;
    for _turn in 0..Kept::MOST {
        let Some(next) = first_that_fits(jobs, &kept, last) else {
            return kept;
        };
        kept.push(next);
        last = Some(next);
    }
    kept
}

/// The first in rank of the jobs after `last` that fits beside those kept.
fn first_that_fits(jobs: &[JobView], kept: &Kept, last: Option<JobView>) -> Option<JobView>
    ensures { result ≡ find (λ v. is_after last v && fits kept.now v) (in_rank jobs.now) }
{
    let mut first = None;
    for job in jobs {
        if is_after(last, job) && fits(kept, job) {
            first = earlier(first, job);
        }
    }
    first
}

/// Whether `last`, where there is one, ranks before the job.
pub(crate) fn is_after(last: Option<JobView>, job: &JobView) -> bool
    ensures { result ≡ is_after last job.now }
{
    match last {
        None => true,
        Some(last) => rank_before(&last, job),
    }
}

/// The one of the two that comes first in rank.
pub(crate) fn earlier(first: Option<JobView>, job: &JobView) -> Option<JobView>
    ensures { result ≡ earlier first job.now }
{
    match first {
        Some(best) if !rank_before(job, &best) => Some(best),
        _ => Some(*job),
    }
}

fn fits(kept: &Kept, job: &JobView) -> bool
    ensures { result ≡ fits kept.now job.now }
{
    let kept = kept.as_slice();
    !job.by_user && kept.len() < Kept::MOST && !kept.iter().any(|other| are_exclusive(other, job))
}

/// Whether the two share a set.
pub(crate) fn are_exclusive(a: &JobView, b: &JobView) -> bool
    ensures { result ≡ share a.now b.now }
{
    shares(a.kind.sets(), b.kind.sets())
}
