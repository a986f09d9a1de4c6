//! Which job is served next, and with which items.

ghost use Rattle.std.specs.Prelude.{◌≡◌, ◌≤◌, ◌&&◌, if◌then◌else◌, IfSome, IsSome, Some, length, true, vec_capacity};
ghost use Rattle.std.specs.List.{list_any, position_or_len};
ghost use Rattle.engine_history.specs.Items.{is_to_do};
ghost use Rattle.engine_history.specs.Jobs.{find_job, views_of};
ghost use Rattle.engine_history.specs.Steps.{has_to_do, is_served, next_job};
ghost use Rattle.job_rules.specs.Chosen.{has_job};
ghost use Rattle.job_rules.specs.Rank.{AreApart, earlier};
ghost use Rattle.engine_core.specs.Tasks.{is_sooner, run_of, task_in};

use crate::work::Task;
use checkpoints::ItemSaved;
use job_log::{Job, place_of};
use job_rules::{JobId, JobView, rank_before, why};

/// Writes what the rules see of the jobs into room that is there.
pub(crate) fn see(views: &mut Vec<JobView>, jobs: &[Job])
    requires room { 64 ≤ vec_capacity views.old }
    requires few { length jobs.now ≤ 64 }
    ensures views { views.new.items ≡ views_of jobs.now }
    ensures room { 64 ≤ vec_capacity views.new }
{
    views.clear();
    for job in jobs {
        if job.is_active() {
            views.push_reserved(job.view());
        }
    }
}

/// The first job in rank that does not wait and has an item to do.
pub(crate) fn next_job(views: &[JobView], jobs: &[Job]) -> Option<JobView>
    requires apart { AreApart views.now }
    requires views { views.now ≡ views_of jobs.now }
    ensures { result ≡ next_job jobs.now }
{
    let mut first = None;
    for view in views {
        first = sooner(views, jobs, first, view);
    }
    first
}

/// The job, if it is served and ranks before the first one so far, else that one.
fn sooner(
    views: &[JobView],
    jobs: &[Job],
    first: Option<JobView>,
    view: &JobView,
) -> Option<JobView>
    requires apart { AreApart views.now }
    requires known { has_job view.now.job views.now ≡ true }
    requires views { views.now ≡ views_of jobs.now }
    ensures { result ≡ (if is_served jobs.now view.now then earlier first view.now else first) }
{
    if ranks_first(first, view) && is_served(views, jobs, view) {
        Some(*view)
    } else {
        first
    }
}

/// Whether the job does not wait and has an item to do.
fn is_served(views: &[JobView], jobs: &[Job], view: &JobView) -> bool
    requires apart { AreApart views.now }
    requires known { has_job view.now.job views.now ≡ true }
    requires views { views.now ≡ views_of jobs.now }
    ensures { result ≡ is_served jobs.now view.now }
{
    why(views, view.job).is_none() && has_to_do(jobs, view.job)
}

/// Whether the job ranks before the first one so far.
fn ranks_first(first: Option<JobView>, view: &JobView) -> bool
    ensures { result ≡ is_sooner first view.now }
{
    match first {
        None => true,
        Some(best) => rank_before(view, &best),
    }
}

/// Whether the job has an item to do.
fn has_to_do(jobs: &[Job], job: JobId) -> bool
    ensures { result ≡ has_to_do (find_job job jobs.now) }
{
    match place_of(jobs, job) {
        None => false,
        Some(at) => any_to_do(jobs[at].items()),
    }
}

fn any_to_do(items: &[ItemSaved]) -> bool
    ensures { result ≡ list_any is_to_do items.now }
{
    items.iter().any(is_to_do)
}

fn is_to_do(item: &ItemSaved) -> bool
    ensures { result ≡ is_to_do item.now }
{
    matches!(item, ItemSaved::ToDo { .. })
}

/// The task that hands out at most `most` items of the job, which is one of these.
pub(crate) fn next_task(jobs: &[Job], job: JobId, most: u8) -> Task
    requires some { 1 ≤ most }
    requires few { most ≤ 8 }
    requires known { IsSome (find_job job jobs.now) }
    ensures { IfSome (find_job job jobs.now) (λ j. result ≡ task_in j most) }
{
    let Some(at) = place_of(jobs, job) else {
        unreachable!()
    };
    task_of(&jobs[at], most)
}

/// The task that hands out at most `most` items of the job: the first one to do and those that follow it directly.
pub(crate) fn task_of(job: &Job, most: u8) -> Task
    requires some { 1 ≤ most }
    requires few { most ≤ 8 }
    ensures { result ≡ task_in job.now most }
{
    let items = job.items();
    let first = first_to_do(items);
    let (_before, rest) = items.split_at(first);
    Task {
        job: job.id(),
        phase: job.phase(),
        first: first as u16,
        count: run_of(rest, most),
    }
}

/// The number of the first item to do; how many there are, where none is.
fn first_to_do(items: &[ItemSaved]) -> usize
    ensures value { result ≡ position_or_len is_to_do items.now }
    ensures within { result ≤ length items.now }
{
    for (at, item) in items.iter().enumerate() {
        if is_to_do(item) {
            return at;
        }
    }
    items.len()
}

/// How many of the first `most` items are to do, up to the first that is not.
fn run_of(items: &[ItemSaved], most: u8) -> u8
    ensures { result ≡ run_of most items.now }
{
    let mut count: u8 = 0;
    for item in items {
        if count == most {
            return count;
        }
        if !is_to_do(item) {
            return count;
        }
        count += 1;
    }
    count
}
