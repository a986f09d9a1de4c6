//! The names of the jobs of a scenario.

ghost use Rattle.std.specs.Prelude.{◌≡◌, ◌++◌, IfOk, OnOk};
ghost use Rattle.operation_rules.specs.OpRules.{started_in, starts};

use lists::List;
use operation_rules::PlacedOp;
use operation_text::{JobName, NamedOp};
use std::alloc::{AllocError, Global};

/// The names of the jobs in the order of their starts.
pub(crate) fn job_names(alloc: Global, ops: &[PlacedOp]) -> Result<List<JobName>, AllocError>
    ensures { IfOk result (λ jobs. jobs ≡ started_in ops.now) }
{
    let mut jobs = List::new(alloc);
    for op in ops {
        add_started(alloc, &mut jobs, &op.what)?;
    }
    Ok(jobs)
}

/// Adds the job that the operation starts, if it is a start.
fn add_started(alloc: Global, jobs: &mut List<JobName>, op: &NamedOp) -> Result<(), AllocError>
    ensures { OnOk result (jobs.new ≡ jobs.old ++ starts op.now) }
{
    match op {
        NamedOp::Start { job, .. } => {
            let copy = copy_of(alloc, job)?;
            jobs.push(copy).map_err(|_| AllocError)
        }
        _ => Ok(()),
    }
}

fn copy_of(alloc: Global, job: &JobName) -> Result<JobName, AllocError>
    ensures { IfOk result (λ copy. copy ≡ job.now) }
{
    let text = String::from_str(alloc, job.as_str())?;
    match JobName::new(text) {
        Some(copy) => Ok(copy),
        None => unreachable!(),
    }
}
