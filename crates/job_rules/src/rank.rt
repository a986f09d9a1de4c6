//! The order of jobs, and which of them do not run together.

ghost use Rattle.std.specs.Prelude.{◌≡◌};
ghost use Rattle.job_rules.specs.Rank.{rank_before, shares};

use crate::job::JobId;
use crate::kind::{JobKind, Sets};

/// A job that is not at its end, as the rules see it: its number of starts before it, whether a user paused it, and how many
/// of its items are out.
#[derive(Clone, Copy, Debug, PartialEq, Eq)]
pub struct JobView {
    pub job: JobId,
    pub kind: JobKind,
    pub priority: u8,
    pub started: u32,
    pub by_user: bool,
    pub out: u32,
}

/// Whether `a` comes before `b`: it has a smaller priority, or the same and an earlier start.
pub fn rank_before(a: &JobView, b: &JobView) -> bool
    ensures { result ≡ rank_before a.now b.now }
{
    a.priority < b.priority || (a.priority == b.priority && a.started < b.started)
}

/// Whether both are in the restripe set, or both in the mark set.
pub fn shares(a: Sets, b: Sets) -> bool
    ensures { result ≡ shares a b }
{
    (a.restripe && b.restripe) || (a.mark && b.mark)
}
