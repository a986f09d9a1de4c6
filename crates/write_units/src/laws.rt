//! What the new groups of a write hold of the file: the function's contract is the law, and calling it costs nothing.

ghost use Rattle.write_units.specs.Laws.{NeededGroupsCoverRuns, RunsHoldWrites};

use write_rule::laws::affected_are_runs;

/// The new groups of a write begin no later than its range, and end no earlier; behind the range they have no bytes of the file but
/// those of the groups that they replace.
pub fn runs_hold_writes()
    ensures { RunsHoldWrites }
{}

/// Of the run that a write replaces, the groups that it needs have all bytes around its range.
pub fn needed_groups_cover_runs()
    ensures { NeededGroupsCoverRuns }
{
    affected_are_runs();
}
