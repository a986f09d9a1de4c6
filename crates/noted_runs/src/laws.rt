//! Laws of the definitions, as contracts of functions with empty bodies: calling one costs nothing.

ghost use Rattle.noted_runs.specs.NotedRuns.{NotedFilesAreLegal, ToldRunsAreLegal};

use flex_io::Slot;

/// The log of a file is legal whose notes are legal at their views, and are entries of the run.
pub fn noted_files_are_legal<S: Slot>()
    ensures { NotedFilesAreLegal S.content }
{}

/// Where all slots tell what they hold, a run is legal that is so but for what reads show.
pub fn told_runs_are_legal<S: Slot>()
    ensures { ToldRunsAreLegal S.content }
{}
