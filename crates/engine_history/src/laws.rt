//! Laws of the definitions, as contracts of functions with empty bodies.

ghost use Rattle.std.specs.Prelude.{◌≡◌, ℕ, ◌≤◌, List, [], ◌∷◌, ◌++◌, length};
ghost use Rattle.turn_cell.specs.Notes.{notes_by};
ghost use Rattle.turn_cell.specs.declared.chronicle.Note.{Note};
ghost use Rattle.job_rules.specs.declared.job.JobId.{JobId};
ghost use Rattle.engine_history.specs.Begun.{IsBegun, NoneTouches, touches};
ghost use Rattle.engine_history.specs.Jobs.{Field, after_event, jobs_after};
ghost use Rattle.engine_history.specs.JobsWithItemsOut.{AreRunning};
ghost use Rattle.engine_history.specs.Steps.{AreLegalFrom, World};
ghost use Rattle.engine_history.specs.declared.entry.EngineEntry.{EngineEntry};

/// The jobs that a log with one entry more leaves are those that the log leaves, changed by the entry.
pub fn an_entry_changes_what_the_log_leaves()
    ensures { (field : Field) (log : List EngineEntry) (e : EngineEntry) → jobs_after field (log ++ e ∷ []) ≡ after_event field e.event (jobs_after field log) }
{}

/// At every point of a legal log at most three jobs have items out, and no two of them share a set.
pub fn jobs_with_items_out_are_few_and_share_no_set()
    ensures { (world : World) (log more : List EngineEntry) → AreLegalFrom world [] (log ++ more) → AreRunning (jobs_after world.field log) }
{}

/// Between two turns of a seat that has begun an item, no note hands the item out, progresses it, ends it or gives it back.
/// `last` are the notes that the first turn left, `more` those that the second finds behind them. `enter` of the turn cell
/// tells that the seat has no note among these, and, by the seat's tally, that it has begun the item still.
pub fn what_a_seat_has_begun_no_other_touches()
    ensures { (field : Field) (seat at : ℕ) (job : JobId) (item : ℕ) (last more : List (Note EngineEntry))
        → IsBegun field seat at job item (last ++ more) → at ≤ length last → notes_by seat (last ++ more) ≡ notes_by seat last → NoneTouches job item more }
{}
