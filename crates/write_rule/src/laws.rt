//! The laws of a write's run: each function's contract is one, and calling it costs nothing.

ghost use Rattle.write_rule.specs.Laws.{AffectedAreRuns, WritesReplaceRuns, WritesKeepUnits, WritesCountGroups, WritesNameTheirRun, NewBytesAreWritten};

/// The groups that a write affects are a run of the map.
pub fn affected_are_runs()
    ensures { AffectedAreRuns }
{}

/// A legal write replaces that run, and its new groups have all bytes that it changes.
pub fn writes_replace_runs()
    ensures { WritesReplaceRuns }
{}

/// After a legal write the map has as many data units as a file of that size.
pub fn writes_keep_units()
    ensures { WritesKeepUnits }
{}

/// The run that a legal write replaces is the one that its entry names.
pub fn writes_name_their_run()
    ensures { WritesNameTheirRun }
{}

/// After a legal write the map has as many groups as the rule says.
pub fn writes_count_groups()
    ensures { WritesCountGroups }
{}

/// The bytes that stay around a payload, with it between them, are those of the file after the write.
pub fn new_bytes_are_written()
    ensures { NewBytesAreWritten }
{}
