//! The laws of what is stored: each function's contract is one, and calling it costs nothing.

ghost use Rattle.file_history.specs.Laws.{LayoutsAreRooted, LiveUnitsDetermine};

/// What is stored is determined by its live units, where each group has as many as it has data units, and the inode one.
pub fn live_units_determine()
    ensures { LiveUnitsDetermine }
{}

/// What a log says of a file without an inode is that it has no groups and no bytes.
pub fn layouts_are_rooted()
    ensures { LayoutsAreRooted }
{}
