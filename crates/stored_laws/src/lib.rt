//! What the units of a file hold, over every list of entries that write their new units. Each function's contract is a law, and
//! calling it costs nothing.
#![tactic(auto)]

ghost use Rattle.stored_laws.specs.Laws.{FilesStayStored, StoredFilesBearLosses};

/// After every list of legal entries, each of which wrote its new units and left those that stay, the file is stored.
pub fn files_stay_stored()
    ensures { FilesStayStored }
{}

/// So a file at its requested level, which lost no more than that level bears, is determined by its live units.
pub fn stored_files_bear_losses()
    ensures { StoredFilesBearLosses }
{}
