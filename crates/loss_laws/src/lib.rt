//! What a file bears: which losses of nodes and drives leave its bytes determined. Each function's contract is a law, and calling
//! it costs nothing.
#![tactic(auto)]

ghost use Rattle.loss_laws.specs.Laws.{GroupsKeepEnough, FilesBearLosses, LevelFilesBearLosses};

/// A group at a level, which lost no more than the level bears, has as many live units as data units.
pub fn groups_keep_enough()
    ensures { GroupsKeepEnough }
{}

/// What is stored of a file is determined by its live units, if each of its groups lost no more than its level bears.
pub fn files_bear_losses()
    ensures { FilesBearLosses }
{}

/// A file at its requested level, none of whose units is dead, bears the loss of any nodes and of any further drives, while these
/// are not more than the level bears.
pub fn level_files_bear_losses()
    ensures { LevelFilesBearLosses }
{}
