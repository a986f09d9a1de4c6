//! The law of the levels: the function's contract is the law, and calling it costs nothing.

ghost use Rattle.domains.specs.Losses.{LevelsBearTheirLosses};

/// A group at a level keeps the units that its data wants, whichever nodes and further drives are lost, while these are
/// not more than the level bears.
pub fn levels_bear_their_losses()
    ensures { LevelsBearTheirLosses }
{}
