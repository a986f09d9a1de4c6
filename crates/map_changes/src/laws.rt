//! The laws of a changed map: each function's contract is one, and calling it costs nothing.

ghost use Rattle.map_changes.specs.Laws.{ChangedInodesAreSpelled, ChangedPlacesDiffer, InodesFitSlots};

/// A map in which new groups at a level stand in the place of a run can be spelled.
pub fn changed_inodes_are_spelled()
    ensures { ChangedInodesAreSpelled }
{}

/// Where new units stand at free places, no place of the changed map comes twice.
pub fn changed_places_differ()
    ensures { ChangedPlacesDiffer }
{}

/// The text of an inode fits into a slot.
pub fn inodes_fit_slots()
    ensures { InodesFitSlots }
{}
