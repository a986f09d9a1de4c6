//! What the log of a file says of its map: each function's contract is a law, and calling it costs nothing.

ghost use Rattle.map_laws.specs.Laws.{InodesAreSpelled, MappedGroupsStood, MappedGroupsKeepBytes, MappedGroupsStayStored, MappedGenerationsStay};

/// The inode of a file that is there can be spelled, after every list of legal entries.
pub fn inodes_are_spelled()
    ensures { InodesAreSpelled }
{}

/// A group of the map, whose generation none of the later entries gave, stood in the map before them, as it is.
pub fn mapped_groups_stood()
    ensures { MappedGroupsStood }
{}

/// The data units of such a group had the same bytes.
pub fn mapped_groups_keep_bytes()
    ensures { MappedGroupsKeepBytes }
{}

/// What the places of such a group hold is its part of the file before the entries and after them.
pub fn mapped_groups_stay_stored()
    ensures { MappedGroupsStayStored }
{}

/// A generation that is mapped before the entries and after them is one group, from one data unit on.
pub fn mapped_generations_stay()
    ensures { MappedGenerationsStay }
{}
