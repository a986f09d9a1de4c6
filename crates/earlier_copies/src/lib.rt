//! Changes that were made ready on an earlier copy of a file: when they may be made still. Each function's contract is a law, and
//! calling it costs nothing.
#![tactic(auto)]

ghost use Rattle.earlier_copies.specs.Laws.{EarlierWritesAreLegal, EarlierWritesKeepBytes};
ghost use Rattle.earlier_copies.specs.PlaceLaws.{EarlierPlacesAreLegal, EarlierPlacesFindGroups, EarlierPlacesLeaveGroups};

/// A write that was legal on an earlier copy, against which no later entry stands, and which passes its caller's tests now, is legal
/// now.
pub fn earlier_writes_are_legal()
    ensures { EarlierWritesAreLegal }
{}

/// The groups that such a write brings hold the same bytes in the file after it, on the copy and now.
pub fn earlier_writes_keep_bytes()
    ensures { EarlierWritesKeepBytes }
{}

/// A placement that was legal on an earlier copy, against which no later entry stands, and which passes its caller's tests now, is
/// legal now.
pub fn earlier_places_are_legal()
    ensures { EarlierPlacesAreLegal }
{}

/// The group that such a placement replaces stands now where it stood on the copy, with the same bytes.
pub fn earlier_places_find_groups()
    ensures { EarlierPlacesFindGroups }
{}

/// Each other group of the map stands behind it where it stands now.
pub fn earlier_places_leave_groups()
    ensures { EarlierPlacesLeaveGroups }
{}
