//! The laws of the order of placement: each function's contract is one, and calling it costs nothing.

ghost use Rattle.placement_order.specs.OrderLaws.{FullGroupsFillTheRoom, NewGroupsFindTheRoom, OrderFillsTheRoom, OrderIsComplete, OrderMayGive, PrefixesAreWhole, PrefixesKeepTheirDrives, ReplacementsAreOfThePrefix, RoomIsWithinTheLevel, SpentDrivesMakeNoRoom, UsedDrivesTakeTheirRoom, WholePrefixesAreTheOrder};
ghost use Rattle.placement_order.specs.Stages.{StagesStay};
ghost use Rattle.placement_order.specs.Turns.{OrderIsByTurns};

/// The drives of the order, and those of any prefix of it, may all give slots to one group: no drive comes twice, and no
/// node gets more units than the level allows.
pub fn order_may_give()
    ensures { OrderMayGive }
{}

/// The order leaves no drive out that could give a slot, but for those whose node has all the units that it may have.
pub fn order_is_complete()
    ensures { OrderIsComplete }
{}

/// The order has as many drives as further units of the group find a place.
pub fn order_fills_the_room()
    ensures { OrderFillsTheRoom }
{}

/// A prefix of the order has as many drives as are asked for, if that many further units find a place.
pub fn prefixes_are_whole()
    ensures { PrefixesAreWhole }
{}

/// Whichever drives a group has drawn, once no drive is left to it they are as many as further units find a place.
pub fn full_groups_fill_the_room()
    ensures { FullGroupsFillTheRoom }
{}

/// A new group finds as many places as the width of groups counts on the drives that are usable and not spent.
pub fn new_groups_find_the_room()
    ensures { NewGroupsFindTheRoom }
{}

/// A group that is repaired finds no more places than that.
pub fn room_is_within_the_level()
    ensures { RoomIsWithinTheLevel }
{}

/// If the drives that a group uses are usable themselves, it finds as many places as the width counts, less those drives.
pub fn used_drives_take_their_room()
    ensures { UsedDrivesTakeTheirRoom }
{}

/// A drive that is found empty, or fails, never makes room.
pub fn spent_drives_make_no_room()
    ensures { SpentDrivesMakeNoRoom }
{}

/// The order is what the nodes give, round by round: each the next of its drives that are left, once the rounds exceed the
/// units that the group has there already.
pub fn order_is_by_turns()
    ensures { OrderIsByTurns }
{}

/// If more drives are spent, the others of the first n stay among the first n.
pub fn prefixes_keep_their_drives()
    ensures { PrefixesKeepTheirDrives }
{}

/// A drive that is drawn in place of one whose slot failed is one of the first n of the order without the failed ones: the
/// group's other drives, fewer than n, count as used, and it is the first of the order then.
pub fn replacements_are_of_the_prefix()
    ensures { ReplacementsAreOfThePrefix }
{}

/// n different drives of the first n of the order are the first n of the order.
pub fn whole_prefixes_are_the_order()
    ensures { WholePrefixesAreTheOrder }
{}

/// How far a group comes is settled by the drives that it tries: if more drives are empty, but none that the group has and
/// none whose slot failed, then it has the same drives by position, and found the same ones empty in the same order.
pub fn stages_stay()
    ensures { StagesStay }
{}
