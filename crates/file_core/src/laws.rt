//! Laws of the definitions, as contracts of functions with empty bodies: calling one costs nothing.

ghost use Rattle.file_core.specs.Accounts.{AccountsBalance, AccountsStay};
ghost use Rattle.file_core.specs.StoredPlaces.{LiveSlotsDetermine, PlacesHoldTheFile};

use flex_io::Slot;

/// A longer history with the same notes of a seat leaves the seat's account with the file as it was.
pub fn accounts_stay()
    ensures { AccountsStay }
{}

/// What a file holds, and all that its notes took away, is all that they placed.
pub fn accounts_balance()
    ensures { AccountsBalance }
{}

/// The places of a file's slots hold the file.
pub fn places_hold_the_file<S: Slot>()
    ensures { PlacesHoldTheFile S.place_of S.content S.len_of }
{}

/// Where all slots tell, and enough units are live, no other file has these live units.
pub fn live_slots_determine<S: Slot>()
    ensures { LiveSlotsDetermine S.place_of S.content S.len_of }
{}
