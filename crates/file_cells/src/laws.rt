//! Laws of the definitions, as contracts of functions with empty bodies: calling one costs nothing.

ghost use Rattle.file_cells.specs.FileEnds.{SlotsStand};

use flex_io::Slot;

/// The slots of a file stand at the places of its layout, in the layout's order.
pub fn slots_stand_at_their_places<S: Slot>()
    ensures { SlotsStand S.place_of S.content S.len_of }
{}
