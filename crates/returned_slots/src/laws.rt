//! Laws of the definitions, as contracts of functions with empty bodies: calling one costs nothing.

ghost use Rattle.returned_slots.specs.FabricEnds.{HaveAllSlots};

use flex_io::Slot;

/// With the slots that the hands of a closed fabric hold, those that went back are all slots of each drive, each once.
pub fn drives_have_all_slots<S: Slot>()
    ensures { HaveAllSlots S.place_of }
{}
