//! The end of a fabric, whose slots go back to the rack.

ghost use Rattle.std.specs.Prelude.{map};
ghost use Rattle.fabric.specs.ClosedFabric.{AreHandsOf, ClosesBoard};
ghost use Rattle.fabric.specs.Views.{fabric_view};
ghost use Rattle.returned_slots.specs.FabricEnds.{EndsFabric};
ghost use Rattle.returned_slots.specs.RackStates.{rack_state};

use crate::slots::{put_held, put_pools};
use board::Board;
use fabric::{Fabric, Hand, Parts};
use flex_io::{Fault, Rack, Slot};
use lists::List;

/// Ends a fabric with all its hands, and puts back the slots that it has: those that wait, those that are retired, and the free
/// ones in drive order, each drive's from the bottom of its stack. It waits for nobody.
pub fn close_fabric<S: Slot + Send + Drop, R: Rack<Piece = S>>(
    fabric: Fabric<S>,
    hands: List<Hand<S>>,
    rack: &mut R,
) -> (Board, Result<(), Fault>)
    requires hands { AreHandsOf (fabric_view fabric) hands }
    ensures board { ClosesBoard (map (λ hand. hand.board) hands) result.0 }
    ensures ends { EndsFabric S.place_of S.content (fabric_view fabric).shape hands result.1
        (rack_state R.back R.takes R.puts R.faults rack.old) (rack_state R.back R.takes R.puts R.faults rack.new) }
{
    let Parts {
        board,
        yard,
        retired,
        pools,
    } = fabric.close(hands);
    let waited = put_held(rack, yard);
    let stopped = put_held(rack, retired);
    let free = put_pools(rack, pools);
    (board, waited.and(stopped).and(free))
}
