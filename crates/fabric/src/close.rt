//! The end of a fabric.

ghost use Rattle.std.specs.Prelude.{◌≡◌, ℕ, ◌≤◌, [], length, map, Some, slice_get, vec_capacity};
ghost use Rattle.fabric.specs.Cells.{AreCells, cells_view};
ghost use Rattle.fabric.specs.ClosedFabric.{AreHandsOf, AreIn, ArePoolsOf, AreYardOf, CanGather, ClosesBoard, ClosesPool, IsAccounted, IsClosedAt, IsExact};
ghost use Rattle.fabric.specs.Views.{fabric_view};
ghost use Rattle.slot_pool.specs.Pools.{IsPool, PoolView};
ghost use Rattle.turn_cell.specs.Seats.{AreSeatsOf, cell_view};

use crate::cells::Cells;
use crate::close_buffers::CloseBuffers;
use crate::fabric::Fabric;
use crate::hand::Hand;
use board::Board;
use flex_io::Slot;
use held_slots::Held;
use lists::List;
use slot_pool::Pool;
use slot_yard::YardParts;
use turn_cell::{Seat, TurnCell};

/// What a fabric held. Slots in its lists are spent or put back.
pub struct Parts<S: Slot + Send + Drop> {
    pub board: Board,
    /// The slots that wait for their drives, in the order of arrival.
    pub yard: List<Held<S>>,
    /// The retired slots, in the order of arrival.
    pub retired: List<Held<S>>,
    /// Node by node, and within a node drive by drive.
    pub pools: List<Pool<S>>,
}

impl<S: Slot + Send + Drop> Fabric<S> {
    /// Ends the fabric, with all its hands. It waits for nobody and takes no memory.
    pub fn close(self, hands: List<Hand<S>>) -> Parts<S>
        requires hands { AreHandsOf (fabric_view self) hands }
        ensures board { ClosesBoard (map (λ hand. hand.board) hands) result.board }
        ensures yard { AreYardOf S.place_of (fabric_view self).shape hands result.yard result.retired }
        ensures pools { ArePoolsOf S.place_of (fabric_view self).shape hands result.pools }
        ensures account { IsAccounted S.place_of (fabric_view self).shape hands result.pools result.yard result.retired }
        ensures exact { IsExact S.place_of (fabric_view self).shape hands result.pools result.yard result.retired }
    {
        let Fabric { cells } = self;
        cells.close(hands.into_vec())
    }
}

impl<S: Slot + Send + Drop> Cells<S> {
    /// Closes each cell, with the seats of all hands.
    pub(crate) fn close(self, hands: Vec<Hand<S>>) -> Parts<S>
        requires cells { AreCells (cells_view self) }
        requires hands { AreHandsOf (cells_view self) hands.items }
        ensures board { ClosesBoard (map (λ hand. hand.board) hands.items) result.board }
        ensures yard { AreYardOf S.place_of self.shape hands.items result.yard result.retired }
        ensures many { length result.pools ≡ length self.pools.items }
        ensures pools { (k : ℕ) (pool : PoolView S) → slice_get result.pools k ≡ Some pool → IsClosedAt S.place_of k hands.items pool }
    {
        let Cells {
            shape: _,
            board,
            yard,
            pools,
        } = self;
        let buffers = gather(hands);
        let pools = close_pools(pools, buffers.pools, buffers.closed);
        let YardParts { yard, retired } = yard.close(buffers.yard).close();
        Parts {
            board: board.close(buffers.board),
            yard,
            retired,
            pools: List::from_vec(pools),
        }
    }
}

/// The seats of all hands, each cell's in the order of the hands, in the first hand's room for them.
fn gather<S: Slot + Send + Drop>(mut hands: Vec<Hand<S>>) -> CloseBuffers<S>
    requires { CanGather hands.items }
    ensures { AreIn hands.items result }
{
    let Hand {
        board,
        yard,
        pools,
        mut buffers,
    } = hands.remove(0);
    buffers.take_in(board, yard, pools);
    for hand in hands {
        let Hand {
            board,
            yard,
            pools,
            buffers: _,
        } = hand;
        buffers.take_in(board, yard, pools);
    }
    buffers
}

/// The pool of a cell.
fn close_pool<S: Slot + Send + Drop>(cell: TurnCell<Pool<S>>, seats: Vec<Seat<Pool<S>>>) -> Pool<S>
    requires { AreSeatsOf (cell_view cell) seats.items }
    ensures closes { ClosesPool seats.items result }
    ensures pool { IsPool S.place_of result }
{
    let pool = cell.close(seats);
    let _free = pool.free_count();
    pool
}

/// The pools of the cells, in their order.
fn close_pools<S: Slot + Send + Drop>(
    cells: Vec<TurnCell<Pool<S>>>,
    buffers: Vec<Vec<Seat<Pool<S>>>>,
    mut closed: Vec<Pool<S>>,
) -> Vec<Pool<S>>
    requires many { length buffers.items ≡ length cells.items }
    requires seats { (k : ℕ) (cell : _) (room : _) → slice_get cells.items k ≡ Some cell → slice_get buffers.items k ≡ Some room
        → AreSeatsOf (cell_view cell) room.items }
    requires none { closed.items ≡ [] }
    requires room { length cells.items ≤ vec_capacity closed }
    ensures many { length result.items ≡ length cells.items }
    ensures closes { (k : ℕ) (room : _) (pool : PoolView S) → slice_get buffers.items k ≡ Some room → slice_get result.items k ≡ Some pool
        → ClosesPool room.items pool × IsPool S.place_of pool }
{
    let mut buffers = buffers.into_iter();
    for cell in cells {
        let Some(seats) = buffers.next() else {
            unreachable!()
        };
        closed.push_reserved(close_pool(cell, seats));
    }
    closed
}
