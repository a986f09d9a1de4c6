//! Buffers for what a close collects: the seats of all cells, and the closed pools.

ghost use Rattle.std.specs.Prelude.{◌≡◌, ℕ, ◌<◌, length, Some, slice_get, vec_capacity};
ghost use Rattle.fabric.specs.CloseBuffers.{ChangeEach, HasSpare, TakesIn, TakesSeat};

use board::Board;
use flex_io::Slot;
use slot_pool::Pool;
use slot_yard::Yard;
use std::alloc::Global;
use turn_cell::Seat;

/// Buffers for the seats of all cells and for the closed pools, so that a close allocates nothing. They are no part of the
/// fabric: seats and pools are `Send` and not `Sync`, so what holds them is not shared between threads.
#[derive(Drop)]
pub(crate) struct CloseBuffers<S: Slot + Send + Drop> {
    pub(crate) board: Vec<Seat<Board>>,
    pub(crate) yard: Vec<Seat<Yard<S>>>,
    /// Node by node, and within a node drive by drive.
    pub(crate) pools: Vec<Vec<Seat<Pool<S>>>>,
    /// For the closed pools.
    pub(crate) closed: Vec<Pool<S>>,
}

impl<S: Slot + Send + Drop> CloseBuffers<S> {
    /// No buffers. It allocates nothing.
    pub(crate) fn none(alloc: Global) -> CloseBuffers<S> {
        CloseBuffers {
            board: Vec::new(alloc),
            yard: Vec::new(alloc),
            pools: Vec::new(alloc),
            closed: Vec::new(alloc),
        }
    }

    /// Takes in the seats of one more hand.
    pub(crate) fn take_in(
        &mut self,
        board: Seat<Board>,
        yard: Seat<Yard<S>>,
        pools: Vec<Seat<Pool<S>>>,
    )
        requires spare { HasSpare self.old }
        requires many { length pools.items ≡ length self.old.pools.items }
        ensures { TakesIn board yard pools.items self.old self.new }
    {
        self.board.push_reserved(board);
        self.yard.push_reserved(yard);
        take_each(&mut self.pools, pools);
    }
}

/// Puts each seat into the room at its place.
fn take_each<S: Slot + Send + Drop>(
    buffers: &mut Vec<Vec<Seat<Pool<S>>>>,
    mut seats: Vec<Seat<Pool<S>>>,
)
    requires many { length seats.items ≡ length buffers.old.items }
    requires spare { (k : ℕ) (room : _) → slice_get buffers.old.items k ≡ Some room → length room.items < vec_capacity room }
    ensures { ChangeEach TakesSeat seats.items buffers.old.items buffers.new.items }
{
    while let Some(seat) = seats.pop() {
        let place = seats.len();
        buffers[place].push_reserved(seat);
    }
}
