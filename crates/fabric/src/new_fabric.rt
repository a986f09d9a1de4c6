//! A fabric and its hands, before the first pool is open.

ghost use Rattle.std.specs.Prelude.{◌≡◌, ℕ, ◌≤◌, ◌*◌, [], length, map, Some, slice_get, vec_capacity, IfOk};
ghost use Rattle.fabric.specs.NewFabric.{IsNewBoard, IsOpening};
ghost use Rattle.fabric.specs.CloseBuffers.{AreEmptied};
ghost use Rattle.slot_yard.specs.Queues.{by_drive};
ghost use Rattle.slot_yard.specs.Yards.{IsNewYard, YardView};
ghost use Rattle.turn_cell.specs.Seats.{AreNewSeats, cell_view, seat_view};

use crate::cells::Cells;
use crate::close_buffers::CloseBuffers;
use crate::hand::Hand;
use board::Board;
use domains::Shape;
use flex_io::Slot;
use slot_pool::Pool;
use slot_yard::{Yard, YardParts};
use std::alloc::{AllocError, Global};
use turn_cell::{Seat, TurnCell};

/// Ends a yard that holds no slot.
fn end_empty<S: Slot + Send + Drop>(yard: Yard<S>)
    requires waiting { by_drive yard.waiting ≡ [] }
    requires retired { yard.retired ≡ [] }
{
    let YardParts { yard, retired } = yard.close();
    yard.into_vec().destroy_empty();
    retired.into_vec().destroy_empty();
}

/// A cell with a new yard, and its seats.
fn yard_cell<S: Slot + Send + Drop>(
    alloc: Global,
    shape: Shape,
    seats: u8,
) -> Result<(TurnCell<Yard<S>>, Vec<Seat<Yard<S>>>), AllocError>
    requires some { 1 ≤ seats }
    requires few { seats ≤ 32 }
    ensures count { IfOk result (λ made. (cell_view made.0).seats ≡ seats) }
    ensures seats { IfOk result (λ made. (state : YardView S) × IsNewYard shape state × AreNewSeats (cell_view made.0) state made.1.items) }
{
    let yard = Yard::new(alloc, shape)?;
    match TurnCell::new(alloc, yard, seats) {
        Ok(made) => Ok(made),
        Err((error, yard)) => {
            end_empty(yard);
            Err(error)
        }
    }
}

/// For each hand a vector with room for `each` seats.
fn seat_buffers<S: Slot + Send + Drop>(
    alloc: Global,
    hands: u8,
    each: usize,
) -> Result<Vec<Vec<Seat<Pool<S>>>>, AllocError>
    ensures many { IfOk result (λ buffers. length buffers.items ≡ hands) }
    ensures each { IfOk result (λ buffers. (k : ℕ) (room : _) → slice_get buffers.items k ≡ Some room → (room.items ≡ []) × (each ≤ vec_capacity room)) }
{
    let mut buffers = Vec::with_capacity(alloc, usize::from(hands))?;
    for _hand in 0..hands {
        buffers.push_reserved(Vec::with_capacity(alloc, each)?);
    }
    Ok(buffers)
}

/// Hands in the order of their seats, with these seats at the board and at the yard. The first carries the buffers.
fn make_hands<S: Slot + Send + Drop>(
    alloc: Global,
    mut buffers: CloseBuffers<S>,
    mut pools: Vec<Vec<Seat<Pool<S>>>>,
    mut hands: Vec<Hand<S>>,
) -> Vec<Hand<S>>
    requires some { 1 ≤ length buffers.board.items }
    requires yard { length buffers.yard.items ≡ length buffers.board.items }
    requires pools { length pools.items ≡ length buffers.board.items }
    requires hands { (hands.items ≡ []) × (length buffers.board.items ≤ vec_capacity hands) }
    ensures boards { map (λ hand. hand.board) result.items ≡ buffers.board.items }
    ensures yards { map (λ hand. hand.yard) result.items ≡ buffers.yard.items }
    ensures pools { map (λ hand. hand.pools) result.items ≡ pools.items }
    ensures buffers { (hand : _) → slice_get result.items 0 ≡ Some hand → AreEmptied buffers hand.buffers }
{
    while let Some(board) = buffers.board.pop() {
        let Some(yard) = buffers.yard.pop() else {
            unreachable!()
        };
        let Some(pools) = pools.pop() else {
            unreachable!()
        };
        hands.push_reserved(Hand {
            board,
            yard,
            pools,
            buffers: CloseBuffers::none(alloc),
        });
    }
    hands.reverse();
    hands[0].buffers = buffers;
    hands
}

/// The cells of a fabric and its hands, before the first pool is open. The log of the board has at most `room` entries.
pub(crate) fn new_cells<S: Slot + Send + Drop>(
    alloc: Global,
    shape: Shape,
    hands: u8,
    room: u32,
) -> Result<(Cells<S>, Vec<Hand<S>>), AllocError>
    requires some { 1 ≤ hands }
    requires few { hands ≤ 32 }
    ensures opening { IfOk result (λ made. IsOpening S.place_of made.0 made.1.items) }
    ensures none { IfOk result (λ made. length made.0.pools.items ≡ 0) }
    ensures shape { IfOk result (λ made. made.0.shape ≡ shape) }
    ensures count { IfOk result (λ made. (cell_view made.0.board).seats ≡ hands) }
    ensures boards { IfOk result (λ made. (k : ℕ) (hand : _) → slice_get made.1.items k ≡ Some hand → IsNewBoard shape room (seat_view hand.board).last) }
{
    let most = usize::from(shape.nodes()) * usize::from(shape.drives());
    let closed = Vec::with_capacity(alloc, most)?;
    let cells = Vec::with_capacity(alloc, most)?;
    let pools = Vec::with_capacity(alloc, most)?;
    let seats = seat_buffers(alloc, hands, most)?;
    let all = Vec::with_capacity(alloc, usize::from(hands))?;
    let board = Board::new(alloc, shape, room)?;
    let Ok((board, at_board)) = TurnCell::new(alloc, board, hands) else {
        return Err(AllocError);
    };
    let (yard, at_yard) = yard_cell(alloc, shape, hands)?;
    let buffers = CloseBuffers {
        board: at_board,
        yard: at_yard,
        pools,
        closed,
    };
    let cells = Cells {
        shape,
        board,
        yard,
        pools: cells,
    };
    Ok((cells, make_hands(alloc, buffers, seats, all)))
}
