//! The cells of new pools, and their seats, which go to the hands.

ghost use Rattle.std.specs.Prelude.{◌≡◌, ℕ, ◌+◌, ◌<◌, [], length, map, true, Some, slice_get, vec_capacity, OnOk};
ghost use Rattle.domains.specs.Shape.{is_of};
ghost use Rattle.fabric.specs.Cells.{place_in};
ghost use Rattle.fabric.specs.NewFabric.{AreNewPoolsFrom, DealsSeat, IsNewCell, IsNewPool, IsOpening};
ghost use Rattle.fabric.specs.CloseBuffers.{ChangeEach};
ghost use Rattle.turn_cell.specs.Seats.{cell_view};

use crate::cells::Cells;
use crate::hand::Hand;
use domains::DriveId;
use flex_io::Slot;
use slot_pool::Pool;
use std::alloc::Global;
use turn_cell::{Seat, TurnCell};

/// Gives each hand its seat, and hands the room for the seats back.
fn deal_seats<S: Slot + Send + Drop>(
    hands: &mut Vec<Hand<S>>,
    mut seats: Vec<Seat<Pool<S>>>,
) -> Vec<Seat<Pool<S>>>
    requires many { length seats.items ≡ length hands.old.items }
    requires spare { (k : ℕ) (hand : _) → slice_get hands.old.items k ≡ Some hand → length hand.pools.items < vec_capacity hand.pools }
    ensures dealt { ChangeEach DealsSeat seats.items hands.old.items hands.new.items }
    ensures none { result.items ≡ [] }
    ensures room { vec_capacity result ≡ vec_capacity seats }
{
    while let Some(seat) = seats.pop() {
        let number = seats.len();
        hands[number].pools.push_reserved(seat);
    }
    seats
}

/// Adds the cell of the next drive, with a seat for each hand. The first hand has the room for the seats.
fn add_cell<S: Slot + Send + Drop>(
    cells: &mut Cells<S>,
    hands: &mut Vec<Hand<S>>,
    cell: TurnCell<Pool<S>>,
    seats: Vec<Seat<Pool<S>>>,
    drive: DriveId,
)
    requires opening { IsOpening S.place_of cells.old hands.old.items }
    requires of { is_of cells.old.shape drive ≡ true }
    requires next { length cells.old.pools.items ≡ place_in cells.old.shape drive }
    requires cell { IsNewCell S.place_of cells.old.shape (cell_view cells.old.board).seats drive (cell_view cell) seats.items }
    ensures opening { IsOpening S.place_of cells.new hands.new.items }
    ensures more { length cells.new.pools.items ≡ length cells.old.pools.items + 1 }
    ensures same { (cells.new.shape ≡ cells.old.shape) × (cells.new.board ≡ cells.old.board) }
    ensures boards { map (λ hand. hand.board) hands.new.items ≡ map (λ hand. hand.board) hands.old.items }
{
    let room = deal_seats(hands, seats);
    hands[0].buffers.pools.push_reserved(room);
    cells.pools.push_reserved(cell);
}

/// Adds the cell of the next pool, with a seat for each hand. An `Err` hands the pool back.
fn add_pool<S: Slot + Send + Drop>(
    alloc: Global,
    cells: &mut Cells<S>,
    hands: &mut Vec<Hand<S>>,
    pool: Pool<S>,
) -> Result<(), Pool<S>>
    requires opening { IsOpening S.place_of cells.old hands.old.items }
    requires of { is_of cells.old.shape pool.drive ≡ true }
    requires next { length cells.old.pools.items ≡ place_in cells.old.shape pool.drive }
    requires pool { IsNewPool S.place_of cells.old.shape pool.drive pool }
    ensures opening { IsOpening S.place_of cells.new hands.new.items }
    ensures more { OnOk result (length cells.new.pools.items ≡ length cells.old.pools.items + 1) }
    ensures cells { (cells.new.shape ≡ cells.old.shape) × (cells.new.board ≡ cells.old.board) }
    ensures boards { map (λ hand. hand.board) hands.new.items ≡ map (λ hand. hand.board) hands.old.items }
{
    let drive = pool.drive();
    match TurnCell::new(alloc, pool, hands.len() as u8) {
        Ok((cell, seats)) => {
            add_cell(cells, hands, cell, seats, drive);
            Ok(())
        }
        Err((_error, pool)) => Err(pool),
    }
}

/// Adds the cells of all pools, in their order. An `Err` hands back the pools that have no cell.
pub(crate) fn add_pools<S: Slot + Send + Drop>(
    alloc: Global,
    cells: &mut Cells<S>,
    hands: &mut Vec<Hand<S>>,
    mut pools: Vec<Pool<S>>,
) -> Result<(), Vec<Pool<S>>>
    requires opening { IsOpening S.place_of cells.old hands.old.items }
    requires none { length cells.old.pools.items ≡ 0 }
    requires pools { AreNewPoolsFrom S.place_of cells.old.shape 0 pools.items }
    ensures opening { IsOpening S.place_of cells.new hands.new.items }
    ensures all { OnOk result (length cells.new.pools.items ≡ length pools.items) }
    ensures cells { (cells.new.shape ≡ cells.old.shape) × (cells.new.board ≡ cells.old.board) }
    ensures boards { map (λ hand. hand.board) hands.new.items ≡ map (λ hand. hand.board) hands.old.items }
{
    pools.reverse();
    while let Some(pool) = pools.pop() {
        if let Err(pool) = add_pool(alloc, cells, hands, pool) {
            pools.push_reserved(pool);
            return Err(pools);
        }
    }
    Ok(())
}
