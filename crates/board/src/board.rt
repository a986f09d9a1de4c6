//! The board: the log of orders to drives, and the states that it leaves.

ghost use Rattle.std.specs.Prelude.{◌≡◌, ℕ, ◌+◌, ◌<◌, ◌≤◌, ◌↔◌, [], IsErrOf, IfOk, IsOk, OnOk, length, take};
ghost use Rattle.board_history.specs.Board.{IsLegalBoardLog, state_after};
ghost use Rattle.board.specs.History.{entries_of, log_of};

use crate::drive_states::DriveStates;
use crate::entry_stamp::EntryStamp;
use crate::transitions::after_order;
use board_history::{BoardEntry, State};
use domains::{DriveId, DriveSet, Shape};
use lists::List;
use std::alloc::{AllocError, Global};
use std::marker::Model;
use thiserror::Error;

/// Why `reserve` made no room.
#[derive(Clone, Copy, Debug, PartialEq, Eq, Error)]
pub enum Grow {
    #[error("the log is full")]
    LogFull,
    #[error("out of memory")]
    NoMemory,
}

/// The states of a cluster's drives, and the log of the orders that made them so. Contracts see the log.
#[derive(Drop)]
pub struct Board {
    pub(crate) shape: Shape,
    pub(crate) room: u32,
    pub(crate) turns: u64,
    pub(crate) seat: u8,
    pub(crate) entries: Vec<BoardEntry>,
    pub(crate) stamps: Vec<EntryStamp>,
    pub(crate) states: DriveStates,
}

impl Model for Board {
    ghost use Rattle.std.specs.Prelude.{◌-◌, min, vec_len, vec_capacity};
    ghost use Rattle.board.specs.History.{History, stamped};
    ghost use Rattle.board.specs.BoardInvariant.{BoardInvariant};

    ghost Value = { History };

    ghost view = { λ b. record {
      shape = b.shape;
      room = b.room;
      turns = b.turns;
      seat = b.seat;
      notes = stamped b.stamps.items b.entries.items;
      spare = min (min (vec_capacity b.entries) (vec_capacity b.stamps)) b.room - vec_len b.entries;
    } };

    ghost invariant = { λ b. BoardInvariant b.shape b.room b.entries.items b.stamps.items b.states };
}

impl Board {
    /// The board of a cluster whose drives are all up, with a log of at most `room` entries.
    pub fn new(alloc: Global, shape: Shape, room: u32) -> Result<Board, AllocError>
        ensures ok { IfOk result (λ board. board ≡ record { shape = shape; room = room; turns = 0; seat = 0; notes = []; spare = board.spare }) }
    {
        Ok(Board {
            shape,
            room,
            turns: 0,
            seat: 0,
            entries: Vec::new(alloc),
            stamps: Vec::new(alloc),
            states: DriveStates {
                up: DriveSet::all(shape),
                gone: DriveSet::new(),
            },
        })
    }

    /// Makes room for `entries` more entries.
    pub fn reserve(&mut self, entries: u32) -> Result<(), Grow>
        ensures ok { OnOk result (entries ≤ self.new.spare) }
        ensures log_full { IsErrOf result Grow.LogFull ↔ (self.old.room < length self.old.notes + entries) }
        ensures same { self.new ≡ record self.old { spare = self.new.spare } }
        ensures more { self.old.spare ≤ self.new.spare }
    {
        let more = entries as usize;
        if self.room as usize - self.entries.len() < more {
            return Err(Grow::LogFull);
        }
        if self.entries.reserve(more).is_err() || self.stamps.reserve(more).is_err() {
            return Err(Grow::NoMemory);
        }
        Ok(())
    }

    /// The state of the drive after the first `epoch` entries.
    pub fn state_at(&self, epoch: u32, drive: DriveId) -> State
        requires { epoch ≤ length self.now.notes }
        ensures { result ≡ state_after (take epoch (log_of self.now)) drive }
    {
        state_after(&self.entries[..epoch as usize], drive)
    }

    /// The log, each of whose entries is legal.
    pub fn close(self) -> List<BoardEntry>
        ensures log { result ≡ log_of self }
        ensures legal { IsLegalBoardLog self.shape result }
    {
        let Board { entries, .. } = self;
        List::from_vec(entries)
    }
}

/// The state of the drive after these entries.
fn state_after(entries: &[BoardEntry], drive: DriveId) -> State
    ensures { result ≡ state_after entries.now drive }
{
    let mut state = State::Up;
    for entry in entries {
        state = after_order(entry.order, drive, state);
    }
    state
}
