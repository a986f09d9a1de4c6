//! The tally of one seat.

ghost use Rattle.std.specs.Prelude.{◌≡◌, ◌<◌, ◌*◌, length, replicate, IfOk};
ghost use Rattle.slot_yard.specs.Tallies.{count_all, count_one, no_counts, rank_of, with_counts};

use crate::counts::{Counts, Move};
use crate::rank::{rank, ranks};
use domains::DriveId;
use std::alloc::{AllocError, Global};
use std::marker::Model;

/// What a seat did with the slots of each drive. Contracts see the counts in the order of the drives' ranks.
#[derive(Drop)]
pub(crate) struct Tally {
    of_drives: Vec<Counts>,
}

impl Model for Tally {
    ghost use Rattle.std.specs.Prelude.{List};
    ghost use Rattle.slot_yard.specs.declared.counts.Counts.{Counts};

    ghost Value = { List Counts };

    ghost view = { λ t. t.of_drives.items };
}

impl Tally {
    /// The tally of a seat before its first turn, for the drives of `nodes` nodes.
    pub(crate) fn new(alloc: Global, nodes: u8) -> Result<Tally, AllocError>
        ensures { IfOk result (λ tally. tally ≡ replicate (nodes * 16) no_counts) }
    {
        let of_drives = vec![in alloc; Counts::NONE; ranks(nodes)]?;
        Ok(Tally { of_drives })
    }

    pub(crate) fn count(&mut self, drive: DriveId, what: Move)
        requires within { rank_of drive < length self.old }
        ensures { self.new ≡ with_counts drive (count_one what) self.old }
    {
        let rank = rank(drive);
        self.of_drives[rank] = self.of_drives[rank].count(what);
    }

    pub(crate) fn count_all(&mut self, drive: DriveId, taken: u64, retired: u64)
        requires within { rank_of drive < length self.old }
        ensures { self.new ≡ with_counts drive (count_all taken retired) self.old }
    {
        let rank = rank(drive);
        self.of_drives[rank] = self.of_drives[rank].count_all(taken, retired);
    }
}
