//! A rack in memory that never fails.

ghost use Rattle.std.specs.Prelude.{◌≡◌, Some};
ghost use Rattle.std.proofs.Common.{refl};
ghost use Rattle.flex_io.specs.Racks.{new_rack};

use crate::{Fault, Rack, RawPlace, Returned, Slot, SurePiece};
use lists::List;
use std::alloc::Global;
use std::marker::Model;

/// A rack in memory, which never fails. Contracts see what came back, and how many slots were taken and put back.
#[derive(Drop)]
pub struct SureRack {
    alloc: Global,
    back: List<Returned>,
    takes: u64,
    puts: u64,
}

impl Model for SureRack {
    ghost use Rattle.flex_io.specs.Racks.{RackView};

    ghost Value = { RackView };

    ghost view = { λ r. record { back = r.back; takes = r.takes; puts = r.puts } };
}

impl SureRack {
    /// A rack to which nothing came back.
    pub fn new(alloc: Global) -> Self
        ensures { result ≡ new_rack }
    {
        SureRack {
            alloc,
            back: List::new(alloc),
            takes: 0,
            puts: 0,
        }
    }

    /// What came back, in order.
    pub fn back(&self) -> &[Returned]
        ensures { result.now ≡ self.now.back }
    {
        self.back.as_slice()
    }
}

impl Rack for SureRack {
    type Piece = SurePiece;

    ghost back = { λ r. Some r.back };

    ghost takes = { λ r. r.takes };

    ghost puts = { λ r. r.puts };

    ghost faults = { λ _. 0 };

    fn take(&mut self, drive: (u8, u8), slot: u16) -> Result<SurePiece, Fault> {
        let place = RawPlace {
            node: drive.0,
            drive: drive.1,
            slot,
        };
        self.takes = self.takes.wrapping_add(1);
        Ok(SurePiece::new(self.alloc, place))
    }

    fn put(&mut self, piece: SurePiece) -> Result<(), Fault> {
        let place = piece.place();
        let bytes = List::from_vec(piece.into_bytes());
        self.back
            .push(Returned { place, bytes })
            .map_err(|_| Fault::NoMemory)?;
        self.puts = self.puts.wrapping_add(1);
        Ok(())
    }

    ghost tells = { λ _ _ _. refl };
}
