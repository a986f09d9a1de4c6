//! A slot of a drive.

ghost use Rattle.std.specs.Prelude.{◌≡◌, ◌<◌};

use crate::drive::DriveId;
use std::marker::Model;

/// A slot by its drive and its number within the drive, from 0 to 4,095.
#[derive(Clone, Copy, Debug, PartialEq, Eq, PartialOrd, Ord)]
pub struct Place {
    drive: DriveId,
    slot: u16,
}

impl Model for Place {
    ghost use Rattle.std.specs.Prelude.{◌<◌};
    ghost use Rattle.domains.specs.Place.{Place};

    ghost Value = { Place };

    ghost view = { λ p. record { drive = p.drive; slot = p.slot } };

    ghost invariant = { λ p. p.slot < 4096 };

    ghost inverse = { λ p. record { drive = p.drive; slot = p.slot } };
}

impl Place {
    pub fn new(drive: DriveId, slot: u16) -> Place
        requires { slot < 4096 }
        ensures { result ≡ record { drive = drive; slot = slot } }
    {
        Place { drive, slot }
    }

    pub fn drive(self) -> DriveId
        ensures { result ≡ self.drive }
    {
        self.drive
    }

    /// Its number within the drive, from 0.
    pub fn slot(self) -> u16
        ensures value { result ≡ self.slot }
        ensures within { result < 4096 }
    {
        self.slot
    }
}
