//! Units of one length, in one buffer.

ghost use Rattle.std.specs.Prelude.{◌≡◌, ◌<◌, ◌*◌, [], ◌∷◌, ◌++◌, length, OnOk, OnErr};
ghost use Rattle.galois.specs.Codeword.{unit_at};
ghost use Rattle.rs_codes.specs.Units.{units_in};

use std::alloc::{AllocError, Global};
use std::marker::Model;

/// Byte lists of one length, at most 255 of them. Contracts see that length and the list of the units.
#[derive(Drop)]
pub struct Units {
    bytes: Vec<u8>,
    unit_length: u32,
    count: u8,
}

impl Model for Units {
    ghost use Rattle.std.specs.Prelude.{◌≡◌, ◌*◌, length};
    ghost use Rattle.rs_codes.specs.Units.{UnitList, units_in};

    ghost Value = { UnitList };

    ghost view = { λ u. record { unit_length = u.unit_length; units = units_in u.count u.unit_length u.bytes.items } };

    ghost invariant = { λ u. length u.bytes.items ≡ u.count * u.unit_length };
}

impl Units {
    /// An empty list of units of `len` bytes.
    pub fn new(alloc: Global, len: u32) -> Self
        ensures { result ≡ record { unit_length = len; units = [] } }
    {
        Units {
            bytes: Vec::new(alloc),
            unit_length: len,
            count: 0,
        }
    }

    /// The `count` units that follow one another in a buffer, which is not copied.
    pub fn from_bytes(bytes: Vec<u8>, unit_length: u32, count: u8) -> Self
        requires whole { length bytes.items ≡ count * unit_length }
        ensures { result ≡ record { unit_length = unit_length; units = units_in count unit_length bytes.items } }
    {
        Units {
            bytes,
            unit_length,
            count,
        }
    }

    /// Appends a unit.
    pub fn push(&mut self, bytes: &[u8]) -> Result<(), AllocError>
        requires unit { length bytes.now ≡ self.old.unit_length }
        requires room { length self.old.units < 255 }
        ensures ok { OnOk result (self.new ≡ record { unit_length = self.old.unit_length; units = self.old.units ++ bytes.now ∷ [] }) }
        ensures kept { OnErr result (self.new ≡ self.old) }
    {
        self.bytes.extend_from_slice(bytes)?;
        self.count += 1;
        Ok(())
    }

    /// The bytes of unit `i`, counted from 0.
    pub fn unit(&self, i: u8) -> &[u8]
        requires { i < length self.now.units }
        ensures unit { result.now ≡ unit_at self.now.units i }
        ensures length { length result.now ≡ self.now.unit_length }
    {
        let start = usize::from(i) * self.unit_length as usize;
        &self.bytes[start..start + self.unit_length as usize]
    }

    /// The bytes of all units, one unit after another.
    pub fn bytes(&self) -> &[u8]
        ensures units { units_in (length self.now.units) self.now.unit_length result.now ≡ self.now.units }
        ensures length { length result.now ≡ length self.now.units * self.now.unit_length }
    {
        &self.bytes
    }

    /// The number of units.
    pub fn count(&self) -> u8
        ensures { result ≡ length self.now.units }
    {
        self.count
    }

    /// The length of each unit in bytes.
    pub fn unit_length(&self) -> u32
        ensures { result ≡ self.now.unit_length }
    {
        self.unit_length
    }
}
