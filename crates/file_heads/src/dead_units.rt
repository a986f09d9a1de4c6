//! Which units of a file are dead.

ghost use Rattle.std.specs.Prelude.{◌≡◌, ◌+◌, ◌≤◌, ◌||◌, ℕ, [], OnOk, OnErr};
ghost use Rattle.std.specs.List.Sorted.{IsNonDecreasingBy};
ghost use Rattle.file_heads.specs.DeadUnits.{StartsAt, generation_of, is_unit, names};

use std::alloc::{AllocError, Global};
use std::marker::Model;

/// A unit that an entry says is dead.
#[derive(Clone, Copy, Drop)]
struct DeadUnit {
    generation: u32,
    position: u8,
}

impl Model for DeadUnit {
    ghost use Rattle.file_history.specs.Layout.{Unit_};

    ghost Value = { Unit_ };

    ghost view = { λ d. record { generation = d.generation; position = d.position } };

    ghost inverse = { λ d. record { generation = d.generation; position = d.position } };
}

/// Dead units, in the order of their generations. Contracts see a `DeadList`.
#[derive(Drop)]
pub struct DeadUnits {
    units: Vec<DeadUnit>,
}

impl Model for DeadUnits {
    ghost use Rattle.std.specs.List.Sorted.{IsNonDecreasingBy};
    ghost use Rattle.file_heads.specs.DeadUnits.{DeadList, generation_of};

    ghost Value = { DeadList };

    ghost view = { λ d. record { items = d.units.items } };

    ghost invariant = { λ d. IsNonDecreasingBy generation_of d.units.items };
}

impl DeadUnits {
    /// No units. It allocates nothing.
    pub fn new(alloc: Global) -> DeadUnits
        ensures { result.items ≡ [] }
    {
        DeadUnits {
            units: Vec::new(alloc),
        }
    }

    /// Adds a unit.
    pub fn add(&mut self, generation: u32, position: u8) -> Result<(), AllocError>
        ensures ok { OnOk result ((g p : ℕ) → names self.new.items g p ≡ (is_unit g p (record { generation = generation; position = position }) || names self.old.items g p)) }
        ensures kept { OnErr result (self.new ≡ self.old) }
    {
        let at = end_of(&self.units, generation);
        let unit = DeadUnit {
            generation,
            position,
        };
        self.units.insert(at, unit)?;
        Ok(())
    }

    /// Whether the unit is one of them, in time logarithmic in their number.
    pub fn has(&self, generation: u32, position: u8) -> bool
        ensures { result ≡ names self.now.items generation position }
    {
        let (start, end) = range_of(&self.units, generation);
        names(&self.units[start..end], generation, position)
    }
}

/// Where the units of this generation start, and where those of later ones do.
fn range_of(units: &[DeadUnit], generation: u32) -> (usize, usize)
    requires { IsNonDecreasingBy generation_of units.now }
    ensures start { StartsAt units.now generation result.0 }
    ensures end { StartsAt units.now (generation + 1) result.1 }
    ensures ordered { result.0 ≤ result.1 }
{
    (start_of(units, generation), end_of(units, generation))
}

/// Where the units of this generation start.
fn start_of(units: &[DeadUnit], generation: u32) -> usize
    requires { IsNonDecreasingBy generation_of units.now }
    ensures { StartsAt units.now generation result }
{
    units.partition_point(|unit| unit.generation < generation)
}

/// Where the units of later generations start.
fn end_of(units: &[DeadUnit], generation: u32) -> usize
    requires { IsNonDecreasingBy generation_of units.now }
    ensures { StartsAt units.now (generation + 1) result }
{
    units.partition_point(|unit| unit.generation <= generation)
}

/// Whether one of the units is this one.
fn names(units: &[DeadUnit], generation: u32, position: u8) -> bool
    ensures { result ≡ names units.now generation position }
{
    units.iter().any(|unit| unit.generation == generation && unit.position == position)
}
