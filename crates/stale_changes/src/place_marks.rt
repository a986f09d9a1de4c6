//! A set of places.

ghost use Rattle.std.specs.Prelude.{◌≡◌, ◌||◌, not, true, false, IfOk, OnOk};
ghost use Rattle.std.specs.List.{AllByRecursion};
ghost use Rattle.domains.specs.Place.{IsPlace, Place, same_place};
ghost use Rattle.stale_changes.specs.PlaceMarks.{AreMarked, AreNew, is_marked, key_of};

use domains::Place;
use std::alloc::{AllocError, Global};
use std::collections::BTreeSet;

/// A set of places. Contracts ask which are in it, by `is_marked`.
#[derive(Drop)]
pub struct PlaceMarks {
    pub keys: BTreeSet<u64>,
}

impl PlaceMarks {
    /// No places. It allocates nothing.
    pub fn new(alloc: Global) -> PlaceMarks
        ensures { (s : Place) → is_marked result.keys s ≡ false }
    {
        PlaceMarks {
            keys: BTreeSet::new(alloc),
        }
    }

    /// Puts the places in, and answers whether each of them is new. It stops at the first that is not.
    pub fn add_all(&mut self, places: &[Place]) -> Result<bool, AllocError>
        requires { AllByRecursion IsPlace places.now }
        ensures added { IfOk result (λ all. all ≡ true → AreMarked places.now self.old.keys self.new.keys) }
        ensures accepts { IfOk result (λ all. AreNew places.now self.old.keys → all ≡ true) }
    {
        let [place, rest @ ..] = places else {
            return Ok(true);
        };
        if !self.add(*place)? {
            return Ok(false);
        }
        self.add_all(rest)
    }

    /// Puts the place in, and tells whether it is new.
    fn add(&mut self, place: Place) -> Result<bool, AllocError>
        requires { IsPlace place }
        ensures new { IfOk result (λ added. added ≡ not (is_marked self.old.keys place)) }
        ensures ok { OnOk result ((s : Place) → IsPlace s → is_marked self.new.keys s ≡ (same_place s place || is_marked self.old.keys s)) }
    {
        self.keys.insert(key_of(place)).map_err(|_| AllocError)
    }

    /// Whether the place is in the set.
    pub fn has(&self, place: Place) -> bool
        ensures { result ≡ is_marked self.now.keys place }
    {
        self.keys.contains(&key_of(place))
    }
}

/// A number for each place.
fn key_of(place: Place) -> u64
    ensures { result ≡ key_of place }
{
    let drive = place.drive();
    (u64::from(drive.node()) * 32 + u64::from(drive.drive())) * 4096 + u64::from(place.slot())
}
