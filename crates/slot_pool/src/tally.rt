//! What a pool counts for one seat.

ghost use Rattle.std.specs.Prelude.{◌≡◌};
ghost use Rattle.slot_pool.specs.Tallies.{took, gave, found_none};

/// How many slots a seat took from a pool and gave to it, and how often it found none free.
#[derive(Clone, Copy, Debug, PartialEq, Eq)]
pub struct Tally {
    /// The number of slots that it took, modulo 2^64.
    pub taken: u64,
    /// The number of slots that it gave, modulo 2^64.
    pub given: u64,
    /// How often it found no slot free. It stops at 2^64 - 1.
    pub empties: u64,
    /// The number of slots that it took. It stops at 2^64 - 1.
    pub drawn: u64,
}

impl Tally {
    /// The tally of a seat before its first turn.
    pub(crate) const NONE: Tally = Tally {
        taken: 0,
        given: 0,
        empties: 0,
        drawn: 0,
    };

    pub(crate) fn took(self, slots: u64) -> Tally
        ensures { result ≡ took slots self }
    {
        Tally {
            taken: self.taken.wrapping_add(slots),
            drawn: self.drawn.saturating_add(slots),
            ..self
        }
    }

    pub(crate) fn gave(self) -> Tally
        ensures { result ≡ gave self }
    {
        Tally {
            given: self.given.wrapping_add(1),
            ..self
        }
    }

    pub(crate) fn found_none(self) -> Tally
        ensures { result ≡ found_none self }
    {
        Tally {
            empties: self.empties.saturating_add(1),
            ..self
        }
    }
}
