//! What a seat did with the slots of one drive.

ghost use Rattle.std.specs.Prelude.{◌≡◌};
ghost use Rattle.slot_yard.specs.Tallies.{count_all, count_one};

/// What a seat does with a slot.
#[derive(Clone, Copy, Debug, PartialEq, Eq)]
pub enum Move {
    /// It puts the slot into the yard.
    Put,
    /// It takes the slot from the yard.
    Take,
    /// It retires the slot.
    Retire,
}

/// How many slots of a drive a seat put into the yard, took from it and retired, each modulo 2^64.
#[derive(Clone, Copy, Debug, PartialEq, Eq)]
pub struct Counts {
    pub put: u64,
    pub taken: u64,
    pub retired: u64,
}

impl Counts {
    /// The counts of a seat before its first turn.
    pub(crate) const NONE: Counts = Counts {
        put: 0,
        taken: 0,
        retired: 0,
    };

    pub(crate) fn count(self, what: Move) -> Counts
        ensures { result ≡ count_one what self }
    {
        match what {
            Move::Put => Counts {
                put: self.put.wrapping_add(1),
                ..self
            },
            Move::Take => Counts {
                taken: self.taken.wrapping_add(1),
                ..self
            },
            Move::Retire => Counts {
                retired: self.retired.wrapping_add(1),
                ..self
            },
        }
    }

    pub(crate) fn count_all(self, taken: u64, retired: u64) -> Counts
        ensures { result ≡ count_all taken retired self }
    {
        Counts {
            taken: self.taken.wrapping_add(taken),
            retired: self.retired.wrapping_add(retired),
            ..self
        }
    }
}
