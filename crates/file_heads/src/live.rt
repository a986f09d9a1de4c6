//! Which units count at a moment.

ghost use Rattle.std.specs.Prelude.{◌≡◌, ◌≤◌, ◌+◌, ◌-◌, ◌++◌, ◌&&◌, nat_lt, if◌then◌else◌, length, IfOk, OnOk};
ghost use Rattle.file_heads.specs.Parts.{count_live, first_live, live_at};

use crate::head::Head;
use board::View;
use domains::{Group, Place, Shape};
use std::alloc::{AllocError, Global};

/// What a call sees of the cluster: its shape, and which drives are up.
#[derive(Clone, Copy)]
pub struct Sight {
    pub shape: Shape,
    pub view: View,
}

impl Head {
    /// Whether the unit counts: its drive is up, and no entry says that it is dead.
    fn is_live(&self, sight: &Sight, generation: u32, position: u8, place: Place) -> bool
        ensures { result ≡ live_at sight.now.shape sight.now.view self.now.dead.items generation position place }
    {
        sight.shape.has(place.drive())
            && sight.view.up.has(place.drive())
            && !self.dead.has(generation, position)
    }

    /// Which units of the group a pull reads: the first that are live, as many as the group has data units.
    pub fn read_flags(
        &self,
        alloc: Global,
        sight: &Sight,
        group: &Group,
    ) -> Result<Vec<bool>, AllocError>
        requires { length group.now.places ≤ 255 }
        ensures { IfOk result (λ flags. flags.items ≡ first_live group.now.places group.now.n 0 (live_at sight.now.shape sight.now.view self.now.dead.items group.now.generation)) }
    {
        let mut flags = Vec::new(alloc);
        self.push_flags(
            sight,
            group.generation,
            group.places.as_slice(),
            group.n,
            0,
            &mut flags,
        )?;
        Ok(flags)
    }

    /// Adds for each of these places, the first of which has this position, whether it is one of the first `need` live ones.
    fn push_flags(
        &self,
        sight: &Sight,
        generation: u32,
        places: &[Place],
        need: u8,
        position: u8,
        flags: &mut Vec<bool>,
    ) -> Result<(), AllocError>
        requires { position + length places.now ≤ 255 }
        ensures { OnOk result (flags.new.items ≡ flags.old.items ++ first_live places.now need position (live_at sight.now.shape sight.now.view self.now.dead.items generation)) }
    {
        let [place, rest @ ..] = places else {
            return Ok(());
        };
        let live = self.is_live(sight, generation, position, *place);
        let (read, left) = pick(need, live);
        flags.push(read)?;
        self.push_flags(sight, generation, rest, left, position + 1, flags)
    }

    /// How many units of the group count.
    pub(crate) fn live_units(&self, sight: &Sight, group: &Group) -> u8
        requires { length group.now.places ≤ 255 }
        ensures { result ≡ count_live group.now.places 0 (live_at sight.now.shape sight.now.view self.now.dead.items group.now.generation) }
    {
        self.live_from(sight, group.generation, group.places.as_slice(), 0)
    }

    /// How many units at these places count, the first of which has this position.
    fn live_from(&self, sight: &Sight, generation: u32, places: &[Place], position: u8) -> u8
        requires { position + length places.now ≤ 255 }
        ensures value { result ≡ count_live places.now position (live_at sight.now.shape sight.now.view self.now.dead.items generation) }
        ensures most { result ≤ length places.now }
    {
        let [place, rest @ ..] = places else {
            return 0;
        };
        let live = self.is_live(sight, generation, position, *place);
        u8::from(live) + self.live_from(sight, generation, rest, position + 1)
    }
}

/// Whether a unit is read where `need` are still wanted, and how many are wanted then.
fn pick(need: u8, live: bool) -> (bool, u8)
    ensures read { result.0 ≡ (nat_lt 0 need && live) }
    ensures left { result.1 ≡ (if result.0 then need - 1 else need) }
{
    if need > 0 && live {
        return (true, need - 1);
    }
    (false, need)
}
