// `slot` has a file of its own: its clause names the row of `Held`, which the file that declares `Held` cannot import.
ghost use Rattle.std.specs.Prelude.{◌≡◌};
ghost use Rattle.std.specs.Borrow.{Lends, sem};
ghost use Rattle.held_slots.specs.contracts.held.Held.{the_row};

use crate::held::Held;

impl<S> Held<S> {
    /// The slot, to be read and written.
    pub fn slot(&mut self) -> &mut S
        ensures* lends { sem 𝓛 (Lends (the_row S.row) S.row self.entry result (λ slot. slot)) }
        ensures value { result.now ≡ self.old }
    {
        &mut self.slot
    }
}
