//! Why a field was not read.

ghost use Rattle.std.specs.Prelude.{◌≡◌};
ghost use Rattle.field_readers.specs.declared.fault.ReadFault.TheVariants.{Memory};

use std::alloc::{AllocError, AllocFailed};

/// The first field that breaks its rule, or the end within a field. `W` has a value for each rule of a grammar.
#[derive(Clone, Copy, Debug, PartialEq, Eq)]
pub enum Broken<W> {
    /// The bytes end within a field.
    Ends,
    /// A field breaks the rule `what`, and `left` bytes are there from its first byte to the end.
    Field { left: usize, what: W },
}

/// Why a field was not read.
#[derive(Clone, Copy, Debug, PartialEq, Eq)]
pub enum ReadFault<W> {
    Memory,
    Broken(Broken<W>),
}

impl<W> From<AllocError> for ReadFault<W> {
    ghost from_gives = { λ _ e. e ≡ Memory };

    fn from(_e: AllocError) -> ReadFault<W> {
        ReadFault::Memory
    }
}

impl<W, T: Drop> From<AllocFailed<T>> for ReadFault<W> {
    ghost from_gives = { λ _ e. e ≡ Memory };

    fn from(_e: AllocFailed<T>) -> ReadFault<W> {
        ReadFault::Memory
    }
}
