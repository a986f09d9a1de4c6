//! Who has begun which item.

ghost use Rattle.std.specs.Prelude.{◌≡◌, IfOk};
ghost use Rattle.engine_core.specs.BegunItems.{AreNoneBegun};

use std::alloc::{AllocError, Global};

/// The seat that has begun an item, and how many entries the log had then.
#[derive(Clone, Copy, Debug, PartialEq, Eq)]
pub struct Begun {
    pub seat: u8,
    pub at: u32,
}

/// The most items of a phase.
pub(crate) const ITEMS: usize = 256;

/// A place for each item of each job that may be started.
const PLACES: u16 = 16_384;

/// Places at which no item is begun.
pub(crate) fn none_begun(alloc: Global) -> Result<Vec<Option<Begun>>, AllocError>
    ensures { IfOk result (λ begun. AreNoneBegun begun.items) }
{
    let mut begun = Vec::with_capacity(alloc, usize::from(PLACES))?;
    for _place in 0..PLACES {
        begun.push_reserved(None);
    }
    Ok(begun)
}
