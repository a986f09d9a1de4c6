//! Groups that share data units.

ghost use Rattle.std.specs.Prelude.{ℕ, ◌≤◌, ◌<◌, ◌^◌, IfOk};
ghost use Rattle.file_history.specs.WriteRule.{AreChunks};

use std::alloc::{AllocError, Global};

/// The numbers of data units of the groups that share `units` of them: each has `width`, and the last what is left.
pub fn chunks(alloc: Global, units: u64, width: u8) -> Result<Vec<u8>, AllocError>
    requires wide { 1 ≤ width }
    ensures chunks { IfOk result (λ v. AreChunks units width v.items) }
{
    let mut chunks = Vec::new(alloc);
    let mut left = units;
    while left > 0 {
        let n = left.min(u64::from(width)) as u8;
        chunks.push(n)?;
        left -= u64::from(n);
    }
    Ok(chunks)
}
