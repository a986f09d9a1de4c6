//! A range of the bytes of a file.

ghost use Rattle.std.specs.Prelude.{◌≡◌, ℕ, ◌+◌, ◌-◌, ◌++◌, ◌≤◌, ◌<◌, ◌^◌, ◌↔◌, true, min, max, take, drop, length, IsTrue, OnOk};

use std::alloc::AllocError;

/// The bytes of a file from `start` on, up to `stop`.
#[derive(Clone, Copy, Debug)]
pub(crate) struct ByteRange {
    pub(crate) start: u64,
    pub(crate) stop: u64,
}

impl ByteRange {
    /// `len` bytes from `offset` on, or as many as a file of `size` bytes has.
    pub(crate) fn cut(offset: u64, len: u32, size: u64) -> ByteRange
        ensures start { result.start ≡ offset }
        ensures stop { result.stop ≡ min (offset + len) size }
    {
        ByteRange {
            start: offset,
            stop: offset.saturating_add(u64::from(len)).min(size),
        }
    }

    /// Whether one of the bytes from `first` on, up to `end`, is in the range.
    pub(crate) fn meets(&self, first: u64, end: u64) -> bool
        ensures { (result ≡ true) ↔ (max self.now.start first < min self.now.stop end) }
    {
        self.start.max(first) < self.stop.min(end)
    }

    /// Appends those of these bytes that are in the range. The first of them is the file's byte `first`.
    pub(crate) fn push_from(
        &self,
        bytes: &[u8],
        first: u64,
        out: &mut Vec<u8>,
    ) -> Result<(), AllocError>
        ensures { OnOk result (out.new.items ≡ out.old.items ++ take (self.now.stop - max self.now.start first) (drop (self.now.start - first) bytes.now)) }
    {
        let skip = self.start.saturating_sub(first).min(bytes.len() as u64) as usize;
        let rest = &bytes[skip..];
        let most = self
            .stop
            .saturating_sub(self.start.max(first))
            .min(rest.len() as u64) as usize;
        out.extend_from_slice(&rest[..most])
    }
}
