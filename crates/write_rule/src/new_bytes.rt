//! The bytes of the groups that a write puts in place of a run.

ghost use Rattle.std.specs.Prelude.{◌≡◌, ℕ, ◌+◌, ◌++◌, List, length, take, drop, replicate, OnOk, IfOk, ◌-◌, ◌<◌, ◌≤◌, ◌^◌, min, max};
ghost use Rattle.file_history.specs.Bytes.{slice_of};
ghost use Rattle.write_rule.specs.NewBytes.{bytes_of, padded_slice, StaysAround, IsPartOf};

use std::alloc::{AllocError, Global};

/// The bytes of a run's new groups: the old bytes before the payload, zeros up to its offset, the payload, and the old bytes after
/// it. Behind these stand zeros.
#[derive(Clone, Copy, Debug)]
pub struct NewBytes<'a> {
    pub before: &'a [u8],
    pub gap: usize,
    pub payload: &'a [u8],
    pub after: &'a [u8],
}

/// Bytes taken from sources that follow one another: how many are still to skip, and how many are still wanted.
#[derive(Drop)]
struct Part {
    bytes: Vec<u8>,
    skip: usize,
    left: usize,
}

/// The old bytes that a write has at hand: those from the byte `from` on, with zeros behind the file's last byte.
#[derive(Clone, Copy, Debug)]
pub struct OldBytes<'a> {
    pub from: usize,
    pub bytes: &'a [u8],
}

impl<'a> NewBytes<'a> {
    /// What stays around a payload at `offset`, in a file of `size` bytes, of a run that begins with the first byte of `first` and
    /// ends with byte `to`. `first` has the old bytes before the payload, `last` those after it.
    pub fn around(
        first: OldBytes<'a>,
        last: OldBytes<'a>,
        to: usize,
        size: usize,
        offset: usize,
        payload: &'a [u8],
    ) -> Self
        requires low { first.from ≤ offset }
        requires end { offset + length payload.now < 2 ^ 63 }
        requires first { min offset size ≤ first.from + length first.bytes.now }
        requires start { last.from ≤ offset + length payload.now }
        requires last { min to size ≤ max (offset + length payload.now) (last.from + length last.bytes.now) }
        ensures stays { (old : List ℕ) → length old ≡ size → IsPartOf old first.entry → IsPartOf old last.entry
            → StaysAround old first.entry.from to offset (length payload.now) result }
        ensures payload { result.payload.now ≡ payload.now }
    {
        let kept = offset.min(size).saturating_sub(first.from);
        let end = offset + payload.len();
        let stop = to.min(size).max(end);
        NewBytes {
            before: &first.bytes[..kept],
            gap: offset - first.from - kept,
            payload,
            after: after_payload(last, end, stop),
        }
    }
}

/// The old bytes from `start` on, up to `stop`.
fn after_payload<'a>(old: OldBytes<'a>, start: usize, stop: usize) -> &'a [u8]
    requires start { old.from ≤ start }
    requires ordered { start ≤ stop }
    requires stop { stop ≤ max start (old.from + length old.bytes.now) }
    ensures part { (file : List ℕ) → IsPartOf file old.entry → stop ≤ max start (length file) → result.now ≡ slice_of file start (stop - start) }
{
    if start == stop {
        return &old.bytes[..0];
    }
    &old.bytes[start - old.from..stop - old.from]
}

impl NewBytes<'_> {
    /// `len` of the bytes, from `start` on.
    pub fn part(&self, alloc: Global, start: usize, len: usize) -> Result<Vec<u8>, AllocError>
        ensures part { IfOk result (λ v. v.items ≡ padded_slice (bytes_of self.now) start len) }
    {
        let mut part = Part {
            bytes: Vec::with_capacity(alloc, len)?,
            skip: start,
            left: len,
        };
        part.add(self.before)?;
        part.add_zeros(self.gap)?;
        part.add(self.payload)?;
        part.add(self.after)?;
        part.bytes.resize(len, 0)?;
        Ok(part.bytes)
    }
}

impl Part {
    /// Takes of the next source what is wanted.
    fn add(&mut self, source: &[u8]) -> Result<(), AllocError>
        ensures taken { OnOk result ((rest : List ℕ) → self.new.bytes.items ++ take self.new.left (drop self.new.skip rest)
            ≡ self.old.bytes.items ++ take self.old.left (drop self.old.skip (source.now ++ rest))) }
        ensures count { OnOk result (length self.new.bytes.items + self.new.left ≡ length self.old.bytes.items + self.old.left) }
    {
        let skipped = self.skip.min(source.len());
        let rest = &source[skipped..];
        let taken = self.left.min(rest.len());
        self.bytes.extend_from_slice(&rest[..taken])?;
        self.skip -= skipped;
        self.left -= taken;
        Ok(())
    }

    /// Takes of `count` zeros what is wanted.
    fn add_zeros(&mut self, count: usize) -> Result<(), AllocError>
        requires fits { length self.old.bytes.items + self.old.left < 2 ^ 63 }
        ensures taken { OnOk result ((rest : List ℕ) → self.new.bytes.items ++ take self.new.left (drop self.new.skip rest)
            ≡ self.old.bytes.items ++ take self.old.left (drop self.old.skip (replicate count 0 ++ rest))) }
        ensures count { OnOk result (length self.new.bytes.items + self.new.left ≡ length self.old.bytes.items + self.old.left) }
    {
        let skipped = self.skip.min(count);
        let taken = self.left.min(count - skipped);
        self.bytes.resize(self.bytes.len() + taken, 0)?;
        self.skip -= skipped;
        self.left -= taken;
        Ok(())
    }
}
