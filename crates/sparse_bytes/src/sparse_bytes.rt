//! The bytes of a file as pages.

ghost use Rattle.std.specs.Prelude.{◌≡◌, ◌↔◌, ◌+◌, ◌/◌, ◌%◌, ◌<◌, ◌≤◌, ◌^◌, ℕ, List, [], length, IsTrue, OnOk};
ghost use Rattle.file_history.specs.Bytes.{overwrite, slice_of};
ghost use Rattle.sparse_bytes.specs.Pages.{Holds, IsPut, IsPutInPage, IsShown, byte_at, page_of};

use crate::page;
use std::alloc::{AllocError, Global};
use std::collections::BTreeMap;

/// How many bytes a page has at most.
const PAGE_BYTES: u64 = 256;

/// The bytes of a file: how many there are, and the pages to which something was written, by number. What no page has is zero, so
/// a hole takes no memory. Contracts see it by `Holds`.
#[derive(Drop)]
pub struct SparseBytes {
    pub size: u64,
    pub pages: BTreeMap<u64, Vec<u8>>,
}

impl SparseBytes {
    /// No bytes. It allocates nothing.
    pub fn new(alloc: Global) -> SparseBytes
        ensures { Holds result [] }
    {
        SparseBytes {
            size: 0,
            pages: BTreeMap::new(alloc),
        }
    }

    /// Puts the payload at the offset, after zeros if the bytes end before it. If it runs out of memory, a part of the payload may stand.
    pub fn write(&mut self, alloc: Global, offset: u64, payload: &[u8]) -> Result<(), AllocError>
        requires end { offset + length payload.now < 2 ^ 63 }
        ensures written { OnOk result ((bytes : List ℕ) → Holds self.old bytes → Holds self.new (overwrite bytes offset payload.now)) }
    {
        self.put_all(alloc, offset, payload)?;
        self.size = self.size.max(offset + payload.len() as u64);
        Ok(())
    }

    /// Whether these are the bytes of the range, cut at the end.
    pub fn shows(&self, offset: u64, len: u64, bytes: &[u8]) -> bool
        requires size { self.now.size < 2 ^ 63 }
        ensures { (file : List ℕ) → Holds self.now file → IsTrue result ↔ (bytes.now ≡ slice_of file offset len) }
    {
        if bytes.len() as u64 != self.size.saturating_sub(offset).min(len) {
            return false;
        }
        if bytes.is_empty() {
            return true;
        }
        self.has_all(offset, bytes)
    }

    /// Puts the bytes into the pages, from the offset on.
    fn put_all(&mut self, alloc: Global, offset: u64, bytes: &[u8]) -> Result<(), AllocError>
        requires end { offset + length bytes.now < 2 ^ 63 }
        ensures put { OnOk result (IsPut (byte_at self.old.pages) offset bytes.now (byte_at self.new.pages)) }
        ensures size { self.new.size ≡ self.old.size }
    {
        let mut at = offset;
        let mut rest = bytes;
        'pages: while !rest.is_empty() {
            let start = at % PAGE_BYTES;
            let count = rest.len().min((PAGE_BYTES - start) as usize);
            self.put(alloc, at / PAGE_BYTES, start as usize, &rest[..count])?;
            at += count as u64;
            rest = &rest[count..];
        }
        Ok(())
    }

    /// Puts the bytes into one page.
    fn put(
        &mut self,
        alloc: Global,
        number: u64,
        start: usize,
        bytes: &[u8],
    ) -> Result<(), AllocError>
        requires small { start + length bytes.now ≤ 256 }
        ensures put { OnOk result (IsPutInPage self.old.pages number start bytes.now self.new.pages) }
        ensures size { self.new.size ≡ self.old.size }
    {
        if let Some(page) = self.pages.get_mut(&number) {
            return page::put(page, start, bytes);
        }
        let mut page = Vec::new(alloc);
        page::put(&mut page, start, bytes)?;
        self.pages.insert(number, page).map_err(|_| AllocError)?;
        Ok(())
    }

    /// Whether the pages have these bytes from the offset on.
    fn has_all(&self, offset: u64, bytes: &[u8]) -> bool
        requires end { offset + length bytes.now < 2 ^ 63 }
        ensures { IsTrue result ↔ IsShown (byte_at self.now.pages) offset bytes.now }
    {
        let mut at = offset;
        let mut rest = bytes;
        'pages: while !rest.is_empty() {
            let start = at % PAGE_BYTES;
            let count = rest.len().min((PAGE_BYTES - start) as usize);
            if !page::shows(self.page(at / PAGE_BYTES), start as usize, &rest[..count]) {
                return false;
            }
            at += count as u64;
            rest = &rest[count..];
        }
        true
    }

    /// The bytes of a page.
    fn page(&self, number: u64) -> &[u8]
        ensures { result.now ≡ page_of self.now.pages number }
    {
        match self.pages.get(&number) {
            Some(page) => page,
            None => &[],
        }
    }
}
