//! One page: bytes behind whose last one zeros stand.

ghost use Rattle.std.specs.Prelude.{◌≡◌, ◌↔◌, ◌+◌, ◌<◌, ◌^◌, ℕ, length, get_or, IsTrue, OnOk};
ghost use Rattle.sparse_bytes.specs.Pages.{IsPut, IsShown, byte_in};

use std::alloc::AllocError;

/// Puts the bytes into the page, from the place `start` on.
pub(crate) fn put(page: &mut Vec<u8>, start: usize, bytes: &[u8]) -> Result<(), AllocError>
    requires { start + length bytes.now < 2 ^ 63 }
    ensures { OnOk result (IsPut (byte_in page.old.items) start bytes.now (byte_in page.new.items)) }
{
    let end = start + bytes.len();
    page.resize(page.len().max(end), 0)?;
    page[start..end].copy_from_slice(bytes);
    Ok(())
}

/// Whether the page has these bytes from the place `start` on.
pub(crate) fn shows(page: &[u8], start: usize, bytes: &[u8]) -> bool
    requires { start + length bytes.now < 2 ^ 63 }
    ensures { IsTrue result ↔ IsShown (byte_in page.now) start bytes.now }
{
    let rest = &page[start.min(page.len())..];
    let told = rest.len().min(bytes.len());
    if !are_same(&rest[..told], &bytes[..told]) {
        return false;
    }
    are_zeros(&bytes[told..])
}

/// Whether the bytes are the same.
fn are_same(one: &[u8], other: &[u8]) -> bool
    ensures { IsTrue result ↔ (one.now ≡ other.now) }
{
    one == other
}

/// Whether the bytes are zeros.
fn are_zeros(bytes: &[u8]) -> bool
    ensures { IsTrue result ↔ ((i : ℕ) → get_or bytes.now i 0 ≡ 0) }
{
    for byte in bytes {
        if *byte != 0 {
            return false;
        }
    }
    true
}
