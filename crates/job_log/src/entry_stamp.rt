//! When an entry was made, and by which seat.

/// The number of turns passed when an entry was made, and the seat whose turn it was.
#[derive(Clone, Copy, Debug)]
pub struct EntryStamp {
    pub turn: u64,
    pub seat: u8,
}
