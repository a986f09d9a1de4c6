//! Where a slot is.

/// A place: node and drive count from 1, slots from 0.
#[derive(Clone, Copy, Debug, PartialEq, Eq, PartialOrd, Ord)]
pub struct RawPlace {
    pub node: u8,
    pub drive: u8,
    pub slot: u16,
}
