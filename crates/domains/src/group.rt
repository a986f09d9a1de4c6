//! A protection group, and the answer that it lost too much.

use crate::place::Place;
use lists::List;

/// A protection group: its generation, how many data and correction units it has, and where they stand, by position.
#[derive(Debug, Drop)]
pub struct Group {
    pub generation: u32,
    pub n: u8,
    pub m: u8,
    pub places: List<Place>,
}

/// A group that has too few live units: `have` of the `need` that its data wants.
#[derive(Clone, Copy, Debug, PartialEq, Eq)]
pub struct Lost {
    pub generation: u32,
    pub have: u8,
    pub need: u8,
}
