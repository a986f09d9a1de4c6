//! Where an operation stands.

use operation_text::NamedOp;

/// The actor of an operation and its number in the actor's script, both from 1.
#[derive(Clone, Copy, Debug, PartialEq, Eq)]
pub struct Place {
    pub actor: u8,
    pub op: u16,
}

/// An operation at its place.
#[derive(Debug, Drop)]
pub struct PlacedOp {
    pub place: Place,
    pub what: NamedOp,
}
