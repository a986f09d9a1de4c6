//! Who makes an entry of a log.

/// The actor that makes an entry, from 1, and the number of its operation, from 1.
#[derive(Clone, Copy, Debug, PartialEq, Eq)]
pub struct By {
    pub actor: u8,
    pub call: u32,
}
