//! What an actor does.

use crate::text::Text;
use domains::DriveId;
use lists::List;

/// An operation of an actor. Files are numbered from 0, in scenario order.
#[derive(Debug, Drop)]
pub enum Op {
    Create { file: u16 },
    WriteText { file: u16, offset: u64, text: Text },
    Read { file: u16, offset: u64, len: u32 },
    Fail { drive: DriveId },
}

/// The operations of one actor, in their order.
pub type Script = List<Op>;
