//! The bytes of an inode, read and written.
#![tactic(auto)]

mod fault;
mod inode;
pub mod laws;
mod level_codes;
mod reader;
mod writer;

pub use fault::{BadInode, InodeFault, InodeRule};
pub use inode::Inode;
pub use reader::read;
pub use writer::{HEAD_LEN, append_group, append_head, group_len, write};
