//! One mirrored file over plain lists of slots, played by one actor: the plain form of a file, without cells and codes.
#![tactic(auto)]

mod create;
mod drives;
mod file;
mod file_slots;
mod live;
mod note;
mod op;
mod pair;
mod pools;
mod read;
mod stock;
mod write;

pub use file::{PlainFile, PlainParts};
pub use op::{PlainFault, PlainOp};
pub use stock::{Stock, StockParts};
