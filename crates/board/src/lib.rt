//! The board of a cluster: which drives are up, down and gone, and the log of the orders that made them so, as the state of a turn cell.
#![tactic(auto)]

mod board;
mod board_view;
mod chronicle;
mod drive_states;
mod entry_stamp;
mod orders;
mod transitions;
mod views;

pub use board::{Board, Grow};
pub use board_history::{BoardEntry, Effect, Order, State};
pub use board_view::View;
pub use views::view;
