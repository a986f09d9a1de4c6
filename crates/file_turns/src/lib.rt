//! What every path over a file's cell does: one turn, with room in the log for all that it may note, a look at the board, and
//! units on drives that are up and not barred; and the account that it keeps.
#![tactic(auto)]

mod board_look;
mod look_turn;
mod room;
mod usable;

pub use board_look::look_at_board;
pub use look_turn::look;
pub use room::reserve_for_path;
pub use usable::usable_drives;

#[cfg(test)]
mod tests;
