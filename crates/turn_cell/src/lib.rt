//! One value that threads take out, change and put back in turns, with a history that is proved.
#![tactic(auto)]

mod backoff;
mod cell;
mod chronicle;
mod close;
mod open;
mod seat;
mod seat_tallies;
mod steps;
mod turn;
mod turn_state;
mod view;

pub use cell::TurnCell;
pub use chronicle::{Chronicle, Note};
pub use seat::Seat;
pub use seat_tallies::SeatTallies;
pub use turn::Turn;
