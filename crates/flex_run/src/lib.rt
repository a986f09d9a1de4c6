//! The play of a scenario from its text to the report of its run: the program's top call.
#![tactic(auto)]

mod play;
mod slots;
mod stop;
mod top;
mod words;

pub use play::{PlayFault, play_serial};
pub use top::flex;
pub use words::is_run;
