//! One operation of a script, done by an actor's hand on the files of a cluster, each alone at its cell.
#![tactic(auto)]

mod file_action;
mod operation;
mod stop;

pub use operation::play_operation;
pub use stop::Stop;
