//! The Job Engine: jobs in phases of items, handed out, progressed and ended in turns, as the state of a turn cell.
#![tactic(auto)]

mod begun;
mod chronicle;
mod engine;
mod hand_outs;
mod items;
mod orders;
mod outcomes;
mod outs;
mod saved;
mod serving;
mod work;

pub use begun::Begun;
pub use engine::{Engine, StartRefusal};
pub use engine_history::{End, EngineEntry, EngineEvent, Short};
pub use hand_outs::Idle;
pub use items::{Go, NotOut};
pub use job_log::Grow;
pub use orders::{NotActive, Told};
pub use outcomes::{ItemEnd, JobFault, Ran};
pub use outs::OutItem;
pub use saved::RestartRefusal;
pub use work::{Task, Work};
