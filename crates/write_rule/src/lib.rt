//! The rule of a write: which groups of a file's map it replaces, how many data units the new ones have, and which bytes they
//! hold.
#![tactic(auto)]

pub mod laws;
mod new_bytes;
mod run;
mod widths;

pub use new_bytes::{NewBytes, OldBytes};
pub use run::{ReplacedRun, WriteRange, replaced_run};
pub use widths::chunks;
