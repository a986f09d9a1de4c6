//! The state of a striped file, and its turns.
#![tactic(auto)]

mod chronicle;
mod clear;
mod create;
mod delete;
pub mod laws;
mod looks;
mod note_log;
mod noted;
mod notes;
mod pull;
mod state;
mod switch;

pub use chronicle::FileTerms;
pub use clear::NotClear;
pub use delete::{DeletedSlots, FileParts};
pub use file_heads::{Part, PullRefusal};
pub use looks::Look;
pub use map_switches::{Fresh, MapChange, Why};
pub use noted::Noted;
pub use notes::Absent;
pub use pull::Pulled;
pub use pulled_groups::PulledGroup;
pub use state::FileState;
pub use striped_groups::Stripe;
pub use switch::Switched;
