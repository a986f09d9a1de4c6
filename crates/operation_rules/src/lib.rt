//! The rules of scenarios that speak of operations, and the first operation that breaks each.
#![tactic(auto)]

mod declared;
mod jobs;
mod lengths;
mod name_set;
mod outside;
mod place;
mod unbuilt;

pub use declared::first_undeclared;
pub use jobs::{first_misnamed_job, first_start_too_many};
pub use lengths::first_too_long;
pub use name_set::NameSet;
pub use outside::first_outside;
pub use place::{Place, PlacedOp};
pub use unbuilt::first_unbuilt;

#[cfg(test)]
mod tests;
