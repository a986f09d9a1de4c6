//! What is kept of a file beside its groups, and what it says of them: which of their units count, which groups a part needs, why
//! nothing can be pulled, and which group is not clear.
#![tactic(auto)]

mod dead_units;
mod head;
mod left;
mod live;
mod losses;
mod needs;
mod part;
mod unclear;

pub use dead_units::DeadUnits;
pub use head::Head;
pub use left::LeftGenerations;
pub use live::Sight;
pub use losses::refusal;
pub use part::{Part, PullRefusal};
pub use unclear::first_unclear;
