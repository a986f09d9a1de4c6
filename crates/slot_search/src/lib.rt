//! The search for slots of a group, drive by drive in the order of placement, and the return of slots that are not used.
#![tactic(auto)]

mod empty_at;
mod release;
mod request;
mod search;

pub use empty_at::EmptyAt;
pub use release::release_all;
pub use request::Request;
pub use search::{Search, draw_all};
