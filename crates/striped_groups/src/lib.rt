//! A group of a striped file, with its slots.
#![tactic(auto)]

mod stripe;

pub use stripe::{Stripe, push_places};
