//! The scenarios of the first form: those of the whole language that the program plays, as plain values.
#![tactic(auto)]

mod form;
mod laws;
mod plain;
mod script;

pub use form::plain_of;
pub use laws::{one_plain_scenario, plain_text_is_whole_text};
pub use plain::FormFault;
