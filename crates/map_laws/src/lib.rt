//! Laws of a file's map over every list of legal entries: which groups stay, where, and with which bytes.
#![tactic(auto)]

pub mod laws;
