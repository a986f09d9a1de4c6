//! Tests of `serial_play` by its public call. They stand apart, since a check of a crate with its tests proves the crate again.
#![tactic(auto)]

#[cfg(test)]
mod tests;
