//! Tests of `file_core` by its public calls. They stand apart, since a check of a crate with its tests proves the crate again.
#![tactic(auto)]

#[cfg(test)]
mod placements;
#[cfg(test)]
mod tests;
