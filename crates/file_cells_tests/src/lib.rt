//! Files at their cells, by the public calls of their paths. They stand apart, since a check of a crate with its tests proves the
//! crate again.
#![tactic(auto)]

#[cfg(test)]
mod tests;
