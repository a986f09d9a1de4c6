//! Sets of names.

ghost use Rattle.std.specs.Prelude.{◌≡◌, ◌||◌, not, ℕ, List, IfOk, OnOk, OnErr, false};
ghost use Rattle.std.specs.Str.{bytes_eq};
ghost use Rattle.std.specs.BTreeSet.{contains_text};

use std::alloc::{AllocError, Global};
use std::collections::BTreeSet;

/// A set of names. Contracts ask which texts are in it, by `contains_text`.
#[derive(Debug, Drop)]
pub struct NameSet {
    pub names: BTreeSet<String>,
}

impl NameSet {
    pub fn new(alloc: Global) -> NameSet
        ensures { (q : List ℕ) → contains_text result.names q ≡ false }
    {
        NameSet {
            names: BTreeSet::new(alloc),
        }
    }

    /// Puts the name in, and tells whether it is new.
    pub fn insert(&mut self, alloc: Global, name: &str) -> Result<bool, AllocError>
        ensures new { IfOk result (λ added. added ≡ not (contains_text self.old.names name.now)) }
        ensures ok { OnOk result ((q : List ℕ) → contains_text self.new.names q ≡ (bytes_eq name.now q || contains_text self.old.names q)) }
    {
        let copy = String::from_str(alloc, name)?;
        self.names.insert(copy).map_err(|_| AllocError)
    }

    pub fn contains(&self, name: &str) -> bool
        ensures { result ≡ contains_text self.now.names name.now }
    {
        self.names.contains(name)
    }
}
