//! By which entry each generation left its file.

ghost use Rattle.std.specs.Prelude.{◌≡◌, ◌<◌, ◌≤◌, ◌==◌, ◌++◌, ◌∷◌, ℕ, [], Some, if◌then◌else◌, length, map, OnOk};
ghost use Rattle.std.specs.List.{AllByRecursion};
ghost use Rattle.file_heads.specs.LeftGenerations.{entry_at, entry_number, has_generation};

use std::alloc::{AllocError, Global};
use std::marker::Model;
use striped_groups::Stripe;

/// By generation, the number of the entry by which it left its file, 0 where it did not. Contracts see a `LeftList`.
#[derive(Drop)]
pub struct LeftGenerations {
    entries: Vec<u32>,
}

impl Model for LeftGenerations {
    ghost use Rattle.file_heads.specs.LeftGenerations.{LeftList};

    ghost Value = { LeftList };

    ghost view = { λ l. record { items = l.entries.items } };
}

impl LeftGenerations {
    /// Those of a file that has given no generation. It allocates nothing.
    pub fn new(alloc: Global) -> LeftGenerations
        ensures { result.items ≡ [] }
    {
        LeftGenerations {
            entries: Vec::new(alloc),
        }
    }

    /// Makes room for the generations below `count`.
    pub fn reserve(&mut self, count: u32) -> Result<(), AllocError>
        ensures ok { OnOk result (count ≤ length self.new.items) }
        ensures more { length self.old.items ≤ length self.new.items }
        ensures same { (generation : ℕ) → entry_at self.new.items generation ≡ entry_at self.old.items generation }
    {
        let len = self.entries.len();
        self.entries.resize(len.max(count as usize), 0)
    }

    /// The entry by which the generation left, if it did.
    #[tactic(auto, using(crate::proofs::LeftLookups::past, crate::proofs::LeftLookups::found))]
    pub fn at(&self, generation: u32) -> Option<u32>
        ensures { result ≡ entry_at self.now.items generation }
    {
        let entry = *self.entries.get(generation as usize)?;
        number(entry)
    }

    /// Takes in that these groups and this inode left by this entry.
    #[tactic(auto, using(crate::proofs::LeftLookups::left_with))]
    pub fn take_away<S>(&mut self, stripes: &[Stripe<S>], inode: &Stripe<S>, entry: u32)
        requires known { AllByRecursion (λ s. s.group.generation < length self.old.items) stripes.now }
        requires root { inode.now.group.generation < length self.old.items }
        requires some { 1 ≤ entry }
        ensures left { (g : ℕ) → entry_at self.new.items g
            ≡ (if has_generation g (map (λ s. s.group) stripes.now ++ inode.now.group ∷ []) then Some entry else entry_at self.old.items g) }
        ensures count { length self.new.items ≡ length self.old.items }
    {
        self.leave_all(stripes, entry);
        self.leave(inode.generation(), entry);
    }

    /// Takes in that a generation left by this entry.
    #[tactic(auto, using(crate::proofs::LeftLookups::set_at))]
    fn leave(&mut self, generation: u32, entry: u32)
        requires known { generation < length self.old.items }
        requires some { 1 ≤ entry }
        ensures left { (g : ℕ) → entry_at self.new.items g ≡ (if generation == g then Some entry else entry_at self.old.items g) }
        ensures count { length self.new.items ≡ length self.old.items }
    {
        self.entries[generation as usize] = entry;
    }

    /// Takes in that these groups left by this entry.
    fn leave_all<S>(&mut self, stripes: &[Stripe<S>], entry: u32)
        requires known { AllByRecursion (λ s. s.group.generation < length self.old.items) stripes.now }
        requires some { 1 ≤ entry }
        ensures left { (g : ℕ) → entry_at self.new.items g
            ≡ (if has_generation g (map (λ s. s.group) stripes.now) then Some entry else entry_at self.old.items g) }
        ensures count { length self.new.items ≡ length self.old.items }
    {
        let [stripe, rest @ ..] = stripes else {
            return;
        };
        self.leave_all(rest, entry);
        self.leave(stripe.generation(), entry);
    }
}

/// The number of an entry, if it is one.
fn number(entry: u32) -> Option<u32>
    ensures { result ≡ entry_number entry }
{
    if entry == 0 {
        return None;
    }
    Some(entry)
}
