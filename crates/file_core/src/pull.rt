//! What a caller needs of a file, read from its slots.

ghost use Rattle.std.specs.Prelude.{◌≡◌, ℕ, ◌↔◌, ◌⊎◌, true, false, None, Some, IfOk, IfErr, length};
ghost use Rattle.std.specs.List.{AllByRecursion};
ghost use Rattle.std.specs.Result.{IsErrOf};
ghost use Rattle.domains.specs.declared.group.Lost.{Lost};
ghost use Rattle.file_history.specs.Live.{first_short};
ghost use Rattle.striped_groups.specs.StoredGroups.{AllTell};
ghost use Rattle.file_core.specs.FileView.{IsFile, bytes_of, layout_of, now_of, stored_groups, stored_inode};
ghost use Rattle.file_core.specs.Looks.{IsLook};
ghost use Rattle.pulled_groups.specs.Pulls.{AreAllPulled};
ghost use Rattle.file_heads.specs.Parts.{IsPart, part_of};
ghost use Rattle.pulled_groups.specs.PullAnswers.{CanDecode, ShowsGroup, ShowsInode, asks_inode};
ghost use Rattle.file_heads.specs.PullRefusals.{refusal_of, unknown_of};

use crate::looks::Look;
use crate::state::FileState;
use board::View;
use file_heads::{Part, PullRefusal, Sight, refusal};
use flex_io::{Slot, Steady};
use lists::List;
use pulled_groups::{PulledGroup, pull_all};
use std::alloc::{AllocError, Global};

/// What a pull gives: what the file is, and each group that the part needs, in map order; if it asks for the inode's generation,
/// the inode's group.
#[derive(Drop)]
pub struct Pulled {
    pub look: Look,
    pub groups: List<PulledGroup>,
}

impl<S: Slot + Steady + Send + Drop> FileState<S> {
    /// Reads the first live unit of the inode, and of each group that the part needs the first n live units by position. `Lost`
    /// names the first group that has too few, the inode first. Out of memory may leave some of the slots read; another refusal reads
    /// none.
    pub fn pull(&mut self, alloc: Global, part: Part, view: &View) -> Result<Pulled, PullRefusal>
        requires part { IsPart (part_of part) }
        ensures pulled { IfOk result (λ p. AreAllPulled S.place_of S.content S.len_of S.reads self.old.shape view.now (layout_of self.old).dead
            (layout_of self.old).size (part_of part) self.old.inode self.new.inode self.old.groups self.new.groups p.groups) }
        ensures look { IfOk result (λ p. IsLook (layout_of self.old) (length self.old.notes) p.look) }

        // When it comes, and no other cause but want of memory.
        ensures absent { IsErrOf result PullRefusal.Absent ↔ ((layout_of self.old).present ≡ false) }
        ensures unknown { (generation : ℕ) → IsErrOf result (PullRefusal.Unknown generation)
            ↔ (((layout_of self.old).present ≡ true) × (unknown_of (layout_of self.old) (part_of part) ≡ Some generation)) }
        ensures lost { (lost : Lost) → IsErrOf result (PullRefusal.Lost lost)
            ↔ (((layout_of self.old).present ≡ true) × (unknown_of (layout_of self.old) (part_of part) ≡ None)
            × (first_short (now_of self.old view.now) (layout_of self.old) (part_of part) ≡ Some lost)) }
        ensures refused { IfErr result (λ refusal. (refusal ≡ PullRefusal.NoMemory) ⊎ (self.new ≡ self.old)) }

        // Nothing changes but the reads of slots.
        ensures kept { self.new ≡ record self.old { groups = self.new.groups; inode = self.new.inode } }
        ensures same { stored_groups S.place_of S.content S.len_of self.new ≡ stored_groups S.place_of S.content S.len_of self.old }
        ensures same_inode { stored_inode S.place_of S.content S.len_of self.new ≡ stored_inode S.place_of S.content S.len_of self.old }

        // The groups of the map at hand can be decoded, whatever the slots hold.
        ensures decodes { asks_inode (layout_of self.old) (part_of part) ≡ false
            → IfOk result (λ p. AllByRecursion (CanDecode self.old.shape.unit) p.groups) }

        // What the units at hand show, where all slots tell.
        ensures shown { AllTell S.content → asks_inode (layout_of self.old) (part_of part) ≡ false
            → IfOk result (λ p. AllByRecursion (ShowsGroup self.old.shape.unit (bytes_of self.old)) p.groups) }
        ensures shown_inode { AllTell S.content → asks_inode (layout_of self.old) (part_of part) ≡ true
            → IfOk result (λ p. ShowsInode self.old.shape.unit (layout_of self.old) p.groups) }
        ensures file { IsFile S.place_of S.content S.len_of self.new }
    {
        if let Some(refusal) = self.refusal(&part, view) {
            return Err(refusal);
        }
        let look = self.look();
        match self.pull_needed(alloc, &part, view) {
            Ok(groups) => Ok(Pulled { look, groups }),
            Err(AllocError) => Err(PullRefusal::NoMemory),
        }
    }

    /// Why nothing can be pulled, but for want of memory.
    fn refusal(&self, part: &Part, view: &View) -> Option<PullRefusal>
        requires part { IsPart (part_of part.now) }
        ensures value { result ≡ refusal_of (now_of self.now view.now) (layout_of self.now) (part_of part.now) }
        ensures file { IsFile S.place_of S.content S.len_of self.now }
    {
        let sight = Sight {
            shape: self.shape,
            view: *view,
        };
        refusal(&self.inode, &self.groups, part, &self.head, &sight)
    }

    /// Reads what is needed of a file that is there.
    fn pull_needed(
        &mut self,
        alloc: Global,
        part: &Part,
        view: &View,
    ) -> Result<List<PulledGroup>, AllocError>
        requires part { IsPart (part_of part.now) }
        requires present { (layout_of self.old).present ≡ true }
        requires enough { refusal_of (now_of self.old view.now) (layout_of self.old) (part_of part.now) ≡ None }
        ensures pulled { IfOk result (λ groups. AreAllPulled S.place_of S.content S.len_of S.reads self.old.shape view.now (layout_of self.old).dead
            (layout_of self.old).size (part_of part.now) self.old.inode self.new.inode self.old.groups self.new.groups groups) }
        ensures kept { self.new ≡ record self.old { groups = self.new.groups; inode = self.new.inode } }
        ensures same { stored_groups S.place_of S.content S.len_of self.new ≡ stored_groups S.place_of S.content S.len_of self.old }
        ensures same_inode { stored_inode S.place_of S.content S.len_of self.new ≡ stored_inode S.place_of S.content S.len_of self.old }
        ensures decodes { asks_inode (layout_of self.old) (part_of part.now) ≡ false
            → IfOk result (λ groups. AllByRecursion (CanDecode self.old.shape.unit) groups) }
        ensures shown { AllTell S.content → asks_inode (layout_of self.old) (part_of part.now) ≡ false
            → IfOk result (λ groups. AllByRecursion (ShowsGroup self.old.shape.unit (bytes_of self.old)) groups) }
        ensures shown_inode { AllTell S.content → asks_inode (layout_of self.old) (part_of part.now) ≡ true
            → IfOk result (λ groups. ShowsInode self.old.shape.unit (layout_of self.old) groups) }
        ensures file { IsFile S.place_of S.content S.len_of self.new }
    {
        let sight = Sight {
            shape: self.shape,
            view: *view,
        };
        let pulled = pull_all(
            alloc,
            &mut self.inode,
            &mut self.groups,
            part,
            &self.head,
            &sight,
        )?;
        Ok(List::from_vec(pulled))
    }
}
