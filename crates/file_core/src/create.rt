//! The turn that creates a file.

ghost use Rattle.std.specs.Prelude.{◌≡◌, ◌≤◌, ◌++◌, [], Some, length, IfErr, IfOk, OnOk, OnErr};
ghost use Rattle.std.specs.List.{AllByRecursion};
ghost use Rattle.domains.specs.Place.{IsPlaceOf};
ghost use Rattle.held_slots.specs.Slots.{places_from};
ghost use Rattle.file_history.specs.Step.{Creates};
ghost use Rattle.inode_codec.specs.Inode.{inode_bytes};
ghost use Rattle.striped_groups.specs.StoredGroups.{Took};
ghost use Rattle.file_core.specs.Creation.{created_on, empty_inode, inode_group};
ghost use Rattle.file_core.specs.FileView.{IsFile, IsLater, layout_of, now_of, with_note};
ghost use Rattle.file_core.specs.Notes.{noted};

use crate::state::FileState;
use board::View;
use domains::{By, Group, Place};
use file_history::FileEvent;
use flex_io::Slot;
use held_slots::Held;
use inode_codec::Inode;
use lists::List;
use std::alloc::{AllocError, Global};
use striped_groups::{Stripe, push_places};

/// The group of a new inode, for the log and for the file.
#[derive(Drop)]
struct InodeGroups {
    logged: Group,
    kept: Group,
}

impl<S: Slot + Send + Drop> FileState<S> {
    /// The bytes of the inode of a new file, which has its declared level.
    pub fn new_inode(&self, alloc: Global) -> Result<Vec<u8>, AllocError>
        ensures text { IfOk result (λ text. text.items ≡ inode_bytes (empty_inode self.now.level self.now.shape.unit)) }
        ensures fits { IfOk result (λ text. length text.items ≤ 262144) }
    {
        let inode = Inode {
            level: self.level,
            unit: self.shape.unit(),
            size: 0,
            groups: List::new(alloc),
        };
        let _level = self.level.w();
        inode_codec::write(alloc, &inode)
    }

    /// Creates the file at its declared level, on slots that hold its inode (`FileState::new_inode`). They are new places for a
    /// group at the level. An error hands the slots back and leaves the file as it was.
    #[tactic(auto, using(crate::proofs::CreatedFile::new_within))]
    pub fn create(
        &mut self,
        alloc: Global,
        by: By,
        view: &View,
        slots: List<Held<S>>,
    ) -> Result<(), (AllocError, List<Held<S>>)>
        requires spare { 1 ≤ self.old.spare }
        requires later { IsLater view.now self.old }
        requires legal { Creates (now_of self.old view.now) (layout_of self.old) (inode_group S.place_of (layout_of self.old) slots) }
        requires spelled { AllByRecursion (Took S.content S.len_of (inode_bytes (empty_inode self.old.level self.old.shape.unit))) slots }
        ensures created { OnOk result (self.new ≡ created_on S.place_of by view.now slots self.old) }
        ensures kept { OnErr result (self.new ≡ self.old) }
        ensures back { IfErr result (λ refused. refused.1 ≡ slots) }
        ensures file { IsFile S.place_of S.content S.len_of self.new }
    {
        let slots = slots.into_vec();
        let groups = match self.inode_groups(alloc, &slots) {
            Ok(groups) => groups,
            Err(AllocError) => return Err((AllocError, List::from_vec(slots))),
        };
        self.take_inode(by, view, groups, slots)
    }
}

impl<S: Slot + Send + Drop> FileState<S> {
    /// The inode's group on these slots, twice.
    fn inode_groups(&self, alloc: Global, slots: &[Held<S>]) -> Result<InodeGroups, AllocError>
        requires { AllByRecursion (IsPlaceOf self.now.shape) (places_from S.place_of slots.now) }
        ensures file { IsFile S.place_of S.content S.len_of self.now }
        ensures logged { IfOk result (λ made. made.logged ≡ inode_group S.place_of (layout_of self.now) slots.now) }
        ensures kept { IfOk result (λ made. made.kept ≡ inode_group S.place_of (layout_of self.now) slots.now) }
    {
        Ok(InodeGroups {
            logged: self.inode_group(alloc, slots)?,
            kept: self.inode_group(alloc, slots)?,
        })
    }

    /// The group of an inode on these slots, with the next generation and the requested level.
    fn inode_group(&self, alloc: Global, slots: &[Held<S>]) -> Result<Group, AllocError>
        requires { AllByRecursion (IsPlaceOf self.now.shape) (places_from S.place_of slots.now) }
        ensures file { IsFile S.place_of S.content S.len_of self.now }
        ensures group { IfOk result (λ made. made ≡ inode_group S.place_of (layout_of self.now) slots.now) }
    {
        let (generation, m) = (self.head.next, self.head.requested.m());
        let mut places = Vec::new(alloc);
        push_places(slots, &mut places)?;
        Ok(Group {
            generation,
            n: 1,
            m,
            places: List::from_vec(places),
        })
    }

    /// Takes in the slots of a new inode, and notes it. It takes memory before its first change alone.
    #[tactic(auto, using(crate::proofs::LeftLemmas::left_with_room))]
    fn take_inode(
        &mut self,
        by: By,
        view: &View,
        groups: InodeGroups,
        slots: Vec<Held<S>>,
    ) -> Result<(), (AllocError, List<Held<S>>)>
        requires spare { 1 ≤ self.old.spare }
        requires later { IsLater view.now self.old }
        requires legal { Creates (now_of self.old view.now) (layout_of self.old) groups.logged }
        requires twice { groups.kept ≡ groups.logged }
        requires stands { places_from S.place_of slots.items ≡ groups.logged.places }
        requires spelled { AllByRecursion (Took S.content S.len_of (inode_bytes (empty_inode self.old.level self.old.shape.unit))) slots.items }
        ensures noted { OnOk result (self.new ≡ record (with_note self.old (noted by view.now (FileEvent.Created groups.logged) [])) {
          inode = Some (record { group = groups.logged; slots = slots.items });
        }) }
        ensures kept { OnErr result (self.new ≡ self.old) }
        ensures back { IfErr result (λ refused. refused.1 ≡ slots.items) }
        ensures file { IsFile S.place_of S.content S.len_of self.new }
    {
        let _requested = self.head.requested.m();
        let Ok(()) = self.left.reserve(self.head.next + 1) else {
            return Err((AllocError, List::from_vec(slots)));
        };
        let InodeGroups { logged, kept } = groups;
        self.head.create(self.level, slots.len() as u32);
        let payload = self.log.no_bytes();
        self.log.push(
            self.turns,
            self.seat,
            by,
            view,
            FileEvent::Created { inode: logged },
            payload,
        );
        let none = self.inode.replace(Stripe { group: kept, slots });
        let None = none else { unreachable!() };
        Ok(())
    }
}
