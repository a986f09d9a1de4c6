//! The turn that changes a file's map.

ghost use Rattle.std.specs.Prelude.{◌≡◌, ◌≤◌, ◌<◌, ◌+◌, ◌^◌, [], None, Some, length, take, drop, IfOk, IfErr, IsOk, OnErr, OnOk};
ghost use Rattle.std.specs.List.{AllByRecursion};
ghost use Rattle.inode_codec.specs.Inode.{inode_bytes};
ghost use Rattle.map_changes.specs.ChangedMaps.{AreFree};
ghost use Rattle.striped_groups.specs.StoredGroups.{Took};
ghost use Rattle.file_core.specs.FileView.{IsFile, IsLater, layout_of};
ghost use Rattle.domains.specs.Place.{IsPlace};
ghost use Rattle.stale_changes.specs.declared.stale.Stale.{Stale};
ghost use Rattle.map_switches.specs.Switches.{IsBack, IsOfSlots, IsRefusal, IsSlotFault, kept_units, new_places};
ghost use Rattle.file_core.specs.FileSwitches.{HoldIfFresh, IsLegalIfFresh, IsPrepared, IsPut, IsReady, IsSwitched, new_inode_of, stale_by};

use crate::state::FileState;
use board::View;
use domains::{By, Place};
use flex_io::Slot;
use lists::List;
use map_switches::{
    Exchanged, InodeHead, MapChange, Prepared, Room, end_of, group_room, inode_unmarked,
    last_generation, make_ready, none_marked, push_copies, push_fresh_places, push_kept,
    put_groups, write_each,
};
use stale_changes::{Basis, KeptUnit, PlaceMarks, Stale};
use std::alloc::{AllocError, Global};
use striped_groups::Stripe;

/// What a change of the map gives back: the number of its entry, the replaced groups in map order, and the replaced inode, each
/// with its slots by position, but for those that the change keeps.
pub struct Switched<S> {
    pub at: u32,
    pub groups: List<Stripe<S>>,
    pub inode: Stripe<S>,
}

impl<S: Slot + Send + Drop> FileState<S> {
    /// Changes the map: the new groups take the place of the old ones, and the new inode, which is written to its slots, that of the old
    /// one. A group that is repaired keeps the slots of those of its units that stay. It needs room for one entry
    /// (`FileState::reserve`). A refusal leaves the file as it was and hands the change back. A new place that a unit of the file or
    /// another new one has is told as want of memory.
    pub fn switch(
        &mut self,
        alloc: Global,
        by: By,
        view: &View,
        change: MapChange<S>,
    ) -> Result<Switched<S>, (Stale, MapChange<S>)>
        requires spare { 1 ≤ self.old.spare }
        requires later { IsLater view.now self.old }
        requires slots { IsOfSlots S.place_of S.len_of self.old.shape.unit change }

        // What is so if no entry behind the change's copy stands against it.
        requires legal { IsLegalIfFresh self.old view.now change }
        requires holds { HoldIfFresh S.place_of S.content S.len_of self.old change }

        // What becomes of the file, and what comes back.
        ensures switched { IfOk result (λ done. IsSwitched S.place_of S.content S.len_of by view.now change self.old self.new done) }
        ensures kept { OnErr result (self.new ≡ self.old) }

        // When it is refused.
        ensures fresh { IsOk result → stale_by self.old change ≡ None }
        ensures refused { IfErr result (λ refused. IsRefusal S.place_of S.faults (stale_by self.old change) change refused.0 refused.1) }
        ensures file { IsFile S.place_of S.content S.len_of self.new }
    {
        let _seat = self.seat;
        let Ok(places) = new_places(alloc, &change) else {
            return Err((Stale::NoMemory, change));
        };
        let Ok(kept) = kept_by(alloc, &change) else {
            return Err((Stale::NoMemory, change));
        };
        if let Some(stale) = self.stale(&change, &kept, &places) {
            return Err((stale, change));
        }
        if self.check_places(alloc, &places).is_err() {
            return Err((Stale::NoMemory, change));
        }
        let Ok(prepared) = self.prepare(alloc, view, &change) else {
            return Err((Stale::NoMemory, change));
        };
        self.write_inode(alloc, by, view, prepared, change)
    }

    /// Why an entry behind the change's copy stands against it: the first that does.
    fn stale(&self, change: &MapChange<S>, kept: &[KeptUnit], places: &[Place]) -> Option<Stale>
        requires kept { kept.now ≡ kept_units change.now.fresh }
        requires places { places.now ≡ new_places change.now }
        ensures cause { result ≡ stale_by self.now change.now }
        ensures file { IsFile S.place_of S.content S.len_of self.now }
    {
        let basis = Basis {
            unit: self.shape.unit(),
            last: last_generation(&self.groups),
            units: change.units,
            level: change.level,
            end: end_of(&change.why),
        };
        let entries = self.log.entries();
        let at = (change.at as usize).min(entries.len());
        basis.cause_in(
            change.old.as_slice(),
            kept,
            places,
            change.at,
            &entries[at..],
        )
    }

    /// That the new places are free: none comes twice, and no unit of the file stands at one.
    fn check_places(&self, alloc: Global, places: &[Place]) -> Result<(), AllocError>
        requires { AllByRecursion IsPlace places.now }
        ensures free { IsOk result → AreFree (layout_of self.now) places.now }
        ensures file { IsFile S.place_of S.content S.len_of self.now }
    {
        let _seat = self.seat;
        let mut marks = PlaceMarks::new(alloc);
        if !marks.add_all(places)? {
            return Err(AllocError);
        }
        if !none_marked(&self.groups, &marks) {
            return Err(AllocError);
        }
        if !inode_unmarked(&self.inode, &marks) {
            return Err(AllocError);
        }
        Ok(())
    }

    /// Makes ready what a change needs before the file changes.
    fn prepare(
        &self,
        alloc: Global,
        view: &View,
        change: &MapChange<S>,
    ) -> Result<Prepared, AllocError>
        requires spare { 1 ≤ self.now.spare }
        requires ready { IsReady S.place_of S.content S.len_of self.now view.now change.now }
        ensures prepared { IfOk result (λ p. IsPrepared self.now change.now p) }
        ensures file { IsFile S.place_of S.content S.len_of self.now }
    {
        let _most = self.head.requested.m();
        let head = InodeHead {
            level: self.head.requested,
            unit: self.shape.unit(),
            size: self.head.size,
        };
        make_ready(alloc, &self.groups, self.head.next, head, change)
    }

    /// Writes the new inode to its slots, and then makes the change.
    fn write_inode(
        &mut self,
        alloc: Global,
        by: By,
        view: &View,
        prepared: Prepared,
        change: MapChange<S>,
    ) -> Result<Switched<S>, (Stale, MapChange<S>)>
        requires spare { 1 ≤ self.old.spare }
        requires later { IsLater view.now self.old }
        requires ready { IsReady S.place_of S.content S.len_of self.old view.now change }
        requires prepared { IsPrepared self.old change prepared }
        ensures switched { IfOk result (λ done. IsSwitched S.place_of S.content S.len_of by view.now change self.old self.new done) }
        ensures kept { OnErr result (self.new ≡ self.old) }
        ensures refused { IfErr result (λ refused. IsRefusal S.place_of S.faults None change refused.0 refused.1) }
        ensures file { IsFile S.place_of S.content S.len_of self.new }
    {
        let _seat = self.seat;
        let mut change = change;
        if let Err(stale) = write_slots(&mut change, &prepared.text) {
            return Err((stale, change));
        }
        self.put(alloc, by, view, prepared, change)
    }

    /// Puts the new groups and the new inode in their places, and notes it. It takes memory before its first change alone.
    fn put(
        &mut self,
        alloc: Global,
        by: By,
        view: &View,
        prepared: Prepared,
        change: MapChange<S>,
    ) -> Result<Switched<S>, (Stale, MapChange<S>)>
        requires spare { 1 ≤ self.old.spare }
        requires later { IsLater view.now self.old }
        requires ready { IsReady S.place_of S.content S.len_of self.old view.now change }
        requires prepared { IsPrepared self.old change prepared }
        requires took { AllByRecursion (Took S.content S.len_of (inode_bytes (new_inode_of self.old change))) change.inode.slots }
        ensures put { IfOk result (λ done. IsPut by view.now change self.old self.new done) }
        ensures kept { OnErr result (self.new ≡ self.old) }
        ensures back { IfErr result (λ refused. (refused.0 ≡ Stale.NoMemory) × (refused.1 ≡ change)) }
        ensures file { IsFile S.place_of S.content S.len_of self.new }
    {
        let _most = self.head.requested.m();
        if self.groups.reserve(group_room(&change.fresh)).is_err() {
            return Err((Stale::NoMemory, change));
        }
        let Ok(()) = self.left.reserve(prepared.inode.generation + 1) else {
            return Err((Stale::NoMemory, change));
        };
        let Ok(room) = Room::new(alloc, &change) else {
            return Err((Stale::NoMemory, change));
        };
        let Exchanged {
            event,
            payload,
            gone,
            inode,
            next,
            size,
            units,
        } = put_groups(
            alloc,
            &mut self.groups,
            self.head.next,
            self.head.size,
            prepared,
            change,
            room,
        );
        self.head.switch(next, size, units);
        self.log
            .push(self.turns, self.seat, by, view, event, payload);
        let Some(inode) = self.inode.replace(inode) else {
            unreachable!()
        };
        let at = self.log.len() as u32;
        self.left.take_away(gone.as_slice(), &inode, at);
        Ok(Switched {
            at,
            groups: gone,
            inode,
        })
    }
}

/// The places of the new units: the groups', and then the inode's.
fn new_places<S>(alloc: Global, change: &MapChange<S>) -> Result<Vec<Place>, AllocError>
    ensures all { IfOk result (λ places. places.items ≡ new_places change.now) }
    ensures places { IfOk result (λ places. AllByRecursion IsPlace places.items) }
{
    let mut places = Vec::new(alloc);
    push_fresh_places(&change.fresh, &mut places)?;
    push_copies(change.inode.group.places.as_slice(), &mut places)?;
    Ok(places)
}

/// The units that the change keeps.
fn kept_by<S>(alloc: Global, change: &MapChange<S>) -> Result<Vec<KeptUnit>, AllocError>
    ensures { IfOk result (λ kept. kept.items ≡ kept_units change.now.fresh) }
{
    let mut kept = Vec::new(alloc);
    push_kept(&change.fresh, &mut kept)?;
    Ok(kept)
}

/// Writes the bytes to the slots of the change's inode. It stops at the first that does not take them.
fn write_slots<S: Slot>(change: &mut MapChange<S>, bytes: &[u8]) -> Result<(), Stale>
    requires fits { length bytes.now ≤ 262144 }
    requires few { length change.now.inode.slots ≤ 255 }
    ensures back { IsBack S.place_of S.faults change.entry.now change.exit.now }
    ensures took { OnOk result (AllByRecursion (Took S.content S.len_of bytes.now) change.exit.now.inode.slots) }
    ensures failed { IfErr result (λ why. IsSlotFault S.faults change.entry.now.inode.slots change.exit.now.inode.slots 0 why) }
{
    write_each(&mut change.inode.slots, bytes, 0)
}
