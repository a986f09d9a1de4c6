//! Free slots in drive order, each drive's a stack with its top last.

ghost use Rattle.std.specs.Prelude.{◌≡◌, ℕ, ◌+◌, ◌<◌, ◌≤◌, Bool, true, length, take, drop, count_by, vec_len, vec_capacity, slice_index_or};
ghost use Rattle.domains.specs.Drive.{same_drive};
ghost use Rattle.domains.specs.Counts.{one_if};
ghost use Rattle.held_slots.specs.Slots.{place_from, count_at};
ghost use Rattle.plain_file.specs.FreeOrder.{is_before, StandInOrder, HasLowerNumber};

use domains::DriveId;
use flex_io::Slot;

/// Takes the top slot of a drive that has one.
pub(crate) fn take_top<S: Slot + Drop>(free: &mut Vec<S>, drive: DriveId) -> S
    requires { 1 ≤ count_at S.place_of (λ s. same_drive drive s.drive) free.old.items }
    ensures on { same_drive drive (place_from (S.place_of result)).drive ≡ true }
    ensures moved { (p : S → Bool) → count_by p free.old.items ≡ count_by p free.new.items + one_if (p result) }
    ensures len { vec_len free.new + 1 ≡ vec_len free.old }
    ensures capacity { vec_capacity free.new ≡ vec_capacity free.old }
    ensures ordered { StandInOrder S.place_of free.old.items → StandInOrder S.place_of free.new.items }
    ensures lowest { StandInOrder S.place_of free.old.items → HasLowerNumber S.place_of free.new.items result }
{
    let at = top_of(free, drive);
    free.remove(at)
}

/// The index of the top slot of a drive that has one.
fn top_of<S: Slot>(free: &[S], drive: DriveId) -> usize
    requires { 1 ≤ count_at S.place_of (λ s. same_drive drive s.drive) free.now }
    ensures within { result < length free.now }
    ensures on { (d : S) → same_drive drive (place_from (S.place_of (slice_index_or free.now result d))).drive ≡ true }
    ensures top { count_at S.place_of (λ s. same_drive drive s.drive) (drop (result + 1) free.now) ≡ 0 }
{
    let mut top = free.len();
    for (at, slot) in free.iter().enumerate() {
        if is_on(slot, drive) {
            top = at;
        }
    }
    top
}

fn is_on<S: Slot>(slot: &S, drive: DriveId) -> bool
    ensures { result ≡ same_drive drive (place_from (S.place_of slot.now)).drive }
{
    let place = slot.place();
    drive.node() == place.node && drive.drive() == place.drive
}

/// Puts a slot on top of its drive's stack. There is memory for it.
pub(crate) fn put_on_top<S: Slot + Drop>(free: &mut Vec<S>, slot: S)
    requires { vec_len free.old < vec_capacity free.old }
    ensures moved { (p : S → Bool) → count_by p free.new.items ≡ count_by p free.old.items + one_if (p slot) }
    ensures len { vec_len free.new ≡ vec_len free.old + 1 }
    ensures capacity { vec_capacity free.old ≤ vec_capacity free.new }
    ensures ordered { StandInOrder S.place_of free.old.items → HasLowerNumber S.place_of free.old.items slot
        → StandInOrder S.place_of free.new.items }
{
    let at = end_of(free, &slot);
    let Ok(()) = free.insert(at, slot) else {
        unreachable!()
    };
}

/// Where the stack of the slot's drive ends: before the first slot of a later drive.
fn end_of<S: Slot>(free: &[S], slot: &S) -> usize
    ensures within { result ≤ length free.now }
    ensures front { count_at S.place_of (λ s. is_before (place_from (S.place_of slot.now)).drive s.drive) (take result free.now) ≡ 0 }
    ensures back { (d : S) → result < length free.now
        → is_before (place_from (S.place_of slot.now)).drive (place_from (S.place_of (slice_index_or free.now result d))).drive ≡ true }
{
    for (at, other) in free.iter().enumerate() {
        if is_behind(slot, other) {
            return at;
        }
    }
    free.len()
}

/// Whether the drive of the other slot is behind that of the slot.
fn is_behind<S: Slot>(slot: &S, other: &S) -> bool
    ensures { result ≡ is_before (place_from (S.place_of slot.now)).drive (place_from (S.place_of other.now)).drive }
{
    let place = slot.place();
    let next = other.place();
    place.node < next.node || place.node == next.node && place.drive < next.drive
}
