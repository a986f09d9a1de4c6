//! Reading units from slots.

ghost use Rattle.std.specs.Prelude.{◌≡◌, ◌≤◌, ◌<◌, ◌+◌, [], length, map, IsOk, OnOk};
ghost use Rattle.std.specs.List.{AllByRecursion};
ghost use Rattle.pulled_groups.specs.Pulls.{AreRead, IsRead};

use flex_io::{Slot, Steady};
use held_slots::Held;
use rs_codes::Have;
use std::alloc::AllocError;

/// Reads the slots where a flag is set, each into a unit at hand.
pub(crate) fn read_where<S: Slot + Steady>(
    slots: &mut Vec<Held<S>>,
    flags: &[bool],
    buf: &mut [u8],
    have: &mut Have,
) -> Result<(), AllocError>
    requires flags { length flags.now ≡ length slots.old.items }
    requires few { length slots.old.items ≤ 255 }
    requires lengths { AllByRecursion (λ x. S.len_of x ≡ length buf.old) slots.old.items }
    requires unit { have.old.unit_length ≡ length buf.old }
    requires none { have.old.positions ≡ [] }
    ensures read { OnOk result (AreRead S.place_of S.content S.len_of S.reads flags.now slots.old.items slots.new.items 0 have.old have.new) }
    ensures places { map S.place_of slots.new.items ≡ map S.place_of slots.old.items }
    ensures contents { map S.content slots.new.items ≡ map S.content slots.old.items }
    ensures same_lengths { map S.len_of slots.new.items ≡ map S.len_of slots.old.items }
{
    read_from(slots, flags, 0, Ok(()), buf, have)
}

/// Reads each of these slots whose flag is set, unless memory ran out before. The first has this position.
fn read_from<S: Slot + Steady>(
    slots: &mut [Held<S>],
    flags: &[bool],
    position: u8,
    before: Result<(), AllocError>,
    buf: &mut [u8],
    have: &mut Have,
) -> Result<(), AllocError>
    requires flags { length flags.now ≡ length slots.old }
    requires few { position + length slots.old ≤ 255 }
    requires lengths { AllByRecursion (λ x. S.len_of x ≡ length buf.old) slots.old }
    requires unit { have.old.unit_length ≡ length buf.old }
    requires fresh { AllByRecursion (λ p. p < position) have.old.positions }
    ensures read { OnOk result (IsOk before × AreRead S.place_of S.content S.len_of S.reads flags.now slots.old slots.new position have.old have.new) }
    ensures places { map S.place_of slots.new ≡ map S.place_of slots.old }
    ensures contents { map S.content slots.new ≡ map S.content slots.old }
    ensures same_lengths { map S.len_of slots.new ≡ map S.len_of slots.old }
{
    let [flag, flags @ ..] = flags else {
        return before;
    };
    let Some((slot, rest)) = slots.split_first_mut() else {
        return before;
    };
    let read = read_if(*flag, slot, position, before, buf, have);
    read_from(rest, flags, position + 1, read, buf, have)
}

/// Reads a slot whose flag is set, unless memory ran out before.
fn read_if<S: Slot + Steady>(
    flag: bool,
    slot: &mut Held<S>,
    position: u8,
    before: Result<(), AllocError>,
    buf: &mut [u8],
    have: &mut Have,
) -> Result<(), AllocError>
    requires len { S.len_of slot.old ≡ length buf.old }
    requires unit { have.old.unit_length ≡ length buf.old }
    requires fresh { AllByRecursion (λ p. p < position) have.old.positions }
    ensures read { OnOk result (IsOk before × IsRead S.place_of S.content S.len_of S.reads flag position slot.old slot.new have.old have.new) }
    ensures place { S.place_of slot.new ≡ S.place_of slot.old }
    ensures content { S.content slot.new ≡ S.content slot.old }
    ensures len { S.len_of slot.new ≡ S.len_of slot.old }
    ensures buf { length buf.new ≡ length buf.old }
    ensures unit { have.new.unit_length ≡ have.old.unit_length }
    ensures below { AllByRecursion (λ p. p < position + 1) have.new.positions }
{
    before?;
    if !flag {
        return Ok(());
    }
    let Ok(()) = slot.slot().read(buf) else {
        unreachable!()
    };
    have.push(position, buf)
}
