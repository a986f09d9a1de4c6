//! The words of a report's lines (docs/FORMATS.md, "Report").

ghost use Rattle.std.specs.Prelude.{◌≡◌, ◌++◌, string_bytes, OnOk};
ghost use Rattle.std.specs.Fmt.{decimal};
ghost use Rattle.scenario.specs.Ops.{drive_text};
ghost use Rattle.report.specs.Words.{by_text, place_text, more_places, places_text, more_drives, drives_text, more_numbers, numbers_text, group_text, more_groups, groups_text, bytes_text};

use domains::{By, DriveId, Group, Place};
use itoa::Buffer;
use std::alloc::AllocError;

/// Adds a number. Most have one digit, which needs no buffer.
#[tactic(auto, using(std::proofs::lemmas::Fmt::decimal_digit))]
pub(crate) fn write_number(text: &mut String, number: u64) -> Result<(), AllocError>
    ensures { OnOk result (string_bytes text.new ≡ string_bytes text.old ++ decimal number) }
{
    if number < 10 {
        return text.push(char::from(b'0' + number as u8));
    }
    text.push_str(Buffer::new().format(number))
}

#[tactic(auto, unfolding(crate::specs::Words::by_text))]
pub(crate) fn write_by(text: &mut String, by: By) -> Result<(), AllocError>
    ensures { OnOk result (string_bytes text.new ≡ string_bytes text.old ++ by_text by) }
{
    write_number(text, u64::from(by.actor))?;
    text.push('.')?;
    write_number(text, u64::from(by.call))
}

#[tactic(auto, unfolding(scenario::specs::Ops::drive_text))]
pub(crate) fn write_drive(text: &mut String, drive: DriveId) -> Result<(), AllocError>
    ensures { OnOk result (string_bytes text.new ≡ string_bytes text.old ++ drive_text drive) }
{
    write_number(text, u64::from(drive.node()))?;
    text.push('/')?;
    write_number(text, u64::from(drive.drive()))
}

#[tactic(auto, unfolding(crate::specs::Words::place_text))]
fn write_place(text: &mut String, place: Place) -> Result<(), AllocError>
    ensures { OnOk result (string_bytes text.new ≡ string_bytes text.old ++ place_text place) }
{
    write_drive(text, place.drive())?;
    text.push(':')?;
    write_number(text, u64::from(place.slot()))
}

fn write_places(text: &mut String, places: &[Place]) -> Result<(), AllocError>
    ensures { OnOk result (string_bytes text.new ≡ string_bytes text.old ++ places_text places.now) }
{
    match places {
        [] => text.push('-'),
        [first, rest @ ..] => {
            write_place(text, *first)?;
            write_more_places(text, rest)
        }
    }
}

fn write_more_places(text: &mut String, places: &[Place]) -> Result<(), AllocError>
    ensures { OnOk result (string_bytes text.new ≡ string_bytes text.old ++ more_places places.now) }
{
    for place in places {
        text.push(',')?;
        write_place(text, *place)?;
    }
    Ok(())
}

pub(crate) fn write_drives(text: &mut String, drives: &[DriveId]) -> Result<(), AllocError>
    ensures { OnOk result (string_bytes text.new ≡ string_bytes text.old ++ drives_text drives.now) }
{
    match drives {
        [] => text.push('-'),
        [first, rest @ ..] => {
            write_drive(text, *first)?;
            write_more_drives(text, rest)
        }
    }
}

fn write_more_drives(text: &mut String, drives: &[DriveId]) -> Result<(), AllocError>
    ensures { OnOk result (string_bytes text.new ≡ string_bytes text.old ++ more_drives drives.now) }
{
    for drive in drives {
        text.push(',')?;
        write_drive(text, *drive)?;
    }
    Ok(())
}

pub(crate) fn write_numbers(text: &mut String, numbers: &[u32]) -> Result<(), AllocError>
    ensures { OnOk result (string_bytes text.new ≡ string_bytes text.old ++ numbers_text numbers.now) }
{
    match numbers {
        [] => text.push('-'),
        [first, rest @ ..] => {
            write_number(text, u64::from(*first))?;
            write_more_numbers(text, rest)
        }
    }
}

fn write_more_numbers(text: &mut String, numbers: &[u32]) -> Result<(), AllocError>
    ensures { OnOk result (string_bytes text.new ≡ string_bytes text.old ++ more_numbers numbers.now) }
{
    for number in numbers {
        text.push(',')?;
        write_number(text, u64::from(*number))?;
    }
    Ok(())
}

#[tactic(auto, unfolding(crate::specs::Words::group_text))]
pub(crate) fn write_group(text: &mut String, group: &Group) -> Result<(), AllocError>
    ensures { OnOk result (string_bytes text.new ≡ string_bytes text.old ++ group_text group.now) }
{
    write_number(text, u64::from(group.generation))?;
    text.push('=')?;
    write_number(text, u64::from(group.n))?;
    text.push('+')?;
    write_number(text, u64::from(group.m))?;
    text.push('@')?;
    write_places(text, group.places.as_slice())
}

pub(crate) fn write_groups(text: &mut String, groups: &[Group]) -> Result<(), AllocError>
    ensures { OnOk result (string_bytes text.new ≡ string_bytes text.old ++ groups_text groups.now) }
{
    match groups {
        [] => text.push('-'),
        [first, rest @ ..] => {
            write_group(text, first)?;
            write_more_groups(text, rest)
        }
    }
}

fn write_more_groups(text: &mut String, groups: &[Group]) -> Result<(), AllocError>
    ensures { OnOk result (string_bytes text.new ≡ string_bytes text.old ++ more_groups groups.now) }
{
    for group in groups {
        text.push(' ')?;
        write_group(text, group)?;
    }
    Ok(())
}

/// Adds bytes in hexadecimal, of lower case.
pub(crate) fn write_bytes(text: &mut String, bytes: &[u8]) -> Result<(), AllocError>
    ensures { OnOk result (string_bytes text.new ≡ string_bytes text.old ++ bytes_text bytes.now) }
{
    match bytes {
        [] => text.push('-'),
        _ => {
            let digits = hex::encode(*text.allocator(), bytes)?;
            text.push_str(digits.as_str())
        }
    }
}
