//! Lists whose elements are parted by commas, or a dash.

ghost use Rattle.std.specs.Prelude.{◌≡◌, ℕ, List, [], ◌∷◌, IfOk};
ghost use Rattle.std.specs.List.{AllByRecursion};
ghost use Rattle.domains.specs.Drive.{Drive, IsDrive};
ghost use Rattle.domains.specs.Place.{Place, IsPlace};
ghost use Rattle.report.specs.Words.{drives_text, numbers_text, places_text};
ghost use Rattle.report_reader.specs.Lines.{IsGeneration};

use crate::words::{cut, drive_of, place_of, u32_of};
use domains::{DriveId, Place};
use std::alloc::{AllocError, Global};

/// The text of the elements: nothing for a dash.
fn elements(text: &str) -> &str
    ensures dash { text.now ≡ 45 ∷ [] → result.now ≡ [] }
    ensures other { (text.now ≡ 45 ∷ [] → ⊥) → result.now ≡ text.now }
{
    match text {
        "-" => "",
        _ => text,
    }
}

pub(crate) fn places_of(alloc: Global, text: &str) -> Result<Vec<Place>, AllocError>
    ensures only { IfOk result (λ v. (ss : List Place) → AllByRecursion IsPlace ss → text.now ≡ places_text ss → v.items ≡ ss) }
    ensures fits { IfOk result (λ v. AllByRecursion IsPlace v.items) }
{
    let mut places = Vec::new(alloc);
    let mut rest = elements(text);
    'places: while !rest.is_empty() {
        let (first, after) = cut(rest, ',');
        places.push(place_of(first))?;
        rest = after;
    }
    Ok(places)
}

pub(crate) fn drives_of(alloc: Global, text: &str) -> Result<Vec<DriveId>, AllocError>
    ensures only { IfOk result (λ v. (ds : List Drive) → AllByRecursion IsDrive ds → text.now ≡ drives_text ds → v.items ≡ ds) }
    ensures fits { IfOk result (λ v. AllByRecursion IsDrive v.items) }
{
    let mut drives = Vec::new(alloc);
    let mut rest = elements(text);
    'drives: while !rest.is_empty() {
        let (first, after) = cut(rest, ',');
        drives.push(drive_of(first))?;
        rest = after;
    }
    Ok(drives)
}

pub(crate) fn generations_of(alloc: Global, text: &str) -> Result<Vec<u32>, AllocError>
    ensures only { IfOk result (λ v. (ns : List ℕ) → AllByRecursion IsGeneration ns → text.now ≡ numbers_text ns → v.items ≡ ns) }
    ensures fits { IfOk result (λ v. AllByRecursion IsGeneration v.items) }
{
    let mut generations = Vec::new(alloc);
    let mut rest = elements(text);
    'generations: while !rest.is_empty() {
        let (first, after) = cut(rest, ',');
        generations.push(u32_of(first))?;
        rest = after;
    }
    Ok(generations)
}
