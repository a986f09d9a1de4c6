//! The words of a report's lines. Each function guesses what a text says: what spells a value is read as it, and any other
//! text as some value, which does not print as the text.

ghost use Rattle.std.specs.Prelude.{◌≡◌, ◌≤◌, ◌<◌, ◌^◌, ℕ, true, List, [], ◌∷◌, ◌++◌, length, IfSome, IsSomeAnd};
ghost use Rattle.std.specs.Fmt.{decimal};
ghost use Rattle.domains.specs.Drive.{Drive, IsDrive};
ghost use Rattle.domains.specs.Level.{Level, IsLevel, level_name};
ghost use Rattle.domains.specs.Place.{Place, IsPlace};
ghost use Rattle.domains.specs.declared.by.By as by;
ghost use Rattle.scenario.specs.Ops.{drive_text};
ghost use Rattle.report.specs.Words.{by_text, place_text};
ghost use Rattle.report_reader.specs.Lines.{IsBy, lacks};

use domains::{By, DriveId, Level, NodeId, Place};

/// What stands before the first such character and what follows it, or all and nothing if there is none.
pub(crate) fn cut(text: &str, mark: char) -> (&str, &str)
    requires { mark < 128 }
    ensures at { (xs : List ℕ) (ys : List ℕ) → lacks mark xs ≡ true → text.now ≡ xs ++ mark ∷ ys → (result.0.now ≡ xs) × (result.1.now ≡ ys) }
    ensures none { lacks mark text.now ≡ true → (result.0.now ≡ text.now) × (result.1.now ≡ []) }
    ensures shorter { 1 ≤ length text.now → length result.1.now < length text.now }
{
    match text.split_once(mark) {
        Some(parts) => parts,
        None => (text, ""),
    }
}

/// What stands after this front.
pub fn after<'a>(text: &'a str, front: &str) -> Option<&'a str>
    ensures found { IfSome result (λ rest. text.now ≡ front.now ++ rest.now) }
    ensures only { (rest : List ℕ) → text.now ≡ front.now ++ rest → IsSomeAnd result (λ x. x.now ≡ rest) }
{
    text.strip_prefix(front)
}

pub(crate) fn u8_of(text: &str) -> u8
    ensures { (n : ℕ) → n < 2 ^ 8 → text.now ≡ decimal n → result ≡ n }
{
    text.parse::<u8>().unwrap_or(0)
}

pub(crate) fn u16_of(text: &str) -> u16
    ensures { (n : ℕ) → n < 2 ^ 16 → text.now ≡ decimal n → result ≡ n }
{
    text.parse::<u16>().unwrap_or(0)
}

pub(crate) fn u64_of(text: &str) -> u64
    ensures { (n : ℕ) → n < 2 ^ 64 → text.now ≡ decimal n → result ≡ n }
{
    text.parse::<u64>().unwrap_or(0)
}

pub(crate) fn u32_of(text: &str) -> u32
    ensures { (n : ℕ) → n < 2 ^ 32 → text.now ≡ decimal n → result ≡ n }
{
    text.parse::<u32>().unwrap_or(0)
}

/// Who made an entry.
pub(crate) fn by_of(text: &str) -> By
    ensures only { (b : by.By) → IsBy b → text.now ≡ by_text b → result ≡ b }
    ensures fits { IsBy result }
{
    let (actor, call) = cut(text, '.');
    By {
        actor: u8_of(actor),
        call: u32_of(call),
    }
}

pub(crate) fn drive_of(text: &str) -> DriveId
    ensures only { (d : Drive) → IsDrive d → text.now ≡ drive_text d → result ≡ d }
    ensures fits { IsDrive result }
{
    let (node, drive) = cut(text, '/');
    DriveId::new(within(u8_of(node), 32), within(u8_of(drive), 16))
}

pub(crate) fn node_of(text: &str) -> NodeId
    ensures only { (n : ℕ) → 1 ≤ n → n ≤ 32 → text.now ≡ decimal n → result ≡ n }
    ensures fits { (1 ≤ result) × (result ≤ 32) }
{
    NodeId::new(within(u8_of(text), 32))
}

/// The number, or the nearest from 1 to the last.
fn within(number: u8, last: u8) -> u8
    requires { 1 ≤ last }
    ensures some { 1 ≤ result }
    ensures top { result ≤ last }
    ensures same { 1 ≤ number → number ≤ last → result ≡ number }
{
    number.max(1).min(last)
}

pub(crate) fn level_of(text: &str) -> Level
    ensures only { (level : Level) → IsLevel level → text.now ≡ level_name level → result ≡ level }
    ensures fits { IsLevel result }
{
    match Level::read(text) {
        Ok(level) => level,
        Err(_) => Level::two_copies(),
    }
}

pub(crate) fn place_of(text: &str) -> Place
    ensures only { (s : Place) → IsPlace s → text.now ≡ place_text s → result ≡ s }
    ensures fits { IsPlace result }
{
    let (drive, slot) = cut(text, ':');
    Place::new(drive_of(drive), slot_of(slot))
}

/// The slot, or the last one.
fn slot_of(text: &str) -> u16
    ensures within { result < 4096 }
    ensures slot { (n : ℕ) → n < 4096 → text.now ≡ decimal n → result ≡ n }
{
    u16_of(text).min(4095)
}
