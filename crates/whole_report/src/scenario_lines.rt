//! The lines of a report's scenario.

ghost use Rattle.std.specs.Prelude.{◌≡◌, ◌≤◌, ◌<◌, ◌++◌, ◌∷◌, true, ℕ, List, Some, IsTrue, ◌↔◌, length, IfOk, IfSome, IsSomeAnd};
ghost use Rattle.report_reader.specs.Lines.{lacks};
ghost use Rattle.report_blocks.specs.WrongLine.{IsBoardNext};
ghost use Rattle.whole_scenario.specs.Canonical.{canonical_text};
ghost use Rattle.whole_scenario.specs.declared.whole.Scenario as whole;
ghost use Rattle.whole_report.specs.ScenarioLines.{HasTail, IsScenario};

use report_reader::after;
use scenario_reader::canonical_text_spells;
use scenario_rules::ScenarioFault;
use std::alloc::{AllocError, Global};
use whole_scenario::{Scenario, print};

/// Whether the text is empty, or begins with a line of the board's count.
fn is_board_next(text: &str) -> bool
    ensures { IsTrue result ↔ IsBoardNext text.now }
{
    match after(text, "board ") {
        Some(_) => true,
        None => text.is_empty(),
    }
}

/// What stands behind the first line.
fn behind_line(text: &str) -> &str
    ensures at { (xs : List ℕ) (ys : List ℕ) → lacks 10 xs ≡ true → text.now ≡ xs ++ 10 ∷ ys → result.now ≡ ys }
    ensures shorter { 1 ≤ length text.now → length result.now < length text.now }
{
    match text.split_once('\n') {
        Some((_, rest)) => rest,
        None => "",
    }
}

/// The text from its first line on that begins with `board `.
fn from_board(text: &str) -> &str
    ensures next { IsBoardNext result.now }
    ensures only { (tail : List ℕ) → IsBoardNext tail → HasTail text.now tail → result.now ≡ tail }
{
    let mut rest = text;
    'lines: while !is_board_next(rest) {
        rest = behind_line(rest);
    }
    rest
}

/// The lines before the first that begins with `board `, and the text from that line on.
pub(crate) fn parted(text: &str) -> Option<(&str, &str)>
    ensures found { IfSome result (λ p. (text.now ≡ p.0.now ++ p.1.now) × IsBoardNext p.1.now) }
    ensures only { (front : List ℕ) (tail : List ℕ) → IsBoardNext tail → text.now ≡ front ++ tail → HasTail text.now tail → IsSomeAnd result (λ p. (p.0.now ≡ front) × (p.1.now ≡ tail)) }
{
    let rest = from_board(text);
    let front = front_before(text, rest)?;
    Some((front, rest))
}

/// What stands before this end.
fn front_before<'a>(text: &'a str, end: &str) -> Option<&'a str>
    ensures found { IfSome result (λ front. text.now ≡ front.now ++ end.now) }
    ensures only { (front : List ℕ) → text.now ≡ front ++ end.now → IsSomeAnd result (λ x. x.now ≡ front) }
{
    text.strip_suffix(end)
}

/// The scenario whose canonical text this is, if there is one.
pub(crate) fn scenario_of(alloc: Global, text: &str) -> Result<Option<Scenario>, AllocError>
    ensures found { IfOk result (λ r. IfSome r (λ s. IsScenario s × (canonical_text s ≡ text.now))) }
    ensures only { IfOk result (λ r. (s : whole.Scenario) → IsScenario s → canonical_text s ≡ text.now → r ≡ Some s) }
{
    canonical_text_spells();
    match scenario_reader::read(alloc, text) {
        Ok(scenario) => kept_if_canonical(alloc, scenario, text),
        Err(ScenarioFault::Bad(_)) => Ok(None),
        Err(ScenarioFault::NoMemory) => Err(AllocError),
    }
}

/// The scenario, if this is its canonical text.
fn kept_if_canonical(
    alloc: Global,
    scenario: Scenario,
    text: &str,
) -> Result<Option<Scenario>, AllocError>
    ensures found { IfOk result (λ r. IfSome r (λ s. (s ≡ scenario) × (canonical_text s ≡ text.now))) }
    ensures only { IfOk result (λ r. canonical_text scenario ≡ text.now → r ≡ Some scenario) }
{
    let canonical = print(alloc, &scenario)?;
    if canonical.as_str() == text {
        Ok(Some(scenario))
    } else {
        Ok(None)
    }
}
