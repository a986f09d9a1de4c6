//! A line of the board: a guess at its entry, which is kept if it prints as the line.

ghost use Rattle.std.specs.Prelude.{◌≡◌, ◌++◌, ℕ, List, IfSome, IsSomeAnd, IfOk};
ghost use Rattle.board_history.specs.declared.entry.Order as order;
ghost use Rattle.board_history.specs.declared.entry.Effect as effect;
ghost use Rattle.board_history.specs.declared.entry.BoardEntry as entry;
ghost use Rattle.report.specs.BoardLines.{board_line, effect_text};
ghost use Rattle.report.specs.Words.{line_feed};
ghost use Rattle.report_reader.specs.Lines.{IsBoardEntry, IsOrder, board_text, target_of, word_of};

use crate::words::{after, by_of, cut, drive_of, node_of};
use board_history::{BoardEntry, Effect, Order, State};
use report::write_board_entry;
use std::alloc::AllocError;

fn order_of(word: &str, target: &str) -> Order
    ensures only { (o : order.Order) → IsOrder o → word.now ≡ word_of o → target.now ≡ target_of o → result ≡ o }
    ensures fits { IsOrder result }
{
    match word {
        "fail" => Order::Fail(drive_of(target)),
        "down" => Order::Down(drive_of(target)),
        "up" => Order::Up(drive_of(target)),
        _ => Order::FailNode(node_of(target)),
    }
}

#[tactic(auto, unfolding(report::specs::BoardLines::effect_text))]
fn effect_of(text: &str) -> Effect
    ensures { (e : effect.Effect) → text.now ≡ effect_text e → result ≡ e }
{
    match text {
        "changed" => Effect::Changed,
        "nochange up" => Effect::NoChange { is: State::Up },
        "nochange down" => Effect::NoChange { is: State::Down },
        _ => Effect::NoChange { is: State::Gone },
    }
}

/// The entry that a line tells, without its line feed.
fn entry_of(text: &str) -> BoardEntry
    ensures only { (e : entry.BoardEntry) → IsBoardEntry e → text.now ≡ board_text e → result ≡ e }
    ensures fits { IsBoardEntry result }
{
    let (by, rest) = cut(text, ' ');
    let (word, rest) = cut(rest, ' ');
    let (target, effect) = cut(rest, ' ');
    BoardEntry {
        by: by_of(by),
        order: order_of(word, target),
        effect: effect_of(effect),
    }
}

/// The entry of the line of the board that the text begins with, and what stands behind its line feed: nothing if it begins
/// with the line of none (docs/FORMATS.md, "Report"). `scratch` is written over.
pub fn read_board_entry<'a>(
    scratch: &mut String,
    text: &'a str,
) -> Result<Option<(BoardEntry, &'a str)>, AllocError>
    // What is read prints as the line.
    ensures found { IfOk result (λ r. IfSome r (λ p. text.now ≡ board_line p.0 ++ p.1.now)) }
    ensures fits { IfOk result (λ r. IfSome r (λ p. IsBoardEntry p.0)) }
    // What prints as the line is read.
    ensures only { IfOk result (λ r. (e : entry.BoardEntry) (rest : List ℕ) → IsBoardEntry e → text.now ≡ board_line e ++ rest → IsSomeAnd r (λ p. (p.0 ≡ e) × (p.1.now ≡ rest))) }
{
    let (line, _) = cut(text, '\n');
    let entry = entry_of(line);
    scratch.clear();
    write_board_entry(scratch, &entry)?;
    match after(text, scratch.as_str()) {
        Some(rest) => Ok(Some((entry, rest))),
        None => Ok(None),
    }
}
