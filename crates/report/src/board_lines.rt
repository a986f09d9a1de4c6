//! The lines of the board's log (docs/FORMATS.md, "Report").

ghost use Rattle.std.specs.Prelude.{◌≡◌, ◌++◌, string_bytes, OnOk};
ghost use Rattle.report.specs.BoardLines.{state_text, effect_text, order_text, board_line, board_lines};

use crate::words::{write_by, write_drive, write_number};
use board_history::{BoardEntry, Effect, Order, State};
use std::alloc::AllocError;

pub(crate) fn write_entries(text: &mut String, log: &[BoardEntry]) -> Result<(), AllocError>
    ensures { OnOk result (string_bytes text.new ≡ string_bytes text.old ++ board_lines log.now) }
{
    for entry in log {
        write_board_entry(text, entry)?;
    }
    Ok(())
}

/// Adds the line of an entry of the board.
#[tactic(auto, unfolding(crate::specs::BoardLines::board_line))]
pub fn write_board_entry(text: &mut String, entry: &BoardEntry) -> Result<(), AllocError>
    ensures { OnOk result (string_bytes text.new ≡ string_bytes text.old ++ board_line entry.now) }
{
    write_by(text, entry.by)?;
    text.push(' ')?;
    write_order(text, entry.order)?;
    text.push(' ')?;
    write_effect(text, entry.effect)?;
    text.push('\n')
}

#[tactic(auto, unfolding(crate::specs::BoardLines::order_text))]
fn write_order(text: &mut String, order: Order) -> Result<(), AllocError>
    ensures { OnOk result (string_bytes text.new ≡ string_bytes text.old ++ order_text order) }
{
    match order {
        Order::Fail(drive) => {
            text.push_str("fail ")?;
            write_drive(text, drive)
        }
        Order::FailNode(node) => {
            text.push_str("failnode ")?;
            write_number(text, u64::from(node.number()))
        }
        Order::Down(drive) => {
            text.push_str("down ")?;
            write_drive(text, drive)
        }
        Order::Up(drive) => {
            text.push_str("up ")?;
            write_drive(text, drive)
        }
    }
}

#[tactic(auto, unfolding(crate::specs::BoardLines::effect_text))]
fn write_effect(text: &mut String, effect: Effect) -> Result<(), AllocError>
    ensures { OnOk result (string_bytes text.new ≡ string_bytes text.old ++ effect_text effect) }
{
    match effect {
        Effect::Changed => text.push_str("changed"),
        Effect::NoChange { is } => {
            text.push_str("nochange ")?;
            text.push_str(state_text(is))
        }
    }
}

fn state_text(state: State) -> &'static str
    ensures { result.now ≡ state_text state }
{
    match state {
        State::Up => "up",
        State::Down => "down",
        State::Gone => "gone",
    }
}
