//! The judge of a board's log.

ghost use Rattle.std.specs.Prelude.{◌≡◌, ◌<◌, ◌^◌, length, IfOk};
ghost use Rattle.board_judge.specs.Orders.{IsFirstIllegal};

use crate::operations::fits_order;
use crate::steps::takes;
use board::{Board, BoardEntry};
use std::alloc::{AllocError, Global};
use whole_scenario::Scenario;

/// The number, from 1, of the first entry of the board's log that is not legal, if there is one.
pub fn first_illegal_order(
    alloc: Global,
    scenario: &Scenario,
    log: &[BoardEntry],
) -> Result<Option<u32>, AllocError>
    requires { length log.now < 2 ^ 32 }
    ensures { IfOk result (IsFirstIllegal scenario.now log.now) }
{
    let mut board = Board::new(alloc, scenario.shape, log.len() as u32)?;
    board.reserve(log.len() as u32).map_err(|_| AllocError)?;
    let mut number = 0;
    for entry in log {
        number += 1;
        if !fits_order(scenario, entry) {
            return Ok(Some(number));
        }
        if !takes(&mut board, scenario.shape, entry) {
            return Ok(Some(number));
        }
    }
    Ok(None)
}
