//! The logs of a run.

use board_history::BoardEntry;
use file_history::FileLog;
use lists::List;
use whole_scenario::Scenario;

/// What a run of the scenario logged: the board's entries, and those of each file in scenario order.
#[derive(Debug, Drop)]
pub struct Logs {
    pub scenario: Scenario,
    pub board: List<BoardEntry>,
    pub files: List<FileLog>,
}
