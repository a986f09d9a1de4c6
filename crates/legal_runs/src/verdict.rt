//! What the logs of a run are judged to be.

/// What some logs are: a legal run of their scenario, or the first part of them that is broken. Files count from 0 in scenario order,
/// entries, actors and operations from 1. `docs/DEFINITIONS.md`, "Legal runs", says when a part is broken.
#[derive(Clone, Copy, Debug, PartialEq, Eq)]
pub enum Verdict {
    Legal,
    /// The first entry of the board's log that is not legal.
    Board { at: u32 },
    /// The first file with an entry that is not legal, and its first such entry.
    File { file: u16, at: u32 },
    /// The first actor of which an operation, or a worker's call, breaks a rule, and the first that does.
    Actor { actor: u8, at: u32 },
}
