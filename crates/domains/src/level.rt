//! The requested protection level of a file.

ghost use Rattle.std.specs.Prelude.{◌≡◌, ◌≢◌, ◌↔◌, ◌+◌, ◌*◌, ◌≤◌, IsTrue, IfOk, IfErr, Ok};
ghost use Rattle.domains.specs.Level.{Level, IsLevel, Bears, two_copies, level_name};

use std::fmt;
use std::marker::Model;
use thiserror::Error;

// The table of levels: the name of each and its w, m and k. The macro named makes a match of it.
macro_rules! levels {
    ($made:ident, $value:expr) => {
        $made! {
            $value;
            "+1n" 16 1 1,
            "+2n" 16 2 1,
            "+3n" 16 3 1,
            "+4n" 16 4 1,
            "+2d:1n" 16 2 2,
            "+3d:1n" 16 3 3,
            "+4d:1n" 16 4 4,
            "+4d:2n" 16 4 2,
            "+3d:1n1d" 16 3 2,
            "2x" 1 1 1,
            "3x" 1 2 1,
            "4x" 1 3 1,
            "5x" 1 4 1,
            "6x" 1 5 1,
            "7x" 1 6 1,
            "8x" 1 7 1
        }
    };
}

// The name of the level with these numbers.
macro_rules! name_of {
    ($numbers:expr; $($name:literal $w:literal $m:literal $k:literal),*) => {
        match $numbers {
            $(($w, $m, $k) => $name,)*
            _ => unreachable!(),
        }
    };
}

// The level of this name.
macro_rules! level_of {
    ($text:expr; $($name:literal $w:literal $m:literal $k:literal),*) => {
        match $text {
            $($name => Ok(Level { w: $w, m: $m, k: $k }),)*
            _ => Err(NotALevel),
        }
    };
}

/// A protection level: at most `w` data units in a group, `m` correction units, at most `k` units of a group on a node.
/// It is always a row of the table of levels (docs/FORMATS.md, "Levels").
#[derive(Clone, Copy, Debug, PartialEq, Eq)]
pub struct Level {
    w: u8,
    m: u8,
    k: u8,
}

/// A text that names no level.
#[derive(Clone, Copy, Debug, PartialEq, Eq, Error)]
#[error("no protection level has this name")]
pub struct NotALevel;

impl Model for Level {
    ghost use Rattle.domains.specs.Level.{Level, IsLevel};

    ghost Value = { Level };

    ghost view = { λ l. record { w = l.w; m = l.m; k = l.k } };

    ghost invariant = { λ l. IsLevel (record { w = l.w; m = l.m; k = l.k }) };

    ghost inverse = { λ l. record { w = l.w; m = l.m; k = l.k } };
}

impl Level {
    /// The level `2x`: two copies, on two nodes.
    pub fn two_copies() -> Level
        ensures { result ≡ two_copies }
    {
        Level { w: 1, m: 1, k: 1 }
    }

    /// Its name, the one spelling.
    pub fn name(&self) -> &'static str
        ensures { result.now ≡ level_name self.now }
    {
        levels!(name_of, (self.w, self.m, self.k))
    }

    /// The level that a text names. Any text but the sixteen names, also one with a blank beside a name, is `NotALevel`.
    pub fn read(text: &str) -> Result<Level, NotALevel>
        ensures named { IfOk result (λ level. level_name level ≡ text.now) }
        ensures every { (level : Level) → IsLevel level → level_name level ≡ text.now → result ≡ Ok level }
        ensures refused { IfErr result (λ e. (level : Level) → IsLevel level → level_name level ≢ text.now) }
    {
        levels!(level_of, text)
    }

    /// Whether a group at the level keeps its data after it loses any `nodes` nodes and any `drives` drives of others
    /// (docs/LEVELS.md; `laws::levels_bear_their_losses`).
    pub fn bears(&self, nodes: u8, drives: u8) -> bool
        ensures { IsTrue result ↔ Bears self.now nodes drives }
    {
        u16::from(nodes) * u16::from(self.k) + u16::from(drives) <= u16::from(self.m)
    }

    /// The most data units of a group: 1 for mirrors, else 16.
    pub fn w(self) -> u8
        ensures value { result ≡ self.w }
        ensures level { IsLevel self }
    {
        self.w
    }

    /// The correction units of a group.
    pub fn m(self) -> u8
        ensures value { result ≡ self.m }
        ensures level { IsLevel self }
    {
        self.m
    }

    /// The most units of a group on one node.
    pub fn k(self) -> u8
        ensures value { result ≡ self.k }
        ensures level { IsLevel self }
    {
        self.k
    }
}
