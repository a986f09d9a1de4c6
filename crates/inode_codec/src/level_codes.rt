//! The code of a level: its place in the table of levels, from 0.

ghost use Rattle.std.specs.Prelude.{◌≡◌, ◌<◌};
ghost use Rattle.domains.specs.Level.{IsLevel, level_name};
ghost use Rattle.inode_codec.specs.Inode.{level_code};
ghost use Rattle.inode_codec.specs.InodeReader.{level_at};

use domains::Level;

// The codes, each with the name of its level and its numbers w, m and k. The macro named makes a match of it.
macro_rules! codes {
    ($made:ident, $value:expr) => {
        $made! {
            $value;
            0 "+1n" 16 1 1,
            1 "+2n" 16 2 1,
            2 "+3n" 16 3 1,
            3 "+4n" 16 4 1,
            4 "+2d:1n" 16 2 2,
            5 "+3d:1n" 16 3 3,
            6 "+4d:1n" 16 4 4,
            7 "+4d:2n" 16 4 2,
            8 "+3d:1n1d" 16 3 2,
            9 "2x" 1 1 1,
            10 "3x" 1 2 1,
            11 "4x" 1 3 1,
            12 "5x" 1 4 1,
            13 "6x" 1 5 1,
            14 "7x" 1 6 1,
            15 "8x" 1 7 1
        }
    };
}

// The code of the level with these numbers.
macro_rules! code_of {
    ($numbers:expr; $($code:literal $name:literal $w:literal $m:literal $k:literal),*) => {
        match $numbers {
            $(($w, $m, $k) => $code,)*
            _ => unreachable!(),
        }
    };
}

// The name of the level of this code.
macro_rules! name_of {
    ($code:expr; $($number:literal $name:literal $w:literal $m:literal $k:literal),*) => {
        match $code {
            $($number => $name,)*
            _ => unreachable!(),
        }
    };
}

/// The code of a level.
pub(crate) fn code_of(level: Level) -> u8
    ensures { result ≡ level_code level }
{
    row_code(level.w(), level.m(), level.k())
}

/// The code of the row of these numbers.
fn row_code(w: u8, m: u8, k: u8) -> u8
    requires { IsLevel (record { w = w; m = m; k = k }) }
    ensures { result ≡ level_code (record { w = w; m = m; k = k }) }
{
    codes!(code_of, (w, m, k))
}

/// The level of a code.
pub(crate) fn level_of(code: u8) -> Level
    requires { code < 16 }
    ensures level { result ≡ level_at code }
    ensures code { level_code result ≡ code }
{
    match Level::read(name_of(code)) {
        Ok(level) => level,
        Err(_) => unreachable!(),
    }
}

/// The name of the level of a code.
fn name_of(code: u8) -> &'static str
    requires { code < 16 }
    ensures { result.now ≡ level_name (level_at code) }
{
    codes!(name_of, code)
}
