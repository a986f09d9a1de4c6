//! The kinds of jobs: one table (docs/FORMATS.md, "Jobs"), from which each property of a kind is made.

ghost use Rattle.std.specs.Prelude.{◌≡◌, ℕ, ◌<◌, Some, IfSome};
ghost use Rattle.job_rules.specs.Kinds.{code_of, name_of, phase_at, priority_of, sets_of};

use crate::phase::Phase;

/// A kind of job.
#[derive(Clone, Copy, Debug, PartialEq, Eq)]
pub enum JobKind {
    FlexProtect,
    AutoBalance,
    SetProtectPlus,
    Collect,
    MultiScan,
    Upgrade,
    IntegrityScan,
    MediaScan,
    SmartPools,
    SyncCopy,
}

/// The exclusion sets that a kind of job is in, through all its phases.
#[derive(Clone, Copy, Debug, PartialEq, Eq)]
pub struct Sets {
    pub restripe: bool,
    pub mark: bool,
}

// The table of kinds: the code of each in a checkpoint, its name, whether it is in the restripe set and in the mark set,
// its default priority, and its phases. The macro named makes a match of it.
macro_rules! kinds {
    ($made:ident, $value:expr) => {
        $made! {
            $value;
            FlexProtect 0 "FlexProtect" true false 1 [0 Repair, 1 Verify, 2 Release],
            AutoBalance 1 "AutoBalance" true false 4 [0 Balance],
            SetProtectPlus 2 "SetProtectPlus" true false 6 [0 Apply],
            Collect 3 "Collect" false true 4 [0 Mark, 1 Sweep],
            MultiScan 4 "MultiScan" true true 4 [0 Balance, 1 Mark, 2 Sweep],
            Upgrade 5 "Upgrade" false false 3 [0 Rewrite],
            IntegrityScan 6 "IntegrityScan" false true 1 [0 Check],
            MediaScan 7 "MediaScan" true false 8 [0 Scan],
            SmartPools 8 "SmartPools" true false 6 [0 Pool],
            SyncCopy 9 "SyncCopy" false false 5 [0 Copy]
        }
    };
}

// Each macro below makes one property of a kind, or the kind that has it.
macro_rules! sets {
    ($kind:expr; $($variant:ident $code:literal $name:literal $restripe:literal $mark:literal $priority:literal [$($phases:tt)*]),*) => {
        match $kind {
            $(JobKind::$variant => Sets { restripe: $restripe, mark: $mark },)*
        }
    };
}

macro_rules! priority {
    ($kind:expr; $($variant:ident $code:literal $name:literal $restripe:literal $mark:literal $priority:literal [$($phases:tt)*]),*) => {
        match $kind {
            $(JobKind::$variant => $priority,)*
        }
    };
}

macro_rules! name {
    ($kind:expr; $($variant:ident $code:literal $name:literal $restripe:literal $mark:literal $priority:literal [$($phases:tt)*]),*) => {
        match $kind {
            $(JobKind::$variant => $name,)*
        }
    };
}

macro_rules! named {
    ($text:expr; $($variant:ident $code:literal $name:literal $restripe:literal $mark:literal $priority:literal [$($phases:tt)*]),*) => {
        match $text {
            $($name => Some(JobKind::$variant),)*
            _ => None,
        }
    };
}

macro_rules! code {
    ($kind:expr; $($variant:ident $code:literal $name:literal $restripe:literal $mark:literal $priority:literal [$($phases:tt)*]),*) => {
        match $kind {
            $(JobKind::$variant => $code,)*
        }
    };
}

macro_rules! coded {
    ($number:expr; $($variant:ident $code:literal $name:literal $restripe:literal $mark:literal $priority:literal [$($phases:tt)*]),*) => {
        match $number {
            $($code => Some(JobKind::$variant),)*
            _ => None,
        }
    };
}

macro_rules! phase {
    ($place:expr; $($variant:ident $code:literal $name:literal $restripe:literal $mark:literal $priority:literal [$($number:literal $phase:ident),*]),*) => {
        match $place {
            $($((JobKind::$variant, $number) => Some(Phase::$phase),)*)*
            _ => None,
        }
    };
}

impl JobKind {
    pub fn sets(self) -> Sets
        ensures { result ≡ sets_of self }
    {
        kinds!(sets, self)
    }

    /// The priority of a job that is started with none given: 1 is served first, 10 last.
    pub fn default_priority(self) -> u8
        ensures { result ≡ priority_of self }
    {
        kinds!(priority, self)
    }

    /// Its name in scenarios and reports.
    pub fn name(self) -> &'static str
        ensures { result.now ≡ name_of self }
    {
        kinds!(name, self)
    }

    /// The kind of this name. A text that is no name has none.
    pub fn read(text: &str) -> Option<JobKind>
        ensures found { IfSome result (λ kind. name_of kind ≡ text.now) }
        ensures only { (kind : JobKind) → name_of kind ≡ text.now → result ≡ Some kind }
    {
        kinds!(named, text)
    }

    /// Its number in a checkpoint: its place in the table, from 0.
    pub fn code(self) -> u8
        ensures { result ≡ code_of self }
    {
        kinds!(code, self)
    }

    /// The kind of this number. A number from 10 on has none.
    pub fn of_code(code: u8) -> Option<JobKind>
        ensures found { IfSome result (λ kind. code_of kind ≡ code) }
        ensures only { (kind : JobKind) → code_of kind ≡ code → result ≡ Some kind }
    {
        kinds!(coded, code)
    }

    /// Its phase of this number, from 0. A number past its last phase has none.
    pub fn phase(self, number: u8) -> Option<Phase>
        ensures { result ≡ phase_at self number }
    {
        kinds!(phase, (self, number))
    }
}
