//! The rules of scenarios.

ghost use Rattle.std.specs.Prelude.{◌≡◌};
ghost use Rattle.scenario_rules.specs.RuleWords.{word_of};

use operation_rules::Place;
use thiserror::Error;

/// The rules that a scenario keeps, in the order in which they are tried (docs/FORMATS.md, "Rules of a scenario").
#[derive(Clone, Copy, Debug, PartialEq, Eq)]
pub enum Rule {
    /// The source is UTF-8. It is tried where the bytes are read.
    Utf8,
    /// The text is TOML.
    Toml,
    /// The table has the keys and kinds of values of a scenario.
    Keys,
    /// Each number is within its limits.
    Range,
    /// There are at most 200 drives.
    Drives,
    /// All slots have at most 2^30 bytes.
    Space,
    /// There are 1 to 256 files, with names, no two of them equal, and levels.
    Files,
    /// There are 1 to 16 actors, none with more than 4,096 operations.
    Actors,
    /// Each operation is one of the table of operations.
    Op,
    /// Each file of an operation is declared.
    Name,
    /// Each node and drive of an operation is in the cluster.
    Drive,
    /// No job is started twice, and each job that is used is started.
    Job,
    /// There are at most 64 starts.
    Jobs,
    /// All reads have at most 16,777,216 bytes, and all writes at most 268,435,456.
    Reads,
    /// What the text asks for is built.
    Unbuilt,
}

impl Rule {
    /// The word by which a refusal names the rule.
    pub fn word(self) -> &'static str
        ensures { result.now ≡ word_of self }
    {
        match self {
            Rule::Utf8 => "utf8",
            Rule::Toml => "toml",
            Rule::Keys => "keys",
            Rule::Range => "range",
            Rule::Drives => "drives",
            Rule::Space => "space",
            Rule::Files => "files",
            Rule::Actors => "actors",
            Rule::Op => "op",
            Rule::Name => "name",
            Rule::Drive => "drive",
            Rule::Job => "job",
            Rule::Jobs => "jobs",
            Rule::Reads => "reads",
            Rule::Unbuilt => "unbuilt",
        }
    }
}

/// The first rule that a text breaks, with the place of the first operation that breaks it, or 0 and 0.
#[derive(Clone, Copy, Debug, PartialEq, Eq)]
pub struct BadScenario {
    pub rule: Rule,
    pub place: Place,
}

/// Why a text is not read as a scenario.
#[derive(Clone, Copy, Debug, PartialEq, Eq, Error)]
pub enum ScenarioFault {
    #[error("the text breaks a rule of scenarios")]
    Bad(BadScenario),
    #[error("out of memory")]
    NoMemory,
}
