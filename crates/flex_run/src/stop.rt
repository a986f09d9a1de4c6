//! Why the program ends without a report.

ghost use Rattle.std.specs.Prelude.{◌≡◌, ◌++◌, IfOk, OnOk, string_bytes};
ghost use Rattle.flex_run.specs.RefusedSources.{refusal_line};

use operation_rules::Place;
use scenario_rules::BadScenario;
use std::alloc::{AllocError, Global};
use std::fmt::Write;

/// The status where the sink failed.
pub(crate) const SINK_FAILED: u8 = 5;

/// The status where memory ran out.
pub(crate) const NO_MEMORY: u8 = 6;

/// Why there is no report (docs/FORMATS.md, "Statuses"). Memory may run out anywhere.
#[derive(Clone, Copy, Debug, PartialEq, Eq)]
pub(crate) enum RunStop {
    /// The words are not accepted.
    Words,
    /// The source failed.
    Read,
    /// The source gave more than its limit.
    Long,
    /// The source breaks a rule of scenarios, or spells one that is not played.
    Scenario(BadScenario),
    /// The rack or a slot failed.
    Rack,
    Memory,
}

/// The line that names the rule and the place.
pub(crate) fn refusal_line(alloc: Global, bad: BadScenario) -> Result<String, AllocError>
    ensures { IfOk result (λ line. string_bytes line ≡ refusal_line bad) }
{
    let mut line = String::new(alloc);
    write_refusal(&mut line, bad)?;
    Ok(line)
}

#[tactic(auto, unfolding(crate::specs::RefusedSources::refusal_line))]
fn write_refusal(line: &mut String, bad: BadScenario) -> Result<(), AllocError>
    ensures { OnOk result (string_bytes line.new ≡ string_bytes line.old ++ refusal_line bad) }
{
    let Place { actor, op } = bad.place;
    writeln!(line, "fault scenario {} {actor} {op}", bad.rule.word())
}
