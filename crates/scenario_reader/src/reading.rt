//! Reads a scenario.

ghost use Rattle.std.specs.Prelude.{◌≡◌, ◌≤◌, length, None, All, IfOk, IfErr};
ghost use Rattle.operation_rules.specs.FirstPlaces.{first_where};
ghost use Rattle.operation_rules.specs.OpRules.{is_outside, started_in};
ghost use Rattle.scenario_reader.specs.Answers.{Answers, SpellsScenario};
ghost use Rattle.scenario_reader.specs.Resolved.{IsActor, scenario_of};
ghost use Rattle.scenario_rules.specs.Rules.{IsTextFault};
ghost use Rattle.whole_scenario.specs.declared.whole.Scenario.{Scenario};

use crate::jobs::job_names;
use crate::numbers::{file_numbers, job_numbers};
use crate::scripts::scripts_of;
use scenario_rules::{NamedScenario, ScenarioFault, read_named};
use std::alloc::{AllocError, Global};
use whole_scenario::Scenario;

/// The scenario that the text spells, if it keeps all rules (docs/FORMATS.md, "Rules of a scenario"). Any other text is
/// `Bad`, with the first rule that it breaks and the first place that breaks it.
pub fn read(alloc: Global, text: &str) -> Result<Scenario, ScenarioFault>
    ensures found { IfOk result (SpellsScenario text.now) }
    ensures only { (s : Scenario) → SpellsScenario text.now s → Answers result s }
    ensures refused { IfErr result (IsTextFault text.now) }
{
    let named = read_named(alloc, text)?;
    match resolved(alloc, named) {
        Ok(scenario) => Ok(scenario),
        Err(_) => Err(ScenarioFault::NoMemory),
    }
}

/// The scenario by the numbers of its files and jobs.
fn resolved(alloc: Global, named: NamedScenario) -> Result<Scenario, AllocError>
    requires files { length named.files ≤ 256 }
    requires jobs { length (started_in named.ops) ≤ 64 }
    requires inside { first_where (is_outside named.shape) named.ops ≡ None }
    requires actors { All (IsActor named.actors) named.ops }
    ensures { IfOk result (λ scenario. scenario ≡ scenario_of named) }
{
    let NamedScenario {
        shape,
        workers,
        files,
        actors,
        ops,
    } = named;
    let jobs = job_names(alloc, ops.as_slice())?;
    let places = file_numbers(alloc, files.as_slice())?;
    let started = job_numbers(alloc, jobs.as_slice())?;
    let actors = scripts_of(alloc, &places, &started, shape, actors, ops)?;
    Ok(Scenario {
        shape,
        workers,
        files,
        jobs,
        actors,
    })
}
