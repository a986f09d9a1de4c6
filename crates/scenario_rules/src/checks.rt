//! Tries the rules in their order.

ghost use Rattle.std.specs.Prelude.{◌≡◌, ◌≤◌, [], length, None, All, IfOk, IfErr, IsOk};
ghost use Rattle.operation_rules.specs.FirstPlaces.{first_where, first_misnamed};
ghost use Rattle.operation_rules.specs.OpRules.{file_names, is_undeclared, started_in};
ghost use Rattle.scenario_rules.specs.Actors.{no_place};
ghost use Rattle.scenario_rules.specs.Files.{AreFiles, AreFilesOf};
ghost use Rattle.scenario_rules.specs.Numbers.{shape_in, workers_in};
ghost use Rattle.scenario_rules.specs.Places.{all_places, AreOps};
ghost use Rattle.scenario_rules.specs.declared.rule.Rule.TheVariants as rule;
ghost use Rattle.scenario_rules.specs.Rules.{AllKept, IsBroken, IsFaultOf, IsFileFault, IsOpFault, IsBadAt, OpsBreak, cluster_rules, number_rules, op_rules};

use crate::actors::broken_actors;
use crate::files::{FileStop, files_of};
use crate::numbers::shape_of;
use crate::placing::{OpStop, place_all};
use crate::rule::{BadScenario, Rule, ScenarioFault};
use domains::Shape;
use lists::List;
use operation_rules::{
    Place, PlacedOp, first_misnamed_job, first_outside, first_start_too_many, first_too_long,
    first_unbuilt, first_undeclared,
};
use scenario::FileDecl;
use scenario_table::{Draft, Word};
use std::alloc::Global;

/// What a table says but for its operations.
#[derive(Drop)]
pub(crate) struct Outline {
    pub(crate) shape: Shape,
    pub(crate) workers: u8,
    pub(crate) files: List<FileDecl>,
}

/// Tries the rules before that of the operations' texts.
pub(crate) fn outline_of(alloc: Global, draft: &Draft) -> Result<Outline, ScenarioFault>
    ensures shape { IfOk result (λ o. (o.shape ≡ shape_in draft.now) × (o.workers ≡ workers_in draft.now)) }
    ensures files { IfOk result (λ o. AreFilesOf draft.now.files o.files) }
    ensures few { IsOk result → length draft.now.actors ≤ 16 }
    ensures short { IsOk result → All (λ ops. length ops ≤ 4096) draft.now.actors }
    ensures kept { IsOk result → AllKept (IsBroken draft.now) cluster_rules }
    ensures refused { IfErr result (IsFaultOf (IsBroken draft.now) cluster_rules) }
{
    let numbers = numbers_checked(draft)?;
    let files = files_checked(alloc, draft)?;
    unbroken(Rule::Actors, broken_actors(draft.actors.as_slice()))?;
    Ok(Outline {
        shape: numbers.0,
        workers: numbers.1,
        files,
    })
}

fn numbers_checked(draft: &Draft) -> Result<(Shape, u8), ScenarioFault>
    ensures shape { IfOk result (λ p. (p.0 ≡ shape_in draft.now) × (p.1 ≡ workers_in draft.now)) }
    ensures kept { IsOk result → AllKept (IsBroken draft.now) number_rules }
    ensures refused { IfErr result (IsFaultOf (IsBroken draft.now) number_rules) }
{
    match shape_of(draft) {
        Ok(numbers) => Ok(numbers),
        Err(rule) => Err(bad_table(rule)),
    }
}

fn files_checked(alloc: Global, draft: &Draft) -> Result<List<FileDecl>, ScenarioFault>
    ensures found { IfOk result (AreFilesOf draft.now.files) }
    ensures kept { IsOk result → AreFiles draft.now.files }
    ensures refused { IfErr result (IsFileFault draft.now) }
{
    match files_of(alloc, draft.files.as_slice()) {
        Ok(files) => Ok(files),
        Err(FileStop::Broken) => Err(bad_table(Rule::Files)),
        Err(FileStop::NoMemory) => Err(ScenarioFault::NoMemory),
    }
}

/// The fault of a rule that no operation breaks.
fn bad_table(rule: Rule) -> ScenarioFault
    ensures { result ≡ ScenarioFault.Bad (record { rule = rule; place = no_place }) }
{
    let place = Place { actor: 0, op: 0 };
    ScenarioFault::Bad(BadScenario { rule, place })
}

/// The fault that the rule is broken at the place, if there is one.
fn unbroken(rule: Rule, place: Option<Place>) -> Result<(), ScenarioFault>
    ensures kept { IsOk result → place ≡ None }
    ensures broken { IfErr result (IsBadAt rule place) }
{
    match place {
        Some(place) => Err(ScenarioFault::Bad(BadScenario { rule, place })),
        None => Ok(()),
    }
}

/// Tries the rules that speak of the operations of a scenario.
pub(crate) fn check_ops(
    alloc: Global,
    shape: Shape,
    files: &[FileDecl],
    ops: &[PlacedOp],
) -> Result<(), ScenarioFault>
    ensures kept { IsOk result → AllKept (OpsBreak shape (file_names files.now) ops.now) op_rules }
    ensures refused { IfErr result (IsFaultOf (OpsBreak shape (file_names files.now) ops.now) op_rules) }
{
    names_declared(alloc, files, ops)?;
    unbroken(Rule::Drive, first_outside(shape, ops))?;
    jobs_named(alloc, ops)?;
    unbroken(Rule::Jobs, first_start_too_many(ops))?;
    unbroken(Rule::Reads, first_too_long(ops))?;
    unbroken(Rule::Unbuilt, first_unbuilt(ops))
}

fn names_declared(alloc: Global, files: &[FileDecl], ops: &[PlacedOp]) -> Result<(), ScenarioFault>
    ensures kept { IsOk result → first_where (is_undeclared (file_names files.now)) ops.now ≡ None }
    ensures broken { IfErr result (IsBadAt rule.Name (first_where (is_undeclared (file_names files.now)) ops.now)) }
{
    match first_undeclared(alloc, files, ops) {
        Ok(place) => unbroken(Rule::Name, place),
        Err(_) => Err(ScenarioFault::NoMemory),
    }
}

fn jobs_named(alloc: Global, ops: &[PlacedOp]) -> Result<(), ScenarioFault>
    ensures kept { IsOk result → first_misnamed ops.now (started_in ops.now) [] ≡ None }
    ensures broken { IfErr result (IsBadAt rule.Job (first_misnamed ops.now (started_in ops.now) [])) }
{
    match first_misnamed_job(alloc, ops) {
        Ok(place) => unbroken(Rule::Job, place),
        Err(_) => Err(ScenarioFault::NoMemory),
    }
}

/// The operations that the texts spell, each at its place.
pub(crate) fn ops_checked(
    alloc: Global,
    actors: &[List<Word>],
) -> Result<List<PlacedOp>, ScenarioFault>
    requires few { length actors.now ≤ 16 }
    requires short { All (λ ops. length ops ≤ 4096) actors.now }
    ensures found { IfOk result (AreOps (all_places actors.now 1)) }
    ensures refused { IfErr result (IsOpFault (all_places actors.now 1)) }
{
    match place_all(alloc, actors) {
        Ok(ops) => Ok(ops),
        Err(OpStop::NoOp(place)) => Err(ScenarioFault::Bad(BadScenario {
            rule: Rule::Op,
            place,
        })),
        Err(OpStop::NoMemory) => Err(ScenarioFault::NoMemory),
    }
}
