//! The scenario of the first form that a scenario of the whole language is.

ghost use Rattle.std.specs.Prelude.{◌≡◌, ◌↔◌, ◌≤◌, ◌*◌, ◌^◌, ◌∷◌, [], ℕ, List, IsTrue, IfOk};
ghost use Rattle.std.specs.Result.{IsErrOf};
ghost use Rattle.domains.specs.Level.{two_copies};
ghost use Rattle.domains.specs.Shape.{IsShape};
ghost use Rattle.scenario.specs.Words.{IsName};
ghost use Rattle.scenario.specs.declared.op.Op.{Op};
ghost use Rattle.scenario.specs.declared.scenario.Scenario.{Scenario};
ghost use Rattle.first_form.specs.FirstForm.{IsFirstForm, IsFirstScript};
ghost use Rattle.first_form.specs.Wholes.{IsPlainOf};

use crate::plain::{FormFault, plain_scripts};
use crate::script::is_first_script;
use domains::{Level, Shape};
use scenario::{FileDecl, Scenario, Script};
use std::alloc::Global;
use whole_scenario as whole;

/// The scenario as a plain one, if it is of the first form. `Past` says that it is not.
pub fn plain_of(alloc: Global, scenario: whole::Scenario) -> Result<Scenario, FormFault>
    ensures found { IfOk result (IsPlainOf scenario) }
    ensures past { IsErrOf result FormFault.Past → (s : Scenario) → IsPlainOf scenario s → ⊥ }
{
    let whole::Scenario {
        shape,
        workers,
        files,
        jobs,
        actors,
    } = scenario;
    if !jobs.is_empty() {
        return Err(FormFault::Past);
    }
    let actors = plain_scripts(alloc, actors)?;
    checked(Scenario {
        shape,
        workers,
        files,
        actors,
    })
}

/// The scenario, if it is of the first form.
fn checked(plain: Scenario) -> Result<Scenario, FormFault>
    ensures found { IfOk result (λ s. (s ≡ plain) × IsFirstForm s) }
    ensures past { IsErrOf result FormFault.Past → IsFirstForm plain → ⊥ }
{
    if is_first_form(&plain) {
        Ok(plain)
    } else {
        Err(FormFault::Past)
    }
}

/// Whether the scenario is of the first form.
fn is_first_form(scenario: &Scenario) -> bool
    ensures { IsTrue result ↔ IsFirstForm scenario.now }
{
    let shape = scenario.shape;
    if !has_room(shape) {
        return false;
    }
    if scenario.workers != 1 {
        return false;
    }
    is_one_mirror(scenario.files.as_slice()) && is_one_script(shape, scenario.actors.as_slice())
}

/// Whether a drive has room for what a run may take, and all slots together are within their limit.
fn has_room(shape: Shape) -> bool
    ensures cluster { IsShape shape }
    ensures room { IsTrue result ↔ ((3 ≤ shape.slots) × (shape.nodes * shape.drives * shape.slots * shape.unit ≤ 2 ^ 30)) }
{
    shape.slots() >= 3 && bytes_of(shape) <= 1 << 30
}

/// The bytes of all slots.
fn bytes_of(shape: Shape) -> u64
    ensures { result ≡ shape.nodes * shape.drives * shape.slots * shape.unit }
{
    let drives = u32::from(shape.nodes()) * u32::from(shape.drives());
    u64::from(drives * u32::from(shape.slots())) * u64::from(shape.unit())
}

/// Whether this is one file, of two copies.
fn is_one_mirror(files: &[FileDecl]) -> bool
    ensures { IsTrue result ↔ ((name : List ℕ) × IsName name × (files.now ≡ record { name = name; level = two_copies } ∷ [])) }
{
    match files {
        [file] => is_mirror(file),
        _ => false,
    }
}

fn is_mirror(file: &FileDecl) -> bool
    ensures level { IsTrue result ↔ (file.now.level ≡ two_copies) }
    ensures name { IsName file.now.name }
{
    let _name = file.name.as_str();
    file.level == Level::two_copies()
}

/// Whether these are the operations of one actor, and of the first form.
fn is_one_script(shape: Shape, actors: &[Script]) -> bool
    ensures { IsTrue result ↔ ((script : List Op) × (actors.now ≡ script ∷ []) × IsFirstScript shape script) }
{
    match actors {
        [script] => is_first_script(shape, script.as_slice()),
        _ => false,
    }
}
