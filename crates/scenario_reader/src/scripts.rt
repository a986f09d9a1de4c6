//! The operations of each actor.

ghost use Rattle.std.specs.Prelude.{◌≡◌, ◌≤◌, ◌-◌, ℕ, List, [], None, All, replicate, vec_len, IfOk, OnOk};
ghost use Rattle.std.specs.BTreeMap.{get_by_text};
ghost use Rattle.operation_rules.specs.FirstPlaces.{first_where};
ghost use Rattle.operation_rules.specs.OpRules.{is_outside};
ghost use Rattle.operation_rules.specs.declared.place.PlacedOp.{PlacedOp};
ghost use Rattle.scenario_reader.specs.Numbers.{place_of};
ghost use Rattle.scenario_reader.specs.Resolved.{IsActor, pushed, scripts_in};
ghost use Rattle.whole_scenario.specs.declared.op.Op.{Op};

use crate::numbers::NameNumbers;
use crate::op::op_of;
use domains::Shape;
use lists::List as Ops;
use operation_rules::PlacedOp;
use std::alloc::{AllocError, Global};
use whole_scenario::{Op, Script};

/// The scripts of this many actors, with their operations by the numbers of files and jobs.
pub(crate) fn scripts_of(
    alloc: Global,
    files: &NameNumbers,
    jobs: &NameNumbers,
    shape: Shape,
    actors: usize,
    ops: Ops<PlacedOp>,
) -> Result<Ops<Script>, AllocError>
    requires inside { first_where (is_outside shape) ops ≡ None }
    requires actors { All (IsActor actors) ops }
    ensures { IfOk result (λ scripts. (names started : List (List ℕ)) → ((q : List ℕ) → get_by_text files.now.numbers q ≡ place_of names 0 q) → ((q : List ℕ) → get_by_text jobs.now.numbers q ≡ place_of started 1 q) → scripts ≡ scripts_in names started ops 1 actors) }
{
    let mut scripts = empty_scripts(alloc, actors)?;
    for placed in ops.into_vec() {
        let op = op_of(files, jobs, shape, placed.what);
        add_op(&mut scripts, placed.place.actor, op)?;
    }
    Ok(Ops::from_vec(scripts))
}

/// Scripts without operations.
fn empty_scripts(alloc: Global, actors: usize) -> Result<Vec<Script>, AllocError>
    ensures { IfOk result (λ scripts. scripts.items ≡ replicate actors []) }
{
    let mut scripts = Vec::new(alloc);
    for _actor in 0..actors {
        scripts.push(Ops::new(alloc))?;
    }
    Ok(scripts)
}

/// Adds an operation to the script of an actor, from 1.
fn add_op(scripts: &mut Vec<Script>, actor: u8, op: Op) -> Result<(), AllocError>
    requires some { 1 ≤ actor }
    requires few { actor ≤ vec_len scripts.old }
    ensures { OnOk result (scripts.new.items ≡ pushed scripts.old.items (actor - 1) op) }
{
    scripts[usize::from(actor - 1)]
        .push(op)
        .map_err(|_| AllocError)?;
    Ok(())
}
