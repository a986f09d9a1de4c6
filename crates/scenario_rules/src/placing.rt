//! Reads the operations of all actors, each at its place.

ghost use Rattle.std.specs.Prelude.{◌≡◌, ◌≤◌, ◌<◌, ℕ, List, length, IfOk, IfErr, OnOk, All};
ghost use Rattle.operation_text.specs.NamedOps.{SpellsOp};
ghost use Rattle.scenario_rules.specs.Places.{all_places, script_places, AreOps, AreMoreOps, IsOpStop, SpellsOnly};
ghost use Rattle.scenario_rules.specs.TextStops.{IsTextStop};

use lists::List as Ops;
use operation_rules::{Place, PlacedOp};
use operation_text::{NamedOp, OpFault, read_op};
use scenario_table::Word;
use std::alloc::Global;

/// Why operations are not read.
#[derive(Clone, Copy, Debug, PartialEq, Eq)]
pub(crate) enum OpStop {
    NoOp(Place),
    NoMemory,
}

/// The operations of all actors, by actor and then by number, or the place of the first text that spells none.
pub(crate) fn place_all(alloc: Global, actors: &[Ops<Word>]) -> Result<Ops<PlacedOp>, OpStop>
    requires few { length actors.now ≤ 16 }
    requires short { All (λ ops. length ops ≤ 4096) actors.now }
    ensures found { IfOk result (AreOps (all_places actors.now 1)) }
    ensures stopped { IfErr result (IsOpStop (all_places actors.now 1)) }
{
    let mut placed = Ops::new(alloc);
    let mut actor = 1;
    for texts in actors {
        place_script(alloc, actor, texts.as_slice(), &mut placed)?;
        actor += 1;
    }
    Ok(placed)
}

/// Adds the operations of one actor.
fn place_script(
    alloc: Global,
    actor: u8,
    texts: &[Word],
    placed: &mut Ops<PlacedOp>,
) -> Result<(), OpStop>
    requires { length texts.now ≤ 4096 }
    ensures found { OnOk result (AreMoreOps (script_places texts.now actor 1) placed.old placed.new) }
    ensures stopped { IfErr result (IsOpStop (script_places texts.now actor 1)) }
{
    let mut op = 1;
    for text in texts {
        let what = op_of(alloc, text.as_str(), Place { actor, op })?;
        let place = Place { actor, op };
        placed
            .push(PlacedOp { place, what })
            .map_err(|_| OpStop::NoMemory)?;
        op += 1;
    }
    Ok(())
}

/// The operation that the text at this place spells.
fn op_of(alloc: Global, text: &str, place: Place) -> Result<NamedOp, OpStop>
    ensures found { IfOk result (SpellsOnly text.now) }
    ensures stopped { IfErr result (IsTextStop text.now place) }
{
    match read_op(alloc, text) {
        Ok(op) => Ok(op),
        Err(OpFault::NotAnOp) => Err(OpStop::NoOp(place)),
        Err(OpFault::NoMemory) => Err(OpStop::NoMemory),
    }
}
