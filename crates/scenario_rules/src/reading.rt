//! Reads a scenario.

ghost use Rattle.std.specs.Prelude.{◌≡◌, IfOk, IfErr};
ghost use Rattle.scenario_rules.specs.Rules.{IsBroken, IsFaultOf, IsNamedOf, IsTextFault, SpellsNamed, fault_at, table_rules};

use crate::checks::{check_ops, ops_checked, outline_of};
use crate::rule::{BadScenario, Rule, ScenarioFault};
use domains::Shape;
use lists::List;
use operation_rules::{Place, PlacedOp};
use scenario::FileDecl;
use scenario_table::{Draft, TableFault, read_table};
use std::alloc::Global;

/// A scenario whose operations name their files and jobs. The operations of all actors stand in one list, by actor
/// and then by number, each with its place.
#[derive(Debug, Drop)]
pub struct NamedScenario {
    pub shape: Shape,
    pub workers: u8,
    pub files: List<FileDecl>,
    pub actors: usize,
    pub ops: List<PlacedOp>,
}

/// The scenario that the text spells, if it keeps all rules (docs/FORMATS.md, "Rules of a scenario"). Any other text is
/// `Bad`, with the first rule that it breaks and the first place that breaks it.
pub fn read_named(alloc: Global, text: &str) -> Result<NamedScenario, ScenarioFault>
    ensures found { IfOk result (SpellsNamed text.now) }
    ensures refused { IfErr result (IsTextFault text.now) }
{
    match read_table(alloc, text) {
        Ok(draft) => named_of(alloc, &draft),
        Err(fault) => Err(fault_of(fault)),
    }
}

fn fault_of(fault: TableFault) -> ScenarioFault
    ensures { result ≡ fault_at fault }
{
    let place = Place { actor: 0, op: 0 };
    match fault {
        TableFault::NotToml => ScenarioFault::Bad(BadScenario {
            rule: Rule::Toml,
            place,
        }),
        TableFault::Keys => ScenarioFault::Bad(BadScenario {
            rule: Rule::Keys,
            place,
        }),
        TableFault::NoMemory => ScenarioFault::NoMemory,
    }
}

/// The scenario of the table, if it keeps all rules.
fn named_of(alloc: Global, draft: &Draft) -> Result<NamedScenario, ScenarioFault>
    ensures found { IfOk result (IsNamedOf draft.now) }
    ensures refused { IfErr result (IsFaultOf (IsBroken draft.now) table_rules) }
{
    let outline = outline_of(alloc, draft)?;
    let ops = ops_checked(alloc, draft.actors.as_slice())?;
    check_ops(
        alloc,
        outline.shape,
        outline.files.as_slice(),
        ops.as_slice(),
    )?;
    Ok(NamedScenario {
        shape: outline.shape,
        workers: outline.workers,
        files: outline.files,
        actors: draft.actors.len(),
        ops,
    })
}
