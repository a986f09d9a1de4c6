//! Reads the table of a text.

ghost use Rattle.std.specs.Prelude.{◌≡◌, ◌↔◌, IfOk, IfErr, Some};
ghost use Rattle.toml.specs.Data.{Members};
ghost use Rattle.toml.specs.Parse.{parse_document};
ghost use Rattle.toml.specs.Errors.{IsMemory};
ghost use Rattle.toml.specs.View.{table_view};
ghost use Rattle.scenario_table.specs.Answers.{Answers, ReadsAs, IsTableFault, ParsesTo};
ghost use Rattle.scenario_table.specs.Table.{IsTableOf, SpellsTable};
ghost use Rattle.scenario_table.specs.declared.draft.Draft.{Draft};

use crate::draft::Draft;
use crate::members::into_array;
use crate::outline::outline_of;
use crate::rows::{actors_of, files_of};
use std::alloc::Global;
use thiserror::Error;
use toml::Table;

/// Why a text is no table of a scenario.
#[derive(Clone, Copy, Debug, PartialEq, Eq, Error)]
pub enum TableFault {
    #[error("the text is not TOML")]
    NotToml,
    #[error("a key is unknown or missing, or a value has another kind")]
    Keys,
    #[error("out of memory")]
    NoMemory,
}

/// Why a table has no values of a scenario.
#[derive(Clone, Copy, Debug, PartialEq, Eq)]
pub(crate) enum Stop {
    Keys,
    NoMemory,
}

/// The values of the table that the text is in TOML (docs/FORMATS.md, "Scenario").
/// A text that is no TOML is `NotToml`; one whose table has other keys or kinds of values is `Keys`.
pub fn read_table(alloc: Global, text: &str) -> Result<Draft, TableFault>
    ensures found { IfOk result (λ d. SpellsTable text.now d) }
    ensures only { (d : Draft) → SpellsTable text.now d → ReadsAs result d }
    ensures refused { IfErr result (λ fault. IsTableFault text.now fault) }
{
    let table = parsed(alloc, text)?;
    match draft_of(alloc, table) {
        Ok(draft) => Ok(draft),
        Err(Stop::Keys) => Err(TableFault::Keys),
        Err(Stop::NoMemory) => Err(TableFault::NoMemory),
    }
}

fn parsed(alloc: Global, text: &str) -> Result<Table, TableFault>
    ensures found { IfOk result (λ t. parse_document text.now ≡ Some (table_view t)) }
    ensures refused { IfErr result (λ fault. IsTableFault text.now fault) }
    ensures only { (members : Members) → parse_document text.now ≡ Some members → ParsesTo result members }
{
    match toml::table_from_str(alloc, text) {
        Ok(table) => Ok(table),
        Err(error) => Err(fault_of(&error)),
    }
}

fn fault_of(error: &toml::de::Error) -> TableFault
    ensures memory { (result ≡ TableFault.NoMemory) ↔ IsMemory error.now }
    ensures known { (result ≡ TableFault.Keys) → ⊥ }
{
    if error.is_memory() {
        TableFault::NoMemory
    } else {
        TableFault::NotToml
    }
}

fn draft_of(alloc: Global, members: Table) -> Result<Draft, Stop>
    ensures found { IfOk result (λ d. IsTableOf (table_view members) d) }
    ensures only { (d : Draft) → IsTableOf (table_view members) d → Answers result d }
{
    let Some(outline) = outline_of(members) else {
        return Err(Stop::Keys);
    };
    let Some(files) = into_array(outline.files) else {
        return Err(Stop::Keys);
    };
    let Some(actors) = into_array(outline.actors) else {
        return Err(Stop::Keys);
    };
    let files = files_of(alloc, files)?;
    let actors = actors_of(alloc, actors)?;
    Ok(Draft {
        unit: outline.unit,
        nodes: outline.nodes,
        drives: outline.drives,
        slots: outline.slots,
        workers: outline.workers,
        files,
        actors,
    })
}
