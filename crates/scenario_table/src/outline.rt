//! Reads the keys of a table: its numbers, and the values of its files and actors.

ghost use Rattle.std.specs.Prelude.{◌≡◌, ℤ, IfSome, IsSomeAnd};
ghost use Rattle.toml.specs.Data.{Data};
ghost use Rattle.toml.specs.View.{view, table_view};
ghost use Rattle.scenario_table.specs.Parts.{IsOutline, IsTail};

use crate::members::{end_of, take_key, take_number, take_number_or};
use toml::{Table, Value};

/// The values of a table's keys, with files and actors still as values of TOML.
#[derive(Drop)]
pub(crate) struct Outline {
    pub(crate) unit: i64,
    pub(crate) nodes: i64,
    pub(crate) drives: i64,
    pub(crate) slots: i64,
    pub(crate) workers: i64,
    pub(crate) files: Value,
    pub(crate) actors: Value,
}

/// The outline of the table that has these keys, and no others.
pub(crate) fn outline_of(mut members: Table) -> Option<Outline>
    ensures found { IfSome result (λ o. IsOutline (table_view members) o.unit o.nodes o.drives o.slots o.workers (view o.files) (view o.actors)) }
    ensures only { (unit nodes drives slots workers : ℤ) (files actors : Data) → IsOutline (table_view members) unit nodes drives slots workers files actors → IsSomeAnd result (λ o. (o.unit ≡ unit) × (o.nodes ≡ nodes) × (o.drives ≡ drives) × (o.slots ≡ slots) × (o.workers ≡ workers) × (view o.files ≡ files) × (view o.actors ≡ actors)) }
{
    let actors = take_key(&mut members, "actor")?;
    let drives = take_number(&mut members, "drives")?;
    let files = take_key(&mut members, "file")?;
    let nodes = take_number(&mut members, "nodes")?;
    let slots = take_number(&mut members, "slots")?;
    let tail = tail_of(members)?;
    Some(Outline {
        unit: tail.0,
        nodes,
        drives,
        slots,
        workers: tail.1,
        files,
        actors,
    })
}

/// The unit and the workers, where the table ends with them.
fn tail_of(mut members: Table) -> Option<(i64, i64)>
    ensures found { IfSome result (λ p. IsTail (table_view members) p.0 p.1) }
    ensures only { (unit workers : ℤ) → IsTail (table_view members) unit workers → IsSomeAnd result (λ p. (p.0 ≡ unit) × (p.1 ≡ workers)) }
{
    let unit = take_number_or(&mut members, "unit", 131_072)?;
    let workers = take_number_or(&mut members, "workers", 1)?;
    end_of(&members)?;
    Some((unit, workers))
}
