//! Reads the rows of files and the texts of operations.

ghost use Rattle.std.specs.Prelude.{◌≡◌, ℕ, List, IfOk, IfSome, IsSomeAnd};
ghost use Rattle.toml.specs.Data.{Items, array};
ghost use Rattle.toml.specs.View.{view, array_view};
ghost use Rattle.scenario_table.specs.Table.{items_by, file_data, op_data, actor_data};
ghost use Rattle.scenario_table.specs.Parts.{ops_table};
ghost use Rattle.scenario_table.specs.Answers.{Answers};
ghost use Rattle.scenario_table.specs.declared.draft.FileRow.{FileRow};

use crate::draft::FileRow;
use crate::members::{end_of, into_array, into_string, into_table, take_key};
use crate::reading::Stop;
use crate::word::Word;
use lists::List as Rows;
use std::alloc::Global;
use toml::Value;
use toml::value::Array;

/// The rows of all files.
pub(crate) fn files_of(alloc: Global, items: Array) -> Result<Rows<FileRow>, Stop>
    ensures found { IfOk result (λ rows. array_view items ≡ items_by file_data rows) }
    ensures only { (rows : List FileRow) → array_view items ≡ items_by file_data rows → Answers result rows }
{
    let mut rows = Rows::new(alloc);
    for value in items {
        let row = file_of(value)?;
        rows.push(row).map_err(|_| Stop::NoMemory)?;
    }
    Ok(rows)
}

/// The operations of all actors.
pub(crate) fn actors_of(alloc: Global, items: Array) -> Result<Rows<Rows<Word>>, Stop>
    ensures found { IfOk result (λ actors. array_view items ≡ items_by actor_data actors) }
    ensures only { (actors : List (List (List ℕ))) → array_view items ≡ items_by actor_data actors → Answers result actors }
{
    let mut actors = Rows::new(alloc);
    for value in items {
        let ops = actor_of(alloc, value)?;
        actors.push(ops).map_err(|_| Stop::NoMemory)?;
    }
    Ok(actors)
}

fn actor_of(alloc: Global, value: Value) -> Result<Rows<Word>, Stop>
    ensures found { IfOk result (λ ops. view value ≡ actor_data ops) }
    ensures only { (ops : List (List ℕ)) → view value ≡ actor_data ops → Answers result ops }
{
    let Some(items) = ops_of(value) else {
        return Err(Stop::Keys);
    };
    words_of(alloc, items)
}

/// The texts that the items are.
fn words_of(alloc: Global, items: Array) -> Result<Rows<Word>, Stop>
    ensures found { IfOk result (λ ops. array_view items ≡ items_by op_data ops) }
    ensures only { (ops : List (List ℕ)) → array_view items ≡ items_by op_data ops → Answers result ops }
{
    let mut words = Rows::new(alloc);
    for value in items {
        let word = word_of(value)?;
        words.push(word).map_err(|_| Stop::NoMemory)?;
    }
    Ok(words)
}

fn word_of(value: Value) -> Result<Word, Stop>
    ensures found { IfOk result (λ w. view value ≡ op_data w) }
    ensures only { (bytes : List ℕ) → view value ≡ op_data bytes → Answers result bytes }
{
    match into_string(value) {
        Some(text) => Ok(Word::new(text)),
        None => Err(Stop::Keys),
    }
}

/// The items of an actor's table.
fn ops_of(value: Value) -> Option<Array>
    ensures found { IfSome result (λ items. view value ≡ ops_table (array_view items)) }
    ensures only { (items : Items) → view value ≡ ops_table items → IsSomeAnd result (λ a. array_view a ≡ items) }
{
    let mut members = into_table(value)?;
    let items = into_array(take_key(&mut members, "ops")?)?;
    end_of(&members)?;
    Some(items)
}

fn file_of(value: Value) -> Result<FileRow, Stop>
    ensures found { IfOk result (λ row. view value ≡ file_data row) }
    ensures only { (row : FileRow) → view value ≡ file_data row → Answers result row }
{
    match row_of(value) {
        Some(row) => Ok(row),
        None => Err(Stop::Keys),
    }
}

fn row_of(value: Value) -> Option<FileRow>
    ensures found { IfSome result (λ row. view value ≡ file_data row) }
    ensures only { (row : FileRow) → view value ≡ file_data row → IsSomeAnd result (λ r. r ≡ row) }
{
    let mut members = into_table(value)?;
    let level = into_string(take_key(&mut members, "level")?)?;
    let name = into_string(take_key(&mut members, "name")?)?;
    end_of(&members)?;
    Some(FileRow {
        name: Word::new(name),
        level: Word::new(level),
    })
}
