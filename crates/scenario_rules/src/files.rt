//! The rule of the files.

ghost use Rattle.std.specs.Prelude.{◌≡◌, ◌∷◌, ℕ, List, IfOk, IfErr, IfSome, IsSome, OnOk, IsOk};
ghost use Rattle.std.specs.BTreeSet.{contains_text};
ghost use Rattle.domains.specs.Level.{IsLevel, level_name};
ghost use Rattle.operation_rules.specs.OpRules.{has_name};
ghost use Rattle.scenario.specs.Words.{IsName};
ghost use Rattle.scenario_rules.specs.Files.{AreFiles, AreFilesOf, IsFileOf, IsLevelName, IsNewRow};
ghost use Rattle.scenario_rules.specs.Stops.{IsBreach};

use domains::Level;
use lists::List as Files;
use operation_rules::NameSet;
use scenario::{FileDecl, Name};
use scenario_table::FileRow;
use std::alloc::Global;

/// Why rows are not read.
#[derive(Clone, Copy, Debug, PartialEq, Eq)]
pub(crate) enum FileStop {
    Broken,
    NoMemory,
}

/// The files of the rows, if these keep the rule of the files.
pub(crate) fn files_of(alloc: Global, rows: &[FileRow]) -> Result<Files<FileDecl>, FileStop>
    ensures found { IfOk result (AreFilesOf rows.now) }
    ensures kept { IsOk result → AreFiles rows.now }
    ensures broken { IfErr result (IsBreach (AreFiles rows.now)) }
{
    if rows.is_empty() || rows.len() > 256 {
        return Err(FileStop::Broken);
    }
    let mut files = Files::new(alloc);
    let mut names = NameSet::new(alloc);
    for row in rows {
        let file = file_of(alloc, &mut names, row)?;
        files.push(file).map_err(|_| FileStop::NoMemory)?;
    }
    Ok(files)
}

/// The file of the row, if it may stand after these names. Its name is among them from then on.
fn file_of(alloc: Global, names: &mut NameSet, row: &FileRow) -> Result<FileDecl, FileStop>
    ensures found { IfOk result (IsFileOf row.now) }
    ensures kept { OnOk result ((before : List (List ℕ)) → ((q : List ℕ) → contains_text names.old.names q ≡ has_name before q) → IsNewRow row.now before) }
    ensures names { OnOk result ((before : List (List ℕ)) → ((q : List ℕ) → contains_text names.old.names q ≡ has_name before q) → (q : List ℕ) → contains_text names.new.names q ≡ has_name (row.now.name ∷ before) q) }
    ensures broken { IfErr result (λ stop. (before : List (List ℕ)) → ((q : List ℕ) → contains_text names.old.names q ≡ has_name before q) → IsBreach (IsNewRow row.now before) stop) }
{
    let name = name_of(alloc, row.name.as_str())?;
    let Some(level) = level_of(row.level.as_str()) else {
        return Err(FileStop::Broken);
    };
    let is_new = names
        .insert(alloc, row.name.as_str())
        .map_err(|_| FileStop::NoMemory)?;
    if is_new {
        Ok(FileDecl { name, level })
    } else {
        Err(FileStop::Broken)
    }
}

fn name_of(alloc: Global, text: &str) -> Result<Name, FileStop>
    ensures found { IfOk result (λ name. (name ≡ text.now) × IsName text.now) }
    ensures broken { IfErr result (IsBreach (IsName text.now)) }
{
    let copy = String::from_str(alloc, text).map_err(|_| FileStop::NoMemory)?;
    Name::new(copy).ok_or(FileStop::Broken)
}

fn level_of(text: &str) -> Option<Level>
    ensures found { IfSome result (λ level. (level_name level ≡ text.now) × IsLevel level) }
    ensures none { IsLevelName text.now → IsSome result }
{
    Level::read(text).ok()
}
