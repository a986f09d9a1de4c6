//! The numbers that names have.

ghost use Rattle.std.specs.Prelude.{◌≡◌, ℕ, List, None, Some, IfOk, OnOk, ◌≤◌, length, if◌then◌else◌};
ghost use Rattle.std.specs.BTreeMap.{get_by_text};
ghost use Rattle.std.specs.Str.{bytes_eq};
ghost use Rattle.operation_rules.specs.OpRules.{file_names};
ghost use Rattle.scenario_reader.specs.Numbers.{number_of, place_of};

use operation_text::JobName;
use scenario::FileDecl;
use std::alloc::{AllocError, Global};
use std::collections::BTreeMap;

/// Names with their numbers. Contracts ask which number a text has, by `get_by_text`.
#[derive(Debug, Drop)]
pub(crate) struct NameNumbers {
    pub(crate) numbers: BTreeMap<String, u16>,
}

impl NameNumbers {
    fn new(alloc: Global) -> NameNumbers
        ensures { (q : List ℕ) → get_by_text result.numbers q ≡ None }
    {
        NameNumbers {
            numbers: BTreeMap::new(alloc),
        }
    }

    /// Gives the name this number, whatever it had.
    fn insert(&mut self, alloc: Global, name: &str, number: u16) -> Result<(), AllocError>
        ensures { OnOk result ((q : List ℕ) → get_by_text self.new.numbers q ≡ (if bytes_eq name.now q then Some number else get_by_text self.old.numbers q)) }
    {
        let copy = String::from_str(alloc, name)?;
        self.numbers.insert(copy, number)?;
        Ok(())
    }

    /// The number of the name, or 0 where it has none.
    pub(crate) fn number(&self, name: &str) -> u16
        ensures { (names : List (List ℕ)) → (first : ℕ) → ((q : List ℕ) → get_by_text self.now.numbers q ≡ place_of names first q) → result ≡ number_of names first name.now }
    {
        match self.numbers.get(name) {
            Some(number) => *number,
            None => 0,
        }
    }
}

/// The numbers of the files, from 0.
pub(crate) fn file_numbers(alloc: Global, files: &[FileDecl]) -> Result<NameNumbers, AllocError>
    requires { length files.now ≤ 256 }
    ensures { IfOk result (λ found. (q : List ℕ) → get_by_text found.numbers q ≡ place_of (file_names files.now) 0 q) }
{
    let mut found = NameNumbers::new(alloc);
    let mut number = 0;
    for file in files {
        found.insert(alloc, file.name.as_str(), number)?;
        number += 1;
    }
    Ok(found)
}

/// The numbers of the jobs, from 1.
pub(crate) fn job_numbers(alloc: Global, jobs: &[JobName]) -> Result<NameNumbers, AllocError>
    requires { length jobs.now ≤ 64 }
    ensures { IfOk result (λ found. (q : List ℕ) → get_by_text found.numbers q ≡ place_of jobs.now 1 q) }
{
    let mut found = NameNumbers::new(alloc);
    let mut number = 1;
    for job in jobs {
        found.insert(alloc, job.as_str(), number)?;
        number += 1;
    }
    Ok(found)
}
