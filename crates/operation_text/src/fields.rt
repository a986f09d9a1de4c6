//! Takes the fields of an operation apart.

ghost use Rattle.std.specs.Prelude.{codes, ◌≡◌, ◌++◌, ◌∷◌, ℕ, ◌≤◌, List, Option, Some, IfSome, IsSomeAnd, true};
ghost use Rattle.std.specs.Fmt.{decimal};
ghost use Rattle.domains.specs.Level.{Level, IsLevel, level_name};
ghost use Rattle.job_rules.specs.Kinds.{name_of};
ghost use Rattle.job_rules.specs.declared.kind.JobKind.{JobKind};
ghost use Rattle.operation_text.specs.Words.{lacks};
ghost use Rattle.operation_text.specs.NamedOps.{IsOffset, FitsPriority, job_text};

use crate::numbers::{after, number_within, offset_before, word_before};
use domains::Level;
use job_rules::JobKind;

/// The file's name, the offset and the payload of a write.
pub(crate) fn write_fields(fields: &str) -> Option<(&str, u64, &str)>
    ensures found { IfSome result (λ p. fields.now ≡ p.0.now ++ 32 ∷ (decimal p.1 ++ 32 ∷ p.2.now)) }
    ensures within { IfSome result (λ p. IsOffset p.1) }
    ensures only { (file : List ℕ) (offset : ℕ) (payload : List ℕ) → lacks 32 file ≡ true → IsOffset offset → fields.now ≡ file ++ 32 ∷ (decimal offset ++ 32 ∷ payload) → IsSomeAnd result (λ p. (p.0.now ≡ file) × (p.1 ≡ offset) × (p.2.now ≡ payload)) }
{
    let (file, rest) = word_before(fields, ' ')?;
    let (offset, payload) = offset_before(rest)?;
    Some((file, offset, payload))
}

/// The file's name, the offset and the length of a read.
pub(crate) fn read_fields(fields: &str) -> Option<(&str, u64, u32)>
    ensures found { IfSome result (λ p. fields.now ≡ p.0.now ++ 32 ∷ (decimal p.1 ++ 32 ∷ decimal p.2)) }
    ensures within { IfSome result (λ p. IsOffset p.1 × (p.2 ≤ 1048576)) }
    ensures only { (file : List ℕ) (offset len : ℕ) → lacks 32 file ≡ true → IsOffset offset → len ≤ 1048576 → fields.now ≡ file ++ 32 ∷ (decimal offset ++ 32 ∷ decimal len) → IsSomeAnd result (λ p. (p.0.now ≡ file) × (p.1 ≡ offset) × (p.2 ≡ len)) }
{
    let (file, offset, rest) = write_fields(fields)?;
    let len = number_within(rest, 0, 1_048_576)?;
    Some((file, offset, len))
}

/// The level of this name.
pub(crate) fn level_of(text: &str) -> Option<Level>
    ensures found { IfSome result (λ level. text.now ≡ level_name level) }
    ensures level { IfSome result IsLevel }
    ensures only { (level : Level) → IsLevel level → text.now ≡ level_name level → result ≡ Some level }
{
    Level::read(text).ok()
}

/// The first byte and the length of a pattern.
pub(crate) fn fill_fields(text: &str) -> Option<(u8, u32)>
    ensures found { IfSome result (λ p. text.now ≡ codes "fill:" ++ (decimal p.0 ++ 58 ∷ decimal p.1)) }
    ensures within { IfSome result (λ p. (p.0 ≤ 255) × (1 ≤ p.1) × (p.1 ≤ 1048576)) }
    ensures only { (start len : ℕ) → start ≤ 255 → 1 ≤ len → len ≤ 1048576 → text.now ≡ codes "fill:" ++ (decimal start ++ 58 ∷ decimal len) → IsSomeAnd result (λ p. (p.0 ≡ start) × (p.1 ≡ len)) }
{
    let fields = after(text, "fill:")?;
    let (front, rest) = word_before(fields, ':')?;
    let start = number_within(front, 0, 255)?;
    let len = number_within(rest, 1, 1_048_576)?;
    Some((start as u8, len))
}

/// The kind, the job's name and the priority of a start.
pub(crate) fn start_fields(fields: &str) -> Option<(JobKind, &str, Option<u8>)>
    ensures found { IfSome result (λ p. fields.now ≡ name_of p.0 ++ 32 ∷ (codes "as " ++ job_text p.1.now p.2)) }
    ensures fits { IfSome result (λ p. FitsPriority p.2) }
    ensures only { (kind : JobKind) (job : List ℕ) (priority : Option ℕ) → lacks 32 job ≡ true → FitsPriority priority → fields.now ≡ name_of kind ++ 32 ∷ (codes "as " ++ job_text job priority) → IsSomeAnd result (λ p. (p.0 ≡ kind) × (p.1.now ≡ job) × (p.2 ≡ priority)) }
{
    let (word, rest) = word_before(fields, ' ')?;
    let kind = JobKind::read(word)?;
    let named = after(rest, "as ")?;
    let (job, priority) = job_fields(named)?;
    Some((kind, job, priority))
}

/// The job's name, and its priority where one is given.
fn job_fields(text: &str) -> Option<(&str, Option<u8>)>
    ensures found { IfSome result (λ p. text.now ≡ job_text p.0.now p.1) }
    ensures fits { IfSome result (λ p. FitsPriority p.1) }
    ensures only { (job : List ℕ) (priority : Option ℕ) → lacks 32 job ≡ true → FitsPriority priority → text.now ≡ job_text job priority → IsSomeAnd result (λ p. (p.0.now ≡ job) × (p.1 ≡ priority)) }
{
    match word_before(text, ' ') {
        Some((job, digits)) => {
            let priority = number_within(digits, 1, 10)?;
            Some((job, Some(priority as u8)))
        }
        None => Some((text, None)),
    }
}
