//! The line that counts the entries of a block: a guess at its number, which is kept if it prints as the line.

ghost use Rattle.std.specs.Prelude.{◌≡◌, ◌<◌, ◌^◌, ◌++◌, ◌∷◌, [], ℕ, List, IfSome, IsSomeAnd, IfOk};
ghost use Rattle.std.specs.Fmt.{decimal};
ghost use Rattle.report_reader.specs.Counts.{count_line};

use crate::words::{after, cut, u64_of};
use std::alloc::AllocError;
use std::fmt::Write;

/// The number of the line that the text begins with, and what stands behind its line feed: nothing if it begins with no number
/// of 64 bits in decimal. `scratch` is written over.
fn read_number<'a>(
    scratch: &mut String,
    text: &'a str,
) -> Result<Option<(u64, &'a str)>, AllocError>
    ensures found { IfOk result (λ r. IfSome r (λ p. text.now ≡ (decimal p.0 ++ 10 ∷ []) ++ p.1.now)) }
    ensures only { IfOk result (λ r. (n : ℕ) (rest : List ℕ) → n < 2 ^ 64 → text.now ≡ (decimal n ++ 10 ∷ []) ++ rest → IsSomeAnd r (λ p. (p.0 ≡ n) × (p.1.now ≡ rest))) }
{
    let (line, _) = cut(text, '\n');
    let number = u64_of(line);
    scratch.clear();
    writeln!(scratch, "{number}")?;
    match after(text, scratch.as_str()) {
        Some(rest) => Ok(Some((number, rest))),
        None => Ok(None),
    }
}

/// The number behind this head in the line that the text begins with, and what stands behind its line feed: nothing if it
/// begins with no such line (docs/FORMATS.md, "Report"). `scratch` is written over.
pub fn read_count<'a>(
    scratch: &mut String,
    head: &str,
    text: &'a str,
) -> Result<Option<(u64, &'a str)>, AllocError>
    // What is read prints as the line.
    ensures found { IfOk result (λ r. IfSome r (λ p. text.now ≡ count_line head.now p.0 ++ p.1.now)) }
    ensures fits { IfOk result (λ r. IfSome r (λ p. p.0 < 2 ^ 64)) }
    // What prints as the line is read.
    ensures only { IfOk result (λ r. (n : ℕ) (rest : List ℕ) → n < 2 ^ 64 → text.now ≡ count_line head.now n ++ rest → IsSomeAnd r (λ p. (p.0 ≡ n) × (p.1.now ≡ rest))) }
{
    match after(text, head) {
        Some(digits) => read_number(scratch, digits),
        None => Ok(None),
    }
}
