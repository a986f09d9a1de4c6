//! Numbers, and words before a mark.

ghost use Rattle.std.specs.Prelude.{◌≡◌, ◌↔◌, ◌++◌, ◌∷◌, ℕ, ◌<◌, ◌≤◌, ◌^◌, List, IsTrue, IfSome, IsSomeAnd, Some, true};
ghost use Rattle.std.specs.Fmt.{decimal};
ghost use Rattle.operation_text.specs.Words.{lacks};
ghost use Rattle.operation_text.specs.NamedOps.{IsOffset};
ghost use Rattle.operation_text.specs.Decimals.{HasOneForm};

/// The word before the first such mark, and what stands after the mark.
pub(crate) fn word_before(text: &str, mark: char) -> Option<(&str, &str)>
    requires { mark < 128 }
    ensures found { IfSome result (λ p. text.now ≡ p.0.now ++ mark ∷ p.1.now) }
    ensures only { (word rest : List ℕ) → lacks mark word ≡ true → text.now ≡ word ++ mark ∷ rest → IsSomeAnd result (λ p. (p.0.now ≡ word) × (p.1.now ≡ rest)) }
{
    text.split_once(mark)
}

/// What stands after this front.
pub(crate) fn after<'a>(text: &'a str, front: &str) -> Option<&'a str>
    ensures found { IfSome result (λ rest. text.now ≡ front.now ++ rest.now) }
    ensures only { (rest : List ℕ) → text.now ≡ front.now ++ rest → IsSomeAnd result (λ x. x.now ≡ rest) }
{
    text.strip_prefix(front)
}

/// A number in decimal, without a sign or a leading zero.
fn number(text: &str) -> Option<u64>
    ensures found { IfSome result (λ n. text.now ≡ decimal n) }
    ensures only { (n : ℕ) → n < 2 ^ 64 → text.now ≡ decimal n → result ≡ Some n }
{
    if has_one_form(text) {
        text.parse::<u64>().ok()
    } else {
        None
    }
}

/// Whether the text is not empty, and begins with no sign and no zero but a lone one.
fn has_one_form(text: &str) -> bool
    ensures { IsTrue result ↔ HasOneForm text.now }
{
    let bytes = text.as_bytes();
    !bytes.is_empty() && bytes[0] != b'+' && (bytes[0] != b'0' || bytes.len() == 1)
}

/// A number within these limits.
pub(crate) fn number_within(text: &str, least: u32, most: u32) -> Option<u32>
    ensures found { IfSome result (λ n. text.now ≡ decimal n) }
    ensures within { IfSome result (λ n. (least ≤ n) × (n ≤ most)) }
    ensures only { (n : ℕ) → least ≤ n → n ≤ most → text.now ≡ decimal n → result ≡ Some n }
{
    let number = u32::try_from(number(text)?).ok()?;
    if least <= number && number <= most {
        Some(number)
    } else {
        None
    }
}

/// An offset in a file, and what stands after it and a space.
pub(crate) fn offset_before(text: &str) -> Option<(u64, &str)>
    ensures found { IfSome result (λ p. text.now ≡ decimal p.0 ++ 32 ∷ p.1.now) }
    ensures within { IfSome result (λ p. IsOffset p.0) }
    ensures only { (n : ℕ) (rest : List ℕ) → IsOffset n → text.now ≡ decimal n ++ 32 ∷ rest → IsSomeAnd result (λ p. (p.0 ≡ n) × (p.1.now ≡ rest)) }
{
    let (front, rest) = word_before(text, ' ')?;
    let offset = number_within(front, 0, 536_870_912)?;
    Some((u64::from(offset), rest))
}
