//! A number of any length in decimal.

ghost use Rattle.std.specs.Prelude.{◌≡◌, ◌↔◌, string_bytes, IsSome, IfSome, IsTrue};
ghost use Rattle.std.specs.Char.{is_ascii_digit};
ghost use Rattle.std.specs.List.{list_all};
ghost use Rattle.operation_text.specs.Words.{IsNumberText};

use std::marker::Model;

/// A number in decimal, of any length, without a sign or a leading zero. Contracts see its digits.
#[derive(Debug, Drop)]
pub struct Digits {
    text: String,
}

impl Model for Digits {
    ghost use Rattle.std.specs.Prelude.{List, ℕ, string_bytes};
    ghost use Rattle.operation_text.specs.Words.{IsNumberText};

    ghost Value = { List ℕ };

    ghost view = { λ d. string_bytes d.text };

    ghost invariant = { λ d. IsNumberText (string_bytes d.text) };
}

impl Digits {
    /// The number of this text, if it is one.
    pub fn new(text: String) -> Option<Digits>
        ensures found { IfSome result (λ d. d ≡ string_bytes text) }
        ensures exact { IsSome result ↔ IsNumberText (string_bytes text) }
    {
        if is_number(text.as_str()) {
            Some(Digits { text })
        } else {
            None
        }
    }

    pub fn as_str(&self) -> &str
        ensures value { result.now ≡ self.now }
        ensures number { IsNumberText self.now }
    {
        self.text.as_str()
    }
}

/// Whether the text is a number.
fn is_number(text: &str) -> bool
    ensures { IsTrue result ↔ IsNumberText text.now }
{
    let bytes = text.as_bytes();
    !bytes.is_empty() && (bytes[0] != b'0' || bytes.len() == 1) && all_digits(text)
}

fn all_digits(text: &str) -> bool
    ensures { result ≡ list_all is_ascii_digit text.now }
{
    text.bytes().all(is_digit)
}

fn is_digit(byte: u8) -> bool
    ensures { result ≡ is_ascii_digit byte }
{
    byte.is_ascii_digit()
}
