//! The text that an operation writes to a file.

ghost use Rattle.std.specs.Prelude.{◌≡◌, ◌↔◌, string_bytes, IsSome, IfSome, IsTrue};
ghost use Rattle.std.specs.List.{list_all};
ghost use Rattle.scenario.specs.Words.{IsText, is_text_byte};

use std::marker::Model;

/// A payload in words: 1 to 1,048,576 characters from a space to `~`, without `"` and `\`. Contracts see its bytes.
#[derive(Debug, Drop)]
pub struct Text {
    text: String,
}

impl Model for Text {
    ghost use Rattle.std.specs.Prelude.{List, ℕ, string_bytes};
    ghost use Rattle.scenario.specs.Words.{IsText};

    ghost Value = { List ℕ };

    ghost view = { λ t. string_bytes t.text };

    ghost invariant = { λ t. IsText (string_bytes t.text) };
}

impl Text {
    /// The payload of this text, if it is one.
    pub fn new(text: String) -> Option<Text>
        ensures found { IfSome result (λ t. t ≡ string_bytes text) }
        ensures exact { IsSome result ↔ IsText (string_bytes text) }
    {
        if is_text(text.as_str()) {
            Some(Text { text })
        } else {
            None
        }
    }

    pub fn as_str(&self) -> &str
        ensures value { result.now ≡ self.now }
        ensures text { IsText self.now }
    {
        self.text.as_str()
    }
}

/// Whether the text is a payload.
fn is_text(text: &str) -> bool
    ensures { IsTrue result ↔ IsText text.now }
{
    !text.is_empty() && text.len() <= 1_048_576 && all_bytes_fit(text)
}

fn all_bytes_fit(text: &str) -> bool
    ensures { result ≡ list_all is_text_byte text.now }
{
    text.bytes().all(is_text_byte)
}

/// Whether the byte may stand in an operation.
fn is_text_byte(byte: u8) -> bool
    ensures { result ≡ is_text_byte byte }
{
    (0x20..0x7F).contains(&byte) && byte != b'"' && byte != b'\\'
}
