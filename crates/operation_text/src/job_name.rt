//! The name of a job.

ghost use Rattle.std.specs.Prelude.{◌≡◌, ◌↔◌, string_bytes, IsSome, IfSome, IsTrue};
ghost use Rattle.std.specs.List.{list_all};
ghost use Rattle.operation_text.specs.Words.{IsJobName};
ghost use Rattle.scenario.specs.Words.{is_name_byte};

use std::marker::Model;

/// A name: 1 to 32 of the letters, the digits, `.`, `_` and `-`. Contracts see its bytes.
#[derive(Debug, Drop)]
pub struct JobName {
    text: String,
}

impl Model for JobName {
    ghost use Rattle.std.specs.Prelude.{List, ℕ, string_bytes};
    ghost use Rattle.operation_text.specs.Words.{IsJobName};

    ghost Value = { List ℕ };

    ghost view = { λ n. string_bytes n.text };

    ghost invariant = { λ n. IsJobName (string_bytes n.text) };
}

impl JobName {
    /// The name of this text, if it is one.
    pub fn new(text: String) -> Option<JobName>
        ensures found { IfSome result (λ n. n ≡ string_bytes text) }
        ensures exact { IsSome result ↔ IsJobName (string_bytes text) }
    {
        if is_name(text.as_str()) {
            Some(JobName { text })
        } else {
            None
        }
    }

    pub fn as_str(&self) -> &str
        ensures value { result.now ≡ self.now }
        ensures name { IsJobName self.now }
    {
        self.text.as_str()
    }
}

/// Whether the text is a name.
fn is_name(text: &str) -> bool
    ensures { IsTrue result ↔ IsJobName text.now }
{
    !text.is_empty() && text.len() <= 32 && all_bytes_fit(text)
}

fn all_bytes_fit(text: &str) -> bool
    ensures { result ≡ list_all is_name_byte text.now }
{
    text.bytes().all(is_name_byte)
}

/// Whether the byte may stand in a name.
fn is_name_byte(byte: u8) -> bool
    ensures { result ≡ is_name_byte byte }
{
    byte.is_ascii_alphanumeric() || byte == b'.' || byte == b'_' || byte == b'-'
}
