//! The words that the program takes.

ghost use Rattle.std.specs.Prelude.{IsTrue, ◌↔◌};
ghost use Rattle.flex_run.specs.Arguments.{IsAccepted};

/// Whether the words are the one `run`.
pub fn is_run(words: &[String]) -> bool
    ensures { IsTrue result ↔ IsAccepted words.now }
{
    words.len() == 1 && words[0].as_str() == "run"
}
