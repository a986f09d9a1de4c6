//! Laws of the scenarios of the first form.

ghost use Rattle.first_form.specs.Wholes.{OnePlain, SameText};

/// Two plain scenarios that are one in the whole language are the same.
pub fn one_plain_scenario()
    ensures { OnePlain }
{}

/// A plain scenario has the same canonical text in the whole language (docs/FORMATS.md, "Scenario").
pub fn plain_text_is_whole_text()
    ensures { SameText }
{}
