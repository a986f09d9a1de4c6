//! Laws of scenarios and their texts.

ghost use Rattle.scenario_reader.specs.Laws.{CanonicalIsPlain, CanonicalSpells, SpellsOne};

use scenario_table::canonical_reads_back;

/// A text spells at most one scenario.
pub fn text_spells_one()
    ensures { SpellsOne }
{}

/// The canonical text of a scenario spells it (docs/FORMATS.md, "Scenario"). So what is printed is read, and gives the
/// scenario back.
pub fn canonical_text_spells()
    ensures { CanonicalSpells }
{
    canonical_reads_back();
}

/// The canonical text of a scenario that a text spells is that of a table of plain texts, so that no text in it has a line
/// feed, a quote or a backslash.
pub fn canonical_text_is_plain()
    ensures { CanonicalIsPlain }
{}
