//! Laws of the canonical text.

ghost use Rattle.scenario_table.specs.Canonical.{ReadsBack};

/// The canonical text of a table is TOML for it (docs/FORMATS.md, "Scenario").
pub fn canonical_reads_back()
    ensures { ReadsBack }
{}
