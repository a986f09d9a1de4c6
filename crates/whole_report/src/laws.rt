//! Laws of reports.

ghost use Rattle.whole_report.specs.Laws.{TextsTellLogs};

use scenario_reader::{canonical_text_is_plain, canonical_text_spells, text_spells_one};

/// Two logs with the same text are the same (docs/FORMATS.md, "Report").
pub fn two_logs_have_two_texts()
    ensures { TextsTellLogs }
{
    canonical_text_is_plain();
    canonical_text_spells();
    text_spells_one();
}
