//! What holds of the text of every two logs.

ghost use Rattle.report_reader.specs.Laws.{TextsTellAll, TextsTellLogs};

/// Two different logs have different texts: two logs of one scenario, and any two whose scenarios their canonical
/// texts tell.
pub fn two_logs_have_two_texts()
    ensures logs { TextsTellLogs }
    ensures scenarios { TextsTellAll }
{}
