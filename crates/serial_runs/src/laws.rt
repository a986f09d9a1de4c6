//! Laws of the definitions, as contracts of functions with empty bodies: calling one costs nothing.

ghost use Rattle.serial_runs.specs.SerialLogs.{SerialLogsKeepToScripts};

/// Where each operation of the scripts has its entry in the serial order, each actor keeps to its script.
pub fn serial_logs_keep_to_scripts()
    ensures { SerialLogsKeepToScripts }
{}
