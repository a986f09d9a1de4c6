//! The top call: from the words and the source to what the sink takes.

ghost use Rattle.std.specs.Prelude.{◌≡◌, ◌≢◌, ◌<◌, ◌≤◌, ◌⊎◌, true, length, string_bytes, IsSome, IfSome, IfOk, IfErr};
ghost use Rattle.std.specs.Result.{IsErrOf};
ghost use Rattle.std.specs.List.{AllByRecursion};
ghost use Rattle.std.specs.Io.KnownBytes.{Appends};
ghost use Rattle.flex_io.specs.Faults.{HasRisen};
ghost use Rattle.flex_io.specs.Inputs.{AppendsFront};
ghost use Rattle.first_form.specs.FirstForm.{IsFirstForm};
ghost use Rattle.report.specs.Script.{HasSerialEpochs};
ghost use Rattle.report.specs.Legal.{IsLegalRunWhere};
ghost use Rattle.flex_run.specs.Arguments.{IsAccepted};
ghost use Rattle.flex_run.specs.RackStates.{rack_state};
ghost use Rattle.flex_run.specs.RackFaults.{RackFailed};
ghost use Rattle.flex_run.specs.RunReport.{IsReport, RanLegally, LeavesRack, HasRoomThroughout, FailsInRun, IsOrUnwritten, IsRefusalStatus, IsRunStatus, TookPrefix, TookRefusal, fault_lines};
ghost use Rattle.flex_run.specs.RefusedSources.{IsPlayable, IsPlayed, broken, refusal_line};
ghost use Rattle.flex_run.specs.Stops.{HasCauseIn, is_early, is_refusal, line_of, status_of, IsReadStop, IsTextStop, IsPlayStop, IsTextRefusal, IsTooLong, IsRunResult};

use crate::play::{PlayFault, play_serial};
use crate::stop::{NO_MEMORY, RunStop, SINK_FAILED, refusal_line};
use crate::words::is_run;
use first_form::{FormFault, plain_of};
use flex_io::{Fault, Gate, Input, Rack, Sink, Source, Steady, read_up_to, write_all};
use lists::List;
use operation_rules::Place;
use report::{Logs, print};
use scenario::Scenario;
use scenario_reader::read;
use scenario_rules::{BadScenario, Rule, ScenarioFault};
use std::alloc::{AllocError, Global};

/// The most bytes of a scenario's text.
const LIMIT: u32 = 1_048_576;

/// The line where memory ran out.
const MEMORY_LINE: &str = "fault memory\n";

/// Plays the scenario that the source spells, writes the report of its run to the sink, and returns the exit status
/// (docs/FORMATS.md, "Statuses"). If there is no report, one line says why. The words are the program's arguments.
pub fn flex<So: Source, Si: Sink, R: Rack, G: Gate>(
    alloc: Global,
    words: &[String],
    source: &mut So,
    sink: &mut Si,
    rack: &mut R,
    gate: &G,
) -> u8
where
    R::Piece: Steady,
    // A report is that of a legal run of the scenario that the whole source spells. The rack gave each slot of the cluster,
    // and as many came back. Where it tells what came back, they came back as the report says, and reads show the bytes of
    // their files.
    ensures ran { result ≡ 0 → IfSome (So.remaining source.old) (λ input.
        RanLegally (IsSome (R.back rack.old)) input (Si.taken sink.old) (Si.taken sink.new)
        (rack_state R.back R.takes R.puts R.faults rack.old) (rack_state R.back R.takes R.puts R.faults rack.new)) }

    // Without one, the sink took the line of the status, or the line that names the first rule that the source breaks.
    ensures line { AllByRecursion (λ row. result ≡ row.0 → Appends (Si.taken sink.old) (Si.taken sink.new) row.1) fault_lines }
    ensures refused { result ≡ 3 → TookRefusal (So.remaining source.old) (Si.taken sink.old) (Si.taken sink.new) }

    // Whatever the status, it took no more than a prefix of the report or of a line.
    ensures prefix { TookPrefix (So.remaining source.old) (rack_state R.back R.takes R.puts R.faults rack.old)
        (rack_state R.back R.takes R.puts R.faults rack.new) (Si.taken sink.old) (Si.taken sink.new) }

    // A run that is refused leaves the rack untouched.
    ensures untouched { IsRefusalStatus result → rack.new ≡ rack.old }
    ensures words_untouched { ¬ (IsAccepted words.now) → rack.new ≡ rack.old }
    ensures text_untouched { IfSome (So.remaining source.old) (λ input. ¬ (IsPlayable input) → rack.new ≡ rack.old) }

    // The status of each refusal comes exactly if its cause is there.
    ensures words { result ≡ 2 → ¬ (IsAccepted words.now) }
    ensures words_refused { ¬ (IsAccepted words.now) → IsOrUnwritten 2 result }
    ensures unbuilt { result ≡ 3 → IfSome (So.remaining source.old) (λ input. ¬ (IsPlayable input)) }
    ensures text_refused { IfSome (So.remaining source.old) (λ input. IsAccepted words.now → length input ≤ 1048576
        → ¬ (IsPlayable input) → (result ≡ 4) ⊎ IsOrUnwritten 3 result) }

    ensures too_long { IfSome (So.remaining source.old) (λ input. IsAccepted words.now → 1048576 < length input
        → (result ≡ 4) ⊎ IsOrUnwritten 7 result) }
    ensures complete { IfSome (So.remaining source.old) (λ input. IsAccepted words.now → length input ≤ 1048576
        → IsPlayable input → IsRunStatus result) }

    // The other statuses come only with their causes.
    ensures read { result ≡ 4 → HasRisen (So.faults source.old) (So.faults source.new) }
    ensures write { result ≡ 5 → HasRisen (Si.faults sink.old) (Si.faults sink.new) }
    ensures long { result ≡ 7 → IfSome (So.remaining source.old) (λ input. 1048576 < length input) }
    ensures rack { result ≡ 8 → FailsInRun R.Piece.place_of R.Piece.faults (So.remaining source.old)
        (rack_state R.back R.takes R.puts R.faults rack.old) (rack_state R.back R.takes R.puts R.faults rack.new) }
{
    match report_of(alloc, words, source, rack, gate) {
        Ok(text) => write_text(sink, text.as_str(), 0),
        Err(stop) => write_stop(alloc, sink, stop),
    }
}

/// Writes the line of a stop, and returns its status, or that of a text that was not written.
fn write_stop<Si: Sink>(alloc: Global, sink: &mut Si, stop: RunStop) -> u8
    ensures status { IsOrUnwritten (status_of stop) result }
    ensures written { result ≢ 5 → result ≢ 6 → Appends (Si.taken sink.old) (Si.taken sink.new) (line_of stop) }
    ensures prefix { AppendsFront (Si.taken sink.old) (Si.taken sink.new) (line_of stop)
        ⊎ AppendsFront (Si.taken sink.old) (Si.taken sink.new) (line_of RunStop.Memory) }
    ensures write { result ≡ 5 → HasRisen (Si.faults sink.old) (Si.faults sink.new) }
{
    match stop {
        RunStop::Words => write_text(sink, "fault words\n", 2),
        RunStop::Scenario(bad) => write_refusal(alloc, sink, bad),
        RunStop::Read => write_text(sink, "fault read\n", 4),
        RunStop::Memory => write_text(sink, MEMORY_LINE, NO_MEMORY),
        RunStop::Long => write_text(sink, "fault long\n", 7),
        RunStop::Rack => write_text(sink, "fault rack\n", 8),
    }
}

/// Writes the line that names the rule and the place.
fn write_refusal<Si: Sink>(alloc: Global, sink: &mut Si, bad: BadScenario) -> u8
    ensures status { IsOrUnwritten 3 result }
    ensures written { result ≢ 5 → result ≢ 6 → Appends (Si.taken sink.old) (Si.taken sink.new) (refusal_line bad) }
    ensures prefix { AppendsFront (Si.taken sink.old) (Si.taken sink.new) (refusal_line bad)
        ⊎ AppendsFront (Si.taken sink.old) (Si.taken sink.new) (line_of RunStop.Memory) }
    ensures write { result ≡ 5 → HasRisen (Si.faults sink.old) (Si.faults sink.new) }
{
    match refusal_line(alloc, bad) {
        Ok(line) => write_text(sink, line.as_str(), 3),
        Err(AllocError) => write_text(sink, MEMORY_LINE, NO_MEMORY),
    }
}

/// Writes a text, and returns the status, or that of a text that was not written.
fn write_text<Si: Sink>(sink: &mut Si, text: &str, status: u8) -> u8
    requires { status ≢ 5 }
    ensures status { IsOrUnwritten status result }
    ensures written { result ≢ 5 → result ≢ 6 → Appends (Si.taken sink.old) (Si.taken sink.new) text.now }
    ensures prefix { AppendsFront (Si.taken sink.old) (Si.taken sink.new) text.now }
    ensures write { result ≡ 5 → HasRisen (Si.faults sink.old) (Si.faults sink.new) }
{
    match write_all(sink, text.as_bytes()) {
        Ok(()) => status,
        Err(Fault::Failed) => SINK_FAILED,
        Err(Fault::NoMemory) => NO_MEMORY,
    }
}

/// The report of the run that the words and the source ask for.
fn report_of<So: Source, R: Rack, G: Gate>(
    alloc: Global,
    words: &[String],
    source: &mut So,
    rack: &mut R,
    gate: &G,
) -> Result<String, RunStop>
where
    R::Piece: Steady,
    ensures report { IfOk result (λ text. IfSome (So.remaining source.old) (λ input.
        IsReport (IsSome (R.back rack.old)) input (string_bytes text)
        (rack_state R.back R.takes R.puts R.faults rack.old) (rack_state R.back R.takes R.puts R.faults rack.new))) }
    ensures untouched { IfErr result (λ stop. is_early stop ≡ true → rack.new ≡ rack.old) }
    ensures words_untouched { ¬ (IsAccepted words.now) → rack.new ≡ rack.old }
    ensures text_untouched { IfSome (So.remaining source.old) (λ input. ¬ (IsPlayable input) → rack.new ≡ rack.old) }
    ensures words { IsErrOf result RunStop.Words → ¬ (IsAccepted words.now) }
    ensures words_refused { ¬ (IsAccepted words.now) → IsErrOf result RunStop.Words }
    ensures unbuilt { IfErr result (λ stop. is_refusal stop ≡ true → IfSome (So.remaining source.old) (λ input. ¬ (IsPlayable input))) }
    ensures refused { IfErr result (λ stop. IfSome (So.remaining source.old) (λ input. HasCauseIn input stop)) }
    ensures text_refused { IfSome (So.remaining source.old) (λ input. IsAccepted words.now → length input ≤ 1048576
        → ¬ (IsPlayable input) → IsTextRefusal result) }
    ensures too_long { IfSome (So.remaining source.old) (λ input. IsAccepted words.now → 1048576 < length input → IsTooLong result) }
    ensures complete { IfSome (So.remaining source.old) (λ input. IsAccepted words.now → length input ≤ 1048576
        → IsPlayable input → IsRunResult result) }
    ensures read { IsErrOf result RunStop.Read → HasRisen (So.faults source.old) (So.faults source.new) }
    ensures long { IsErrOf result RunStop.Long → IfSome (So.remaining source.old) (λ input. 1048576 < length input) }
    ensures rack { IsErrOf result RunStop.Rack → FailsInRun R.Piece.place_of R.Piece.faults (So.remaining source.old)
        (rack_state R.back R.takes R.puts R.faults rack.old) (rack_state R.back R.takes R.puts R.faults rack.new) }
{
    if !is_run(words) {
        return Err(RunStop::Words);
    }
    let input = text_of(alloc, source)?;
    let scenario = scenario_of(alloc, input.as_slice())?;
    let logs = logs_of(alloc, scenario, rack, gate)?;
    match print(alloc, &logs) {
        Ok(text) => Ok(text),
        Err(_) => Err(RunStop::Memory),
    }
}

/// All bytes of a source, up to the limit.
fn text_of<So: Source>(alloc: Global, source: &mut So) -> Result<List<u8>, RunStop>
    ensures whole { IfOk result (λ bytes. IfSome (So.remaining source.old) (λ input. input ≡ bytes)) }
    ensures within { IfOk result (λ bytes. length bytes ≤ 1048576) }
    ensures stop { IfErr result IsReadStop }
    ensures read { IsErrOf result RunStop.Read → HasRisen (So.faults source.old) (So.faults source.new) }
    ensures long { IsErrOf result RunStop.Long → IfSome (So.remaining source.old) (λ input. 1048576 < length input) }
{
    match read_up_to(alloc, source, LIMIT) {
        Ok(Input::Whole(bytes)) => Ok(bytes),
        Ok(Input::TooLong) => Err(RunStop::Long),
        Err(Fault::Failed) => Err(RunStop::Read),
        Err(Fault::NoMemory) => Err(RunStop::Memory),
    }
}

/// The scenario that the bytes spell, if it is one that is played.
fn scenario_of(alloc: Global, bytes: &[u8]) -> Result<Scenario, RunStop>
    ensures played { IfOk result (IsPlayed bytes.now) }
    ensures stop { IfErr result IsTextStop }
    ensures unbuilt { IfErr result (λ stop. is_refusal stop ≡ true → ¬ (IsPlayable bytes.now)) }
    ensures refused { IfErr result (HasCauseIn bytes.now) }
{
    let text = match str::from_utf8(bytes) {
        Ok(text) => text,
        Err(_) => return Err(refused_by(Rule::Utf8)),
    };
    let whole = match read(alloc, text) {
        Ok(whole) => whole,
        Err(ScenarioFault::Bad(bad)) => return Err(RunStop::Scenario(bad)),
        Err(ScenarioFault::NoMemory) => return Err(RunStop::Memory),
    };
    match plain_of(alloc, whole) {
        Ok(scenario) => Ok(scenario),
        Err(FormFault::Past) => Err(refused_by(Rule::Unbuilt)),
        Err(FormFault::NoMemory) => Err(RunStop::Memory),
    }
}

/// The refusal by a rule that no operation breaks.
fn refused_by(rule: Rule) -> RunStop
    ensures { result ≡ RunStop.Scenario (broken rule) }
{
    let place = Place { actor: 0, op: 0 };
    RunStop::Scenario(BadScenario { rule, place })
}

/// The logs of the run of a scenario.
fn logs_of<R: Rack, G: Gate>(
    alloc: Global,
    scenario: Scenario,
    rack: &mut R,
    gate: &G,
) -> Result<Logs, RunStop>
where
    R::Piece: Steady,
    requires { IsFirstForm scenario }
    ensures scenario { IfOk result (λ logs. logs.scenario ≡ scenario) }
    ensures legal { IfOk result (IsLegalRunWhere (IsSome (R.back rack.old))) }
    ensures serial { IfOk result HasSerialEpochs }
    ensures roomy { IfOk result HasRoomThroughout }
    ensures rack { IfOk result (λ logs. LeavesRack logs (rack_state R.back R.takes R.puts R.faults rack.old)
        (rack_state R.back R.takes R.puts R.faults rack.new)) }
    ensures stop { IfErr result IsPlayStop }
    ensures fault { IsErrOf result RunStop.Rack → RackFailed R.Piece.place_of R.Piece.faults scenario.shape
        (rack_state R.back R.takes R.puts R.faults rack.old) (rack_state R.back R.takes R.puts R.faults rack.new) }
{
    match play_serial(alloc, scenario, rack, gate) {
        Ok(logs) => Ok(logs),
        Err(PlayFault::Rack) => Err(RunStop::Rack),
        Err(PlayFault::NoMemory) => Err(RunStop::Memory),
    }
}
