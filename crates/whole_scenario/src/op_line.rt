//! The text of an operation.

ghost use Rattle.std.specs.Prelude.{◌≡◌, ◌++◌, ◌∷◌, string_bytes, OnOk};
ghost use Rattle.operation_rules.specs.OpRules.{file_names};
ghost use Rattle.operation_text.specs.NamedOps.{job_word, named_text, order_word, payload_text};
ghost use Rattle.operation_text.specs.declared.named_op.NamedOp.TheVariants.{OnFile, Start};
ghost use Rattle.whole_scenario.specs.Canonical.{op_text};
ghost use Rattle.whole_scenario.specs.Names.{job_name, name_at, told_priority};

use crate::op::Op;
use job_rules::{JobId, JobKind};
use operation_text::{DriveOrder, FileAction, JobName, JobOrder, Payload};
use scenario::FileDecl;
use std::alloc::AllocError;
use std::fmt::Write;

/// Adds the text of an operation, in a scenario with these files and jobs. An error may leave a part of it.
pub fn write_op(
    text: &mut String,
    files: &[FileDecl],
    jobs: &[JobName],
    op: &Op,
) -> Result<(), AllocError>
    ensures { OnOk result (string_bytes text.new ≡ string_bytes text.old ++ op_text (file_names files.now) jobs.now op.now) }
{
    match op {
        Op::OnFile { file, action } => write_file_op(text, name_of(files, *file), action),
        Op::OnDrive { order, drive } => write!(
            text,
            "{} {}/{}",
            order_word(*order),
            drive.node(),
            drive.drive()
        ),
        Op::FailNode { node } => write!(text, "failnode {node}"),
        Op::Start {
            kind,
            job,
            priority,
        } => write_start(text, *kind, job_name(jobs, *job), *priority),
        Op::OnJob { order, job } => {
            write!(text, "{} {}", job_word(*order), job_name(jobs, *job))
        }
        Op::Work { steps } => write!(text, "work {steps}"),
        Op::Drain => write!(text, "drain"),
        Op::RestartEngine => write!(text, "restart-engine"),
    }
}

/// Adds the text of an operation on the file of this name.
fn write_file_op(text: &mut String, file: &str, action: &FileAction) -> Result<(), AllocError>
    ensures { OnOk result (string_bytes text.new ≡ string_bytes text.old ++ named_text (OnFile file.now action.now)) }
{
    match action {
        FileAction::Create => write!(text, "create {file}"),
        FileAction::Delete => write!(text, "delete {file}"),
        FileAction::Write { offset, payload } => {
            write!(text, "write {file} {offset} ")?;
            write_payload(text, payload)
        }
        FileAction::Read { offset, len } => write!(text, "read {file} {offset} {len}"),
        FileAction::SetLevel { level } => write!(text, "level {file} {}", level.name()),
    }
}

fn write_payload(text: &mut String, payload: &Payload) -> Result<(), AllocError>
    ensures { OnOk result (string_bytes text.new ≡ string_bytes text.old ++ payload_text payload.now) }
{
    match payload {
        Payload::Text { text: words } => write!(text, "text:{}", words.as_str()),
        Payload::Fill { start, len } => write!(text, "fill:{start}:{len}"),
    }
}

/// Adds the text of a start, with its priority where that is not the one of its kind.
fn write_start(text: &mut String, kind: JobKind, job: &str, priority: u8) -> Result<(), AllocError>
    ensures { OnOk result (string_bytes text.new ≡ string_bytes text.old ++ named_text (Start kind job.now (told_priority kind priority))) }
{
    if priority == kind.default_priority() {
        write!(text, "start {} as {job}", kind.name())
    } else {
        write!(text, "start {} as {job} {priority}", kind.name())
    }
}

fn order_word(order: DriveOrder) -> &'static str
    ensures { result.now ≡ order_word order }
{
    match order {
        DriveOrder::Fail => "fail",
        DriveOrder::Down => "down",
        DriveOrder::Up => "up",
    }
}

fn job_word(order: JobOrder) -> &'static str
    ensures { result.now ≡ job_word order }
{
    match order {
        JobOrder::Pause => "pause",
        JobOrder::Resume => "resume",
        JobOrder::Cancel => "cancel",
    }
}

/// The name of the file of this number, or nothing where there is none.
fn name_of(files: &[FileDecl], file: u16) -> &str
    ensures { result.now ≡ name_at (file_names files.now) file }
{
    match files.get(usize::from(file)) {
        Some(file) => file.name.as_str(),
        None => "",
    }
}

/// The name of the job of this number, or nothing where there is none.
fn job_name(jobs: &[JobName], job: JobId) -> &str
    ensures { result.now ≡ job_name jobs.now job.number }
{
    if job.number == 0 {
        return "";
    }
    match jobs.get(usize::from(job.number - 1)) {
        Some(job) => job.as_str(),
        None => "",
    }
}
