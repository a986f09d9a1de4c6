//! Reads an operation.

ghost use Rattle.std.specs.Prelude.{◌≡◌, IfOk, true};
ghost use Rattle.operation_text.specs.NamedOps.{SpellsOp, word_of, fields_of, has_fields, FitsOp};
ghost use Rattle.operation_text.specs.Fields.{IsOpAt, AnswersAt};
ghost use Rattle.operation_text.specs.Answers.{Answers};
ghost use Rattle.operation_text.specs.LoneOps.{IsLone};
ghost use Rattle.operation_text.specs.declared.named_op.NamedOp.{NamedOp};
ghost use Rattle.operation_text.specs.declared.verb.Verb.TheVariants as verb;

use crate::fields::{level_of, read_fields, start_fields, write_fields};
use crate::named_op::{DriveOrder, FileAction, JobOrder, NamedOp};
use crate::numbers::{number_within, word_before};
use crate::parts::{digits, file_name, job_name};
use crate::payload::payload;
use crate::verb::{Verb, verb_of};
use std::alloc::Global;
use thiserror::Error;

/// Why a text is not read as an operation.
#[derive(Clone, Copy, Debug, PartialEq, Eq, Error)]
pub enum OpFault {
    #[error("the text is no operation")]
    NotAnOp,
    #[error("out of memory")]
    NoMemory,
}

/// The operation that the text spells (docs/FORMATS.md, "Scenario"). A text that spells none is `NotAnOp`.
pub fn read_op(alloc: Global, text: &str) -> Result<NamedOp, OpFault>
    ensures found { IfOk result (SpellsOp text.now) }
    ensures only { (op : NamedOp) → SpellsOp text.now op → Answers result op }
{
    match word_before(text, ' ') {
        Some((word, fields)) => op_with_fields(alloc, word, fields),
        None => lone_op(text),
    }
}

/// The operation of one word.
fn lone_op(text: &str) -> Result<NamedOp, OpFault>
    ensures found { IfOk result (λ op. IsLone op × (word_of op ≡ text.now)) }
    ensures only { (op : NamedOp) → IsLone op → word_of op ≡ text.now → Answers result op }
{
    match text {
        "drain" => Ok(NamedOp::Drain),
        "restart-engine" => Ok(NamedOp::RestartEngine),
        _ => Err(OpFault::NotAnOp),
    }
}

/// The operation of this word and these fields.
fn op_with_fields(alloc: Global, word: &str, fields: &str) -> Result<NamedOp, OpFault>
    ensures found { IfOk result (λ op. (word_of op ≡ word.now) × (fields_of op ≡ fields.now) × (has_fields op ≡ true) × FitsOp op) }
    ensures only { (op : NamedOp) → FitsOp op → has_fields op ≡ true → word_of op ≡ word.now → fields_of op ≡ fields.now → Answers result op }
{
    match verb_of(word) {
        Some(verb) => op_at(alloc, verb, fields),
        None => Err(OpFault::NotAnOp),
    }
}

fn op_at(alloc: Global, verb: Verb, fields: &str) -> Result<NamedOp, OpFault>
    ensures found { IfOk result (IsOpAt verb fields.now) }
    ensures only { AnswersAt verb fields.now result }
{
    match verb {
        Verb::Create => create(alloc, fields),
        Verb::Delete => delete(alloc, fields),
        Verb::Write => write(alloc, fields),
        Verb::Read => read(alloc, fields),
        Verb::Level => level(alloc, fields),
        Verb::Drive(order) => on_drive(alloc, order, fields),
        Verb::FailNode => fail_node(alloc, fields),
        Verb::Start => start(alloc, fields),
        Verb::Job(order) => on_job(alloc, order, fields),
        Verb::Work => work(fields),
    }
}

fn create(alloc: Global, fields: &str) -> Result<NamedOp, OpFault>
    ensures found { IfOk result (IsOpAt verb.Create fields.now) }
    ensures only { AnswersAt verb.Create fields.now result }
{
    let file = file_name(alloc, fields)?;
    Ok(NamedOp::OnFile {
        file,
        action: FileAction::Create,
    })
}

fn delete(alloc: Global, fields: &str) -> Result<NamedOp, OpFault>
    ensures found { IfOk result (IsOpAt verb.Delete fields.now) }
    ensures only { AnswersAt verb.Delete fields.now result }
{
    let file = file_name(alloc, fields)?;
    Ok(NamedOp::OnFile {
        file,
        action: FileAction::Delete,
    })
}

fn write(alloc: Global, fields: &str) -> Result<NamedOp, OpFault>
    ensures found { IfOk result (IsOpAt verb.Write fields.now) }
    ensures only { AnswersAt verb.Write fields.now result }
{
    let Some((name, offset, data)) = write_fields(fields) else {
        return Err(OpFault::NotAnOp);
    };
    let file = file_name(alloc, name)?;
    let payload = payload(alloc, data)?;
    Ok(NamedOp::OnFile {
        file,
        action: FileAction::Write { offset, payload },
    })
}

fn read(alloc: Global, fields: &str) -> Result<NamedOp, OpFault>
    ensures found { IfOk result (IsOpAt verb.Read fields.now) }
    ensures only { AnswersAt verb.Read fields.now result }
{
    let Some((name, offset, len)) = read_fields(fields) else {
        return Err(OpFault::NotAnOp);
    };
    let file = file_name(alloc, name)?;
    Ok(NamedOp::OnFile {
        file,
        action: FileAction::Read { offset, len },
    })
}

fn level(alloc: Global, fields: &str) -> Result<NamedOp, OpFault>
    ensures found { IfOk result (IsOpAt verb.Level fields.now) }
    ensures only { AnswersAt verb.Level fields.now result }
{
    let Some((name, word)) = word_before(fields, ' ') else {
        return Err(OpFault::NotAnOp);
    };
    let Some(level) = level_of(word) else {
        return Err(OpFault::NotAnOp);
    };
    let file = file_name(alloc, name)?;
    Ok(NamedOp::OnFile {
        file,
        action: FileAction::SetLevel { level },
    })
}

fn on_drive(alloc: Global, order: DriveOrder, fields: &str) -> Result<NamedOp, OpFault>
    ensures found { IfOk result (IsOpAt (verb.Drive order) fields.now) }
    ensures only { AnswersAt (verb.Drive order) fields.now result }
{
    let Some((front, rest)) = word_before(fields, '/') else {
        return Err(OpFault::NotAnOp);
    };
    let node = digits(alloc, front)?;
    let drive = digits(alloc, rest)?;
    Ok(NamedOp::OnDrive { order, node, drive })
}

fn fail_node(alloc: Global, fields: &str) -> Result<NamedOp, OpFault>
    ensures found { IfOk result (IsOpAt verb.FailNode fields.now) }
    ensures only { AnswersAt verb.FailNode fields.now result }
{
    let node = digits(alloc, fields)?;
    Ok(NamedOp::FailNode { node })
}

fn start(alloc: Global, fields: &str) -> Result<NamedOp, OpFault>
    ensures found { IfOk result (IsOpAt verb.Start fields.now) }
    ensures only { AnswersAt verb.Start fields.now result }
{
    let Some((kind, name, priority)) = start_fields(fields) else {
        return Err(OpFault::NotAnOp);
    };
    let job = job_name(alloc, name)?;
    Ok(NamedOp::Start {
        kind,
        job,
        priority,
    })
}

fn on_job(alloc: Global, order: JobOrder, fields: &str) -> Result<NamedOp, OpFault>
    ensures found { IfOk result (IsOpAt (verb.Job order) fields.now) }
    ensures only { AnswersAt (verb.Job order) fields.now result }
{
    let job = job_name(alloc, fields)?;
    Ok(NamedOp::OnJob { order, job })
}

fn work(fields: &str) -> Result<NamedOp, OpFault>
    ensures found { IfOk result (IsOpAt verb.Work fields.now) }
    ensures only { AnswersAt verb.Work fields.now result }
{
    match number_within(fields, 1, 65_536) {
        Some(steps) => Ok(NamedOp::Work { steps }),
        None => Err(OpFault::NotAnOp),
    }
}
