//! Makes the parts of an operation from their texts.

ghost use Rattle.std.specs.Prelude.{◌≡◌, IfOk};
ghost use Rattle.scenario.specs.Words.{IsName, IsText};
ghost use Rattle.operation_text.specs.Words.{IsJobName, IsNumberText};
ghost use Rattle.operation_text.specs.Answers.{Answers};

use crate::digits::Digits;
use crate::job_name::JobName;
use crate::reading::OpFault;
use scenario::{Name, Text};
use std::alloc::Global;

/// The name of a file that the text is.
pub(crate) fn file_name(alloc: Global, text: &str) -> Result<Name, OpFault>
    ensures found { IfOk result (λ name. (name ≡ text.now) × IsName text.now) }
    ensures only { IsName text.now → Answers result text.now }
{
    let copy = String::from_str(alloc, text).map_err(|_| OpFault::NoMemory)?;
    Name::new(copy).ok_or(OpFault::NotAnOp)
}

/// The name of a job that the text is.
pub(crate) fn job_name(alloc: Global, text: &str) -> Result<JobName, OpFault>
    ensures found { IfOk result (λ name. (name ≡ text.now) × IsJobName text.now) }
    ensures only { IsJobName text.now → Answers result text.now }
{
    let copy = String::from_str(alloc, text).map_err(|_| OpFault::NoMemory)?;
    JobName::new(copy).ok_or(OpFault::NotAnOp)
}

/// The number that the text is.
pub(crate) fn digits(alloc: Global, text: &str) -> Result<Digits, OpFault>
    ensures found { IfOk result (λ digits. (digits ≡ text.now) × IsNumberText text.now) }
    ensures only { IsNumberText text.now → Answers result text.now }
{
    let copy = String::from_str(alloc, text).map_err(|_| OpFault::NoMemory)?;
    Digits::new(copy).ok_or(OpFault::NotAnOp)
}

/// The text that a write brings.
pub(crate) fn text(alloc: Global, text: &str) -> Result<Text, OpFault>
    ensures found { IfOk result (λ bytes. (bytes ≡ text.now) × IsText text.now) }
    ensures only { IsText text.now → Answers result text.now }
{
    let copy = String::from_str(alloc, text).map_err(|_| OpFault::NoMemory)?;
    Text::new(copy).ok_or(OpFault::NotAnOp)
}
