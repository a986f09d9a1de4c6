//! Reads the bytes that a write brings.

ghost use Rattle.std.specs.Prelude.{codes, ◌≡◌, ◌++◌, List, ℕ, IfOk};
ghost use Rattle.scenario.specs.Words.{IsText};
ghost use Rattle.operation_text.specs.NamedOps.{payload_text, FitsPayload};
ghost use Rattle.operation_text.specs.declared.named_op.Payload.{Payload};
ghost use Rattle.operation_text.specs.Answers.{Answers};
ghost use Rattle.operation_text.specs.declared.named_op.Payload.TheVariants.{Text, Fill};

use crate::fields::fill_fields;
use crate::named_op::Payload;
use crate::numbers::after;
use crate::parts::text;
use crate::reading::OpFault;
use std::alloc::Global;

/// The payload that the text spells.
pub(crate) fn payload(alloc: Global, data: &str) -> Result<Payload, OpFault>
    ensures found { IfOk result (λ payload. (data.now ≡ payload_text payload) × FitsPayload payload) }
    ensures only { (payload : Payload) → FitsPayload payload → data.now ≡ payload_text payload → Answers result payload }
{
    match after(data, "text:") {
        Some(words) => text_payload(alloc, words),
        None => fill_payload(data),
    }
}

fn text_payload(alloc: Global, words: &str) -> Result<Payload, OpFault>
    ensures found { IfOk result (λ payload. (payload ≡ Text words.now) × IsText words.now) }
    ensures only { IsText words.now → Answers result (Text words.now) }
{
    let text = text(alloc, words)?;
    Ok(Payload::Text { text })
}

fn fill_payload(data: &str) -> Result<Payload, OpFault>
    ensures found { IfOk result (λ payload. (data.now ≡ payload_text payload) × FitsPayload payload) }
    ensures only { (start len : ℕ) → FitsPayload (Fill start len) → data.now ≡ payload_text (Fill start len) → Answers result (Fill start len) }
{
    match fill_fields(data) {
        Some((start, len)) => Ok(Payload::Fill { start, len }),
        None => Err(OpFault::NotAnOp),
    }
}
