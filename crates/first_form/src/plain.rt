//! Operations of the whole language as plain ones.

ghost use Rattle.std.specs.Prelude.{◌≡◌, ◌++◌, ◌∷◌, [], false, List, None, IfOk, IfSome, OnOk};
ghost use Rattle.std.specs.Result.{IsErrOf};
ghost use Rattle.scenario.specs.declared.op.Op.{Op};
ghost use Rattle.whole_scenario.specs.declared.op.Op.TheVariants.{OnDrive, OnFile};
ghost use Rattle.first_form.specs.Wholes.{is_plain, is_plain_action, op_whole, script_whole, scripts_whole};

use domains::DriveId;
use lists::List;
use operation_text::{DriveOrder, FileAction, Payload};
use scenario::{Op, Script};
use std::alloc::Global;
use thiserror::Error;
use whole_scenario as whole;

/// Why a scenario is not given as one of the first form.
#[derive(Clone, Copy, Debug, PartialEq, Eq, Error)]
pub enum FormFault {
    #[error("the scenario is past the first form")]
    Past,
    #[error("out of memory")]
    NoMemory,
}

/// The scripts by plain operations.
pub(crate) fn plain_scripts(
    alloc: Global,
    scripts: List<whole::Script>,
) -> Result<List<Script>, FormFault>
    ensures found { IfOk result (λ plain. scripts ≡ scripts_whole plain) }
    ensures past { IsErrOf result FormFault.Past → (plain : List (List Op)) → scripts ≡ scripts_whole plain → ⊥ }
{
    let mut plain = List::new(alloc);
    for script in scripts.into_vec() {
        add_script(&mut plain, plain_script(alloc, script)?)?;
    }
    Ok(plain)
}

fn add_script(plain: &mut List<Script>, script: Script) -> Result<(), FormFault>
    ensures added { OnOk result (scripts_whole plain.new ≡ scripts_whole plain.old ++ script_whole script ∷ []) }
    ensures kind { IsErrOf result FormFault.Past → ⊥ }
{
    match plain.push(script) {
        Ok(()) => Ok(()),
        Err(_) => Err(FormFault::NoMemory),
    }
}

/// The script by plain operations.
fn plain_script(alloc: Global, script: whole::Script) -> Result<Script, FormFault>
    ensures found { IfOk result (λ plain. script ≡ script_whole plain) }
    ensures past { IsErrOf result FormFault.Past → (plain : List Op) → script ≡ script_whole plain → ⊥ }
{
    let mut plain = List::new(alloc);
    for op in script.into_vec() {
        add_op(&mut plain, op)?;
    }
    Ok(plain)
}

/// Adds an operation, if it is a plain one.
fn add_op(plain: &mut Script, op: whole::Op) -> Result<(), FormFault>
    ensures added { OnOk result (script_whole plain.new ≡ script_whole plain.old ++ op ∷ []) }
    ensures past { IsErrOf result FormFault.Past → is_plain op ≡ false }
{
    let Some(op) = plain_op(op) else {
        return Err(FormFault::Past);
    };
    match plain.push(op) {
        Ok(()) => Ok(()),
        Err(_) => Err(FormFault::NoMemory),
    }
}

/// The plain operation, if it is one.
fn plain_op(op: whole::Op) -> Option<Op>
    ensures found { IfSome result (λ o. op ≡ op_whole o) }
    ensures none { result ≡ None → is_plain op ≡ false }
{
    match op {
        whole::Op::OnFile { file, action } => plain_action(file, action),
        whole::Op::OnDrive { order, drive } => plain_order(order, drive),
        _ => None,
    }
}

fn plain_order(order: DriveOrder, drive: DriveId) -> Option<Op>
    ensures found { IfSome result (λ o. OnDrive order drive ≡ op_whole o) }
    ensures none { result ≡ None → is_plain (OnDrive order drive) ≡ false }
{
    match order {
        DriveOrder::Fail => Some(Op::Fail { drive }),
        DriveOrder::Down | DriveOrder::Up => None,
    }
}

fn plain_action(file: u16, action: FileAction) -> Option<Op>
    ensures found { IfSome result (λ o. OnFile file action ≡ op_whole o) }
    ensures none { result ≡ None → is_plain_action action ≡ false }
{
    match action {
        FileAction::Create => Some(Op::Create { file }),
        FileAction::Write {
            offset,
            payload: Payload::Text { text },
        } => Some(Op::WriteText { file, offset, text }),
        FileAction::Read { offset, len } => Some(Op::Read { file, offset, len }),
        _ => None,
    }
}
