//! An operation by the numbers of its file, its job and its drive.

ghost use Rattle.std.specs.Prelude.{◌≡◌, ◌≤◌, ℕ, List, true, false};
ghost use Rattle.std.specs.BTreeMap.{get_by_text};
ghost use Rattle.std.specs.Str.Parse.{digits_value};
ghost use Rattle.operation_rules.specs.OpRules.{is_number_up_to, is_outside};
ghost use Rattle.scenario_reader.specs.Numbers.{place_of};
ghost use Rattle.scenario_reader.specs.Resolved.{drive_of, op_of, priority_or};

use crate::numbers::NameNumbers;
use domains::{DriveId, Shape};
use job_rules::{JobId, JobKind};
use operation_text::{Digits, NamedOp};
use whole_scenario::Op;

/// The operation by its numbers, where the files and the jobs have these.
pub(crate) fn op_of(files: &NameNumbers, jobs: &NameNumbers, shape: Shape, op: NamedOp) -> Op
    requires { is_outside shape op ≡ false }
    ensures { (names started : List (List ℕ)) → ((q : List ℕ) → get_by_text files.now.numbers q ≡ place_of names 0 q) → ((q : List ℕ) → get_by_text jobs.now.numbers q ≡ place_of started 1 q) → result ≡ op_of names started op }
{
    match op {
        NamedOp::OnFile { file, action } => Op::OnFile {
            file: files.number(file.as_str()),
            action,
        },
        NamedOp::OnDrive { order, node, drive } => Op::OnDrive {
            order,
            drive: drive_of(shape, &node, &drive),
        },
        NamedOp::FailNode { node } => Op::FailNode {
            node: value_of(&node, shape.nodes()),
        },
        NamedOp::Start {
            kind,
            job,
            priority,
        } => Op::Start {
            kind,
            job: JobId {
                number: jobs.number(job.as_str()),
            },
            priority: priority_or(kind, priority),
        },
        NamedOp::OnJob { order, job } => Op::OnJob {
            order,
            job: JobId {
                number: jobs.number(job.as_str()),
            },
        },
        NamedOp::Work { steps } => Op::Work { steps },
        NamedOp::Drain => Op::Drain,
        NamedOp::RestartEngine => Op::RestartEngine,
    }
}

/// The drive of these digits, which is one of the cluster.
fn drive_of(shape: Shape, node: &Digits, drive: &Digits) -> DriveId
    requires node { is_number_up_to shape.nodes node.now ≡ true }
    requires drive { is_number_up_to shape.drives drive.now ≡ true }
    ensures { result ≡ drive_of node.now drive.now }
{
    DriveId::new(
        value_of(node, shape.nodes()),
        value_of(drive, shape.drives()),
    )
}

/// The number of these digits, which is 1 to `most`.
fn value_of(number: &Digits, most: u8) -> u8
    requires { is_number_up_to most number.now ≡ true }
    ensures value { result ≡ digits_value 10 number.now }
    ensures some { 1 ≤ result }
    ensures few { result ≤ most }
{
    match number.as_str().parse::<u8>() {
        Ok(value) => value,
        Err(_) => unreachable!(),
    }
}

/// The priority, or that of the kind where none is given.
fn priority_or(kind: JobKind, priority: Option<u8>) -> u8
    ensures { result ≡ priority_or kind priority }
{
    match priority {
        Some(priority) => priority,
        None => kind.default_priority(),
    }
}
