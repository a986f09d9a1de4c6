//! The words that operations with fields begin with.

ghost use Rattle.std.specs.Prelude.{◌≡◌, Some, IfSome};
ghost use Rattle.operation_text.specs.Fields.{verb_word};
ghost use Rattle.operation_text.specs.declared.verb.Verb.{Verb};

use crate::named_op::{DriveOrder, JobOrder};

/// What an operation with fields does.
#[derive(Clone, Copy, Debug, PartialEq, Eq)]
pub(crate) enum Verb {
    Create,
    Delete,
    Write,
    Read,
    Level,
    Drive(DriveOrder),
    FailNode,
    Start,
    Job(JobOrder),
    Work,
}

/// The verb of this word, if it is one.
pub(crate) fn verb_of(word: &str) -> Option<Verb>
    ensures found { IfSome result (λ verb. verb_word verb ≡ word.now) }
    ensures only { (verb : Verb) → verb_word verb ≡ word.now → result ≡ Some verb }
{
    match word {
        "create" => Some(Verb::Create),
        "delete" => Some(Verb::Delete),
        "write" => Some(Verb::Write),
        "read" => Some(Verb::Read),
        "level" => Some(Verb::Level),
        "fail" => Some(Verb::Drive(DriveOrder::Fail)),
        "down" => Some(Verb::Drive(DriveOrder::Down)),
        "up" => Some(Verb::Drive(DriveOrder::Up)),
        "failnode" => Some(Verb::FailNode),
        "start" => Some(Verb::Start),
        "pause" => Some(Verb::Job(JobOrder::Pause)),
        "resume" => Some(Verb::Job(JobOrder::Resume)),
        "cancel" => Some(Verb::Job(JobOrder::Cancel)),
        "work" => Some(Verb::Work),
        _ => None,
    }
}
