//! Why an operation of a file was refused.

ghost use Rattle.std.specs.Prelude.{◌≡◌, ℕ, List, IfOk};
ghost use Rattle.domains.specs.Drive.{Drive};
ghost use Rattle.domains.specs.declared.group.Lost as lost;
ghost use Rattle.domains.specs.declared.room.TooFew as few;
ghost use Rattle.file_history.specs.declared.entry.Refused as refused;
ghost use Rattle.report_reader.specs.Lines.{IsLost, IsNoRoom, IsRefused, IsTooFew};
ghost use Rattle.report_reader.specs.Refusals.{IsCreateRefusal, IsReadRefusal, IsWriteRefusal, lost_rest, no_room_rest, reason_head, reason_rest, too_few_rest};

use crate::comma_lists::drives_of;
use crate::words::{cut, u8_of, u16_of, u32_of, u64_of};
use domains::{DriveId, Lost, TooFew};
use file_history::Refused;
use std::alloc::{AllocError, Global};

fn too_few_of(text: &str) -> TooFew
    ensures only { (t : few.TooFew) → IsTooFew t → text.now ≡ too_few_rest t → result ≡ t }
    ensures fits { IsTooFew result }
{
    let (have, need) = cut(text, ' ');
    TooFew {
        have: u16_of(have),
        need: u8_of(need),
    }
}

fn lost_of(text: &str) -> Lost
    ensures only { (l : lost.Lost) → IsLost l → text.now ≡ lost_rest l → result ≡ l }
    ensures fits { IsLost result }
{
    let (generation, rest) = cut(text, ' ');
    let (have, need) = cut(rest, ' ');
    Lost {
        generation: u32_of(generation),
        have: u8_of(have),
        need: u8_of(need),
    }
}

/// How many slots were asked for and found, and the drives that were found empty.
struct NoRoom {
    need: u8,
    got: u8,
    drives: Vec<DriveId>,
}

fn no_room_of(alloc: Global, text: &str) -> Result<NoRoom, AllocError>
    ensures only { IfOk result (λ x. (need : ℕ) (got : ℕ) (drives : List Drive) → IsNoRoom need got drives → text.now ≡ no_room_rest need got drives → (x.need ≡ need) × (x.got ≡ got) × (x.drives.items ≡ drives)) }
    ensures fits { IfOk result (λ x. IsNoRoom x.need x.got x.drives.items) }
{
    let (need, rest) = cut(text, ' ');
    let (got, rest) = cut(rest, ' ');
    let drives = drives_of(alloc, rest)?;
    Ok(NoRoom {
        need: u8_of(need),
        got: u8_of(got),
        drives,
    })
}

/// The refusal of a create, by the first word of its reason and what follows it.
pub(crate) fn create_refusal(alloc: Global, word: &str, rest: &str) -> Result<Refused, AllocError>
    ensures only { IfOk result (λ x. (r : refused.Refused) → IsRefused r → IsCreateRefusal r → word.now ≡ reason_head r → rest.now ≡ reason_rest r → x ≡ r) }
    ensures fits { IfOk result IsRefused }
{
    match word {
        "exists" => Ok(Refused::CreateExists),
        "toofew" => Ok(Refused::CreateTooFew(too_few_of(rest))),
        _ => {
            let NoRoom { need, got, drives } = no_room_of(alloc, rest)?;
            let drives = lists::List::from_vec(drives);
            Ok(Refused::CreateNoRoom { need, got, drives })
        }
    }
}

/// The refusal of a write.
pub(crate) fn write_refusal(
    alloc: Global,
    offset: u64,
    len: u32,
    word: &str,
    rest: &str,
) -> Result<Refused, AllocError>
    ensures only { IfOk result (λ x. (r : refused.Refused) → IsRefused r → IsWriteRefusal offset len r → word.now ≡ reason_head r → rest.now ≡ reason_rest r → x ≡ r) }
    ensures fits { IfOk result IsRefused }
{
    match word {
        "absent" => Ok(Refused::WriteAbsent { offset, len }),
        "toofew" => {
            let fault = too_few_of(rest);
            Ok(Refused::WriteTooFew { offset, len, fault })
        }
        "toolong" => {
            let count = u64_of(rest);
            Ok(Refused::WriteTooLong { offset, len, count })
        }
        "lost" => {
            let lost = lost_of(rest);
            Ok(Refused::WriteLost { offset, len, lost })
        }
        _ => {
            let NoRoom { need, got, drives } = no_room_of(alloc, rest)?;
            let drives = lists::List::from_vec(drives);
            Ok(Refused::WriteNoRoom {
                offset,
                len,
                need,
                got,
                drives,
            })
        }
    }
}

/// The refusal of a read.
pub(crate) fn read_refusal(offset: u64, len: u32, word: &str, rest: &str) -> Refused
    ensures only { (r : refused.Refused) → IsRefused r → IsReadRefusal offset len r → word.now ≡ reason_head r → rest.now ≡ reason_rest r → result ≡ r }
    ensures fits { IsRefused result }
{
    match word {
        "absent" => Refused::ReadAbsent { offset, len },
        _ => {
            let lost = lost_of(rest);
            Refused::ReadLost { offset, len, lost }
        }
    }
}
