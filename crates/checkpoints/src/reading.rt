//! Reading a checkpoint, field by field from left to right.

ghost use Rattle.std.specs.Prelude.{◌≡◌, ◌<◌, ◌^◌, ◌≤◌, ◌-◌, length, map, IfOk, Ok, Some, IsSome};
ghost use Rattle.domains.specs.Drive.{IsDrive};
ghost use Rattle.job_rules.specs.Kinds.{code_of};
ghost use Rattle.checkpoints.specs.Saved.{IsCheckpoint, checkpoint_bytes};
ghost use Rattle.field_readers.specs.FieldReaders.{Gives, each};
ghost use Rattle.checkpoints.specs.CheckpointFields.{Answers, all_of, above, bad_at, drive_at, item_at, job_at, jobs_at, stays, phase_count, raw_drive, raw_item, raw_job, raw_jobs, tail_at, tail_view, this_drive};

use crate::checkpoint::{Checkpoint, ItemSaved, JobSaved};
use crate::drives::set_of;
use crate::fault::{BadCheckpoint, CheckpointFault, CheckpointRule};
use domains::{DriveId, DriveSet};
use field_readers::{Broken, ReadFault, broken, byte_at, u16_at, u32_at};
use job_rules::{JobId, JobKind};
use lists::List;
use std::alloc::Global;

/// The bars of a job, whether an item of an earlier phase ended other than whole, and its items.
struct Tail {
    bars: DriveSet,
    earlier: bool,
    items: Vec<ItemSaved>,
}

/// An item.
#[tactic(auto, unfolding(crate::specs::CheckpointFields::item_at))]
fn item_of(bytes: &[u8]) -> Result<(ItemSaved, &[u8]), ReadFault<CheckpointRule>>
    ensures { Gives (λ x. (raw_item x.0, x.1.now)) result (item_at 0 bytes.now) }
{
    let (state, rest) = byte_at(bytes, CheckpointRule::ItemState, 0..5)?;
    match state {
        0 => {
            let (next, rest) = u16_at(rest, CheckpointRule::Next, 0..258)?;
            Ok((ItemSaved::ToDo { next }, rest))
        }
        1 => {
            let (next, rest) = u16_at(rest, CheckpointRule::Next, 0..258)?;
            Ok((ItemSaved::Out { next }, rest))
        }
        2 => Ok((ItemSaved::Whole, rest)),
        3 => Ok((ItemSaved::Lost, rest)),
        4 => Ok((ItemSaved::Short, rest)),
        _ => unreachable!(),
    }
}

/// A drive behind the one before.
#[tactic(auto, unfolding(crate::specs::CheckpointFields::drive_at))]
fn drive_of(before: (u8, u8), bytes: &[u8]) -> Result<(u8, u8, &[u8]), ReadFault<CheckpointRule>>
    ensures read { Gives (λ x. ((x.0, x.1), x.2.now)) result (drive_at (before.0, before.1) bytes.now) }
    ensures drive { IfOk result (λ x. IsDrive (record { node = x.0; drive = x.1 })) }
{
    let (node, rest) = byte_at(bytes, CheckpointRule::Node, u32::from(before.0.max(1))..33)?;
    let least = if node == before.0 {
        u32::from(before.1) + 1
    } else {
        1
    };
    let (drive, rest) = byte_at(rest, CheckpointRule::Drive, least..17)?;
    Ok((node, drive, rest))
}

/// `count` items.
fn items_of(
    alloc: Global,
    count: u16,
    bytes: &[u8],
) -> Result<(Vec<ItemSaved>, &[u8]), ReadFault<CheckpointRule>>
    ensures { Gives (λ x. (map raw_item x.0.items, x.1.now)) result (each item_at stays count 0 bytes.now) }
{
    let mut items = Vec::new(alloc);
    let mut rest = bytes;
    for _item in 0..count {
        let (item, after) = item_of(rest)?;
        items.push(item)?;
        rest = after;
    }
    Ok((items, rest))
}

/// `count` drives, ascending.
fn drives_of(
    alloc: Global,
    count: u8,
    bytes: &[u8],
) -> Result<(Vec<DriveId>, &[u8]), ReadFault<CheckpointRule>>
    ensures { Gives (λ x. (map raw_drive x.0.items, x.1.now)) result (each drive_at this_drive count (0, 0) bytes.now) }
{
    let mut drives: Vec<DriveId> = Vec::new(alloc);
    let mut before = (0, 0);
    let mut rest = bytes;
    for _drive in 0..count {
        let (node, drive, after) = drive_of(before, rest)?;
        drives.push(DriveId::new(node, drive))?;
        before = (node, drive);
        rest = after;
    }
    Ok((drives, rest))
}

/// The bars of a job and its items.
#[tactic(auto, unfolding(crate::specs::CheckpointFields::tail_at))]
fn tail_of(alloc: Global, bytes: &[u8]) -> Result<(Tail, &[u8]), ReadFault<CheckpointRule>>
    ensures { Gives (λ x. (tail_view x.0, x.1.now)) result (tail_at bytes.now) }
{
    let (count, rest) = byte_at(bytes, CheckpointRule::Bars, 0..201)?;
    let (drives, rest) = match drives_of(alloc, count, rest) {
        Ok(read) => read,
        Err(fault) => return Err(fault),
    };
    let (earlier, rest) = byte_at(rest, CheckpointRule::Earlier, 0..2)?;
    let (count, rest) = u16_at(rest, CheckpointRule::Items, 0..257)?;
    let (items, rest) = items_of(alloc, count, rest)?;
    let tail = Tail {
        bars: set_of(&drives),
        earlier: earlier == 1,
        items,
    };
    Ok((tail, rest))
}

/// A job, when `started` jobs were started, whose number is at least `least`.
#[tactic(auto, unfolding(crate::specs::CheckpointFields::job_at))]
fn job_of(
    alloc: Global,
    started: u16,
    least: u32,
    bytes: &[u8],
) -> Result<(JobSaved, &[u8]), ReadFault<CheckpointRule>>
    ensures { Gives (λ x. (raw_job x.0, x.1.now)) result (job_at started least bytes.now) }
{
    let (number, rest) = u16_at(bytes, CheckpointRule::Job, least..65536)?;
    let (code, rest) = byte_at(rest, CheckpointRule::Kind, 0..10)?;
    let kind = kind_of(code);
    let (priority, rest) = byte_at(rest, CheckpointRule::Priority, 1..11)?;
    let (order, rest) = u16_at(rest, CheckpointRule::Order, 0..u32::from(started))?;
    let (paused, rest) = byte_at(rest, CheckpointRule::Paused, 0..2)?;
    let (phase, rest) = byte_at(rest, CheckpointRule::Phase, 0..phases(kind))?;
    let (tail, rest) = tail_of(alloc, rest)?;
    let Tail {
        bars,
        earlier,
        items,
    } = tail;
    let job = JobSaved {
        job: JobId { number },
        kind,
        priority,
        order,
        paused: paused == 1,
        phase,
        bars,
        earlier,
        items: List::from_vec(items),
    };
    Ok((job, rest))
}

/// The kind of this code.
fn kind_of(code: u8) -> JobKind
    requires { code < 10 }
    ensures { code_of result ≡ code }
{
    match JobKind::of_code(code) {
        Some(kind) => kind,
        None => unreachable!(),
    }
}

/// How many phases the kind has.
fn phases(kind: JobKind) -> u32
    ensures { result ≡ phase_count (code_of kind) }
{
    match kind {
        JobKind::FlexProtect | JobKind::MultiScan => 3,
        JobKind::Collect => 2,
        JobKind::AutoBalance
        | JobKind::SetProtectPlus
        | JobKind::Upgrade
        | JobKind::IntegrityScan
        | JobKind::MediaScan
        | JobKind::SmartPools
        | JobKind::SyncCopy => 1,
    }
}

/// `count` jobs, by ascending numbers.
fn jobs_of(
    alloc: Global,
    started: u16,
    count: u8,
    bytes: &[u8],
) -> Result<(Vec<JobSaved>, &[u8]), ReadFault<CheckpointRule>>
    ensures { Gives (λ x. (map raw_job x.0.items, x.1.now)) result (each (job_at started) above count 0 bytes.now) }
{
    let mut jobs = Vec::new(alloc);
    let mut least: u32 = 0;
    let mut rest = bytes;
    for _job in 0..count {
        let (job, after) = match job_of(alloc, started, least, rest) {
            Ok(read) => read,
            Err(fault) => return Err(fault),
        };
        least = u32::from(job.job.number) + 1;
        jobs.push(job)?;
        rest = after;
    }
    Ok((jobs, rest))
}

/// The checkpoint that begins the bytes.
#[tactic(auto, unfolding(crate::specs::CheckpointFields::jobs_at))]
fn checkpoint_of(
    alloc: Global,
    bytes: &[u8],
) -> Result<(Checkpoint, &[u8]), ReadFault<CheckpointRule>>
    ensures { Gives (λ x. (raw_jobs x.0, x.1.now)) result (jobs_at bytes.now) }
{
    let (_mark, rest) = u32_at(bytes, CheckpointRule::Mark, 0x464A_4350..0x464A_4351)?;
    let (_format, rest) = byte_at(rest, CheckpointRule::Format, 1..2)?;
    let (started, rest) = u16_at(rest, CheckpointRule::Started, 0..65)?;
    let (count, rest) = byte_at(rest, CheckpointRule::Jobs, 0..65)?;
    let (jobs, rest) = match jobs_of(alloc, started, count, rest) {
        Ok(read) => read,
        Err(fault) => return Err(fault),
    };
    let checkpoint = Checkpoint {
        started,
        jobs: List::from_vec(jobs),
    };
    Ok((checkpoint, rest))
}

/// The checkpoint that is all of the bytes.
#[tactic(auto, unfolding(crate::specs::CheckpointFields::all_of))]
fn all_of(alloc: Global, bytes: &[u8]) -> Result<Checkpoint, ReadFault<CheckpointRule>>
    ensures { Gives raw_jobs result (all_of bytes.now) }
{
    let (checkpoint, rest) = match checkpoint_of(alloc, bytes) {
        Ok(read) => read,
        Err(fault) => return Err(fault),
    };
    if !rest.is_empty() {
        return Err(broken(rest, CheckpointRule::Left));
    }
    Ok(checkpoint)
}

/// The checkpoint that the bytes spell, all of them.
pub fn read(alloc: Global, bytes: &[u8]) -> Result<Checkpoint, CheckpointFault>
    requires { length bytes.now < 2 ^ 32 }
    // What is read is spelled so.
    ensures found { IfOk result (λ c. IsCheckpoint c × (bytes.now ≡ checkpoint_bytes c)) }
    // What is spelled so is read, unless memory runs out.
    ensures only { (c : Checkpoint) → IsCheckpoint c → bytes.now ≡ checkpoint_bytes c → Answers bytes.now result (Ok (raw_jobs c)) }
    // Which field is broken.
    ensures exact { Answers bytes.now result (all_of bytes.now) }
{
    match all_of(alloc, bytes) {
        Ok(checkpoint) => Ok(checkpoint),
        Err(ReadFault::Memory) => Err(CheckpointFault::NoMemory),
        Err(ReadFault::Broken(broken)) => Err(CheckpointFault::Bad(bad_at(bytes, broken))),
    }
}

/// What is broken, by its offset.
fn bad_at(bytes: &[u8], broken: Broken<CheckpointRule>) -> BadCheckpoint
    requires { length bytes.now < 2 ^ 32 }
    ensures { result ≡ bad_at (length bytes.now) broken }
{
    match broken {
        Broken::Ends => BadCheckpoint {
            at: bytes.len() as u32,
            what: CheckpointRule::Ends,
        },
        Broken::Field { left, what } => BadCheckpoint {
            at: bytes.len().saturating_sub(left) as u32,
            what,
        },
    }
}
