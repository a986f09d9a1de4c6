//! The bytes that spell a checkpoint (docs/FORMATS.md, "Checkpoint").

ghost use Rattle.std.specs.Prelude.{◌≡◌, ◌≤◌, ◌<◌, [], ◌∷◌, ◌++◌, IfOk, OnOk, length};
ghost use Rattle.checkpoints.specs.Saved.{AreShort, IsCheckpoint, checkpoint_bytes, drives_bytes, drives_of, item_bytes, items_bytes, job_bytes, jobs_bytes};

use crate::checkpoint::{Checkpoint, ItemSaved, JobSaved};
use crate::drives::drives_of;
use domains::DriveId;
use std::alloc::{AllocError, Global};

/// The mark of a checkpoint, and the format.
const HEAD: [u8; 5] = [0x46, 0x4A, 0x43, 0x50, 1];

/// The bytes that spell a checkpoint.
#[tactic(auto, unfolding(crate::specs::Saved::checkpoint_bytes))]
pub fn write(alloc: Global, checkpoint: &Checkpoint) -> Result<Vec<u8>, AllocError>
    requires { IsCheckpoint checkpoint.now }
    ensures { IfOk result (λ bytes. bytes.items ≡ checkpoint_bytes checkpoint.now) }
{
    let mut bytes = Vec::new(alloc);
    bytes.extend_from_slice(&HEAD)?;
    bytes.extend_from_slice(&checkpoint.started.to_be_bytes())?;
    bytes.push(checkpoint.jobs.len() as u8)?;
    write_jobs(&mut bytes, checkpoint.jobs.as_slice())?;
    Ok(bytes)
}

fn write_jobs(bytes: &mut Vec<u8>, jobs: &[JobSaved]) -> Result<(), AllocError>
    requires { AreShort jobs.now }
    ensures { OnOk result (bytes.new.items ≡ bytes.old.items ++ jobs_bytes jobs.now) }
{
    for job in jobs {
        write_job(bytes, job)?;
    }
    Ok(())
}

#[tactic(auto, unfolding(crate::specs::Saved::job_bytes))]
fn write_job(bytes: &mut Vec<u8>, job: &JobSaved) -> Result<(), AllocError>
    requires bars { length (drives_of job.now.bars) ≤ 200 }
    requires items { length job.now.items ≤ 256 }
    ensures { OnOk result (bytes.new.items ≡ bytes.old.items ++ job_bytes job.now) }
{
    let bars = drives_of(*bytes.allocator(), &job.bars)?;
    bytes.extend_from_slice(&job.job.number.to_be_bytes())?;
    bytes.extend_from_slice(&[job.kind.code(), job.priority])?;
    bytes.extend_from_slice(&job.order.to_be_bytes())?;
    bytes.extend_from_slice(&[u8::from(job.paused), job.phase, bars.len() as u8])?;
    write_drives(bytes, &bars)?;
    bytes.push(u8::from(job.earlier))?;
    bytes.extend_from_slice(&(job.items.len() as u16).to_be_bytes())?;
    write_items(bytes, job.items.as_slice())
}

fn write_drives(bytes: &mut Vec<u8>, drives: &[DriveId]) -> Result<(), AllocError>
    ensures { OnOk result (bytes.new.items ≡ bytes.old.items ++ drives_bytes drives.now) }
{
    for drive in drives {
        bytes.extend_from_slice(&[drive.node(), drive.drive()])?;
    }
    Ok(())
}

fn write_items(bytes: &mut Vec<u8>, items: &[ItemSaved]) -> Result<(), AllocError>
    ensures { OnOk result (bytes.new.items ≡ bytes.old.items ++ items_bytes items.now) }
{
    for item in items {
        write_item(bytes, *item)?;
    }
    Ok(())
}

fn write_item(bytes: &mut Vec<u8>, item: ItemSaved) -> Result<(), AllocError>
    ensures { OnOk result (bytes.new.items ≡ bytes.old.items ++ item_bytes item) }
{
    match item {
        ItemSaved::ToDo { next } => {
            bytes.push(0)?;
            bytes.extend_from_slice(&next.to_be_bytes())
        }
        ItemSaved::Out { next } => {
            bytes.push(1)?;
            bytes.extend_from_slice(&next.to_be_bytes())
        }
        ItemSaved::Whole => push(bytes, 2),
        ItemSaved::Lost => push(bytes, 3),
        ItemSaved::Short => push(bytes, 4),
    }
}

fn push(bytes: &mut Vec<u8>, byte: u8) -> Result<(), AllocError>
    ensures { OnOk result (bytes.new.items ≡ bytes.old.items ++ byte ∷ []) }
{
    bytes.push(byte)?;
    Ok(())
}
