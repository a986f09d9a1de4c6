//! Operations as texts spell them: files and jobs by their names, drives by their digits.
#![tactic(auto)]

mod digits;
mod fields;
mod job_name;
mod named_op;
mod numbers;
mod parts;
mod payload;
mod reading;
mod verb;

pub use digits::Digits;
pub use job_name::JobName;
pub use named_op::{DriveOrder, FileAction, JobOrder, NamedOp, Payload};
pub use reading::{OpFault, read_op};
