//! What a device answers when it does not do what it was asked.

use thiserror::Error;

/// The device failed. Its count of faults has then risen.
#[derive(Clone, Copy, Debug, PartialEq, Eq, Error)]
#[error("the device failed")]
pub struct Failed;

/// Why a device that may take memory did not do what it was asked.
#[derive(Clone, Copy, Debug, PartialEq, Eq, Error)]
pub enum Fault {
    #[error("the device failed")]
    Failed,
    #[error("out of memory")]
    NoMemory,
}
