//! Why allocations were not ended.

use std::alloc::AllocError;
use thiserror::Error;
use turn_codec::PushError;
use turn_engine::SubmitError;
use turn_store::StoreError;

/// Why an allocation was not ended. Those before it were.
#[derive(Clone, Copy, Debug, PartialEq, Eq, Error)]
pub enum EndError {
    /// A commit failed.
    #[error("{0}")]
    Store(StoreError),
    /// An allocation failed.
    #[error("out of memory")]
    Memory,
    /// The Refresh was refused.
    #[error("refused")]
    Refused,
}

impl From<AllocError> for EndError {
    fn from(_: AllocError) -> EndError {
        EndError::Memory
    }
}

impl From<PushError> for EndError {
    fn from(fault: PushError) -> EndError {
        match fault {
            PushError::Memory => EndError::Memory,
            PushError::TooLong => EndError::Refused,
        }
    }
}

impl From<StoreError> for EndError {
    fn from(fault: StoreError) -> EndError {
        EndError::Store(fault)
    }
}

impl From<SubmitError> for EndError {
    fn from(fault: SubmitError) -> EndError {
        match fault {
            SubmitError::Memory => EndError::Memory,
            SubmitError::BatchFull => EndError::Refused,
            SubmitError::Stopped => EndError::Store(StoreError::Stopped),
        }
    }
}
