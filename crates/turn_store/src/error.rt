//! Why the calls of a store are refused.

ghost use Rattle.std.specs.Prelude.{◌≡◌};
ghost use Rattle.turn_store.specs.declared.error.OpenError.TheVariants.{Device, Memory};
ghost use Rattle.turn_store.specs.declared.error.StoreError.TheVariants as store_faults;

use std::alloc::{AllocError, AllocFailed};
use thiserror::Error;
use turn_disk::DeviceError;

/// Why a store was not opened.
#[derive(Clone, Copy, Debug, PartialEq, Eq, Error)]
pub enum OpenError {
    /// A device call failed.
    #[error("a device call failed")]
    Device,
    /// An allocation failed.
    #[error("out of memory")]
    Memory,
    /// The disk doesn't begin with a superblock.
    #[error("not a store")]
    NotAStore,
    /// The store has other limits.
    #[error("limits differ")]
    LimitsDiffer,
    /// What is at this position of the disk is not what a disk that follows the crash model would have.
    #[error("damaged at {0}")]
    Damaged(usize),
}

impl From<DeviceError> for OpenError {
    ghost from_gives = { λ _ e. e ≡ Device };

    fn from(_: DeviceError) -> Self {
        OpenError::Device
    }
}

impl From<AllocError> for OpenError {
    ghost from_gives = { λ _ e. e ≡ Memory };

    fn from(_: AllocError) -> Self {
        OpenError::Memory
    }
}

impl<T: Drop> From<AllocFailed<T>> for OpenError {
    ghost from_gives = { λ _ e. e ≡ Memory };

    fn from(_: AllocFailed<T>) -> Self {
        OpenError::Memory
    }
}

/// Why a batch or a snapshot was not written.
#[derive(Clone, Copy, Debug, PartialEq, Eq, Error)]
pub enum StoreError {
    /// A device call failed: the store is stopped, and has the batch or not.
    #[error("a device call failed")]
    Device,
    /// The generation is the last one, so no snapshot can be written: the store is stopped. Nothing was written.
    #[error("worn")]
    Worn,
    /// The store was stopped by an earlier call. Nothing was done.
    #[error("stopped")]
    Stopped,
}

impl From<DeviceError> for StoreError {
    ghost from_gives = { λ _ e. e ≡ store_faults.Device };

    fn from(_: DeviceError) -> Self {
        StoreError::Device
    }
}
