//! Why the calls of a server are refused.

ghost use Rattle.std.specs.Prelude.{◌≡◌};
ghost use Rattle.turn_engine.specs.declared.error.SubmitError.TheVariants as submits;

use std::alloc::AllocError;
use thiserror::Error;
use turn_cred::AuthHandler;
use turn_disk::Disk;
use turn_ports::RelayAddressGenerator;
use turn_store::OpenError;

/// Why an arrival was not taken.
#[derive(Clone, Copy, Debug, PartialEq, Eq, Error)]
pub enum SubmitError {
    /// The clock is at the arrival's moment, and nothing else has changed.
    #[error("out of memory")]
    Memory,
    /// As many arrivals are staged as a batch may have. Nothing has changed.
    #[error("batch full")]
    BatchFull,
    /// A commit failed. Nothing has changed.
    #[error("stopped")]
    Stopped,
}

impl From<AllocError> for SubmitError {
    ghost from_gives = { λ _ e. e ≡ submits.Memory };

    fn from(_: AllocError) -> Self {
        SubmitError::Memory
    }
}

/// A server that was not opened: why, and what it was to be made of.
#[derive(Drop)]
pub struct ServerOpenError<D: Disk, H: AuthHandler, G: RelayAddressGenerator> {
    /// Why it was not opened.
    pub fault: OpenError,
    /// The disk, after the device calls that were made.
    pub disk: D,
    /// The handler, as it was passed.
    pub handler: H,
    /// The generator, as it was passed.
    pub ports: G,
}
