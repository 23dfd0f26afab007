//! Why a client doesn't go on.

ghost use Rattle.std.specs.Prelude.{◌≡◌};
ghost use Rattle.turn_client.specs.declared.error.ClientError.TheVariants as faults;

use std::alloc::AllocError;
use thiserror::Error;
use turn_codec::PushError;
use turn_disk::Disk;
use turn_serving::{SetupError, StartError, TurnError};

/// Why a client doesn't go on.
#[derive(Clone, Copy, Debug, PartialEq, Eq, Error)]
pub enum ClientError {
    /// A socket can't be bound or used.
    #[error("socket")]
    Socket,
    /// Nothing came in time.
    #[error("no answer")]
    Silent,
    /// Something else came than was expected.
    #[error("another answer")]
    Unexpected,
    /// A request would be too long for a message.
    #[error("too long")]
    TooLong,
    /// An allocation failed.
    #[error("out of memory")]
    Memory,
    /// The server didn't start.
    #[error("{0}")]
    Start(StartError),
    /// A turn of the server failed.
    #[error("{0}")]
    Turn(TurnError),
}

impl<D: Disk + Drop> From<SetupError<D>> for ClientError {
    ghost from_gives = { λ refused f. f ≡ faults.Start refused.fault };

    fn from(refused: SetupError<D>) -> ClientError {
        ClientError::Start(refused.fault)
    }
}

impl From<TurnError> for ClientError {
    ghost from_gives = { λ fault f. f ≡ faults.Turn fault };

    fn from(fault: TurnError) -> ClientError {
        ClientError::Turn(fault)
    }
}

impl From<AllocError> for ClientError {
    ghost from_gives = { λ _ f. f ≡ faults.Memory };

    fn from(_: AllocError) -> ClientError {
        ClientError::Memory
    }
}

impl From<PushError> for ClientError {
    fn from(error: PushError) -> ClientError {
        match error {
            PushError::TooLong => ClientError::TooLong,
            PushError::Memory => ClientError::Memory,
        }
    }
}
