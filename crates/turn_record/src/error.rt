//! Why bytes couldn't be read.

ghost use Rattle.std.specs.Prelude.{◌≡◌};

use std::alloc::{AllocError, AllocFailed};
use thiserror::Error;

/// The first fault of bytes that encode nothing, from the left.
#[derive(Clone, Copy, Debug, PartialEq, Eq, Error)]
pub enum DecodeError {
    /// The bytes end inside a field.
    #[error("the bytes end inside a field")]
    Short,
    /// The first byte of an act is none that its version has.
    #[error("no act has this tag")]
    BadTag,
    /// A value that is out of its range, or that must not stand twice and does.
    #[error("a value is out of its range")]
    BadValue,
    /// A key that isn't above the one before, or a moment that is below it.
    #[error("a key or a moment is out of order")]
    OutOfOrder,
    /// More bytes than one value has.
    #[error("there are bytes after the last field")]
    TrailingBytes,
}

/// Why bytes couldn't be read.
#[derive(Clone, Copy, Debug, PartialEq, Eq, Error)]
pub enum ReadError {
    /// An allocation failed.
    #[error("out of memory")]
    Memory,
    /// The bytes encode nothing, and why.
    #[error("{0}")]
    Malformed(DecodeError),
}

impl From<AllocError> for ReadError {
    ghost use Rattle.turn_record.specs.declared.error.ReadError.TheVariants.{Memory};

    ghost from_gives = { λ _ e. e ≡ Memory };

    fn from(_error: AllocError) -> ReadError {
        ReadError::Memory
    }
}

impl<T: Drop> From<AllocFailed<T>> for ReadError {
    ghost use Rattle.turn_record.specs.declared.error.ReadError.TheVariants.{Memory};

    ghost from_gives = { λ _ e. e ≡ Memory };

    fn from(_error: AllocFailed<T>) -> ReadError {
        ReadError::Memory
    }
}
