//! Why words make no command.

ghost use Rattle.std.specs.Prelude.{◌≡◌};
ghost use Rattle.turn_cli.specs.declared.error.CliError.TheVariants.{Memory};

use std::alloc::AllocError;
use thiserror::Error;

/// Why words make no command.
#[derive(Clone, Copy, Debug, PartialEq, Eq, Error)]
pub enum CliError {
    /// Words that make no command, or a value that is malformed or out of range.
    #[error("usage")]
    Usage,
    /// A datagram that isn't written as pairs of hex digits.
    #[error("bad datagram")]
    BadDatagram,
    /// An allocation failed.
    #[error("memory")]
    Memory,
}

impl From<AllocError> for CliError {
    ghost from_gives = { λ _ f. f ≡ Memory };

    fn from(_error: AllocError) -> CliError {
        CliError::Memory
    }
}
