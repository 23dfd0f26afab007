//! Why a store was not read.

ghost use Rattle.std.specs.Prelude.{◌≡◌};
ghost use Rattle.turn_reading.specs.Readings.{of_limits, of_open};

use thiserror::Error;
use turn_store::{LimitsError, OpenError};
use turn_types::Limits;

/// Why a store was not read.
#[derive(Clone, Copy, Debug, PartialEq, Eq, Error)]
pub enum ReadingError {
    /// A device call failed.
    #[error("a device call failed")]
    Device,
    /// An allocation failed.
    #[error("out of memory")]
    Memory,
    /// The disk doesn't begin with a superblock.
    #[error("not a store")]
    NotAStore,
    /// The store has other limits than those that were given.
    #[error("limits differ")]
    LimitsDiffer,
    /// What is at this position of the disk is not what a disk that follows the crash model would have.
    #[error("damaged at {0}")]
    Damaged(usize),
    /// The store was changed each time it was read.
    #[error("changing")]
    Changing,
}

impl From<LimitsError> for ReadingError {
    ghost from_gives = { λ refused fault. fault ≡ of_limits refused };

    fn from(refused: LimitsError) -> ReadingError {
        match refused {
            LimitsError::Device => ReadingError::Device,
            LimitsError::NotAStore => ReadingError::NotAStore,
        }
    }
}

/// The fault of an opening under given limits, or under those that the store had a moment before: if it has others now, it was
/// changed.
pub fn fault_of(limits: &Option<Limits>, fault: OpenError) -> ReadingError
    ensures { result ≡ of_open limits.now fault }
{
    match fault {
        OpenError::Device => ReadingError::Device,
        OpenError::Memory => ReadingError::Memory,
        OpenError::NotAStore => ReadingError::NotAStore,
        OpenError::LimitsDiffer => match limits {
            None => ReadingError::Changing,
            Some(_) => ReadingError::LimitsDiffer,
        },
        OpenError::Damaged(place) => ReadingError::Damaged(place),
    }
}
