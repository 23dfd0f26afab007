//! What a scan of a gate returns.

ghost use Rattle.std.specs.Prelude.{◌≡◌};
ghost use Rattle.turn_journal.specs.declared.found.ScanError.TheVariants.{Device};

use thiserror::Error;
use turn_disk::DeviceError;

/// What a scan finds at a gate.
#[derive(Clone, Copy, Debug, PartialEq, Eq)]
pub enum Found {
    /// The gate is closed, so the log ends here.
    End,
    /// A frame, with a payload of so many bytes.
    Frame(usize),
}

/// Why a scan is refused.
#[derive(Clone, Copy, Debug, PartialEq, Eq, Error)]
pub enum ScanError {
    /// A device call failed.
    #[error("a device call failed")]
    Device,
    /// The gate is open, and the length after it is over the longest payload's, or the frame doesn't fit.
    #[error("no frame follows the open gate")]
    BadFrame,
}

impl From<DeviceError> for ScanError {
    ghost from_gives = { λ _ e. e ≡ Device };

    fn from(_: DeviceError) -> Self {
        ScanError::Device
    }
}
