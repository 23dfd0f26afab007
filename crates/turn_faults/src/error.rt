//! Why a command ended without its answer.

ghost use Rattle.std.specs.Prelude.{◌≡◌};
ghost use Rattle.turn_faults.specs.Faults.{of_config, of_file, of_format, of_open, of_reading, of_store};
ghost use Rattle.turn_faults.specs.Status.{status_of};
ghost use Rattle.turn_faults.specs.declared.error.ProgramError.TheVariants as faults;

use crate::probe::ProbeFault;
use std::alloc::AllocError;
use thiserror::Error;
use turn_config::ConfigTextError;
use turn_disk::{DeviceError, FileError};
use turn_nbd::NbdError;
use turn_reading::ReadingError;
use turn_store::{FormatError, OpenError, StoreError};

/// Why a command ended without its answer: shown as the line that is printed on standard error.
#[derive(Clone, Copy, Debug, PartialEq, Eq, Error)]
pub enum ProgramError {
    /// Words that make no command, or a value that is malformed or out of range.
    #[error("turn: usage")]
    Usage,
    /// A datagram that isn't written as pairs of hex digits.
    #[error("turn: bad datagram")]
    BadDatagram,
    /// A malformed line of a file.
    #[error("turn: line {0}: bad line")]
    BadLine(u64),
    /// A file that doesn't begin with a store's superblock.
    #[error("turn: not a store")]
    NotAStore,
    /// A store that is not what a disk that follows the crash model would have, from this position on.
    #[error("turn: damaged at {0}")]
    Damaged(usize),
    /// A store that was formatted with other limits than those of the configuration.
    #[error("turn: limits differ")]
    LimitsDiffer,
    /// An area below the min size, which is this.
    #[error("turn: area too small, needs {0}")]
    AreaTooSmall(usize),
    /// A store whose generation is the last one.
    #[error("turn: worn")]
    Worn,
    /// A store that another process has open to write to, or that was changed each time it was read.
    #[error("turn: store in use")]
    StoreInUse,
    /// A file that can't be read or written or is too long, an export that can't be reached or is refused, a system that tells no time, or standard output took no more.
    #[error("turn: device")]
    Device,
    /// A socket that can't be opened, used or waited for. In the demonstration also an answer that doesn't come.
    #[error("turn: socket")]
    Socket,
    /// A scenario's report is not what a line of it expects.
    #[error("turn: line {0}: differs")]
    Differs(u64),
    /// An allocation failed.
    #[error("turn: memory")]
    Memory,
    /// A step of a probe failed.
    #[error("turn: probe: {0}")]
    Probe(ProbeFault),
}

impl From<AllocError> for ProgramError {
    ghost from_gives = { λ _ f. f ≡ faults.Memory };

    fn from(_error: AllocError) -> ProgramError {
        ProgramError::Memory
    }
}

impl From<DeviceError> for ProgramError {
    ghost from_gives = { λ _ f. f ≡ faults.Device };

    fn from(_error: DeviceError) -> ProgramError {
        ProgramError::Device
    }
}

impl From<FileError> for ProgramError {
    ghost from_gives = { λ refused f. f ≡ of_file refused };

    fn from(refused: FileError) -> ProgramError {
        match refused {
            FileError::InUse => ProgramError::StoreInUse,
            FileError::Device(_) => ProgramError::Device,
        }
    }
}

impl From<NbdError> for ProgramError {
    ghost from_gives = { λ _ f. f ≡ faults.Device };

    fn from(_refused: NbdError) -> ProgramError {
        ProgramError::Device
    }
}

impl From<ConfigTextError> for ProgramError {
    ghost from_gives = { λ fault f. f ≡ of_config fault };

    fn from(fault: ConfigTextError) -> ProgramError {
        match fault {
            ConfigTextError::BadLine(number) => ProgramError::BadLine(number),
            ConfigTextError::Memory => ProgramError::Memory,
        }
    }
}

impl From<ReadingError> for ProgramError {
    ghost from_gives = { λ fault f. f ≡ of_reading fault };

    fn from(fault: ReadingError) -> ProgramError {
        match fault {
            ReadingError::Device => ProgramError::Device,
            ReadingError::Memory => ProgramError::Memory,
            ReadingError::NotAStore => ProgramError::NotAStore,
            ReadingError::LimitsDiffer => ProgramError::LimitsDiffer,
            ReadingError::Damaged(place) => ProgramError::Damaged(place),
            // A server writes to it.
            ReadingError::Changing => ProgramError::StoreInUse,
        }
    }
}

impl From<OpenError> for ProgramError {
    ghost from_gives = { λ fault f. f ≡ of_open fault };

    fn from(fault: OpenError) -> ProgramError {
        match fault {
            OpenError::Device => ProgramError::Device,
            OpenError::Memory => ProgramError::Memory,
            OpenError::NotAStore => ProgramError::NotAStore,
            OpenError::LimitsDiffer => ProgramError::LimitsDiffer,
            OpenError::Damaged(place) => ProgramError::Damaged(place),
        }
    }
}

impl From<FormatError> for ProgramError {
    ghost from_gives = { λ fault f. f ≡ of_format fault };

    fn from(fault: FormatError) -> ProgramError {
        match fault {
            FormatError::Device => ProgramError::Device,
            FormatError::AreaTooSmall(needed) => ProgramError::AreaTooSmall(needed),
        }
    }
}

impl From<StoreError> for ProgramError {
    ghost from_gives = { λ fault f. f ≡ of_store fault };

    fn from(fault: StoreError) -> ProgramError {
        match fault {
            // A store stops after a failed device call.
            StoreError::Device | StoreError::Stopped => ProgramError::Device,
            StoreError::Worn => ProgramError::Worn,
        }
    }
}

impl ProgramError {
    /// The exit status that goes with the fault.
    pub fn status(self) -> u8
        ensures { result ≡ status_of self }
    {
        match self {
            ProgramError::Usage | ProgramError::BadDatagram | ProgramError::BadLine(_) => 1,
            ProgramError::NotAStore | ProgramError::Damaged(_) | ProgramError::LimitsDiffer => 2,
            ProgramError::AreaTooSmall(_) | ProgramError::Worn => 2,
            ProgramError::StoreInUse | ProgramError::Device | ProgramError::Socket => 3,
            ProgramError::Differs(_) => 4,
            ProgramError::Memory => 5,
            ProgramError::Probe(_) => 6,
        }
    }
}
