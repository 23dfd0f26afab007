//! Why a server over sockets didn't start, and why its turns ended.

ghost use Rattle.std.specs.Prelude.{◌≡◌};
ghost use Rattle.turn_serving.specs.Starts.{of_bind};
ghost use Rattle.turn_serving.specs.declared.error.BindError.TheVariants as binds;
ghost use Rattle.turn_serving.specs.declared.error.SocketFault.{SocketFault};
ghost use Rattle.turn_serving.specs.declared.error.TurnError.TheVariants as turns;

use std::alloc::{AllocError, AllocFailed};
use std::{fmt, io};
use thiserror::Error;
use turn_disk::Disk;
use turn_engine::CommitError;
use turn_store::OpenError;
use turn_types::Endpoint;

/// A socket that a server needs.
#[derive(Clone, Copy, Debug, PartialEq, Eq)]
pub enum Needed {
    /// One at a listening address.
    Listening(Endpoint),
    /// One at the relay address.
    Relay(u32),
    /// One at the relay port of a stored allocation or reservation.
    RelayPort(u16),
    /// Those that are handed over, at the listening addresses.
    Held,
    /// What they are all waited for by.
    Wait,
}

/// A socket that a server needs and hasn't.
#[derive(Clone, Copy, Debug, PartialEq, Eq)]
pub struct SocketFault {
    /// Which one.
    pub needed: Needed,
    /// The system's number for why, as of too many open files, if it gave one.
    pub number: Option<i32>,
}

impl fmt::Display for SocketFault {
    fn fmt<W: fmt::Write>(&self, f: &mut fmt::Formatter<W>) -> fmt::Result {
        match self.number {
            Some(number) => {
                let reason = io::Error::from_raw_os_error(number);
                write!(f, "a socket can't be bound: {reason}")
            }
            None => write!(f, "a socket can't be bound"),
        }
    }
}

/// Why a server was not started.
#[derive(Clone, Copy, Debug, PartialEq, Eq, Error)]
pub enum StartError {
    /// The store was not opened.
    #[error("{0}")]
    Store(OpenError),
    /// A socket that it needs is missing.
    #[error("{0}")]
    Socket(SocketFault),
    /// An allocation failed.
    #[error("out of memory")]
    Memory,
    /// The store was not carried over, or there was no memory for the server over it.
    #[error("{0}")]
    Carry(OpenError),
}

/// A server that was not started: why, and its disk.
#[derive(Drop)]
pub struct SetupError<D: Disk> {
    /// Why it was not started.
    pub fault: StartError,
    /// The disk, after the device calls that were made.
    pub disk: D,
}

/// Why a server has not the sockets that it needs.
#[derive(Clone, Copy, Debug, PartialEq, Eq)]
pub(crate) enum BindError {
    /// A socket is missing.
    Socket(SocketFault),
    /// An allocation failed.
    Memory,
}

impl BindError {
    /// That a socket is missing, for the system's reason.
    pub(crate) fn of(needed: Needed, reason: io::Error) -> BindError
        ensures { (fault : SocketFault) × (result ≡ binds.Socket fault) }
    {
        BindError::Socket(SocketFault {
            needed,
            number: reason.raw_os_error(),
        })
    }
}

impl From<AllocError> for BindError {
    ghost from_gives = { λ _ f. f ≡ binds.Memory };

    fn from(_: AllocError) -> BindError {
        BindError::Memory
    }
}

impl From<BindError> for StartError {
    ghost from_gives = { λ fault f. f ≡ of_bind fault };

    fn from(fault: BindError) -> StartError {
        match fault {
            BindError::Socket(missing) => StartError::Socket(missing),
            BindError::Memory => StartError::Memory,
        }
    }
}

/// Why a turn ended before its end.
#[derive(Clone, Copy, Debug, PartialEq, Eq, Error)]
pub enum TurnError {
    /// What was accepted could not be written, so no response to it was sent.
    #[error("{0}")]
    Commit(CommitError),
    /// The wait for datagrams failed, by the system's number, if it gave one.
    #[error("sockets can't be waited for")]
    Socket(Option<i32>),
    /// The system has no time.
    #[error("no time")]
    Clock,
    /// An allocation failed.
    #[error("out of memory")]
    Memory,
}

impl From<CommitError> for TurnError {
    ghost from_gives = { λ fault f. f ≡ turns.Commit fault };

    fn from(fault: CommitError) -> TurnError {
        TurnError::Commit(fault)
    }
}

impl From<AllocError> for TurnError {
    ghost from_gives = { λ _ f. f ≡ turns.Memory };

    fn from(_: AllocError) -> TurnError {
        TurnError::Memory
    }
}

impl<T: Drop> From<AllocFailed<T>> for TurnError {
    ghost from_gives = { λ _ f. f ≡ turns.Memory };

    fn from(_: AllocFailed<T>) -> TurnError {
        TurnError::Memory
    }
}
