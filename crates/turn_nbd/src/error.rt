//! Why an export isn't opened, or a request fails.

ghost use Rattle.std.specs.Prelude.{◌≡◌};
ghost use Rattle.turn_nbd.specs.declared.error.NbdError.TheVariants.{Memory};

use std::alloc::AllocError;
use std::error::Error;
use std::{fmt, io};

/// Why an export isn't opened, or a request fails.
#[derive(Clone, Copy, Debug)]
pub enum NbdError {
    /// No server accepts a connection at the place, for the system's reason.
    Refused(io::Error),
    /// The server's greeting, or its answer to an option, isn't one of the protocol.
    Handshake,
    /// The server doesn't speak the fixed newstyle handshake.
    Unsupported,
    /// The server refuses the export.
    NoExport,
    /// The export can't be written.
    ReadOnly,
    /// The server can't be asked to make durable what was written.
    NoFlush,
    /// The export has no byte, or 2^63 or more.
    Size,
    /// A reply doesn't begin as one does.
    Reply,
    /// A reply begins as a structured one, which wasn't agreed.
    Structured,
    /// A reply answers another request than the one that was sent.
    Cookie,
    /// The server says that a request failed: the reason by its number, which is that of Linux.
    Failed(io::Error),
    /// The connection ended, or a request failed on it before.
    Closed,
    /// The server took too long.
    Late,
    /// There is no memory for the connection.
    Memory,
}

impl NbdError {
    /// What is said of it, without the system's or the server's reason.
    pub fn words(self) -> &'static str {
        match self {
            NbdError::Refused(_) => "no server accepts a connection",
            NbdError::Handshake => "the server's handshake is malformed",
            NbdError::Unsupported => "the server lacks the fixed newstyle handshake",
            NbdError::NoExport => "the server refuses the export",
            NbdError::ReadOnly => "the export is read-only",
            NbdError::NoFlush => "the export lacks FLUSH",
            NbdError::Size => "the export's size is 0 or too large",
            NbdError::Reply => "a reply is malformed",
            NbdError::Structured => "a structured reply, which wasn't agreed",
            NbdError::Cookie => "a reply answers another request",
            NbdError::Failed(_) => "the server says",
            NbdError::Closed => "the connection is closed",
            NbdError::Late => "the server takes too long",
            NbdError::Memory => "out of memory",
        }
    }
}

impl fmt::Display for NbdError {
    fn fmt<W: fmt::Write>(&self, f: &mut fmt::Formatter<W>) -> fmt::Result {
        let words = self.words();
        match *self {
            NbdError::Refused(reason) | NbdError::Failed(reason) => write!(f, "{words}: {reason}"),
            _ => write!(f, "{words}"),
        }
    }
}

impl Error for NbdError {}

impl From<AllocError> for NbdError {
    ghost from_gives = { λ _ refused. refused ≡ Memory };

    fn from(_error: AllocError) -> NbdError {
        NbdError::Memory
    }
}

/// The reason of a device call that fails: the server's number where it gave one, else words.
impl From<NbdError> for io::Error {
    fn from(why: NbdError) -> io::Error {
        match why {
            NbdError::Refused(reason) | NbdError::Failed(reason) => reason,
            _ => io::Error::other(why.words()),
        }
    }
}
