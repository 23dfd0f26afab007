//! A disk that is an export of a server of the Network Block Device protocol (NBD, doc/proto.md of the NetworkBlockDevice project), over a
//! socket.
//!
//! `Export` says which export a text names, `NbdDisk` is a disk over one. What is sent and received is recorded for clauses: a call that
//! succeeded sent its request, and then received the reply that answers it.
#![tactic(auto)]

mod bytes;
mod connection;
mod disk;
mod error;
mod handshake;
mod negotiate;
mod open;
mod pieces;
mod record;
mod reply;
mod request;
mod socket;
mod stream;
mod uri;
mod wire;

pub use disk::NbdDisk;
pub use error::NbdError;
pub use handshake::{Found, MAX_NAME};
pub use pieces::MAX_PIECE;
pub use socket::Socket;
pub use stream::Stream;
pub use uri::{Export, Place, is_uri};
