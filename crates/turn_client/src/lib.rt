//! A TURN client over a UDP socket, with the credentials of one user (RFC 8656; RFC 8489, section 9.2), and a peer: for
//! demonstrations and tests.
#![tactic(auto)]

mod client;
mod conversation;
mod error;
mod socket;

pub use client::{Client, ClientCredentials};
pub use conversation::{Allocated, Conversation, Loopback, limits};
pub use error::ClientError;
pub use socket::TimedSocket;
