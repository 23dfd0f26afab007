//! What arrives at a server.

use test_requests::{ID, five_tuple};
use turn_step::Arrival;
use turn_types::Endpoint;

/// Where a datagram comes from.
#[derive(Clone, Copy)]
pub enum Source {
    /// A client.
    Client(Endpoint),
    /// A peer, at a relayed port.
    Peer(u16, Endpoint),
}

/// A datagram that arrives.
#[derive(Drop)]
pub struct Datagram {
    /// Where it comes from.
    pub source: Source,
    /// Its bytes.
    pub bytes: Vec<u8>,
}

impl Datagram {
    /// What a server is passed. A Data indication of a peer's datagram gets the transaction id 0102030405060708090a0b0c.
    pub fn arrival(&self) -> Arrival<'_> {
        match self.source {
            Source::Client(client) => Arrival::Client {
                five_tuple: five_tuple(client),
                bytes: &self.bytes,
            },
            Source::Peer(port, from) => Arrival::Peer {
                port,
                from,
                bytes: &self.bytes,
                id: ID,
            },
        }
    }
}
