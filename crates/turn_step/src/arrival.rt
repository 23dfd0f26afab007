//! What arrives, and what goes out.

use std::alloc::{Allocator, Global};
use turn_types::{Endpoint, FiveTuple, TxId};

/// A datagram that arrives.
#[derive(Clone, Copy, Debug)]
pub enum Arrival<'a> {
    /// From a client.
    Client {
        /// Where it came from and to.
        five_tuple: FiveTuple,
        /// The whole payload of the UDP datagram.
        bytes: &'a [u8],
    },
    /// From a peer, at a relayed port.
    Peer {
        /// The relayed port that it came to.
        port: u16,
        /// Who sent it.
        from: Endpoint,
        /// The whole payload of the UDP datagram.
        bytes: &'a [u8],
        /// The transaction id of the Data indication that the client may get.
        id: TxId,
    },
}

/// A datagram that goes out.
#[derive(Drop)]
pub enum Outgoing<A: Allocator = Global> {
    /// A response or relayed data, from the server's address to the client's.
    ToClient {
        /// It goes from its server's address to its client's.
        five_tuple: FiveTuple,
        /// The whole payload of the UDP datagram.
        bytes: Vec<u8, A>,
    },
    /// Relayed data, from the relayed port.
    ToPeer {
        /// The relayed port that it goes from.
        port: u16,
        /// Where it goes to.
        peer: Endpoint,
        /// The whole payload of the UDP datagram.
        bytes: Vec<u8, A>,
    },
}
