//! The requests of the clients, and their addresses.

use crate::requests::Kind;
use std::alloc::{AllocError, Global};
use test_requests::{ALICE, FIRST, ID, PEER_ENDPOINT, REALM};
use turn_codec::ChannelData;
use turn_cred::Nonces;
use turn_requests::{Attribute, Request, build_request};
use turn_types::{Endpoint, Moment};

/// What nonces are made with.
pub const SECRET: [u8; 32] = [0; 32];

/// The client whose datagrams are measured.
pub const CLIENT: Endpoint = FIRST;

/// The peer that the client has a channel to.
pub const PEER: Endpoint = PEER_ENDPOINT;

/// The number of that channel.
pub const CHANNEL: u16 = 0x4000;

/// EVEN-PORT with its bit for a second port, so that a pair is asked for.
pub const PAIR: Attribute = Attribute::EvenPort { reserves: true };

/// The moment of all requests.
pub fn moment() -> Result<Moment, AllocError> {
    Moment::new(1000).ok_or(AllocError)
}

/// The client of a place in the table; the first is the one whose datagrams are measured.
pub fn client_at(place: u16) -> Endpoint {
    Endpoint {
        ip: CLIENT.ip ^ u32::from(place),
        port: CLIENT.port,
    }
}

/// A request of alice at a client.
pub fn request(
    alloc: Global,
    kind: Kind,
    client: Endpoint,
    attributes: &[Attribute],
) -> Result<Vec<u8>, AllocError> {
    let nonce = Nonces::new(SECRET).issue(client, moment()?);
    let request = Request {
        method: kind.method(),
        tx: ID,
        attributes,
        user: ALICE.name(),
        realm: REALM,
    };
    build_request(alloc, &request, &ALICE.key(), &nonce).map_err(|_| AllocError)
}

/// ChannelData of the channel.
pub fn channel_data(alloc: Global, payload: &[u8]) -> Result<Vec<u8>, AllocError> {
    if payload.len() > 1200 {
        return Err(AllocError);
    }
    let number = CHANNEL;
    ChannelData { number, payload }.write(alloc)
}
