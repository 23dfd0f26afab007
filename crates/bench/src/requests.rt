//! The requests that are timed.

use test_requests::{PEER_ENDPOINT, five_tuple};
use turn_requests::Attribute;
use turn_step::Arrival;
use turn_types::{Endpoint, Method};

/// What a client asks for. A constant can't borrow a `Method`.
#[derive(Clone, Copy)]
pub enum Kind {
    /// RFC 8656, section 7.
    Allocate,
    /// RFC 8656, section 8.
    Refresh,
    /// RFC 8656, section 10.
    CreatePermission,
    /// RFC 8656, section 12.
    ChannelBind,
}

impl Kind {
    /// The method of the request.
    pub fn method(self) -> Method {
        match self {
            Kind::Allocate => Method::ALLOCATE,
            Kind::Refresh => Method::REFRESH,
            Kind::CreatePermission => Method::CREATE_PERMISSION,
            Kind::ChannelBind => Method::CHANNEL_BIND,
        }
    }
}

/// REQUESTED-TRANSPORT of UDP, protocol 17.
pub const UDP: Attribute = Attribute::Transport(17);

/// DONT-FRAGMENT, which a server of this project doesn't understand.
pub const FLAG: Attribute = Attribute::DontFragment;

/// LIFETIME of 3,600 seconds.
pub const HOUR: Attribute = Attribute::Lifetime(3600);

/// LIFETIME of 0, by which a Refresh deletes the allocation.
pub const ZERO: Attribute = Attribute::Lifetime(0);

/// The channel number 0x4000, the lowest one.
pub const LOWEST: Attribute = Attribute::Channel(0x4000);

/// 203.0.113.5:7000.
pub const PEER: Attribute = Attribute::Peer(PEER_ENDPOINT);

/// A client's datagram.
pub fn of_client<'a>(client: Endpoint, bytes: &'a [u8]) -> Arrival<'a> {
    Arrival::Client {
        five_tuple: five_tuple(client),
        bytes,
    }
}
