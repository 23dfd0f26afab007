//! The clients, and what their datagrams are made of.

use turn_mac::generate_auth_key;
use turn_types::{Endpoint, FiveTuple, TxId};

/// The realm of the server.
pub const REALM: &[u8] = b"example.org";

/// The transaction id of alice's requests.
pub const ID: TxId = TxId([1, 2, 3, 4, 5, 6, 7, 8, 9, 10, 11, 12]);

/// 192.0.2.1:32853.
pub const FIRST: Endpoint = Endpoint {
    ip: 0xC000_0201,
    port: 32853,
};

/// 203.0.113.5:7000.
pub const PEER_ENDPOINT: Endpoint = Endpoint {
    ip: 0xCB00_7105,
    port: 7000,
};

/// From an address to 192.0.2.100:3478.
pub fn five_tuple(client: Endpoint) -> FiveTuple {
    FiveTuple {
        client,
        server: Endpoint {
            ip: 0xC000_0264,
            port: 3478,
        },
    }
}

/// A user with a password.
#[derive(Clone, Copy)]
pub struct User {
    name: &'static [u8],
    password: &'static [u8],
}

/// Alice, whose password is `wonder`.
pub const ALICE: User = User {
    name: b"alice",
    password: b"wonder",
};

impl User {
    /// The user's name.
    pub fn name(self) -> &'static [u8] {
        self.name
    }

    /// The user's key in the realm, 16 bytes (RFC 8489, section 9.2.2).
    pub fn key(self) -> [u8; 16] {
        generate_auth_key(self.name, REALM, self.password)
    }
}
