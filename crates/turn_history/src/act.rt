//! What an accepted request does to an allocation.

ghost use Rattle.std.specs.Prelude.{◌≡◌};

use crate::channel::ChannelNumber;
use std::alloc::{Allocator, Global};
use std::marker::Model;
use turn_types::{Endpoint, Token, TxId};

/// A user's name, in bytes.
#[derive(Drop)]
pub struct UserName<A: Allocator = Global> {
    bytes: Vec<u8, A>,
}

impl<A: Allocator> Model for UserName<A> {
    ghost use Rattle.std.specs.Prelude.{ℕ, List};

    ghost Value = { List ℕ };

    ghost view = { λ u. u.bytes.items };
}

impl<A: Allocator> From<Vec<u8, A>> for UserName<A> {
    ghost from_gives = { λ v u. u ≡ v.items };

    fn from(bytes: Vec<u8, A>) -> UserName<A> {
        UserName { bytes }
    }
}

impl<A: Allocator> UserName<A> {
    /// The bytes of the name.
    pub fn as_slice(&self) -> &[u8]
        ensures { result.now ≡ self.now }
    {
        &self.bytes
    }

    /// The vector that the name was made of.
    pub fn into_vec(self) -> Vec<u8, A>
        ensures { result.items ≡ self }
    {
        self.bytes
    }
}

/// IPv4 addresses.
#[derive(Drop)]
pub struct Addresses<A: Allocator = Global> {
    addresses: Vec<u32, A>,
}

impl<A: Allocator> Model for Addresses<A> {
    ghost use Rattle.std.specs.Prelude.{ℕ, List};

    ghost Value = { List ℕ };

    ghost view = { λ a. a.addresses.items };
}

impl<A: Allocator> From<Vec<u32, A>> for Addresses<A> {
    ghost from_gives = { λ v a. a ≡ v.items };

    fn from(addresses: Vec<u32, A>) -> Addresses<A> {
        Addresses { addresses }
    }
}

impl<A: Allocator> Addresses<A> {
    /// The addresses, in order.
    pub fn as_slice(&self) -> &[u32]
        ensures { result.now ≡ self.now }
    {
        &self.addresses
    }

    /// The vector that the list was made of.
    pub fn into_vec(self) -> Vec<u32, A>
        ensures { result.items ≡ self }
    {
        self.addresses
    }
}

/// What an accepted request does to the allocation of its five-tuple (RFC 8656, sections 7 to 12).
#[derive(Drop)]
pub enum Act<A: Allocator = Global> {
    /// A new allocation: for a user, with a relayed port, granted for so many seconds, by the request with this
    /// transaction id.
    Alloc {
        /// Who asked for it.
        user: UserName<A>,
        /// The relayed port.
        port: u16,
        /// In seconds, from the act's moment on.
        granted: u32,
        /// The transaction id of the Allocate.
        tx: TxId,
    },
    /// A new allocation with an even port, which reserves the next port for 30 seconds for who names the token.
    AllocEven {
        /// Who asked for it.
        user: UserName<A>,
        /// The relayed port, which is even.
        port: u16,
        /// In seconds, from the act's moment on.
        granted: u32,
        /// The transaction id of the Allocate.
        tx: TxId,
        /// What the next port is reserved with.
        token: Token,
    },
    /// The allocation expires so many seconds from now; 0 deletes it.
    Renew {
        /// In seconds.
        granted: u32,
    },
    /// Permissions for IPv4 addresses, for 300 seconds.
    Permit {
        /// Of peers. Ports don't count (RFC 8656, section 9).
        addresses: Addresses<A>,
    },
    /// A channel to a peer for 600 seconds, and a permission for its address for 300 seconds.
    Bind {
        /// The channel's number.
        number: ChannelNumber,
        /// The peer's address and port.
        peer: Endpoint,
    },
}
