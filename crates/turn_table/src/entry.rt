//! What a table holds of one allocation.

ghost use Rattle.std.specs.Prelude.{◌≡◌, ◌≤◌, ◌↔◌, ◌||◌, ℕ, true, IsTrue, is_some, not, MatchOption};
ghost use Rattle.std.specs.Ordering.{nat_cmp};
ghost use Rattle.turn_table.specs.Live.{IsQuiet};
ghost use Rattle.turn_table.specs.Table.{IsChannelTo};
ghost use Rattle.turn_history.specs.Fitting.{FitsChannel, exceeds, is_bound_elsewhere};
ghost use Rattle.turn_history.specs.Table.{allocated, install};
ghost use Rattle.std.specs.FinMap as fin;

use crate::fits::{fits_channel, fits_permissions, is_bound_elsewhere};
use crate::search::number_to;
use crate::sorted_map::SortedMap;
use std::alloc::{Allocator, Global};
use std::marker::Model;
use turn_history::{Channel, ChannelNumber, UserName};
use turn_types::{Endpoint, Limits, Moment, Token, TxId};

/// The user, relayed port, lifetime in seconds and transaction id that the Allocate request gave, the token with which it
/// reserved the next port, if it did, the expiry time in seconds (exclusive), and the permissions and channels.
#[derive(Drop)]
pub struct Entry<A: Allocator = Global> {
    pub(crate) user: UserName<A>,
    pub(crate) port: u16,
    pub(crate) granted: u32,
    pub(crate) tx: TxId,
    pub(crate) token: Option<Token>,
    pub(crate) expiry: u64,
    pub(crate) permissions: SortedMap<u32, u64, A>,
    pub(crate) channels: SortedMap<ChannelNumber, Channel, A>,
}

/// The values of an entry: the fields that the Allocate request gave, the expiry time in seconds (exclusive), and the
/// permissions, ascending by address, and channels, ascending by number, each with its own expiry time.
#[derive(Drop)]
pub struct EntryParts<A: Allocator = Global> {
    /// Who made the allocation.
    pub user: UserName<A>,
    /// The relayed port.
    pub port: u16,
    /// The lifetime that the Allocate was granted, in seconds.
    pub granted: u32,
    /// The transaction id of the Allocate.
    pub tx: TxId,
    /// The token with which the Allocate reserved the next port, if it did.
    pub token: Option<Token>,
    /// When the allocation expires, in seconds (exclusive).
    pub expiry: u64,
    /// IPv4 addresses of peers, ascending, each with its expiry time in seconds (exclusive).
    pub permissions: Vec<(u32, u64), A>,
    /// Numbers of channels, ascending, each with its peer and its expiry time.
    pub channels: Vec<(ChannelNumber, Channel), A>,
}

impl<A: Allocator> Model for Entry<A> {
    ghost use Rattle.std.specs.Ordering.{nat_cmp};
    ghost use Rattle.turn_table.specs.Kept.{map_in};
    ghost use Rattle.turn_table.specs.State.{Held, held_code};

    ghost Value = { Held };

    ghost coded = { held_code };

    ghost view = { λ e. record {
      entry = record {
        user = e.user;
        port = e.port;
        granted = e.granted;
        tx = e.tx;
        token = e.token;
        expiry = e.expiry;
        permissions = map_in nat_cmp e.permissions;
        channels = map_in nat_cmp e.channels;
      };
      permission_room = e.permissions.1;
      channel_room = e.channels.1;
    } };
}

impl<A: Allocator> Entry<A> {
    /// The name of the user that made the allocation.
    pub fn user(&self) -> &[u8]
        ensures { result.now ≡ self.now.entry.user }
    {
        self.user.as_slice()
    }

    /// The relayed port.
    pub fn port(&self) -> u16
        ensures { result ≡ self.now.entry.port }
    {
        self.port
    }

    /// The seconds that the Allocate request was granted.
    pub fn granted(&self) -> u32
        ensures { result ≡ self.now.entry.granted }
    {
        self.granted
    }

    /// The transaction id of the Allocate request.
    pub fn tx(&self) -> TxId
        ensures { result ≡ self.now.entry.tx }
    {
        self.tx
    }

    /// The token with which the Allocate request reserved the next port, if it did.
    pub fn token(&self) -> Option<Token>
        ensures { result ≡ self.now.entry.token }
    {
        self.token
    }

    /// The expiry time of the allocation, in seconds (exclusive).
    pub fn expiry(&self) -> u64
        ensures { result ≡ self.now.entry.expiry }
    {
        self.expiry
    }
}

impl<A: Allocator + Copy> Entry<A> {
    /// An entry of known values, as a snapshot has them. It takes no memory.
    pub fn new(parts: EntryParts<A>) -> Entry<A>
        requires permissions { fin.is_sorted nat_cmp parts.permissions.items ≡ true }
        requires channels { fin.is_sorted nat_cmp parts.channels.items ≡ true }
        ensures { result.entry ≡ record {
          user = parts.user;
          port = parts.port;
          granted = parts.granted;
          tx = parts.tx;
          token = parts.token;
          expiry = parts.expiry;
          permissions = fin.from_sorted {R = nat_cmp} parts.permissions.items;
          channels = fin.from_sorted {R = nat_cmp} parts.channels.items;
        } }
    {
        let EntryParts {
            user,
            port,
            granted,
            tx,
            token,
            expiry,
            permissions,
            channels,
        } = parts;
        Entry {
            user,
            port,
            granted,
            tx,
            token,
            expiry,
            permissions: SortedMap::from_sorted(permissions),
            channels: SortedMap::from_sorted(channels),
        }
    }

    /// The entry of a new allocation (RFC 8656, section 7.2).
    pub(crate) fn allocated(
        alloc: A,
        moment: Moment,
        user: UserName<A>,
        port: u16,
        granted: u32,
        tx: TxId,
        token: Option<Token>,
    ) -> Entry<A>
        ensures { result.entry ≡ allocated moment user port granted tx token }
    {
        Entry {
            user,
            port,
            granted,
            tx,
            token,
            expiry: moment.seconds() + u64::from(granted),
            permissions: SortedMap::new(alloc),
            channels: SortedMap::new(alloc),
        }
    }

    /// The addresses that have a permission, ascending, each with the expiry time of its permission in seconds
    /// (exclusive).
    pub fn permissions(&self) -> &[(u32, u64)]
        ensures { result.now ≡ fin.entries self.now.entry.permissions }
    {
        self.permissions.items()
    }

    /// The channels, ascending by number.
    pub fn channels(&self) -> &[(ChannelNumber, Channel)]
        ensures { result.now ≡ fin.entries self.now.entry.channels }
    {
        self.channels.items()
    }

    /// Whether an address has a permission.
    pub fn is_permitted(&self, ip: u32) -> bool
        ensures { result ≡ is_some (fin.get self.now.entry.permissions ip) }
    {
        self.permissions.get(ip).is_some()
    }

    /// The channel of a number, which may be any that ChannelData has.
    pub fn channel(&self, number: u16) -> Option<Channel>
        ensures { result ≡ fin.get self.now.entry.channels number }
    {
        self.channels.get_number(number)
    }

    /// Whether a channel has the number.
    pub(crate) fn has_channel(&self, number: ChannelNumber) -> bool
        ensures { result ≡ is_some (fin.get self.now.entry.channels number) }
    {
        self.channels.get(number).is_some()
    }

    /// A number of a channel to a peer.
    pub fn channel_to(&self, peer: Endpoint) -> Option<ChannelNumber>
        ensures { MatchOption result ((n : ℕ) → ¬ IsChannelTo self.now.entry n peer) (λ n. IsChannelTo self.now.entry n peer) }
    {
        let channels = self.channels.items();
        match number_to(channels, peer) {
            Some(i) => Some(channels[i].0),
            None => None,
        }
    }

    /// The earliest moment at which it or something in it expires.
    pub(crate) fn earliest(&self) -> u64
        ensures { IsQuiet result self.now.entry }
    {
        let permissions = self.permissions.earliest();
        let channels = self.channels.earliest();
        self.expiry.min(permissions).min(channels)
    }

    /// Whether it may have permissions of these addresses too, under the limit of permissions.
    pub fn fits_permissions(&self, addresses: &[u32], limit: u16) -> bool
        ensures { IsTrue result ↔ (fin.len (install 0 addresses.now self.now.entry.permissions) ≤ limit) }
    {
        fits_permissions(self, addresses, limit)
    }

    /// Whether it may have a channel of this number to this peer too, under the limits.
    pub fn fits_channel(&self, limits: Limits, number: ChannelNumber, peer: Endpoint) -> bool
        ensures fits { IsTrue result ↔ FitsChannel limits number peer self.now.entry }
        ensures value { result ≡ not (is_bound_elsewhere number peer self.now.entry || exceeds limits number peer self.now.entry) }
    {
        fits_channel(self, limits, number, peer)
    }

    /// Whether the channel number is bound to another peer, or the peer to another number.
    pub fn is_bound_elsewhere(&self, number: ChannelNumber, peer: Endpoint) -> bool
        ensures { result ≡ is_bound_elsewhere number peer self.now.entry }
    {
        is_bound_elsewhere(self, number, peer)
    }
}
