//! Room for the bytes of one item of a snapshot, without an allocation.

ghost use Rattle.std.specs.Prelude.{◌≡◌, ◌+◌, ◌*◌, ◌≤◌, ◌<◌, ◌^◌, ◌∷◌, ◌++◌, [], length};
ghost use Rattle.std.specs.Int.{to_be_bytes, w32};
ghost use Rattle.turn_history.specs.Laws.{allocation_of};
ghost use Rattle.turn_record.specs.Bytes.{allocation, channel, each, endpoint, entry, five_tuple, mark, name, permission, reservation};
ghost use Rattle.turn_record.specs.Records.{max_entry_bytes};
ghost use Rattle.turn_record.specs.Written.{IsShort};
ghost use Rattle.turn_types.specs.Limits.{max_bounds};

use crate::version::Version;
use std::alloc::Allocator;
use std::marker::Model;
use turn_history::{Channel, ChannelNumber, Reservation};
use turn_table::Entry;
use turn_types::{Endpoint, FiveTuple, Token};

/// The max number of bytes of an entry of a snapshot: 51, 508 of the user's name, 12 of each of 32 permissions and 16 of
/// each of 32 channels.
pub(crate) const ENTRY_BYTES: usize = 1455;

/// Up to `ENTRY_BYTES` bytes, in the order in which they were put.
#[derive(Drop)]
pub(crate) struct EntryBytes {
    bytes: [u8; ENTRY_BYTES],
    len: usize,
}

impl Model for EntryBytes {
    ghost use Rattle.std.specs.Prelude.{ℕ, ◌≤◌, List, take};
    ghost use Rattle.turn_record.specs.Records.{max_entry_bytes};

    ghost Value = { List ℕ };

    ghost view = { λ b. take b.len b.bytes };

    ghost invariant = { λ b. b.len ≤ max_entry_bytes };
}

impl EntryBytes {
    pub(crate) fn new() -> EntryBytes
        ensures { result ≡ [] }
    {
        EntryBytes {
            bytes: [0; ENTRY_BYTES],
            len: 0,
        }
    }

    pub(crate) fn as_slice(&self) -> &[u8]
        ensures { result.now ≡ self.now }
    {
        &self.bytes[..self.len]
    }

    pub(crate) fn clear(&mut self)
        ensures { self.new ≡ [] }
    {
        self.len = 0;
    }

    /// Appends bytes for which there is room.
    pub(crate) fn put(&mut self, field: &[u8])
        requires room { length self.old + length field.now ≤ max_entry_bytes }
        ensures { self.new ≡ self.old ++ field.now }
    {
        let end = self.len + field.len();
        self.bytes[self.len..end].copy_from_slice(field);
        self.len = end;
    }

    fn put_endpoint(&mut self, place: Endpoint)
        requires room { length self.old + 6 ≤ max_entry_bytes }
        ensures { self.new ≡ self.old ++ endpoint place }
    {
        self.put(&place.ip.to_be_bytes());
        self.put(&place.port.to_be_bytes());
    }

    fn put_tuple(&mut self, tuple: FiveTuple)
        requires room { length self.old + 12 ≤ max_entry_bytes }
        ensures { self.new ≡ self.old ++ five_tuple tuple }
    {
        self.put_endpoint(tuple.client);
        self.put_endpoint(tuple.server);
    }

    fn put_name(&mut self, user: &[u8])
        requires short { length user.now < 2 ^ 16 }
        requires room { length self.old + (2 + length user.now) ≤ max_entry_bytes }
        ensures { self.new ≡ self.old ++ name user.now }
    {
        self.put(&(user.len() as u16).to_be_bytes());
        self.put(user);
    }

    /// What the Allocate request of an entry gave.
    fn put_allocation<A: Allocator>(&mut self, kept: &Entry<A>)
        requires short { IsShort max_bounds kept.now.entry }
        requires room { length self.old + (20 + length kept.now.entry.user) ≤ max_entry_bytes }
        ensures { self.new ≡ self.old ++ allocation (allocation_of kept.now.entry) }
    {
        self.put_name(kept.user());
        self.put(&kept.port().to_be_bytes());
        self.put(&kept.granted().to_be_bytes());
        self.put(&kept.tx().0);
    }

    /// Whether an entry has a token, and which.
    fn put_mark(&mut self, version: Version, token: Option<Token>)
        requires room { length self.old + 9 ≤ max_entry_bytes }
        ensures { self.new ≡ self.old ++ mark version token }
    {
        match version {
            Version::V1 => {}
            Version::V2 => match token {
                None => self.put(&[0]),
                Some(token) => self.put_token(token),
            },
        }
    }

    fn put_token(&mut self, token: Token)
        requires room { length self.old + 9 ≤ max_entry_bytes }
        ensures { self.new ≡ self.old ++ (1 ∷ token.0) }
    {
        self.put(&[1]);
        self.put(&token.0);
    }

    fn put_permission(&mut self, ip: u32, expiry: u64)
        requires room { length self.old + 12 ≤ max_entry_bytes }
        ensures { self.new ≡ self.old ++ permission (ip, expiry) }
    {
        self.put(&ip.to_be_bytes());
        self.put(&expiry.to_be_bytes());
    }

    fn put_each_permission(&mut self, permissions: &[(u32, u64)])
        requires room { length self.old + 12 * length permissions.now ≤ max_entry_bytes }
        ensures { self.new ≡ self.old ++ each permission permissions.now }
    {
        for (ip, expiry) in permissions {
            self.put_permission(*ip, *expiry);
        }
    }

    /// A count, and the permissions in their order.
    fn put_permissions(&mut self, permissions: &[(u32, u64)])
        requires few { length permissions.now ≤ 32 }
        requires room { length self.old + (1 + 12 * length permissions.now) ≤ max_entry_bytes }
        ensures { self.new ≡ self.old ++ ((length permissions.now ∷ []) ++ each permission permissions.now) }
    {
        self.put(&[permissions.len() as u8]);
        self.put_each_permission(permissions);
    }

    fn put_channel(&mut self, number: ChannelNumber, bound: Channel)
        requires room { length self.old + 16 ≤ max_entry_bytes }
        ensures { self.new ≡ self.old ++ channel (number, bound) }
    {
        self.put(&number.get().to_be_bytes());
        self.put_endpoint(bound.peer);
        self.put(&bound.expiry.to_be_bytes());
    }

    fn put_each_channel(&mut self, channels: &[(ChannelNumber, Channel)])
        requires room { length self.old + 16 * length channels.now ≤ max_entry_bytes }
        ensures { self.new ≡ self.old ++ each channel channels.now }
    {
        for (number, bound) in channels {
            self.put_channel(*number, *bound);
        }
    }

    /// A count, and the channels in their order.
    fn put_channels(&mut self, channels: &[(ChannelNumber, Channel)])
        requires few { length channels.now ≤ 32 }
        requires room { length self.old + (1 + 16 * length channels.now) ≤ max_entry_bytes }
        ensures { self.new ≡ self.old ++ ((length channels.now ∷ []) ++ each channel channels.now) }
    {
        self.put(&[channels.len() as u8]);
        self.put_each_channel(channels);
    }

    /// Puts the bytes of an entry in place of what it held.
    pub(crate) fn hold<A: Allocator + Copy>(
        &mut self,
        version: Version,
        tuple: FiveTuple,
        kept: &Entry<A>,
    )
        requires { IsShort max_bounds kept.now.entry }
        ensures { self.new ≡ entry version (tuple, kept.now.entry) }
    {
        self.clear();
        self.put_tuple(tuple);
        self.put_allocation(kept);
        self.put_mark(version, kept.token());
        self.put(&kept.expiry().to_be_bytes());
        self.put_permissions(kept.permissions());
        self.put_channels(kept.channels());
    }

    /// Puts the bytes of a count in place of what it held.
    pub(crate) fn hold_count(&mut self, count: u32)
        ensures { self.new ≡ to_be_bytes w32 count }
    {
        self.clear();
        self.put(&count.to_be_bytes());
    }

    /// Puts the bytes of a reserved port in place of what it held.
    pub(crate) fn hold_reserved(&mut self, port: u16, held: Reservation)
        ensures { self.new ≡ reservation (port, held) }
    {
        self.clear();
        self.put(&port.to_be_bytes());
        self.put(&held.token.0);
        self.put(&held.expiry.to_be_bytes());
    }
}
