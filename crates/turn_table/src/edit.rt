//! Changes of entries, and the room for them.

ghost use Rattle.std.specs.Prelude.{◌≡◌, ◌≤◌, ◌<◌, ◌+◌, ◌^◌, ◌∷◌, [], OnOk, length, map};
ghost use Rattle.turn_table.specs.Kept.{still_pair, still_entry};
ghost use Rattle.turn_table.specs.Order.{room_of};
ghost use Rattle.turn_table.specs.State.{pairs};
ghost use Rattle.turn_table.specs.Table.{room_for};
ghost use Rattle.turn_history.specs.Act.{act_of};
ghost use Rattle.turn_history.specs.Table.{renewed, permitting, binding};

use crate::entry::Entry;
use indexmap::IndexMap;
use std::alloc::{AllocError, Allocator};
use std::hash::{BuildHasherDefault, FoldHasher};
use turn_history::{Act, Channel, ChannelNumber};
use turn_types::{CHANNEL_LIFETIME, Endpoint, FiveTuple, PERMISSION_LIFETIME};

/// Entries by their five-tuples.
pub(crate) type EntryMap<A> = IndexMap<FiveTuple, Entry<A>, BuildHasherDefault<FoldHasher>, A>;

/// Room for an act of a five-tuple: for its entry, or for so many more permissions and channels in the entry that is
/// there; and for so many more reserved ports.
#[derive(Clone, Copy)]
pub(crate) struct Reserved {
    pub(crate) tuple: FiveTuple,
    pub(crate) permissions: usize,
    pub(crate) channels: usize,
    pub(crate) ports: usize,
}

impl Reserved {
    /// The room for an entry.
    pub(crate) fn for_entry(tuple: FiveTuple) -> Reserved
        ensures { room_of result ≡ record { tuple = tuple; permissions = 0; channels = 0; ports = 0 } }
    {
        Reserved {
            tuple,
            permissions: 0,
            channels: 0,
            ports: 0,
        }
    }

    /// The room that an act needs, where none of its permissions and channels is there.
    pub(crate) fn for_act<A: Allocator>(tuple: FiveTuple, act: &Act<A>) -> Reserved
        ensures { room_of result ≡ room_for tuple (act_of act.now) }
    {
        let (permissions, channels, ports) = match act {
            Act::Alloc { .. } => (0, 0, 0),
            Act::AllocEven { .. } => (0, 0, 1),
            Act::Renew { .. } => (0, 0, 0),
            Act::Permit { addresses } => (addresses.as_slice().len(), 0, 0),
            Act::Bind { .. } => (1, 1, 0),
        };
        Reserved {
            tuple,
            permissions,
            channels,
            ports,
        }
    }
}

/// Makes room for more permissions and channels.
pub(crate) fn make_room<A: Allocator + Copy>(
    entry: &mut Entry<A>,
    permissions: usize,
    channels: usize,
) -> Result<(), AllocError>
    ensures same { entry.new.entry ≡ entry.old.entry }
    ensures permissions { OnOk result (permissions ≤ entry.new.permission_room) }
    ensures channels { OnOk result (channels ≤ entry.new.channel_room) }
{
    entry.permissions.reserve(permissions)?;
    entry.channels.reserve(channels)
}

/// Sets the expiry time of an entry, in seconds.
pub(crate) fn set_expiry<A: Allocator>(entry: &mut Entry<A>, expiry: u64)
    ensures { entry.new.entry ≡ renewed expiry entry.old.entry }
{
    entry.expiry = expiry;
}

/// Installs one permission until a second.
fn permit_one<A: Allocator + Copy>(entry: &mut Entry<A>, address: u32, expiry: u64)
    requires { 0 < entry.old.permission_room }
    ensures value { entry.new.entry ≡ permitting expiry (address ∷ []) entry.old.entry }
    ensures room { entry.old.permission_room ≤ entry.new.permission_room + 1 }
{
    entry.permissions.put(address, expiry);
}

/// Installs permissions until a second.
pub(crate) fn permit<A: Allocator + Copy>(entry: &mut Entry<A>, addresses: &[u32], expiry: u64)
    requires { length addresses.now ≤ entry.old.permission_room }
    ensures { entry.new.entry ≡ permitting expiry addresses.now entry.old.entry }
{
    let mut left = addresses.len();
    while left > 0 {
        left -= 1;
        permit_one(entry, addresses[left], expiry);
    }
}

/// Binds a channel, and installs the permission of its peer.
pub(crate) fn bind<A: Allocator + Copy>(
    entry: &mut Entry<A>,
    number: ChannelNumber,
    peer: Endpoint,
    moment: u64,
)
    requires permissions { 1 ≤ entry.old.permission_room }
    requires channels { 1 ≤ entry.old.channel_room }
    requires moment { moment < 2 ^ 40 }
    ensures { entry.new.entry ≡ binding moment number peer entry.old.entry }
{
    entry.permissions.put(peer.ip, moment + PERMISSION_LIFETIME);
    let expiry = moment + CHANNEL_LIFETIME;
    entry.channels.put(number, Channel { peer, expiry });
}

/// Drops the permissions and channels that have expired.
fn purge_entry<A: Allocator + Copy>(entry: &mut Entry<A>, moment: u64)
    ensures { entry.new.entry ≡ still_entry moment entry.old.entry }
{
    entry.permissions.purge(moment);
    entry.channels.purge(moment);
}

/// The same for each entry.
pub(crate) fn purge_entries<A: Allocator + Copy>(entries: &mut EntryMap<A>, moment: u64)
    ensures { pairs entries.new.entries ≡ map (still_pair moment) (pairs entries.old.entries) }
{
    for i in 0..entries.len() {
        purge_entry(&mut entries[i], moment);
    }
}
