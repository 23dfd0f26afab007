//! The allocations, found by five-tuple, by port and by user.

ghost use Rattle.std.specs.Prelude.{◌≡◌, ◌≤◌, ◌<◌, ◌^◌, MatchOption, IsSome, IsSomeAnd, OnOk, Some, None, length, option_copied};
ghost use Rattle.std.specs.FinMap as fin;
ghost use Rattle.std.specs.List.{count_by};
ghost use Rattle.std.specs.Option.{option_map};
ghost use Rattle.std.specs.Str.{bytes_eq};
ghost use Rattle.turn_history.specs.Fitting.{has_port};
ghost use Rattle.turn_history.specs.Table.{renewed, permitting, binding};
ghost use Rattle.turn_ports.specs.Ports.{IsLowestFree};
ghost use Rattle.turn_types.specs.declared.address.FiveTuple.{FiveTuple};
ghost use Rattle.turn_table.specs.Kept.{still_entry};
ghost use Rattle.turn_table.specs.Live.{AreQuiet, Changes, HasRoom, PortIsUnused, entries_of, placed};
ghost use Rattle.turn_table.specs.Order.{room_of};
ghost use Rattle.turn_table.specs.State.{Held};

use crate::edit::{EntryMap, Reserved, bind, make_room, permit, purge_entries, set_expiry};
use crate::entry::Entry;
use crate::search::{earliest_of, expired_entry_of};
use crate::sorted_map::SortedMap;
use crate::user_order::UserOrder;
use indexmap::IndexMap;
use std::alloc::{AllocError, Allocator, Global};
use std::marker::Model;
use turn_history::ChannelNumber;
use turn_types::{Endpoint, FiveTuple};

/// A map of entries, with its five-tuples in order, each with its port, its ports in order, each with its five-tuple,
/// and its five-tuples in the order of their users' names.
#[derive(Drop)]
pub(crate) struct Allocations<A: Allocator = Global> {
    entries: EntryMap<A>,
    order: SortedMap<FiveTuple, u16, A>,
    ports: SortedMap<u16, FiveTuple, A>,
    users: UserOrder<A>,
}

impl<A: Allocator> Model for Allocations<A> {
    ghost use Rattle.std.specs.Prelude.{min};
    ghost use Rattle.std.specs.FinMap as fin;
    ghost use Rattle.std.specs.Ordering.{nat_cmp};
    ghost use Rattle.indexmap.specs.IndexMap.{spare};
    ghost use Rattle.turn_types.specs.FiveTuple.{tuple_cmp};
    ghost use Rattle.turn_table.specs.ByUser.{IsByUser, user_of};
    ghost use Rattle.turn_table.specs.Indexed.{IsIndexed, held_in};
    ghost use Rattle.turn_table.specs.Kept.{map_in};
    ghost use Rattle.turn_table.specs.Live.{Live, live_code};

    ghost Value = { Live };

    ghost coded = { live_code };

    ghost view = { λ a. record {
      held = held_in a.entries.entries;
      room = min (spare a.entries) (min a.order.1 (min a.ports.1 a.users.1));
    } };

    ghost invariant = { λ a.
        IsIndexed (fin.get (held_in a.entries.entries)) (fin.get (map_in tuple_cmp a.order)) (fin.get (map_in nat_cmp a.ports))
        × IsByUser user_of (held_in a.entries.entries) a.users.0 };
}

impl<A: Allocator> Allocations<A> {
    pub(crate) fn get(&self, tuple: FiveTuple) -> Option<&Entry<A>>
        ensures { option_copied result ≡ fin.get self.now.held tuple }
    {
        self.entries.get(&tuple)
    }
}

impl<A: Allocator + Copy> Allocations<A> {
    pub(crate) fn new(alloc: A) -> Allocations<A>
        ensures { result.held ≡ fin.empty }
    {
        Allocations {
            entries: IndexMap::new(alloc),
            order: SortedMap::new(alloc),
            ports: SortedMap::new(alloc),
            users: UserOrder::new(alloc),
        }
    }

    pub(crate) fn allocator(&self) -> A {
        *self.entries.allocator()
    }

    pub(crate) fn len(&self) -> usize
        ensures { result ≡ fin.len self.now.held }
    {
        self.order.len()
    }

    /// The five-tuples, ascending, each with its port.
    pub(crate) fn order(&self) -> &[(FiveTuple, u16)]
        ensures { result.now ≡ placed self.now.held }
    {
        self.order.items()
    }

    /// The five-tuple that has a port, and its entry.
    pub(crate) fn by_port(&self, port: u16) -> Option<(FiveTuple, &Entry<A>)>
        ensures { MatchOption result (PortIsUnused self.now.held port)
            (λ x. (fin.get self.now.held x.0 ≡ Some x.1.now) × (x.1.now.entry.port ≡ port)) }
    {
        let tuple = self.ports.get(port)?;
        let entry = self.entries.get(&tuple)?;
        Some((tuple, entry))
    }

    /// The lowest port from a first to a last that no entry has, and an even one where `even` asks for it.
    pub(crate) fn lowest_free(&self, first: u16, last: u16, even: bool) -> Option<u16>
        ensures { IsLowestFree (first, last) (has_port (record { entries = entries_of self.now.held; reserved = fin.empty })) even result }
    {
        self.ports.lowest_free(first, last, even)
    }

    /// How many entries a user made.
    pub(crate) fn count_of_user(&self, user: &[u8]) -> usize
        ensures { result ≡ count_by (λ p. bytes_eq p.1.user user.now) (fin.entries (entries_of self.now.held)) }
    {
        self.users.count_of(user, &self.entries)
    }

    /// A five-tuple whose entry has expired.
    pub(crate) fn expired(&self, seconds: u64) -> Option<FiveTuple>
        ensures { MatchOption result ((f : FiveTuple) (h : Held) → fin.get self.now.held f ≡ Some h → seconds < h.entry.expiry)
            (λ f. IsSomeAnd (fin.get self.now.held f) (λ h. h.entry.expiry ≤ seconds)) }
    {
        let place = expired_entry_of(self.entries.values().as_slice(), seconds)?;
        let (tuple, _) = self.entries.get_index(place)?;
        Some(*tuple)
    }

    /// The earliest moment at which something expires.
    pub(crate) fn quiet_until(&self) -> u64
        ensures { AreQuiet result self.now.held }
    {
        earliest_of(self.entries.values().as_slice())
    }

    /// Makes room for one more entry.
    pub(crate) fn reserve(&mut self) -> Result<(), AllocError>
        ensures same { self.new.held ≡ self.old.held }
        ensures room { OnOk result (0 < self.new.room) }
    {
        self.entries.reserve(1)?;
        self.order.reserve(1)?;
        self.ports.reserve(1)?;
        self.users.reserve(1)
    }

    /// Makes room for an act: for an entry, or inside the one that is there.
    pub(crate) fn make_room(&mut self, room: Reserved) -> Result<(), AllocError>
        ensures same { entries_of self.new.held ≡ entries_of self.old.held }
        ensures room { OnOk result (HasRoom (room_of room) self.new) }
    {
        match self.entries.get_mut(&room.tuple) {
            Some(entry) => make_room(entry, room.permissions, room.channels),
            None => self.reserve(),
        }
    }

    /// Adds an entry.
    pub(crate) fn insert(&mut self, tuple: FiveTuple, entry: Entry<A>)
        requires room { 0 < self.old.room }
        requires absent { fin.get self.old.held tuple ≡ None }
        requires free { PortIsUnused self.old.held entry.entry.port }
        ensures { self.new.held ≡ fin.insert self.old.held tuple entry }
    {
        self.order.put(tuple, entry.port());
        self.ports.put(entry.port(), tuple);
        self.users.insert(tuple, entry.user(), &self.entries);
        let _ = self.entries.insert(tuple, entry).unwrap();
    }

    /// Removes an entry, and returns its port.
    pub(crate) fn remove(&mut self, tuple: FiveTuple) -> Option<u16>
        ensures held { self.new.held ≡ fin.remove self.old.held tuple }
        ensures port { result ≡ option_map (λ h. h.entry.port) (fin.get self.old.held tuple) }
    {
        let entry = self.entries.get(&tuple)?;
        let port = entry.port();
        self.order.remove(tuple);
        self.ports.remove(port);
        self.users.remove(tuple, entry.user(), &self.entries);
        let _ = self.entries.swap_remove(&tuple);
        Some(port)
    }

    /// Sets the expiry time of an entry, in seconds.
    pub(crate) fn renew(&mut self, tuple: FiveTuple, expiry: u64)
        requires { IsSome (fin.get self.old.held tuple) }
        ensures { Changes tuple (renewed expiry) self.old.held self.new.held }
    {
        match self.entries.get_mut(&tuple) {
            Some(entry) => set_expiry(entry, expiry),
            None => unreachable!(),
        }
    }

    /// Installs permissions in an entry until a second.
    pub(crate) fn permit(&mut self, tuple: FiveTuple, addresses: &[u32], expiry: u64)
        requires { IsSomeAnd (fin.get self.old.held tuple) (λ h. length addresses.now ≤ h.permission_room) }
        ensures { Changes tuple (permitting expiry addresses.now) self.old.held self.new.held }
    {
        match self.entries.get_mut(&tuple) {
            Some(entry) => permit(entry, addresses, expiry),
            None => unreachable!(),
        }
    }

    /// Binds a channel of an entry, and installs the permission of its peer.
    pub(crate) fn bind(
        &mut self,
        tuple: FiveTuple,
        number: ChannelNumber,
        peer: Endpoint,
        moment: u64,
    )
        requires moment { moment < 2 ^ 40 }
        requires room { IsSomeAnd (fin.get self.old.held tuple) (λ h. (1 ≤ h.permission_room) × (1 ≤ h.channel_room)) }
        ensures { Changes tuple (binding moment number peer) self.old.held self.new.held }
    {
        match self.entries.get_mut(&tuple) {
            Some(entry) => bind(entry, number, peer, moment),
            None => unreachable!(),
        }
    }

    /// Drops the permissions and channels that have expired.
    pub(crate) fn purge(&mut self, moment: u64)
        ensures { (f : FiveTuple) → fin.get (entries_of self.new.held) f ≡ option_map (still_entry moment) (fin.get (entries_of self.old.held) f) }
    {
        purge_entries(&mut self.entries, moment);
    }
}
