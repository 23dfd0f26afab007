//! Maps in lists, ascending by key.

ghost use Rattle.std.specs.Prelude.{◌≡◌, ℕ, ◌+◌, ◌<◌, ◌≤◌, true, Some, is_some, OnOk, OnErr, nat_lt};
ghost use Rattle.std.specs.List.{AllByRecursion, filter};
ghost use Rattle.std.specs.FinMap as fin;
ghost use Rattle.std.specs.FinMap.{IsAntisymmetric};
ghost use Rattle.std.specs.Ordering.{nat_cmp};
ghost use Rattle.std.proofs.lemmas.Map.Lookups.{exact_unsigned};
ghost use Rattle.turn_history.proofs.Maps.{tuple_exact};
ghost use Rattle.turn_ports.specs.Ports.{IsLowestFree};
ghost use Rattle.turn_table.specs.Kept.{map_in, still};

use crate::search::{lowest_free, place_of, place_of_number, ports_from};
use std::alloc::{AllocError, Allocator, Global};
use std::marker::Model;
use turn_history::{Channel, ChannelNumber, Reservation};
use turn_types::FiveTuple;

/// A key: keys that compare alike are one.
pub(crate) trait Key: Ord + Copy {
    ghost exact: { IsAntisymmetric Self.cmp };
}

impl Key for u16 {
    ghost exact = { exact_unsigned };
}

impl Key for ChannelNumber {
    ghost exact = { exact_unsigned };
}

impl Key for u32 {
    ghost exact = { exact_unsigned };
}

impl Key for FiveTuple {
    ghost exact = { tuple_exact };
}

/// A value that expires at a moment.
pub(crate) trait Expires: Copy {
    ghost expiry: { Self → ℕ };

    fn expiry(&self) -> u64
        ensures { result ≡ expiry self.now };
}

impl Expires for u64 {
    ghost expiry = { λ x. x };

    fn expiry(&self) -> u64 {
        *self
    }
}

impl Expires for Channel {
    ghost expiry = { λ c. c.expiry };

    fn expiry(&self) -> u64 {
        self.expiry
    }
}

impl Expires for Reservation {
    ghost expiry = { λ r. r.expiry };

    fn expiry(&self) -> u64 {
        self.expiry
    }
}

/// Drops what has expired.
fn keep_ahead<K: Key, V: Expires, A: Allocator>(items: &mut Vec<(K, V), A>, moment: u64)
    ensures { items.new.items ≡ filter (λ e. nat_lt moment (V.expiry e.1)) items.old.items }
{
    items.retain(|e| moment < e.1.expiry());
}

/// The earliest expiry.
fn earliest<K: Key, V: Expires>(items: &[(K, V)]) -> u64
    ensures { AllByRecursion (λ e. result ≤ V.expiry e.1) items.now }
{
    let mut earliest = u64::MAX;
    for slot in items {
        earliest = earliest.min(slot.1.expiry());
    }
    earliest
}

/// A map with room for some more keys: a list, ascending by key, that is searched by halves.
#[derive(Drop)]
pub(crate) struct SortedMap<K: Key, V, A: Allocator = Global> {
    items: Vec<(K, V), A>,
}

impl<K: Key, V, A: Allocator> Model for SortedMap<K, V, A> {
    ghost use Rattle.std.specs.Prelude.{◌≡◌, ℕ, ◌-◌, true, List};
    ghost use Rattle.std.specs.Vec.{vec_len, vec_capacity};
    ghost use Rattle.std.specs.Coded.{coded×, coded_ℕ, coded_list};
    ghost use Rattle.std.specs.FinMap as fin;

    ghost Value = { List (K × V) × ℕ };

    ghost coded = { coded× (coded_list (coded× K.code V.code)) coded_ℕ };

    ghost view = { λ a. (a.items.items, vec_capacity a.items - vec_len a.items) };

    ghost invariant = { λ a. fin.is_sorted K.cmp a.items.items ≡ true };
}

impl<K: Key, V: Copy, A: Allocator + Copy> SortedMap<K, V, A> {
    pub(crate) fn new(alloc: A) -> SortedMap<K, V, A>
        ensures { map_in K.cmp result ≡ fin.empty }
    {
        SortedMap {
            items: Vec::new(alloc),
        }
    }

    /// The map of a list whose keys rise.
    pub(crate) fn from_sorted(items: Vec<(K, V), A>) -> SortedMap<K, V, A>
        requires { fin.is_sorted K.cmp items.items ≡ true }
        ensures { result.0 ≡ items.items }
    {
        SortedMap { items }
    }

    pub(crate) fn len(&self) -> usize
        ensures { result ≡ fin.len (map_in K.cmp self.now) }
    {
        self.items.len()
    }

    /// In the order of the keys.
    pub(crate) fn items(&self) -> &[(K, V)]
        ensures { result.now ≡ fin.entries (map_in K.cmp self.now) }
    {
        self.items.as_slice()
    }

    pub(crate) fn get(&self, key: K) -> Option<V>
        ensures { result ≡ fin.get (map_in K.cmp self.now) key }
    {
        match place_of(&self.items, &key) {
            Ok(i) => Some(self.items[i].1),
            Err(_) => None,
        }
    }

    /// Makes room for so many new keys.
    pub(crate) fn reserve(&mut self, more: usize) -> Result<(), AllocError>
        ensures map { self.new.0 ≡ self.old.0 }
        ensures room { OnOk result (more ≤ self.new.1) }
        ensures err { OnErr result (self.new ≡ self.old) }
    {
        self.items.reserve(more)
    }

    /// Sets the value of a key.
    pub(crate) fn put(&mut self, key: K, value: V)
        requires { 0 < self.old.1 }
        ensures map { map_in K.cmp self.new ≡ fin.insert (map_in K.cmp self.old) key value }
        ensures room { self.old.1 ≤ self.new.1 + 1 }
    {
        match place_of(&self.items, &key) {
            Ok(i) => self.items[i].1 = value,
            Err(i) => {
                let _ = self.items.insert(i, (key, value));
            }
        }
    }

    /// Removes a key, if it is there.
    pub(crate) fn remove(&mut self, key: K)
        ensures map { map_in K.cmp self.new ≡ fin.remove (map_in K.cmp self.old) key }
        ensures room { self.old.1 ≤ self.new.1 }
    {
        if let Ok(i) = place_of(&self.items, &key) {
            let _ = self.items.remove(i);
        }
    }
}

impl<K: Key, V: Expires, A: Allocator + Copy> SortedMap<K, V, A> {
    /// Drops what has expired.
    pub(crate) fn purge(&mut self, moment: u64)
        ensures { map_in K.cmp self.new ≡ still V.expiry moment (map_in K.cmp self.old) }
    {
        keep_ahead(&mut self.items, moment);
    }

    /// The earliest expiry of a value.
    pub(crate) fn earliest(&self) -> u64
        ensures { (k : K) (v : V) → fin.get (map_in K.cmp self.now) k ≡ Some v → result ≤ V.expiry v }
    {
        earliest(&self.items)
    }
}

impl<V: Copy, A: Allocator + Copy> SortedMap<ChannelNumber, V, A> {
    /// The value of a number, which may be no channel number.
    pub(crate) fn get_number(&self, number: u16) -> Option<V>
        ensures { result ≡ fin.get (map_in nat_cmp self.now) number }
    {
        match place_of_number(&self.items, number) {
            Ok(i) => Some(self.items[i].1),
            Err(_) => None,
        }
    }
}

impl<V: Copy, A: Allocator + Copy> SortedMap<u16, V, A> {
    /// The lowest port from a first to a last, both included, that isn't a key, and an even one where `even` asks for
    /// it.
    pub(crate) fn lowest_free(&self, first: u16, last: u16, even: bool) -> Option<u16>
        ensures { IsLowestFree (first, last) (λ port. is_some (fin.get (map_in nat_cmp self.now) port)) even result }
    {
        lowest_free(ports_from(&self.items, first), first, last, even)
    }
}
