//! The five-tuples of a table in the order of their users' names.

ghost use Rattle.std.specs.Prelude.{◌≡◌, ℕ, ◌+◌, ◌<◌, ◌≤◌, [], Some, OnOk, OnErr, slice_get};
ghost use Rattle.std.specs.List.{Contains, count_by, insert, remove};
ghost use Rattle.std.specs.Str.{bytes_eq};
ghost use Rattle.turn_table.specs.ByUser.{NamesRise, IsFirstOf, IsEndOf, names_in};

use crate::edit::EntryMap;
use std::alloc::{AllocError, Allocator, Global};
use std::marker::Model;
use turn_types::FiveTuple;

/// The name of the user of a five-tuple's entry, or an empty one where it has none.
fn name_at<'a, A: Allocator>(entries: &'a EntryMap<A>, tuple: &FiveTuple) -> &'a [u8]
    ensures { result.now ≡ names_in entries.now.entries tuple.now }
{
    match entries.get(tuple) {
        Some(entry) => entry.user(),
        None => &[],
    }
}

/// The place of the first five-tuple of a user, or where it would be.
fn first_of<A: Allocator>(tuples: &[FiveTuple], user: &[u8], entries: &EntryMap<A>) -> usize
    requires { NamesRise (names_in entries.now.entries) tuples.now }
    ensures { IsFirstOf (names_in entries.now.entries) user.now tuples.now result }
{
    tuples.partition_point(|tuple| name_at(entries, tuple).cmp(user).is_lt())
}

/// The place after the last five-tuple of a user.
fn end_of<A: Allocator>(tuples: &[FiveTuple], user: &[u8], entries: &EntryMap<A>) -> usize
    requires { NamesRise (names_in entries.now.entries) tuples.now }
    ensures { IsEndOf (names_in entries.now.entries) user.now tuples.now result }
{
    tuples.partition_point(|tuple| name_at(entries, tuple).cmp(user).is_le())
}

/// The place of a five-tuple, looked for among those of its user.
fn place_in<A: Allocator>(
    tuples: &[FiveTuple],
    tuple: FiveTuple,
    user: &[u8],
    entries: &EntryMap<A>,
) -> usize
    requires rises { NamesRise (names_in entries.now.entries) tuples.now }
    requires named { names_in entries.now.entries tuple ≡ user.now }
    requires listed { Contains tuples.now tuple }
    ensures { slice_get tuples.now result ≡ Some tuple }
{
    let mut place = first_of(tuples, user, entries);
    while tuples[place] != tuple {
        place += 1;
    }
    place
}

/// Five-tuples in the order of their users' names, with room for some more. Those of one user follow one another.
#[derive(Drop)]
pub(crate) struct UserOrder<A: Allocator = Global> {
    tuples: Vec<FiveTuple, A>,
}

impl<A: Allocator> Model for UserOrder<A> {
    ghost use Rattle.std.specs.Prelude.{ℕ, ◌-◌, List};
    ghost use Rattle.std.specs.Vec.{vec_len, vec_capacity};
    ghost use Rattle.std.specs.Coded.{coded×, coded_ℕ, coded_list};
    ghost use Rattle.turn_history.specs.Codes.{tuple_code};
    ghost use Rattle.turn_types.specs.declared.address.FiveTuple.{FiveTuple};

    ghost Value = { List FiveTuple × ℕ };

    ghost coded = { coded× (coded_list tuple_code) coded_ℕ };

    ghost view = { λ u. (u.tuples.items, vec_capacity u.tuples - vec_len u.tuples) };
}

impl<A: Allocator + Copy> UserOrder<A> {
    pub(crate) fn new(alloc: A) -> UserOrder<A>
        ensures { result.0 ≡ [] }
    {
        UserOrder {
            tuples: Vec::new(alloc),
        }
    }

    /// How many five-tuples a user has.
    pub(crate) fn count_of(&self, user: &[u8], entries: &EntryMap<A>) -> usize
        requires { NamesRise (names_in entries.now.entries) self.now.0 }
        ensures { result ≡ count_by (λ f. bytes_eq (names_in entries.now.entries f) user.now) self.now.0 }
    {
        let tuples = self.tuples.as_slice();
        end_of(tuples, user, entries) - first_of(tuples, user, entries)
    }

    /// Makes room for so many more five-tuples.
    pub(crate) fn reserve(&mut self, more: usize) -> Result<(), AllocError>
        ensures tuples { self.new.0 ≡ self.old.0 }
        ensures room { OnOk result (more ≤ self.new.1) }
        ensures err { OnErr result (self.new ≡ self.old) }
    {
        self.tuples.reserve(more)
    }

    /// Adds a five-tuple after the last of its user. It needs no entry of its own yet.
    pub(crate) fn insert(&mut self, tuple: FiveTuple, user: &[u8], entries: &EntryMap<A>)
        requires room { 0 < self.old.1 }
        requires rises { NamesRise (names_in entries.now.entries) self.old.0 }
        ensures tuples { (end : ℕ) × IsEndOf (names_in entries.now.entries) user.now self.old.0 end × (self.new.0 ≡ insert self.old.0 end tuple) }
        ensures room { self.old.1 ≤ self.new.1 + 1 }
    {
        let end = end_of(&self.tuples, user, entries);
        let _ = self.tuples.insert(end, tuple);
    }

    /// Takes out a five-tuple that still has its entry.
    pub(crate) fn remove(&mut self, tuple: FiveTuple, user: &[u8], entries: &EntryMap<A>)
        requires rises { NamesRise (names_in entries.now.entries) self.old.0 }
        requires named { names_in entries.now.entries tuple ≡ user.now }
        requires listed { Contains self.old.0 tuple }
        ensures tuples { (place : ℕ) × (slice_get self.old.0 place ≡ Some tuple) × (self.new.0 ≡ remove self.old.0 place) }
        ensures room { self.old.1 ≤ self.new.1 }
    {
        let place = place_in(&self.tuples, tuple, user, entries);
        self.tuples.remove(place);
    }
}
