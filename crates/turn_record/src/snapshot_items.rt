//! What of a snapshot is still to be written.

ghost use Rattle.std.specs.Prelude.{◌≡◌, ◌<◌, ◌^◌, ◌++◌, [], true, false, length};
ghost use Rattle.std.specs.FinMap as fin;
ghost use Rattle.turn_record.specs.Bytes.{each, entry, reserved};
ghost use Rattle.turn_record.specs.Written.{AreShort};

use crate::entry_bytes::EntryBytes;
use crate::version::Version;
use std::alloc::Allocator;
use std::marker::Model;
use turn_history::Reservation;
use turn_table::{Entries, Table};

/// The reserved ports of a table: their count, and these. There is neither in version 1.
#[derive(Drop)]
pub(crate) struct UnwrittenPorts<'a> {
    count: Option<u32>,
    ports: &'a [(u16, Reservation)],
}

impl<'a> Model for UnwrittenPorts<'a> {
    ghost use Rattle.std.specs.Prelude.{ℕ, ◌++◌, List};
    ghost use Rattle.turn_record.specs.Bytes.{each, reservation};
    ghost use Rattle.turn_record.specs.Written.{count_if};

    ghost Value = { List ℕ };

    ghost view = { λ u. count_if u.count ++ each reservation u.ports.now };
}

impl<'a> UnwrittenPorts<'a> {
    #[tactic(auto, unfolding(crate::specs::Bytes::reserved))]
    fn of<A: Allocator + Copy>(version: Version, table: &'a Table<A>) -> UnwrittenPorts<'a>
        requires { fin.len table.now.contents.reserved < 2 ^ 32 }
        ensures { result ≡ reserved version table.now.contents.reserved }
    {
        match version {
            Version::V1 => UnwrittenPorts {
                count: None,
                ports: &[],
            },
            Version::V2 => {
                let ports = table.reserved_ports();
                UnwrittenPorts {
                    count: Some(ports.len() as u32),
                    ports,
                }
            }
        }
    }

    /// Puts the bytes of the count or of the next port in place of what was held. Returns false where nothing is left.
    fn hold_next(&mut self, held: &mut EntryBytes) -> bool
        ensures next { result ≡ true → (held.new ++ self.new ≡ self.old) × (0 < length held.new) }
        ensures end { result ≡ false → (held.new ≡ held.old) × (self.old ≡ []) × (self.new ≡ []) }
    {
        if let Some(count) = self.count {
            self.count = None;
            held.hold_count(count);
            return true;
        }
        match self.ports {
            [first, rest @ ..] => {
                self.ports = rest;
                held.hold_reserved(first.0, first.1);
                true
            }
            [] => false,
        }
    }
}

/// The entries of a table, and its reserved ports.
#[derive(Drop)]
pub(crate) struct Unwritten<'a, A: Allocator + Copy> {
    version: Version,
    entries: Entries<'a, A>,
    ports: UnwrittenPorts<'a>,
}

impl<'a, A: Allocator + Copy> Model for Unwritten<'a, A> {
    ghost use Rattle.std.specs.Prelude.{ℕ, ◌++◌, List};
    ghost use Rattle.turn_record.specs.Bytes.{each, entry};
    ghost use Rattle.turn_record.specs.Written.{AreShort};

    ghost Value = { List ℕ };

    ghost view = { λ u. each (entry u.version) u.entries ++ u.ports };

    ghost invariant = { λ u. AreShort u.entries };
}

impl<'a, A: Allocator + Copy> Unwritten<'a, A> {
    /// All that follows the head of a table's snapshot.
    pub(crate) fn of(version: Version, table: &'a Table<A>) -> Unwritten<'a, A>
        requires short { AreShort (fin.entries table.now.contents.entries) }
        requires few { fin.len table.now.contents.reserved < 2 ^ 32 }
        ensures { result ≡ each (entry version) (fin.entries table.now.contents.entries) ++ reserved version table.now.contents.reserved }
    {
        Unwritten {
            version,
            entries: table.entries(),
            ports: UnwrittenPorts::of(version, table),
        }
    }

    /// Puts the bytes of the next item in place of what was held. Returns false where nothing is left.
    pub(crate) fn hold_next(&mut self, held: &mut EntryBytes) -> bool
        ensures next { result ≡ true → (held.new ++ self.new ≡ self.old) × (0 < length held.new) }
        ensures end { result ≡ false → (held.new ≡ held.old) × (self.old ≡ []) × (self.new ≡ []) }
    {
        match self.entries.next() {
            Some((tuple, kept)) => {
                held.hold(self.version, tuple, kept);
                true
            }
            None => self.ports.hold_next(held),
        }
    }
}
