//! Snapshots, written.

ghost use Rattle.std.specs.Prelude.{◌≡◌, ◌+◌, ◌≤◌, ◌<◌, ◌++◌, [], length, drop, take, vec_capacity, IsOk, OnErr, OnOk};
ghost use Rattle.turn_record.specs.Bytes.{entry, mark, reserved, snapshot};
ghost use Rattle.turn_record.specs.Records.{Holds, IsSnapshot, entry_size, max_reserved, max_snapshot, max_entry_bytes, max_reserved_bytes, max_snapshot_bytes};
ghost use Rattle.turn_record.specs.Written.{IsShort};
ghost use Rattle.turn_types.specs.Limits.{max_bounds};
ghost use Rattle.turn_types.specs.declared.address.FiveTuple.{FiveTuple};

use crate::entry_bytes::{ENTRY_BYTES, EntryBytes};
use crate::snapshot_items::Unwritten;
use crate::version::Version;
use std::alloc::{AllocError, Allocator, Global};
use std::marker::Model;
use turn_disk::Producer;
use turn_table::{Entry, Table};
use turn_types::{Limits, Token};

/// The bytes of a snapshot's moment and count of entries.
const HEAD_BYTES: usize = 12;

/// The max number of bytes of an entry of a snapshot, without its user, permissions and channels.
fn max_entry_size(version: Version) -> usize
    ensures { result ≡ entry_size version }
{
    match version {
        Version::V1 => 42,
        Version::V2 => 51,
    }
}

/// The max number of bytes of the reserved ports under the limits.
fn max_reserved(version: Version, limits: Limits) -> usize
    ensures value { result ≡ max_reserved version limits }
    ensures small { result ≤ max_reserved_bytes }
{
    let bounds = limits.bounds();
    match version {
        Version::V1 => 0,
        Version::V2 => 4 + 18 * bounds.allocations as usize,
    }
}

/// The max number of bytes of a snapshot in the version and under the limits.
pub fn max_snapshot(version: Version, limits: Limits) -> usize
    ensures value { result ≡ max_snapshot version limits }
    ensures small { result ≤ max_snapshot_bytes }
{
    let bounds = limits.bounds();
    let name = usize::from(bounds.name_bytes);
    let permissions = usize::from(bounds.permissions);
    let channels = usize::from(bounds.channels);
    let entry = max_entry_size(version) + name + 12 * permissions + 16 * channels;
    HEAD_BYTES + bounds.allocations as usize * entry + max_reserved(version, limits)
}

/// How many bytes the mark of an entry and its token have.
fn mark_size(version: Version, token: Option<Token>) -> usize
    ensures size { result ≡ length (mark version token) }
    ensures small { result ≤ 9 }
{
    match version {
        Version::V1 => 0,
        Version::V2 => match token {
            None => 1,
            Some(_) => 9,
        },
    }
}

/// How many bytes an entry of a snapshot has.
fn entry_size<A: Allocator + Copy>(version: Version, kept: &Entry<A>) -> usize
    requires { IsShort max_bounds kept.now.entry }
    ensures size { (f : FiveTuple) → result ≡ length (entry version (f, kept.now.entry)) }
    ensures small { result ≤ max_entry_bytes }
{
    let mark = mark_size(version, kept.token());
    42 + mark + kept.user().len() + 12 * kept.permissions().len() + 16 * kept.channels().len()
}

/// How many bytes the reserved ports of a snapshot have.
fn reserved_size<A: Allocator + Copy>(version: Version, table: &Table<A>) -> usize
    ensures size { result ≡ length (reserved version table.now.contents.reserved) }
    ensures small { result ≤ max_reserved_bytes }
{
    // For the proof: a table is within its limits, which are in their ranges.
    let (_moment, _limits) = (table.moment(), table.limits());
    match version {
        Version::V1 => 0,
        Version::V2 => 4 + 18 * table.reserved_ports().len(),
    }
}

/// How many bytes the snapshot of a table has. It takes no memory.
pub fn snapshot_size<A: Allocator + Copy>(version: Version, table: &Table<A>) -> usize
    requires { Holds version table.now.contents }
    ensures size { result ≡ length (snapshot version table.now.moment table.now.contents) }
    ensures most { result ≤ max_snapshot version table.now.bounds }
    ensures snapshot { IsSnapshot version table.now.bounds table.now.moment table.now.contents }
{
    // For the proof: a table is within its limits, which are in their ranges.
    let (_moment, _limits) = (table.moment(), table.limits());
    let mut size = HEAD_BYTES + reserved_size(version, table);
    for (_, kept) in table.entries() {
        size += entry_size(version, kept);
    }
    size
}

/// If all held bytes are given and an item is left, holds the next item's bytes. Returns how many of the held bytes
/// are given.
fn refill<A: Allocator + Copy>(
    held: &mut EntryBytes,
    given: usize,
    unwritten: &mut Unwritten<'_, A>,
) -> usize
    requires within { given ≤ length held.old }
    ensures rest { drop result held.new ++ unwritten.new ≡ drop given held.old ++ unwritten.old }
    ensures within { result ≤ length held.new }
    ensures ends { result ≡ length held.new → unwritten.new ≡ [] }
{
    if given < held.as_slice().len() {
        return given;
    }
    if unwritten.hold_next(held) {
        return 0;
    }
    given
}

/// Copies bytes to the front of the piece, as many as it has room for, and returns how many.
fn copy_front(piece: &mut [u8], bytes: &[u8]) -> usize
    ensures small { result ≤ length piece.old }
    ensures within { result ≤ length bytes.now }
    ensures len { length piece.new ≡ length piece.old }
    ensures gives { bytes.now ≡ take result piece.new ++ drop result bytes.now }
    ensures ends { result ≡ 0 → 0 < length piece.old → length bytes.now ≡ 0 }
{
    let size = piece.len().min(bytes.len());
    piece[..size].copy_from_slice(&bytes[..size]);
    size
}

/// Produces the bytes of a table's snapshot, at most one item's at a time. It takes no memory.
#[derive(Drop)]
pub struct SnapshotWriter<'a, A: Allocator + Copy = Global> {
    held: EntryBytes,
    given: usize,
    unwritten: Unwritten<'a, A>,
}

impl<'a, A: Allocator + Copy> Model for SnapshotWriter<'a, A> {
    ghost use Rattle.std.specs.Prelude.{ℕ, ◌≤◌, ◌++◌, List, drop, length};

    ghost Value = { List ℕ };

    ghost view = { λ w. drop w.given w.held ++ w.unwritten };

    ghost invariant = { λ w. w.given ≤ length w.held };
}

impl<'a, A: Allocator + Copy> SnapshotWriter<'a, A> {
    /// Of the table's snapshot in the version.
    pub fn new(version: Version, table: &'a Table<A>) -> SnapshotWriter<'a, A>
        requires { Holds version table.now.contents }
        ensures { result ≡ snapshot version table.now.moment table.now.contents }
    {
        // For the proof: the limits are in their ranges.
        let _limits = table.limits();
        let mut held = EntryBytes::new();
        held.put(&table.moment().seconds().to_be_bytes());
        held.put(&(table.len() as u32).to_be_bytes());
        SnapshotWriter {
            held,
            given: 0,
            unwritten: Unwritten::of(version, table),
        }
    }
}

impl<'a, A: Allocator + Copy> Producer for SnapshotWriter<'a, A> {
    ghost rest = { λ w. w };

    fn next(&mut self, piece: &mut [u8]) -> usize {
        let given = refill(&mut self.held, self.given, &mut self.unwritten);
        let size = copy_front(piece, &self.held.as_slice()[given..]);
        self.given = given + size;
        size
    }
}

/// Appends all bytes of a producer, for which there is room.
fn put_produced<A: Allocator, P: Producer>(out: &mut Vec<u8, A>, producer: &mut P)
    requires room { length out.old.items + length (P.rest producer.old) ≤ vec_capacity out.old }
    ensures items { out.new.items ≡ out.old.items ++ P.rest producer.old }
    ensures capacity { vec_capacity out.old ≤ vec_capacity out.new }
{
    let mut piece = [0u8; ENTRY_BYTES];
    'pieces: loop {
        let size = producer.next(&mut piece);
        if size == 0 {
            return;
        }
        let Ok(()) = out.extend_from_slice(&piece[..size]) else {
            unreachable!()
        };
    }
}

/// Appends the snapshot of a table in the version. After an `Err` the buffer holds what it held. It takes no memory where the buffer has
/// room for the snapshot, as it has where it has room for the longest under the table's limits.
pub fn write_snapshot<A: Allocator, B: Allocator + Copy>(
    out: &mut Vec<u8, A>,
    version: Version,
    table: &Table<B>,
) -> Result<(), AllocError>
    requires { Holds version table.now.contents }
    ensures ok { OnOk result (out.new.items ≡ out.old.items ++ snapshot version table.now.moment table.now.contents) }
    ensures err { OnErr result (out.new.items ≡ out.old.items) }
    ensures room { length out.old.items + length (snapshot version table.now.moment table.now.contents) ≤ vec_capacity out.old → IsOk result }
    ensures longest { length out.old.items + max_snapshot version table.now.bounds ≤ vec_capacity out.old → IsOk result }
    ensures capacity { vec_capacity out.old ≤ vec_capacity out.new }
{
    out.reserve(snapshot_size(version, table))?;
    put_produced(out, &mut SnapshotWriter::new(version, table));
    Ok(())
}
