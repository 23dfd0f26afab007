//! How far a snapshot is read: the table so far, and what is still to come.

ghost use Rattle.std.specs.Prelude.{◌≡◌, ◌≤◌, ◌<◌, ◌⊎◌, ◌++◌, List, ℕ, IfOk, IfSome, None, Some, true, false};
ghost use Rattle.std.specs.FinMap as fin;
ghost use Rattle.turn_history.specs.Fitting.{IsReservationInRange, PortIsFree};
ghost use Rattle.turn_history.specs.Laws.{IsEntryAt};
ghost use Rattle.turn_record.specs.Places.{IsWaiting, IsWaitingAt, Next, Steps, Takes, ends_with_entries, gives, if_whole, is_done, is_short, more_at};
ghost use Rattle.turn_record.specs.Reading.{Gives};
ghost use Rattle.turn_record.specs.Snapshots.{entry_at, head_at, reservation_at, total_at};
ghost use Rattle.turn_record.specs.declared.snapshot_progress.Remaining.TheVariants as to_come;
ghost use Rattle.turn_table.specs.Table.{IsAbove, IsAboveReserved};
ghost use Rattle.turn_types.specs.declared.limits.Bounds.{Bounds};

use crate::entries::entry_after;
use crate::error::{DecodeError, ReadError};
use crate::field::{moment_of, u32_of};
use crate::reserved::reservation_after;
use crate::version::Version;
use std::alloc::Allocator;
use std::marker::Model;
use turn_history::Reservation;
use turn_table::{Entry, Table};
use turn_types::{FiveTuple, Limits, Moment};

/// What is still to come: so many entries and what follows them, or so many reserved ports.
#[derive(Clone, Copy)]
pub(crate) enum Remaining {
    Entries(u32),
    Reserved(u32),
}

/// A table that is being restored, and what is still to come, which it has room for.
#[derive(Drop)]
pub(crate) struct Restored<A: Allocator> {
    table: Table<A>,
    remaining: Remaining,
}

impl<A: Allocator> Model for Restored<A> {
    ghost use Rattle.std.specs.Coded.{coded×};
    ghost use Rattle.turn_record.specs.Places.{HasRoom, Place, remaining_code};
    ghost use Rattle.turn_table.specs.State.{state_code};

    ghost Value = { Place };

    ghost coded = { coded× state_code remaining_code };

    ghost view = { λ r. (r.table, r.remaining) };

    ghost invariant = { λ r. HasRoom r.table r.remaining };
}

#[tactic(auto, unfolding(crate::specs::Snapshots::total_at))]
fn total_of(limits: Limits, bytes: &[u8]) -> Result<(u32, &[u8]), ReadError>
    ensures { Gives (λ x. (x.0, x.1.now)) result (total_at limits bytes.now) }
{
    let (count, rest) = u32_of(bytes)?;
    if limits.allocations() < count {
        return Err(ReadError::Malformed(DecodeError::BadValue));
    }
    Ok((count, rest))
}

#[tactic(auto, unfolding(crate::specs::Snapshots::head_at))]
fn head_of(limits: Limits, bytes: &[u8]) -> Result<(Moment, u32, &[u8]), ReadError>
    ensures { Gives (λ x. (record { moment = x.0; count = x.1 }, x.2.now)) result (head_at limits bytes.now) }
{
    let (moment, rest) = match moment_of(bytes) {
        Ok(read) => read,
        Err(error) => return Err(error),
    };
    let (count, rest) = total_of(limits, rest)?;
    Ok((moment, count, rest))
}

fn is_short(fault: DecodeError) -> bool
    ensures { result ≡ is_short fault }
{
    match fault {
        DecodeError::Short => true,
        DecodeError::BadTag => false,
        DecodeError::BadValue => false,
        DecodeError::OutOfOrder => false,
        DecodeError::TrailingBytes => false,
    }
}

/// What was read from bytes; `None` where they end inside a field.
fn if_whole<T: Drop>(read: Result<T, ReadError>) -> Result<Option<T>, ReadError>
    ensures { result ≡ if_whole read }
{
    match read {
        Ok(read) => Ok(Some(read)),
        Err(ReadError::Memory) => Err(ReadError::Memory),
        Err(ReadError::Malformed(fault)) => {
            if is_short(fault) {
                return Ok(None);
            }
            Err(ReadError::Malformed(fault))
        }
    }
}

/// The head of a snapshot; `None` where it isn't whole yet.
fn next_head(limits: Limits, bytes: &[u8]) -> Result<Option<(Moment, u32, &[u8])>, ReadError>
    ensures { Next (λ x. record { moment = x.0; count = x.1 }) (λ x. x.2.now) result (head_at limits) bytes.now }
{
    // As `if_whole`, which has no proof of a moment beside a slice.
    match head_of(limits, bytes) {
        Ok(read) => Ok(Some(read)),
        Err(ReadError::Memory) => Err(ReadError::Memory),
        Err(ReadError::Malformed(fault)) => {
            if is_short(fault) {
                return Ok(None);
            }
            Err(ReadError::Malformed(fault))
        }
    }
}

/// The entry after those of a table; `None` where it isn't whole yet.
fn next_entry<'a, A: Allocator + Copy>(
    alloc: A,
    version: Version,
    table: &Table<A>,
    bytes: &'a [u8],
) -> Result<Option<(FiveTuple, Entry<A>, &'a [u8])>, ReadError>
    ensures next { Next (λ x. (x.0, x.1.entry)) (λ x. x.2.now) result (entry_at version table.now.bounds table.now.moment (fin.entries table.now.contents.entries)) bytes.now }
    ensures entry { IfOk result (λ o. IfSome o (λ x. IsEntryAt table.now.bounds table.now.moment x.0 x.1.entry)) }
    ensures above { IfOk result (λ o. IfSome o (λ x. IsAbove table.now.contents x.0)) }
    ensures free { IfOk result (λ o. IfSome o (λ x. PortIsFree table.now.contents x.1.entry.port)) }
{
    if_whole(entry_after(alloc, version, table, bytes))
}

/// The count of the reserved ports; `None` where it isn't whole yet.
fn next_total(limits: Limits, bytes: &[u8]) -> Result<Option<(u32, &[u8])>, ReadError>
    ensures { Next (λ x. x.0) (λ x. x.1.now) result (total_at limits) bytes.now }
{
    if_whole(total_of(limits, bytes))
}

/// The reserved port after those of a table; `None` where it isn't whole yet.
fn next_reservation<'a, A: Allocator + Copy>(
    table: &Table<A>,
    bytes: &'a [u8],
) -> Result<Option<(u16, Reservation, &'a [u8])>, ReadError>
    ensures next { Next (λ x. (x.0, x.1)) (λ x. x.2.now) result (reservation_at table.now.moment (fin.entries table.now.contents.entries) (fin.entries table.now.contents.reserved)) bytes.now }
    ensures range { IfOk result (λ o. IfSome o (λ x. IsReservationInRange table.now.moment x.0 x.1)) }
    ensures free { IfOk result (λ o. IfSome o (λ x. PortIsFree table.now.contents x.0)) }
    ensures above { IfOk result (λ o. IfSome o (λ x. IsAboveReserved table.now.contents x.0)) }
{
    if_whole(reservation_after(table, bytes))
}

/// Reads the next of so many entries into a table, and returns the bytes after it; `None` where it isn't whole yet.
fn restore_entry<'a, A: Allocator + Copy>(
    alloc: A,
    version: Version,
    restored: &mut Restored<A>,
    left: u32,
    bytes: &'a [u8],
) -> Result<Option<&'a [u8]>, ReadError>
    requires some { 0 < left }
    requires entries { restored.old.1 ≡ to_come.Entries left }
    ensures bounds { restored.new.0.bounds ≡ restored.old.0.bounds }
    ensures takes { Takes version (λ rest. rest.now) restored.old restored.new result bytes.now }
{
    let Some((tuple, entry, rest)) = next_entry(alloc, version, &restored.table, bytes)? else {
        return Ok(None);
    };
    restored.table.restore(tuple, entry)?;
    restored.remaining = Remaining::Entries(left - 1);
    Ok(Some(rest))
}

/// Reads the count of the reserved ports, which follows the last entry.
fn restore_total<'a, A: Allocator + Copy>(
    version: Version,
    restored: &mut Restored<A>,
    bytes: &'a [u8],
) -> Result<Option<&'a [u8]>, ReadError>
    requires more { ends_with_entries version ≡ false }
    requires entries { restored.old.1 ≡ to_come.Entries 0 }
    ensures bounds { restored.new.0.bounds ≡ restored.old.0.bounds }
    ensures takes { Takes version (λ rest. rest.now) restored.old restored.new result bytes.now }
{
    let Some((count, rest)) = next_total(restored.table.limits(), bytes)? else {
        return Ok(None);
    };
    restored.remaining = Remaining::Reserved(count);
    Ok(Some(rest))
}

/// Reads the next of so many reserved ports into a table.
fn restore_reserved<'a, A: Allocator + Copy>(
    version: Version,
    restored: &mut Restored<A>,
    left: u32,
    bytes: &'a [u8],
) -> Result<Option<&'a [u8]>, ReadError>
    requires some { 0 < left }
    requires reserved { restored.old.1 ≡ to_come.Reserved left }
    ensures bounds { restored.new.0.bounds ≡ restored.old.0.bounds }
    ensures takes { Takes version (λ rest. rest.now) restored.old restored.new result bytes.now }
{
    let Some((port, reservation, rest)) = next_reservation(&restored.table, bytes)? else {
        return Ok(None);
    };
    restored.table.restore_reserved(port, reservation)?;
    restored.remaining = Remaining::Reserved(left - 1);
    Ok(Some(rest))
}

/// Reads the next item into a table, and returns the bytes after it; `None` where it isn't whole yet.
fn restore_next<'a, A: Allocator + Copy>(
    alloc: A,
    version: Version,
    restored: &mut Restored<A>,
    bytes: &'a [u8],
) -> Result<Option<&'a [u8]>, ReadError>
    requires { is_done version restored.old.1 ≡ false }
    ensures bounds { restored.new.0.bounds ≡ restored.old.0.bounds }
    ensures takes { Takes version (λ rest. rest.now) restored.old restored.new result bytes.now }
{
    match restored.remaining {
        Remaining::Entries(left) => {
            if left == 0 {
                return restore_total(version, restored, bytes);
            }
            restore_entry(alloc, version, restored, left, bytes)
        }
        Remaining::Reserved(left) => restore_reserved(version, restored, left, bytes),
    }
}

/// Whether nothing follows the last entry.
fn ends_with_entries(version: Version) -> bool
    ensures { result ≡ ends_with_entries version }
{
    match version {
        Version::V1 => true,
        Version::V2 => false,
    }
}

/// Whether nothing is still to come.
fn is_done(version: Version, remaining: Remaining) -> bool
    ensures { result ≡ is_done version remaining }
{
    match remaining {
        Remaining::Entries(left) => ends_with_entries(version) && left == 0,
        Remaining::Reserved(left) => left == 0,
    }
}

/// Reads whole items into a table, and returns the bytes after them.
fn restore_items<'a, A: Allocator + Copy>(
    alloc: A,
    version: Version,
    restored: &mut Restored<A>,
    bytes: &'a [u8],
) -> Result<&'a [u8], ReadError>
    ensures bounds { restored.new.0.bounds ≡ restored.old.0.bounds }
    ensures goes { (more : List ℕ) → Steps (λ rest. more_at version restored.new (rest.now ++ more)) result (more_at version restored.old (bytes.now ++ more)) }
    ensures waits { IfOk result (λ rest. (is_done version restored.new.1 ≡ true) ⊎ IsWaitingAt version restored.new rest.now) }
{
    let mut rest = bytes;
    while !is_done(version, restored.remaining) {
        let Some(after) = restore_next(alloc, version, restored, rest)? else {
            return Ok(rest);
        };
        rest = after;
    }
    Ok(rest)
}

/// Reads items, and refuses bytes after the last one.
#[tactic(auto, unfolding(crate::specs::Places::gives))]
fn go_on<'a, A: Allocator + Copy>(
    alloc: A,
    version: Version,
    restored: Restored<A>,
    bytes: &'a [u8],
) -> Result<(Restored<A>, &'a [u8]), ReadError>
    ensures bounds { IfOk result (λ x. x.0.0.bounds ≡ restored.0.bounds) }
    ensures goes { (b : Bounds) (more : List ℕ) → Steps (λ x. gives version b (Some x.0) (x.1.now ++ more)) result (gives version b (Some restored) (bytes.now ++ more)) }
    ensures waits { IfOk result (λ x. IsWaitingAt version x.0 x.1.now) }
{
    let mut restored = restored;
    let rest = restore_items(alloc, version, &mut restored, bytes)?;
    if is_done(version, restored.remaining) {
        if !rest.is_empty() {
            return Err(ReadError::Malformed(DecodeError::TrailingBytes));
        }
    }
    Ok((restored, rest))
}

/// Reads the head, and items after it.
#[tactic(auto, unfolding(crate::specs::Places::gives))]
fn begin<'a, A: Allocator + Copy>(
    alloc: A,
    version: Version,
    limits: Limits,
    bytes: &'a [u8],
) -> Result<(Option<Restored<A>>, &'a [u8]), ReadError>
    ensures bounds { IfOk result (λ x. IfSome x.0 (λ p. p.0.bounds ≡ limits)) }
    ensures goes { (more : List ℕ) → Steps (λ x. gives version limits x.0 (x.1.now ++ more)) result (gives version limits None (bytes.now ++ more)) }
    ensures waits { IfOk result (λ x. IsWaiting version limits x.0 x.1.now) }
{
    match next_head(limits, bytes) {
        Err(error) => Err(error),
        Ok(None) => Ok((None, bytes)),
        Ok(Some((moment, count, rest))) => {
            let table = Table::new(alloc, limits, moment);
            let remaining = Remaining::Entries(count);
            let (restored, rest) = go_on(alloc, version, Restored { table, remaining }, rest)?;
            Ok((Some(restored), rest))
        }
    }
}

/// Reads on, and returns the bytes of the item or the head that isn't whole.
pub(crate) fn advance<'a, A: Allocator + Copy>(
    alloc: A,
    version: Version,
    limits: Limits,
    restored: Option<Restored<A>>,
    bytes: &'a [u8],
) -> Result<(Option<Restored<A>>, &'a [u8]), ReadError>
    ensures bounds { IfSome restored (λ p. p.0.bounds ≡ limits) → IfOk result (λ x. IfSome x.0 (λ p. p.0.bounds ≡ limits)) }
    ensures goes { (more : List ℕ) → Steps (λ x. gives version limits x.0 (x.1.now ++ more)) result (gives version limits restored (bytes.now ++ more)) }
    ensures waits { IfOk result (λ x. IsWaiting version limits x.0 x.1.now) }
{
    match restored {
        None => begin(alloc, version, limits, bytes),
        Some(restored) => {
            let (restored, rest) = go_on(alloc, version, restored, bytes)?;
            Ok((Some(restored), rest))
        }
    }
}

/// The table, where all of it is restored.
#[tactic(auto, unfolding(crate::specs::Places::gives))]
pub(crate) fn conclude<A: Allocator + Copy>(
    version: Version,
    restored: Option<Restored<A>>,
) -> Result<Table<A>, ReadError>
    ensures gives { (b : Bounds) (bytes : List ℕ) → IsWaiting version b restored bytes → Gives (λ t. (t.moment, t.contents)) result (gives version b restored bytes) }
    ensures bounds { (b : Bounds) → IfSome restored (λ p. p.0.bounds ≡ b) → IfOk result (λ t. t.bounds ≡ b) }
{
    match restored {
        None => Err(ReadError::Malformed(DecodeError::Short)),
        Some(restored) => {
            if !is_done(version, restored.remaining) {
                return Err(ReadError::Malformed(DecodeError::Short));
            }
            Ok(restored.table)
        }
    }
}

/// Reads on from the bytes that were held and the next piece.
pub(crate) fn step<A: Allocator + Copy>(
    alloc: A,
    version: Version,
    limits: Limits,
    restored: Option<Restored<A>>,
    held: &mut Vec<u8, A>,
    piece: &[u8],
) -> Result<Option<Restored<A>>, ReadError>
    ensures bounds { IfSome restored (λ p. p.0.bounds ≡ limits) → IfOk result (λ x. IfSome x (λ p. p.0.bounds ≡ limits)) }
    ensures goes { (more : List ℕ) → Steps (λ x. gives version limits x (held.new.items ++ more)) result (gives version limits restored (held.old.items ++ (piece.now ++ more))) }
    ensures waits { IfOk result (λ x. IsWaiting version limits x held.new.items) }
{
    held.extend_from_slice(piece)?;
    let mut kept = Vec::new(alloc);
    let (restored, rest) = advance(alloc, version, limits, restored, held)?;
    kept.extend_from_slice(rest)?;
    *held = kept;
    Ok(restored)
}
