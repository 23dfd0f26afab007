//! Entries of a snapshot, read.

ghost use Rattle.std.specs.Prelude.{◌≡◌, ◌⊎◌, ◌%◌, IfOk};
ghost use Rattle.std.specs.FinMap as fin;
ghost use Rattle.std.specs.Ordering.{is_lt};
ghost use Rattle.turn_history.specs.Fitting.{PortIsFree};
ghost use Rattle.turn_history.specs.Laws.{IsEntryAt};
ghost use Rattle.turn_record.specs.Views.{allocation_of};
ghost use Rattle.turn_record.specs.Reading.{Gives, allocation_at, last_passes, port_at};
ghost use Rattle.turn_record.specs.Snapshots.{entry_at, is_free_after, mark_at, mark_byte_at, token_if_at, tuple_after};
ghost use Rattle.turn_table.specs.Table.{IsAbove};
ghost use Rattle.turn_types.specs.FiveTuple.{tuple_cmp};

use crate::error::{DecodeError, ReadError};
use crate::field::{byte_of, granted_of, name_of, token_of, tuple_of, tx_of, u16_of};
use crate::lists::{channels_of, expiry_of, permissions_of};
use crate::version::Version;
use std::alloc::Allocator;
use turn_history::UserName;
use turn_table::{Entry, EntryParts, Table, above_the_last};
use turn_types::{FiveTuple, MAX_LIFETIME, Token, TxId};

/// Whether a five-tuple is above that of the last entry.
fn is_above_last<A: Allocator + Copy>(table: &Table<A>, tuple: FiveTuple) -> bool
    ensures { result ≡ last_passes (λ last. is_lt (tuple_cmp last.0 tuple)) (fin.entries table.now.contents.entries) }
{
    match table.last() {
        Some(last) => last < tuple,
        None => true,
    }
}

#[tactic(auto, unfolding(crate::specs::Snapshots::tuple_after))]
fn tuple_after<'a, A: Allocator + Copy>(
    table: &Table<A>,
    bytes: &'a [u8],
) -> Result<(FiveTuple, &'a [u8]), ReadError>
    ensures gives { Gives (λ x. (x.0, x.1.now)) result (tuple_after (fin.entries table.now.contents.entries) bytes.now) }
    ensures above { IfOk result (λ x. IsAbove table.now.contents x.0) }
{
    above_the_last();
    let (tuple, rest) = tuple_of(bytes)?;
    if !is_above_last(table, tuple) {
        return Err(ReadError::Malformed(DecodeError::OutOfOrder));
    }
    Ok((tuple, rest))
}

#[tactic(auto, unfolding(crate::specs::Reading::port_at))]
fn free_port_of<'a, A: Allocator + Copy>(
    table: &Table<A>,
    bytes: &'a [u8],
) -> Result<(u16, &'a [u8]), ReadError>
    ensures gives { Gives (λ x. (x.0, x.1.now)) result (port_at (is_free_after (fin.entries table.now.contents.entries)) bytes.now) }
    ensures free { IfOk result (λ x. PortIsFree table.now.contents x.0) }
{
    let (port, rest) = u16_of(bytes)?;
    if table.has_port(port) {
        return Err(ReadError::Malformed(DecodeError::BadValue));
    }
    Ok((port, rest))
}

/// What the Allocate request of an entry gave.
#[derive(Drop)]
pub(crate) struct Allocation<A: Allocator> {
    pub(crate) user: UserName<A>,
    pub(crate) port: u16,
    pub(crate) granted: u32,
    pub(crate) tx: TxId,
}

#[tactic(auto, unfolding(crate::specs::Reading::allocation_at))]
fn allocation_of<'a, A: Allocator + Copy>(
    alloc: A,
    table: &Table<A>,
    bytes: &'a [u8],
) -> Result<(Allocation<A>, &'a [u8]), ReadError>
    ensures gives { Gives (λ x. (allocation_of x.0, x.1.now)) result (allocation_at table.now.bounds (is_free_after (fin.entries table.now.contents.entries)) bytes.now) }
    ensures free { IfOk result (λ x. PortIsFree table.now.contents x.0.port) }
{
    let (user, rest) = name_of(alloc, table.limits().bounds(), bytes)?;
    let (port, rest) = free_port_of(table, rest)?;
    let (granted, rest) = granted_of(rest)?;
    let (tx, rest) = tx_of(rest)?;
    Ok((
        Allocation {
            user,
            port,
            granted,
            tx,
        },
        rest,
    ))
}

/// Whether a token follows, as it may beside an even port.
#[tactic(auto, unfolding(crate::specs::Snapshots::mark_byte_at))]
fn mark_byte_of(port: u16, bytes: &[u8]) -> Result<(u8, &[u8]), ReadError>
    ensures gives { Gives (λ x. (x.0, x.1.now)) result (mark_byte_at port bytes.now) }
    ensures even { IfOk result (λ x. (x.0 ≡ 0) ⊎ (port % 2 ≡ 0)) }
{
    let (mark, rest) = byte_of(bytes)?;
    if mark != 0 && (mark != 1 || port % 2 != 0) {
        return Err(ReadError::Malformed(DecodeError::BadValue));
    }
    Ok((mark, rest))
}

#[tactic(auto, unfolding(crate::specs::Snapshots::token_if_at))]
fn token_if_of(port: u16, mark: u8, bytes: &[u8]) -> Result<(Option<Token>, &[u8]), ReadError>
    requires { (mark ≡ 0) ⊎ (port % 2 ≡ 0) }
    ensures { Gives (λ x. (x.0, x.1.now)) result (token_if_at port mark bytes.now) }
{
    if mark == 0 {
        return Ok((None, bytes));
    }
    let (token, rest) = token_of(port + 1, bytes)?;
    Ok((Some(token), rest))
}

/// The token of an entry with this port.
#[tactic(auto, unfolding(crate::specs::Snapshots::mark_at))]
fn mark_of(version: Version, port: u16, bytes: &[u8]) -> Result<(Option<Token>, &[u8]), ReadError>
    ensures { Gives (λ x. (x.0, x.1.now)) result (mark_at version port bytes.now) }
{
    match version {
        Version::V1 => Ok((None, bytes)),
        Version::V2 => {
            let (mark, rest) = mark_byte_of(port, bytes)?;
            token_if_of(port, mark, rest)
        }
    }
}

/// The entry after those of the table, at the table's moment.
#[tactic(auto, unfolding(crate::specs::Snapshots::entry_at))]
pub(crate) fn entry_after<'a, A: Allocator + Copy>(
    alloc: A,
    version: Version,
    table: &Table<A>,
    bytes: &'a [u8],
) -> Result<(FiveTuple, Entry<A>, &'a [u8]), ReadError>
    ensures gives { Gives (λ x. ((x.0, x.1.entry), x.2.now)) result (entry_at version table.now.bounds table.now.moment (fin.entries table.now.contents.entries) bytes.now) }
    ensures entry { IfOk result (λ x. IsEntryAt table.now.bounds table.now.moment x.0 x.1.entry) }
    ensures above { IfOk result (λ x. IsAbove table.now.contents x.0) }
    ensures free { IfOk result (λ x. PortIsFree table.now.contents x.1.entry.port) }
{
    let (tuple, rest) = tuple_after(table, bytes)?;
    let (made, rest) = allocation_of(alloc, table, rest)?;
    let (token, rest) = mark_of(version, made.port, rest)?;
    let (expiry, rest) = expiry_of(table.moment(), u64::from(MAX_LIFETIME), rest)?;
    let (permissions, rest) = permissions_of(alloc, table.limits(), table.moment(), rest)?;
    let (channels, rest) = channels_of(alloc, table.limits(), table.moment(), rest)?;
    let entry = Entry::new(EntryParts {
        user: made.user,
        port: made.port,
        granted: made.granted,
        tx: made.tx,
        token,
        expiry,
        permissions,
        channels,
    });
    Ok((tuple, entry, rest))
}
