//! Reserved ports of a snapshot, read.

ghost use Rattle.std.specs.Prelude.{◌≡◌, IfOk, nat_lt};
ghost use Rattle.std.specs.FinMap as fin;
ghost use Rattle.turn_history.specs.Fitting.{IsReservationInRange, PortIsFree};
ghost use Rattle.turn_record.specs.Reading.{Gives, last_passes};
ghost use Rattle.turn_record.specs.Snapshots.{odd_port_at, reservation_at, reserved_port_after};
ghost use Rattle.turn_table.specs.Table.{IsAboveReserved};

use crate::error::{DecodeError, ReadError};
use crate::field::{token_of, u16_of};
use crate::lists::expiry_of;
use std::alloc::Allocator;
use turn_history::Reservation;
use turn_table::Table;
use turn_types::RESERVATION_LIFETIME;

/// An odd port that no entry has.
#[tactic(auto, unfolding(crate::specs::Snapshots::odd_port_at))]
fn odd_port_of<'a, A: Allocator + Copy>(
    table: &Table<A>,
    bytes: &'a [u8],
) -> Result<(u16, &'a [u8]), ReadError>
    ensures gives { Gives (λ x. (x.0, x.1.now)) result (odd_port_at (fin.entries table.now.contents.entries) bytes.now) }
    ensures free { IfOk result (λ x. PortIsFree table.now.contents x.0) }
{
    let (port, rest) = u16_of(bytes)?;
    if port % 2 == 0 || table.has_port(port) {
        return Err(ReadError::Malformed(DecodeError::BadValue));
    }
    Ok((port, rest))
}

/// Whether a port is above the last that is reserved.
fn is_above_last<A: Allocator + Copy>(table: &Table<A>, port: u16) -> bool
    ensures { result ≡ last_passes (λ last. nat_lt last.0 port) (fin.entries table.now.contents.reserved) }
{
    match table.reserved_ports().last() {
        Some(last) => last.0 < port,
        None => true,
    }
}

#[tactic(auto, unfolding(crate::specs::Snapshots::reserved_port_after))]
fn reserved_port_after<'a, A: Allocator + Copy>(
    table: &Table<A>,
    bytes: &'a [u8],
) -> Result<(u16, &'a [u8]), ReadError>
    ensures gives { Gives (λ x. (x.0, x.1.now)) result (reserved_port_after (fin.entries table.now.contents.entries) (fin.entries table.now.contents.reserved) bytes.now) }
    ensures free { IfOk result (λ x. PortIsFree table.now.contents x.0) }
    ensures above { IfOk result (λ x. IsAboveReserved table.now.contents x.0) }
{
    let (port, rest) = odd_port_of(table, bytes)?;
    if !is_above_last(table, port) {
        return Err(ReadError::Malformed(DecodeError::OutOfOrder));
    }
    Ok((port, rest))
}

/// The reserved port after those of the table, at the table's moment, beside the table's entries.
#[tactic(auto, unfolding(crate::specs::Snapshots::reservation_at))]
pub(crate) fn reservation_after<'a, A: Allocator + Copy>(
    table: &Table<A>,
    bytes: &'a [u8],
) -> Result<(u16, Reservation, &'a [u8]), ReadError>
    ensures gives { Gives (λ x. ((x.0, x.1), x.2.now)) result (reservation_at table.now.moment (fin.entries table.now.contents.entries) (fin.entries table.now.contents.reserved) bytes.now) }
    ensures range { IfOk result (λ x. IsReservationInRange table.now.moment x.0 x.1) }
    ensures free { IfOk result (λ x. PortIsFree table.now.contents x.0) }
    ensures above { IfOk result (λ x. IsAboveReserved table.now.contents x.0) }
{
    let (port, rest) = reserved_port_after(table, bytes)?;
    let (token, rest) = token_of(port, rest)?;
    let (expiry, rest) = expiry_of(table.moment(), RESERVATION_LIFETIME, rest)?;
    Ok((port, Reservation { token, expiry }, rest))
}
