//! A table as text.

use std::alloc::{AllocError, Allocator};
use turn_config::{ShownEndpoint, ShownIp};
use turn_history::{Channel, ChannelNumber, Reservation};
use turn_table::{Entry, Table};
use turn_types::{FiveTuple, Moment};

fn put_permissions<A: Allocator + Copy>(
    alloc: A,
    permissions: &[(u32, u64)],
    second: u64,
    lines: &mut Vec<String<A>, A>,
) -> Result<(), AllocError> {
    for (ip, expiry) in permissions {
        if second < *expiry {
            let ip = ShownIp(*ip);
            lines.push(format!(in alloc; " permit {ip} {expiry}")?)?;
        }
    }
    Ok(())
}

fn put_channels<A: Allocator + Copy>(
    alloc: A,
    channels: &[(ChannelNumber, Channel)],
    second: u64,
    lines: &mut Vec<String<A>, A>,
) -> Result<(), AllocError> {
    for (number, channel) in channels {
        let expiry = channel.expiry;
        if second < expiry {
            let (number, peer) = (number.get(), ShownEndpoint(channel.peer));
            lines.push(format!(in alloc; " channel {number:04x} {peer} {expiry}")?)?;
        }
    }
    Ok(())
}

fn put_entry<A: Allocator + Copy>(
    alloc: A,
    tuple: FiveTuple,
    entry: &Entry<A>,
    second: u64,
    lines: &mut Vec<String<A>, A>,
) -> Result<(), AllocError> {
    let (client, server) = (ShownEndpoint(tuple.client), ShownEndpoint(tuple.server));
    let user = hex::encode(alloc, entry.user())?;
    let (port, expiry) = (entry.port(), entry.expiry());
    lines.push(format!(in alloc; "{client} {server} {user} {port} {expiry}")?)?;
    put_permissions(alloc, entry.permissions(), second, lines)?;
    put_channels(alloc, entry.channels(), second, lines)
}

fn put_reserved<A: Allocator + Copy>(
    alloc: A,
    ports: &[(u16, Reservation)],
    second: u64,
    lines: &mut Vec<String<A>, A>,
) -> Result<(), AllocError> {
    for (port, reservation) in ports {
        let expiry = reservation.expiry;
        if second < expiry {
            let token = hex::encode(alloc, &reservation.token.0)?;
            lines.push(format!(in alloc; "reserved {port} {token} {expiry}")?)?;
        }
    }
    Ok(())
}

/// Adds the lines of what is live in a table at a moment: of each allocation, ascending by five-tuple, its line and those of
/// its permissions and channels; of each reserved port, ascending, its line; and in the end how many allocations there are.
pub fn put_table<A: Allocator + Copy>(
    alloc: A,
    table: &Table<A>,
    moment: Moment,
    lines: &mut Vec<String<A>, A>,
) -> Result<(), AllocError> {
    let second = moment.seconds();
    let mut live = 0u64;
    for (tuple, entry) in table.entries() {
        if second < entry.expiry() {
            live = live.wrapping_add(1);
            put_entry(alloc, tuple, entry, second, lines)?;
        }
    }
    put_reserved(alloc, table.reserved_ports(), second, lines)?;
    lines.push(format!(in alloc; "live {live}")?)?;
    Ok(())
}
