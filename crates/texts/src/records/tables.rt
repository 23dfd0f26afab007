//! Tables as text.

use std::alloc::{AllocError, Allocator, Global};
use turn_table::{Entry, Table};
use turn_types::{Endpoint, FiveTuple};

fn put_endpoint(alloc: Global, text: &mut String, place: Endpoint) -> Result<(), AllocError> {
    let (ip, port) = (place.ip, place.port);
    text.push_str(format!(in alloc; " {ip:08x}:{port}")?.as_str())?;
    Ok(())
}

fn put_tuple(alloc: Global, text: &mut String, tuple: FiveTuple) -> Result<(), AllocError> {
    put_endpoint(alloc, text, tuple.client)?;
    put_endpoint(alloc, text, tuple.server)
}

fn put_entry<A: Allocator + Copy>(
    alloc: Global,
    text: &mut String,
    entry: &Entry<A>,
) -> Result<(), AllocError> {
    let user = hex::encode(alloc, entry.user())?;
    let tx = hex::encode(alloc, &entry.tx().0)?;
    let (port, granted, expiry) = (entry.port(), entry.granted(), entry.expiry());
    text.push_str(format!(in alloc; " {user} {port} {granted} {tx} {expiry}")?.as_str())?;
    if let Some(token) = entry.token() {
        let token = hex::encode(alloc, &token.0)?;
        text.push_str(format!(in alloc; " token {token}")?.as_str())?;
    }
    for (ip, expiry) in entry.permissions() {
        text.push_str(format!(in alloc; " permit {ip:08x} {expiry}")?.as_str())?;
    }
    for (number, channel) in entry.channels() {
        let (number, expiry) = (number.get(), channel.expiry);
        text.push_str(format!(in alloc; " channel {number:04x} {expiry}")?.as_str())?;
        put_endpoint(alloc, text, channel.peer)?;
    }
    Ok(())
}

/// The moment of a table, its entries and its reserved ports, as text.
pub fn table_text<A: Allocator + Copy>(
    alloc: Global,
    table: &Table<A>,
) -> Result<String, AllocError> {
    let moment = table.moment().seconds();
    let mut text = format!(in alloc; "{moment}")?;
    for (tuple, entry) in table.entries() {
        text.push_str(";")?;
        put_tuple(alloc, &mut text, tuple)?;
        put_entry(alloc, &mut text, entry)?;
    }
    for (port, reservation) in table.reserved_ports() {
        let token = hex::encode(alloc, &reservation.token.0)?;
        let expiry = reservation.expiry;
        text.push_str(format!(in alloc; "; reserved {port} {token} {expiry}")?.as_str())?;
    }
    Ok(text)
}
