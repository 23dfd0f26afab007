//! Datagrams and tables that are the same.

use std::alloc::Allocator;
use turn_step::Outgoing;
use turn_table::{Entry, Table};

/// Whether two datagrams go to the same address by the same bytes.
fn is_same<A: Allocator>(first: &Outgoing<A>, second: &Outgoing<A>) -> bool {
    match (first, second) {
        (
            Outgoing::ToClient { five_tuple, bytes },
            Outgoing::ToClient {
                five_tuple: other,
                bytes: other_bytes,
            },
        ) => five_tuple == other && bytes.as_slice() == other_bytes.as_slice(),
        (
            Outgoing::ToPeer { port, peer, bytes },
            Outgoing::ToPeer {
                port: other,
                peer: other_peer,
                bytes: other_bytes,
            },
        ) => port == other && peer == other_peer && bytes.as_slice() == other_bytes.as_slice(),
        _ => false,
    }
}

/// Whether two lists have the same datagrams in the same order.
pub fn are_same<A: Allocator>(first: &[Outgoing<A>], second: &[Outgoing<A>]) -> bool {
    first.len() == second.len()
        && first
            .iter()
            .zip(second.iter())
            .all(|(first, second)| is_same(first, second))
}

fn is_same_entry<A: Allocator + Copy>(first: &Entry<A>, second: &Entry<A>) -> bool {
    first.user() == second.user()
        && (first.port(), first.granted(), first.expiry())
            == (second.port(), second.granted(), second.expiry())
        && first.tx() == second.tx()
        && first.permissions() == second.permissions()
        && first.channels() == second.channels()
}

/// Whether two tables have the same entries and reserved ports at the same moment.
pub fn is_same_table<A: Allocator + Copy>(first: &Table<A>, second: &Table<A>) -> bool {
    first.moment() == second.moment()
        && first.len() == second.len()
        && first.reserved_ports() == second.reserved_ports()
        && first.entries().zip(second.entries()).all(|(first, second)| first.0 == second.0
            && is_same_entry(first.1, second.1))
}
