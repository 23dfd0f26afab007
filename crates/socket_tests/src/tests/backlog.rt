//! Datagrams that wait for a commit, with each growth refused in turn.

use failing_alloc::FailingAlloc;
use std::alloc::Allocator;
use std::test::Fail;
use turn_sockets::{Backlog, Room};
use turn_types::{Endpoint, FiveTuple};

/// The addresses that are listened on.
const ADDRESSES: [Endpoint; 2] = [
    Endpoint { ip: 1, port: 3478 },
    Endpoint { ip: 1, port: 443 },
];

const CLIENT: Endpoint = Endpoint { ip: 9, port: 5000 };

/// A client at each of the addresses.
const FIRST: FiveTuple = FiveTuple {
    client: CLIENT,
    server: Endpoint { ip: 1, port: 3478 },
};

const SECOND: FiveTuple = FiveTuple {
    client: CLIENT,
    server: Endpoint { ip: 1, port: 443 },
};

const ROOM: Room = Room {
    datagrams: 8,
    of_one: 8,
    bytes: 99,
};

/// What is sent, in this order, and in which order it is removed: addresses take turns.
const SENT: [(FiveTuple, &[u8]); 5] = [
    (FIRST, b"a"),
    (FIRST, b"b"),
    (FIRST, b""),
    (SECOND, b"c"),
    (SECOND, b"d"),
];

const REMOVED: [(FiveTuple, &[u8]); 5] = [
    (FIRST, b"a"),
    (SECOND, b"c"),
    (FIRST, b"b"),
    (SECOND, b"d"),
    (FIRST, b""),
];

/// Whether all is taken. A push that fails for memory is tried again, since one allocation may fail.
fn takes_all<A: Allocator + Copy>(backlog: &mut Backlog<A>) -> bool {
    for (five_tuple, bytes) in &SENT {
        let pushed = backlog.push(*five_tuple, bytes);
        if pushed != Ok(true) && (pushed.is_ok() || backlog.push(*five_tuple, bytes) != Ok(true)) {
            return false;
        }
    }
    true
}

fn removes_all<A: Allocator + Copy>(backlog: &mut Backlog<A>) -> bool {
    for (five_tuple, bytes) in &REMOVED {
        match backlog.pop() {
            Some((found, waiting)) if found == *five_tuple && waiting.as_slice() == *bytes => {}
            _ => return false,
        }
    }
    backlog.is_empty()
}

/// Whether all is taken and removed; `None` if there is no memory at the beginning.
fn plays<A: Allocator + Copy>(alloc: A) -> Option<bool> {
    let mut backlog = Backlog::new(alloc, &ADDRESSES, ROOM).ok()?;
    Some(takes_all(&mut backlog) && removes_all(&mut backlog))
}

#[test]
fn a_refused_growth_loses_no_datagram(rt: HostRuntime) -> Result<(), Fail> {
    for served in 0..64u64 {
        let refusing = FailingAlloc::new(rt.alloc(), served);
        let is_right = if served == 0 { None } else { Some(true) };
        assert!(rt; plays(&refusing) == is_right);
        if !refusing.has_refused() {
            return Ok(());
        }
    }
    Err("some growth is always refused")?
}
