//! The table of live allocations, whose growths are refused in turn.

ghost use Rattle.turn_history.specs.Act.{event_of};
ghost use Rattle.turn_history.specs.Fitting.{IsInRange};

use failing_alloc::FailingAlloc;
use std::alloc::{Allocator, Global};
use std::process::Abort;
use turn_history::{Act, Event};
use turn_record::{Version, read_act};
use turn_table::Table;
use turn_types::{Endpoint, FiveTuple, Limits, Moment, Token};

fn moment_at(rt: &impl Abort, seconds: u64) -> Moment {
    Moment::new(seconds).expect(rt, "a moment")
}

/// The five-tuple of 192.0.2.1:32853 and 192.0.2.100:3478.
const TUPLE: FiveTuple = FiveTuple {
    client: Endpoint {
        ip: 0xC000_0201,
        port: 32853,
    },
    server: Endpoint {
        ip: 0xC000_0264,
        port: 3478,
    },
};

/// Second 1000 and the five-tuple, as they stand in an act entry after its tag.
const AT: [u8; 20] = [
    0, 0, 0, 0, 0, 0, 3, 0xE8, 0xC0, 0, 2, 1, 0x80, 0x55, 0xC0, 0, 2, 100, 0x0D, 0x96,
];

/// An act entry: its tag, and what follows the five-tuple.
type Entry = (u8, &'static [u8]);

/// The act of an entry at second 1000, under the limits of a table.
fn read<A: Allocator + Copy>(rt: &impl Abort, alloc: A, table: &Table<A>, entry: Entry) -> Event<A>
    ensures { IsInRange table.now.bounds (event_of result) }
{
    let (tag, body) = entry;
    let mut bytes = Vec::from_slice(alloc, &[tag]).expect(rt, "memory");
    bytes.extend_from_slice(&AT).expect(rt, "memory");
    bytes.extend_from_slice(body).expect(rt, "memory");
    match read_act(alloc, Version::V2, table.limits(), &bytes) {
        Ok(event) => event,
        Err(_) => panic!(rt; "an act entry"),
    }
}

fn expiry_of<A: Allocator + Copy>(table: &Table<A>) -> u64 {
    match table.get(TUPLE) {
        Some(entry) => entry.expiry(),
        None => 0,
    }
}

type Refused<'a> = &'a FailingAlloc<Global>;

/// Whether a reservation fails after so many served growths, and leaves the table as it was.
fn fails<'a>(
    refusing: Refused<'a>,
    table: &mut Table<Refused<'a>>,
    tuple: FiveTuple,
    act: &Act<Refused<'a>>,
    served: u64,
) -> bool {
    let (len, is_full) = (table.len(), table.is_full());
    refusing.arm(served);
    table.reserve_for(tuple, act).is_err()
        && table.len() == len
        && table.is_full() == is_full
        && table.fits(tuple, act)
}

/// Refuses the growth for an act so many times.
fn refuse<'a>(
    rt: &impl Abort,
    refusing: Refused<'a>,
    table: &mut Table<Refused<'a>>,
    tuple: FiveTuple,
    act: &Act<Refused<'a>>,
    growths: u64,
) {
    for refusal in 0..growths {
        // The growth that was refused before is served, and the next one refused.
        assert!(rt; fails(refusing, table, tuple, act, refusal.min(1)));
    }
}

/// Makes room for the act of an entry, and applies it without memory.
fn apply<'a>(
    rt: &impl Abort,
    refusing: Refused<'a>,
    table: &mut Table<Refused<'a>>,
    entry: Entry,
    served: u64,
) {
    let Event { moment, tuple, act } = read(rt, refusing, table, entry);
    refusing.arm(served);
    table.reserve_for(tuple, &act).expect(rt, "memory");
    let fits = table.fits(tuple, &act);
    if refusing.left() != 0 || moment != table.moment() || !fits {
        panic!(rt; "an act that doesn't fit, or more memory than it takes");
    }
    table.apply(tuple, act);
    assert!(rt; refusing.left() == 0);
}

/// Refuses the growth for the act of an entry so many times, and applies it.
fn apply_refused<'a>(
    rt: &impl Abort,
    refusing: Refused<'a>,
    table: &mut Table<Refused<'a>>,
    entry: Entry,
    growths: u64,
) {
    refusing.arm(u64::MAX);
    let event = read(rt, refusing, table, entry);
    refuse(rt, refusing, table, event.tuple, &event.act, growths);
    refusing.arm(u64::MAX);
    apply(rt, refusing, table, entry, growths.min(1));
}

const ALLOC: Entry = (1, b"\x00\x05alice\xC3\x50\x00\x00\x02\x58idididididid");
/// With the token of the port after it.
const ALLOC_EVEN: Entry = (
    5,
    b"\x00\x05alice\xC3\x50\x00\x00\x02\x58idididididid\xC3\x51tokens",
);

const DELETE: Entry = (2, b"\x00\x00\x00\x00");

const RENEW: Entry = (2, b"\x00\x00\x0E\x10");
/// A channel to 203.0.113.5:9.
const BIND: Entry = (4, b"\x40\x00\xCB\x00\x71\x05\x00\x09");

const PERMIT: Entry = (
    3,
    b"\x08\x00\x00\x00\x01\x00\x00\x00\x02\x00\x00\x00\x03\x00\x00\x00\x04\x00\x00\x00\x05\x00\x00\x00\x06\x00\x00\x00\x07\x00\x00\x00\x08",
);

/// Acts in turn, how often each one's growth may be refused, and the allocation's expiry after it, 0 without one.
const GROWTHS: [(Entry, u64, u64); 7] = [
    (ALLOC, 7, 1600),
    (RENEW, 0, 4600),
    (BIND, 2, 4600),
    (PERMIT, 1, 4600),
    (DELETE, 0, 0),
    // There is room for the entry, and none for the reservation.
    (ALLOC_EVEN, 1, 1600),
    (DELETE, 0, 0),
];

fn is_bound<A: Allocator + Copy>(table: &Table<A>) -> bool {
    match table.peer_of(TUPLE, 0x4000) {
        Some(peer) => peer.ip == 0xCB00_7105 && peer.port == 9,
        None => false,
    }
}

fn apply_all<'a>(rt: &impl Abort, refusing: Refused<'a>, table: &mut Table<Refused<'a>>) {
    for (entry, growths, expiry) in &GROWTHS {
        apply_refused(rt, refusing, table, *entry, *growths);
        assert_eq!(rt; expiry_of(table), *expiry);
        let bound = 4600 == *expiry && *growths == 2;
        assert!(rt; !bound || is_bound(table));
        let permitted = 4600 == *expiry && *growths == 1;
        assert!(rt; !permitted || table.permitted(TUPLE, 8));
    }
    assert!(rt; table.is_empty() && table.by_token(&Token(*b"\xC3\x51tokens")) == Some(50001));
}

#[test]
fn each_growth_is_refused_in_turn(rt: HostRuntime) {
    let refusing = FailingAlloc::new(rt.alloc(), u64::MAX);
    let mut table = Table::new(&refusing, Limits::MAX, moment_at(&rt, 1000));
    apply_all(&rt, &refusing, &mut table);
}
