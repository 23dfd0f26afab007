//! The reading of messages, and requests and relayed data of a server over a store in memory, beside the rules without a store.

mod calls;
pub mod datagrams;
mod servers;

use crate::mac::has_integrity;
use crate::measured::{ROUNDS, best_of};
use crate::requests::{HOUR, Kind, UDP, ZERO, of_client};
use calls::{BATCH, Lasting, commit, digests, prepare, purge, step, to_client, to_peer};
use datagrams::{CLIENT, PAIR, PEER, channel_data, client_at, request};
use servers::{Engine, PORT, Rules, make_engine, make_rules, make_table};
use std::alloc::AllocError;
use std::io;
use test_requests::{ALICE, ID};
use turn_codec::Message;
use turn_step::Arrival;
use turn_types::{MAX_LIFETIME, Moment};

/// Prints and returns the nanoseconds of an arrival, of which each call has so many.
fn measure<F: FnMut() -> bool>(
    rt: &HostRuntime,
    name: &str,
    call: &mut F,
    count: usize,
    arrivals: usize,
) -> io::Result<u128>
    requires { (state : F) → F.pre state }
{
    let timing = best_of(rt, call, count)?;
    let each = timing.nanos(arrivals);
    println!(rt; "  {name}: {each} ns ({} of {count} done)", timing.done)?;
    Ok(each)
}

/// A server over a store, the rules alone, and how often each call is made.
#[derive(Drop)]
struct Compared<'a> {
    engine: &'a mut Engine,
    rules: &'a mut Rules,
    count: usize,
}

/// Measures an arrival by the rules alone, and by a `submit` with its share of a `commit`.
fn measure_arrival(
    rt: &HostRuntime,
    servers: &mut Compared<'_>,
    arrival: &Arrival<'_>,
    starts: &[u8],
) -> io::Result<(u128, u128)> {
    let Compared {
        engine,
        rules,
        count,
    } = servers;
    let count = *count;
    let call = &mut || step(rules, arrival, starts);
    let alone = measure(rt, "Machine::step", call, count, 1)?;
    let call = &mut || commit(engine, arrival, starts);
    let name = "submit, and a 64th of a commit";
    let stored = measure(rt, name, call, count / BATCH, BATCH)?;
    Ok((alone, stored))
}

fn measure_refresh(rt: &HostRuntime, servers: &mut Compared<'_>) -> io::Result<()> {
    println!(rt; "a Refresh")?;
    let bytes = request(rt.alloc(), Kind::Refresh, CLIENT, &[UDP, HOUR])?;
    let arrival = of_client(CLIENT, &bytes);
    let (alone, stored) = measure_arrival(rt, servers, &arrival, &[1, 4])?;
    println!(rt; "  {} %", stored.saturating_mul(100) / alone.max(1))
}

/// Measures an Allocate of a client that is not in the table, with the Refresh that ends it, by the rules alone.
fn measure_allocate(rt: &HostRuntime, rules: &mut Rules, count: usize) -> io::Result<()> {
    println!(rt; "an Allocate, and the Refresh that ends it")?;
    let client = client_at(1023);
    let allocate = request(rt.alloc(), Kind::Allocate, client, &[UDP, HOUR])?;
    let release = request(rt.alloc(), Kind::Refresh, client, &[UDP, ZERO])?;
    let (allocate, release) = (of_client(client, &allocate), of_client(client, &release));
    let call = &mut || step(rules, &allocate, &[1, 3]) && step(rules, &release, &[1, 4]);
    measure(rt, "Machine::step", call, count, 1)?;
    Ok(())
}

/// Measures a purge in which nothing has expired, and one in which a permission has.
fn measure_purge(rt: &HostRuntime, allocations: u16, count: usize) -> io::Result<()> {
    println!(rt; "a purge of nothing")?;
    let alloc = rt.alloc();
    let mut table = make_table(alloc, allocations)?;
    let last = table.moment().seconds() + u64::from(MAX_LIFETIME) - 1;
    let last = Moment::new(last).ok_or(AllocError)?;
    measure(
        rt,
        "Table::purge",
        &mut || purge(&mut table, last),
        count,
        1,
    )?;
    println!(rt; "a purge of one permission, which walks all entries, and a Permit")?;
    let mut table = Lasting::make(alloc, allocations)?;
    let call = &mut || table.purge_and_permit(alloc);
    measure(rt, "Table::purge and apply", call, count, 1)?;
    Ok(())
}

/// Measures an Allocate of a port and one of a pair, by the rules alone, where half of the allocations have a reserved port beside them.
fn measure_pairs(rt: &HostRuntime, allocations: u16, count: usize) -> io::Result<()> {
    let pairs = allocations / 2;
    println!(rt; "an Allocate that is abandoned, beside {pairs} reserved ports")?;
    let mut rules = make_rules(rt.alloc(), allocations, pairs)?;
    let client = client_at(1023);
    for (name, asked) in [("of a port", HOUR), ("of a pair", PAIR)] {
        let bytes = request(rt.alloc(), Kind::Allocate, client, &[UDP, asked])?;
        let arrival = of_client(client, &bytes);
        measure(rt, name, &mut || prepare(&mut rules, &arrival), count, 1)?;
    }
    Ok(())
}

/// Measures data as an arrival, and prints how much longer it takes than by the relay alone.
fn measure_data(
    rt: &HostRuntime,
    servers: &mut Compared<'_>,
    arrival: &Arrival<'_>,
    starts: &[u8],
    relay: u128,
) -> io::Result<()> {
    let (_, stored) = measure_arrival(rt, servers, arrival, starts)?;
    println!(rt; "  {} ns more", stored.saturating_sub(relay))
}

/// Measures a payload to the peer and from it.
fn measure_payload(rt: &HostRuntime, servers: &mut Compared<'_>, payload: &[u8]) -> io::Result<()> {
    let alloc = rt.alloc();
    println!(rt; "ChannelData of {} bytes to a peer", payload.len())?;
    let bytes = channel_data(alloc, payload)?;
    let table = servers.rules.table();
    let call = &mut || to_peer(alloc, table, &bytes);
    let relay = measure(rt, "from_client and a copy", call, servers.count, 1)?;
    measure_data(rt, servers, &of_client(CLIENT, &bytes), &[], relay)?;
    println!(rt; "{} bytes from a peer", payload.len())?;
    let table = servers.rules.table();
    let call = &mut || to_client(alloc, table, payload);
    let relay = measure(rt, "from_peer and write", call, servers.count, 1)?;
    let arrival = Arrival::Peer {
        port: PORT,
        from: PEER,
        bytes: payload,
        id: ID,
    };
    measure_data(rt, servers, &arrival, &[0x40, 0], relay)
}

fn measure_reading(rt: &HostRuntime, count: usize) -> io::Result<()> {
    let allocate = request(rt.alloc(), Kind::Allocate, CLIENT, &[UDP, HOUR])?;
    let refresh = request(rt.alloc(), Kind::Refresh, CLIENT, &[UDP, HOUR])?;
    let key = ALICE.key();
    let call = &mut || Message::parse(&allocate).is_ok();
    measure(rt, "parse of an Allocate", call, count, 1)?;
    let call = &mut || has_integrity(&allocate, &key);
    measure(rt, "parse and integrity_holds", call, count, 1)?;
    let call = &mut || digests(&refresh, &key);
    measure(rt, "the three HMACs of a Refresh", call, count, 1)?;
    Ok(())
}

fn measure_servers(rt: &HostRuntime, allocations: u16, count: usize) -> io::Result<()> {
    println!(rt; "---- {allocations} allocations")?;
    let commits = (count / BATCH).saturating_mul(ROUNDS);
    let mut engine = make_engine(rt.alloc(), allocations, commits)?;
    let mut rules = make_rules(rt.alloc(), allocations, 0)?;
    let mut servers = Compared {
        engine: &mut engine,
        rules: &mut rules,
        count,
    };
    measure_refresh(rt, &mut servers)?;
    measure_allocate(rt, servers.rules, count)?;
    measure_payload(rt, &mut servers, &[7; 160])?;
    measure_payload(rt, &mut servers, &[7; 1200])
}

/// Measures them all, over a table of one allocation and of 1,000.
pub fn measure_all(rt: &HostRuntime, count: usize) -> io::Result<()> {
    measure_reading(rt, count)?;
    for allocations in [1, 1000] {
        measure_purge(rt, allocations, count)?;
        measure_servers(rt, allocations, count)?;
        measure_pairs(rt, allocations, count)?;
    }
    Ok(())
}
