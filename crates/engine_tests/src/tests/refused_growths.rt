//! Each growth of memory refused in turn.

use super::same::{are_same, is_same_table};
use failing_alloc::FailingAlloc;
use std::alloc::{Allocator, Global};
use std::process::Abort;
use test_requests::Ports;
use test_servers::{Datagram, Scenario, Served};
use turn_config::Configured;
use turn_cred::Credentials;
use turn_disk::{Disk, MemoryDisk};
use turn_engine::{Server, ServerOpenError, SubmitError};
use turn_step::Outgoing;
use turn_store::OpenError;
use turn_table::Table;
use turn_types::{Moment, ServerConfig};

/// Eight acts a batch.
const LARGE: &[u8] = b"limits 8 4 4 8 8
format 4096
expect opened clock 0";

// ---- Arrivals

/// The allocations of alice, by port 50000 for an hour, and of bob, by port 50001 up to second 1001.
const BOTH: &[u8] = b"at 401
ask 192.0.2.1:32853 alice 0102030405060708090a0b0c allocate life=3600
ask 192.0.2.2:40000 bob 000000000000000000000002 allocate
commit
expect client 192.0.2.1:32853 success allocate 0102030405060708090a0b0c port=50000 life=3600
expect client 192.0.2.2:40000 success allocate 000000000000000000000002 port=50001 life=600
expect committed 2
at 1000";

const PERMIT: &[u8] =
    b"ask 192.0.2.1:32853 alice 0102030405060708090a0b0c permit peer=203.0.113.5:7000";

const BIND: &[u8] =
    b"ask 192.0.2.1:32853 alice 0102030405060708090a0b0c bind chan=4000 peer=203.0.113.5:7000";

const BOUND: &[u8] = b"commit
expect client 192.0.2.1:32853 success bind 0102030405060708090a0b0c
expect committed 1";

/// A request of bob's that takes nothing. His key is remembered from then on: a refused growth of that would not be told.
const ASKED: &[u8] = b"at 401
ask 192.0.2.2:40000 bob 000000000000000000000002 refresh
commit
expect client 192.0.2.2:40000 error refresh 000000000000000000000002 437
expect committed 1
at 1000";

/// Alice's allocation of port 50000, which reserves port 50001 up to second 1030.
const RESERVED: &[u8] = b"ask 192.0.2.1:32853 alice 0102030405060708090a0b0c allocate even+
commit
expect client 192.0.2.1:32853 success allocate 0102030405060708090a0b0c port=50000 life=600 token=c351d574b15a49fa
expect committed 1";

/// What is done before.
#[derive(Clone, Copy)]
enum Before {
    Asked,
    Reserved,
    Both,
    /// A permission is staged.
    Permitted,
    /// A channel, of whose binding nothing is staged any more.
    Bound,
    /// Four arrivals of a batch of eight. The first of them made room for the datagrams of all eight.
    FourStaged,
}

impl Before {
    fn lines(self) -> &'static [&'static [u8]] {
        match self {
            Before::Asked => &[ASKED],
            Before::Reserved => &[ASKED, RESERVED],
            Before::Both => &[BOTH],
            Before::Permitted => &[BOTH, PERMIT],
            Before::Bound => &[BOTH, BIND, BOUND],
            Before::FourStaged => &[BOTH, PERMIT, BIND, PERMIT, BIND],
        }
    }
}

const REFRESH: &[u8] = b"ask 192.0.2.1:32853 alice 0102030405060708090a0b0c refresh";

const BOBS: &[u8] = b"ask 192.0.2.2:40000 bob 000000000000000000000002 allocate";

const BOBS_PAIR: &[u8] = b"ask 192.0.2.2:40000 bob 000000000000000000000002 allocate even+";

const BOBS_TOKEN: &[u8] =
    b"ask 192.0.2.2:40000 bob 000000000000000000000002 allocate token=c351d574b15a49fa";

const DELETE: &[u8] = b"ask 192.0.2.1:32853 alice 0102030405060708090a0b0c refresh life=0";

/// What is done before, and the request at second 1001 whose growths are refused.
const GROWTHS: [(Before, &[u8]); 11] = [
    (Before::Asked, BOBS),
    (Before::Asked, BOBS_PAIR),
    (Before::Reserved, BOBS_PAIR),
    (Before::Reserved, BOBS_TOKEN),
    (Before::Both, BOBS),
    (Before::Permitted, BOBS),
    (Before::Both, REFRESH),
    (Before::FourStaged, REFRESH),
    (Before::Bound, DELETE),
    (Before::Both, PERMIT),
    (Before::Permitted, BIND),
];

/// The text "hello" to 203.0.113.5:7000.
const SEND: &[u8] = b"send 192.0.2.1:32853 203.0.113.5:7000 68656c6c6f";

/// The text "abc" over channel 0x4000.
const ABC: &[u8] = b"raw 192.0.2.1:32853 40000003616263";

const PEERS: &[u8] = b"peer 50000 203.0.113.5:7000 616263";

/// The same of data that is relayed, with the number of its growths: one for the datagram, and the first of a batch has one
/// more, for the list of the batch.
const DATA_GROWTHS: [(Before, &[u8], u64); 6] = [
    (Before::Permitted, SEND, 1),
    (Before::Bound, SEND, 2),
    (Before::Bound, ABC, 2),
    (Before::Permitted, PEERS, 1),
    (Before::Bound, PEERS, 2),
    (Before::FourStaged, PEERS, 1),
];

/// Whether two servers have the same table at the same moment, and each holds the ports of its allocations.
fn are_alike<A: Allocator + Copy>(
    rt: &impl Abort,
    first: &Scenario<A>,
    second: &Scenario<A>,
) -> bool {
    let server = first.server().expect(rt, "a server");
    let other = second.server().expect(rt, "a server");
    is_same_table(server.table(), other.table()) && first.keeps_ports() && second.keeps_ports()
}

/// What a commit hands out.
fn handed_out<A: Allocator + Copy>(
    rt: &impl Abort,
    scenario: &mut Scenario<A>,
) -> Vec<Outgoing<A>, A> {
    match scenario.server_mut().expect(rt, "a server").commit() {
        Ok(outs) => outs,
        Err(_) => panic!(rt; "a refused commit"),
    }
}

fn content<'a, A: Allocator + Copy>(rt: &impl Abort, scenario: &'a Scenario<A>) -> &'a [u8] {
    scenario.server().expect(rt, "a server").disk().content()
}

/// Whether commits of two servers hand out the same datagrams, and leave the same bytes on their disks.
fn commit_alike<A: Allocator + Copy>(
    rt: &impl Abort,
    first: &mut Scenario<A>,
    second: &mut Scenario<A>,
) -> bool {
    let outs = handed_out(rt, first);
    let others = handed_out(rt, second);
    are_same(&outs, &others) && content(rt, first) == content(rt, second)
}

/// A server that had no memory for an arrival goes on as another one that got a datagram without an answer in its place, at
/// the same second: in what is handed out, and at the same arrival again.
fn go_on<A: Allocator + Copy>(
    rt: &impl Abort,
    scenario: &mut Scenario<A>,
    other: &mut Scenario<A>,
    line: &[u8],
) {
    assert!(rt; other.play(b"raw 192.0.2.1:32853 -"));
    assert!(rt; are_alike(rt, scenario, other) && commit_alike(rt, scenario, other));
    assert!(rt; scenario.play(line) && other.play(line));
    assert!(rt; are_alike(rt, scenario, other) && commit_alike(rt, scenario, other));
}

/// Submits a datagram, of which the growth after so many is refused, and returns whether one was: the result has to say it.
fn lacks_memory<A: Allocator + Copy>(
    rt: &impl Abort,
    refusing: &FailingAlloc<Global>,
    scenario: &mut Scenario<A>,
    datagram: &Datagram,
    served: u64,
) -> bool {
    refusing.arm(served);
    let taken = scenario.submit(datagram).expect(rt, "a server");
    let was_refused = refusing.has_refused();
    refusing.arm(u64::MAX);
    match taken {
        Ok(()) => assert!(rt; !was_refused),
        Err(refused) => assert!(rt; was_refused && refused == SubmitError::Memory),
    }
    was_refused
}

/// A server after lines, at second 1001.
fn begun<A: Allocator + Copy>(
    rt: &impl Abort,
    inner: A,
    alloc: Global,
    before: Before,
) -> Scenario<A> {
    let mut scenario = Scenario::begin(alloc, inner, LARGE).expect(rt, "a server");
    for lines in before.lines() {
        assert!(rt; scenario.play_all(lines));
    }
    assert!(rt; scenario.play(b"at 1001"));
    scenario
}

/// Whether the growth after so many is refused, which the result says, and after which the server goes on.
fn is_refused(rt: &impl Abort, alloc: Global, before: Before, line: &[u8], served: u64) -> bool {
    let refusing = FailingAlloc::new(alloc, u64::MAX);
    let mut scenario = begun(rt, &refusing, alloc, before);
    let mut other = begun(rt, &refusing, alloc, before);
    let datagram = scenario.datagram(line).expect(rt, "a datagram");
    let was_refused = lacks_memory(rt, &refusing, &mut scenario, &datagram, served);
    if was_refused {
        go_on(rt, &mut scenario, &mut other, line);
    }
    was_refused
}

/// How many growths an arrival takes, each of which is refused once.
fn growths_of(rt: &impl Abort, alloc: Global, before: Before, line: &[u8]) -> u64 {
    for served in 0..32u64 {
        if !is_refused(rt, alloc, before, line, served) {
            return served;
        }
    }
    panic!(rt; "some growth is always refused");
}

#[test]
fn arrival_that_lacks_memory_changes_the_moment_alone(rt: HostRuntime) {
    for (place, (before, line)) in GROWTHS.iter().enumerate() {
        if growths_of(&rt, rt.alloc(), *before, line) == 0 {
            panic!(rt; "row {place}");
        }
    }
}

#[test]
fn relayed_data_takes_one_growth_a_datagram_and_one_a_batch(rt: HostRuntime) {
    for (place, (before, line, growths)) in DATA_GROWTHS.iter().enumerate() {
        if growths_of(&rt, rt.alloc(), *before, line) != *growths {
            panic!(rt; "row {place}");
        }
    }
}

// ---- Openings

/// A configuration over other memory, a handler, and a generator.
fn parts<A: Allocator + Copy>(
    rt: &impl Abort,
    inner: A,
    scenario: &Scenario,
) -> (ServerConfig<A>, Credentials, Ports) {
    let Configured {
        config,
        credentials,
        ports,
        ..
    } = scenario.configured().expect(rt, "a configuration");
    let config = config.try_clone(inner).expect(rt, "memory");
    (config, credentials, Ports::new(ports))
}

/// The disk of a server, with room for the record of so many calls and bytes.
fn disk_of<A: Allocator + Copy>(
    rt: &impl Abort,
    inner: A,
    scenario: &Scenario,
    calls: usize,
    bytes: usize,
) -> MemoryDisk<A> {
    let content = Vec::from_slice(inner, content(rt, scenario)).expect(rt, "memory");
    let mut disk = MemoryDisk::new(inner, content);
    assert!(rt; disk.reserve(calls, bytes).is_ok());
    disk
}

/// Takes a datagram at second 1001, and commits, which hands out one.
fn serve<A: Allocator + Copy>(rt: &impl Abort, server: &mut Served<A>, datagram: &Datagram) {
    let moment = Moment::new(1001).expect(rt, "a moment");
    assert!(rt; server.clock() <= moment && server.submit(moment, &datagram.arrival()).is_ok());
    match server.commit() {
        Ok(outs) => assert!(rt; outs.len() == 1),
        Err(_) => panic!(rt; "a refused commit"),
    }
}

/// What an opening returns that is refused.
type Refused<A> = ServerOpenError<MemoryDisk<A>, Credentials, Ports>;

/// Whether two tables have the same allocations at the same moment.
fn has_table<A: Allocator + Copy>(table: &Table<A>, other: &Table) -> bool {
    let is_same = table.entries().zip(other.entries()).all(|(first, second)| first.0 == second.0
        && (first.1.port(), first.1.expiry()) == (second.1.port(), second.1.expiry()));
    is_same && table.len() == other.len() && table.moment() == other.moment()
}

/// What an opening returned after an allocation failure opens the store, whose server goes on.
fn open_again<A: Allocator + Copy>(
    rt: &impl Abort,
    inner: A,
    scenario: &Scenario,
    config: &ServerConfig<A>,
    refused: Refused<A>,
) {
    let ServerOpenError {
        disk,
        handler,
        ports,
        ..
    } = refused;
    let datagram = scenario.datagram(REFRESH).expect(rt, "a datagram");
    let table = scenario.server().expect(rt, "a server").table();
    match Server::open(inner, disk, config, handler, ports) {
        Ok(mut server) => {
            assert!(rt; has_table(server.table(), table));
            serve(rt, &mut server, &datagram);
        }
        Err(_) => panic!(rt; "refused again"),
    }
}

/// Whether a refusal is for memory, and the disk is as it was.
fn is_for_memory<A: Allocator>(refused: &Refused<A>, content: &[u8]) -> bool {
    refused.fault == OpenError::Memory
        && refused.disk.content() == content
        && refused.disk.failures() == 0
}

/// Whether an opening of a server's disk is refused where the growth after so many is, after which it succeeds.
fn opening_is_refused(
    rt: &impl Abort,
    refusing: &FailingAlloc<Global>,
    scenario: &Scenario,
    served: u64,
) -> bool {
    let (config, credentials, ports) = parts(rt, refusing, scenario);
    let disk = disk_of(rt, refusing, scenario, 1, 0);
    refusing.arm(served);
    let opened = Server::open(refusing, disk, &config, credentials, ports);
    let was_refused = refusing.has_refused();
    refusing.arm(u64::MAX);
    match opened {
        Ok(_) => assert!(rt; !was_refused),
        Err(refused) => {
            assert!(rt; was_refused && is_for_memory(&refused, content(rt, scenario)));
            open_again(rt, refusing, scenario, &config, refused);
        }
    }
    was_refused
}

/// How many growths the opening takes, each of which is refused once.
fn growths_of_an_opening(rt: &impl Abort, alloc: Global, scenario: &Scenario) -> u64 {
    let refusing = FailingAlloc::new(alloc, u64::MAX);
    for served in 0..64u64 {
        if !opening_is_refused(rt, &refusing, scenario, served) {
            return served;
        }
    }
    panic!(rt; "some growth is always refused");
}

#[test]
fn opening_that_lacks_memory_returns_what_it_was_passed(rt: HostRuntime) {
    let scenario = begun(&rt, rt.alloc(), rt.alloc(), Before::Bound);
    assert!(rt; growths_of_an_opening(&rt, rt.alloc(), &scenario) > 3);
}

// ---- Commits

/// One act a batch, in areas of the min size of version 1.
const SMALL: &[u8] = b"limits 2 1 1 1 8
format1 238
expect opened clock 0
at 1000";

/// Takes a datagram at a second, and commits, with no memory for any growth of the commit.
fn commit_without_memory(
    rt: &impl Abort,
    refusing: &FailingAlloc<Global>,
    server: &mut Served<&FailingAlloc<Global>>,
    second: u64,
    datagram: &Datagram,
) {
    let moment = Moment::new(second).expect(rt, "a moment");
    assert!(rt; server.clock() <= moment && server.submit(moment, &datagram.arrival()).is_ok());
    refusing.arm(0);
    match server.commit() {
        Ok(outs) => assert!(rt; outs.len() == 1),
        Err(_) => panic!(rt; "a refused commit"),
    }
    assert!(rt; !refusing.has_refused());
    refusing.arm(u64::MAX);
}

/// Thirteen commits, two of which compact: alice's Allocate at 1000, and then her Refresh, once a second.
fn commit_each(
    rt: &impl Abort,
    refusing: &FailingAlloc<Global>,
    server: &mut Served<&FailingAlloc<Global>>,
    scenario: &Scenario,
) {
    let allocate = scenario.datagram(ALLOCATE).expect(rt, "a datagram");
    let refresh = scenario.datagram(REFRESH).expect(rt, "a datagram");
    commit_without_memory(rt, refusing, server, 1000, &allocate);
    for second in 1001..1013u64 {
        commit_without_memory(rt, refusing, server, second, &refresh);
    }
}

const ALLOCATE: &[u8] = b"ask 192.0.2.1:32853 alice 0102030405060708090a0b0c allocate";

#[test]
fn commit_over_a_reserved_record_takes_no_memory(rt: HostRuntime) {
    let alloc = rt.alloc();
    let scenario = Scenario::begin(alloc, alloc, SMALL).expect(&rt, "a server");
    let refusing = FailingAlloc::new(alloc, u64::MAX);
    let (config, credentials, ports) = parts(&rt, &refusing, &scenario);
    let disk = disk_of(&rt, &refusing, &scenario, 128, 4096);
    match Server::open(&refusing, disk, &config, credentials, ports) {
        Ok(mut server) => commit_each(&rt, &refusing, &mut server, &scenario),
        Err(_) => panic!(rt; "not opened"),
    }
}
