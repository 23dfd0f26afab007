//! A server beside the rules alone, over a long mixed run.

use super::same::{are_same, is_same_table};
use std::alloc::Global;
use std::process::Abort;
use test_requests::{FIRST, Ports};
use test_servers::{Datagram, Scenario, Source};
use turn_config::Configured;
use turn_cred::Credentials;
use turn_step::{Machine, Outgoing, Pairs};
use turn_table::Table;
use turn_types::Moment;

/// A linear congruential generator.
#[derive(Clone, Copy)]
struct Random {
    state: u64,
}

impl Random {
    /// A number below a bound.
    fn below(&mut self, bound: u32) -> u32 {
        self.state = self
            .state
            .wrapping_mul(6_364_136_223_846_793_005)
            .wrapping_add(1_442_695_040_888_963_407);
        let high = (self.state >> 33) as u32;
        if bound == 0 { 0 } else { high % bound }
    }
}

/// The requests, some more often than others.
const REQUESTS: [&str; 12] = [
    "allocate",
    "allocate life=3600",
    "allocate",
    "allocate transport=none",
    "refresh",
    "refresh life=3600",
    "refresh life=0",
    "permit peer=203.0.113.5:7000",
    "permit peer=203.0.113.5:7000",
    "bind chan=4000 peer=203.0.113.5:7000",
    "bind chan=4000 peer=203.0.113.5:7000",
    "bind peer=203.0.113.5:7000",
];

/// The clients, and their users with the transaction ids of their requests.
const CLIENTS: [&str; 2] = ["192.0.2.1:32853 ", "192.0.2.2:40000 "];

const USERS: [&str; 2] = [
    "alice 0102030405060708090a0b0c ",
    "bob 000000000000000000000002 ",
];

/// Data: what comes before the client or the port, and after it. A Send indication, data over channel 0x4000, and data of a peer.
const DATA: [(&str, &str); 3] = [
    ("send ", "203.0.113.5:7000 68656c6c6f"),
    ("raw ", "40000003616263"),
    ("peer ", "203.0.113.5:7000 68656c6c6f"),
];

const PORTS: [&str; 2] = ["50000 ", "50001 "];

/// A run of two clients, their requests, and their data.
#[derive(Drop)]
struct Run {
    alloc: Global,
    random: Random,
    second: u64,
    // How many arrivals are left of the batch.
    left: u32,
    // The last request.
    last: Datagram,
}

/// The datagram of a line that has these parts.
fn datagram(rt: &impl Abort, alloc: Global, scenario: &Scenario, parts: &[&str]) -> Datagram {
    let mut line = Vec::new(alloc);
    for part in parts {
        line.extend_from_slice(part.as_bytes()).expect(rt, "memory");
    }
    scenario.datagram(&line).expect(rt, "a datagram")
}

impl Run {
    fn new(alloc: Global) -> Run {
        Run {
            alloc,
            random: Random { state: 20 },
            second: 1000,
            left: 1,
            last: Datagram {
                source: Source::Client(FIRST),
                bytes: Vec::new(alloc),
            },
        }
    }

    /// One of some words.
    fn one_of(&mut self, words: &[&'static str]) -> &'static str {
        let place = self.random.below(12) as usize;
        match words.get(place % words.len().max(1)) {
            Some(word) => *word,
            None => "",
        }
    }

    /// A request, mostly of the user whose address it comes from.
    fn request(&mut self, rt: &impl Abort, scenario: &Scenario) -> Datagram {
        let client = self.one_of(&CLIENTS);
        let is_own = self.random.below(16) > 0;
        let user = if (client == CLIENTS[0]) == is_own {
            USERS[0]
        } else {
            USERS[1]
        };
        let parts = ["ask ", client, user, self.one_of(&REQUESTS)];
        self.last = datagram(rt, self.alloc, scenario, &parts);
        self.repeated(rt)
    }

    /// The last request again.
    fn repeated(&self, rt: &impl Abort) -> Datagram {
        Datagram {
            source: self.last.source,
            bytes: Vec::from_slice(self.alloc, &self.last.bytes).expect(rt, "memory"),
        }
    }

    /// The last request with a byte changed, or with its end cut.
    fn malformed(&mut self, rt: &impl Abort) -> Datagram {
        let mut drawn = self.repeated(rt);
        let place = self.random.below(164) as usize;
        match drawn.bytes.get_mut(place) {
            Some(byte) if place % 2 == 0 => *byte ^= 0x11,
            _ => drawn.bytes.truncate(place),
        }
        drawn
    }

    fn data(&mut self, rt: &impl Abort, scenario: &Scenario) -> Datagram {
        let (word, rest) = match DATA.get(self.random.below(3) as usize) {
            Some((word, rest)) => (*word, *rest),
            None => DATA[0],
        };
        let place = if word == DATA[2].0 { &PORTS } else { &CLIENTS };
        let parts = [word, self.one_of(place), rest];
        datagram(rt, self.alloc, scenario, &parts)
    }

    /// Whether the batch ends, which has up to seven arrivals; the next one is drawn then.
    fn ends_batch(&mut self) -> bool {
        self.left = self.left.saturating_sub(1);
        let ends = self.left == 0;
        if ends {
            self.left = self.random.below(7).saturating_add(1);
        }
        ends
    }

    /// The next datagram, after up to seven seconds.
    fn next(&mut self, rt: &impl Abort, scenario: &mut Scenario) -> Datagram {
        self.second = self.second.saturating_add(u64::from(self.random.below(8)));
        let second = self.second;
        let line = format!(in self.alloc; "at {second}").expect(rt, "memory");
        assert!(rt; scenario.play(line.as_bytes()));
        match self.random.below(16) {
            0..6 => self.request(rt, scenario),
            6..8 => self.repeated(rt),
            8 => self.malformed(rt),
            _ => self.data(rt, scenario),
        }
    }
}

/// The rules of the server, without a store.
type Rules = Machine<Credentials, Ports>;

fn moment(rt: &impl Abort, second: u64) -> Moment {
    Moment::new(second).expect(rt, "a moment")
}

fn rules(rt: &impl Abort, alloc: Global, scenario: &Scenario) -> Rules {
    let Configured {
        config,
        credentials,
        ports,
        ..
    } = scenario.configured().expect(rt, "a configuration");
    let table = Table::new(alloc, config.limits(), moment(rt, 0));
    let ports = Ports::new(ports);
    Machine::new(alloc, config, credentials, ports, table, Pairs::Reserved).expect(rt, "a machine")
}

/// What the rules answer to a datagram at a second.
fn step(rt: &impl Abort, rules: &mut Rules, second: u64, datagram: &Datagram) -> Option<Outgoing> {
    let moment = moment(rt, second);
    assert!(rt; rules.moment() <= moment);
    rules.step(moment, &datagram.arrival()).expect(rt, "memory")
}

/// Gives the server a datagram at a second.
fn take(rt: &impl Abort, scenario: &mut Scenario, second: u64, datagram: &Datagram) {
    let moment = moment(rt, second);
    let server = scenario.server_mut().expect(rt, "a server");
    assert!(rt; server.clock() <= moment && server.submit(moment, &datagram.arrival()).is_ok());
}

/// A server over a store, the same rules without a store, and what these sent since the last commit.
#[derive(Drop)]
struct Twins<'a> {
    scenario: &'a mut Scenario,
    rules: &'a mut Rules,
    sent: Vec<Outgoing>,
    // How many datagrams were sent, to clients and to peers.
    to_clients: u32,
    to_peers: u32,
}

impl Twins<'_> {
    /// Notes a datagram that the rules alone sent.
    fn send(&mut self, rt: &impl Abort, out: Outgoing) {
        match &out {
            Outgoing::ToClient { .. } => self.to_clients = self.to_clients.wrapping_add(1),
            Outgoing::ToPeer { .. } => self.to_peers = self.to_peers.wrapping_add(1),
        }
        self.sent.push(out).expect(rt, "memory");
    }

    /// Whether a commit hands out what the rules alone sent since the last one.
    fn commits(&mut self, rt: &impl Abort) -> bool {
        let outs = match self.scenario.server_mut().expect(rt, "a server").commit() {
            Ok(outs) => outs,
            Err(_) => return false,
        };
        let is_same = are_same(&outs, &self.sent);
        self.sent.clear();
        is_same
    }

    fn is_same(&self, rt: &impl Abort) -> bool {
        let server = self.scenario.server().expect(rt, "a server");
        is_same_table(server.table(), self.rules.table()) && self.scenario.keeps_ports()
    }

    /// Takes the next datagram of a run, and commits if it is the last one of its batch.
    fn take_next(&mut self, rt: &impl Abort, run: &mut Run) -> bool {
        let datagram = run.next(rt, self.scenario);
        take(rt, self.scenario, run.second, &datagram);
        if let Some(out) = step(rt, self.rules, run.second, &datagram) {
            self.send(rt, out);
        }
        !run.ends_batch() || self.commits(rt)
    }

    /// Takes the next datagram of a run, with a commit after every one to seven of them. After each hundredth one there is a
    /// commit, and the tables are compared.
    fn goes_on(&mut self, rt: &impl Abort, run: &mut Run, count: u32) -> bool {
        let is_right = self.take_next(rt, run);
        is_right && (count % 100 != 0 || self.commits(rt) && self.is_same(rt))
    }
}

fn take_thousands(rt: &impl Abort, twins: &mut Twins<'_>, run: &mut Run) {
    for count in 1..=2000u32 {
        if !twins.goes_on(rt, run, count) {
            panic!(rt; "arrival {count}");
        }
    }
}

/// Takes 2,000 datagrams, by which many are sent to clients and to peers, and returns the last second.
fn take_all(rt: &impl Abort, alloc: Global, scenario: &mut Scenario, rules: &mut Rules) -> u64 {
    let mut run = Run::new(alloc);
    let mut twins = Twins {
        scenario,
        rules,
        sent: Vec::new(alloc),
        to_clients: 0,
        to_peers: 0,
    };
    take_thousands(rt, &mut twins, &mut run);
    assert!(rt; twins.to_clients > 800 && twins.to_peers > 100);
    run.second
}

/// Whether the store that is opened again has this table at a second.
fn is_stored(
    rt: &impl Abort,
    alloc: Global,
    scenario: &mut Scenario,
    second: u64,
    table: &Table,
) -> bool {
    assert!(rt; scenario.play(b"reopen"));
    let empty = Datagram {
        source: Source::Client(FIRST),
        bytes: Vec::new(alloc),
    };
    take(rt, scenario, second, &empty);
    is_same_table(scenario.server().expect(rt, "a server").table(), table)
}

/// The max limits, and areas so small that commits compact.
const SETUPS: [&[u8]; 2] = [
    b"limits 1024 32 32 64 508\nformat 2000000\nexpect opened clock 0",
    b"limits 8 4 4 8 8\nformat 4096\nexpect opened clock 0",
];

fn take_run(rt: &impl Abort, alloc: Global, setup: &[u8]) {
    let mut scenario = Scenario::begin(alloc, alloc, setup).expect(rt, "a server");
    let mut rules = rules(rt, alloc, &scenario);
    let second = take_all(rt, alloc, &mut scenario, &mut rules);
    assert!(rt; is_stored(rt, alloc, &mut scenario, second, rules.table()));
}

#[test]
fn server_answers_as_the_rules_without_a_store(rt: HostRuntime) {
    for setup in &SETUPS {
        take_run(&rt, rt.alloc(), setup);
    }
}
