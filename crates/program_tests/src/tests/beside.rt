//! What is read while a commit waits for its disk.

use super::counted::{Serving, allocate, allocate_only};
use super::started::start;
use super::talks::{ANY, BINDING, HOME, PLAIN, new_disk};
use std::alloc::Allocator;
use std::cell::Cell;
use std::io;
use std::test::Fail;
use std::time::Duration;
use turn_client::TimedSocket;
use turn_config::read_config;
use turn_serving::{Commits, Watch};
use turn_step::{Arrival, Outgoing};
use turn_table::Table;
use turn_types::{Endpoint, Moment};

const CONFIG: &[u8] = b"realm example.org
user alice wonder
secret 0000000000000000000000000000000000000000000000000000000000000000
listen 127.0.0.1:0
relay 127.0.0.1 63210 63219
limits 2 1 1 1 8
";

/// How often the disk lets others pass in each write and sync.
const PIECES: u32 = 6;

/// How many Bindings a stranger sends, and how many Allocates without credentials: more in all than may wait of one client.
const EACH: u8 = 35;

/// What was answered: data of a peer, Bindings, and Allocates without credentials.
#[derive(Clone, Copy, Debug, PartialEq, Eq)]
struct Counts {
    data: u8,
    bindings: u8,
    challenges: u8,
}

const NONE: Counts = Counts {
    data: 0,
    bindings: 0,
    challenges: 0,
};

impl Counts {
    /// These, and the answer to an arrival.
    fn with(self, arrival: &Arrival<'_>) -> Counts {
        let Counts {
            data,
            bindings,
            challenges,
        } = self;
        match arrival {
            Arrival::Peer { .. } => Counts {
                data: data.saturating_add(1),
                ..self
            },
            Arrival::Client {
                bytes: [0, 1, ..],
                ..
            } => Counts {
                bindings: bindings.saturating_add(1),
                ..self
            },
            Arrival::Client { .. } => Counts {
                challenges: challenges.saturating_add(1),
                ..self
            },
        }
    }
}

/// Where a peer and a stranger send to: a relayed port, and the server.
#[derive(Clone, Copy)]
struct Targets {
    port: u16,
    server: Endpoint,
}

/// A peer and a stranger who send once a request is submitted, so before its commit.
#[derive(Drop)]
struct Sending<'s> {
    peer: &'s TimedSocket,
    stranger: &'s TimedSocket,
    targets: Cell<Option<Targets>>,
    // Whether they have sent, and the response to that request wasn't sent yet.
    is_under_way: Cell<bool>,
    // What was answered since they sent, and how much of it before that response.
    answered: Cell<Counts>,
    before: Cell<Counts>,
    shed: Cell<u8>,
}

impl<'w, 's> Watch for &'w Sending<'s> {
    fn taking<A: Allocator + Copy>(&self, _moment: Moment, _table: &Table<A>) {}

    fn answered<A: Allocator + Copy>(
        &self,
        _table: &Table<A>,
        arrival: &Arrival<'_>,
        answer: Option<&Outgoing<A>>,
    ) {
        if answer.is_some() {
            self.answered.set(self.answered.get().with(arrival));
        }
    }

    fn submitted<A: Allocator + Copy>(&self, _table: &Table<A>, _arrival: &Arrival<'_>) {
        let Some(Targets { port, server }) = self.targets.replace(None) else {
            return;
        };
        self.answered.set(NONE);
        self.is_under_way.set(true);
        let _ = self.peer.send(Endpoint { ip: HOME, port }, b"data");
        for _ in 0..EACH {
            let _ = self.stranger.send(server, BINDING);
            let _ = self.stranger.send(server, PLAIN);
        }
    }

    fn sent<A: Allocator + Copy>(
        &self,
        _moment: Moment,
        _table: &Table<A>,
        _outgoing: &[Outgoing<A>],
    ) {
        if self.is_under_way.replace(false) {
            self.before.set(self.answered.get());
        }
    }

    fn unsent<A: Allocator + Copy>(
        &self,
        _table: &Table<A>,
        _outgoing: &Outgoing<A>,
        _reason: io::Error,
    ) {}

    fn lost<A: Allocator + Copy>(&self, _table: &Table<A>, _port: u16, _to: Endpoint) {}

    fn exhausted(&self, _moment: Moment, _number: i32) {}

    fn shed(&self, _moment: Moment) {
        self.shed.set(self.shed.get().saturating_add(1));
    }

    fn committed(&self, _moment: Moment, _took: Duration) {}
}

/// A client gets an allocation with a permission, and another one an allocation. The peer and the stranger send when the second one's Allocate is submitted.
fn allocate_two(
    rt: &HostRuntime,
    serving: &mut Serving<'_, &Sending<'_>>,
    sending: &Sending<'_>,
) -> Result<(), Fail> {
    let port = allocate(rt, serving)?;
    let server = serving.local();
    sending.targets.set(Some(Targets { port, server }));
    allocate_only(rt, serving)?;
    Ok(())
}

/// How much of what comes while the Allocate of another client is committed is answered before its response, and how much is dropped.
fn answered_before(rt: &HostRuntime, pieces: u32) -> Result<(Counts, u8), Fail> {
    let configured = read_config(rt.alloc(), CONFIG)?;
    let mut disk = new_disk(rt.alloc(), configured.config.limits())?;
    disk.wait_for(pieces);
    let peer = TimedSocket::open(rt.alloc(), rt, ANY)?;
    let stranger = TimedSocket::open(rt.alloc(), rt, ANY)?;
    let sending = Sending {
        peer: &peer,
        stranger: &stranger,
        targets: Cell::new(None),
        is_under_way: Cell::new(false),
        answered: Cell::new(NONE),
        before: Cell::new(NONE),
        shed: Cell::new(0),
    };
    let mut serving = start(rt, configured, Commits::Paced, rt, disk, &sending)?;
    let allocated = allocate_two(rt, &mut serving, &sending);
    serving.close();
    allocated?;
    Ok((sending.before.get(), sending.shed.get()))
}

#[test]
fn what_no_table_changes_is_answered_while_a_commit_waits(rt: HostRuntime) -> Result<(), Fail> {
    let all = Counts {
        data: 1,
        bindings: EACH,
        challenges: EACH,
    };
    assert_eq!(rt; answered_before(&rt, PIECES)?, (all, 0));
    assert_eq!(rt; answered_before(&rt, 0)?, (NONE, 0));
    Ok(())
}
