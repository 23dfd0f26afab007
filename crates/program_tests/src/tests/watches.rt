//! What a watch sees of a server whose clock goes on within a turn.

use super::counted::Serving;
use super::started::start;
use super::talks::{ALICE, ANY, new_disk};
use std::alloc::Allocator;
use std::cell::Cell;
use std::io;
use std::rt::Clock;
use std::test::Fail;
use std::time::Duration;
use turn_client::Client;
use turn_config::read_config;
use turn_serving::{Commits, Watch};
use turn_step::{Arrival, Outgoing};
use turn_table::Table;
use turn_types::{Endpoint, Method, Moment};

const CONFIG: &[u8] = b"realm example.org
user alice wonder
secret 0000000000000000000000000000000000000000000000000000000000000000
listen 127.0.0.1:0
relay 127.0.0.1 63150 63159
limits 2 1 1 1 8
";

/// A clock of which each reading is a second later.
#[derive(Drop)]
struct Seconds {
    next: Cell<u64>,
}

impl Clock for Seconds {
    fn monotonic(&self) -> io::Result<Duration> {
        self.since_1970()
    }

    fn since_1970(&self) -> io::Result<Duration> {
        let now = self.next.get();
        self.next.set(now.wrapping_add(1));
        Ok(Duration::from_secs(now))
    }
}

/// The second at which the table was seen last, that of what was sent last, and how often a commit of requests that waited was told.
#[derive(Drop)]
struct Seen {
    table: Cell<u64>,
    commits: Cell<u8>,
    sent: Cell<u64>,
}

impl<'s> Watch for &'s Seen {
    fn taking<A: Allocator + Copy>(&self, moment: Moment, _table: &Table<A>) {
        self.table.set(moment.seconds());
    }

    fn answered<A: Allocator + Copy>(
        &self,
        table: &Table<A>,
        _arrival: &Arrival<'_>,
        answer: Option<&Outgoing<A>>,
    ) {
        if answer.is_some() {
            self.sent.set(table.moment().seconds());
        }
    }

    fn submitted<A: Allocator + Copy>(&self, _table: &Table<A>, _arrival: &Arrival<'_>) {}

    fn sent<A: Allocator + Copy>(
        &self,
        moment: Moment,
        _table: &Table<A>,
        outgoing: &[Outgoing<A>],
    ) {
        if !outgoing.is_empty() {
            self.sent.set(moment.seconds());
        }
    }

    fn unsent<A: Allocator + Copy>(
        &self,
        _table: &Table<A>,
        _outgoing: &Outgoing<A>,
        _reason: io::Error,
    ) {}

    fn lost<A: Allocator + Copy>(&self, _table: &Table<A>, _port: u16, _to: Endpoint) {}

    fn exhausted(&self, _moment: Moment, _number: i32) {}

    fn shed(&self, _moment: Moment) {}

    fn committed(&self, _moment: Moment, _took: Duration) {
        self.commits.set(self.commits.get().wrapping_add(1));
    }
}

/// What a watch has seen: the second of the table, that of what was sent last, and how many commits there were.
type Told = (u64, u64, u8);

/// Of a challenge, which is answered at once, in the first second.
const CHALLENGED: Told = (1_000, 1_000, 0);

/// Of the Allocate after it, which waits: it is submitted when the clock is read for the second time in its turn.
const ALLOCATED: Told = (1_002, 1_002, 1);

fn expect(seen: &Seen, told: Told) -> Result<(), Fail> {
    let (table, sent, commits) = (seen.table.get(), seen.sent.get(), seen.commits.get());
    if (table, sent, commits) == told {
        Ok(())
    } else {
        Err(Fail::new(format_args!("seen at {table}, sent at {sent}, {commits} commits")))
    }
}

/// A client is challenged and gets an allocation, in a turn each.
fn play(
    serving: &mut Serving<'_, &Seen>,
    clock: &Seconds,
    client: &mut Client<'static>,
    seen: &Seen,
) -> Result<(), Fail> {
    let first = client.plain_request(Method::ALLOCATE)?;
    client.send(&first)?;
    serving.turns(&clock, 1)?;
    expect(seen, CHALLENGED)?;
    client.take_challenge()?;
    let second = client.request(Method::ALLOCATE, &[])?;
    client.send(&second)?;
    serving.turns(&clock, 1)?;
    expect(seen, ALLOCATED)
}

#[test]
fn the_table_is_seen_at_the_moment_of_a_request(rt: HostRuntime) -> Result<(), Fail> {
    let clock = Seconds {
        next: Cell::new(1_000),
    };
    let seen = Seen {
        table: Cell::new(0),
        commits: Cell::new(0),
        sent: Cell::new(0),
    };
    let configured = read_config(rt.alloc(), CONFIG)?;
    let disk = new_disk(rt.alloc(), configured.config.limits())?;
    let mut serving = start(&rt, configured, Commits::Paced, &clock, disk, &seen)?;
    let mut client = Client::open(rt.alloc(), &rt, ANY, serving.local(), ALICE)?;
    let played = play(&mut serving, &clock, &mut client, &seen);
    serving.close();
    played
}
