//! What a counted turn takes, by how many relay sockets have datagrams.

use super::started::start;
use super::talks::{ALICE, ANY, BINDING, HOME, new_disk, tell};
use std::alloc::{Allocator, Global};
use std::cell::{Cell, RefCell};
use std::io;
use std::test::Fail;
use std::time::Duration;
use turn_client::{Client, TimedSocket};
use turn_config::read_config;
use turn_cred::Credentials;
use turn_disk::MemoryDisk;
use turn_requests::{Attribute, ServerMessage, read_message};
use turn_serving::{Commits, SocketServing, Watch};
use turn_step::{Arrival, Outgoing};
use turn_table::Table;
use turn_types::{Endpoint, FiveTuple, Method, Moment};

const CONFIG: &[u8] = b"realm example.org
user alice wonder
secret 0000000000000000000000000000000000000000000000000000000000000000
listen 127.0.0.1:0
relay 127.0.0.1 63170 63199
quota 20
limits 20 1 1 1 8
";

/// How many allocations there are.
const CLIENTS: usize = 17;

/// What was sent to clients since it was last asked: Binding successes, data, and data to a client that had got some before it.
#[derive(Drop)]
struct Counts {
    bindings: Cell<u8>,
    data: Cell<u8>,
    repeated: Cell<u8>,
    // The clients that got data.
    clients: RefCell<Vec<FiveTuple>>,
}

fn count(cell: &Cell<u8>) {
    cell.set(cell.get().saturating_add(1));
}

impl Counts {
    fn new(alloc: Global) -> Counts {
        Counts {
            bindings: Cell::new(0),
            data: Cell::new(0),
            repeated: Cell::new(0),
            clients: RefCell::new(Vec::new(alloc)),
        }
    }

    fn see_data(&self, to: FiveTuple) {
        count(&self.data);
        if let Ok(mut clients) = self.clients.try_borrow_mut() {
            if clients.contains(&to) {
                count(&self.repeated);
            }
            let _ = clients.push(to);
        }
    }

    fn take(&self) -> (u8, u8, u8) {
        if let Ok(mut clients) = self.clients.try_borrow_mut() {
            clients.clear();
        }
        (
            self.bindings.replace(0),
            self.data.replace(0),
            self.repeated.replace(0),
        )
    }
}

impl<'c> Watch for &'c Counts {
    fn taking<A: Allocator + Copy>(&self, _moment: Moment, _table: &Table<A>) {}

    fn answered<A: Allocator + Copy>(
        &self,
        _table: &Table<A>,
        _arrival: &Arrival<'_>,
        answer: Option<&Outgoing<A>>,
    ) {
        let Some(Outgoing::ToClient { five_tuple, bytes }) = answer else {
            return;
        };
        match bytes.as_slice() {
            [1, 1, ..] => count(&self.bindings),
            [0, 0x17, ..] => self.see_data(*five_tuple),
            _ => {}
        }
    }

    fn submitted<A: Allocator + Copy>(&self, _table: &Table<A>, _arrival: &Arrival<'_>) {}

    fn sent<A: Allocator + Copy>(
        &self,
        _moment: Moment,
        _table: &Table<A>,
        _outgoing: &[Outgoing<A>],
    ) {}

    fn unsent<A: Allocator + Copy>(
        &self,
        _table: &Table<A>,
        _outgoing: &Outgoing<A>,
        _reason: io::Error,
    ) {}

    fn lost<A: Allocator + Copy>(&self, _table: &Table<A>, _port: u16, _to: Endpoint) {}

    fn exhausted(&self, _moment: Moment, _number: i32) {}

    fn shed(&self, _moment: Moment) {}

    fn committed(&self, _moment: Moment, _took: Duration) {}
}

pub type Serving<'a, W> = SocketServing<'a, MemoryDisk, Credentials, HostRuntime, Global, W>;

/// Sends a request, and takes the turn that answers it.
fn ask<W: Watch + Drop>(
    rt: &HostRuntime,
    serving: &mut Serving<'_, W>,
    client: &mut Client<'static>,
    method: Method,
    attributes: &[Attribute],
) -> Result<(), Fail> {
    let request = client.request(method, attributes)?;
    client.send(&request)?;
    serving.turns(&rt, 1)?;
    Ok(())
}

/// A client is challenged and gets an allocation. Returns its relayed port.
fn allocate_of<W: Watch + Drop>(
    rt: &HostRuntime,
    serving: &mut Serving<'_, W>,
    client: &mut Client<'static>,
) -> Result<u16, Fail> {
    let first = client.plain_request(Method::ALLOCATE)?;
    client.send(&first)?;
    serving.turns(&rt, 1)?;
    client.take_challenge()?;
    ask(rt, serving, client, Method::ALLOCATE, &[])?;
    match read_message(&client.receive_message()?) {
        Some(ServerMessage::Allocated { port, .. }) => Ok(port),
        _ => Err(Fail::new("no allocation")),
    }
}

/// A client gets an allocation, without a permission. Returns its relayed port.
pub fn allocate_only<W: Watch + Drop>(
    rt: &HostRuntime,
    serving: &mut Serving<'_, W>,
) -> Result<u16, Fail> {
    let mut client = Client::open(rt.alloc(), rt, ANY, serving.local(), ALICE)?;
    allocate_of(rt, serving, &mut client)
}

/// A client gets an allocation with a permission for peers at 127.0.0.1. Returns its relayed port.
pub fn allocate<W: Watch + Drop>(
    rt: &HostRuntime,
    serving: &mut Serving<'_, W>,
) -> Result<u16, Fail> {
    let mut client = Client::open(rt.alloc(), rt, ANY, serving.local(), ALICE)?;
    let port = allocate_of(rt, serving, &mut client)?;
    let peer = [Attribute::Peer(ANY)];
    ask(rt, serving, &mut client, Method::CREATE_PERMISSION, &peer)?;
    Ok(port)
}

/// How many relay sockets have two datagrams each, while the listening one has three.
const READY: [u8; 5] = [0, 4, 5, 9, 17];

/// Two turns take one datagram of each of these sockets, and the third one what is left at the listening socket.
fn is_one_of_each(
    rt: &HostRuntime,
    serving: &mut Serving<'_, &Counts>,
    server: Endpoint,
    counts: &Counts,
    ports: &[u16],
    ready: u8,
) -> Result<bool, Fail> {
    let caller = TimedSocket::open(rt.alloc(), rt, ANY)?;
    for _ in 0..3u8 {
        caller.send(server, BINDING)?;
    }
    for port in ports.iter().take(usize::from(ready)) {
        tell(rt, HOME, *port, 3, 2)?;
    }
    for data in [ready, ready, 0] {
        serving.turns(&rt, 1)?;
        if counts.take() != (1, data, 0) {
            return Ok(false);
        }
    }
    Ok(true)
}

fn play(rt: &HostRuntime, serving: &mut Serving<'_, &Counts>, counts: &Counts) -> Result<(), Fail> {
    let server = serving.local();
    let mut ports = Vec::new(rt.alloc());
    for _ in 0..CLIENTS {
        ports.push(allocate(rt, serving)?)?;
    }
    counts.take();
    for ready in READY {
        if !is_one_of_each(rt, serving, server, counts, &ports, ready)? {
            return Err(Fail::new(ready));
        }
    }
    Ok(())
}

#[test]
fn a_counted_turn_takes_one_datagram_of_each_socket(rt: HostRuntime) -> Result<(), Fail> {
    let counts = Counts::new(rt.alloc());
    let configured = read_config(rt.alloc(), CONFIG)?;
    let disk = new_disk(rt.alloc(), configured.config.limits())?;
    let mut serving = start(&rt, configured, Commits::EachTurn, &rt, disk, &counts)?;
    let played = play(&rt, &mut serving, &counts);
    serving.close();
    played
}
