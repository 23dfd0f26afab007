//! `turn serve` for some turns, or up to a fault: what is answered, and what the log has of requests that are dropped and of commits.

use super::RELEASE;
use super::clocks::Ticking;
use super::stores::{filled, fresh};
use super::talks::{BINDING, HOME, PLAIN, SIGNED};
use std::alloc::{AllocError, Global};
use std::fs;
use std::io::{self, Write};
use std::test::Fail;
use turn_client::TimedSocket;
use turn_program::run_words;
use turn_types::Endpoint;

const CONFIG: &str = "realm example.org
user alice wonder
secret 0000000000000000000000000000000000000000000000000000000000000000
listen 127.0.0.1:63160
relay 127.0.0.1 63161 63168
limits 2 1 1 1 8
";

const SERVER: Endpoint = Endpoint {
    ip: HOME,
    port: 63_160,
};

const CLIENT: Endpoint = Endpoint {
    ip: HOME,
    port: 63_169,
};

/// Alice's Allocate, by a nonce of the second 1,000 for this client. Its HMACs were made by Python's module.
const ALLOCATE: &[u8] =
    b"\x00\x03\x00\x90\x21\x12\xA4\x42\x01\x02\x03\x04\x05\x06\x07\x08\x09\x0A\x0B\x0C\
    \x00\x19\x00\x04\x11\x00\x00\x00\x00\x06\x00\x05alice\x00\x00\x00\x00\x14\x00\x0Bexample.org\x00\
    \x00\x15\x00\x5000000000000003e88d1edb3c29a478f0b49ddddd24ff4ab3b8dd14dc3c93216cacded363ef0da7a7\
    \x00\x08\x00\x14\x0A\x38\x02\xD5\x4C\x3D\xE1\xAE\x58\x6C\xE1\x32\x37\x36\x70\x70\xD5\xE7\x62\x3A";

/// A standard output that sends a datagram so many times to the server when something is printed for the first time.
#[derive(Drop)]
struct Caller<'a> {
    client: &'a TimedSocket,
    row: &'a Row,
    called: bool,
    printed: Vec<u8>,
}

impl Write for Caller<'_> {
    fn write(&mut self, buf: &[u8]) -> io::Result<usize> {
        if !self.called {
            self.called = true;
            for _ in 0..self.row.count {
                let _ = self.client.send(SERVER, self.row.datagram);
            }
        }
        self.printed.extend_from_slice(buf)?;
        Ok(buf.len())
    }

    fn flush(&mut self) -> io::Result<()> {
        Ok(())
    }
}

/// What a client sends before the first turn, and what comes of it.
struct Row {
    words: &'static str,
    datagram: &'static [u8],
    /// How often it is sent.
    count: u8,
    /// How many milliseconds a commit takes.
    tick: u64,
    /// How often the clock tells a second.
    readings: u32,
    /// The generation of a store whose area is full. If there is none the store holds nothing.
    full: Option<u64>,
    answers: u8,
    /// The lines of the log on the server itself but for those of the start.
    log: &'static str,
    status: u8,
    out: &'static str,
    err: &'static str,
}

/// Without `--turns` turns are taken up to a fault: the clock tells no second.
const ENDS: Row = Row {
    words: "turn serve --config turn_served.conf --store turn_served.store --log",
    datagram: BINDING,
    count: 70,
    tick: 0,
    readings: 7,
    full: None,
    answers: 70,
    log: "0 - clock: the system tells no time\n",
    status: 3,
    out: "listening 127.0.0.1:63160\n",
    err: "turn: device\n",
};

const COUNTED: Row = Row {
    count: 3,
    readings: u32::MAX,
    status: 0,
    log: "",
    err: "",
    ..ENDS
};

/// A round takes up to 72 datagrams of a socket. Of 70 requests of a client that need the table 64 wait, and 6 are dropped. What needs
/// none waits for nothing: a Binding, an Allocate without credentials, of which the first 401 of 70 has no line and the others have one,
/// and one that is a bad request. A commit of 100 ms has no line.
const UP_TO_A_FAULT: [Row; 6] = [
    Row { ..ENDS },
    Row {
        datagram: PLAIN,
        log: "1001 - 69 x 401 from 127.0.0.1\n0 - clock: the system tells no time\n",
        ..ENDS
    },
    Row {
        datagram: SIGNED,
        log: "1001 - 70 x 400 from 127.0.0.1\n0 - clock: the system tells no time\n",
        ..ENDS
    },
    Row {
        datagram: ALLOCATE,
        readings: 134,
        answers: 64,
        log: "1001 - 63 x repeated allocate from 127.0.0.1\n1001 - dropped 6 requests: too many wait for the disk\n0 - clock: the system tells no time\n",
        ..ENDS
    },
    Row {
        datagram: ALLOCATE,
        count: 1,
        tick: 100,
        readings: 8,
        answers: 1,
        ..ENDS
    },
    Row {
        datagram: ALLOCATE,
        count: 1,
        tick: 101,
        readings: 8,
        answers: 1,
        log: "1000 - commit took 101 ms\n0 - clock: the system tells no time\n",
        ..ENDS
    },
];

/// Turns, a burst, and how many of three requests are answered.
const SO_MANY_TURNS: [Row; 5] = [
    Row {
        words: "turn serve --config turn_served.conf --store turn_served.store --log --turns 0 --burst 64",
        answers: 0,
        out: "listening 127.0.0.1:63160\nserved 0 turns\n",
        ..COUNTED
    },
    Row {
        words: "turn serve --config turn_served.conf --store turn_served.store --log --turns 1 --burst 1",
        answers: 1,
        out: "listening 127.0.0.1:63160\nserved 1 turns\n",
        ..COUNTED
    },
    Row {
        words: "turn serve --config turn_served.conf --store turn_served.store --log --turns 2 --burst 1",
        answers: 2,
        out: "listening 127.0.0.1:63160\nserved 2 turns\n",
        ..COUNTED
    },
    Row {
        words: "turn serve --config turn_served.conf --store turn_served.store --log --turns 1 --burst 2",
        answers: 2,
        out: "listening 127.0.0.1:63160\nserved 1 turns\n",
        ..COUNTED
    },
    Row {
        words: "turn serve --config turn_served.conf --store turn_served.store --log --turns 3 --burst 1",
        answers: 3,
        out: "listening 127.0.0.1:63160\nserved 3 turns\n",
        ..COUNTED
    },
];

/// A request for which the area has no room needs a snapshot. The last generation has no next one.
const WITHOUT_ROOM: [Row; 2] = [
    Row {
        words: "turn serve --config turn_served.conf --store turn_served.store --log --turns 1",
        datagram: ALLOCATE,
        count: 1,
        full: Some(u64::MAX - 1),
        answers: 1,
        out: "listening 127.0.0.1:63160\nserved 1 turns\n",
        ..COUNTED
    },
    Row {
        words: "turn serve --config turn_served.conf --store turn_served.store --log --turns 1",
        datagram: ALLOCATE,
        count: 1,
        full: Some(u64::MAX),
        answers: 0,
        log: "1000 - store turn_served.store\n",
        status: 2,
        err: "turn: worn\n",
        ..COUNTED
    },
];

/// The lines of a log but for the first three, which are those of the start, the notes, which are of the machine, and those of clients.
fn own_lines(rt: &HostRuntime, log: &[u8]) -> Result<String, Fail> {
    let mut own = String::new(rt.alloc());
    for line in str::from_utf8(log)?.lines().skip(3) {
        if !line.contains(" client ") && !line.contains(" - note: ") {
            own.push_str(line)?;
            own.push('\n')?;
        }
    }
    Ok(own)
}

/// How many datagrams a socket has got by now.
fn count_datagrams(client: &mut TimedSocket) -> u8 {
    let mut count = 0u8;
    for _ in 0..100u8 {
        if client.receive().is_err() {
            return count;
        }
        count = count.wrapping_add(1);
    }
    count
}

/// What a server writes, and whether it ends as a row says.
#[derive(Drop)]
struct Written {
    out: Vec<u8>,
    err: Vec<u8>,
    log: Vec<u8>,
    has_ended: bool,
}

/// Serves while a client sends what a row says.
fn serve(rt: &HostRuntime, client: &TimedSocket, row: &Row) -> Result<Written, Fail> {
    let mut words = Vec::new(rt.alloc());
    for word in row.words.split(' ') {
        words.push(word)?;
    }
    let mut out = Caller {
        client,
        row,
        called: false,
        printed: Vec::new(rt.alloc()),
    };
    let (mut err, mut log) = (Vec::new(rt.alloc()), Vec::new(rt.alloc()));
    let clock = Ticking::new(row.readings, row.tick);
    let status = run_words(
        rt,
        &clock,
        RELEASE,
        words.as_slice(),
        &mut out,
        &mut err,
        &mut log,
    );
    Ok(Written {
        out: out.printed,
        err,
        log,
        has_ended: status == row.status,
    })
}

/// The store of a row.
fn store_of(alloc: Global, row: &Row) -> Result<Vec<u8>, AllocError> {
    match row.full {
        Some(generation) => filled(alloc, 63_168, generation),
        None => fresh(alloc),
    }
}

fn expect(rt: &HostRuntime, row: &Row) -> Result<(), Fail> {
    fs::write(rt, "turn_served.conf", CONFIG)?;
    fs::write(rt, "turn_served.store", store_of(rt.alloc(), row)?)?;
    let mut client = TimedSocket::open(rt.alloc(), rt, CLIENT)?;
    let written = serve(rt, &client, row)?;
    fs::remove_file(rt, "turn_served.conf")?;
    fs::remove_file(rt, "turn_served.store")?;
    let answers = count_datagrams(&mut client);
    let own = own_lines(rt, &written.log)?;
    let is_written = written.has_ended
        && written.out.as_slice() == row.out.as_bytes()
        && written.err.as_slice() == row.err.as_bytes();
    if is_written && answers == row.answers && own.as_str() == row.log {
        Ok(())
    } else {
        Err(Fail::new(format_args!("{answers} answers, log {own}")))
    }
}

/// One test, since all have the same files and ports.
#[test]
fn serve_takes_turns_up_to_a_fault_or_so_many(rt: HostRuntime) -> Result<(), Fail> {
    for row in &UP_TO_A_FAULT {
        expect(&rt, row)?;
    }
    for row in &SO_MANY_TURNS {
        expect(&rt, row)?;
    }
    for row in &WITHOUT_ROOM {
        expect(&rt, row)?;
    }
    Ok(())
}
