//! The lock of a store: who has it, who waits for it, and who needs none.

use super::run_line;
use super::stores::allocated;
use std::cell::Cell;
use std::fs::{self, File};
use std::io::{self, Write};
use std::rt::Clock;
use std::test::Fail;
use std::time::Duration;
use turn_disk::{FileDisk, FileError};

const CONFIG: &str = "realm example.org
secret 0000000000000000000000000000000000000000000000000000000000000000
listen 127.0.0.1:0
relay 127.0.0.1 63041 63049
limits 2 1 1 1 8
";

const STORE: &str = "turn_lock.store";

/// The system's time, and pauses that take none. After so many of them a lock is released.
#[derive(Drop)]
struct Pauses<'a> {
    rt: &'a HostRuntime,
    count: Cell<u32>,
    last: u32,
    held: Cell<Option<FileDisk<File>>>,
}

impl Clock for Pauses<'_> {
    fn monotonic(&self) -> io::Result<Duration> {
        self.rt.monotonic()
    }

    fn since_1970(&self) -> io::Result<Duration> {
        self.rt.since_1970()
    }

    fn sleep(&self, duration: Duration) {
        if duration == Duration::from_millis(50) {
            self.count.set(self.count.get().wrapping_add(1));
        }
        if self.count.get() == self.last {
            drop(self.held.take());
        }
    }
}

/// A store with alice's allocation at relayed port 63,049.
fn make_store(rt: &HostRuntime) -> Result<Vec<u8>, Fail> {
    let content = allocated(rt.alloc(), 63_049)?;
    fs::write(rt, STORE, &content)?;
    Ok(content)
}

const SERVE: &str = "turn serve --config turn_lock.conf --store turn_lock.store --turns 0";

const FORMAT: &str = "turn format --config turn_lock.conf --store turn_lock.store --area 304";

const SHOWN: &str = "store generation 1 frames 1 clock 1000
192.0.2.1:32853 192.0.2.100:3478 616c696365 63049 1600
live 1
";

/// Words while a store is in use, the status, the output, the fault, and how many pauses there are.
type Case = (&'static str, u8, &'static str, &'static str, u32);

/// Faults of the configuration and of the area come first.
const IN_USE: [Case; 6] = [
    (SERVE, 3, "", "turn: store in use\n", 40),
    (FORMAT, 3, "", "turn: store in use\n", 0),
    (
        "turn serve --config turn_lock.store --store turn_lock.store",
        1,
        "",
        "turn: line 1: bad line\n",
        0,
    ),
    (
        "turn format --config turn_lock.conf --store turn_lock.store --area 303",
        2,
        "",
        "turn: area too small, needs 304\n",
        0,
    ),
    ("turn inspect --store turn_lock.store", 0, SHOWN, "", 0),
    (
        "turn check --config turn_lock.conf --store turn_lock.store",
        0,
        "ok\n",
        "",
        0,
    ),
];

fn make_pauses<'a>(rt: &'a HostRuntime, last: u32, held: FileDisk<File>) -> Pauses<'a> {
    Pauses {
        rt,
        count: Cell::new(0),
        last,
        held: Cell::new(Some(held)),
    }
}

fn expect_in_use(rt: &HostRuntime, case: &Case) -> Result<(), Fail> {
    let (line, status, out, err, count) = *case;
    let content = make_store(rt)?;
    let clock = make_pauses(rt, u32::MAX, FileDisk::open(rt, STORE)?);
    let (mut printed, mut said) = (Vec::new(rt.alloc()), Vec::new(rt.alloc()));
    let got = run_line(rt, &clock, line, &mut printed, &mut said)?;
    let is_kept = fs::read(rt, STORE)?.as_slice() == content.as_slice();
    let is_said = printed.as_slice() == out.as_bytes() && said.as_slice() == err.as_bytes();
    if got == status && is_said && clock.count.get() == count && is_kept {
        Ok(())
    } else {
        Err(Fail::new(line))
    }
}

/// Whether `serve` starts after so many pauses, if the lock is released in the last of them.
fn starts_after(rt: &HostRuntime, last: u32) -> Result<bool, Fail> {
    make_store(rt)?;
    let clock = make_pauses(rt, last, FileDisk::open(rt, STORE)?);
    let (mut out, mut err) = (Vec::new(rt.alloc()), Vec::new(rt.alloc()));
    let status = run_line(rt, &clock, SERVE, &mut out, &mut err)?;
    Ok(status == 0 && clock.count.get() == last)
}

/// A standard output that tries to take the store's lock at each write.
#[derive(Drop)]
struct Prober<'a> {
    rt: &'a HostRuntime,
    writes: u32,
    refused: u32,
}

impl Write for Prober<'_> {
    fn write(&mut self, buf: &[u8]) -> io::Result<usize> {
        self.writes = self.writes.wrapping_add(1);
        if let Err(FileError::InUse) = FileDisk::open(self.rt, STORE) {
            self.refused = self.refused.wrapping_add(1);
        }
        Ok(buf.len())
    }

    fn flush(&mut self) -> io::Result<()> {
        Ok(())
    }
}

/// Whether a command prints something, has the store's lock at each write, and releases it at its end.
fn has_lock(rt: &HostRuntime, line: &str) -> Result<bool, Fail> {
    make_store(rt)?;
    let mut out = Prober {
        rt,
        writes: 0,
        refused: 0,
    };
    let mut err = Vec::new(rt.alloc());
    let status = run_line(rt, rt, line, &mut out, &mut err)?;
    let is_free = FileDisk::open(rt, STORE).is_ok();
    Ok(status == 0 && 0 < out.writes && out.writes == out.refused && is_free)
}

/// One test, since all have the same file.
#[test]
fn a_store_in_use_is_refused_and_stays_as_it_is(rt: HostRuntime) -> Result<(), Fail> {
    fs::write(&rt, "turn_lock.conf", CONFIG)?;
    for case in &IN_USE {
        expect_in_use(&rt, case)?;
    }
    assert!(rt; starts_after(&rt, 1)?);
    assert!(rt; starts_after(&rt, 40)?);
    assert!(rt; has_lock(&rt, SERVE)?);
    assert!(rt; has_lock(&rt, FORMAT)?);
    fs::remove_file(&rt, "turn_lock.conf")?;
    fs::remove_file(&rt, STORE)?;
    Ok(())
}
