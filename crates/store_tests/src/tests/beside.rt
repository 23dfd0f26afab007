//! Readings of a store to which a server writes between any two device calls.

use super::recorded::{Record, Shape, put_at, record_calls};
use std::alloc::Global;
use std::cell::{Cell, RefCell};
use std::io::{self, Error, ErrorKind};
use std::process::Abort;
use std::rt::Clock;
use std::time::Duration;
use test_files::{FileCalls, TestFile, copy_at};
use turn_disk::{FileDisk, PIECE};
use turn_reading::{Reading, read_store};
use turn_table::Table;

/// A server that writes what was recorded, some calls at a time.
#[derive(Drop)]
struct Writer<'a> {
    record: &'a Record,
    bytes: RefCell<Vec<u8>>,
    /// How many calls were made.
    done: Cell<usize>,
    /// After how many reads the next calls are made.
    quiet: Cell<u64>,
    seed: Cell<u64>,
    pauses: Cell<u64>,
}

impl Writer<'_> {
    /// A number below a bound, by the constants of the C standard's example of `rand`.
    fn draw(&self, bound: u64) -> u64 {
        let seed = self
            .seed
            .get()
            .wrapping_mul(1_103_515_245)
            .wrapping_add(12_345)
            % (1 << 31);
        self.seed.set(seed);
        (seed >> 8) % bound.max(1)
    }

    /// Makes up to so many calls, and none after a part of a snapshot.
    fn write(&self, count: u64) {
        let Ok(mut bytes) = self.bytes.try_borrow_mut() else {
            return;
        };
        for _ in 0..count {
            let Some(call) = self.record.calls.get(self.done.get()) else {
                return;
            };
            put_at(&mut bytes, call.at, &call.bytes);
            self.done.set(self.done.get().wrapping_add(1));
            if call.bytes.len() == PIECE {
                return;
            }
        }
    }

    /// Is called before each read: the server writes now and then, often twice within a reading.
    fn step(&self) {
        let quiet = self.quiet.get();
        if let Some(left) = quiet.checked_sub(1) {
            self.quiet.set(left);
            return;
        }
        self.write(self.draw(8).wrapping_add(1));
        let next = if self.draw(2) == 0 {
            self.draw(20)
        } else {
            self.draw(600)
        };
        self.quiet.set(next);
    }

    /// The version that the store has.
    fn version(&self) -> u16 {
        match self.done.get().checked_sub(1) {
            Some(last) => self.record.versions.get(last).copied().unwrap_or(0),
            None => 0,
        }
    }

    /// Begins anew if the recorded calls come to their end.
    fn go_round(&self) {
        if self.done.get().saturating_add(200) > self.record.calls.len()
            && let Ok(mut bytes) = self.bytes.try_borrow_mut()
        {
            put_at(&mut bytes, 0, &self.record.first);
            self.done.set(0);
        }
    }
}

/// A pause, in which the server goes on.
impl Clock for Writer<'_> {
    fn monotonic(&self) -> io::Result<Duration> {
        Err(Error::from(ErrorKind::Unsupported))
    }

    fn since_1970(&self) -> io::Result<Duration> {
        Err(Error::from(ErrorKind::Unsupported))
    }

    fn sleep(&self, _duration: Duration) {
        self.pauses.set(self.pauses.get().wrapping_add(1));
        self.write(self.draw(20));
    }
}

/// The file that the server writes to.
#[derive(Drop)]
struct Shared<'a> {
    writer: &'a Writer<'a>,
}

impl FileCalls for Shared<'_> {
    fn read(&self, buf: &mut [u8], offset: u64) -> io::Result<usize> {
        self.writer.step();
        match self.writer.bytes.try_borrow() {
            Ok(bytes) => Ok(copy_at(&bytes, buf, offset)),
            Err(_) => Err(Error::from(ErrorKind::Other)),
        }
    }
}

/// The version that a table is, if all its allocations are of one.
fn version_of(shape: Shape, table: &Table) -> Option<u16> {
    let last = table.entries().map(|(_, entry)| entry.expiry()).max()?;
    let version = u16::try_from(last.checked_sub(1600)?).ok()?;
    let mut place = 0u16;
    for (_, entry) in table.entries() {
        if entry.expiry() != 1000 + u64::from(shape.lifetime(version, place)) {
            return None;
        }
        place = place.wrapping_add(1);
    }
    (place == shape.entries()).then_some(version)
}

/// Whether a reading has a table that the store had in the meantime.
fn is_right(alloc: Global, writer: &Writer<'_>) -> bool {
    writer.go_round();
    let before = writer.version();
    let disk = FileDisk::new(TestFile(Shared { writer }), writer.record.first.len());
    let (_, Ok(reading)) = read_store(alloc, writer, disk, None) else {
        return false;
    };
    let Reading { info: _, table } = reading;
    let after = writer.version();
    match version_of(writer.record.shape, &table) {
        Some(version) => before <= version && version <= after,
        None => false,
    }
}

/// Reads so many times. Returns how many pauses there were.
fn read_all(rt: &impl Abort, alloc: Global, shape: Shape, seed: u64, count: u32) -> u64 {
    let record = record_calls(rt, alloc, shape);
    let writer = Writer {
        record: &record,
        bytes: RefCell::new(Vec::from_slice(alloc, &record.first).expect(rt, "memory")),
        done: Cell::new(0),
        quiet: Cell::new(0),
        seed: Cell::new(seed),
        pauses: Cell::new(0),
    };
    for _ in 0..count {
        assert!(rt; is_right(alloc, &writer));
    }
    writer.pauses.get()
}

/// Two allocations, of which a snapshot takes one write.
const SMALL: Shape = Shape {
    half: 1,
    name: b"alice",
};

#[test]
fn no_store_is_called_damaged_beside_a_server(rt: HostRuntime) {
    assert!(rt; read_all(&rt, rt.alloc(), SMALL, 1, 4_800) > 300);
}

#[test]
fn no_store_is_called_damaged_beside_another_server(rt: HostRuntime) {
    assert!(rt; read_all(&rt, rt.alloc(), SMALL, 2, 4_800) > 300);
}

/// Eight allocations, of which a snapshot takes two writes: between them its area holds a part of it, and a part of the one
/// before.
const LARGE: Shape = Shape {
    half: 4,
    name: &[b'a'; 508],
};

#[test]
fn no_table_is_of_two_snapshots(rt: HostRuntime) {
    assert!(rt; read_all(&rt, rt.alloc(), LARGE, 1, 400) > 30);
}
