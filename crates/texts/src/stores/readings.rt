//! Readings of a store that may change meanwhile.

use failing_alloc::FailingAlloc;
use std::alloc::{Allocator, Global};
use std::cell::Cell;
use std::io::{self, Error, ErrorKind};
use std::rt::Clock;
use std::time::Duration;
use test_files::{Changing, TestFile};
use turn_disk::FileDisk;
use turn_reading::{ReadingError, read_store};
use turn_types::Limits;

/// Counts the pauses of 10 ms, which take none.
#[derive(Drop)]
struct Counter {
    pauses: Cell<u32>,
}

impl Clock for Counter {
    fn monotonic(&self) -> io::Result<Duration> {
        Err(Error::from(ErrorKind::Unsupported))
    }

    fn since_1970(&self) -> io::Result<Duration> {
        Err(Error::from(ErrorKind::Unsupported))
    }

    fn sleep(&self, duration: Duration) {
        if duration == Duration::from_millis(10) {
            self.pauses.set(self.pauses.get().wrapping_add(1));
        }
    }
}

/// The generation that is read or the fault, and how many pauses there were.
type Outcome = (Result<u64, ReadingError>, u32);

/// Reads the store of a disk, under these limits or its own, whose file has the first content up to its first sync and the second
/// from its second one on.
fn read<A: Allocator + Copy>(
    alloc: A,
    size: usize,
    first: &[u8],
    second: &[u8],
    limits: Option<Limits>,
) -> Outcome {
    let syncs = Cell::new(0);
    let file = Changing {
        first,
        second,
        syncs: &syncs,
    };
    let clock = Counter {
        pauses: Cell::new(0),
    };
    let (_, read) = read_store(alloc, &clock, FileDisk::new(TestFile(file), size), limits);
    (
        read.map(|reading| reading.info.generation),
        clock.pauses.get(),
    )
}

fn fault_text(alloc: Global, fault: ReadingError) -> Option<String> {
    let text = match fault {
        ReadingError::Device => "device",
        ReadingError::Memory => "memory",
        ReadingError::NotAStore => "no_store",
        ReadingError::LimitsDiffer => "limits",
        ReadingError::Changing => "changing",
        ReadingError::Damaged(place) => return format!(in alloc; "damaged:{place}").ok(),
    };
    String::from_str(alloc, text).ok()
}

/// What a reading gives, as text: the generation or the fault, and the pauses.
pub fn reading(
    alloc: Global,
    size: usize,
    first: &[u8],
    second: &[u8],
    limits: Option<Limits>,
) -> Option<String> {
    let (read, pauses) = read(alloc, size, first, second, limits);
    match read {
        Ok(generation) => format!(in alloc; "{generation} {pauses}").ok(),
        Err(fault) => {
            let fault = fault_text(alloc, fault)?;
            format!(in alloc; "{fault} {pauses}").ok()
        }
    }
}

/// How many allocations a reading of a store of this generation makes. Each is refused in turn, which is what is answered, without a pause.
pub fn growths(alloc: Global, content: &[u8], generation: u64) -> Option<u64> {
    for served in 0..100u64 {
        let refusing = FailingAlloc::new(alloc, served);
        let outcome = read(&refusing, content.len(), content, content, None);
        if !refusing.has_refused() {
            return (outcome == (Ok(generation), 0)).then_some(served);
        }
        if outcome != (Err(ReadingError::Memory), 0) {
            return None;
        }
    }
    None
}
