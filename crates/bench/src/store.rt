//! The calls of a store over a file.

mod stored;

use crate::encoded::{Shape, encode, renewals};
use crate::measured::{ROUNDS, Timing, best_of, time};
use std::alloc::Global;
use std::{fs, io};
use stored::Stored;
use turn_disk::FileDisk;
use turn_record::Version;

/// How many frames are appended to a log.
const FRAMES: usize = 10_000;

/// Appends the next payload, which after the last one is the first.
fn append_next(stored: &mut Stored, payloads: &[Vec<u8>], next: &mut usize) -> bool {
    let Some(payload) = payloads.get(*next) else {
        return false;
    };
    *next = if *next + 1 < payloads.len() {
        *next + 1
    } else {
        0
    };
    stored.append(payload)
}

/// An opening, which carries the store over to version 2 where that is asked for, to a store of a version with so many entries and
/// frames, after which its table is released.
#[derive(Drop)]
struct Open {
    alloc: Global,
    disk: Option<FileDisk>,
    carry: bool,
    version: Version,
    entries: usize,
    frames: usize,
}

impl Open {
    /// An opening as it is, without frames.
    fn new(alloc: Global, disk: FileDisk, version: Version, shape: Shape) -> Open {
        Open {
            alloc,
            disk: Some(disk),
            carry: false,
            version,
            entries: usize::from(shape.entries),
            frames: 0,
        }
    }

    /// Opens it once, and returns whether it is as it should be.
    fn make(&mut self) -> bool {
        let Some(disk) = self.disk.take() else {
            return false;
        };
        let Some(stored) = Stored::open(self.alloc, disk, self.carry) else {
            return false;
        };
        let right = stored.has(self.version, self.entries, self.frames);
        self.disk = Some(stored.into_disk());
        right
    }
}

/// Prints the microseconds of a compaction, and the megabytes a second of a snapshot of so many bytes.
fn measure_compactions(
    rt: &HostRuntime,
    stored: &mut Stored,
    count: usize,
    size: usize,
) -> io::Result<()> {
    let timing = best_of(rt, &mut || stored.compact(), count)?;
    println!(rt;
        "a compaction: {} us, {} MB/s ({} of {count} done)",
        timing.nanos(1) / 1000,
        timing.rate(size),
        timing.done
    )
}

/// Prints the microseconds of an opening, and returns the disk, or `None` if the store was refused.
fn measure_openings(rt: &HostRuntime, open: Open, count: usize) -> io::Result<Option<FileDisk>> {
    let mut open = open;
    let timing = best_of(rt, &mut || open.make(), count)?;
    println!(rt;
        "opening with {} frames: {} us ({} of {count} done)",
        open.frames,
        timing.nanos(1) / 1000,
        timing.done
    )?;
    Ok(open.disk.take())
}

/// Compacts the store and appends `FRAMES` frames, once in each round, and prints the nanoseconds of an append in the best
/// round. The compactions are not timed.
fn measure_appends(rt: &HostRuntime, stored: &mut Stored, payloads: &[Vec<u8>]) -> io::Result<()> {
    let mut best: Option<Timing> = None;
    for _ in 0..ROUNDS {
        if !stored.compact() {
            break;
        }
        let mut next = 0;
        let call = &mut || append_next(stored, payloads, &mut next);
        best = Some(time(rt, call, FRAMES)?.or_before(best));
    }
    match best {
        Some(timing) => println!(rt;
            "an append: {} ns ({} of {FRAMES} done)",
            timing.nanos(1),
            timing.done
        ),
        None => println!(rt; "a wrong answer"),
    }
}

/// A store of a version over a file that is made anew, with this snapshot.
fn make_compacted(
    rt: &HostRuntime,
    path: &str,
    version: Version,
    bytes: &[u8],
) -> io::Result<Option<Stored>> {
    match Stored::make(rt, path, version, bytes)? {
        Some(stored) => {
            let mut stored = stored;
            Ok(stored.compact().then_some(stored))
        }
        None => Ok(None),
    }
}

/// Measures the calls of a store of a version that holds a table of this shape, over a file that is made anew. Returns false if the
/// store was not made or not opened.
fn measure_store(
    rt: &HostRuntime,
    path: &str,
    version: Version,
    shape: Shape,
    count: usize,
) -> io::Result<bool> {
    let alloc = rt.alloc();
    let bytes = encode(alloc, version, shape)?;
    println!(rt; "version {version:?}, snapshot: {} bytes", bytes.len())?;
    let Some(mut stored) = make_compacted(rt, path, version, &bytes)? else {
        return Ok(false);
    };
    measure_compactions(rt, &mut stored, count, bytes.len())?;
    let open = Open::new(alloc, stored.into_disk(), version, shape);
    let Some(disk) = measure_openings(rt, open, count)? else {
        return Ok(false);
    };
    let Some(mut stored) = Stored::open(alloc, disk, false) else {
        return Ok(false);
    };
    measure_appends(rt, &mut stored, &renewals(alloc, shape)?)?;
    let mut open = Open::new(alloc, stored.into_disk(), version, shape);
    open.frames = FRAMES;
    let disk = measure_openings(rt, open, count)?;
    Ok(disk.is_some())
}

/// Makes a store of version 1 with a table of this shape in each round, and opens it, which carries it over. Prints the microseconds of
/// the opening in the best round, and then of an opening of the carried store. Returns false if it was not made, or not carried over.
fn measure_carrying(rt: &HostRuntime, path: &str, shape: Shape, count: usize) -> io::Result<bool> {
    let bytes = encode(rt.alloc(), Version::V1, shape)?;
    let mut best: Option<Timing> = None;
    let mut carried = None;
    for _ in 0..ROUNDS {
        // Closes the file of the round before, which is made anew.
        carried = None;
        let Some(stored) = make_compacted(rt, path, Version::V1, &bytes)? else {
            return Ok(false);
        };
        let mut open = Open::new(rt.alloc(), stored.into_disk(), Version::V2, shape);
        open.carry = true;
        best = Some(time(rt, &mut || open.make(), 1)?.or_before(best));
        carried = Some(open);
    }
    let (Some(best), Some(open)) = (best, carried) else {
        return Ok(false);
    };
    println!(rt;
        "opening that carries over: {} us ({} of 1 done)",
        best.micros, best.done
    )?;
    let disk = measure_openings(rt, open, count)?;
    Ok(disk.is_some())
}

/// Measures stores of both versions with a table of this shape.
fn measure_shape(rt: &HostRuntime, path: &str, shape: Shape, count: usize) -> io::Result<bool> {
    println!(rt;
        "allocations: {}, permissions of each: {}, channels of each: {}",
        shape.entries, shape.permissions, shape.channels
    )?;
    for version in [Version::V1, Version::V2] {
        if !measure_store(rt, path, version, shape, count)? {
            return Ok(false);
        }
    }
    measure_carrying(rt, path, shape, count)
}

/// Measures stores over this file with each of three tables. The file is made anew, and removed afterwards.
pub fn measure_all(rt: &HostRuntime, path: &str, count: usize) -> io::Result<()> {
    for shape in [Shape::FULL, Shape::PLAIN, Shape::ONE] {
        if !measure_shape(rt, path, shape, count)? {
            println!(rt; "a wrong answer")?;
        }
    }
    fs::remove_file(rt, path)
}
