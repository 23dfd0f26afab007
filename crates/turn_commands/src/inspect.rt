//! `turn inspect`.

use std::alloc::{AllocError, Global};
use std::io::Write;
use std::rt::Clock;
use turn_cli::shown_at;
use turn_disk::{Disk, FileDisk};
use turn_faults::{
    Fault, Host, Named, PATIENCE, ProgramError, StorePlace, open_export, print_lines,
};
use turn_reading::{Reading, read_store};
use turn_scenario::put_table;
use turn_store::Info;
use turn_types::Moment;

/// The line of a store, and the lines of its table.
fn lines_of(
    alloc: Global,
    reading: &Reading,
    at: Option<Moment>,
) -> Result<Vec<String>, AllocError> {
    let Info {
        generation,
        frames,
        ..
    } = reading.info;
    let clock = reading.table.moment();
    let second = clock.seconds();
    let mut lines = Vec::new(alloc);
    lines.push(format!(in alloc; "store generation {generation} frames {frames} clock {second}")?)?;
    put_table(alloc, &reading.table, shown_at(at, clock), &mut lines)?;
    Ok(lines)
}

/// The lines of the store on a disk.
fn lines_on<D: Disk + Drop, C: Clock>(
    alloc: Global,
    clock: &C,
    store: Named<'_>,
    disk: D,
    at: Option<Moment>,
) -> Result<Vec<String>, Fault> {
    let (disk, read) = read_store(alloc, clock, disk, None);
    match read {
        Ok(reading) => Ok(lines_of(alloc, &reading, at)?),
        Err(why) => Err(Fault::of_disk(alloc, store, ProgramError::from(why), &disk)),
    }
}

/// The lines of a store.
fn store_lines<R: Host, C: Clock>(
    rt: &R,
    clock: &C,
    store: &str,
    at: Option<Moment>,
) -> Result<Vec<String>, Fault> {
    let (alloc, named) = (rt.alloc(), Named::store(store));
    match StorePlace::of(store)? {
        StorePlace::File(path) => {
            let disk = FileDisk::open_to_read(rt, path).map_err(|refused| Fault::of_file(
                alloc, named, refused,
            ))?;
            lines_on(alloc, clock, named, disk, at)
        }
        StorePlace::Export(export) => {
            let disk = open_export(rt, clock, export, PATIENCE)?;
            lines_on(alloc, clock, named, disk, at)
        }
    }
}

/// Prints what a store holds that is live at a moment.
pub fn run_inspect<R: Host, C: Clock, W: Write>(
    rt: &R,
    clock: &C,
    store: &str,
    at: Option<Moment>,
    out: &mut W,
) -> Result<(), Fault> {
    let lines = store_lines(rt, clock, store, at)?;
    print_lines(rt.alloc(), &lines, out)
}
