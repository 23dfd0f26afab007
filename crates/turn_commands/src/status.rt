//! `turn status`: who has what in a store, for people.

use std::alloc::{AllocError, Global};
use std::fs::File;
use std::io::Write;
use std::rt::{Clock, Files};
use turn_config::ShownEndpoint;
use turn_disk::{Disk, FileDisk, FileError};
use turn_faults::{
    Fault, Host, Named, PATIENCE, ProgramError, StorePlace, open_export, prepare, print_lines,
};
use turn_log::ShownName;
use turn_reading::{Reading, read_store};
use turn_sockets::moment_now;
use turn_table::{Entry, Table};
use turn_types::{FiveTuple, Limits, Moment};

/// Whether an allocation is the first of its user that is live at a second, in the order of the table.
fn is_first(table: &Table, five_tuple: FiveTuple, entry: &Entry, second: u64) -> bool {
    for (other, beside) in table.entries() {
        if beside.user() == entry.user() && second < beside.expiry() {
            return other == five_tuple;
        }
    }
    false
}

/// How many allocations of a user are live at a second.
fn count_of(table: &Table, user: &[u8], second: u64) -> u64 {
    let mut count = 0u64;
    for (_, entry) in table.entries() {
        if entry.user() == user && second < entry.expiry() {
            count = count.wrapping_add(1);
        }
    }
    count
}

fn live_of(table: &Table, second: u64) -> u64 {
    let mut count = 0u64;
    for (_, entry) in table.entries() {
        if second < entry.expiry() {
            count = count.wrapping_add(1);
        }
    }
    count
}

/// A line for each user who has a live allocation: how many, of how many.
fn put_users(
    alloc: Global,
    table: &Table,
    quota: u32,
    second: u64,
    lines: &mut Vec<String>,
) -> Result<(), AllocError> {
    for (five_tuple, entry) in table.entries() {
        if second < entry.expiry() && is_first(table, five_tuple, entry, second) {
            let count = count_of(table, entry.user(), second);
            let name = ShownName(entry.user());
            lines.push(format!(in alloc; "user {name} {count} of {quota}")?)?;
        }
    }
    Ok(())
}

/// A line for each live allocation.
fn put_allocations(
    alloc: Global,
    table: &Table,
    second: u64,
    lines: &mut Vec<String>,
) -> Result<(), AllocError> {
    for (five_tuple, entry) in table.entries() {
        if second < entry.expiry() {
            let (client, server) = (
                ShownEndpoint(five_tuple.client),
                ShownEndpoint(five_tuple.server),
            );
            let (name, port) = (ShownName(entry.user()), entry.port());
            let left = entry.expiry().saturating_sub(second);
            lines.push(format!(in alloc;
                "allocation {name} client {client} at={server} port={port} expires in {left} s"
            )?)?;
        }
    }
    Ok(())
}

/// Whether a server holds a store.
#[derive(Clone, Copy, Debug, PartialEq, Eq)]
enum Holder {
    /// One does.
    Server,
    /// None does.
    None,
    /// The store is in an export, which has no lock.
    Unknown,
}

impl Holder {
    fn word(self) -> &'static str {
        match self {
            Holder::Server => "running",
            Holder::None => "none",
            Holder::Unknown => "unknown",
        }
    }
}

/// Whether a server holds the store in a file: it has its lock, which is taken for a moment to see that.
fn holder_of<R: Files<File = File>>(files: &R, path: &str) -> Holder {
    match FileDisk::open(files, path) {
        Err(FileError::InUse) => Holder::Server,
        _ => Holder::None,
    }
}

fn lines_of(
    alloc: Global,
    reading: &Reading,
    limits: Limits,
    quota: u32,
    second: u64,
    holder: Holder,
) -> Result<Vec<String>, AllocError> {
    let table = &reading.table;
    let (live, most) = (live_of(table, second), limits.allocations());
    let mut lines = Vec::new(alloc);
    let server = holder.word();
    lines.push(format!(in alloc; "server {server}")?)?;
    lines.push(format!(in alloc; "allocations {live} of {most}")?)?;
    put_users(alloc, table, quota, second, &mut lines)?;
    put_allocations(alloc, table, second, &mut lines)?;
    Ok(lines)
}

/// Reads the store on a disk under these limits.
fn read_on<D: Disk + Drop, C: Clock>(
    alloc: Global,
    clock: &C,
    store: Named<'_>,
    disk: D,
    limits: Limits,
) -> Result<Reading, Fault> {
    let (disk, read) = read_store(alloc, clock, disk, Some(limits));
    read.map_err(|why| Fault::of_disk(alloc, store, ProgramError::from(why), &disk))
}

/// Reads a store, and sees whether a server holds it.
fn read_at<R: Host, C: Clock>(
    rt: &R,
    clock: &C,
    store: &str,
    limits: Limits,
) -> Result<(Reading, Holder), Fault> {
    let (alloc, named) = (rt.alloc(), Named::store(store));
    match StorePlace::of(store)? {
        StorePlace::File(path) => {
            let disk = FileDisk::open_to_read(rt, path).map_err(|refused| Fault::of_file(
                alloc, named, refused,
            ))?;
            let reading = read_on(alloc, clock, named, disk, limits)?;
            Ok((reading, holder_of(rt, path)))
        }
        StorePlace::Export(export) => {
            let disk = open_export(rt, clock, export, PATIENCE)?;
            let reading = read_on(alloc, clock, named, disk, limits)?;
            Ok((reading, Holder::Unknown))
        }
    }
}

/// The system's second.
fn second_of<C: Clock>(clock: &C) -> Result<u64, ProgramError> {
    let first = Moment::new(0).ok_or(ProgramError::Device)?;
    let now = moment_now(&clock, first).ok_or(ProgramError::Device)?;
    Ok(now.seconds())
}

/// Prints whether a server holds a store, how many allocations there are, and what each user has, with names as a log has them.
pub fn run_status<R: Host, C: Clock, W: Write>(
    rt: &R,
    clock: &C,
    config: &str,
    store: &str,
    out: &mut W,
) -> Result<(), Fault> {
    let alloc = rt.alloc();
    let prepared = prepare(rt, config, &[])?;
    let (limits, quota) = (prepared.config.limits(), prepared.config.quota());
    let (reading, holder) = read_at(rt, clock, store, limits)?;
    let lines = lines_of(alloc, &reading, limits, quota, second_of(clock)?, holder)?;
    print_lines(alloc, &lines, out)
}
