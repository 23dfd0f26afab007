//! `turn check`.

ghost use Rattle.std.specs.Prelude.{◌≡◌, IfErr, OnOk, Some};
ghost use Rattle.turn_commands.specs.Checks.{IsStoreError};
ghost use Rattle.turn_reading.specs.Readings.{IsRead};
ghost use Rattle.turn_store.specs.Replay.{Snapshot};

use std::alloc::Global;
use std::fs::{File, OpenOptions};
use std::io::Write;
use std::rt::Clock;
use turn_disk::{Disk, FileDisk, FileError, open_regular};
use turn_faults::{
    Fault, Host, Named, NamedExport, PATIENCE, ProgramError, StorePlace, open_export, prepare,
    print_line,
};
use turn_notes::{Note, Noted, notes_of};
use turn_ports::RelayAddressGenerator;
use turn_reading::read_store;
use turn_types::{Endpoint, Limits, Moment};

/// Opens a store's file to be read alone, whoever has its lock. It has to be one that may be written to, as a start opens it.
fn open_beside<R: Host>(rt: &R, path: &str) -> Result<FileDisk<File>, FileError> {
    let mut options = OpenOptions::new();
    options.read(true).write(true);
    drop(open_regular(rt, path, &options)?);
    FileDisk::open_to_read(rt, path)
}

/// Reads a store as a start opens it, under these limits, whether or not a server writes to it meanwhile. Returns the disk too, and the
/// latest moment that is written.
pub fn check_store<D: Disk + Drop, C: Clock>(
    alloc: Global,
    clock: &C,
    disk: D,
    limits: Limits,
) -> (D, Result<Moment, ProgramError>)
    ensures crash_model { D.follows_crash_model result.0 → D.follows_crash_model disk }
    ensures same { D.follows_crash_model result.0 → (D.trace result.0).now.bytes ≡ (D.trace disk).now.bytes }

    // Of a disk that follows the crash model, to which nobody else writes: the store holds a table, or the fault is that of an opening.
    ensures read { D.follows_crash_model result.0 → OnOk result.1 ((t : Snapshot) × IsRead D (Some limits) (D.trace disk).now.bytes t) }
    ensures why { D.follows_crash_model result.0 → IfErr result.1 (IsStoreError limits (D.trace disk).now.bytes) }
{
    let (disk, read) = read_store(alloc, clock, disk, Some(limits));
    match read {
        Ok(reading) => (disk, Ok(reading.table.moment())),
        Err(fault) => (disk, Err(ProgramError::from(fault))),
    }
}

/// Checks the store on a disk. Returns the latest moment that is written there.
fn check_disk<D: Disk + Drop, C: Clock>(
    alloc: Global,
    clock: &C,
    store: Named<'_>,
    disk: D,
    limits: Limits,
) -> Result<Moment, Fault> {
    let (disk, checked) = check_store(alloc, clock, disk, limits);
    checked.map_err(|kind| Fault::of_disk(alloc, store, kind, &disk))
}

/// Checks the store in a place. It is opened as a start opens it, and nothing is written. Returns the latest moment that is written
/// there.
fn check_place<R: Host, C: Clock>(
    rt: &R,
    clock: &C,
    store: &str,
    limits: Limits,
) -> Result<Moment, Fault> {
    let (alloc, named) = (rt.alloc(), Named::store(store));
    match StorePlace::of(store)? {
        StorePlace::File(path) => {
            let disk = open_beside(rt, path).map_err(|refused| Fault::of_file(
                alloc, named, refused,
            ))?;
            check_disk(alloc, clock, named, disk, limits)
        }
        StorePlace::Export(export) => {
            let disk = open_export(rt, clock, export, PATIENCE)?;
            check_disk(alloc, clock, named, disk, limits)
        }
    }
}

/// Checks a configuration, and then a store if one is given. Returns what notes are made of.
fn check_files<R: Host, C: Clock>(
    rt: &R,
    clock: &C,
    config: &str,
    store: Option<&str>,
    listen: &[Endpoint],
) -> Result<Noted, Fault> {
    let prepared = prepare(rt, config, listen)?;
    let limits = prepared.config.limits();
    let checked = match store {
        Some(store) => Some(check_place(rt, clock, store, limits)?),
        None => None,
    };
    Ok(Noted {
        ports: prepared.ports.range(),
        allocations: limits.allocations(),
        clock: checked,
    })
}

/// Prints a line of what is odd.
fn print_note<W: Write>(alloc: Global, note: Note, out: &mut W) -> Result<(), Fault> {
    print_line(&format!(in alloc; "note: {note}")?, out)
}

/// Says whether a server would start with a configuration, as far as its sockets, and with a store if one is given, and before that
/// what is odd. `listen` are the addresses beside the configuration's. Nothing is written, and no socket is opened.
pub fn run_check<R: Host, C: Clock, W: Write>(
    rt: &R,
    clock: &C,
    config: &str,
    store: Option<&str>,
    listen: &[Endpoint],
    out: &mut W,
) -> Result<(), Fault> {
    let noted = check_files(rt, clock, config, store, listen)?;
    let notes = notes_of(rt, clock, noted);
    for note in &notes {
        if let Some(note) = note {
            print_note(rt.alloc(), *note, out)?;
        }
    }
    print_line("ok", out)
}
