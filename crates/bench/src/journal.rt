//! Appends of a journal over a file.

use crate::measured::time;
use std::{fs, io};
use turn_disk::{Disk, FileDisk, Idle};
use turn_journal::{Area, Journal};

/// Appends a payload, and returns whether there was room for it and it is on the disk.
fn append(journal: &mut Journal, disk: &mut FileDisk, payload: &[u8]) -> bool {
    let end = journal.start() + journal.size();
    if disk.size() < end || journal.max_payload() < payload.len() {
        return false;
    }
    journal.append(disk, payload, &mut Idle).is_ok()
}

fn measure(
    rt: &HostRuntime,
    pass: &str,
    journal: &mut Journal,
    disk: &mut FileDisk,
    payload: &[u8],
    appends: usize,
) -> io::Result<()> {
    if journal.size() > 0 && journal.start() == 0 {
        journal.move_to(0, 0);
    }
    let timing = time(rt, &mut || append(journal, disk, payload), appends)?;
    println!(rt;
        "{pass}: {} appends in {} us, {} failures",
        timing.done,
        timing.micros,
        disk.failures()
    )
}

/// Measures appends of so many bytes over a file that is made anew, and then over what they wrote.
pub fn measure_all(rt: &HostRuntime, path: &str, appends: usize, bytes: usize) -> io::Result<()> {
    let appends = appends.min(1_000_000);
    let bytes = bytes.min(65_536);
    let area = Area {
        start: 0,
        size: appends * (bytes + 5) + 1,
        max_payload: bytes,
        end: 0,
    };
    let payload = Vec::from_elem(rt.alloc(), 7u8, bytes)?;
    let mut disk = FileDisk::create(rt, path, area.size)?;
    let mut journal = Journal::new(rt.alloc(), area)?;
    for pass in ["new file", "written before"] {
        measure(rt, pass, &mut journal, &mut disk, &payload, appends)?;
    }
    fs::remove_file(rt, path)
}
