//! Journals over an allocator that refuses memory, and over a file.

use super::disks::disk_of;
use failing_alloc::FailingAlloc;
use std::alloc::{AllocError, Allocator, Global};
use std::fs::{File, Files};
use std::process::Abort;
use std::{fs, io};
use turn_disk::{Disk, FileDisk, Idle};
use turn_journal::{AppendError, Area, Found, Journal, ScanError};

/// The journal of an area of 20 bytes that begins at position 3, with an empty log.
fn journal_of<A: Allocator + Copy>(alloc: A) -> Result<Journal<A>, AllocError> {
    let area = Area {
        start: 3,
        size: 20,
        max_payload: 8,
        end: 0,
    };
    Journal::new(alloc, area)
}

fn append<D: Disk, A: Allocator>(
    rt: &impl Abort,
    journal: &mut Journal<A>,
    disk: &mut D,
    payload: &[u8],
) -> Result<(), AppendError> {
    assert!(rt; journal.start() + journal.size() <= disk.size());
    assert!(rt; payload.len() <= journal.max_payload());
    journal.append(disk, payload, &mut Idle)
}

fn scan<D: Disk, A: Allocator>(
    rt: &impl Abort,
    journal: &Journal<A>,
    disk: &mut D,
    at: usize,
) -> Result<Found, ScanError> {
    assert!(rt; journal.start() + journal.size() <= disk.size());
    assert!(rt; at < journal.size());
    journal.scan(disk, at)
}

#[test]
fn only_new_allocates(rt: HostRuntime) {
    let refusing = FailingAlloc::new(rt.alloc(), 0);
    assert!(rt; journal_of(&refusing).is_err());
    assert!(rt; refusing.has_refused());
    let mut journal = journal_of(&refusing).expect(&rt, "memory");
    let mut disk = disk_of(&rt, rt.alloc(), &[0; 24]);
    refusing.arm(0);
    assert!(rt; append(&rt, &mut journal, &mut disk, b"ab").is_ok());
    assert!(rt; journal.room(4));
    assert!(rt; scan(&rt, &journal, &mut disk, 0) == Ok(Found::Frame(2)));
    assert!(rt; !refusing.has_refused());
}

// A refused growth of the disk's record is a failed device call, and the append succeeds when it is repeated.
fn refuse<B: Allocator>(rt: &impl Abort, alloc: Global, refusing: &FailingAlloc<B>, served: u64) {
    refusing.arm(u64::MAX);
    let mut disk = disk_of(rt, refusing, &[0; 24]);
    let mut journal = journal_of(alloc).expect(rt, "memory");
    refusing.arm(served);
    let added = append(rt, &mut journal, &mut disk, b"ab");
    assert!(rt; added.is_err() == refusing.has_refused());
    if added.is_err() {
        assert!(rt; added == Err(AppendError::Device));
        assert!(rt; disk.failures() == 1);
        assert!(rt; append(rt, &mut journal, &mut disk, b"ab").is_ok());
    }
    assert!(rt; scan(rt, &journal, &mut disk, 0) == Ok(Found::Frame(2)));
    assert!(rt; scan(rt, &journal, &mut disk, 7) == Ok(Found::End));
}

#[test]
fn a_disk_without_memory_for_its_record_is_a_failed_device(rt: HostRuntime) {
    let refusing = FailingAlloc::new(rt.alloc(), u64::MAX);
    for served in 0..16u64 {
        refuse(&rt, rt.alloc(), &refusing, served);
    }
}

fn append_to_a_file<R: Abort + Files<File = File>>(
    rt: &R,
    alloc: Global,
    path: &str,
) -> io::Result<Journal> {
    let mut disk = FileDisk::create(rt, path, 40).expect(rt, "made");
    let mut journal = journal_of(alloc)?;
    assert!(rt; append(rt, &mut journal, &mut disk, b"ab").is_ok());
    assert!(rt; append(rt, &mut journal, &mut disk, b"").is_ok());
    Ok(journal)
}

#[test]
fn a_file_holds_frames(rt: HostRuntime) -> io::Result<()> {
    let path = "turn_journal.file";
    let journal = append_to_a_file(&rt, rt.alloc(), path)?;
    let mut disk = FileDisk::open(&rt, path).expect(&rt, "opened");
    assert!(rt; scan(&rt, &journal, &mut disk, 0) == Ok(Found::Frame(2)));
    assert!(rt; scan(&rt, &journal, &mut disk, 7) == Ok(Found::Frame(0)));
    assert!(rt; scan(&rt, &journal, &mut disk, 12) == Ok(Found::End));
    fs::remove_file(&rt, path)
}
