//! What a store writes, call by call, while batches are added to it and snapshots are written.

use std::alloc::Global;
use std::cell::RefCell;
use std::io::{self, Error, ErrorKind};
use std::process::Abort;
use test_files::{FileCalls, TestFile, copy_at};
use test_stores::{SnapshotTable, TestStore, format_as};
use turn_disk::FileDisk;
use turn_record::Version;
use turn_store::{WrittenAs, least_area};
use turn_types::{Bounds, Limits};

/// The last version of a table. The first one is 0, and each batch makes the next.
const LAST: u16 = 400;

/// After so many batches the table is written as a snapshot.
const BATCHES: u16 = 4;

fn add(rt: &impl Abort, bytes: &mut Vec<u8>, more: &[u8]) {
    bytes.extend_from_slice(more).expect(rt, "memory")
}

/// The five-tuple of the allocation at a place: from 192.0.2.1:32853 and the ports after it to 192.0.2.100:3478.
fn add_tuple(rt: &impl Abort, bytes: &mut Vec<u8>, place: u16) {
    add(rt, bytes, b"\xC0\x00\x02\x01");
    add(rt, bytes, &place.wrapping_add(32853).to_be_bytes());
    add(rt, bytes, b"\xC0\x00\x02\x64\x0D\x96");
}

/// A table of allocations at second 1000. Each batch renews two of them, one in either half.
#[derive(Clone, Copy)]
pub struct Shape {
    /// How many allocations a half has.
    pub half: u8,
    /// The user of all of them, of 1 to 508 bytes.
    pub name: &'static [u8],
}

impl Shape {
    pub fn entries(self) -> u16 {
        2 * u16::from(self.half)
    }

    /// For how many seconds the allocation at a place of a version lives: 600, and as many as the number of the version with
    /// which it was renewed.
    pub fn lifetime(self, version: u16, place: u16) -> u16 {
        let half = u16::from(self.half.max(1));
        let since = (version % half + half - place % half) % half;
        600 + version.saturating_sub(since).min(3000)
    }

    fn name_bytes(self) -> u16 {
        (self.name.len() % 65536) as u16
    }

    fn limits(self, rt: &impl Abort) -> Limits {
        let bounds = Bounds {
            allocations: u32::from(self.entries()),
            permissions: 1,
            channels: 1,
            acts: 2,
            name_bytes: self.name_bytes(),
        };
        Limits::new(bounds).expect(rt, "limits")
    }

    /// The entry of a snapshot.
    fn add_entry(self, rt: &impl Abort, bytes: &mut Vec<u8>, version: u16, place: u16) {
        add_tuple(rt, bytes, place);
        add(rt, bytes, &self.name_bytes().to_be_bytes());
        add(rt, bytes, self.name);
        add(rt, bytes, &place.wrapping_add(50000).to_be_bytes());
        add(
            rt,
            bytes,
            b"\x00\x00\x02\x58\x01\x02\x03\x04\x05\x06\x07\x08\x09\x0A\x0B\x0C",
        );
        add(rt, bytes, b"\x00\x00\x00\x00\x00\x00");
        let expiry = self.lifetime(version, place).saturating_add(1000);
        add(rt, bytes, &expiry.to_be_bytes());
        add(rt, bytes, b"\x00\x00");
    }

    /// The snapshot of a version.
    fn snapshot(self, rt: &impl Abort, alloc: Global, version: u16) -> Vec<u8> {
        let mut bytes = Vec::new(alloc);
        add(rt, &mut bytes, b"\x00\x00\x00\x00\x00\x00\x03\xE8\x00\x00");
        add(rt, &mut bytes, &self.entries().to_be_bytes());
        for place in 0..self.entries() {
            self.add_entry(rt, &mut bytes, version, place);
        }
        bytes
    }

    /// A Refresh at a place.
    fn add_refresh(self, rt: &impl Abort, bytes: &mut Vec<u8>, version: u16, place: u16) {
        add(rt, bytes, b"\x02\x00\x00\x00\x00\x00\x00\x03\xE8");
        add_tuple(rt, bytes, place);
        add(rt, bytes, b"\x00\x00");
        add(rt, bytes, &self.lifetime(version, place).to_be_bytes());
    }

    /// The payload of the batch that makes a version.
    fn batch(self, rt: &impl Abort, alloc: Global, version: u16) -> Vec<u8> {
        let mut bytes = Vec::new(alloc);
        let half = u16::from(self.half.max(1));
        add(rt, &mut bytes, b"\x02");
        self.add_refresh(rt, &mut bytes, version, version % half);
        self.add_refresh(rt, &mut bytes, version, version % half + half);
        bytes
    }
}

/// A write: where, and which bytes.
#[derive(Drop)]
pub struct Call {
    pub at: usize,
    pub bytes: Vec<u8>,
}

/// The bytes of a file, and every write to it.
#[derive(Drop)]
struct Content {
    bytes: Vec<u8>,
    calls: Vec<Call>,
}

/// Writes bytes over those from a position on, if there are as many.
pub fn put_at(bytes: &mut [u8], at: usize, over: &[u8]) {
    if let Some(place) = bytes.get_mut(at..at.saturating_add(over.len()))
        && place.len() == over.len()
    {
        place.copy_from_slice(over);
    }
}

/// A file in memory that keeps every write.
#[derive(Drop)]
struct Recorder<'a> {
    alloc: Global,
    content: &'a RefCell<Content>,
}

impl FileCalls for Recorder<'_> {
    fn read(&self, buf: &mut [u8], offset: u64) -> io::Result<usize> {
        match self.content.try_borrow() {
            Ok(content) => Ok(copy_at(&content.bytes, buf, offset)),
            Err(_) => Err(Error::from(ErrorKind::Other)),
        }
    }

    fn write(&self, buf: &[u8], offset: u64) -> io::Result<usize> {
        let Ok(mut content) = self.content.try_borrow_mut() else {
            return Err(Error::from(ErrorKind::Other));
        };
        let at = offset as usize;
        put_at(&mut content.bytes, at, buf);
        let bytes = Vec::from_slice(self.alloc, buf)?;
        content.calls.push(Call { at, bytes })?;
        Ok(buf.len())
    }
}

/// An open store of version 1 over a recorder.
type Recorded<'a> = TestStore<FileDisk<TestFile<Recorder<'a>>>>;

fn table_of(rt: &impl Abort, alloc: Global, shape: Shape, version: u16) -> SnapshotTable {
    let bytes = shape.snapshot(rt, alloc, version);
    match SnapshotTable::read(alloc, Version::V1, shape.limits(rt), &bytes) {
        Ok(table) => table,
        Err(_) => panic!(rt; "a snapshot"),
    }
}

/// Writes the snapshot of a version's table.
fn compact(rt: &impl Abort, alloc: Global, store: &mut Recorded<'_>, shape: Shape, version: u16) {
    let table = table_of(rt, alloc, shape, version);
    assert!(rt; store.compact(&table) == Some(Ok(())));
}

/// Adds the batch that makes a version.
fn append(rt: &impl Abort, alloc: Global, store: &mut Recorded<'_>, shape: Shape, version: u16) {
    let table = table_of(rt, alloc, shape, version);
    let payload = shape.batch(rt, alloc, version);
    assert!(rt; store.append(&payload, &table) == Some(Ok(WrittenAs::Frame)));
}

/// A store's bytes, what is then written to it, and which version it has after each of these writes.
#[derive(Drop)]
pub struct Record {
    pub shape: Shape,
    pub first: Vec<u8>,
    pub calls: Vec<Call>,
    pub versions: Vec<u16>,
}

/// A new store over a recorder, with the first version.
fn begin<'a>(
    rt: &impl Abort,
    alloc: Global,
    content: &'a RefCell<Content>,
    shape: Shape,
    size: usize,
) -> Recorded<'a> {
    let mut disk = FileDisk::new(TestFile(Recorder { alloc, content }), size);
    let limits = shape.limits(rt);
    assert!(rt; format_as(&mut disk, Version::V1, limits) == Some(Ok(())));
    match TestStore::open(alloc, disk, limits, false) {
        Ok((mut store, _)) => {
            compact(rt, alloc, &mut store, shape, 0);
            store
        }
        Err(_) => panic!(rt; "not opened"),
    }
}

/// Forgets the writes so far, and returns the bytes.
fn restart(rt: &impl Abort, alloc: Global, content: &RefCell<Content>) -> Vec<u8> {
    match content.try_borrow_mut() {
        Ok(mut content) => {
            content.calls.clear();
            Vec::from_slice(alloc, &content.bytes).expect(rt, "memory")
        }
        Err(_) => panic!(rt; "borrowed"),
    }
}

fn count_calls(content: &RefCell<Content>) -> usize {
    match content.try_borrow() {
        Ok(content) => content.calls.len(),
        Err(_) => 0,
    }
}

/// Notes the version after each new write: the one before, and with the last of them this one.
fn note(rt: &impl Abort, calls: usize, versions: &mut Vec<u16>, before: u16, version: u16) {
    for _ in versions.len()..calls {
        versions.push(before).expect(rt, "memory");
    }
    if let Some(last) = versions.last_mut() {
        *last = version;
    }
}

/// Adds all batches, with a snapshot after each fourth, and returns the version after each write.
fn add_all(
    rt: &impl Abort,
    alloc: Global,
    content: &RefCell<Content>,
    store: &mut Recorded<'_>,
    shape: Shape,
) -> Vec<u16> {
    let mut versions = Vec::new(alloc);
    for before in 0..LAST {
        let version = before + 1;
        append(rt, alloc, store, shape, version);
        note(rt, count_calls(content), &mut versions, before, version);
        if version % BATCHES == 0 {
            compact(rt, alloc, store, shape, version);
            note(rt, count_calls(content), &mut versions, version, version);
        }
    }
    versions
}

/// What a store of this shape writes.
pub fn record_calls(rt: &impl Abort, alloc: Global, shape: Shape) -> Record {
    let area = least_area(shape.limits(rt)) + 400;
    assert!(rt; area <= 2_000_000);
    let size = 64 + 2 * area;
    let content = RefCell::new(Content {
        bytes: Vec::from_elem(alloc, 0u8, size).expect(rt, "memory"),
        calls: Vec::new(alloc),
    });
    let mut store = begin(rt, alloc, &content, shape, size);
    let first = restart(rt, alloc, &content);
    let versions = add_all(rt, alloc, &content, &mut store, shape);
    drop(store);
    let Content { bytes: _, calls } = content.into_inner();
    Record {
        shape,
        first,
        calls,
        versions,
    }
}
