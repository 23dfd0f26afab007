//! A disk in memory, and the store that is open on it.

use super::report::{Report, of_append, of_compaction, of_device, of_format, of_info, of_refusal};
use crate::scene::Scene;
use crate::words::{number, place, word};
use test_stores::{
    SnapshotTable, TestStore, format_as, read_at, read_pieces_at, write_at, write_both_at,
};
use turn_disk::{CrashOutcome, Disk, Idle, MemoryDisk};
use turn_store::{LimitsError, StoreOpenError, least_area, limits};

#[derive(Drop)]
enum State {
    Closed(MemoryDisk),
    Open(TestStore<MemoryDisk>),
}

/// A disk in memory, by itself or with the store that is open on it.
#[derive(Drop)]
pub struct Device {
    state: Option<State>,
}

impl Device {
    /// A disk with these bytes.
    pub fn new(scene: &Scene, bytes: Vec<u8>) -> Device {
        Device {
            state: Some(State::Closed(MemoryDisk::new(scene.alloc, bytes))),
        }
    }

    /// Another disk with these bytes, with its store open if it is open here.
    pub fn copy(&self, scene: &Scene, bytes: Vec<u8>) -> Option<Device> {
        let mut copy = Device::new(scene, bytes);
        if let Some(State::Open(_)) = &self.state {
            copy.open(scene, false)?;
        }
        Some(copy)
    }

    /// The disk.
    pub fn disk(&self) -> Option<&MemoryDisk> {
        match &self.state {
            Some(State::Closed(disk)) => Some(disk),
            Some(State::Open(store)) => Some(store.disk()),
            None => None,
        }
    }

    /// What the disk holds.
    pub fn content(&self, scene: &Scene) -> Option<Vec<u8>> {
        Vec::from_slice(scene.alloc, self.disk()?.content()).ok()
    }

    fn take_disk(&mut self) -> Option<MemoryDisk> {
        match self.state.take()? {
            State::Closed(disk) => Some(disk),
            State::Open(store) => Some(store.into_disk()),
        }
    }

    /// Closes the store.
    pub fn close(&mut self) -> Option<()> {
        let disk = self.take_disk()?;
        self.state = Some(State::Closed(disk));
        Some(())
    }

    /// Closes the store, and crashes the disk.
    pub fn crash(&mut self, outcome: CrashOutcome) -> Option<()> {
        let mut disk = self.take_disk()?;
        disk.crash(outcome);
        self.state = Some(State::Closed(disk));
        Some(())
    }

    /// The device call of this number from here on fails.
    pub fn fail_call(&self, call: u64) -> Option<()> {
        let disk = self.disk()?;
        if 0 < call {
            disk.fail_call(call);
        }
        Some(())
    }

    /// The device call of this number from here on fails, and all later ones.
    pub fn stop_at(&self, call: u64) -> Option<()> {
        let disk = self.disk()?;
        if 0 < call {
            disk.stop_at(call);
        }
        Some(())
    }

    fn write(&mut self, scene: &Scene, text: &[u8]) -> Option<Report> {
        let (at, words) = place(text)?;
        let bytes = scene.bytes(words)?;
        let mut disk = self.take_disk()?;
        let outcome = write_at(&mut disk, at, &bytes);
        self.state = Some(State::Closed(disk));
        of_device(scene.alloc, outcome?)
    }

    fn read(&mut self, scene: &Scene, text: &[u8], in_pieces: bool) -> Option<Report> {
        let (at, rest) = place(text)?;
        let (size, _) = place(rest)?;
        let mut buffer = Vec::from_elem(scene.alloc, 0u8, size).ok()?;
        let mut disk = self.take_disk()?;
        let outcome = if in_pieces {
            read_pieces_at(&mut disk, at, &mut buffer)
        } else {
            read_at(&mut disk, at, &mut buffer)
        };
        self.state = Some(State::Closed(disk));
        match outcome? {
            Ok(()) => Some(Report::Bytes(buffer)),
            Err(fault) => of_device(scene.alloc, Err(fault)),
        }
    }

    /// Writes the bytes of two words in pieces, and syncs.
    fn produce(&mut self, scene: &Scene, text: &[u8]) -> Option<Report> {
        let (at, rest) = place(text)?;
        let (first, second) = word(rest);
        let (first, second) = (scene.bytes(first)?, scene.bytes(second)?);
        let mut disk = self.take_disk()?;
        let outcome = write_both_at(&mut disk, at, &first, &second);
        self.state = Some(State::Closed(disk));
        of_device(scene.alloc, outcome?)
    }

    fn sync(&mut self, scene: &Scene) -> Option<Report> {
        let mut disk = self.take_disk()?;
        let outcome = disk.sync(&mut Idle);
        self.state = Some(State::Closed(disk));
        of_device(scene.alloc, outcome)
    }

    fn format(&mut self, scene: &Scene) -> Option<Report> {
        let mut disk = self.take_disk()?;
        let outcome = format_as(&mut disk, scene.version, scene.limits);
        self.state = Some(State::Closed(disk));
        of_format(scene.alloc, outcome?)
    }

    fn open(&mut self, scene: &Scene, carry: bool) -> Option<Report> {
        let disk = self.take_disk()?;
        match TestStore::open(scene.alloc, disk, scene.limits, carry) {
            Ok((store, table)) => {
                self.state = Some(State::Open(store));
                Some(Report::Bytes(table.snapshot(scene.alloc).ok()??))
            }
            Err(StoreOpenError { fault, disk }) => {
                self.state = Some(State::Closed(disk));
                of_refusal(scene.alloc, fault)
            }
        }
    }

    fn append(&mut self, scene: &Scene, payload: &[u8], table: &[u8]) -> Option<Report> {
        let Some(State::Open(store)) = &mut self.state else {
            return None;
        };
        let (version, limits) = (store.info().version, scene.limits);
        let table = SnapshotTable::read(scene.alloc, version, limits, table).ok()?;
        of_append(scene.alloc, store.append(payload, &table)?)
    }

    fn compact(&mut self, scene: &Scene, table: &[u8]) -> Option<Report> {
        let Some(State::Open(store)) = &mut self.state else {
            return None;
        };
        let (version, limits) = (store.info().version, scene.limits);
        let table = SnapshotTable::read(scene.alloc, version, limits, table).ok()?;
        of_compaction(scene.alloc, store.compact(&table)?)
    }

    fn info(&self, scene: &Scene) -> Option<Report> {
        match &self.state {
            Some(State::Open(store)) => of_info(scene.alloc, store.info()),
            _ => None,
        }
    }

    /// The longest name of the limits in the superblock.
    fn name_bytes(&mut self, scene: &Scene) -> Option<Report> {
        let mut disk = self.take_disk()?;
        let outcome = limits(&mut disk);
        self.state = Some(State::Closed(disk));
        match outcome {
            Ok(limits) => {
                let name_bytes = limits.name_bytes();
                Some(Report::Text(format!(in scene.alloc; "{name_bytes}").ok()?))
            }
            Err(LimitsError::Device) => Report::text(scene.alloc, "device"),
            Err(LimitsError::NotAStore) => Report::text(scene.alloc, "no_store"),
        }
    }

    fn has(&self, scene: &Scene, text: &[u8]) -> Option<Report> {
        let (at, words) = place(text)?;
        let bytes = scene.bytes(words)?;
        let is_there = self.disk()?.content().get(at..)?.starts_with(&bytes);
        Report::text(scene.alloc, if is_there { "yes" } else { "no" })
    }

    fn number(scene: &Scene, number: u64) -> Option<Report> {
        Some(Report::Text(format!(in scene.alloc; "{number}").ok()?))
    }

    /// Makes a call, and returns what comes of it. Nothing, if it can't be read or can't be made.
    pub fn call(&mut self, scene: &Scene, text: &[u8]) -> Option<Report> {
        let (name, rest) = word(text);
        match name {
            b"write" => self.write(scene, rest),
            b"read" => self.read(scene, rest, false),
            b"pieces" => self.read(scene, rest, true),
            b"produce" => self.produce(scene, rest),
            b"sync" => self.sync(scene),
            b"format" => self.format(scene),
            b"open" => self.open(scene, false),
            b"carry" => self.open(scene, true),
            b"append" => {
                let (payload, table) = word(rest);
                self.append(scene, &scene.bytes(payload)?, &scene.bytes(table)?)
            }
            b"compact" => self.compact(scene, &scene.bytes(rest)?),
            b"info" => self.info(scene),
            b"name_bytes" => self.name_bytes(scene),
            b"has" => self.has(scene, rest),
            b"size" => Device::number(scene, u64::try_from(self.disk()?.size()).ok()?),
            b"failures" => Device::number(scene, self.disk()?.failures()),
            b"least_area" => Device::number(scene, u64::try_from(least_area(scene.limits)).ok()?),
            _ => None,
        }
    }
}

/// A number of a device call, and what follows it.
pub fn call_number(text: &[u8]) -> Option<(u64, &[u8])> {
    let (first, rest) = word(text);
    Some((number(first)?, rest))
}
