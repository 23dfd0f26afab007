//! A store over a file, and a table that it can hold.

use std::alloc::Global;
use std::io;
use std::marker::Model;
use turn_disk::{FileDisk, Idle};
use turn_record::{Version, max_payload, read_snapshot};
use turn_store::{Opened, Store, WrittenAs, format, format_version1};
use turn_table::Table;
use turn_types::Limits;

/// The size of an area: above the min size under the max limits, and with room for a snapshot of the full table and for the
/// frames after it.
const AREA: usize = 2_000_000;

/// A store over a file, and a table that has a snapshot of the store's version under its limits.
#[derive(Drop)]
pub struct Stored {
    store: Store<FileDisk>,
    table: Table,
}

impl Model for Stored {
    ghost use Rattle.std.specs.Prelude.{◌≡◌};
    ghost use Rattle.turn_record.specs.Records.{Holds};
    ghost use Rattle.turn_table.specs.State.{State, state_code};

    ghost Value = { State };

    ghost coded = { state_code };

    ghost view = { λ s. s.table };

    ghost invariant = { λ s. (s.table.bounds ≡ s.store.bounds)
        × Holds s.store.version s.table.contents };
}

impl Stored {
    /// Opens a store of the max limits, with the table that it holds, and carries it over to version 2 where that is asked for.
    pub fn open(alloc: Global, disk: FileDisk, carry: bool) -> Option<Stored> {
        match Store::open_as(alloc, disk, Limits::MAX, carry) {
            Ok(opened) => {
                let Opened { store, table } = opened;
                Some(Stored { store, table })
            }
            Err(_) => None,
        }
    }

    /// Takes the table of a snapshot of the store's version in place of its own, which the store holds until it is compacted.
    fn with_table(self, alloc: Global, bytes: &[u8]) -> Option<Stored> {
        let Stored { store, table } = self;
        match read_snapshot(alloc, store.info().version, table.limits(), bytes) {
            Ok(table) => Some(Stored { store, table }),
            Err(_) => None,
        }
    }

    /// Makes a store of this version and the max limits over a file that is made anew, with the table of a snapshot of the version.
    pub fn make(
        rt: &HostRuntime,
        path: &str,
        version: Version,
        bytes: &[u8],
    ) -> io::Result<Option<Stored>> {
        let mut disk = FileDisk::create(rt, path, 64 + 2 * AREA)?;
        let outcome = match version {
            Version::V1 => format_version1(&mut disk, Limits::MAX, AREA),
            Version::V2 => format(&mut disk, Limits::MAX, AREA),
        };
        if outcome.is_err() {
            return Ok(None);
        }
        match Stored::open(rt.alloc(), disk, false) {
            Some(stored) => Ok(stored.with_table(rt.alloc(), bytes)),
            None => Ok(None),
        }
    }

    /// Writes a snapshot of the table, and returns whether the store did.
    pub fn compact(&mut self) -> bool {
        match self.store.compact(&self.table, &mut Idle) {
            Ok(()) => true,
            Err(_) => false,
        }
    }

    /// Adds a frame, and returns whether the store did.
    pub fn append(&mut self, payload: &[u8]) -> bool {
        if max_payload(self.store.info().version, self.table.limits()) < payload.len() {
            return false;
        }
        match self.store.append(payload, &self.table, &mut Idle) {
            Ok(WrittenAs::Frame) => true,
            Ok(WrittenAs::Snapshot) => false,
            Err(_) => false,
        }
    }

    /// Whether the store is of this version, the table has so many entries, and the log so many frames.
    pub fn has(&self, version: Version, entries: usize, frames: usize) -> bool {
        let info = self.store.info();
        info.version == version && self.table.len() == entries && info.frames == frames
    }

    /// The disk of the store.
    pub fn into_disk(self) -> FileDisk {
        self.store.into_disk()
    }
}
