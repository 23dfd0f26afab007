//! Tables that have a snapshot, and open stores.

ghost use Rattle.std.specs.Prelude.{◌≡◌, ◌↔◌, IsTrue};
ghost use Rattle.turn_history.specs.Act.{act_of, event_of};
ghost use Rattle.turn_history.specs.Fitting.{Fits, IsInRange};
ghost use Rattle.turn_record.specs.Records.{Holds, Writes};
ghost use Rattle.turn_record.specs.declared.version.Version.{Version};

use std::alloc::{AllocError, Allocator, Global};
use std::marker::Model;
use turn_disk::{Disk, Idle, Meanwhile, Producer};
use turn_history::Event;
use turn_record::{
    ReadError, SnapshotWriter, Version, max_payload, read_act, read_snapshot, snapshot_size,
    write_snapshot,
};
use turn_store::{Info, Opened, Store, StoreError, StoreOpenError, WrittenAs};
use turn_table::Table;
use turn_types::Limits;

/// A table that a snapshot of a version can hold.
#[derive(Drop)]
pub struct SnapshotTable<A: Allocator = Global> {
    version: Version,
    table: Table<A>,
}

impl<A: Allocator> Model for SnapshotTable<A> {
    ghost use Rattle.turn_record.specs.Records.{Holds};
    ghost use Rattle.turn_table.specs.State.{State, state_code};

    ghost Value = { State };

    ghost coded = { state_code };

    ghost view = { λ s. s.table };

    ghost invariant = { λ s. Holds s.version s.table.contents };
}

impl<A: Allocator + Copy> SnapshotTable<A> {
    /// The table that these bytes are the snapshot of in this version.
    pub fn read(
        alloc: A,
        version: Version,
        limits: Limits,
        bytes: &[u8],
    ) -> Result<SnapshotTable<A>, ReadError> {
        let table = read_snapshot(alloc, version, limits, bytes)?;
        Ok(SnapshotTable { version, table })
    }

    /// The table.
    pub fn table(&self) -> &Table<A> {
        &self.table
    }

    /// Its snapshot, if it has the size that it is said to have.
    pub fn snapshot(&self, alloc: A) -> Result<Option<Vec<u8, A>>, AllocError> {
        let mut out = Vec::new(alloc);
        write_snapshot(&mut out, self.version, &self.table)?;
        let is_sized = out.len() == snapshot_size(self.version, &self.table);
        Ok(is_sized.then_some(out))
    }

    /// Its snapshot in pieces of at most 7 bytes, up to a thousand of them.
    pub fn pieces(&self, alloc: A) -> Result<Vec<u8, A>, AllocError> {
        let mut writer = SnapshotWriter::new(self.version, &self.table);
        let mut piece = [0; 7];
        let mut out = Vec::new(alloc);
        for _ in 0..1000 {
            let given = writer.next(&mut piece);
            out.extend_from_slice(&piece[..given])?;
        }
        Ok(out)
    }

    /// Does the act of an act entry, if it is at the table's moment and fits.
    pub fn play(&mut self, alloc: A, entry: &[u8]) -> Result<bool, ReadError> {
        let event = read_act(alloc, self.version, self.table.limits(), entry)?;
        let fits = self.table.fits(event.tuple, &event.act);
        if event.moment != self.table.moment() || !fits {
            return Ok(false);
        }
        apply(self.version, &mut self.table, event)?;
        Ok(true)
    }
}

/// Does an event that fits at the table's moment.
fn apply<A: Allocator + Copy>(
    version: Version,
    table: &mut Table<A>,
    event: Event<A>,
) -> Result<(), AllocError>
    requires holds { Holds version table.old.contents }
    requires writes { Writes version (act_of event.act) }
    requires range { IsInRange table.old.bounds (event_of event) }
    requires now { event.moment ≡ table.old.moment }
    requires fits { Fits table.old.bounds table.old.contents event.tuple (act_of event.act) }
    ensures { Holds version table.new.contents }
{
    table.reserve_for(event.tuple, &event.act)?;
    table.apply(event.tuple, event.act);
    Ok(())
}

fn are_versions_same(first: Version, second: Version) -> bool
    ensures { IsTrue result ↔ (first ≡ second) }
{
    first == second
}

fn are_same(first: Limits, second: Limits) -> bool
    ensures { IsTrue result ↔ (first ≡ second) }
{
    first == second
}

/// An open store with its version and limits, so that what its calls require can be checked.
#[derive(Drop)]
pub struct TestStore<D: Disk, A: Allocator = Global> {
    store: Store<D, A>,
    limits: Limits,
    version: Version,
}

impl<D: Disk, A: Allocator> Model for TestStore<D, A> {
    ghost use Rattle.std.specs.Prelude.{◌≡◌};
    ghost use Rattle.turn_store.specs.State.{StoreState};

    ghost Value = { StoreState D };

    ghost view = { λ s. s.store };

    ghost invariant = { λ s. (s.store.bounds ≡ s.limits) × (s.store.version ≡ s.version) };
}

impl<D: Disk, A: Allocator + Copy> TestStore<D, A> {
    /// Opens the store of a disk, and carries it over to version 2 where that is asked for. Returns its table too.
    pub fn open(
        alloc: A,
        disk: D,
        limits: Limits,
        carry: bool,
    ) -> Result<(TestStore<D, A>, SnapshotTable<A>), StoreOpenError<D>> {
        let Opened { store, table } = Store::open_as(alloc, disk, limits, carry)?;
        let version = store.info().version;
        let table = SnapshotTable { version, table };
        let store = TestStore {
            store,
            limits,
            version,
        };
        Ok((store, table))
    }

    /// Adds a batch, after which this is the table. Nothing, if the payload is too long or the table is of other limits or of
    /// another version.
    pub fn append(
        &mut self,
        payload: &[u8],
        table: &SnapshotTable<A>,
    ) -> Option<Result<WrittenAs, StoreError>> {
        self.append_beside(payload, table, &mut Idle)
    }

    /// The same, while something else is done.
    pub fn append_beside<M: Meanwhile>(
        &mut self,
        payload: &[u8],
        table: &SnapshotTable<A>,
        other: &mut M,
    ) -> Option<Result<WrittenAs, StoreError>> {
        let is_short = payload.len() <= max_payload(self.version, self.limits);
        let is_same = are_versions_same(table.version, self.version);
        if !is_short || !is_same || !are_same(table.table.limits(), self.limits) {
            return None;
        }
        Some(self.store.append(payload, &table.table, other))
    }

    /// Writes the snapshot of a table. Nothing, if it is of other limits or of another version.
    pub fn compact(&mut self, table: &SnapshotTable<A>) -> Option<Result<(), StoreError>> {
        let is_same = are_versions_same(table.version, self.version);
        if !is_same || !are_same(table.table.limits(), self.limits) {
            return None;
        }
        Some(self.store.compact(&table.table, &mut Idle))
    }

    /// What the store says of itself.
    pub fn info(&self) -> Info {
        self.store.info()
    }

    /// The disk.
    pub fn disk(&self) -> &D {
        self.store.disk()
    }

    /// The disk, once the store is closed.
    pub fn into_disk(self) -> D {
        self.store.into_disk()
    }
}
