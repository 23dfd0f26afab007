//! A store: the active area, and the other one.

ghost use Rattle.std.specs.Prelude.{◌≡◌, ◌≢◌, ◌⊎◌, [], ◌∷◌, ◌++◌, ◌+◌, ◌-◌, ◌≤◌, ◌<◌, ◌^◌, ◌↔◌, ℕ, List, true, false, Some, Ok, Err, length, IsTrue, IfOk, IfErr, OnOk, OnErr, IsErr, IsErrAnd};
ghost use Rattle.turn_disk.specs.Device.{Uses};
ghost use Rattle.turn_history.specs.History.{Event, History};
ghost use Rattle.turn_history.specs.Table as tables;
ghost use Rattle.turn_record.specs.Bytes as bytes;
ghost use Rattle.turn_record.specs.Records as records;
ghost use Rattle.turn_record.specs.Records.{IsSnapshot, max_payload};
ghost use Rattle.turn_record.specs.declared.version.Version.{Version};
ghost use Rattle.turn_record.specs.declared.version.Version.TheVariants.{V1, V2};
ghost use Rattle.turn_disk.specs.Disk.{EachImageSince, IsImage, IsSettled};
ghost use Rattle.turn_disk.specs.Meanwhile.{Passes};
ghost use Rattle.turn_journal.specs.Area.{end_of};
ghost use Rattle.turn_journal.specs.Layout.{frame_room, gate_size};
ghost use Rattle.turn_store.specs.Areas.{Form, Holds, RecoversToParts};
ghost use Rattle.turn_store.specs.Carrying.{Carries, IsCarried};
ghost use Rattle.turn_store.specs.Images.{EitherBy, IsInVersion, IsInVersionOr2, RepresentsBy, RepresentsAt};
ghost use Rattle.turn_store.specs.Layout.{head_size};
ghost use Rattle.turn_store.specs.Opened.{OpensTo};
ghost use Rattle.turn_store.specs.Opening.{Opening, disk_of};
ghost use Rattle.turn_store.specs.Refused.{IsPlain, WhyRefused};
ghost use Rattle.turn_store.specs.Encodes.{HasSize};
ghost use Rattle.turn_store.specs.Stages.{InStages, InStagesAt, Replaces};
ghost use Rattle.turn_store.specs.State.{CompactsFor, MayFollow, RecoversToAt, Shows, carried, carried_area, form_of, framed, swapped};
ghost use Rattle.turn_store.specs.Superblock.{least_area};
ghost use Rattle.turn_store.specs.Tables.{IsTableIn, encoded, snapshot_of};
ghost use Rattle.turn_store.specs.Writes.{IsCommit, IsStep, IsWrite};
ghost use Rattle.turn_types.specs.declared.limits.Bounds.{Bounds};

use crate::areas::replace;
use crate::error::{OpenError, StoreError};
use crate::front::area_head;
use crate::layout::HEAD_SIZE;
use crate::open::{Chosen, Loaded, load};
use crate::superblock::least_area;
use std::alloc::{AllocError, Allocator, Global};
use std::marker::Model;
use turn_disk::{Bytes, Chain, DeviceError, Disk, Idle, Meanwhile};
use turn_journal::{AppendError, Area, CLOSED, Journal};
use turn_record::{SnapshotWriter, Version, max_payload, snapshot_size};
use turn_table::Table;
use turn_types::Limits;

// What is written into an area: the version, the generation, and the size of the snapshot.
#[derive(Clone, Copy)]
struct Next {
    version: Version,
    generation: u64,
    size: usize,
}

// Writes the snapshot of a table into the other area, which has this gate and then is active.
fn write_snapshot<D: Disk, A: Allocator + Copy, M: Meanwhile>(
    disk: &mut D,
    gate: usize,
    is_below: bool,
    next: Next,
    table: &Table<A>,
    other: &mut M,
) -> Result<(), DeviceError>
    requires holds { records.Holds next.version table.now.contents }
    requires value { next.size ≡ length (encoded next.version table.now) }
    requires small { next.size < 2 ^ 32 }
    requires place { gate + (head_size + gate_size) + next.size ≤ D.capacity disk.old }
    requires addressable { D.capacity disk.old < 2 ^ 64 }
    ensures { IsStep D.Disk M.passes disk.old disk.new other.old other.new result (λ old new.
        (v : Version) (form : Form) (start generation end : ℕ) (s : List ℕ) (ps : List (List ℕ))
        → next.generation ≡ generation + 1 → next.generation < 2 ^ 64
        → least_area next.version form.bounds ≤ form.area → head_size + next.size < form.area
        → RecoversToParts v form start gate generation end is_below s ps old.now
        → Replaces v next.version form start gate generation s (encoded next.version table.now) ps old new result) }
{
    let head = area_head(next.version, next.generation, next.size as u32);
    let mut front = Chain {
        first: Bytes::new(&head),
        second: Chain {
            first: SnapshotWriter::new(next.version, table),
            second: Bytes::new(&[CLOSED]),
        },
    };
    replace(disk, gate, is_below, &mut front, other)
}

/// A snapshot of a table, and a log of the batches after it, on a disk.
pub struct Store<D: Disk, A: Allocator = Global> {
    disk: D,
    limits: Limits,
    // Of the active area.
    version: Version,
    journal: Journal<A>,
    // Where the other area begins.
    other: usize,
    generation: u64,
    // How many frames the active area has.
    frames: usize,
    // Whether the generation of the other area is below.
    other_is_below: bool,
    stopped: bool,
}

// By hand: a derived drop is one step for each field in the proof of each caller.
impl<D: Disk + Drop, A: Allocator> Drop for Store<D, A> {
    fn drop(self) {
        let _ = self.into_disk();
    }
}

impl<D: Disk, A: Allocator> Model for Store<D, A> {
    ghost use Rattle.turn_store.specs.State.{StoreState, IsSound};

    ghost Value = { StoreState D };

    ghost view = { λ s. record {
      disk = s.disk;
      bounds = s.limits;
      version = s.version;
      area = s.journal;
      other = s.other;
      generation = s.generation;
      frames = s.frames;
      other_is_below = s.other_is_below;
      stopped = s.stopped;
    } };

    ghost invariant = { λ s. IsSound (D.capacity s.disk) s.version s.limits s.journal s.other s.frames };
}

impl<D: Disk, A: Allocator> Store<D, A> {
    /// The disk, as it is.
    pub fn into_disk(self) -> D
        ensures { result ≡ self.disk }
    {
        let Store {
            disk,
            limits: _,
            version: _,
            journal: _,
            other: _,
            generation: _,
            frames: _,
            other_is_below: _,
            stopped: _,
        } = self;
        disk
    }
}

/// The version and the generation of the active area, and how many frames it has.
#[derive(Clone, Copy, Debug, PartialEq, Eq)]
pub struct Info {
    /// The version of the records.
    pub version: Version,
    /// 1 after `format`; each snapshot raises it by one, up to 2^64 - 1.
    pub generation: u64,
    /// How many batches there are after the snapshot.
    pub frames: usize,
}

/// How a batch is written.
#[derive(Clone, Copy, Debug, PartialEq, Eq)]
pub enum WrittenAs {
    /// As a frame after the last one.
    Frame,
    /// With the table before it, as a snapshot in the other area, which then is active.
    Snapshot,
}

impl<D: Disk, A: Allocator + Copy> Store<D, A> {
    /// The version and the generation of the active area, and how many frames it has.
    pub fn info(&self) -> Info
        ensures version { result.version ≡ self.now.version }
        ensures generation { result.generation ≡ self.now.generation }
        ensures frames { result.frames ≡ self.now.frames }
    {
        Info {
            version: self.version,
            generation: self.generation,
            frames: self.frames,
        }
    }

    /// Whether a call failed, so that all later ones are refused.
    pub fn is_stopped(&self) -> bool
        ensures { result ≡ self.now.stopped }
    {
        self.stopped
    }

    /// The disk of the store.
    pub fn disk(&self) -> &D
        ensures { result.now ≡ self.now.disk }
    {
        &self.disk
    }

    // How a batch with a payload of so many bytes is written: as a frame, if one fits after the last one.
    fn written_as(&self, count: usize) -> WrittenAs
        ensures { (result ≡ WrittenAs.Snapshot) ↔ CompactsFor self.now count }
    {
        if self.journal.room(count) {
            WrittenAs::Frame
        } else {
            WrittenAs::Snapshot
        }
    }

    // Why a call that writes so is refused before it reaches the disk, if it is.
    fn refusal(&self, written: WrittenAs) -> Option<StoreError>
        ensures stopped { (result ≡ Some StoreError.Stopped) ↔ (self.now.stopped ≡ true) }
        ensures worn { (result ≡ Some StoreError.Worn)
            ↔ ((self.now.stopped ≡ false) × (written ≡ WrittenAs.Snapshot) × (self.now.generation ≡ 2 ^ 64 - 1)) }
        ensures device { result ≢ Some StoreError.Device }
    {
        if self.stopped {
            return Some(StoreError::Stopped);
        }
        if written == WrittenAs::Snapshot && self.generation == u64::MAX {
            return Some(StoreError::Worn);
        }
        None
    }

    // Adds a frame, for which there is room.
    fn add_frame<M: Meanwhile>(&mut self, payload: &[u8], other: &mut M) -> Result<(), DeviceError>
        requires runs { self.old.stopped ≡ false }
        requires short { length payload.now ≤ max_payload self.old.version self.old.bounds }
        requires room { self.old.area.end + frame_room + length payload.now ≤ self.old.area.size }

        // The gate is that at the log's end.
        ensures writes { IsWrite D.Disk (end_of self.old.area) (framed self.old (length payload.now))
            (λ s. s) (λ ps. ps ++ payload.now ∷ []) self.old self.new result }
        ensures meanwhile { Passes M.passes other.old other.new }
    {
        self.stopped = true;
        match self.journal.append(&mut self.disk, payload, other) {
            Ok(()) => {
                self.frames += 1;
                self.stopped = false;
                Ok(())
            }
            Err(_) => Err(DeviceError),
        }
    }

    // The size of the table's snapshot in a version for which an area has room.
    fn next_size(&self, version: Version, table: &Table<A>) -> usize
        requires table { IsTableIn version self.now.bounds table.now }
        requires area { least_area version self.now.bounds ≤ self.now.area.size }
        ensures value { result ≡ length (encoded version table.now) }
        ensures snapshot { IsSnapshot version table.now.bounds table.now.moment table.now.contents }
        ensures small { result < 2 ^ 32 }
        ensures room { head_size + result < self.now.area.size }
        ensures within { self.now.other + (head_size + gate_size) + result ≤ D.capacity self.now.disk }
        ensures addressable { D.capacity self.now.disk < 2 ^ 64 }
    {
        // For the proof: the areas are within the disk.
        let _area = self.journal.size();
        snapshot_size(version, table)
    }

    // Where the next snapshot is written: the area that isn't active.
    fn next_area(&self) -> usize
        ensures { result ≡ self.now.other }
    {
        let next = self.other;
        next
    }

    // Writes a snapshot of the table into the other area, which then is active.
    fn replace_snapshot<M: Meanwhile>(
        &mut self,
        table: &Table<A>,
        other: &mut M,
    ) -> Result<(), DeviceError>
        requires runs { self.old.stopped ≡ false }
        requires generation { self.old.generation < 2 ^ 64 - 1 }
        requires table { IsTableIn self.old.version self.old.bounds table.now }

        // The gate is that of the other area.
        ensures writes { IsWrite D.Disk self.old.other (swapped self.old (length (encoded self.old.version table.now)))
            (λ _. encoded self.old.version table.now) (λ _. []) self.old self.new result }
        ensures meanwhile { Passes M.passes other.old other.new }
    {
        self.stopped = true;
        let version = self.version;
        let size = self.next_size(version, table);
        let generation = self.generation + 1;
        let next = Next {
            version,
            generation,
            size,
        };
        let area = self.next_area();
        write_snapshot(
            &mut self.disk,
            area,
            self.other_is_below,
            next,
            table,
            other,
        )?;
        let start = self.journal.start();
        self.journal.move_to(area, HEAD_SIZE + size);
        self.other = start;
        self.generation = generation;
        self.frames = 0;
        self.other_is_below = true;
        self.stopped = false;
        Ok(())
    }

    /// Adds a batch of events: a frame with their payload if one fits after the last one, and else a snapshot of the
    /// table, which has the batch, in the other area. Returns which it was. It takes no memory.
    pub fn append<M: Meanwhile>(
        &mut self,
        payload: &[u8],
        table: &Table<A>,
        other: &mut M,
    ) -> Result<WrittenAs, StoreError>
        requires short { length payload.now ≤ max_payload self.old.version self.old.bounds }
        requires table { IsTableIn self.old.version self.old.bounds table.now }

        ensures framed { result ≡ Ok WrittenAs.Frame → self.new ≡ framed self.old (length payload.now) self.new.disk }
        ensures compacted { result ≡ Ok WrittenAs.Snapshot
            → self.new ≡ swapped self.old (length (encoded self.old.version table.now)) self.new.disk }
        ensures compacts { IfOk result (λ written. (written ≡ WrittenAs.Snapshot)
            ↔ CompactsFor self.old (length payload.now)) }

        // It is worn where a snapshot is to be written after the last generation.
        ensures commits { IsCommit D.Disk M.passes ((self.old.generation ≡ 2 ^ 64 - 1) × CompactsFor self.old (length payload.now))
            self.old self.new other.old other.new result }

        // Up to some moment a stop leaves the history from before at its clock; from then on the history from before, or with
        // the batch, at a moment that is at most the table's, and one gate alone is written, at most once.
        ensures stages { D.follows_crash_model self.new.disk → (c : ℕ) (h : History) (es : List Event)
            → RecoversToAt self.old (D.trace self.old.disk).now c h → MayFollow self.old.bounds c h es table.now.moment
            → HasSize self.old.version self.old.bounds es → payload.now ≡ bytes.payload es
            → table.now.contents ≡ tables.table (h ++ es) table.now.moment
            → InStages (D.trace self.old.disk) (D.trace self.new.disk)
            (RepresentsAt (form_of self.old) h c) (EitherBy (form_of self.old) h es table.now.moment) }

        ensures done { D.follows_crash_model self.new.disk → (c : ℕ) (h : History) (es : List Event)
            → RecoversToAt self.old (D.trace self.old.disk).now c h → MayFollow self.old.bounds c h es table.now.moment
            → HasSize self.old.version self.old.bounds es → payload.now ≡ bytes.payload es
            → table.now.contents ≡ tables.table (h ++ es) table.now.moment
            → OnOk result ((d : ℕ) × (d ≤ table.now.moment)
            × RecoversToAt self.new (D.trace self.new.disk).now d (h ++ es)) }

        // What the active area holds after Ok: one frame more, or the new snapshot alone.
        ensures shown_frame { D.follows_crash_model self.new.disk → (s : List ℕ) (ps : List (List ℕ))
            → Shows self.old (D.trace self.old.disk).now s ps → result ≡ Ok WrittenAs.Frame
            → Shows self.new (D.trace self.new.disk).now s (ps ++ payload.now ∷ []) }
        ensures shown_snapshot { D.follows_crash_model self.new.disk → (s : List ℕ) (ps : List (List ℕ))
            → Shows self.old (D.trace self.old.disk).now s ps → result ≡ Ok WrittenAs.Snapshot
            → Shows self.new (D.trace self.new.disk).now (encoded self.old.version table.now) [] }
    {
        let written = self.written_as(payload.len());
        if let Some(fault) = self.refusal(written) {
            self.stopped = true;
            return Err(fault);
        }
        match written {
            WrittenAs::Frame => self.add_frame(payload, other)?,
            WrittenAs::Snapshot => self.replace_snapshot(table, other)?,
        }
        Ok(written)
    }

    /// Writes a snapshot of the table into the other area, which then is active. It takes no memory.
    pub fn compact<M: Meanwhile>(
        &mut self,
        table: &Table<A>,
        other: &mut M,
    ) -> Result<(), StoreError>
        requires table { IsTableIn self.old.version self.old.bounds table.now }

        ensures compacted { OnOk result (self.new ≡ swapped self.old (length (encoded self.old.version table.now)) self.new.disk) }

        ensures commits { IsCommit D.Disk M.passes (self.old.generation ≡ 2 ^ 64 - 1) self.old self.new other.old other.new result }

        // Up to some moment a stop leaves the history at its clock; from then on at a moment that is at most the table's,
        // and the gate of the other area alone is written, at most once.
        ensures stages { D.follows_crash_model self.new.disk → (c : ℕ) (h : History)
            → RecoversToAt self.old (D.trace self.old.disk).now c h → MayFollow self.old.bounds c h [] table.now.moment
            → table.now.contents ≡ tables.table h table.now.moment
            → InStagesAt self.old.other (D.trace self.old.disk) (D.trace self.new.disk)
            (RepresentsAt (form_of self.old) h c) (RepresentsBy (form_of self.old) h table.now.moment) }

        ensures done { D.follows_crash_model self.new.disk → (c : ℕ) (h : History)
            → RecoversToAt self.old (D.trace self.old.disk).now c h → MayFollow self.old.bounds c h [] table.now.moment
            → table.now.contents ≡ tables.table h table.now.moment
            → OnOk result (RecoversToAt self.new (D.trace self.new.disk).now table.now.moment h) }

        // What the active area holds after Ok: the new snapshot alone.
        ensures shown { D.follows_crash_model self.new.disk → (s : List ℕ) (ps : List (List ℕ))
            → Shows self.old (D.trace self.old.disk).now s ps
            → OnOk result (Shows self.new (D.trace self.new.disk).now (encoded self.old.version table.now) []) }
    {
        if let Some(fault) = self.refusal(WrittenAs::Snapshot) {
            self.stopped = true;
            return Err(fault);
        }
        self.replace_snapshot(table, other)?;
        Ok(())
    }
}

/// A store that was opened, and the table that it holds, at the latest moment that is written.
#[derive(Drop)]
pub struct Opened<D: Disk, A: Allocator = Global> {
    /// The store, to which batches can be added.
    pub store: Store<D, A>,
    /// The table that it holds.
    pub table: Table<A>,
}

/// A disk that was not opened, and why.
#[derive(Drop)]
pub struct StoreOpenError<D: Disk> {
    /// Why it was not opened.
    pub fault: OpenError,
    /// The disk, after the device calls that were made.
    pub disk: D,
}

impl<D: Disk, A: Allocator + Copy> Store<D, A> {
    // Whether the store can be carried over to version 2.
    fn can_be_carried(&self) -> bool
        ensures { IsTrue result ↔ IsCarried true self.now.area.size self.now.bounds self.now.version self.now.generation }
    {
        self.version == Version::V1
            && least_area(self.limits) <= self.journal.size()
            && self.generation < u64::MAX
    }

    // The journal of the other area, of version 2, after a snapshot of so many bytes.
    fn next_journal(&self, alloc: A, size: usize) -> Result<Journal<A>, AllocError>
        requires room { head_size + size < self.now.area.size }
        ensures { IfOk result (λ journal. journal ≡ carried_area self.now size) }
    {
        let area = Area {
            start: self.other,
            size: self.journal.size(),
            max_payload: max_payload(Version::V2, self.limits),
            end: HEAD_SIZE + size,
        };
        Journal::new(alloc, area)
    }

    // Writes a snapshot of the table, as version 2, into the other area, which then is active, with this journal.
    fn carry(
        &mut self,
        journal: Journal<A>,
        table: &Table<A>,
        size: usize,
    ) -> Result<(), DeviceError>
        requires runs { self.old.stopped ≡ false }
        requires generation { self.old.generation < 2 ^ 64 - 1 }
        requires area { least_area V2 self.old.bounds ≤ self.old.area.size }
        requires value { size ≡ length (encoded V2 table.now) }
        requires small { size < 2 ^ 32 }
        requires room { head_size + size < self.old.area.size }
        requires within { self.old.other + (head_size + gate_size) + size ≤ D.capacity self.old.disk }
        requires journal { journal ≡ carried_area self.old size }

        // The gate is that of the other area.
        ensures { IsWrite D.Disk self.old.other (carried self.old (carried_area self.old size))
            (λ _. encoded V2 table.now) (λ _. []) self.old self.new result }
    {
        self.stopped = true;
        let generation = self.generation + 1;
        let over = Next {
            version: Version::V2,
            generation,
            size,
        };
        let area = self.next_area();
        write_snapshot(
            &mut self.disk,
            area,
            self.other_is_below,
            over,
            table,
            &mut Idle,
        )?;
        self.other = self.journal.start();
        self.journal = journal;
        self.version = Version::V2;
        self.generation = over.generation;
        self.frames = 0;
        self.other_is_below = true;
        self.stopped = false;
        Ok(())
    }
}

// Writes the table of an opened store as a snapshot of version 2 into the other area, which then is active. What takes memory comes
// before the first write.
fn carry_table<D: Disk, A: Allocator + Copy>(
    alloc: A,
    opened: Opened<D, A>,
) -> Result<Opened<D, A>, StoreOpenError<D>>
    requires limits { opened.table.bounds ≡ opened.store.bounds }
    requires runs { opened.store.stopped ≡ false }
    requires generation { opened.store.generation < 2 ^ 64 - 1 }
    requires area { least_area V2 opened.store.bounds ≤ opened.store.area.size }

    ensures uses { Uses D.Disk opened.store.disk (disk_of result) (IsErrAnd result (λ r. r.fault ≡ OpenError.Device)) }
    ensures plain { IfErr result (λ r. IsPlain r.fault) }
    ensures untouched { IfErr result (λ r. r.fault ≢ OpenError.Device → r.disk ≡ opened.store.disk) }
    ensures snapshot { IsSnapshot V2 opened.table.bounds opened.table.moment opened.table.contents }
    ensures table { IfOk result (λ o. o.table ≡ opened.table) }
    ensures store { IfOk result (λ o. o.store ≡ carried opened.store
        (carried_area opened.store (length (encoded V2 opened.table))) o.store.disk) }
    ensures shown { IfOk result (λ o. D.follows_crash_model o.store.disk → (s : List ℕ) (ps : List (List ℕ))
        → Shows opened.store (D.trace opened.store.disk).now s ps
        → Shows o.store (D.trace o.store.disk).now (encoded V2 opened.table) []) }

    // A stop at any moment leaves the history that was opened.
    ensures stop { D.follows_crash_model (disk_of result) → (form : Form) (h : History) (clock : ℕ)
        → OpensTo form h clock opened.store (D.trace opened.store.disk).now (snapshot_of opened.table)
        → EachImageSince (D.trace opened.store.disk) (D.trace (disk_of result)) (RepresentsBy form h clock) }
    ensures version { D.follows_crash_model (disk_of result) → (s : List ℕ) (ps : List (List ℕ))
        → Shows opened.store (D.trace opened.store.disk).now s ps
        → EachImageSince (D.trace opened.store.disk) (D.trace (disk_of result))
        (IsInVersionOr2 opened.store.version (form_of opened.store)) }
    ensures recovers { IfOk result (λ o. D.follows_crash_model o.store.disk → (form : Form) (h : History) (clock : ℕ)
        → OpensTo form h clock opened.store (D.trace opened.store.disk).now (snapshot_of opened.table)
        → OpensTo form h clock o.store (D.trace o.store.disk).now (snapshot_of o.table)) }
{
    let Opened { mut store, table } = opened;
    let size = store.next_size(Version::V2, &table);
    let Ok(journal) = store.next_journal(alloc, size) else {
        return Err(StoreOpenError {
            fault: OpenError::Memory,
            disk: store.into_disk(),
        });
    };
    match store.carry(journal, &table, size) {
        Ok(()) => Ok(Opened { store, table }),
        Err(_) => Err(StoreOpenError {
            fault: OpenError::Device,
            disk: store.into_disk(),
        }),
    }
}

impl<D: Disk, A: Allocator + Copy> Opened<D, A> {
    /// Carries the store over to version 2 if it can be: the table of a store of version 1 is written as version 2 into the other area,
    /// which then is active, if the areas are large enough and the store isn't worn. A refusal returns the disk, which can be opened again.
    pub fn carry_over(self, alloc: A) -> Result<Opened<D, A>, StoreOpenError<D>>
        requires limits { self.table.bounds ≡ self.store.bounds }
        requires holds { records.Holds self.store.version self.table.contents }
        requires runs { self.store.stopped ≡ false }

        // Of an opening that leaves the content it makes one that carries over.
        ensures opens { (old : D) (limits : Bounds) → Opening D.Disk old limits false (Ok self) → Opening D.Disk old limits true result }

        ensures table { IfOk result (λ o. o.table ≡ self.table) }
        ensures crash_model { D.follows_crash_model (disk_of result) → D.follows_crash_model self.store.disk }

        // A store that isn't of version 1 stays as it is.
        ensures kept { (self.store.version ≡ V1 → ⊥) → result ≡ Ok self }
    {
        if !self.store.can_be_carried() {
            return Ok(self);
        }
        carry_table(alloc, self)
    }
}

impl<D: Disk, A: Allocator + Copy> Store<D, A> {
    /// Opens the store of a disk, which was formatted with these limits, and changes none of its bytes. It syncs, and reads in device
    /// calls of at most 4,096 bytes. A refusal returns the disk, which can be opened again.
    pub fn open_unchanged(
        alloc: A,
        disk: D,
        limits: Limits,
    ) -> Result<Opened<D, A>, StoreOpenError<D>>
        ensures { Opening D.Disk disk limits false result }
    {
        let mut disk = disk;
        match load(alloc, &mut disk, limits) {
            Ok(chosen) => {
                let Chosen {
                    loaded,
                    other,
                    generation,
                    other_is_below,
                } = chosen;
                let Loaded {
                    version,
                    journal,
                    table,
                    frames,
                } = loaded;
                let store = Store {
                    disk,
                    limits,
                    version,
                    journal,
                    other,
                    generation,
                    frames,
                    other_is_below,
                    stopped: false,
                };
                Ok(Opened { store, table })
            }
            Err(fault) => Err(StoreOpenError { fault, disk }),
        }
    }

    /// Opens the store of a disk as `open_unchanged` does, and where `carry` is set carries it over as `Opened::carry_over` does.
    pub fn open_as(
        alloc: A,
        disk: D,
        limits: Limits,
        carry: bool,
    ) -> Result<Opened<D, A>, StoreOpenError<D>>
        ensures { Opening D.Disk disk limits carry result }
    {
        let opened = Store::open_unchanged(alloc, disk, limits)?;
        if !carry {
            return Ok(opened);
        }
        opened.carry_over(alloc)
    }

    /// Opens the store of a disk, which was formatted with these limits, and carries it over to version 2 if it can be.
    pub fn open(alloc: A, disk: D, limits: Limits) -> Result<Opened<D, A>, StoreOpenError<D>>
        ensures { Opening D.Disk disk limits true result }
    {
        Store::open_as(alloc, disk, limits, true)
    }
}
