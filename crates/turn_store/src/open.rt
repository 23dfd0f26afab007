//! What a store holds is read: its superblock, the active area, the snapshot and the log.

ghost use Rattle.std.specs.Prelude.{◌≡◌, ◌≢◌, ◌+◌, ◌*◌, ◌≤◌, ◌<◌, ◌^◌, ◌↔◌, ℕ, IfOk, IfErr, IfSome, IsNone, IsTrue, IsErr, OnOk, Err};
ghost use Rattle.turn_record.specs.Records.{max_payload, max_snapshot};
ghost use Rattle.turn_record.specs.declared.version.Version.{Version};
ghost use Rattle.turn_record.specs.declared.version.Version.TheVariants.{V1};
ghost use Rattle.turn_history.specs.History.{History};
ghost use Rattle.turn_store.specs.Areas.{Form};
ghost use Rattle.turn_store.specs.Images.{RepresentsAt};
ghost use Rattle.turn_store.specs.Layout.{head_size, second_area, store_size};
ghost use Rattle.turn_store.specs.Opened.{AreaIsRead, IsChosen};
ghost use Rattle.turn_store.specs.Refused.{AreaIsBad, FaultWith, IsHeadOf, IsPlain, StoreIsBad, WhyRefused};
ghost use Rattle.turn_store.specs.Stages.{IsRead, Settles};
ghost use Rattle.turn_store.specs.State.{IsSound};
ghost use Rattle.turn_store.specs.Superblock.{HasSuperblock, least_area};
ghost use Rattle.turn_store.specs.Tables.{IsTableIn, snapshot_of};

use crate::error::OpenError;
use crate::front::version_of;
use crate::heads::{Head, Placed, counting, read_head};
use crate::layout::{AREA_SIZE_AT, FIRST_AREA, HEAD_SIZE, SUPERBLOCK_SIZE};
use crate::log::replay_log;
use crate::snapshots::read_snapshot;
use crate::superblock::{LimitsError, least_area, least_area_of, read_superblock};
use std::alloc::{Allocator, Global};
use turn_disk::{DeviceError, Disk, Idle};
use turn_journal::{Area, Journal};
use turn_record::{Version, max_payload, max_snapshot};
use turn_table::Table;
use turn_types::Limits;

/// What an area holds: its version, its journal, the table at its end, and the number of frames.
#[derive(Drop)]
pub struct Loaded<A: Allocator = Global> {
    /// The version of its records.
    pub version: Version,
    /// The log after the snapshot.
    pub journal: Journal<A>,
    /// The snapshot's table, after the frames of the log.
    pub table: Table<A>,
    /// How many frames the log has.
    pub frames: usize,
}

// The version of an area of this size that may have this head, if there is one.
fn version_in(limits: Limits, size: usize, head: Head) -> Option<Version>
    ensures some { IfSome result (λ v. IsHeadOf v limits size head) }
    ensures small { IfSome result (λ v. least_area v limits < 2 ^ 32) }
    ensures none { IsNone result → (v : Version) → IsHeadOf v limits size head → ⊥ }
{
    let Some(version) = version_of(head.version) else {
        return None;
    };
    if size < least_area_of(version, limits) {
        return None;
    }
    if head.snapshot as usize > max_snapshot(version, limits) {
        return None;
    }
    Some(version)
}

// Reads the area that begins there and has this head.
fn load_area<D: Disk, A: Allocator + Copy>(
    alloc: A,
    disk: &mut D,
    limits: Limits,
    size: usize,
    start: usize,
    head: Head,
) -> Result<Loaded<A>, OpenError>
    requires place { start + size ≤ D.capacity disk.old }
    requires addressable { start + size < 2 ^ 64 }
    requires generation { head.generation < 2 ^ 64 }
    requires snapshot { head.snapshot < 2 ^ 32 }
    ensures area { IfOk result (λ l. (l.journal.start ≡ start) × (l.journal.size ≡ size) × (l.journal.max_payload ≡ max_payload l.version limits)) }
    ensures room { IfOk result (λ l. least_area l.version limits ≤ size) }
    ensures table { IfOk result (λ l. IsTableIn l.version limits l.table) }
    ensures few { IfOk result (λ l. l.frames ≤ l.journal.end) }
    ensures read { IsRead D.Disk disk.old disk.new (result ≡ Err OpenError.Device) (λ content.
        IfOk result (λ l. AreaIsRead l.version limits start size head l.journal.end l.frames (snapshot_of l.table) content)
        × IfErr result (FaultWith (AreaIsBad limits start size head content))) }
{
    let Some(version) = version_in(limits, size, head) else {
        return Err(OpenError::Damaged(start));
    };
    let count = head.snapshot as usize;
    let mut table = read_snapshot(alloc, disk, version, limits, start + HEAD_SIZE, count)?;
    let area = Area {
        start,
        size,
        max_payload: max_payload(version, limits),
        end: HEAD_SIZE + count,
    };
    let mut journal = Journal::new(alloc, area)?;
    let mut payload = Vec::from_elem(alloc, 0, max_payload(version, limits))?;
    let (end, frames) = replay_log(
        alloc,
        disk,
        version,
        limits,
        &journal,
        &mut payload,
        &mut table,
    )?;
    journal.move_to(start, end);
    Ok(Loaded {
        version,
        journal,
        table,
        frames,
    })
}

/// The active area, as it was read, and what is known of the other one.
#[derive(Drop)]
pub struct Chosen<A: Allocator = Global> {
    /// The active area.
    pub loaded: Loaded<A>,
    /// Where the other area begins, in bytes from the disk's first one.
    pub other: usize,
    /// The generation of the active area.
    pub generation: u64,
    /// Whether the generation of the other area is below.
    pub other_is_below: bool,
}

// Reads the active area.
fn choose<D: Disk, A: Allocator + Copy>(
    alloc: A,
    disk: &mut D,
    limits: Limits,
    size: usize,
) -> Result<Chosen<A>, OpenError>
    requires place { store_size size ≡ D.capacity disk.old }
    requires addressable { store_size size < 2 ^ 64 }
    requires room { head_size ≤ size }
    ensures area { IfOk result (λ r. (r.loaded.journal.size ≡ size) × (r.loaded.journal.max_payload ≡ max_payload r.loaded.version limits)) }
    ensures room { IfOk result (λ r. least_area r.loaded.version limits ≤ size) }
    ensures places { IfOk result (λ r. (r.loaded.journal.start ≤ second_area size) × (r.other ≤ second_area size)) }
    ensures table { IfOk result (λ r. IsTableIn r.loaded.version limits r.loaded.table) }
    ensures few { IfOk result (λ r. r.loaded.frames ≤ r.loaded.journal.end) }
    ensures chosen { IsRead D.Disk disk.old disk.new (result ≡ Err OpenError.Device) (λ content.
        IfOk result (λ r. IsChosen r.loaded.version limits size r.loaded.journal.start r.other r.generation r.loaded.journal.end r.loaded.frames
        r.other_is_below (snapshot_of r.loaded.table) content)
        × IfErr result (FaultWith (StoreIsBad limits size content))) }
{
    let second_start = FIRST_AREA + size;
    let first_head = read_head(disk, FIRST_AREA)?;
    let second_head = read_head(disk, second_start)?;
    let first = Placed {
        start: FIRST_AREA,
        head: first_head,
    };
    let second = Placed {
        start: second_start,
        head: second_head,
    };
    let Some((area, other)) = counting(first, second) else {
        return Err(OpenError::Damaged(FIRST_AREA));
    };
    let loaded = load_area(alloc, disk, limits, size, area.start, area.head)?;
    Ok(Chosen {
        loaded,
        other: other.start,
        generation: area.head.generation,
        other_is_below: other.head.generation < area.head.generation,
    })
}

// Whether a disk of this size has two such areas and nothing more.
fn is_whole(size: usize, area: usize) -> bool
    ensures { IsTrue result ↔ (size ≡ store_size area) }
{
    size >= SUPERBLOCK_SIZE && size % 2 == 0 && (size - SUPERBLOCK_SIZE) / 2 == area
}

// Whether these are the same limits.
fn are_same(first: Limits, second: Limits) -> bool
    ensures { IsTrue result ↔ (first ≡ second) }
{
    first == second
}

// The size of an area, by the superblock, which has to have these limits.
fn read_area_size<D: Disk>(disk: &mut D, limits: Limits) -> Result<usize, OpenError>
    ensures place { IfOk result (λ area. store_size area ≡ D.capacity disk.old) }
    ensures addressable { D.capacity disk.old < 2 ^ 64 }
    ensures room { IfOk result (λ area. least_area V1 limits ≤ area) }
    ensures small { OnOk result ((v : Version) → least_area v limits < 2 ^ 32) }
    ensures read { IsRead D.Disk disk.old disk.new (result ≡ Err OpenError.Device) (λ content.
        IfOk result (λ area. HasSuperblock area limits content) × IfErr result (WhyRefused limits content)) }
{
    let needed = least_area_of(Version::V1, limits);
    // For the proof: an area of each version is small enough.
    let _max = least_area(limits);
    let size = disk.size();
    let found = match read_superblock(disk) {
        Ok(found) => found,
        Err(LimitsError::Device) => return Err(OpenError::Device),
        Err(LimitsError::NotAStore) => return Err(OpenError::NotAStore),
    };
    if !are_same(found.limits, limits) {
        return Err(OpenError::LimitsDiffer);
    }
    if found.area < needed {
        return Err(OpenError::Damaged(AREA_SIZE_AT));
    }
    if !is_whole(size, found.area) {
        return Err(OpenError::Damaged(AREA_SIZE_AT));
    }
    Ok(found.area)
}

// Syncs a disk, as an earlier process may have left it with a write pending.
fn settle<D: Disk>(disk: &mut D) -> Result<(), DeviceError>
    ensures { Settles D.Disk disk.old disk.new (IsErr result) }
{
    disk.sync(&mut Idle)?;
    Ok(())
}

/// Syncs a disk, and reads what it holds.
pub fn load<D: Disk, A: Allocator + Copy>(
    alloc: A,
    disk: &mut D,
    limits: Limits,
) -> Result<Chosen<A>, OpenError>
    ensures settles { Settles D.Disk disk.old disk.new (result ≡ Err OpenError.Device) }
    ensures store { IfOk result (λ r. IsSound (D.capacity disk.new) r.loaded.version limits r.loaded.journal r.other r.loaded.frames) }
    ensures table { IfOk result (λ r. IsTableIn r.loaded.version limits r.loaded.table) }
    ensures superblock { D.follows_crash_model disk.new
        → IfOk result (λ r. HasSuperblock r.loaded.journal.size limits (D.trace disk.old).now.bytes) }
    ensures chosen { D.follows_crash_model disk.new → IfOk result (λ r.
        IsChosen r.loaded.version limits r.loaded.journal.size r.loaded.journal.start r.other r.generation r.loaded.journal.end r.loaded.frames r.other_is_below
        (snapshot_of r.loaded.table) (D.trace disk.old).now.bytes) }
    ensures why { D.follows_crash_model disk.new → IfErr result (WhyRefused limits (D.trace disk.old).now.bytes) }
    ensures sound { D.follows_crash_model disk.new → (form : Form) (h : History) (clock : ℕ) → form.bounds ≡ limits
        → RepresentsAt form h clock (D.trace disk.old).now.bytes → IfErr result IsPlain }
{
    settle(disk)?;
    let size = read_area_size(disk, limits)?;
    let chosen = choose(alloc, disk, limits, size)?;
    Ok(chosen)
}
