//! Readings of a store.

ghost use Rattle.std.specs.Prelude.{◌≡◌, ◌≢◌, ◌↔◌, ◌⊎◌, ℕ, IfErr, IfOk, IfSome, IsOk, IsTrue, MatchResult, None, Some};
ghost use Rattle.turn_history.specs.History.{History};
ghost use Rattle.turn_history.specs.Table.{table};
ghost use Rattle.turn_reading.specs.Readings.{IsRead, IsUnder, MayPass, ReadsStore};
ghost use Rattle.turn_store.specs.Areas.{Form};
ghost use Rattle.turn_store.specs.Images.{RepresentsAt};
ghost use Rattle.turn_store.specs.Refused.{IsPlain, WhyRefused};
ghost use Rattle.turn_store.specs.Superblock.{HasSuperblock};
ghost use Rattle.turn_store.specs.Tables.{snapshot_of};
ghost use Rattle.turn_types.specs.declared.limits.Bounds.{Bounds};

use crate::error::{ReadingError, fault_of};
use std::alloc::{Allocator, Global};
use std::rt::Clock;
use std::thread;
use std::time::Duration;
use turn_disk::Disk;
use turn_store::{
    Info, LimitsError, OpenError, Opened, Store, StoreOpenError, limits as own_limits,
};
use turn_table::Table;
use turn_types::Limits;

/// How often a store is tried that is refused, or that changes while it is read.
const TRIES: u32 = 10;

/// The milliseconds after each try.
const PAUSE: u64 = 10;

/// What was read of a store.
#[derive(Drop)]
pub struct Reading<A: Allocator = Global> {
    /// The version, the generation and the count of frames.
    pub info: Info,
    /// At the latest moment that is written.
    pub table: Table<A>,
}

/// Reads the store of a disk once, which has to have been formatted with these limits, and doesn't carry it over. Returns the
/// disk too.
fn read_once<D: Disk, A: Allocator + Copy>(
    alloc: A,
    disk: D,
    limits: Limits,
) -> (D, Result<Reading<A>, OpenError>)
    ensures crash_model { D.follows_crash_model result.0 → D.follows_crash_model disk }
    ensures same { D.follows_crash_model result.0 → (D.trace result.0).now.bytes ≡ (D.trace disk).now.bytes }

    // What was read, and the reason of each refusal: the first that applies.
    ensures read { D.follows_crash_model result.0
        → IfOk result.1 (λ r. IsRead D (Some limits) (D.trace disk).now.bytes (snapshot_of r.table)) }
    ensures why { D.follows_crash_model result.0 → IfErr result.1 (WhyRefused limits (D.trace disk).now.bytes) }

    // If the content represents a history, the table is the history's, and a refusal is of the device or of memory.
    ensures tells { D.follows_crash_model result.0 → (form : Form) (h : History) (clock : ℕ) → form.bounds ≡ limits
        → RepresentsAt form h clock (D.trace disk).now.bytes
        → MatchResult result.1 (λ r. snapshot_of r.table ≡ record { moment = clock; contents = table h clock }) IsPlain }
{
    match Store::open_unchanged(alloc, disk, limits) {
        Ok(opened) => {
            let Opened { store, table } = opened;
            let info = store.info();
            (store.into_disk(), Ok(Reading { info, table }))
        }
        Err(refused) => {
            let StoreOpenError { fault, disk } = refused;
            (disk, Err(fault))
        }
    }
}

/// The limits under which a disk is read: the given ones, or those in its superblock.
fn limits_for<D: Disk>(disk: &mut D, limits: &Option<Limits>) -> Result<Limits, LimitsError>
    ensures crash_model { D.follows_crash_model disk.new → D.follows_crash_model disk.old }
    ensures same { D.follows_crash_model disk.new → D.trace disk.new ≡ D.trace disk.old }
    ensures given { IfOk result (λ found. IsUnder limits.now found) }
    ensures own { D.follows_crash_model disk.new → limits.now ≡ None
        → IfOk result (λ found. (area : ℕ) × HasSuperblock area found (D.trace disk.old).now.bytes) }
    ensures none { D.follows_crash_model disk.new → IfErr result (λ refused. refused ≡ LimitsError.NotAStore
        → (area : ℕ) (b : Bounds) → HasSuperblock area b (D.trace disk.old).now.bytes → ⊥) }
{
    match limits {
        Some(given) => Ok(*given),
        None => own_limits(disk),
    }
}

/// Reads a store once, under given limits or its own. Returns the disk too.
fn try_once<D: Disk, A: Allocator + Copy>(
    alloc: A,
    disk: D,
    limits: &Option<Limits>,
) -> (D, Result<Reading<A>, ReadingError>)
    ensures { ReadsStore D.Disk limits.now disk result.0 result.1 }
{
    let mut disk = disk;
    let under = match limits_for(&mut disk, limits) {
        Ok(under) => under,
        Err(refused) => return (disk, Err(ReadingError::from(refused))),
    };
    let (disk, outcome) = read_once(alloc, disk, under);
    match outcome {
        Ok(reading) => (disk, Ok(reading)),
        Err(fault) => (disk, Err(fault_of(limits, fault))),
    }
}

/// The second of three readings in a row, if no snapshot of another generation was met in them.
fn steady<A: Allocator>(
    before: Info,
    reading: Reading<A>,
    after: Info,
) -> Result<Reading<A>, ReadingError>
    ensures steady { IsOk result
        ↔ ((before.generation ≡ reading.info.generation) × (reading.info.generation ≡ after.generation)) }
    ensures second { IfOk result (λ r. r ≡ reading) }
    ensures changing { IfErr result (λ fault. fault ≡ ReadingError.Changing) }
{
    let generation = reading.info.generation;
    if before.generation == generation && generation == after.generation {
        Ok(reading)
    } else {
        Err(ReadingError::Changing)
    }
}

/// Reads a store three times in a row, and returns the second reading if all have one generation.
///
/// A server writes over an area only after the other one counts, with the next generation. So the third reading shows that
/// the area was not written over while the second one read it. A gate and its generation are read one after the other, and in
/// between the area may be closed and a new snapshot begun: the first reading shows that it was whole before the second began.
fn read_steadily<D: Disk, A: Allocator + Copy>(
    alloc: A,
    disk: D,
    limits: &Option<Limits>,
) -> (D, Result<Reading<A>, ReadingError>)
    ensures { ReadsStore D.Disk limits.now disk result.0 result.1 }
{
    let (disk, first) = try_once(alloc, disk, limits);
    let before = match first {
        Ok(reading) => reading.info,
        Err(fault) => return (disk, Err(fault)),
    };
    let (disk, second) = try_once(alloc, disk, limits);
    let reading = match second {
        Ok(reading) => reading,
        Err(fault) => return (disk, Err(fault)),
    };
    let (disk, third) = try_once(alloc, disk, limits);
    match third {
        Ok(after) => (disk, steady(before, reading, after.info)),
        Err(fault) => (disk, Err(fault)),
    }
}

/// Whether a fault may come of a store that was written to while it was read.
fn may_pass(fault: ReadingError) -> bool
    ensures { IsTrue result ↔ MayPass fault }
{
    match fault {
        ReadingError::NotAStore | ReadingError::LimitsDiffer => true,
        ReadingError::Damaged(_) | ReadingError::Changing => true,
        ReadingError::Device | ReadingError::Memory => false,
    }
}

/// The fault of all tries so far, if there was any before this one: the same, or that the store changes.
fn joined(before: Option<ReadingError>, fault: ReadingError) -> ReadingError
    ensures first { before ≡ None → result ≡ fault }
    ensures same { before ≡ Some fault → result ≡ fault }
    ensures other { IfSome before (λ other. other ≢ fault → result ≡ ReadingError.Changing) }
    ensures either { (result ≡ fault) ⊎ (result ≡ ReadingError.Changing) }
{
    match before {
        Some(other) if other != fault => ReadingError::Changing,
        _ => fault,
    }
}

/// Reads a store, and again if that may help, up to ten times. Returns the disk too.
fn read_often<D: Disk + Drop, A: Allocator + Copy, C: Clock>(
    alloc: A,
    clock: &C,
    disk: D,
    limits: &Option<Limits>,
) -> (D, Result<Reading<A>, ReadingError>)
    ensures { ReadsStore D.Disk limits.now disk result.0 result.1 }
{
    let mut disk = disk;
    let mut last = None;
    for _ in 0..TRIES {
        let (again, outcome) = read_steadily(alloc, disk, limits);
        disk = again;
        match outcome {
            Ok(reading) => return (disk, Ok(reading)),
            Err(fault) if !may_pass(fault) => return (disk, Err(fault)),
            Err(fault) => last = Some(joined(last, fault)),
        }
        thread::sleep(clock, Duration::from_millis(PAUSE));
    }
    (disk, Err(last.unwrap_or(ReadingError::Changing)))
}

/// Reads the store of a disk, whether or not a server writes to it meanwhile: under these limits, as a start opens it, or else with
/// those in its superblock.
///
/// A store that is refused, or that changed while it was read, is read again, up to ten times in a tenth of a second. If all
/// tries come to one fault it is that one, and else `Changing`. A failed device call or allocation isn't tried again. Returns the disk
/// too.
pub fn read_store<D: Disk + Drop, A: Allocator + Copy, C: Clock>(
    alloc: A,
    clock: &C,
    disk: D,
    limits: Option<Limits>,
) -> (D, Result<Reading<A>, ReadingError>)
    ensures { ReadsStore D.Disk limits disk result.0 result.1 }
{
    read_often(alloc, clock, disk, &limits)
}
