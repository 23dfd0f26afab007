//! The log of an area, replayed.

ghost use Rattle.std.specs.Prelude.{◌≡◌, ◌≢◌, ◌+◌, ◌≤◌, ◌<◌, ◌↔◌, IfOk, IfErr, OnOk, length, Err};
ghost use Rattle.turn_journal.specs.Area.{end_of, limit_of};
ghost use Rattle.turn_journal.specs.Scan.{IsAdmitted, IsFound, IsBadFrame};
ghost use Rattle.turn_record.specs.Records.{Holds, max_payload};
ghost use Rattle.turn_store.specs.Opened.{LogIsRead};
ghost use Rattle.turn_store.specs.Refused.{BreaksAt, FaultWith};
ghost use Rattle.turn_store.specs.Stages.{IsRead};
ghost use Rattle.turn_store.specs.Tables.{snapshot_of};

use crate::error::OpenError;
use crate::replay::{FrameError, replay_frame};
use std::alloc::Allocator;
use turn_disk::Disk;
use turn_journal::{FRAME_HEAD, Found, Journal, ScanError};
use turn_record::Version;
use turn_table::Table;
use turn_types::Limits;

// What is at a gate.
fn found_at<D: Disk, A: Allocator>(
    journal: &Journal<A>,
    disk: &mut D,
    at: usize,
) -> Result<Found, OpenError>
    requires place { journal.now.start + journal.now.size ≤ D.capacity disk.old }
    requires gate { at < journal.now.size }
    ensures admitted { IfOk result (λ found. (n : _) → found ≡ Found.Frame n
        → IsAdmitted at journal.now.size journal.now.max_payload n) }
    ensures found { IsRead D.Disk disk.old disk.new (result ≡ Err OpenError.Device) (λ content.
        IfOk result (IsFound (journal.now.start + at) (limit_of journal.now) journal.now.max_payload content)
        × IfErr result (FaultWith (λ place. (place ≡ journal.now.start + at)
        × IsBadFrame place (limit_of journal.now) journal.now.max_payload content))) }
{
    let gate = journal.start() + at;
    match journal.scan(disk, at) {
        Ok(found) => Ok(found),
        Err(ScanError::Device) => Err(OpenError::Device),
        Err(ScanError::BadFrame) => Err(OpenError::Damaged(gate)),
    }
}

// The fault of a frame at this gate.
fn fault_at(gate: usize, fault: FrameError) -> OpenError
    ensures device { (result ≡ OpenError.Device) ↔ (fault ≡ FrameError.Device) }
    ensures damaged { FaultWith (λ place. (place ≡ gate) × (fault ≡ FrameError.Bad)) result }
{
    match fault {
        FrameError::Device => OpenError::Device,
        FrameError::Memory => OpenError::Memory,
        FrameError::Bad => OpenError::Damaged(gate),
    }
}

/// Applies the frames from the journal's gate on to the table before them, each read to the buffer for the longest payload.
/// Returns the gate at which the log ends, and the number of frames.
pub fn replay_log<D: Disk, A: Allocator + Copy>(
    alloc: A,
    disk: &mut D,
    version: Version,
    limits: Limits,
    journal: &Journal<A>,
    payload: &mut [u8],
    table: &mut Table<A>,
) -> Result<(usize, usize), OpenError>
    requires place { journal.now.start + journal.now.size ≤ D.capacity disk.old }
    requires payload { journal.now.max_payload ≡ max_payload version limits }
    requires buffer { length payload.old ≡ max_payload version limits }
    requires bounds { table.old.bounds ≡ limits }
    ensures bounds { table.new.bounds ≡ table.old.bounds }
    ensures holds { Holds version table.old.contents → OnOk result (Holds version table.new.contents) }
    ensures within { IfOk result (λ r. r.0 < journal.now.size) }
    ensures few { IfOk result (λ r. r.1 ≤ r.0) }

    // A fault is at the first gate whose frame is bad.
    ensures read { IsRead D.Disk disk.old disk.new (result ≡ Err OpenError.Device) (λ content.
        IfOk result (λ r. LogIsRead version limits (end_of journal.now) (snapshot_of table.old) (journal.now.start + r.0) (limit_of journal.now) r.1
        (snapshot_of table.new) content)
        × IfErr result (FaultWith (BreaksAt version limits (end_of journal.now) (limit_of journal.now) (snapshot_of table.old) content))) }
{
    let start = journal.start();
    let mut end = journal.end();
    let mut frames = 0;
    'frames: loop {
        match found_at(journal, disk, end)? {
            Found::End => return Ok((end, frames)),
            Found::Frame(count) => {
                let at = start + end + FRAME_HEAD;
                match replay_frame(alloc, disk, at, count, payload, table, version, limits) {
                    Ok(()) => {
                        end += FRAME_HEAD + count;
                        frames += 1;
                    }
                    Err(fault) => return Err(fault_at(start + end, fault)),
                }
            }
        }
    }
}
