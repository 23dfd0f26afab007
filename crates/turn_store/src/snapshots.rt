//! A snapshot, read in pieces.

ghost use Rattle.std.specs.Prelude.{◌≡◌, ◌≢◌, ◌+◌, ◌++◌, ◌≤◌, ◌<◌, ◌^◌, ℕ, List, IfOk, IfErr, OnOk, drop, length, take, IsErr, Err};
ghost use Rattle.turn_record.specs.Pieces.{WasFed};
ghost use Rattle.turn_record.specs.declared.version.Version.{Version};
ghost use Rattle.turn_store.specs.Refused.{FaultWith, IsBadSnapshot, IsGoodSnapshot};
ghost use Rattle.turn_store.specs.Bytes.{AreBytes};
ghost use Rattle.turn_store.specs.Stages.{IsRead};
ghost use Rattle.turn_store.specs.Tables.{IsTableIn, snapshot_of};
ghost use Rattle.turn_types.specs.declared.limits.Bounds.{Bounds};

use crate::error::OpenError;
use std::alloc::Allocator;
use turn_disk::{DeviceError, Disk, PIECE};
use turn_record::{ReadError, SnapshotReader, Version};
use turn_table::Table;
use turn_types::Limits;

// Reads to the front of a piece.
fn read_front<D: Disk>(
    disk: &mut D,
    at: usize,
    piece: &mut [u8; PIECE],
    size: usize,
) -> Result<(), DeviceError>
    requires fits { size ≤ 4096 }
    requires place { at + size ≤ D.capacity disk.old }
    ensures len { length piece.new ≡ 4096 }
    ensures value { IsRead D.Disk disk.old disk.new (IsErr result) (λ content. OnOk result (take size piece.new ≡ take size (drop at content))) }
{
    disk.read_at(at, &mut piece[..size])?;
    Ok(())
}

// Feeds a piece to a reader.
fn feed<A: Allocator + Copy>(reader: &mut SnapshotReader<A>, piece: &[u8])
    ensures bytes { AreBytes piece.now }
    ensures fed { (v : Version) (b : Bounds) (fed : List ℕ) → WasFed v b reader.old fed → WasFed v b reader.new (fed ++ piece.now) }
{
    let _ = reader.feed(piece);
}

// Feeds so many bytes of the disk to a reader. Whether it refuses them shows when it finishes.
fn feed_piece<D: Disk, A: Allocator + Copy>(
    disk: &mut D,
    at: usize,
    size: usize,
    reader: &mut SnapshotReader<A>,
) -> Result<(), DeviceError>
    requires fits { size ≤ 4096 }
    requires place { at + size ≤ D.capacity disk.old }
    ensures fed_some { OnOk result ((v : Version) (b : Bounds) (fed : List ℕ) → AreBytes fed
        → WasFed v b reader.old fed → (more : List ℕ) × AreBytes more × WasFed v b reader.new more) }
    ensures fed { IsRead D.Disk disk.old disk.new (IsErr result) (λ content. OnOk result (AreBytes (take size (drop at content))
        × ((v : Version) (b : Bounds) (fed : List ℕ) → WasFed v b reader.old fed → WasFed v b reader.new (fed ++ take size (drop at content))))) }
{
    let mut piece = [0u8; PIECE];
    read_front(disk, at, &mut piece, size)?;
    feed(reader, &piece[..size]);
    Ok(())
}

/// Reads the table that so many bytes of the disk encode in a version.
pub fn read_snapshot<D: Disk, A: Allocator + Copy>(
    alloc: A,
    disk: &mut D,
    version: Version,
    limits: Limits,
    at: usize,
    count: usize,
) -> Result<Table<A>, OpenError>
    requires place { at + count ≤ D.capacity disk.old }
    requires addressable { at + count < 2 ^ 64 }
    ensures table { IfOk result (λ table. IsTableIn version limits table) }
    ensures read { IsRead D.Disk disk.old disk.new (result ≡ Err OpenError.Device) (λ content.
        IfOk result (λ table. IsGoodSnapshot version limits at count (snapshot_of table) content)
        × IfErr result (FaultWith (λ place. (place ≡ at) × IsBadSnapshot version limits at count content))) }
{
    // For the proof: the limits are in their ranges.
    let _bounds = limits.bounds();
    let mut reader = SnapshotReader::new(alloc, version, limits);
    let mut done = 0;
    while done < count {
        let size = PIECE.min(count - done);
        feed_piece(disk, at + done, size, &mut reader)?;
        done += size;
    }
    match reader.finish() {
        Ok(table) => Ok(table),
        Err(ReadError::Memory) => Err(OpenError::Memory),
        Err(ReadError::Malformed(_)) => Err(OpenError::Damaged(at)),
    }
}
