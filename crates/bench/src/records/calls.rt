//! The calls that are measured. Each returns whether it did what it is measured for.

ghost use Rattle.std.specs.Prelude.{◌≤◌};

use super::kept::Kept;
use crate::encoded::ENTRIES;
use std::alloc::{AllocError, Global};
use turn_disk::{PIECE, Producer};
use turn_record::{SnapshotReader, Version, read_snapshot};
use turn_types::Limits;

/// Reads a snapshot as a whole, and releases the table.
pub fn read_whole(alloc: Global, bytes: &[u8]) -> bool {
    match read_snapshot(alloc, Version::V1, Limits::MAX, bytes) {
        Ok(table) => table.len() == usize::from(ENTRIES),
        Err(_) => false,
    }
}

/// Reads a snapshot in pieces, and releases the table.
pub fn read_pieces(alloc: Global, bytes: &[u8]) -> bool {
    let mut reader = SnapshotReader::new(alloc, Version::V1, Limits::MAX);
    for piece in bytes.chunks(PIECE) {
        if reader.feed(piece).is_err() {
            return false;
        }
    }
    match reader.finish() {
        Ok(table) => table.len() == usize::from(ENTRIES),
        Err(_) => false,
    }
}

/// Fills the piece, or as much of it as the producer has bytes for.
fn fill<P: Producer>(producer: &mut P, piece: &mut [u8; PIECE]) -> usize
    ensures { result ≤ 4096 }
{
    let mut size = 0;
    'parts: loop {
        if size == PIECE {
            return size;
        }
        let given = producer.next(&mut piece[size..]);
        if given == 0 {
            return size;
        }
        size += given;
    }
}

/// Writes the snapshot of a table, of so many bytes, in pieces one over the other.
pub fn write_pieces(kept: &Kept, piece: &mut [u8; PIECE], size: usize) -> bool {
    let mut writer = kept.writer();
    let mut done = 0usize;
    for _ in 0..size {
        let filled = fill(&mut writer, piece);
        if filled == 0 {
            break;
        }
        done = done.wrapping_add(filled);
    }
    done == size
}

/// Writes the snapshot of a table, of so many bytes, over the last one.
pub fn write_whole(kept: &Kept, out: &mut Vec<u8>, size: usize) -> bool {
    out.clear();
    kept.write(out) && out.len() == size
}

/// Whether a table's snapshot is these bytes, written as a whole and in pieces.
pub fn is_right(alloc: Global, kept: &Kept, bytes: &[u8]) -> Result<bool, AllocError> {
    let mut whole = Vec::new(alloc);
    if !kept.write(&mut whole) {
        return Err(AllocError);
    }
    let mut joined = Vec::new(alloc);
    let mut piece = [0; PIECE];
    let mut writer = kept.writer();
    for _ in 0..bytes.len() {
        let size = fill(&mut writer, &mut piece);
        joined.extend_from_slice(&piece[..size])?;
    }
    Ok(whole.as_slice() == bytes && joined.as_slice() == bytes)
}
