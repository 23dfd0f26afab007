//! Records, read and written again.

use std::alloc::Allocator;
use turn_record::{
    DecodeError, ReadError, SnapshotReader, Version, read_act, read_payload, read_snapshot,
    write_act, write_payload, write_snapshot,
};
use turn_table::Table;
use turn_types::Limits;

/// What bytes are read as.
#[derive(Clone, Copy, PartialEq, Eq)]
pub enum Kind {
    Act,
    Payload,
    Snapshot,
}

/// The word for what a reading answers in place of a record.
pub fn error_word(error: ReadError) -> &'static str {
    match error {
        ReadError::Memory => "memory",
        ReadError::Malformed(DecodeError::Short) => "short",
        ReadError::Malformed(DecodeError::BadTag) => "tag",
        ReadError::Malformed(DecodeError::BadValue) => "value",
        ReadError::Malformed(DecodeError::OutOfOrder) => "order",
        ReadError::Malformed(DecodeError::TrailingBytes) => "trailing",
    }
}

fn act_again<A: Allocator + Copy>(
    alloc: A,
    version: Version,
    limits: Limits,
    bytes: &[u8],
) -> Result<Vec<u8, A>, ReadError> {
    let event = read_act(alloc, version, limits, bytes)?;
    let mut out = Vec::new(alloc);
    write_act(
        &mut out,
        version,
        limits,
        event.moment,
        event.tuple,
        &event.act,
    )?;
    Ok(out)
}

fn payload_again<A: Allocator + Copy>(
    alloc: A,
    version: Version,
    limits: Limits,
    bytes: &[u8],
) -> Result<Vec<u8, A>, ReadError> {
    let events = read_payload(alloc, version, limits, bytes)?;
    let mut out = Vec::new(alloc);
    write_payload(&mut out, version, limits, &events)?;
    Ok(out)
}

fn snapshot_again<A: Allocator + Copy>(
    alloc: A,
    version: Version,
    limits: Limits,
    bytes: &[u8],
) -> Result<Vec<u8, A>, ReadError> {
    let table = read_snapshot(alloc, version, limits, bytes)?;
    let mut out = Vec::new(alloc);
    write_snapshot(&mut out, version, &table)?;
    Ok(out)
}

/// What bytes are written as once they are read.
pub fn again<A: Allocator + Copy>(
    kind: Kind,
    alloc: A,
    version: Version,
    limits: Limits,
    bytes: &[u8],
) -> Result<Vec<u8, A>, ReadError> {
    match kind {
        Kind::Act => act_again(alloc, version, limits, bytes),
        Kind::Payload => payload_again(alloc, version, limits, bytes),
        Kind::Snapshot => snapshot_again(alloc, version, limits, bytes),
    }
}

/// Reads a snapshot byte by byte. Returns how many were read until one was refused, and what comes of it.
pub fn read_each<A: Allocator + Copy>(
    alloc: A,
    version: Version,
    limits: Limits,
    bytes: &[u8],
) -> (usize, Result<Table<A>, ReadError>) {
    let mut reader = SnapshotReader::new(alloc, version, limits);
    let mut count = 0usize;
    for byte in bytes.chunks(1) {
        count = count.wrapping_add(1);
        if reader.feed(byte).is_err() {
            break;
        }
    }
    (count, reader.finish())
}
