//! Device calls whose range is checked, and formatting.

use turn_disk::{Bytes, Chain, DeviceError, Disk, Idle, read_pieces, write_produced};
use turn_record::Version;
use turn_store::{FormatError, format, format_version1};
use turn_types::Limits;

/// Writes bytes at a place of the disk.
pub fn write_at<D: Disk>(disk: &mut D, at: usize, bytes: &[u8]) -> Option<Result<(), DeviceError>> {
    let rest = disk.size().checked_sub(at)?;
    (bytes.len() <= rest).then(|| disk.write_at(at, bytes, &mut Idle))
}

/// Reads the bytes at a place of the disk.
pub fn read_at<D: Disk>(
    disk: &mut D,
    at: usize,
    buffer: &mut [u8],
) -> Option<Result<(), DeviceError>> {
    let rest = disk.size().checked_sub(at)?;
    (buffer.len() <= rest).then(|| disk.read_at(at, buffer))
}

/// Reads the bytes at a place of the disk, in pieces.
pub fn read_pieces_at<D: Disk>(
    disk: &mut D,
    at: usize,
    buffer: &mut [u8],
) -> Option<Result<(), DeviceError>> {
    let rest = disk.size().checked_sub(at)?;
    (buffer.len() <= rest).then(|| read_pieces(disk, at, buffer))
}

/// Writes the bytes of two sources at a place of the disk, in pieces, and syncs.
pub fn write_both_at<D: Disk>(
    disk: &mut D,
    at: usize,
    first: &[u8],
    second: &[u8],
) -> Option<Result<(), DeviceError>> {
    let rest = disk.size().checked_sub(at)?.checked_sub(first.len())?;
    let mut both = Chain {
        first: Bytes::new(first),
        second: Bytes::new(second),
    };
    (second.len() <= rest).then(|| write_produced(disk, at, &mut both, &mut Idle))
}

/// Formats a disk as a store of a version. Two areas have to be its size.
pub fn format_as<D: Disk>(
    disk: &mut D,
    version: Version,
    limits: Limits,
) -> Option<Result<(), FormatError>> {
    let areas = disk.size().checked_sub(64)?;
    if areas % 2 != 0 {
        return None;
    }
    Some(match version {
        Version::V1 => format_version1(disk, limits, areas / 2),
        Version::V2 => format(disk, limits, areas / 2),
    })
}
