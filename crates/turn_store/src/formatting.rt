//! A store is made of a disk: zeros over the superblock, the areas, the superblock, the first area's gate. So from the first sync
//! until the last write no image is a store.

ghost use Rattle.std.specs.Prelude.{◌≡◌, ◌+◌, ◌*◌, ◌≤◌, ◌<◌, ◌^◌, OnOk, IsErr};
ghost use Rattle.turn_disk.specs.Device.{Uses};
ghost use Rattle.turn_disk.specs.Disk.{ChangesOnly, EachImageSince, IsSettled, ThroughOutcome, WritesThrough};
ghost use Rattle.turn_record.specs.declared.version.Version.{Version};
ghost use Rattle.turn_record.specs.declared.version.Version.TheVariants.{V1, V2};
ghost use Rattle.turn_store.specs.Format.{HoldsNothingOrRepresents, IsFormatted, IsLaid, fresh_area};
ghost use Rattle.turn_store.specs.Formatting.{Formats};
ghost use Rattle.turn_store.specs.Layout.{first_area, fresh_size, store_size, superblock_size};
ghost use Rattle.turn_store.specs.Superblock.{least_area};
ghost use Rattle.turn_store.specs.declared.formatting.FormatError.TheVariants.{Device};

use crate::layout::{FIRST_AREA, FRESH_SIZE_1, FRESH_SIZE_2, SUPERBLOCK_SIZE};
use crate::superblock::{least_area_of, superblock_bytes};
use thiserror::Error;
use turn_disk::{DeviceError, Disk, Idle, write_through};
use turn_journal::{CLOSED, OPEN};
use turn_record::Version;
use turn_types::Limits;

/// A closed gate, version 1, generation 1, a snapshot of 12 bytes (moment 0, no entry), a closed gate.
const FRESH_AREA_1: [u8; FRESH_SIZE_1] = [
    CLOSED, 1, 0, 0, 0, 0, 0, 0, 0, 1, 0, 0, 0, 12, 0, 0, 0, 0, 0, 0, 0, 0, 0, 0, 0, 0, CLOSED,
];

/// The same of version 2: its snapshot has 16 bytes (moment 0, no entry, no reserved port).
const FRESH_AREA_2: [u8; FRESH_SIZE_2] = [
    CLOSED, 2, 0, 0, 0, 0, 0, 0, 0, 1, 0, 0, 0, 16, 0, 0, 0, 0, 0, 0, 0, 0, 0, 0, 0, 0, 0, 0, 0, 0,
    CLOSED,
];

/// Why a disk was not formatted.
#[derive(Clone, Copy, Debug, PartialEq, Eq, Error)]
pub enum FormatError {
    /// A device call failed. What the disk holds is not known.
    #[error("a device call failed")]
    Device,
    /// The area is below the min size, which is this. Nothing was written.
    #[error("area too small {0}")]
    AreaTooSmall(usize),
}

impl From<DeviceError> for FormatError {
    ghost from_gives = { λ _ e. e ≡ Device };

    fn from(_: DeviceError) -> Self {
        FormatError::Device
    }
}

// Writes the first area with a closed gate: two device calls.
fn lay_first<D: Disk>(disk: &mut D, version: Version) -> Result<(), DeviceError>
    requires { first_area + fresh_size ≤ D.capacity disk.old }
    ensures uses { Uses D.Disk disk.old disk.new (IsErr result) }
    ensures done { D.follows_crash_model disk.new → OnOk result
        (WritesThrough first_area (fresh_area version) (D.trace disk.old).now (D.trace disk.new).now) }
    ensures once { D.follows_crash_model disk.new
        → ThroughOutcome first_area (fresh_area version) (D.trace disk.old) (D.trace disk.new) result }
{
    match version {
        Version::V1 => write_through(disk, FIRST_AREA, &FRESH_AREA_1, &mut Idle),
        Version::V2 => write_through(disk, FIRST_AREA, &FRESH_AREA_2, &mut Idle),
    }
}

// Closes the second area and lays out the first one, closed too: three device calls.
fn lay_areas<D: Disk>(disk: &mut D, version: Version, area: usize) -> Result<(), DeviceError>
    requires place { store_size area ≡ D.capacity disk.old }
    requires room { fresh_size < area }
    ensures uses { Uses D.Disk disk.old disk.new (IsErr result) }
    ensures addressable { store_size area < 2 ^ 64 }

    // A stop at any moment changes nothing before the areas.
    ensures stop { D.follows_crash_model disk.new → IsSettled (D.trace disk.old).now
        → EachImageSince (D.trace disk.old) (D.trace disk.new) (ChangesOnly superblock_size (2 * area) (D.trace disk.old).now.bytes) }

    ensures done { D.follows_crash_model disk.new → OnOk result (IsLaid version area (D.trace disk.new).now) }
{
    let second = disk.size() - area;
    disk.write_at(second, &[CLOSED], &mut Idle)?;
    lay_first(disk, version)?;
    Ok(())
}

// Writes the superblock, and then opens the first area: four device calls.
fn open_first<D: Disk>(disk: &mut D, limits: Limits, area: usize) -> Result<(), DeviceError>
    requires place { store_size area ≡ D.capacity disk.old }
    requires room { fresh_size < area }
    requires addressable { store_size area < 2 ^ 64 }
    ensures uses { Uses D.Disk disk.old disk.new (IsErr result) }
    ensures done { D.follows_crash_model disk.new → (v : Version) → least_area v limits ≤ area → IsLaid v area (D.trace disk.old).now
        → OnOk result (IsFormatted v (record { bounds = limits; area = area }) (D.trace disk.new).now) }

    // A stop at any moment leaves what holds nothing, or the empty store.
    ensures stop { D.follows_crash_model disk.new → (v : Version) → least_area v limits ≤ area → IsLaid v area (D.trace disk.old).now
        → EachImageSince (D.trace disk.old) (D.trace disk.new) (HoldsNothingOrRepresents (record { bounds = limits; area = area })) }
{
    let superblock = superblock_bytes(area, limits);
    write_through(disk, 0, &superblock, &mut Idle)?;
    write_through(disk, FIRST_AREA, &[OPEN], &mut Idle)?;
    Ok(())
}

// Makes a disk a store of this version.
fn format_as<D: Disk>(
    disk: &mut D,
    version: Version,
    limits: Limits,
    area: usize,
) -> Result<(), FormatError>
    requires { store_size area ≡ D.capacity disk.old }
    ensures { Formats D.Disk version (record { bounds = limits; area = area }) disk.old disk.new result }
{
    let needed = least_area_of(version, limits);
    if area < needed {
        return Err(FormatError::AreaTooSmall(needed));
    }
    write_through(disk, 0, &[0; SUPERBLOCK_SIZE], &mut Idle)?;
    lay_areas(disk, version, area)?;
    open_first(disk, limits, area)?;
    Ok(())
}

/// Makes a disk a store of these limits, of version 2, which holds nothing. It takes no memory.
///
/// ```rust
/// let area = least_area(Limits::MAX);
/// let mut disk = MemoryDisk::new(alloc, Vec::from_elem(alloc, 0u8, 64 + 2 * area)?);
/// format(&mut disk, Limits::MAX, area)?;
/// let opened = Store::open(alloc, disk, Limits::MAX).map_err(|refused| refused.fault)?;
/// assert!(rt; opened.table.is_empty() && opened.store.info().frames == 0);
/// ```
pub fn format<D: Disk>(disk: &mut D, limits: Limits, area: usize) -> Result<(), FormatError>
    requires { store_size area ≡ D.capacity disk.old }
    ensures { Formats D.Disk V2 (record { bounds = limits; area = area }) disk.old disk.new result }
{
    format_as(disk, Version::V2, limits, area)
}

/// Makes a disk a store of version 1, as `format` does of version 2. Its areas may be smaller: 20 bytes, the longest snapshot and
/// the longest payload of version 1.
pub fn format_version1<D: Disk>(
    disk: &mut D,
    limits: Limits,
    area: usize,
) -> Result<(), FormatError>
    requires { store_size area ≡ D.capacity disk.old }
    ensures { Formats D.Disk V1 (record { bounds = limits; area = area }) disk.old disk.new result }
{
    format_as(disk, Version::V1, limits, area)
}
