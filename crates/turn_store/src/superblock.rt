//! The first bytes of a store: the size of an area, and the limits.

ghost use Rattle.std.specs.Prelude.{◌≡◌, ◌≢◌, ◌+◌, ◌<◌, ◌^◌, ℕ, IfSome, IsNone, IfOk, IfErr, OnOk, length, Err};
ghost use Rattle.turn_record.specs.declared.version.Version.TheVariants.{V2};
ghost use Rattle.turn_store.specs.Layout.{superblock_size};
ghost use Rattle.turn_store.specs.Stages.{IsRead};
ghost use Rattle.turn_store.specs.Superblock.{HasSuperblock, least_area, superblock};
ghost use Rattle.turn_store.specs.declared.superblock.LimitsError.TheVariants.{Device};
ghost use Rattle.turn_types.specs.Limits.{AreInRange};
ghost use Rattle.turn_types.specs.declared.limits.Bounds.{Bounds};

use crate::layout::{HEAD_SIZE, SUPERBLOCK_SIZE};
use thiserror::Error;
use turn_disk::{DeviceError, Disk, read_array};
use turn_journal::FRAME_ROOM;
use turn_record::{Version, max_payload, max_snapshot};
use turn_types::{Bounds, Limits};

/// Why the limits of a store are not known.
#[derive(Clone, Copy, Debug, PartialEq, Eq, Error)]
pub enum LimitsError {
    /// A device call failed.
    #[error("a device call failed")]
    Device,
    /// The disk doesn't begin with a superblock.
    #[error("not a store")]
    NotAStore,
}

impl From<DeviceError> for LimitsError {
    ghost from_gives = { λ _ e. e ≡ Device };

    fn from(_: DeviceError) -> Self {
        LimitsError::Device
    }
}

/// What a superblock says.
#[derive(Clone, Copy, Debug, PartialEq, Eq)]
pub struct Superblock {
    /// The size of an area.
    pub area: usize,
    /// The limits that the store was formatted with.
    pub limits: Limits,
}

/// The min size of an area of a version under the limits, in which each batch fits.
pub fn least_area_of(version: Version, limits: Limits) -> usize
    ensures value { result ≡ least_area version limits }
    ensures small { result < 2 ^ 32 }
{
    HEAD_SIZE + FRAME_ROOM + max_snapshot(version, limits) + max_payload(version, limits)
}

/// The min size of an area under the limits, in which each batch fits: that of version 2.
pub fn least_area(limits: Limits) -> usize
    ensures value { result ≡ least_area V2 limits }
    ensures small { result < 2 ^ 32 }
{
    least_area_of(Version::V2, limits)
}

/// The bytes of a superblock.
pub fn superblock_bytes(area: usize, limits: Limits) -> [u8; SUPERBLOCK_SIZE]
    ensures bytes { result ≡ superblock area limits }
    ensures range { AreInRange limits }
{
    let b = limits.bounds();
    let size = (area as u64).to_be_bytes();
    let most = b.allocations.to_be_bytes();
    let perm = b.permissions.to_be_bytes();
    let chan = b.channels.to_be_bytes();
    let acts = b.acts.to_be_bytes();
    let name = b.name_bytes.to_be_bytes();
    [
        0x52, 0x54, 0x55, 0x52, 0x4E, 0x53, 0x54, 0x31, size[0], size[1], size[2], size[3],
        size[4], size[5], size[6], size[7], most[0], most[1], most[2], most[3], perm[0], perm[1],
        chan[0], chan[1], acts[0], acts[1], name[0], name[1], 0, 0, 0, 0, 0, 0, 0, 0, 0, 0, 0, 0,
        0, 0, 0, 0, 0, 0, 0, 0, 0, 0, 0, 0, 0, 0, 0, 0, 0, 0, 0, 0, 0, 0, 0, 0,
    ]
}

// What the fields read.
fn fields(bytes: &[u8; SUPERBLOCK_SIZE]) -> (usize, Bounds)
    ensures { (area : ℕ) (b : Bounds) → area < 2 ^ 64 → AreInRange b → bytes.now ≡ superblock area b
        → (result.0 ≡ area) × (result.1 ≡ b) }
{
    let area = u64::from_be_bytes([
        bytes[8], bytes[9], bytes[10], bytes[11], bytes[12], bytes[13], bytes[14], bytes[15],
    ]) as usize;
    let bounds = Bounds {
        allocations: u32::from_be_bytes([bytes[16], bytes[17], bytes[18], bytes[19]]),
        permissions: u16::from_be_bytes([bytes[20], bytes[21]]),
        channels: u16::from_be_bytes([bytes[22], bytes[23]]),
        acts: u16::from_be_bytes([bytes[24], bytes[25]]),
        name_bytes: u16::from_be_bytes([bytes[26], bytes[27]]),
    };
    (area, bounds)
}

// The superblock that these bytes are.
fn superblock_in(bytes: &[u8; SUPERBLOCK_SIZE]) -> Option<Superblock>
    ensures long { length bytes.now ≡ superblock_size }
    ensures some { IfSome result (λ s. bytes.now ≡ superblock s.area s.limits) }
    ensures range { IfSome result (λ s. (s.area < 2 ^ 64) × AreInRange s.limits) }
    ensures none { IsNone result → (area : ℕ) (b : Bounds) → area < 2 ^ 64 → AreInRange b → bytes.now ≢ superblock area b }
{
    let (area, bounds) = fields(bytes);
    let Some(limits) = Limits::new(bounds) else {
        return None;
    };
    if superblock_bytes(area, limits) != *bytes {
        return None;
    }
    Some(Superblock { area, limits })
}

/// Reads the superblock, in at most one device call.
pub fn read_superblock<D: Disk>(disk: &mut D) -> Result<Superblock, LimitsError>
    ensures { IsRead D.Disk disk.old disk.new (result ≡ Err LimitsError.Device) (λ content. IfOk result (λ s. HasSuperblock s.area s.limits content)
        × IfErr result (λ refused. refused ≡ LimitsError.NotAStore → (area : ℕ) (b : Bounds) → HasSuperblock area b content → ⊥)) }
{
    if disk.size() < SUPERBLOCK_SIZE {
        return Err(LimitsError::NotAStore);
    }
    let bytes = read_array(disk, 0)?;
    match superblock_in(&bytes) {
        Some(found) => Ok(found),
        None => Err(LimitsError::NotAStore),
    }
}

/// The limits that the store of a disk was formatted with.
///
/// ```rust
/// let limits = limits(&mut disk)?;
/// assert!(rt; limits == Limits::MAX);
/// ```
pub fn limits<D: Disk>(disk: &mut D) -> Result<Limits, LimitsError>
    // The limits are those of the superblock, and a disk without one is refused.
    ensures { IsRead D.Disk disk.old disk.new (result ≡ Err LimitsError.Device) (λ content.
        IfOk result (λ limits. (area : ℕ) × HasSuperblock area limits content)
        × IfErr result (λ refused. refused ≡ LimitsError.NotAStore → (area : ℕ) (b : Bounds) → HasSuperblock area b content → ⊥)) }
{
    let found = read_superblock(disk)?;
    Ok(found.limits)
}
