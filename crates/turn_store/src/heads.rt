//! The first bytes of an area.

ghost use Rattle.std.specs.Prelude.{◌≡◌, ◌⊎◌, ◌+◌, ◌≤◌, ◌<◌, ◌^◌, IfOk, IfSome, IsNone, slice_index, IsErr};
ghost use Rattle.std.specs.Int.{to_be_bytes, w32, w64};
ghost use Rattle.turn_disk.specs.Disk.{StandsAt};
ghost use Rattle.turn_store.specs.Head.{IsHead, Beats, NoneIsActive};
ghost use Rattle.turn_store.specs.Layout.{head_size};
ghost use Rattle.turn_store.specs.Stages.{IsRead};

use crate::layout::{GENERATION_AT, LENGTH_AT, VERSION_AT};
use turn_disk::{DeviceError, Disk, read_array};
use turn_journal::OPEN;

/// What an area begins with: its gate, the version, the generation and the length of the snapshot.
#[derive(Clone, Copy, Debug, PartialEq, Eq)]
pub struct Head {
    /// Whether the gate is open.
    pub is_open: bool,
    /// The byte of the version, which may be none that there is.
    pub version: u8,
    /// The generation.
    pub generation: u64,
    /// The length of the snapshot, in bytes.
    pub snapshot: u32,
}

// Reads one byte.
fn read_byte<D: Disk>(disk: &mut D, at: usize) -> Result<u8, DeviceError>
    requires { at + 1 ≤ D.capacity disk.old }
    ensures { IsRead D.Disk disk.old disk.new (IsErr result) (λ content. IfOk result (λ b. slice_index content at ≡ b)) }
{
    let bytes: [u8; 1] = read_array(disk, at)?;
    Ok(bytes[0])
}

// Reads a number of four bytes.
fn read_u32<D: Disk>(disk: &mut D, at: usize) -> Result<u32, DeviceError>
    requires { at + 4 ≤ D.capacity disk.old }
    ensures { IsRead D.Disk disk.old disk.new (IsErr result) (λ content. IfOk result (λ n. StandsAt at (to_be_bytes w32 n) content)) }
{
    let bytes = read_array(disk, at)?;
    Ok(u32::from_be_bytes(bytes))
}

// Reads a number of eight bytes.
fn read_u64<D: Disk>(disk: &mut D, at: usize) -> Result<u64, DeviceError>
    requires { at + 8 ≤ D.capacity disk.old }
    ensures { IsRead D.Disk disk.old disk.new (IsErr result) (λ content. IfOk result (λ n. StandsAt at (to_be_bytes w64 n) content)) }
{
    let bytes = read_array(disk, at)?;
    Ok(u64::from_be_bytes(bytes))
}

/// Reads the head of an area, in four device calls.
pub fn read_head<D: Disk>(disk: &mut D, at: usize) -> Result<Head, DeviceError>
    requires place { at + head_size ≤ D.capacity disk.old }
    requires addressable { at + head_size < 2 ^ 64 }
    ensures head { IsRead D.Disk disk.old disk.new (IsErr result) (λ content. IfOk result (λ head. IsHead at head content)) }
    ensures generation { IfOk result (λ head. head.generation < 2 ^ 64) }
    ensures snapshot { IfOk result (λ head. head.snapshot < 2 ^ 32) }
{
    let gate = read_byte(disk, at)?;
    let version = read_byte(disk, at + VERSION_AT)?;
    let generation = read_u64(disk, at + GENERATION_AT)?;
    let snapshot = read_u32(disk, at + LENGTH_AT)?;
    Ok(Head {
        is_open: gate == OPEN,
        version,
        generation,
        snapshot,
    })
}

/// Where an area begins, and its head.
#[derive(Clone, Copy, Debug, PartialEq, Eq)]
pub struct Placed {
    /// The disk's position at which the area begins.
    pub start: usize,
    /// What the area begins with.
    pub head: Head,
}

/// The active area, and the other one: it is open, and the other is closed or of a generation below.
pub fn counting(first: Placed, second: Placed) -> Option<(Placed, Placed)>
    ensures counts { IfSome result (λ r. Beats r.0.head r.1.head) }
    ensures both { IfSome result (λ r. ((r.0 ≡ first) × (r.1 ≡ second)) ⊎ ((r.0 ≡ second) × (r.1 ≡ first))) }
    ensures none { IsNone result → NoneIsActive first.head second.head }
{
    match (first.head.is_open, second.head.is_open) {
        (true, false) => Some((first, second)),
        (false, true) => Some((second, first)),
        (true, true) if first.head.generation > second.head.generation => Some((first, second)),
        (true, true) if first.head.generation < second.head.generation => Some((second, first)),
        _ => None,
    }
}
