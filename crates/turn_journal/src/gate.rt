//! The steps at a gate, each with what a stop inside it leaves.

ghost use Rattle.std.specs.Prelude.{◌≡◌, ◌+◌, ◌<◌, ◌≤◌, ◌^◌, ℕ, List, length, OnOk, IfOk, IsErr};
ghost use Rattle.turn_disk.specs.Device.{Reads, Uses};
ghost use Rattle.turn_disk.specs.Disk.{EachImageSince, IsSettled, WritesOnce, WritesThrough};
ghost use Rattle.turn_disk.specs.Meanwhile.{Passes};
ghost use Rattle.turn_journal.specs.Frames.{HoldsFramesTo, IsWaiting, HoldsWithout, HoldsWithOrWithout, HoldsWith};
ghost use Rattle.turn_journal.specs.Layout.{frame_head, gate_size};
ghost use Rattle.turn_journal.specs.Scan.{HasLength};

use crate::layout::{GATE_SIZE, OPEN};
use turn_disk::{DeviceError, Disk, Meanwhile, read_array, write_through};

/// Writes after a closed gate, and syncs.
pub fn write_after<D: Disk, M: Meanwhile>(
    disk: &mut D,
    gate: usize,
    bytes: &[u8],
    other: &mut M,
) -> Result<(), DeviceError>
    requires place { gate + gate_size + length bytes.now ≤ D.capacity disk.old }
    requires addressable { gate + gate_size < 2 ^ 64 }
    ensures uses { Uses D.Disk disk.old disk.new (IsErr result) }

    // A stop at any moment leaves the frames up to the gate.
    ensures stop { let old = (D.trace disk.old).now in
        D.follows_crash_model disk.new → IsSettled old → (from : ℕ) (payloads : List (List ℕ)) (limit : ℕ)
        → HoldsFramesTo from payloads gate limit old.bytes
        → EachImageSince (D.trace disk.old) (D.trace disk.new)
        (HoldsWithout from payloads gate (length bytes.now) limit old.bytes) }

    ensures done { D.follows_crash_model disk.new
        → OnOk result (WritesThrough (gate + gate_size) bytes.now (D.trace disk.old).now (D.trace disk.new).now) }

    ensures meanwhile { Passes M.passes other.old other.new }
{
    write_through(disk, gate + GATE_SIZE, bytes, other)
}

/// Opens the gate after which a frame waits, and syncs.
pub fn open_gate<D: Disk, M: Meanwhile>(
    disk: &mut D,
    gate: usize,
    other: &mut M,
) -> Result<(), DeviceError>
    requires { gate + gate_size ≤ D.capacity disk.old }
    ensures uses { Uses D.Disk disk.old disk.new (IsErr result) }

    // A stop at any moment leaves the frames up to the gate, with the one that waits or without.
    ensures stop { let old = (D.trace disk.old).now in
        D.follows_crash_model disk.new → IsSettled old → (from : ℕ) (payloads : List (List ℕ)) (payload : List ℕ) (limit : ℕ)
        → HoldsFramesTo from payloads gate limit old.bytes → IsWaiting gate payload limit old.bytes
        → EachImageSince (D.trace disk.old) (D.trace disk.new)
        (HoldsWithOrWithout from payloads payload gate gate_size limit old.bytes) }

    ensures done { let old = (D.trace disk.old).now in let new = (D.trace disk.new).now in
        D.follows_crash_model disk.new → (from : ℕ) (payloads : List (List ℕ)) (payload : List ℕ) (limit : ℕ)
        → HoldsFramesTo from payloads gate limit old.bytes → IsWaiting gate payload limit old.bytes
        → OnOk result (IsSettled new × HoldsWith from payloads payload gate gate_size limit old.bytes new.bytes) }

    // The gate is written at most once, and nothing else is.
    ensures once { D.follows_crash_model disk.new → WritesOnce gate gate_size (D.trace disk.old) (D.trace disk.new) }

    ensures meanwhile { Passes M.passes other.old other.new }
{
    write_through(disk, gate, &[OPEN], other)?;
    Ok(())
}

/// Reads the length after a gate.
pub fn read_length<D: Disk>(disk: &mut D, gate: usize) -> Result<usize, DeviceError>
    requires place { gate + frame_head ≤ D.capacity disk.old }
    requires addressable { gate + gate_size < 2 ^ 64 }
    ensures reads { Reads D.Disk disk.old disk.new (IsErr result) }
    ensures length { D.follows_crash_model disk.new → IfOk result (λ count. HasLength gate count (D.trace disk.old).now.bytes) }
{
    let bytes = read_array(disk, gate + GATE_SIZE)?;
    Ok(u32::from_be_bytes(bytes) as usize)
}
