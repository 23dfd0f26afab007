//! Writes, with what a stop at any moment of them may leave.

ghost use Rattle.std.specs.Prelude.{◌≡◌, ◌+◌, ◌≤◌, ℕ, List, length, OnOk, IsErr};
ghost use Rattle.turn_disk.specs.Device.{Uses};
ghost use Rattle.turn_disk.specs.Disk.{ChangesOnly, EachImageSince, IsSettled, IsSettledBut, ThroughOutcome, WritesThrough, WriteOutcome};
ghost use Rattle.turn_disk.specs.Meanwhile.{Passes};

use crate::disk::{DeviceError, Disk};
use crate::meanwhile::Meanwhile;

/// Writes, within a range outside which nothing is pending.
pub(crate) fn write_within<D: Disk, M: Meanwhile>(
    disk: &mut D,
    at: usize,
    bytes: &[u8],
    other: &mut M,
) -> Result<(), DeviceError>
    requires { at + length bytes.now ≤ D.capacity disk.old }
    ensures uses { Uses D.Disk disk.old disk.new (IsErr result) }

    // A stop at any moment changes nothing outside the range, nor does the call.
    ensures stop { D.follows_crash_model disk.new → (from count : ℕ) (base : List ℕ)
        → from ≤ at → at + length bytes.now ≤ from + count → IsSettledBut from count base (D.trace disk.old).now
        → EachImageSince (D.trace disk.old) (D.trace disk.new) (ChangesOnly from count base)
        × IsSettledBut from count base (D.trace disk.new).now }

    ensures outcome { D.follows_crash_model disk.new → WriteOutcome at bytes.now (D.trace disk.old) (D.trace disk.new) result }
    ensures meanwhile { Passes M.passes other.old other.new }
{
    disk.write_at(at, bytes, other)
}

/// Writes these bytes, and makes them durable.
pub fn write_through<D: Disk, M: Meanwhile>(
    disk: &mut D,
    at: usize,
    bytes: &[u8],
    other: &mut M,
) -> Result<(), DeviceError>
    requires { at + length bytes.now ≤ D.capacity disk.old }
    ensures uses { Uses D.Disk disk.old disk.new (IsErr result) }

    // A stop at any moment changes nothing outside the range.
    ensures stop { D.follows_crash_model disk.new → IsSettled (D.trace disk.old).now
        → EachImageSince (D.trace disk.old) (D.trace disk.new)
        (ChangesOnly at (length bytes.now) (D.trace disk.old).now.bytes) }

    // Whatever was pending before, it is synced too.
    ensures done { D.follows_crash_model disk.new
        → OnOk result (WritesThrough at bytes.now (D.trace disk.old).now (D.trace disk.new).now) }

    // The bytes are written once and synced once, and no other device call changes the disk.
    ensures once { D.follows_crash_model disk.new → ThroughOutcome at bytes.now (D.trace disk.old) (D.trace disk.new) result }

    ensures meanwhile { Passes M.passes other.old other.new }
{
    disk.write_durably(at, bytes, other)
}
