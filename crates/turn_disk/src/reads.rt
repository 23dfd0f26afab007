//! Reads.

ghost use Rattle.std.specs.Prelude.{◌≡◌, ◌+◌, ◌++◌, ◌≤◌, ◌<◌, ◌^◌, IfOk, OnOk, drop, length, take, IsErr};
ghost use Rattle.turn_disk.specs.Device.{Reads};
ghost use Rattle.turn_disk.specs.Disk.{StandsAt};

use crate::disk::{DeviceError, Disk};
use crate::produced::PIECE;

/// Reads the bytes from this position on, in one device call.
pub fn read_array<D: Disk, const N: usize>(disk: &mut D, at: usize) -> Result<[u8; N], DeviceError>
    requires { at + N ≤ D.capacity disk.old }
    ensures reads { Reads D.Disk disk.old disk.new (IsErr result) }
    ensures bytes { D.follows_crash_model disk.new → IfOk result (λ bytes. StandsAt at bytes (D.trace disk.old).now.bytes) }
{
    let mut bytes = [0; N];
    disk.read_at(at, &mut bytes)?;
    Ok(bytes)
}

// Reads to a part of the buffer.
fn read_part<D: Disk>(
    disk: &mut D,
    at: usize,
    buffer: &mut [u8],
    done: usize,
    size: usize,
) -> Result<(), DeviceError>
    requires part { done + size ≤ length buffer.old }
    requires place { at + size ≤ D.capacity disk.old }
    ensures reads { Reads D.Disk disk.old disk.new (IsErr result) }
    ensures len { length buffer.new ≡ length buffer.old }
    ensures front { D.follows_crash_model disk.new → OnOk result (take (done + size) buffer.new
        ≡ take done buffer.old ++ take size (drop at (D.trace disk.old).now.bytes)) }
{
    disk.read_at(at, &mut buffer[done..done + size])?;
    Ok(())
}

/// Fills the buffer with the bytes from this position on, in device calls of at most 4,096 bytes. After a failure the
/// buffer may hold anything.
pub fn read_pieces<D: Disk>(disk: &mut D, at: usize, buffer: &mut [u8]) -> Result<(), DeviceError>
    requires place { at + length buffer.old ≤ D.capacity disk.old }
    requires addressable { at + length buffer.old < 2 ^ 64 }
    ensures reads { Reads D.Disk disk.old disk.new (IsErr result) }
    ensures len { length buffer.new ≡ length buffer.old }
    ensures bytes { D.follows_crash_model disk.new → OnOk result (StandsAt at buffer.new (D.trace disk.old).now.bytes) }
{
    let mut done = 0;
    while done < buffer.len() {
        let size = PIECE.min(buffer.len() - done);
        read_part(disk, at + done, buffer, done, size)?;
        done += size;
    }
    Ok(())
}
