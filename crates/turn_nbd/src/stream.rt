//! What carries the bytes to a server and back.

ghost use Rattle.std.specs.Prelude.{◌<◌, ◌≤◌, IfOk, length};

use crate::error::NbdError;

/// A stream of bytes to a server and back, each wait of which is bounded.
pub trait Stream: Drop {
    /// Begins a bounded wait: the reads and writes after it, up to the next call of this, wait a bounded time together.
    fn begin(&mut self);

    /// Reads some bytes to the front of the buffer, and returns how many. It waits for the first of them.
    fn read(&mut self, buffer: &mut [u8]) -> Result<usize, NbdError>
        requires { 0 < length buffer.old }
        ensures { IfOk result (λ count. (0 < count) × (count ≤ length buffer.old)) };

    /// Reads what is there to the front of the buffer, and returns how many bytes that is, which may be 0. Where nothing is there, and
    /// `pause` is true, it waits for the first of them, at most a millisecond.
    fn try_read(&mut self, buffer: &mut [u8], pause: bool) -> Result<usize, NbdError>
        requires { 0 < length buffer.old }
        ensures { IfOk result (λ count. count ≤ length buffer.old) };

    /// Writes some bytes from the front of these, and returns how many. It waits until there is room for the first of them.
    fn write(&mut self, bytes: &[u8]) -> Result<usize, NbdError>
        requires { 0 < length bytes.now }
        ensures { IfOk result (λ count. (0 < count) × (count ≤ length bytes.now)) };
}
