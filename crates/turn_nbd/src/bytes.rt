//! Bytes that are compared, and put into a buffer.

ghost use Rattle.std.specs.Prelude.{◌≡◌, ◌≢◌, ◌+◌, ◌++◌, ◌≤◌, MatchBool, length, take};

/// Whether these are other bytes than those.
pub fn differ(bytes: &[u8], others: &[u8]) -> bool
    ensures { MatchBool result (bytes.now ≢ others.now) (bytes.now ≡ others.now) }
{
    bytes != others
}

/// Puts bytes into a buffer.
pub fn put(buffer: &mut [u8], at: usize, bytes: &[u8])
    requires { at + length bytes.now ≤ length buffer.old }
    ensures { take (at + length bytes.now) buffer.new ≡ take at buffer.old ++ bytes.now }
{
    buffer[at..at + bytes.len()].copy_from_slice(bytes);
}
