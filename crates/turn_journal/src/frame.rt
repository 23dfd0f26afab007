//! The bytes of a frame after its gate, and the gate after it.

ghost use Rattle.std.specs.Prelude.{◌≡◌, ◌∷◌, ◌++◌, [], ◌+◌, ◌<◌, ◌≤◌, ◌^◌, length, take};
ghost use Rattle.turn_journal.specs.Frames.{framed};
ghost use Rattle.turn_journal.specs.Layout.{closed_gate, frame_head};

use crate::layout::{CLOSED, LENGTH_SIZE};
use std::alloc::Allocator;

/// Puts the payload's length, the payload and a closed gate at the front of the buffer.
pub fn put_frame<A: Allocator>(buffer: &mut Vec<u8, A>, payload: &[u8])
    requires room { length payload.now + frame_head ≤ length buffer.old.items }
    requires short { length payload.now < 2 ^ 32 }
    ensures len { length buffer.new.items ≡ length buffer.old.items }
    ensures frame { take (length payload.now + frame_head) buffer.new.items ≡ framed payload.now ++ closed_gate ∷ [] }
{
    let count = payload.len();
    put(buffer, 0, &(count as u32).to_be_bytes());
    put(buffer, LENGTH_SIZE, payload);
    put(buffer, LENGTH_SIZE + count, &[CLOSED]);
}

fn put<A: Allocator>(buffer: &mut Vec<u8, A>, at: usize, bytes: &[u8])
    requires { at + length bytes.now ≤ length buffer.old.items }
    ensures len { length buffer.new.items ≡ length buffer.old.items }
    ensures front { take (at + length bytes.now) buffer.new.items ≡ take at buffer.old.items ++ bytes.now }
{
    buffer[at..at + bytes.len()].copy_from_slice(bytes);
}
