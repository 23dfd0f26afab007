//! MESSAGE-INTEGRITY and FINGERPRINT: refused growths, and bits that are flipped.

ghost use Rattle.std.specs.Prelude.{◌≡◌, [], IfOk};

use failing_alloc::FailingAlloc;
use std::alloc::{AllocError, Allocator, Global};
use std::test::Fail;
use turn_codec::{Builder, Message, PushError};
use turn_mac::{append_fingerprint, append_integrity, fingerprint_holds};
use turn_types::{Class, Method, TxId};

/// MD5 of "user:realm:pass".
const KEY: [u8; 16] = *b"\x84\x93\xfb\xc5\x3b\xa5\x82\xfb\x4c\x04\x4c\x45\x6b\xdc\x40\xeb";

/// A Binding request with a MESSAGE-INTEGRITY under the key, and a FINGERPRINT after it.
const SIGNED: [u8; 52] =
    *b"\x00\x01\x00\x20\x21\x12\xa4\x42\x01\x02\x03\x04\x05\x06\x07\x08\x09\x0a\x0b\x0c\
    \x00\x08\x00\x14\x2c\x84\xaf\xb8\x50\xd4\xd8\x12\x4c\xf1\xea\xf4\xd3\x0e\x9a\x97\
    \x4e\xbd\x35\xdb\
    \x80\x28\x00\x04\xb1\xf3\x5d\xc7";

fn binding<A: Allocator + Copy>(alloc: A) -> Result<Builder<A>, AllocError>
    ensures { IfOk result (λ b. b.attributes ≡ []) }
{
    let id = TxId([1, 2, 3, 4, 5, 6, 7, 8, 9, 10, 11, 12]);
    Builder::new(alloc, Class::Request, Method::BINDING, id)
}

/// Adds both where the growth after so many is refused, and says whether one was. A refusal leaves the message as it was.
fn is_refused(alloc: Global, served: u64) -> Result<bool, Fail> {
    let refusing = FailingAlloc::new(alloc, u64::MAX);
    let mut builder = binding(&refusing)?;
    refusing.arm(served);
    if append_integrity(&mut builder, &KEY) == Err(PushError::Memory) {
        if builder.as_bytes().len() != 20 {
            return Err(Fail::new("a refused integrity"));
        }
        append_integrity(&mut builder, &KEY)?;
    }
    if append_fingerprint(&mut builder) == Err(PushError::Memory) {
        if builder.as_bytes().len() != 44 {
            return Err(Fail::new("a refused fingerprint"));
        }
        append_fingerprint(&mut builder)?;
    }
    if builder.as_bytes() != SIGNED.as_slice() {
        return Err(Fail::new("the message"));
    }
    Ok(refusing.has_refused())
}

#[test]
fn a_refused_growth_leaves_the_message(rt: HostRuntime) -> Result<(), Fail> {
    assert!(rt; is_refused(rt.alloc(), 0)?);
    for served in 1..8u64 {
        if !is_refused(rt.alloc(), served)? {
            return Ok(());
        }
    }
    Err("some growth is always refused")?
}

/// A Binding request with a FINGERPRINT.
const CHECKED: [u8; 28] =
    *b"\x00\x01\x00\x08\x21\x12\xa4\x42\x01\x02\x03\x04\x05\x06\x07\x08\x09\x0a\x0b\x0c\
    \x80\x28\x00\x04\x5b\x20\xf9\xcc";

/// Whether it is a message, after a bit is flipped, whose FINGERPRINT holds.
fn holds_with(place: usize, bit: u8) -> bool {
    let mut bytes = CHECKED;
    if place < bytes.len() {
        bytes[place] ^= bit;
    }
    match Message::parse(&bytes) {
        Ok(message) => fingerprint_holds(&message),
        Err(_) => false,
    }
}

const BITS: [u8; 8] = [1, 2, 4, 8, 16, 32, 64, 128];

#[test]
fn a_flipped_bit_is_found(rt: HostRuntime) {
    assert!(rt; holds_with(0, 0));
    for place in 0..28 {
        for bit in &BITS {
            assert!(rt; !holds_with(place, *bit));
        }
    }
}
