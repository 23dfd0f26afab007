//! Digests and codes, and the calls on a message that check them.

use crate::measured::best_of;
use crate::requests::{FLAG, HOUR, Kind, PEER, UDP};
use crate::server::datagrams::{CLIENT, request};
use sha1::Sha1;
use std::alloc::{AllocError, Global};
use std::io;
use test_requests::ALICE;
use turn_codec::Message;
use turn_mac::{crc32, fingerprint_holds, hmac_sha1, integrity_holds};

/// The bytes before the MESSAGE-INTEGRITY of the message.
const BEFORE: usize = 164;

/// 1 MiB.
const LARGE: usize = 1 << 20;

/// The CRC-32 of the `LARGE` bytes of `spread`, by Python's zlib.
const CRC: u32 = 0x1589_87C5;

/// Whether the bytes are a message whose integrity holds.
pub fn has_integrity(bytes: &[u8], key: &[u8; 16]) -> bool {
    match Message::parse(bytes) {
        Ok(message) => integrity_holds(&message, key),
        Err(_) => false,
    }
}

fn has_fingerprint(bytes: &[u8]) -> bool {
    match Message::parse(bytes) {
        Ok(message) => fingerprint_holds(&message),
        Err(_) => false,
    }
}

/// Puts a byte of a result before those that the next call reads, so that no two calls are alike.
fn put_first(bytes: &mut [u8], value: u8) -> bool {
    match bytes.first_mut() {
        Some(first) => {
            *first = value;
            true
        }
        None => false,
    }
}

fn digest(bytes: &mut [u8]) -> bool {
    let sum = Sha1::digest(bytes);
    put_first(bytes, sum[0])
}

fn hmac(bytes: &mut [u8], key: &[u8; 16]) -> bool {
    let sum = hmac_sha1(key, bytes);
    put_first(bytes, sum[0])
}

fn crc(bytes: &mut [u8]) -> bool {
    let [first, ..] = crc32(bytes).to_be_bytes();
    put_first(bytes, first)
}

/// 1 MiB of bytes.
fn spread(alloc: Global) -> Result<Vec<u8>, AllocError> {
    let mut bytes = Vec::with_capacity(alloc, LARGE)?;
    for place in 0..LARGE as u64 {
        bytes.push((place.wrapping_mul(2_654_435_761) >> 24 & 0xFF) as u8)?;
    }
    Ok(bytes)
}

/// A message with a FINGERPRINT after it (RFC 8489, section 14.7).
fn with_fingerprint(alloc: Global, message: &[u8]) -> Result<Vec<u8>, AllocError> {
    let mut bytes = Vec::from_slice(alloc, message)?;
    // The length, of which the high byte is 0.
    if let Some(length) = bytes.get_mut(3) {
        *length = (BEFORE + 32 - 20) as u8;
    }
    let value = crc32(&bytes) ^ 0x5354_554E;
    bytes.extend_from_slice(&[0x80, 0x28, 0, 4])?;
    bytes.extend_from_slice(&value.to_be_bytes())?;
    Ok(bytes)
}

/// The nanoseconds of a call.
fn measure<F: FnMut() -> bool>(rt: &HostRuntime, call: &mut F, count: usize) -> io::Result<u128>
    requires { (state : F) → F.pre state }
{
    let timing = best_of(rt, call, count)?;
    if timing.done != count {
        println!(rt; "a wrong answer")?;
    }
    Ok(timing.nanos(1))
}

fn print(rt: &HostRuntime, name: &str, nanos: u128) -> io::Result<()> {
    println!(rt; "{name:<33}{nanos:>8} ns")
}

/// The same with a quotient.
fn print_by(
    rt: &HostRuntime,
    name: &str,
    nanos: u128,
    divisor: u128,
    unit: &str,
) -> io::Result<()> {
    let hundredths = nanos.saturating_mul(100) / divisor.max(1);
    print!(rt; "{name:<33}{nanos:>8} ns   ")?;
    println!(rt; "{}.{:02} {unit}", hundredths / 100, hundredths % 100)
}

fn measure_digests(rt: &HostRuntime, bytes: &mut [u8], count: usize) -> io::Result<()> {
    let key = ALICE.key();
    let two = measure(rt, &mut || digest(bytes) && digest(bytes), count)?;
    print(rt, "two SHA-1 digests of 164 bytes", two)?;
    let one = measure(rt, &mut || hmac(bytes, &key), count)?;
    print_by(rt, "HMAC-SHA1 of 164 bytes", one, two, "of the two digests")
}

fn measure_message(rt: &HostRuntime, bytes: &mut [u8], count: usize) -> io::Result<()> {
    let key = ALICE.key();
    let message = request(rt.alloc(), Kind::Allocate, CLIENT, &[UDP, HOUR, PEER, FLAG])?;
    let each = measure(rt, &mut || has_integrity(&message, &key), count)?;
    print(rt, "integrity_holds after 164 bytes", each)?;
    let each = measure(rt, &mut || crc(bytes), count)?;
    print(rt, "CRC-32 of 164 bytes", each)?;
    let whole = with_fingerprint(rt.alloc(), &message)?;
    let each = measure(rt, &mut || has_fingerprint(&whole), count)?;
    print(rt, "fingerprint_holds of 196 bytes", each)
}

/// Measures them all. The CRC-32 of 1 MiB is made once for 2,000 calls of the others; `bench/mac.c` makes its steps in C.
pub fn measure_all(rt: &HostRuntime, count: usize) -> io::Result<()> {
    let mut bytes = Vec::from_elem(rt.alloc(), 0u8, BEFORE)?;
    measure_digests(rt, &mut bytes, count)?;
    measure_message(rt, &mut bytes, count)?;
    let mut large = spread(rt.alloc())?;
    if crc32(&large) != CRC {
        println!(rt; "a wrong answer")?;
    }
    let each = measure(rt, &mut || crc(&mut large), count / 2000)?;
    print_by(rt, "CRC-32 of 1 MiB", each, LARGE as u128, "ns a byte")
}
