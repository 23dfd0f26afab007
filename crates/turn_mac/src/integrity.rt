//! MESSAGE-INTEGRITY and FINGERPRINT (RFC 8489, sections 14.5 and 14.7).

ghost use Rattle.std.specs.Prelude.{◌≡◌, ◌≤◌, ◌<◌, ◌+◌, ◌^◌, ◌↔◌, [], IsTrue, List, ℕ, OnOk, OnErr, length};
ghost use Rattle.turn_codec.specs.AttributeTypes.{message_integrity, fingerprint};
ghost use Rattle.turn_codec.specs.Grammar.{from, canonical, with_attribute, body_size};
ghost use Rattle.turn_mac.specs.Integrity.{integrity_of, IntegrityHolds, has_right_integrity, fingerprint_of, FingerprintHolds, canonical_datagram};
ghost use Rattle.turn_mac.specs.Fingerprint.{is_fingerprint_right};

use crate::crc::Checksum;
use crate::hmac::hmac_of;
use sha1::Sha1;
use std::alloc::{AllocError, Allocator};
use turn_codec::{AttributeType, Builder, Message, PushError};

// A message's header, and 65,532 bytes of attributes.
const MAX_MESSAGE: usize = 65_552;

// What CRC-32 is masked with, so that a FINGERPRINT is no CRC-32 of another protocol (section 14.7).
const FINGERPRINT_MASK: u32 = 0x5354_554E;

fn integrity_value(key: &[u8], front: &[u8]) -> [u8; 20]
    requires header { 4 ≤ length front.now }
    requires size { length front.now + 4 < 2 ^ 16 }
    ensures { result ≡ integrity_of key.now front.now }
{
    let size = (front.len() + 4) as u16;
    hmac_of::<Sha1, 20>(key, &[&front[..2], &size.to_be_bytes(), &front[4..]])
}

fn fingerprint_value(front: &[u8]) -> [u8; 4]
    requires header { 20 ≤ length front.now }
    requires size { length front.now < 2 ^ 16 + 12 }
    ensures { result ≡ fingerprint_of front.now }
{
    let size = (front.len() - 12) as u16;
    let mut checksum = Checksum::new();
    checksum.update(&front[..2]);
    checksum.update(&size.to_be_bytes());
    checksum.update(&front[4..]);
    (checksum.finalize() ^ FINGERPRINT_MASK).to_be_bytes()
}

/// In how many places two digests differ, of which the first has at least the length of the other.
fn differences(found: &[u8], expected: &[u8]) -> usize
    requires { length found.now ≡ length expected.now }
    ensures none { (result ≡ 0) ↔ (found.now ≡ expected.now) }
    ensures bound { result ≤ length found.now }
{
    match (found, expected) {
        ([a, found @ ..], [b, expected @ ..]) => usize::from(a != b) + differences(found, expected),
        _ => 0,
    }
}

/// Whether a digest that was received is the expected one. Every digest that depends on a secret is compared here, to its end: so the
/// time doesn't say in how many bytes they agree.
pub fn digests_agree(found: &[u8], expected: &[u8]) -> bool
    ensures { IsTrue result ↔ (found.now ≡ expected.now) }
{
    found.len() == expected.len() && differences(found, expected) == 0
}

/// Whether the first MESSAGE-INTEGRITY of a message is right under the key (RFC 8489, section 14.5).
///
/// The key is the user's long-term key, 16 bytes (section 9.2.2), or any other. False for a message without
/// MESSAGE-INTEGRITY, and for one whose value has another length than 20 bytes.
pub fn integrity_holds(message: &Message<'_>, key: &[u8]) -> bool
    ensures exact { IsTrue result ↔ IntegrityHolds key.now message.now }
    ensures value { result ≡ has_right_integrity key.now message.now }
{
    let Some(found) = message.before_integrity() else {
        return false;
    };
    found.value.len() == 20 && digests_agree(found.value, &integrity_value(key, found.front))
}

/// Whether the first FINGERPRINT of a message is its last attribute and right (RFC 8489, section 14.7).
///
/// False for a message without FINGERPRINT, and for one whose value has another length than 4 bytes.
pub fn fingerprint_holds(message: &Message<'_>) -> bool
    ensures exact { IsTrue result ↔ FingerprintHolds message.now }
    ensures value { result ≡ is_fingerprint_right message.now }
{
    let Some(found) = message.locate(AttributeType::FINGERPRINT) else {
        return false;
    };
    found.is_last
        && found.value.len() == 4
        && found.value == fingerprint_value(found.front).as_slice()
}

/// Adds the MESSAGE-INTEGRITY that holds under the key to a message that has none, and has room for it
/// (RFC 8489, section 14.5).
///
/// An `Err` is for memory alone, and then the message is as before.
pub fn append_integrity_fitting<A: Allocator + Copy>(
    builder: &mut Builder<A>,
    key: &[u8],
) -> Result<(), AllocError>
    requires none { from message_integrity builder.old.attributes ≡ [] }
    requires fits { body_size builder.old + 24 ≤ 65532 }
    ensures ok { OnOk result (builder.new ≡ with_attribute builder.old message_integrity
        (integrity_of key.now (canonical builder.old))) }
    ensures holds { OnOk result (IntegrityHolds key.now (canonical_datagram builder.new)) }
    ensures size { OnOk result (body_size builder.new ≡ body_size builder.old + 24) }
    ensures err { OnErr result (builder.new ≡ builder.old) }
{
    let value = integrity_value(key, builder.as_bytes());
    builder.push_fitting(AttributeType::MESSAGE_INTEGRITY, &value)
}

/// Adds the MESSAGE-INTEGRITY that holds under the key to a message that has none (RFC 8489, section 14.5).
///
/// After an `Err` the message is as before.
pub fn append_integrity<A: Allocator + Copy>(
    builder: &mut Builder<A>,
    key: &[u8],
) -> Result<(), PushError>
    requires { from message_integrity builder.old.attributes ≡ [] }
    ensures ok { OnOk result (builder.new ≡ with_attribute builder.old message_integrity
        (integrity_of key.now (canonical builder.old))) }
    ensures holds { OnOk result (IntegrityHolds key.now (canonical_datagram builder.new)) }
    ensures size { OnOk result (body_size builder.new ≡ body_size builder.old + 24) }
    // Whether it is too long is checked before memory is asked for.
    ensures too_long { (result ≡ Err PushError.TooLong) ↔ (65532 < body_size builder.old + 24) }
    ensures err { OnErr result (builder.new ≡ builder.old) }
{
    if builder.as_bytes().len() + 24 > MAX_MESSAGE {
        return Err(PushError::TooLong);
    }
    append_integrity_fitting(builder, key)?;
    Ok(())
}

/// Adds the FINGERPRINT that holds to a message that has none, and has room for it (RFC 8489, section 14.7).
///
/// An `Err` is for memory alone, and then the message is as before.
pub fn append_fingerprint_fitting<A: Allocator + Copy>(
    builder: &mut Builder<A>,
) -> Result<(), AllocError>
    requires none { from fingerprint builder.old.attributes ≡ [] }
    requires fits { body_size builder.old + 8 ≤ 65532 }
    ensures ok { OnOk result (builder.new ≡ with_attribute builder.old fingerprint
        (fingerprint_of (canonical builder.old))) }
    ensures holds { OnOk result (FingerprintHolds (canonical_datagram builder.new)) }
    // A MESSAGE-INTEGRITY that held still holds.
    ensures integrity { (key : List ℕ) → IntegrityHolds key (canonical_datagram builder.old) →
        OnOk result (IntegrityHolds key (canonical_datagram builder.new)) }
    ensures err { OnErr result (builder.new ≡ builder.old) }
{
    let value = fingerprint_value(builder.as_bytes());
    builder.push_fitting(AttributeType::FINGERPRINT, &value)
}

/// Adds the FINGERPRINT that holds to a message that has none (RFC 8489, section 14.7).
///
/// After an `Err` the message is as before.
pub fn append_fingerprint<A: Allocator + Copy>(builder: &mut Builder<A>) -> Result<(), PushError>
    requires { from fingerprint builder.old.attributes ≡ [] }
    ensures ok { OnOk result (builder.new ≡ with_attribute builder.old fingerprint
        (fingerprint_of (canonical builder.old))) }
    ensures holds { OnOk result (FingerprintHolds (canonical_datagram builder.new)) }
    // A MESSAGE-INTEGRITY that held still holds.
    ensures integrity { (key : List ℕ) → IntegrityHolds key (canonical_datagram builder.old) →
        OnOk result (IntegrityHolds key (canonical_datagram builder.new)) }
    // Whether it is too long is checked before memory is asked for.
    ensures too_long { (result ≡ Err PushError.TooLong) ↔ (65532 < body_size builder.old + 8) }
    ensures err { OnErr result (builder.new ≡ builder.old) }
{
    if builder.as_bytes().len() + 8 > MAX_MESSAGE {
        return Err(PushError::TooLong);
    }
    append_fingerprint_fitting(builder)?;
    Ok(())
}
