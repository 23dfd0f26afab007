//! Values in text: numbers, moments, addresses, and bytes in hex. A number has 1 to 20 decimal digits, leading zeros
//! included, and no sign.

ghost use Rattle.std.specs.Prelude.{◌≡◌, ◌≢◌, ◌-◌, ◌<◌, ◌^◌, ◌++◌, ◌∷◌, ℕ, Bool, All, IfOk, IfSome, IfNone, MatchOption, SomeIff, IsErr};
ghost use Rattle.hex.specs.Hex.{decode_of};
ghost use Rattle.turn_types.specs.declared.address.Endpoint.{Endpoint};
ghost use Rattle.turn_config.specs.Values.{number_of, IsNumberBelow, IsIp, IsEndpoint};
ghost use Rattle.turn_types.specs.Profile.{end_of_moments};

use hex::FromHexError;
use std::alloc::{AllocError, Allocator};
use turn_types::{Endpoint, Moment};

/// A number below 2^64.
pub fn number(text: &[u8]) -> Option<u64>
    ensures { SomeIff result (IsNumberBelow (2 ^ 64) text.now) (number_of text.now) }
{
    if text.is_empty() || 20 < text.len() {
        return None;
    }
    let mut value = 0u128;
    for byte in text {
        let digit = char::from(*byte).to_digit(10)?;
        value = value * 10 + u128::from(digit);
    }
    u64::try_from(value).ok()
}

/// A moment, as the number of its seconds.
pub fn moment(text: &[u8]) -> Option<Moment>
    ensures { SomeIff result (IsNumberBelow end_of_moments text.now) (number_of text.now) }
{
    Moment::new(number(text)?)
}

/// A number of 8 bits, up to 255.
pub fn octet(text: &[u8]) -> Option<u8>
    ensures { SomeIff result (IsNumberBelow 256 text.now) (number_of text.now) }
{
    u8::try_from(number(text)?).ok()
}

/// A number of 32 bits, below 2^32.
pub fn number_32(text: &[u8]) -> Option<u32>
    ensures { SomeIff result (IsNumberBelow (2 ^ 32) text.now) (number_of text.now) }
{
    u32::try_from(number(text)?).ok()
}

/// A number that counts from 1 on, below 2^64.
pub fn ordinal(text: &[u8]) -> Option<u64>
    ensures { SomeIff result (IsNumberBelow (2 ^ 64) text.now × (number_of text.now ≢ 0)) (number_of text.now) }
{
    let ordinal = number(text)?;
    if ordinal == 0 { None } else { Some(ordinal) }
}

/// A port, up to 65535.
pub fn port(text: &[u8]) -> Option<u16>
    ensures { SomeIff result (IsNumberBelow (2 ^ 16) text.now) (number_of text.now) }
{
    u16::try_from(number(text)?).ok()
}

/// The bytes before and after the first one that equals the separator.
pub fn split_once(text: &[u8], separator: u8) -> Option<(&[u8], &[u8])>
    ensures parts { IfSome result (λ x. text.now ≡ x.0.now ++ separator ∷ x.1.now) }
    ensures first { IfSome result (λ x. All (λ byte. byte ≢ separator) x.0.now) }
    ensures none { IfNone result (All (λ byte. byte ≢ separator) text.now) }
{
    let at = text.iter().position(|byte| *byte == separator)?;
    Some((&text[..at], &text[at + 1..]))
}

/// An IPv4 address: four numbers up to 255 with dots between.
///
/// ```rust
/// assert_eq!(rt; ip(b"192.0.2.100"), Some(0xC000_0264));
/// assert_eq!(rt; ip(b"192.0.2"), None);
/// ```
pub fn ip(text: &[u8]) -> Option<u32>
    ensures found { IfSome result (λ address. IsIp text.now address) }
    ensures only { (address : ℕ) → IsIp text.now address → result ≡ Some address }
{
    let (first, rest) = split_once(text, b'.')?;
    let (second, rest) = split_once(rest, b'.')?;
    let (third, fourth) = split_once(rest, b'.')?;
    let octets = [octet(first)?, octet(second)?, octet(third)?, octet(fourth)?];
    Some(u32::from_be_bytes(octets))
}

/// An IPv4 address and a port up to 65535, with a colon between.
///
/// ```rust
/// let listen = endpoint(b"192.0.2.100:3478").context("address")?;
/// assert_eq!(rt; (listen.ip, listen.port), (0xC000_0264, 3478));
/// assert_eq!(rt; format!(in alloc; "{}", ShownEndpoint(listen))?.as_str(), "192.0.2.100:3478");
/// ```
pub fn endpoint(text: &[u8]) -> Option<Endpoint>
    ensures found { IfSome result (λ endpoint. IsEndpoint text.now endpoint) }
    ensures only { (endpoint : Endpoint) → IsEndpoint text.now endpoint → result ≡ Some endpoint }
{
    let (address, number) = split_once(text, b':')?;
    Some(Endpoint {
        ip: ip(address)?,
        port: port(number)?,
    })
}

/// The bytes that pairs of hex digits of either case encode, or `None` for any other text. The empty text is no bytes.
pub fn bytes<A: Allocator>(alloc: A, text: &[u8]) -> Result<Option<Vec<u8, A>>, AllocError>
    ensures { IfOk result (λ found. MatchOption found (IsErr (decode_of text.now))
        (λ bytes. decode_of text.now ≡ Ok bytes.items)) }
{
    match hex::decode(alloc, text) {
        Ok(bytes) => Ok(Some(bytes)),
        Err(FromHexError::OutOfMemory) => Err(AllocError),
        Err(_) => Ok(None),
    }
}
