//! What the lines of a configuration say after their first words.

ghost use Rattle.std.specs.Prelude.{◌≡◌, ℕ, List, None, Some, IfSome, IsSome, true, MatchResult, SomeIff};
ghost use Rattle.std.specs.List.{list_all};
ghost use Rattle.hex.specs.Hex.{decode_sized};
ghost use Rattle.turn_types.specs.declared.config.IpRange.{IpRange};
ghost use Rattle.turn_types.specs.declared.limits.Bounds.{Bounds};
ghost use Rattle.turn_config.specs.Lines as lines;
ghost use Rattle.turn_config.specs.Lines.{is_unicast, is_visible, IsAuthSecret, IsLimits, IsQuota, IsRange, IsRealm, IsRelay, IsUser};
ghost use Rattle.turn_config.specs.Names.{name_of};
ghost use Rattle.turn_config.specs.declared.settings.Setting.{Setting};
ghost use Rattle.turn_config.specs.Values.{number_of, IsIp};
ghost use Rattle.turn_config.specs.declared.settings.Relay.{Relay};

use crate::values::{ip, number_32, port, split_once};
use turn_ports::PortRange;
use turn_types::{Bounds, IpRange, Limits};

/// How many bytes a realm may have (RFC 8489, section 14.9).
const MAX_REALM: usize = 127;

/// How many bytes the secret of a web service has at least.
const MIN_AUTH_SECRET: usize = 16;

/// How many bytes it may have.
const MAX_AUTH_SECRET: usize = 128;

/// A relay address and the range of its ports.
#[derive(Clone, Copy)]
pub(crate) struct Relay {
    pub(crate) ip: u32,
    pub(crate) ports: PortRange,
}

/// What a line sets.
#[derive(Clone, Copy)]
pub(crate) enum Setting {
    Realm,
    Secret,
    Listen,
    Relay,
    RelayBind,
    Quota,
    Limits,
    Deny,
    Local,
    User,
    AuthSecret,
}

/// What a line sets that begins with a word.
pub(crate) fn setting_of(word: &[u8]) -> Option<Setting>
    ensures found { IfSome result (λ setting. word.now ≡ name_of setting) }
    ensures only { (setting : Setting) → word.now ≡ name_of setting → result ≡ Some setting }
{
    match word {
        b"realm" => Some(Setting::Realm),
        b"secret" => Some(Setting::Secret),
        b"listen" => Some(Setting::Listen),
        b"relay" => Some(Setting::Relay),
        b"relay-bind" => Some(Setting::RelayBind),
        b"quota" => Some(Setting::Quota),
        b"limits" => Some(Setting::Limits),
        b"deny" => Some(Setting::Deny),
        b"local-peer" => Some(Setting::Local),
        b"user" => Some(Setting::User),
        b"auth-secret" => Some(Setting::AuthSecret),
        _ => None,
    }
}

fn are_visible(text: &[u8]) -> bool
    ensures { result ≡ list_all is_visible text.now }
{
    text.iter().all(|byte| 0x21 <= *byte && *byte <= 0x7e)
}

fn is_text(text: &[u8]) -> bool
    ensures { result ≡ lines.is_text text.now }
{
    !text.is_empty() && are_visible(text)
}

fn is_name(text: &[u8]) -> bool
    ensures { result ≡ lines.is_name text.now }
{
    is_text(text) && !text.contains(&b':')
}

pub(crate) fn realm_of(text: &[u8]) -> Option<&[u8]>
    ensures { SomeIff result (IsRealm text.now) text.entry }
{
    if is_text(text) && text.len() <= MAX_REALM {
        Some(text)
    } else {
        None
    }
}

/// The bytes of 64 hex digits.
pub(crate) fn secret_of(text: &[u8]) -> Option<[u8; 32]>
    ensures { MatchResult (decode_sized text.now 32) (λ bytes. result ≡ Some bytes) (λ _. result ≡ None) }
{
    let mut secret = [0u8; 32];
    hex::decode_to_slice(text, &mut secret).ok()?;
    Some(secret)
}

/// The secret that is shared with a web service.
pub(crate) fn auth_secret_of(text: &[u8]) -> Option<&[u8]>
    ensures { SomeIff result (IsAuthSecret text.now) text.entry }
{
    if is_text(text) && MIN_AUTH_SECRET <= text.len() && text.len() <= MAX_AUTH_SECRET {
        Some(text)
    } else {
        None
    }
}

/// Whether one machine can have an address: it isn't that of no machine, of a group (RFC 5771) or of all machines.
fn is_unicast(ip: u32) -> bool
    ensures { result ≡ is_unicast ip }
{
    0 < ip && ip < u32::MAX && !(0xE000_0000 <= ip && ip <= 0xEFFF_FFFF)
}

/// An address that one machine can have.
fn unicast(text: &[u8]) -> Option<u32>
    ensures found { IfSome result (λ address. IsIp text.now address × (is_unicast address ≡ true)) }
    ensures only { (address : ℕ) → IsIp text.now address → is_unicast address ≡ true → result ≡ Some address }
{
    let address = ip(text)?;
    if is_unicast(address) {
        Some(address)
    } else {
        None
    }
}

pub(crate) fn relay_of(text: &[u8]) -> Option<Relay>
    ensures found { IfSome result (λ relay. IsRelay text.now relay) }
    ensures only { (relay : Relay) → IsRelay text.now relay → result ≡ Some relay }
{
    let (address, rest) = split_once(text, b' ')?;
    let (low, high) = split_once(rest, b' ')?;
    Some(Relay {
        ip: unicast(address)?,
        ports: PortRange::new(port(low)?, port(high)?)?,
    })
}

pub(crate) fn quota_of(text: &[u8]) -> Option<u32>
    ensures { SomeIff result (IsQuota text.now) (number_of text.now) }
{
    let quota = number_32(text)?;
    if 1 <= quota && quota <= 1024 {
        Some(quota)
    } else {
        None
    }
}

pub(crate) fn range_of(text: &[u8]) -> Option<IpRange>
    ensures found { IfSome result (λ range. IsRange text.now range) }
    ensures only { (range : IpRange) → IsRange text.now range → result ≡ Some range }
{
    let (first, last) = split_once(text, b' ')?;
    let (first, last) = (ip(first)?, ip(last)?);
    if first <= last {
        Some(IpRange { first, last })
    } else {
        None
    }
}

pub(crate) fn limits_of(text: &[u8]) -> Option<Limits>
    ensures found { IfSome result (λ limits. IsLimits text.now limits) }
    ensures only { (bounds : Bounds) → IsLimits text.now bounds → result ≡ Some bounds }
{
    let (allocations, rest) = split_once(text, b' ')?;
    let (permissions, rest) = split_once(rest, b' ')?;
    let (channels, rest) = split_once(rest, b' ')?;
    let (acts, name_bytes) = split_once(rest, b' ')?;
    Limits::new(Bounds {
        allocations: number_32(allocations)?,
        permissions: port(permissions)?,
        channels: port(channels)?,
        acts: port(acts)?,
        name_bytes: port(name_bytes)?,
    })
}

/// The name and the password of a user.
pub(crate) fn user_of(text: &[u8]) -> Option<(&[u8], &[u8])>
    ensures found { IfSome result (λ user. IsUser text.now user.0.now user.1.now) }
    ensures only { (name : List ℕ) (password : List ℕ) → IsUser text.now name password
        → IsSome result }
{
    let (name, password) = split_once(text, b' ')?;
    if is_name(name) && is_text(password) {
        Some((name, password))
    } else {
        None
    }
}
