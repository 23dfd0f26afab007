//! The configuration of a server, and the settings that it is made of.

ghost use Rattle.std.specs.Prelude.{◌≡◌, ◌≤◌, length, IfOk, IfSome, IfNone, IsOkUnless};
ghost use Rattle.std.specs.List.{list_all};
ghost use Rattle.turn_types.specs.Config.{is_ordered, refusal_of, is_denied};
ghost use Rattle.turn_types.specs.Limits.{AreInRange};
ghost use Rattle.turn_types.specs.Profile.{max_allocations};
ghost use Rattle.turn_types.specs.Settings.{config_of};

use crate::limits::Limits;
use crate::profile::MAX_ALLOCATIONS;
use std::alloc::{AllocError, Allocator, Global};
use std::marker::Model;
use thiserror::Error;

/// Addresses from a first to a last.
#[derive(Clone, Copy, Debug, PartialEq, Eq)]
pub struct IpRange {
    /// The lowest address, which is in the range.
    pub first: u32,
    /// The highest address, which is in the range too.
    pub last: u32,
}

/// Why a configuration was refused: the first that applies.
#[derive(Clone, Copy, Debug, PartialEq, Eq, Error)]
pub enum ConfigError {
    /// The realm is empty or too long.
    #[error("the realm doesn't have 1 to 127 bytes")]
    BadRealm,
    /// The quota is out of its range.
    #[error("the quota isn't 1 to 1,024")]
    BadQuota,
    /// There are too many denied ranges, or one is not in order.
    #[error("more than 64 ranges are denied, or one whose first address is after its last")]
    BadRange,
    /// An allocation failed.
    #[error("out of memory")]
    Memory,
}

impl From<AllocError> for ConfigError {
    ghost use Rattle.turn_types.specs.declared.config.ConfigError.TheVariants.{Memory};

    ghost from_gives = { λ _ e. e ≡ Memory };

    fn from(_error: AllocError) -> ConfigError {
        ConfigError::Memory
    }
}

/// What a configuration is made of.
#[derive(Clone, Copy, Debug)]
pub struct Settings<'a> {
    /// 1 to 127 bytes (RFC 8489, section 14.9).
    pub realm: &'a [u8],
    /// What nonces are made with; nobody else may know it.
    pub secret: [u8; 32],
    /// The IPv4 address that peers see.
    pub relay: u32,
    /// How many live allocations a user may have, 1 to 1,024.
    pub quota: u32,
    /// At most 64 ranges of addresses that no peer may have.
    pub denied: &'a [IpRange],
    /// The most that the server holds.
    pub limits: Limits,
}

/// The configuration of a server: settings that are in range.
pub struct ServerConfig<A: Allocator = Global> {
    realm: Vec<u8, A>,
    secret: [u8; 32],
    relay: u32,
    quota: u32,
    denied: Vec<IpRange, A>,
    limits: Limits,
}

// By hand: a derived drop is one step for each field in the proof of each caller.
impl<A: Allocator> Drop for ServerConfig<A> {
    fn drop(self) {
        let ServerConfig {
            realm: _,
            secret: _,
            relay: _,
            quota: _,
            denied: _,
            limits: _,
        } = self;
    }
}

impl<A: Allocator> Model for ServerConfig<A> {
    ghost use Rattle.std.specs.Prelude.{◌≡◌, None};
    ghost use Rattle.turn_types.specs.Config.{Config, refusal_of};

    ghost Value = { Config };

    ghost view = { λ c. record {
      realm = c.realm.items;
      secret = c.secret;
      relay = c.relay;
      quota = c.quota;
      denied = c.denied.items;
      limits = c.limits;
    } };

    ghost invariant = { λ c. refusal_of c.realm.items c.quota c.denied.items ≡ None };
}

fn are_ordered(ranges: &[IpRange]) -> bool
    ensures { result ≡ list_all is_ordered ranges.now }
{
    ranges.iter().all(|range| range.first <= range.last)
}

fn refusal(realm: &[u8], quota: u32, denied: &[IpRange]) -> Option<ConfigError>
    ensures { result ≡ refusal_of realm.now quota denied.now }
{
    if realm.is_empty() || 127 < realm.len() {
        return Some(ConfigError::BadRealm);
    }
    if quota < 1 || MAX_ALLOCATIONS < quota {
        return Some(ConfigError::BadQuota);
    }
    if 64 < denied.len() || !are_ordered(denied) {
        return Some(ConfigError::BadRange);
    }
    None
}

impl<A: Allocator + Copy> ServerConfig<A> {
    /// Copies the settings, once they are in range: `Memory` comes only where no other fault applies.
    ///
    /// ```rust
    /// let (secret, limits) = ([0; 32], Limits::MAX);
    /// let settings = Settings { realm: b"example.org", secret, relay: 0xC633_6401, quota: 10, denied: &[], limits };
    /// let config = ServerConfig::new(alloc, settings)?;
    /// assert_eq!(rt; config.quota(), 10);
    /// let refused = ServerConfig::new(alloc, Settings { quota: 0, ..settings });
    /// assert!(rt; matches!(refused, Err(ConfigError::BadQuota)));
    /// ```
    pub fn new(alloc: A, settings: Settings<'_>) -> Result<ServerConfig<A>, ConfigError>
        ensures ok { IfOk result (λ c. c ≡ config_of settings.entry) }
        ensures refused { IfSome (refusal_of settings.entry.realm.now settings.entry.quota settings.entry.denied.now) (λ e. result ≡ Err e) }
        ensures memory { IfNone (refusal_of settings.entry.realm.now settings.entry.quota settings.entry.denied.now) (IsOkUnless result ConfigError.Memory) }
    {
        if let Some(error) = refusal(settings.realm, settings.quota, settings.denied) {
            return Err(error);
        }
        Ok(ServerConfig {
            realm: Vec::from_slice(alloc, settings.realm)?,
            secret: settings.secret,
            relay: settings.relay,
            quota: settings.quota,
            denied: Vec::from_slice(alloc, settings.denied)?,
            limits: settings.limits,
        })
    }
}

impl<A: Allocator> ServerConfig<A> {
    /// The same configuration in memory of another allocator.
    pub fn try_clone<B: Allocator + Copy>(&self, alloc: B) -> Result<ServerConfig<B>, AllocError>
        ensures { IfOk result (λ c. c ≡ self.now) }
    {
        Ok(ServerConfig {
            realm: Vec::from_slice(alloc, &self.realm)?,
            secret: self.secret,
            relay: self.relay,
            quota: self.quota,
            denied: Vec::from_slice(alloc, &self.denied)?,
            limits: self.limits,
        })
    }

    /// The realm, 1 to 127 bytes (RFC 8489, section 14.9).
    pub fn realm(&self) -> &[u8]
        ensures value { result.now ≡ self.now.realm }
        ensures range { (1 ≤ length result.now) × (length result.now ≤ 127) }
    {
        &self.realm
    }

    /// The secret that nonces are made with.
    pub fn secret(&self) -> &[u8; 32]
        ensures { result.now ≡ self.now.secret }
    {
        &self.secret
    }

    /// The IPv4 address of the relayed addresses.
    pub fn relay(&self) -> u32
        ensures { result ≡ self.now.relay }
    {
        self.relay
    }

    /// How many live allocations a user may have.
    pub fn quota(&self) -> u32
        ensures value { result ≡ self.now.quota }
        ensures range { (1 ≤ result) × (result ≤ max_allocations) }
    {
        self.quota
    }

    /// Whether an address lies in a denied range.
    ///
    /// ```rust
    /// let denied = [IpRange { first: 0x7F00_0000, last: 0x7FFF_FFFF }];
    /// let config = ServerConfig::new(alloc, Settings { denied: &denied, ..settings })?;
    /// assert!(rt; config.is_denied(0x7F00_0001) && !config.is_denied(peer.ip));
    /// ```
    pub fn is_denied(&self, ip: u32) -> bool
        ensures { result ≡ is_denied self.now ip }
    {
        self.denied
            .iter()
            .any(|range| range.first <= ip && ip <= range.last)
    }

    /// The most that the server holds.
    pub fn limits(&self) -> Limits
        ensures value { result ≡ self.now.limits }
        ensures range { AreInRange result }
    {
        // What `bounds` ensures proves the ranges.
        let _ = self.limits.bounds();
        self.limits
    }
}
