//! The lines of a configuration, one setting each.

ghost use Rattle.std.specs.Prelude.{◌≡◌, ◌≢◌, ◌&&◌, Ok, IfOk, MatchOption, OnErr, OnOk, true, false, if◌then◌else◌, is_none, is_some};
ghost use Rattle.std.specs.FinMap as map;
ghost use Rattle.std.specs.Option.{unwrap_or};
ghost use Rattle.turn_mac.specs.Hmac.{auth_key};
ghost use Rattle.turn_types.specs.Limits.{max_bounds};
ghost use Rattle.turn_config.specs.Lines.{AreUsers, IsConfigured, IsRealm, Lacks, Lines, Says, Sets, is_shared, no_lines, shared_password, skipped};
ghost use Rattle.turn_config.specs.declared.settings.Setting.TheVariants.{Deny, Local, User};

use crate::settings::{
    Relay, Setting, auth_secret_of, limits_of, quota_of, range_of, realm_of, relay_of, secret_of,
    setting_of, user_of,
};
use crate::values::{endpoint, ip, split_once};
use std::alloc::{AllocError, Allocator, Global};
use std::collections::BTreeMap;
use std::marker::Model;
use turn_cred::{Credentials, SharedSecret, Users};
use turn_local::{LocalPeer, LocalPeers};
use turn_mac::generate_auth_key;
use turn_ports::{PortRange, RelayAddressGenerator};
use turn_types::{ConfigError, Endpoint, IpRange, Limits, ServerConfig, Settings};

/// The quota of a configuration without a `quota` line.
const QUOTA: u32 = 10;

/// How many `deny` lines there may be.
pub(crate) const MAX_DENIED: usize = 64;

/// What the lines of a configuration say so far. The texts are slices of the lines.
#[derive(Drop)]
pub struct ConfigLines<'a, A: Allocator = Global> {
    alloc: A,
    realm: Option<&'a [u8]>,
    secret: Option<[u8; 32]>,
    listen: Option<Endpoint>,
    relay: Option<Relay>,
    relay_bind: Option<u32>,
    quota: Option<u32>,
    limits: Option<Limits>,
    denied: Vec<IpRange, A>,
    local_peers: LocalPeers,
    passwords: BTreeMap<Vec<u8, A>, &'a [u8], A>,
    auth_secret: Option<&'a [u8]>,
}

impl<'a, A: Allocator> Model for ConfigLines<'a, A> {
    ghost use Rattle.std.specs.Coded.{codes};
    ghost use Rattle.std.specs.Prelude.{option_map};
    ghost use Rattle.turn_cred.specs.Users.{key_map_code};
    ghost use Rattle.turn_config.specs.Lines.{CanBeUsed, Lines, passwords_of};

    ghost Value = { Lines };

    ghost coded = { Prim.hlevel (codes, key_map_code) };

    ghost view = { λ c. record {
      realm = option_map (λ r. r.now) c.realm;
      secret = c.secret;
      listen = c.listen;
      relay = c.relay;
      relay_bind = c.relay_bind;
      quota = c.quota;
      limits = c.limits;
      denied = c.denied.items;
      local_peers = c.local_peers;
      passwords = passwords_of c.passwords.entries;
      auth_secret = option_map (λ s. s.now) c.auth_secret;
    } };

    ghost invariant = { λ c. CanBeUsed (option_map (λ r. r.now) c.realm) c.quota c.denied.items };
}

/// What a whole configuration says: what a server is made of, and the passwords that a client needs.
#[derive(Drop)]
pub struct Configured<'a, A: Allocator = Global> {
    /// The configuration of a server.
    pub config: ServerConfig<A>,
    /// The users by their keys, and the secret of all other names, if there is one.
    pub credentials: Credentials<A>,
    /// The address that clients send to.
    pub listen: Endpoint,
    /// The range of the relayed ports.
    pub ports: PortRange,
    /// The address that relay sockets are bound to, if a line says so.
    pub relay_bind: Option<u32>,
    /// The peers on the server's own machine that relay ports may send to.
    pub local_peers: LocalPeers,
    /// The realm, as the configuration has it: 1 to 127 bytes.
    pub realm: &'a [u8],
    /// The passwords by the users' names.
    pub passwords: BTreeMap<Vec<u8, A>, &'a [u8], A>,
    /// The secret that is shared with a web service, if there is one, for those who make passwords.
    pub auth_secret: Option<SharedSecret<A>>,
}

impl<'a, A: Allocator> Configured<'a, A> {
    /// Whether a name has no `user` line, and is within the limit.
    fn is_shared(&self, name: &[u8]) -> bool
        ensures { result ≡ is_shared self.now name.now }
    {
        let own = self.passwords.contains_key(name);
        let limit = self.config.limits().name_bytes();
        !own && name.len() <= usize::from(limit)
    }

    /// The password of a name under the secret. `None` if there is no secret, the name is above the limit, or it has a `user` line,
    /// whose password it has then.
    #[tactic(auto, unfolding(crate::specs::Lines::shared_password))]
    pub fn shared_password(&self, name: &[u8]) -> Option<[u8; 28]>
        ensures { result ≡ shared_password self.now name.now }
    {
        if !self.is_shared(name) {
            return None;
        }
        let secret = self.auth_secret.as_ref()?;
        Some(secret.password(name))
    }
}

/// Whether a line says nothing: it is empty, or a comment, which begins with `#`.
pub fn is_skipped(line: &[u8]) -> bool
    ensures { result ≡ skipped line.now }
{
    matches!(line, [] | [b'#', ..])
}

/// Sets what is not set yet to a value, if there is one. Returns whether it did.
fn put<T: Drop>(place: &mut Option<T>, value: Option<T>) -> bool
    ensures done { result ≡ (is_none place.old && is_some value) }
    ensures new { place.new ≡ (if result then value else place.old) }
{
    if place.is_some() || value.is_none() {
        return false;
    }
    *place = value;
    true
}

/// Gives a user the key of a password.
fn add_key<A: Allocator + Copy>(
    users: &mut Users<A>,
    name: &[u8],
    realm: &[u8],
    password: &[u8],
) -> Result<(), AllocError>
    ensures { OnOk result (users.new ≡ map.insert users.old name.now (auth_key name.now realm.now password.now)) }
{
    users.add(name, generate_auth_key(name, realm, password))
}

impl<'a, A: Allocator + Copy> ConfigLines<'a, A> {
    /// No lines.
    pub fn new(alloc: A) -> ConfigLines<'a, A>
        ensures { result ≡ no_lines }
    {
        ConfigLines {
            alloc,
            realm: None,
            secret: None,
            listen: None,
            relay: None,
            relay_bind: None,
            quota: None,
            limits: None,
            denied: Vec::new(alloc),
            local_peers: LocalPeers::new(),
            passwords: BTreeMap::new(alloc),
            auth_secret: None,
        }
    }

    /// Reads a line that is not skipped. False if it is bad: then it is as if it were not there.
    pub fn take(&mut self, line: &'a [u8]) -> Result<bool, AllocError>
        ensures good { result ≡ Ok true → Says line.now self.old self.new }
        ensures bad { result ≡ Ok false → self.new ≡ self.old }
        ensures only { (new : Lines) → Says line.now self.old new → result ≢ Ok false }
        ensures memory { OnErr result (self.new ≡ self.old) }
    {
        let Some((word, text)) = split_once(line, b' ') else {
            return Ok(false);
        };
        match setting_of(word) {
            Some(setting) => self.set(setting, text),
            None => Ok(false),
        }
    }

    fn set(&mut self, setting: Setting, text: &'a [u8]) -> Result<bool, AllocError>
        ensures good { result ≡ Ok true → Sets setting text.now self.old self.new }
        ensures bad { result ≡ Ok false → self.new ≡ self.old }
        ensures only { (new : Lines) → Sets setting text.now self.old new → result ≢ Ok false }
        ensures memory { OnErr result (self.new ≡ self.old) }
    {
        match setting {
            Setting::Realm => Ok(put(&mut self.realm, realm_of(text))),
            Setting::Secret => Ok(put(&mut self.secret, secret_of(text))),
            Setting::Listen => Ok(put(&mut self.listen, endpoint(text))),
            Setting::Relay => Ok(put(&mut self.relay, relay_of(text))),
            Setting::RelayBind => Ok(put(&mut self.relay_bind, ip(text))),
            Setting::Quota => Ok(put(&mut self.quota, quota_of(text))),
            Setting::Limits => Ok(put(&mut self.limits, limits_of(text))),
            Setting::Deny => self.deny(text),
            Setting::Local => Ok(self.allow(text)),
            Setting::User => self.add_user(text),
            Setting::AuthSecret => Ok(put(&mut self.auth_secret, auth_secret_of(text))),
        }
    }

    fn deny(&mut self, text: &'a [u8]) -> Result<bool, AllocError>
        ensures good { result ≡ Ok true → Sets Deny text.now self.old self.new }
        ensures bad { result ≡ Ok false → self.new ≡ self.old }
        ensures only { (new : Lines) → Sets Deny text.now self.old new → result ≢ Ok false }
        ensures memory { OnErr result (self.new ≡ self.old) }
    {
        let Some(range) = range_of(text) else {
            return Ok(false);
        };
        if MAX_DENIED <= self.denied.len() {
            return Ok(false);
        }
        self.denied.push(range)?;
        Ok(true)
    }

    fn allow(&mut self, text: &'a [u8]) -> bool
        ensures good { result ≡ true → Sets Local text.now self.old self.new }
        ensures bad { result ≡ false → self.new ≡ self.old }
        ensures only { (new : Lines) → Sets Local text.now self.old new → result ≡ true }
    {
        let Some(Relay { ip, ports }) = relay_of(text) else {
            return false;
        };
        let (first, last) = ports.range();
        self.local_peers.add(LocalPeer { ip, first, last })
    }

    fn add_user(&mut self, text: &'a [u8]) -> Result<bool, AllocError>
        ensures good { result ≡ Ok true → Sets User text.now self.old self.new }
        ensures bad { result ≡ Ok false → self.new ≡ self.old }
        ensures only { (new : Lines) → Sets User text.now self.old new → result ≢ Ok false }
        ensures memory { OnErr result (self.new ≡ self.old) }
    {
        let Some((name, password)) = user_of(text) else {
            return Ok(false);
        };
        if self.passwords.contains_key(name) {
            return Ok(false);
        }
        let name = Vec::from_slice(self.alloc, name)?;
        self.passwords.insert(name, password)?;
        Ok(true)
    }

    fn users(&self, realm: &[u8]) -> Result<Users<A>, AllocError>
        ensures { IfOk result (AreUsers self.now.passwords realm.now) }
    {
        let mut users = Users::new(self.alloc);
        for (name, password) in &self.passwords {
            add_key(&mut users, name, realm, password)?;
        }
        Ok(users)
    }

    fn shared(&self) -> Result<Option<SharedSecret<A>>, AllocError>
        ensures { IfOk result (λ shared. shared ≡ self.now.auth_secret) }
    {
        match self.auth_secret {
            Some(secret) => Ok(Some(SharedSecret::new(self.alloc, secret)?)),
            None => Ok(None),
        }
    }

    fn credentials(&self, realm: &[u8]) -> Result<Credentials<A>, AllocError>
        ensures users { IfOk result (λ c. AreUsers self.now.passwords realm.now c.users) }
        ensures secret { IfOk result (λ c. c.secret ≡ self.now.auth_secret) }
    {
        Ok(Credentials::new(self.users(realm)?, self.shared()?))
    }

    fn server_config(
        &self,
        realm: &[u8],
        secret: [u8; 32],
        relay: u32,
    ) -> Result<ServerConfig<A>, AllocError>
        requires { IsRealm realm.now }
        ensures { IfOk result (λ c. c ≡ record {
          realm = realm.now;
          secret = secret;
          relay = relay;
          quota = unwrap_or self.now.quota 10;
          denied = self.now.denied;
          limits = unwrap_or self.now.limits max_bounds;
        }) }
    {
        let settings = Settings {
            realm,
            secret,
            relay,
            quota: self.quota.unwrap_or(QUOTA),
            denied: &self.denied,
            limits: self.limits.unwrap_or(Limits::MAX),
        };
        match ServerConfig::new(self.alloc, settings) {
            Ok(config) => Ok(config),
            Err(ConfigError::Memory) => Err(AllocError),
            Err(_) => unreachable!(),
        }
    }

    /// What the lines say together. `None` if a needed line is missing: `realm`, `secret`, `listen` or `relay`.
    pub fn finish(self) -> Result<Option<Configured<'a, A>>, AllocError>
        ensures { IfOk result (λ found. MatchOption found (Lacks self.entry) (λ c. IsConfigured self.entry c)) }
    {
        let (Some(realm), Some(secret), Some(listen), Some(relay)) = (
            self.realm,
            self.secret,
            self.listen,
            self.relay,
        ) else {
            return Ok(None);
        };
        Ok(Some(Configured {
            config: self.server_config(realm, secret, relay.ip)?,
            credentials: self.credentials(realm)?,
            listen,
            ports: relay.ports,
            relay_bind: self.relay_bind,
            realm,
            auth_secret: self.shared()?,
            local_peers: self.local_peers,
            passwords: self.passwords,
        }))
    }
}
