//! Time-limited credentials: names that begin with their expiry time, under a secret that is shared with a web service.

ghost use Rattle.std.specs.Prelude.{◌≡◌, IfOk, None, option_map};
ghost use Rattle.std.specs.FinMap as map;
ghost use Rattle.turn_cred.specs.Shared.{expiry_of, key_in, lasting, moment_from, password_of, shared_key};

use crate::handler::AuthHandler;
use crate::key::Key;
use crate::users::Users;
use base64::engine::general_purpose::STANDARD;
use std::alloc::{AllocError, Allocator, Global};
use std::marker::Model;
use turn_mac::{generate_auth_key, hmac_sha1};
use turn_types::Moment;

/// The number that goes on with the digits up to the first colon or the end, if it is a moment.
#[tactic(auto, unfolding(crate::specs::Shared::moment_from))]
fn moment_from(number: u64, text: &[u8]) -> Option<Moment>
    ensures { result ≡ moment_from number text.now }
{
    let [byte, rest @ ..] = text else {
        return Moment::new(number);
    };
    if *byte == b':' {
        return Moment::new(number);
    }
    if b'0' <= *byte && *byte <= b'9' && number < 1_099_511_624_176 {
        return moment_from(number * 10 + u64::from(*byte - b'0'), rest);
    }
    None
}

/// The expiry time with which a name begins.
#[tactic(auto, unfolding(crate::specs::Shared::expiry_of))]
fn expiry_of(name: &[u8]) -> Option<Moment>
    ensures { result ≡ expiry_of name.now }
{
    let [byte, rest @ ..] = name else {
        return None;
    };
    if b'1' <= *byte && *byte <= b'9' {
        return moment_from(u64::from(*byte - b'0'), rest);
    }
    None
}

/// The secret of a web service that makes names and passwords.
#[derive(Drop)]
pub struct SharedSecret<A: Allocator = Global> {
    secret: Vec<u8, A>,
}

impl<A: Allocator> Model for SharedSecret<A> {
    ghost use Rattle.std.specs.Prelude.{ℕ, List};

    ghost Value = { List ℕ };

    ghost view = { λ s. s.secret.items };
}

impl<A: Allocator + Copy> SharedSecret<A> {
    /// Copies the secret.
    pub fn new(alloc: A, secret: &[u8]) -> Result<SharedSecret<A>, AllocError>
        ensures { IfOk result (λ s. s ≡ secret.now) }
    {
        Ok(SharedSecret {
            secret: Vec::from_slice(alloc, secret)?,
        })
    }
}

impl<A: Allocator> SharedSecret<A> {
    /// The password of a name, whether or not it begins with an expiry time: 28 bytes of base64 (RFC 4648, section 4).
    ///
    /// ```rust
    /// let shared = SharedSecret::new(alloc, b"secret")?;
    /// assert_eq!(rt; shared.password(b"4000:alice"), *b"z9ZEAhrLbqAIJrmORfM3a6Oaklo=");
    /// let key = shared.key(b"4000:alice", b"example.org").context("key")?;
    /// assert!(rt; !key.has_expired(Moment::new(3999).context("moment")?));
    /// assert!(rt; key.has_expired(Moment::new(4000).context("moment")?));
    /// ```
    #[tactic(auto, unfolding(crate::specs::Shared::password_of))]
    pub fn password(&self, name: &[u8]) -> [u8; 28]
        ensures { result ≡ password_of self.now name.now }
    {
        let mut password = [0; 28];
        let _ = STANDARD.encode_slice(&hmac_sha1(self.secret.as_slice(), name), &mut password);
        password
    }
}

impl<A: Allocator> AuthHandler for SharedSecret<A> {
    ghost key_of = { λ secret name realm. shared_key secret name realm };

    /// The key of a name that begins with its expiry time.
    #[tactic(auto, unfolding(crate::specs::Shared::shared_key))]
    fn key(&self, username: &[u8], realm: &[u8]) -> Option<Key> {
        let expiry = expiry_of(username)?;
        let password = self.password(username);
        Some(Key {
            bytes: generate_auth_key(username, realm, &password),
            expiry: Some(expiry),
        })
    }
}

/// Users with keys of their own, and a secret for all other names, if there is one.
#[derive(Drop)]
pub struct Credentials<A: Allocator = Global> {
    users: Users<A>,
    shared: Option<SharedSecret<A>>,
}

impl<A: Allocator> Model for Credentials<A> {
    ghost use Rattle.std.specs.Coded.{codes};
    ghost use Rattle.turn_cred.specs.Users.{key_map_code};
    ghost use Rattle.turn_cred.specs.Shared.{Sources};

    ghost Value = { Sources };

    ghost coded = { Prim.hlevel (codes, key_map_code) };

    ghost view = { λ c. record { users = c.users; secret = c.shared } };
}

impl<A: Allocator> Credentials<A> {
    /// Users, and a secret for all other names. Without a secret no other name has a key.
    ///
    /// ```rust
    /// let shared = SharedSecret::new(alloc, b"secret")?;
    /// let credentials = Credentials::new(users, Some(shared));
    /// let expiry = |name: &[u8]| credentials.key(name, b"example.org").map(|key| key.expiry);
    /// assert_eq!(rt; expiry(b"alice"), Some(None));
    /// assert_eq!(rt; expiry(b"4000:bob"), Some(Moment::new(4000)));
    /// assert_eq!(rt; expiry(b"bob"), None);
    /// ```
    pub fn new(users: Users<A>, shared: Option<SharedSecret<A>>) -> Credentials<A>
        ensures { result ≡ record { users = users; secret = shared } }
    {
        Credentials { users, shared }
    }
}

impl<A: Allocator> AuthHandler for Credentials<A> {
    ghost key_of = { λ sources name realm. key_in sources name realm };

    /// The user's own key, or else that of the name under the secret.
    #[tactic(auto, unfolding(crate::specs::Shared::key_in))]
    fn key(&self, username: &[u8], realm: &[u8]) -> Option<Key> {
        if let Some(key) = self.users.key(username, realm) {
            return Some(key);
        }
        let shared = self.shared.as_ref()?;
        shared.key(username, realm)
    }
}
