//! Nonces, names under a secret, and the outcome of the credential check.

use super::messages::message;
use crate::values::{Values, endpoint, moment};
use std::alloc::Global;
use turn_codec::Message;
use turn_cred::{AuthHandler, Checker, Key, Nonces, SharedSecret, Users, Verdict};
use turn_types::{Bounds, Class, Endpoint, Limits, Method, Moment, ServerConfig, Settings, TxId};

/// The known users, with their keys.
#[derive(Drop)]
pub struct Known {
    users: Vec<(Vec<u8>, [u8; 16])>,
}

impl Known {
    /// No user.
    pub fn new(alloc: Global) -> Known {
        Known {
            users: Vec::new(alloc),
        }
    }

    /// Makes a user known.
    pub fn add(&mut self, values: &Values, name: &str, key: &str) -> Option<()> {
        let user = (values.bytes(name)?, values.array(key)?);
        self.users.push(user).ok()
    }

    fn users(&self, alloc: Global) -> Option<Users> {
        let mut users = Users::new(alloc);
        for (name, key) in &self.users {
            users.add(name, *key).ok()?;
        }
        Some(users)
    }

    /// A check of requests in the realm `example.org`, under a secret of zeros. A user's name has at most eight bytes.
    fn checker(&self, alloc: Global) -> Option<Checker<Users>> {
        let limits = Limits::new(Bounds {
            allocations: 1,
            permissions: 1,
            channels: 1,
            acts: 1,
            name_bytes: 8,
        })?;
        let settings = Settings {
            realm: b"example.org",
            secret: [0; 32],
            relay: 0,
            quota: 1,
            denied: &[],
            limits,
        };
        let config = ServerConfig::new(alloc, settings).ok()?;
        Checker::new(alloc, &config, self.users(alloc)?).ok()
    }
}

fn key_text(values: &Values, key: &Key) -> Option<String> {
    let bytes = values.hex(&key.bytes)?;
    match key.expiry {
        Some(expiry) => {
            let expiry = expiry.seconds();
            format!(in values.alloc; "{bytes} {expiry}").ok()
        }
        None => Some(bytes),
    }
}

fn verdict_text(values: &Values, verdict: &Verdict<'_>) -> Option<String> {
    match verdict {
        Verdict::Passed { user, key } => {
            let user = str::from_utf8(user).ok()?;
            let key = key_text(values, key)?;
            format!(in values.alloc; "passed {user} {key}").ok()
        }
        Verdict::Challenge401 => values.text("401"),
        Verdict::Bad400 => values.text("400"),
        Verdict::Stale438 => values.text("438"),
    }
}

/// The outcome of the check of a Refresh request with these attributes.
fn checked(
    values: &Values,
    known: &Known,
    second: Moment,
    client: Endpoint,
    attributes: &[&str],
) -> Option<String> {
    let header = (Class::Request, Method::REFRESH, TxId([9; 12]));
    let bytes = message(values, header, attributes)?.ok()?;
    let message = Message::parse(&bytes).ok()?;
    let mut checker = known.checker(values.alloc)?;
    verdict_text(values, &checker.check(&message, client, second))
}

fn issued(values: &Values, secret: &str, second: Moment, client: Endpoint) -> Option<String> {
    let nonce = Nonces::new(values.array(secret)?).issue(client, second);
    values.text(str::from_utf8(&nonce).ok()?)
}

fn holds(
    values: &Values,
    secret: &str,
    second: Moment,
    client: Endpoint,
    nonce: &str,
) -> Option<String> {
    let nonce = values.bytes(nonce)?;
    values.truth(Nonces::new(values.array(secret)?).holds(&nonce, client, second))
}

fn password(values: &Values, secret: &str, name: &str) -> Option<String> {
    let shared = SharedSecret::new(values.alloc, &values.bytes(secret)?).ok()?;
    let password = shared.password(&values.bytes(name)?);
    values.text(str::from_utf8(&password).ok()?)
}

fn shared_key(values: &Values, secret: &str, name: &str) -> Option<String> {
    let shared = SharedSecret::new(values.alloc, &values.bytes(secret)?).ok()?;
    match shared.key(&values.bytes(name)?, b"example.org") {
        Some(key) => key_text(values, &key),
        None => values.text("none"),
    }
}

/// What the credentials are, or what came of their check.
pub fn answer(values: &Values, known: &Known, words: &[&str]) -> Option<String> {
    match words {
        ["ask", second, client, attributes @ ..] => {
            checked(
                values,
                known,
                moment(second)?,
                endpoint(client)?,
                attributes,
            )
        }
        ["nonce", secret, second, client] => {
            issued(values, secret, moment(second)?, endpoint(client)?)
        }
        ["holds", secret, second, client, nonce] => {
            holds(values, secret, moment(second)?, endpoint(client)?, nonce)
        }
        ["password", secret, name] => password(values, secret, name),
        ["shared-key", secret, name] => shared_key(values, secret, name),
        _ => None,
    }
}
