//! Who ends allocations.

use turn_cred::{AuthHandler, Key};

/// The key of each user.
pub(crate) const KEY: [u8; 16] = [0; 16];

/// Who knows each user by one key, so that a server takes the Refreshes that are made here. A server over sockets never has it.
#[derive(Clone, Copy, Debug, Drop)]
pub struct Operator;

impl AuthHandler for Operator {
    ghost use Rattle.std.specs.Prelude.{None, Some, replicate};

    ghost key_of = { λ operator name realm. Some (record { bytes = replicate 16 0; expiry = None }) };

    fn key(&self, _username: &[u8], _realm: &[u8]) -> Option<Key> {
        Some(Key {
            bytes: KEY,
            expiry: None,
        })
    }
}
