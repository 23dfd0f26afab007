//! Users' keys.

ghost use Rattle.std.specs.Prelude.{◌≡◌};
ghost use Rattle.turn_cred.specs.Credential.{has_expired};

use turn_types::Moment;

/// A user's key.
#[derive(Clone, Copy)]
pub struct Key {
    /// MD5 of the name, the realm and the password, with colons between (RFC 8489, section 9.2.2).
    pub bytes: [u8; 16],
    /// The expiry time, from which on the key makes no new allocation, if it has one.
    pub expiry: Option<Moment>,
}

impl Key {
    /// Whether the key has expired at a moment.
    pub fn has_expired(&self, moment: Moment) -> bool
        ensures { result ≡ has_expired moment self.now }
    {
        match self.expiry {
            Some(expiry) => expiry.seconds() <= moment.seconds(),
            None => false,
        }
    }
}
