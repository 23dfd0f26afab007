//! Why a request with credentials is answered 401.

ghost use Rattle.std.specs.Prelude.{◌≡◌, None, Some, ℕ, List, false, true, if◌then◌else◌};
ghost use Rattle.turn_codec.specs.Prelude.{Datagram};
ghost use Rattle.turn_cred.specs.Prelude.{Keys, Passed, Policy, verdict};
ghost use Rattle.turn_cred.specs.declared.key.Key.{Key};
ghost use Rattle.turn_log.specs.Causes.{cause_of, gets_401, has_credentials, has_passed, refusal};
ghost use Rattle.turn_types.specs.declared.address.Endpoint.{Endpoint as Client};

use turn_codec::{AttributeType, Message};
use turn_cred::AuthHandler;
use turn_mac::integrity_holds;

/// Why the credentials of a request didn't pass. The client isn't told: its answer is one 401.
#[derive(Clone, Copy, Debug, PartialEq, Eq)]
pub enum Cause {
    /// It names another realm.
    Realm,
    /// Nobody has the name.
    Unknown,
    /// It was made with another password.
    Integrity,
    /// The name has expired.
    Expired,
}

impl Cause {
    /// The word that a line has.
    pub fn word(self) -> &'static str {
        match self {
            Cause::Realm => "realm",
            Cause::Unknown => "unknown",
            Cause::Integrity => "integrity",
            Cause::Expired => "expired",
        }
    }
}

/// Whether a request has MESSAGE-INTEGRITY, and before it a name, a realm and a nonce. One without is challenged, or a bad request.
pub fn has_credentials(message: &Message<'_>) -> bool
    ensures { result ≡ has_credentials message.now }
{
    message.before_integrity().is_some()
        && message.is_seen(AttributeType::USERNAME)
        && message.is_seen(AttributeType::REALM)
        && message.is_seen(AttributeType::NONCE)
}

/// Why a request with credentials was answered 401, as the handler of the realm's users knows them, by a second in which it still gets
/// that. Its integrity is computed again only where the key has expired, since else nothing but that can be wrong.
pub fn cause_of<H: AuthHandler>(
    realm: &[u8],
    handler: &H,
    message: &Message<'_>,
    second: u64,
) -> Cause
    ensures { gets_401 second realm.now (H.key_of handler.now) message.now ≡ true
        → result ≡ cause_of realm.now (H.key_of handler.now) message.now }
{
    let user = message
        .seen_value(AttributeType::USERNAME)
        .unwrap_or_default();
    if message.seen_value(AttributeType::REALM).unwrap_or_default() != realm {
        return Cause::Realm;
    }
    let Some(key) = handler.key(user, realm) else {
        return Cause::Unknown;
    };
    let has_expired = match key.expiry {
        Some(expiry) => expiry.seconds() <= second,
        None => false,
    };
    if has_expired && integrity_holds(message, &key.bytes) {
        Cause::Expired
    } else {
        Cause::Integrity
    }
}

/// Whether the credentials of a request passed that was answered by an error of this code, so that its sender is a known user. A nonce
/// that doesn't hold (438) isn't enough: who saw a request on its way can send it again from any address.
pub fn has_passed(code: u16, message: &Message<'_>) -> bool
    ensures { result ≡ has_passed code message.now }
{
    match code {
        401 | 438 => false,
        400 => has_credentials(message),
        _ => true,
    }
}

/// Who is refused by the credential check hasn't passed, and a user who is refused later has, unless it is by 401 or 438.
#[tactic(auto, unfolding(turn_cred::specs::Credential::verdict))]
pub fn refused_credentials_have_not_passed()
    ensures refused { (p : Policy) (keys : Keys) (d : Datagram) (client : Client) (t code : ℕ)
        → refusal (verdict p keys d client t) ≡ Some code → has_passed code d ≡ false }
    ensures bad { (p : Policy) (keys : Keys) (d : Datagram) (client : Client) (t : ℕ) (user : List ℕ) (key : Key)
        → verdict p keys d client t ≡ Passed user key → has_passed 400 d ≡ true }
{}
