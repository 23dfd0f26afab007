//! The test of FINGERPRINT (RFC 8489, section 14.7).

ghost use Rattle.std.specs.Prelude.{◌≡◌};
ghost use Rattle.turn_mac.specs.Fingerprint.{has_fingerprint, has_wrong_fingerprint};

use crate::integrity::fingerprint_holds;
use turn_codec::{AttributeType, Message};

/// Whether a message has a FINGERPRINT.
#[tactic(auto, unfolding(crate::specs::Fingerprint::has_fingerprint))]
pub fn has_fingerprint(message: &Message<'_>) -> bool
    ensures { result ≡ has_fingerprint message.now.content }
{
    message.find(AttributeType::FINGERPRINT).is_some()
}

/// Whether a message has a FINGERPRINT that is wrong. Such a message is dropped.
#[tactic(auto, unfolding(crate::specs::Fingerprint::has_wrong_fingerprint))]
pub fn has_wrong_fingerprint(message: &Message<'_>) -> bool
    ensures { result ≡ has_wrong_fingerprint message.now }
{
    has_fingerprint(message) && !fingerprint_holds(message)
}
