//! The types of attributes.

ghost use Rattle.std.specs.Prelude.{◌≡◌, ◌==◌, ◌<◌, ◌^◌, ℕ};
ghost use Rattle.std.specs.List.{list_any};
ghost use Rattle.turn_codec.specs.AttributeTypes.{is_unknown, known_types};

use std::marker::Model;

/// The type of an attribute: a number of 16 bits (RFC 8489, section 18.3; RFC 8656, section 18).
#[derive(Clone, Copy, Debug, PartialEq, Eq)]
pub struct AttributeType {
    number: u16,
}

impl Model for AttributeType {
    ghost Value = { ℕ };

    ghost view = { λ t. t.number };

    ghost invariant = { λ t. t.number < 2 ^ 16 };

    ghost inverse = { λ n. record { number = n } };
}

impl AttributeType {
    /// RFC 8489, section 14.1.
    pub const MAPPED_ADDRESS: AttributeType = AttributeType { number: 0x0001 };

    /// RFC 8489, section 14.3.
    pub const USERNAME: AttributeType = AttributeType { number: 0x0006 };

    /// RFC 8489, section 14.5.
    pub const MESSAGE_INTEGRITY: AttributeType = AttributeType { number: 0x0008 };

    /// RFC 8489, section 14.8.
    pub const ERROR_CODE: AttributeType = AttributeType { number: 0x0009 };

    /// RFC 8489, section 14.13.
    pub const UNKNOWN_ATTRIBUTES: AttributeType = AttributeType { number: 0x000A };

    /// RFC 8656, section 18.1.
    pub const CHANNEL_NUMBER: AttributeType = AttributeType { number: 0x000C };

    /// RFC 8656, section 18.2.
    pub const LIFETIME: AttributeType = AttributeType { number: 0x000D };

    /// RFC 8656, section 18.3.
    pub const XOR_PEER_ADDRESS: AttributeType = AttributeType { number: 0x0012 };

    /// RFC 8656, section 18.4.
    pub const DATA: AttributeType = AttributeType { number: 0x0013 };

    /// RFC 8489, section 14.9.
    pub const REALM: AttributeType = AttributeType { number: 0x0014 };

    /// RFC 8489, section 14.10.
    pub const NONCE: AttributeType = AttributeType { number: 0x0015 };

    /// RFC 8656, section 18.5.
    pub const XOR_RELAYED_ADDRESS: AttributeType = AttributeType { number: 0x0016 };

    /// RFC 8656, section 18.6.
    pub const REQUESTED_ADDRESS_FAMILY: AttributeType = AttributeType { number: 0x0017 };

    /// RFC 8656, section 18.7.
    pub const EVEN_PORT: AttributeType = AttributeType { number: 0x0018 };

    /// RFC 8656, section 18.8.
    pub const REQUESTED_TRANSPORT: AttributeType = AttributeType { number: 0x0019 };

    /// RFC 8489, section 14.2.
    pub const XOR_MAPPED_ADDRESS: AttributeType = AttributeType { number: 0x0020 };

    /// RFC 8656, section 18.10.
    pub const RESERVATION_TOKEN: AttributeType = AttributeType { number: 0x0022 };

    /// RFC 8489, section 14.14.
    pub const SOFTWARE: AttributeType = AttributeType { number: 0x8022 };

    /// RFC 8489, section 14.7.
    pub const FINGERPRINT: AttributeType = AttributeType { number: 0x8028 };

    /// The types that this server knows, in the order of their numbers.
    pub fn known() -> [AttributeType; 19]
        ensures { result ≡ known_types }
    {
        [
            AttributeType::MAPPED_ADDRESS,
            AttributeType::USERNAME,
            AttributeType::MESSAGE_INTEGRITY,
            AttributeType::ERROR_CODE,
            AttributeType::UNKNOWN_ATTRIBUTES,
            AttributeType::CHANNEL_NUMBER,
            AttributeType::LIFETIME,
            AttributeType::XOR_PEER_ADDRESS,
            AttributeType::DATA,
            AttributeType::REALM,
            AttributeType::NONCE,
            AttributeType::XOR_RELAYED_ADDRESS,
            AttributeType::REQUESTED_ADDRESS_FAMILY,
            AttributeType::EVEN_PORT,
            AttributeType::REQUESTED_TRANSPORT,
            AttributeType::XOR_MAPPED_ADDRESS,
            AttributeType::RESERVATION_TOKEN,
            AttributeType::SOFTWARE,
            AttributeType::FINGERPRINT,
        ]
    }

    /// The type of a number.
    pub fn new(number: u16) -> AttributeType
        ensures { result ≡ number }
    {
        AttributeType { number }
    }

    /// The number of the type.
    pub fn number(self) -> u16
        ensures value { result ≡ self }
        ensures range { self < 2 ^ 16 }
    {
        self.number
    }

    /// Whether a receiver has to understand the type and this server doesn't.
    #[tactic(auto, unfolding(crate::specs::AttributeTypes::is_unknown))]
    pub fn is_unknown(self) -> bool
        ensures { result ≡ is_unknown self }
    {
        let number = self.number;
        number < 0x8000 && !is_known(self)
    }
}

fn is_known(kind: AttributeType) -> bool
    ensures { result ≡ list_any (λ known. known == kind) known_types }
{
    AttributeType::known().iter().any(|known| *known == kind)
}
