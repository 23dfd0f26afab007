//! The class, the method and the transaction id of a STUN message (RFC 8489, section 5), and the token of a
//! reservation.

ghost use Rattle.std.specs.Prelude.{◌≡◌, ◌<◌, ◌^◌, ℕ, SomeIff};
ghost use Rattle.turn_types.specs.Methods.{known_methods};

use std::marker::Model;

/// The class of a message.
#[derive(Clone, Copy, Debug, PartialEq, Eq)]
pub enum Class {
    /// Asks for a response.
    Request,
    /// Asks for none.
    Indication,
    /// Answers a request that was granted.
    Success,
    /// Answers a request that was refused.
    Error,
}

/// The transaction id of a message, by which a response is matched to its request.
#[derive(Clone, Copy, Debug, PartialEq, Eq)]
pub struct TxId(pub [u8; 12]);

/// The token of a reservation, by which a later Allocate names the reserved port (RFC 8656, section 18.10).
#[derive(Clone, Copy, Debug, PartialEq, Eq)]
pub struct Token(pub [u8; 8]);

/// The method of a message: a number of 12 bits.
#[derive(Clone, Copy, Debug, PartialEq, Eq)]
pub struct Method {
    number: u16,
}

impl Model for Method {
    ghost Value = { ℕ };

    ghost view = { λ m. m.number };

    ghost invariant = { λ m. m.number < 2 ^ 12 };

    ghost inverse = { λ n. record { number = n } };
}

impl Method {
    /// Asks for the address that the request comes from (RFC 8489, section 18.2).
    pub const BINDING: Method = Method { number: 0x001 };

    /// Makes an allocation (RFC 8656, section 7).
    pub const ALLOCATE: Method = Method { number: 0x003 };

    /// Sets the lifetime of an allocation, or deletes it (RFC 8656, section 8).
    pub const REFRESH: Method = Method { number: 0x004 };

    /// Data from a client to a peer (RFC 8656, section 11.1).
    pub const SEND: Method = Method { number: 0x006 };

    /// Data from a peer to a client (RFC 8656, section 11.3).
    pub const DATA: Method = Method { number: 0x007 };

    /// Permits peers (RFC 8656, section 10).
    pub const CREATE_PERMISSION: Method = Method { number: 0x008 };

    /// Binds a channel to a peer, and permits its address (RFC 8656, section 12).
    pub const CHANNEL_BIND: Method = Method { number: 0x009 };

    /// The methods that TURN has, in the order of their numbers (RFC 8489, section 18.2; RFC 8656, section 17).
    pub fn known() -> [Method; 7]
        ensures { result ≡ known_methods }
    {
        [
            Method::BINDING,
            Method::ALLOCATE,
            Method::REFRESH,
            Method::SEND,
            Method::DATA,
            Method::CREATE_PERMISSION,
            Method::CHANNEL_BIND,
        ]
    }

    /// The method of a number, if the number has at most 12 bits.
    pub fn new(number: u16) -> Option<Method>
        ensures { SomeIff result (number < 2 ^ 12) number }
    {
        if number < 0x1000 {
            Some(Method { number })
        } else {
            None
        }
    }

    /// The number of the method, in its low 12 bits.
    pub fn number(self) -> u16
        ensures value { result ≡ self }
        ensures range { self < 2 ^ 12 }
    {
        self.number
    }
}
