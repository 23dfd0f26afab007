//! A message in a datagram.

ghost use Rattle.std.specs.Prelude.{◌≡◌, ◌≤◌, ◌<◌, ◌^◌, ◌+◌, [], take, length, IfOk, IfErr, MatchOption, option_copied, option_map};
ghost use Rattle.turn_codec.specs.Grammar.{Content, Encodes, before, from, value_of, IsFirstOf};
ghost use Rattle.turn_codec.specs.Reading.{class_of, method_of};
ghost use Rattle.turn_codec.specs.Fault.{fault_of, has_right_length};
ghost use Rattle.turn_codec.specs.AttributeTypes.{message_integrity};
ghost use Rattle.turn_codec.specs.Seen.{has_unknown, is_seen, seen_value};

use crate::attribute::{Attributes, are_attributes, find_attribute};
use crate::attribute_type::AttributeType;
use std::marker::Model;
use thiserror::Error;
use turn_types::{Class, Method, TxId};

/// Why bytes are no message: the first that applies.
#[derive(Clone, Copy, Debug, PartialEq, Eq, Error)]
pub enum MessageError {
    /// Fewer bytes than a header has.
    #[error("the datagram has fewer than 20 bytes")]
    Short,
    /// The first byte is 64 or more: ChannelData (RFC 8656, section 12.4), or neither.
    #[error("the first two bits of the datagram are not zero")]
    NotStun,
    /// The four bytes after the length aren't 0x2112A442 (RFC 8489, section 5).
    #[error("the datagram doesn't have the magic cookie")]
    BadCookie,
    /// The length counts what comes after the header, with padding (RFC 8489, section 5).
    #[error("the length in the header is no multiple of 4, or not that of the bytes after the header")]
    BadLength,
    /// An attribute has its type and length in 4 bytes, its value, and padding to a multiple of 4 (RFC 8489, section 14).
    #[error("an attribute passes the end of the datagram")]
    AttributeOverruns,
}

/// A STUN message in a datagram.
#[derive(Drop)]
pub struct Message<'a> {
    bytes: &'a [u8],
}

impl<'a> Model for Message<'a> {
    ghost use Rattle.turn_codec.specs.Grammar.{Datagram};
    ghost use Rattle.turn_codec.specs.Reading.{datagram_of, IsDatagram};

    ghost Value = { Datagram };

    ghost view = { λ m. datagram_of m.bytes.now };

    ghost invariant = { λ m. IsDatagram m.bytes.now };
}

pub(crate) const COOKIE: u32 = 0x2112_A442;

fn has_right_length(bytes: &[u8]) -> bool
    requires { 20 ≤ length bytes.now }
    ensures { result ≡ has_right_length bytes.now }
{
    let length = u16::from_be_bytes([bytes[2], bytes[3]]) as usize;
    length % 4 == 0 && length + 20 == bytes.len()
}

impl<'a> Message<'a> {
    /// The message that a datagram encodes. A datagram with a byte after its last attribute is none.
    ///
    /// ```rust
    /// let message = Message::parse(&allocate)?;
    /// assert!(rt; message.class() == Class::Request && message.method() == Method::ALLOCATE);
    /// assert!(rt; message.tx() == tx);
    /// let refused = Message::parse(&allocate[..19]);
    /// assert!(rt; matches!(refused, Err(MessageError::Short)));
    /// ```
    pub fn parse(bytes: &'a [u8]) -> Result<Message<'a>, MessageError>
        // What is read is what the datagram encodes.
        ensures found { IfOk result (λ m. (m.bytes ≡ bytes.now) × Encodes bytes.now m.content) }
        // What a datagram encodes is read.
        ensures only { (m : Content) → Encodes bytes.now m → result ≡ Ok (record { bytes = bytes.now; content = m }) }
        ensures refused { IfErr result (λ e. e ≡ fault_of bytes.now) }
    {
        if bytes.len() < 20 {
            return Err(MessageError::Short);
        }
        if bytes[0] >= 64 {
            return Err(MessageError::NotStun);
        }
        if u32::from_be_bytes([bytes[4], bytes[5], bytes[6], bytes[7]]) != COOKIE {
            return Err(MessageError::BadCookie);
        }
        if !has_right_length(bytes) {
            return Err(MessageError::BadLength);
        }
        if !are_attributes(&bytes[20..]) {
            return Err(MessageError::AttributeOverruns);
        }
        Ok(Message { bytes })
    }

    /// The whole datagram, of 20 to 65,555 bytes, for as long as it is borrowed.
    #[tactic(auto, unfolding(crate::specs::Reading::datagram_of))]
    pub fn as_bytes(&self) -> &'a [u8]
        ensures bytes { result.now ≡ self.now.bytes }
        ensures encoded { Encodes self.now.bytes self.now.content }
        ensures size { (20 ≤ length self.now.bytes) × (length self.now.bytes < 2 ^ 16 + 20) }
    {
        self.bytes
    }

    #[tactic(auto, unfolding(crate::specs::Reading::datagram_of, crate::specs::Reading::content_of))]
    fn type_number(&self) -> u16
        ensures class { class_of result ≡ self.now.content.class }
        ensures method { method_of result ≡ self.now.content.method }
        ensures small { result < 2 ^ 14 }
    {
        u16::from_be_bytes([self.bytes[0], self.bytes[1]])
    }

    /// The class, by the bits 8 and 4 of the type (RFC 8489, section 5, figure 3).
    pub fn class(&self) -> Class
        ensures { result ≡ self.now.content.class }
    {
        let number = self.type_number();
        match (number / 256 % 2, number / 16 % 2) {
            (0, 0) => Class::Request,
            (0, _) => Class::Indication,
            (_, 0) => Class::Success,
            (_, _) => Class::Error,
        }
    }

    /// The method, by the other twelve bits of the type.
    pub fn method(&self) -> Method
        ensures { result ≡ self.now.content.method }
    {
        let number = self.type_number();
        Method::new(number / 512 * 128 + number / 32 % 8 * 16 + number % 16).unwrap()
    }

    /// The transaction id, the last twelve bytes of the header.
    #[tactic(auto, unfolding(crate::specs::Reading::datagram_of, crate::specs::Reading::content_of))]
    pub fn tx(&self) -> TxId
        ensures { result.0 ≡ self.now.content.tx }
    {
        let mut tx = [0; 12];
        tx.copy_from_slice(&self.bytes[8..20]);
        TxId(tx)
    }

    /// All attributes in their order, those after MESSAGE-INTEGRITY included. Each value is a slice of the datagram.
    #[tactic(auto, unfolding(crate::specs::Reading::datagram_of, crate::specs::Reading::content_of))]
    pub fn attributes(&self) -> Attributes<'a>
        ensures value { result ≡ self.now.content.attributes }
        ensures few { length result < 2 ^ 14 }
    {
        Attributes::new(&self.bytes[20..])
    }

    /// The value of the first attribute of a type, among all.
    ///
    /// ```rust
    /// let message = Message::parse(&allocate)?;
    /// assert_eq!(rt; message.find(AttributeType::USERNAME).context("name")?, b"alice".as_slice());
    /// assert!(rt; message.find(AttributeType::LIFETIME).is_none());
    /// ```
    pub fn find(&self, kind: AttributeType) -> Option<&'a [u8]>
        ensures { option_copied result ≡ value_of kind self.now.content.attributes }
    {
        self.attributes().value_of(kind)
    }

    /// Where the first attribute of a type is.
    #[tactic(auto, unfolding(crate::specs::Reading::datagram_of, crate::specs::Reading::content_of))]
    pub fn locate(&self, kind: AttributeType) -> Option<Located<'a>>
        ensures size { length self.now.bytes < 2 ^ 16 + 20 }
        ensures value { option_map (λ found. found.value.now) result ≡ value_of kind self.now.content.attributes }
        ensures found { MatchOption result (from kind self.now.content.attributes ≡ []) (λ found.
            IsFirstOf kind self.now found.front.now found.value.now found.is_last) }
    {
        let bytes = self.bytes;
        let (offset, value, is_last) = find_attribute(&bytes[20..], kind)?;
        Some(Located {
            front: &bytes[..20 + offset],
            value,
            is_last,
        })
    }

    /// Where the first MESSAGE-INTEGRITY is.
    pub fn before_integrity(&self) -> Option<Located<'a>>
        ensures size { length self.now.bytes < 2 ^ 16 + 20 }
        ensures value { option_map (λ found. found.value.now) result ≡ value_of message_integrity self.now.content.attributes }
        ensures found { MatchOption result (from message_integrity self.now.content.attributes ≡ []) (λ found.
            IsFirstOf message_integrity self.now found.front.now found.value.now found.is_last) }
    {
        self.locate(AttributeType::MESSAGE_INTEGRITY)
    }

    /// The attributes before the first MESSAGE-INTEGRITY, or all where there is none.
    #[tactic(auto, unfolding(crate::specs::Reading::datagram_of, crate::specs::Reading::content_of))]
    pub fn seen(&self) -> Attributes<'a>
        ensures value { result ≡ before message_integrity self.now.content.attributes }
        ensures few { length result < 2 ^ 14 }
    {
        let body = &self.bytes[20..];
        match find_attribute(body, AttributeType::MESSAGE_INTEGRITY) {
            Some((offset, _, _)) => Attributes::new(&body[..offset]),
            None => Attributes::new(body),
        }
    }

    /// The value of the first attribute of a type, among those before the first MESSAGE-INTEGRITY.
    #[tactic(auto, unfolding(crate::specs::Seen::seen_value))]
    pub fn seen_value(&self, kind: AttributeType) -> Option<&'a [u8]>
        ensures { option_copied result ≡ seen_value self.now.content kind }
    {
        self.seen().value_of(kind)
    }

    /// Whether an attribute of a type is among those before the first MESSAGE-INTEGRITY.
    pub fn is_seen(&self, kind: AttributeType) -> bool
        ensures { result ≡ is_seen self.now.content kind }
    {
        self.seen_value(kind).is_some()
    }

    /// Whether a type is seen that a receiver has to understand and this server doesn't.
    pub fn has_unknown(&self) -> bool
        ensures { result ≡ has_unknown self.now.content }
    {
        for (kind, _) in self.seen() {
            if kind.is_unknown() {
                return true;
            }
        }
        false
    }
}

/// Where the first attribute of a type is in a message.
#[derive(Drop)]
pub struct Located<'a> {
    /// The datagram up to the attribute's type.
    pub front: &'a [u8],
    /// The attribute's value, without padding.
    pub value: &'a [u8],
    /// Whether no other attribute follows.
    pub is_last: bool,
}
