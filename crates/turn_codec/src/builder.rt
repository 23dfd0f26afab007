//! Writing messages.

ghost use Rattle.std.specs.Prelude.{◌≡◌, ◌≤◌, ◌<◌, ◌^◌, ◌↔◌, ◌++◌, [], take, drop, length, vec_len, ◌+◌, IfOk, OnOk, OnErr};
ghost use Rattle.std.specs.Int.{w16, to_be_bytes};
ghost use Rattle.turn_codec.specs.Grammar.{Content, Encodes, type_number, canonical, canonical_attribute, with_attribute, body_size, size_of};
ghost use Rattle.turn_codec.specs.Reading.{grown};
ghost use Rattle.turn_codec.specs.declared.builder.PushError.TheVariants.{Memory};

use crate::attribute_type::AttributeType;
use crate::message::COOKIE;
use byteorder::{BigEndian, ByteOrder};
use std::alloc::{AllocError, Allocator, Global};
use std::marker::Model;
use thiserror::Error;
use turn_types::{Class, Method, TxId};

/// Why an attribute was not added.
#[derive(Clone, Copy, Debug, PartialEq, Eq, Error)]
pub enum PushError {
    /// The length in the header is a multiple of 4 in 16 bits (RFC 8489, section 5).
    #[error("the attributes would have more than 65,532 bytes")]
    TooLong,
    /// An allocation failed.
    #[error("out of memory")]
    Memory,
}

impl From<AllocError> for PushError {
    ghost from_gives = { λ _ e. e ≡ Memory };

    fn from(_error: AllocError) -> PushError {
        PushError::Memory
    }
}

/// A message that is being written.
#[derive(Drop)]
pub struct Builder<A: Allocator = Global> {
    bytes: Vec<u8, A>,
}

impl<A: Allocator> Model for Builder<A> {
    ghost use Rattle.turn_codec.specs.Grammar.{Content};
    ghost use Rattle.turn_codec.specs.Reading.{content_of, IsCanonical};

    ghost Value = { Content };

    ghost view = { λ b. content_of b.bytes.items };

    ghost invariant = { λ b. IsCanonical b.bytes.items };
}

fn type_number_of(class: Class, method: Method) -> u16
    ensures { result ≡ type_number class method }
{
    let method = method.number();
    let (high, low) = match class {
        Class::Request => (0, 0),
        Class::Indication => (0, 1),
        Class::Success => (1, 0),
        Class::Error => (1, 1),
    };
    method / 128 * 512 + high * 256 + method / 16 % 8 * 32 + low * 16 + method % 16
}

fn header(class: Class, method: Method, tx: TxId) -> [u8; 20]
    ensures encoding { result ≡ canonical (record { class = class; method = method; tx = tx.0; attributes = [] }) }
    ensures tx_size { length tx.0 ≡ 12 }
{
    let mut header = [0; 20];
    BigEndian::write_u16(&mut header[0..2], type_number_of(class, method));
    BigEndian::write_u32(&mut header[4..8], COOKIE);
    header[8..20].copy_from_slice(&tx.0);
    header
}

fn append_attribute<A: Allocator>(
    bytes: &mut Vec<u8, A>,
    kind: u16,
    value: &[u8],
) -> Result<(), AllocError>
    requires { length value.now < 2 ^ 16 }
    ensures ok { OnOk result (bytes.new.items ≡ bytes.old.items ++ canonical_attribute (record { kind = kind; value = value.now })) }
    ensures err { OnErr result (bytes.new.items ≡ bytes.old.items) }
{
    let size = value.len();
    let padding = (4 - size % 4) % 4;
    bytes.reserve(4 + size + padding)?;
    bytes.extend_from_slice(&kind.to_be_bytes())?;
    bytes.extend_from_slice(&(size as u16).to_be_bytes())?;
    bytes.extend_from_slice(value)?;
    bytes.extend_from_slice(&[0; 3][..padding])?;
    Ok(())
}

fn set_length(bytes: &mut [u8], size: u16)
    requires { 4 ≤ length bytes.old }
    ensures { bytes.new ≡ take 2 bytes.old ++ to_be_bytes w16 size ++ drop 4 bytes.old }
{
    BigEndian::write_u16(&mut bytes[2..4], size);
}

fn grow<A: Allocator>(
    bytes: &mut Vec<u8, A>,
    kind: AttributeType,
    value: &[u8],
) -> Result<(), AllocError>
    requires value_fits { length value.now < 2 ^ 16 }
    requires header { 20 ≤ vec_len bytes.old }
    requires fits { vec_len bytes.old + size_of (record { kind = kind; value = value.now }) ≤ 65552 }
    ensures ok { OnOk result (bytes.new.items ≡ grown bytes.old.items (record { kind = kind; value = value.now })) }
    ensures err { OnErr result (bytes.new.items ≡ bytes.old.items) }
{
    append_attribute(bytes, kind.number(), value)?;
    let size = (bytes.len() - 20) as u16;
    set_length(bytes, size);
    Ok(())
}

impl<A: Allocator + Copy> Builder<A> {
    /// A message with no attribute yet.
    pub fn new(alloc: A, class: Class, method: Method, tx: TxId) -> Result<Builder<A>, AllocError>
        ensures { IfOk result (λ b. b ≡ record { class = class; method = method; tx = tx.0; attributes = [] }) }
    {
        Builder::with_capacity(alloc, class, method, tx, 0)
    }

    /// A message with no attribute yet. Attributes of as many bytes as the capacity, their types, lengths and padding
    /// counted, are then pushed without a further growth.
    pub fn with_capacity(
        alloc: A,
        class: Class,
        method: Method,
        tx: TxId,
        capacity: u16,
    ) -> Result<Builder<A>, AllocError>
        ensures { IfOk result (λ b. b ≡ record { class = class; method = method; tx = tx.0; attributes = [] }) }
    {
        let _ = method.number();
        let mut bytes = Vec::with_capacity(alloc, 20 + usize::from(capacity))?;
        bytes.extend_from_slice(&header(class, method, tx))?;
        Ok(Builder { bytes })
    }

    /// Adds an attribute at the end. After an `Err` the message is as before.
    ///
    /// ```rust
    /// let mut message = Builder::new(alloc, Class::Request, Method::ALLOCATE, tx)?;
    /// message.push(AttributeType::REQUESTED_TRANSPORT, &[17, 0, 0, 0])?;
    /// let bytes = message.finish();
    /// assert_eq!(rt; &bytes[..4], b"\x00\x03\x00\x08".as_slice());
    /// assert_eq!(rt; &bytes[20..], b"\x00\x19\x00\x04\x11\x00\x00\x00".as_slice());
    /// ```
    pub fn push(&mut self, kind: AttributeType, value: &[u8]) -> Result<(), PushError>
        ensures ok { OnOk result (self.new ≡ with_attribute self.old kind value.now) }
        // Whether it is too long is checked before memory is asked for.
        ensures too_long { (result ≡ Err PushError.TooLong) ↔ (65532 < body_size (with_attribute self.old kind value.now)) }
        ensures err { OnErr result (self.new ≡ self.old) }
    {
        let size = value.len();
        if size > 65528 || self.bytes.len() + 4 + size.next_multiple_of(4) > 65552 {
            return Err(PushError::TooLong);
        }
        self.push_fitting(kind, value)?;
        Ok(())
    }

    /// Adds an attribute at the end for which the message has room: it fails for memory alone, and then the message is
    /// as before.
    pub fn push_fitting(&mut self, kind: AttributeType, value: &[u8]) -> Result<(), AllocError>
        requires { body_size (with_attribute self.old kind value.now) ≤ 65532 }
        ensures ok { OnOk result (self.new ≡ with_attribute self.old kind value.now) }
        ensures err { OnErr result (self.new ≡ self.old) }
    {
        grow(&mut self.bytes, kind, value)?;
        Ok(())
    }

    /// The canonical encoding of the message so far: padding is zeros.
    pub fn as_bytes(&self) -> &[u8]
        ensures canonical { result.now ≡ canonical self.now }
        ensures encodes { Encodes result.now self.now }
        ensures size { length result.now ≡ 20 + body_size self.now }
        ensures small { body_size self.now ≤ 65532 }
    {
        &self.bytes
    }

    /// The canonical encoding of the message: padding is zeros.
    pub fn finish(self) -> Vec<u8, A>
        ensures canonical { result.items ≡ canonical self }
        ensures encodes { Encodes result.items self }
    {
        self.bytes
    }
}
