//! Requests of a client, with the credentials of a user, and Send indications, as bytes, and data over channels.

ghost use Rattle.std.specs.Prelude.{◌≡◌, ◌≢◌, ◌≤◌, ◌<◌, ◌+◌, ◌*◌, ◌/◌, ◌^◌, ◌⊎◌, ◌↔◌, ◌==◌, ◌&&◌, not, Err, [], fold, length, IfOk, IfNone, IfSome, IsTrue, OnOk};
ghost use Rattle.std.specs.List.{list_any};
ghost use Rattle.turn_codec.specs.AttributeTypes.{message_integrity};
ghost use Rattle.turn_codec.specs.Channel.{IsChannel};
ghost use Rattle.turn_codec.specs.Grammar.{Content, Encodes, body_size, from, with_attribute};
ghost use Rattle.turn_mac.specs.Integrity.{IntegrityHolds};
ghost use Rattle.turn_requests.specs.Sending.{identified, is_transport, named, send_of, signed, with_one};

use std::alloc::{AllocError, Allocator, Global};
use turn_codec::{
    AttributeType, Builder, ChannelData, PushError, is_channel_data_number, xor_address,
};
use turn_mac::append_integrity;
use turn_types::{Class, Endpoint, Method, Token, TxId};

/// The protocol number of UDP, the only transport between a server and peers (RFC 8656, section 14.7).
const UDP: u8 = 17;

/// DONT-FRAGMENT (RFC 8656, section 18.9).
const DONT_FRAGMENT: u16 = 0x001A;

/// How many bytes of attributes a message may have.
const MAX_ATTRIBUTES: usize = 65_532;

/// How many of these a MESSAGE-INTEGRITY takes.
const INTEGRITY_SIZE: usize = 24;

/// How many bytes of data a Send indication may have: beside its DATA it has an XOR-PEER-ADDRESS of 12 bytes.
const MAX_SEND_DATA: usize = MAX_ATTRIBUTES - 12 - 4;

/// An attribute of a request.
#[derive(Clone, Copy, Debug)]
pub enum Attribute {
    /// LIFETIME, in seconds.
    Lifetime(u32),
    /// XOR-PEER-ADDRESS.
    Peer(Endpoint),
    /// CHANNEL-NUMBER.
    Channel(u16),
    /// REQUESTED-TRANSPORT of a protocol.
    Transport(u8),
    /// No REQUESTED-TRANSPORT, where an Allocate would have one.
    NoTransport,
    /// EVEN-PORT, which may ask to reserve the next higher port.
    EvenPort { reserves: bool },
    /// DONT-FRAGMENT.
    DontFragment,
    /// RESERVATION-TOKEN.
    ReservationToken(Token),
}

/// A request and who sends it.
#[derive(Clone, Copy, Debug)]
pub struct Request<'a> {
    /// The method; the class is a request's.
    pub method: Method,
    /// The transaction id, which the response has too.
    pub tx: TxId,
    /// What it has before the credentials, in this order.
    pub attributes: &'a [Attribute],
    /// USERNAME, in bytes.
    pub user: &'a [u8],
    /// REALM, in bytes: that of the server's challenge.
    pub realm: &'a [u8],
}

/// A message that has no MESSAGE-INTEGRITY.
#[derive(Drop)]
struct Unsigned<A: Allocator = Global> {
    builder: Builder<A>,
    ghost unsigned: { from message_integrity builder.attributes ≡ [] },
}

impl<A: Allocator + Copy> Unsigned<A> {
    fn new(alloc: A, class: Class, method: Method, tx: TxId) -> Result<Unsigned<A>, AllocError>
        ensures { IfOk result (λ u. u.builder ≡ record { class = class; method = method; tx = tx.0; attributes = [] }) }
    {
        Ok(Unsigned {
            builder: Builder::new(alloc, class, method, tx)?,
        })
    }

    fn push(&mut self, kind: AttributeType, value: &[u8]) -> Result<(), PushError>
        requires { kind ≢ message_integrity }
        ensures ok { OnOk result (self.new.builder ≡ with_attribute self.old.builder kind value.now) }
        ensures too_long { result ≡ Err PushError.TooLong → 65532 < body_size (with_attribute self.old.builder kind value.now) }
    {
        self.builder.push(kind, value)
    }

    fn push_attribute(&mut self, attribute: &Attribute) -> Result<(), PushError>
        ensures ok { OnOk result (self.new.builder ≡ with_one self.old.builder attribute.now) }
        ensures too_long { result ≡ Err PushError.TooLong → 65532 < body_size (with_one self.old.builder attribute.now) }
    {
        match attribute {
            Attribute::Lifetime(seconds) => {
                self.push(AttributeType::LIFETIME, &seconds.to_be_bytes())
            }
            Attribute::Peer(peer) => {
                self.push(AttributeType::XOR_PEER_ADDRESS, &xor_address(*peer))
            }
            Attribute::Channel(number) => {
                let [high, low] = number.to_be_bytes();
                self.push(AttributeType::CHANNEL_NUMBER, &[high, low, 0, 0])
            }
            Attribute::Transport(protocol) => {
                self.push(AttributeType::REQUESTED_TRANSPORT, &[*protocol, 0, 0, 0])
            }
            Attribute::NoTransport => Ok(()),
            Attribute::EvenPort { reserves } => {
                let value = if *reserves { 0x80 } else { 0 };
                self.push(AttributeType::EVEN_PORT, &[value])
            }
            Attribute::DontFragment => self.push(AttributeType::new(DONT_FRAGMENT), &[]),
            Attribute::ReservationToken(token) => {
                self.push(AttributeType::RESERVATION_TOKEN, &token.0)
            }
        }
    }

    /// Adds attributes, in this order.
    #[tactic(auto, using(std::proofs::lemmas::List::Sums::fold_more))]
    fn push_all(&mut self, attributes: &[Attribute]) -> Result<(), PushError>
        ensures ok { OnOk result (self.new.builder ≡ fold with_one self.old.builder attributes.now) }
        ensures too_long { result ≡ Err PushError.TooLong → 65532 < body_size (fold with_one self.old.builder attributes.now) }
    {
        for attribute in attributes {
            self.push_attribute(attribute)?;
        }
        Ok(())
    }

    /// Adds what names the user of a request.
    fn identify(&mut self, request: &Request<'_>, nonce: &[u8]) -> Result<(), PushError>
        ensures ok { OnOk result (self.new.builder ≡ identified self.old.builder request.now nonce.now) }
        ensures too_long { result ≡ Err PushError.TooLong → 65532 < body_size (identified self.old.builder request.now nonce.now) }
    {
        self.push(AttributeType::USERNAME, request.user)?;
        self.push(AttributeType::REALM, request.realm)?;
        self.push(AttributeType::NONCE, nonce)
    }

    /// Signs the message, and returns its bytes.
    #[tactic(auto, unfolding(crate::specs::Sending::signed))]
    fn sign(self, key: &[u8; 16]) -> Result<Vec<u8, A>, PushError>
        ensures content { IfOk result (λ v. Encodes v.items (signed key.now self.builder)) }
        ensures holds { IfOk result (λ v. IntegrityHolds key.now (record { bytes = v.items; content = signed key.now self.builder })) }
        ensures too_long { result ≡ Err PushError.TooLong → 65532 < body_size self.builder + 24 }
    {
        let Unsigned { mut builder } = self;
        append_integrity(&mut builder, key)?;
        Ok(builder.finish())
    }
}

/// Whether the attributes say what the transport is.
fn names_transport(attributes: &[Attribute]) -> bool
    ensures { result ≡ list_any is_transport attributes.now }
{
    attributes.iter().any(|attribute| matches!(
        attribute,
        Attribute::Transport(_) | Attribute::NoTransport
    ))
}

/// Whether a request begins with a REQUESTED-TRANSPORT that is not among its attributes.
fn adds_transport(request: &Request<'_>) -> bool
    ensures { result ≡ ((request.now.method == 0x003) && not (list_any is_transport request.now.attributes.now)) }
{
    request.method == Method::ALLOCATE && !names_transport(request.attributes)
}

/// The size of an attribute in a message.
fn size_of(attribute: &Attribute) -> usize
    ensures value { (m : Content) → body_size (with_one m attribute.now) ≡ body_size m + result }
    ensures small { result ≤ 12 }
{
    match attribute {
        Attribute::NoTransport => 0,
        Attribute::DontFragment => 4,
        Attribute::Lifetime(_)
        | Attribute::Channel(_)
        | Attribute::Transport(_)
        | Attribute::EvenPort { .. } => 8,
        Attribute::Peer(peer) => 4 + xor_address(*peer).len(),
        Attribute::ReservationToken(token) => {
            let value: &[u8] = &token.0;
            4 + value.len()
        }
    }
}

/// The size of a message with so many bytes of attributes and these more, if a message has room for them.
fn size_with(size: usize, attributes: &[Attribute]) -> Option<usize>
    requires { size ≤ 65532 }
    ensures some { (m : Content) → size ≡ body_size m
        → IfSome result (λ sum. sum ≡ body_size (fold with_one m attributes.now)) }
    ensures room { IfSome result (λ sum. sum ≤ 65532) }
    ensures none { (m : Content) → size ≡ body_size m
        → IfNone result (65532 < body_size (fold with_one m attributes.now)) }
{
    let mut size = size;
    for attribute in attributes {
        size += size_of(attribute);
        if MAX_ATTRIBUTES < size {
            return None;
        }
    }
    Some(size)
}

/// The size of an attribute whose value has so many bytes, if a message has room for it.
fn size_of_value(count: usize) -> Option<usize>
    ensures some { IfSome result (λ size. (size ≡ 4 + (count + 3) / 4 * 4) × (size ≤ 65532)) }
    ensures none { IfNone result (65532 < 4 + (count + 3) / 4 * 4) }
{
    if MAX_ATTRIBUTES - 4 < count {
        return None;
    }
    Some(4 + count.next_multiple_of(4))
}

/// Whether a message has room for a request with its credentials.
#[tactic(auto, unfolding(crate::specs::Sending::named))]
fn has_room(request: &Request<'_>, nonce: &[u8]) -> bool
    ensures { IsTrue result ↔ (body_size (named request.now nonce.now) + 24 ≤ 65532) }
{
    let first = if adds_transport(request) { 8 } else { 0 };
    let Some(size) = size_with(first, request.attributes) else {
        return false;
    };
    let (Some(user), Some(realm), Some(nonce)) = (
        size_of_value(request.user.len()),
        size_of_value(request.realm.len()),
        size_of_value(nonce.len()),
    ) else {
        return false;
    };
    size + user + realm + nonce + INTEGRITY_SIZE <= MAX_ATTRIBUTES
}

/// A request with its credentials: its attributes, then USERNAME, REALM, NONCE and MESSAGE-INTEGRITY (RFC 8489, section
/// 9.2). An Allocate begins with a REQUESTED-TRANSPORT of UDP, unless its attributes say what the transport is.
///
/// ```rust
/// let attributes = [Attribute::Peer(peer)];
/// let request = Request { method: Method::CREATE_PERMISSION, tx, attributes: &attributes, user: b"alice", realm: b"example.org" };
/// let key = generate_auth_key(b"alice", b"example.org", b"wonder");
/// let bytes = build_request(alloc, &request, &key, &nonce)?;
/// assert_eq!(rt; Message::parse(&bytes)?.find(AttributeType::REALM).context("realm")?, b"example.org".as_slice());
/// ```
#[tactic(auto, unfolding(crate::specs::Sending::named))]
pub fn build_request<A: Allocator + Copy>(
    alloc: A,
    request: &Request<'_>,
    key: &[u8; 16],
    nonce: &[u8],
) -> Result<Vec<u8, A>, PushError>
    ensures content { IfOk result (λ v. Encodes v.items (signed key.now (named request.now nonce.now))) }
    ensures holds { IfOk result (λ v. IntegrityHolds key.now
        (record { bytes = v.items; content = signed key.now (named request.now nonce.now) })) }
    // Whether it is too long is checked before memory is asked for.
    ensures too_long { (result ≡ Err PushError.TooLong) ↔ (65532 < body_size (named request.now nonce.now) + 24) }
{
    if !has_room(request, nonce) {
        return Err(PushError::TooLong);
    }
    let mut message = Unsigned::new(alloc, Class::Request, request.method, request.tx)?;
    if adds_transport(request) {
        message.push_attribute(&Attribute::Transport(UDP))?;
    }
    message.push_all(request.attributes)?;
    message.identify(request, nonce)?;
    message.sign(key)
}

/// A Send indication with data for a peer, with transaction id zero (RFC 8656, section 11.1).
///
/// ```rust
/// let bytes = build_send(alloc, peer, b"hello")?;
/// let message = Message::parse(&bytes)?;
/// assert!(rt; message.class() == Class::Indication && message.method() == Method::SEND);
/// assert_eq!(rt; message.find(AttributeType::DATA).context("data")?, b"hello".as_slice());
/// ```
#[tactic(auto, using(crate::proofs::Sizes::send_size))]
pub fn build_send<A: Allocator + Copy>(
    alloc: A,
    peer: Endpoint,
    payload: &[u8],
) -> Result<Vec<u8, A>, PushError>
    ensures content { IfOk result (λ v. Encodes v.items (send_of peer payload.now)) }
    // Whether it is too long is checked before memory is asked for.
    ensures too_long { (result ≡ Err PushError.TooLong) ↔ (65532 < body_size (send_of peer payload.now)) }
{
    if MAX_SEND_DATA < payload.len() {
        return Err(PushError::TooLong);
    }
    let mut builder = Builder::new(alloc, Class::Indication, Method::SEND, TxId([0; 12]))?;
    builder.push(AttributeType::XOR_PEER_ADDRESS, &xor_address(peer))?;
    builder.push(AttributeType::DATA, payload)?;
    Ok(builder.finish())
}

/// Data over a channel (RFC 8656, section 12.4). `None` where the number isn't one from 0x4000 to 0x7FFF, or there are
/// more than 65,535 bytes.
///
/// ```rust
/// let data = channel_data(0x4000, b"hello").context("channel data")?;
/// assert_eq!(rt; data.write(alloc)?.as_slice(), b"\x40\x00\x00\x05hello".as_slice());
/// assert!(rt; channel_data(0x3FFF, b"hello").is_none());
/// ```
pub fn channel_data(number: u16, payload: &[u8]) -> Option<ChannelData<'_>>
    ensures some { IfSome result (λ d. IsChannel d.number × (length d.payload.now < 2 ^ 16)
        × (d.number ≡ number) × (d.payload.now ≡ payload.now)) }
    ensures none { IfNone result ((number < 2 ^ 14) ⊎ ((2 ^ 15 ≤ number) ⊎ (2 ^ 16 ≤ length payload.now))) }
{
    if !is_channel_data_number(number) || 0xFFFF < payload.len() {
        return None;
    }
    Some(ChannelData { number, payload })
}
