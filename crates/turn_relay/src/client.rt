//! What a client's datagram sends.

ghost use Rattle.std.specs.Prelude.{◌≡◌, ◌≤◌, ℕ, List, length, option_map, IfSome};
ghost use Rattle.std.specs.FinMap as fin;
ghost use Rattle.turn_codec.specs.Channel.{EncodesChannelData};
ghost use Rattle.turn_relay.specs.FromClient.{SendsToPeer, is_send_indication, peer_of, sent, sent_by_channel_data, sent_by_message};
ghost use Rattle.turn_relay.specs.Udp.{max_payload};
ghost use Rattle.turn_relay.specs.Views.{peer_data};
ghost use Rattle.turn_table.specs.Table.{Agrees};
ghost use Rattle.turn_history.specs.History.{History};
ghost use Rattle.turn_history.specs.Table as tables;

use crate::MAX_PAYLOAD;
use std::alloc::Allocator;
use turn_codec::{AttributeType, ChannelData, Message, read_xor_address};
use turn_mac::has_wrong_fingerprint;
use turn_table::{Entry, Table};
use turn_types::{Addr, Class, Endpoint, FiveTuple, Method};

/// A datagram for a peer. It is a part of the client's datagram.
#[derive(Clone, Copy, Debug)]
pub struct ToPeer<'a> {
    /// The relayed port that it goes from.
    pub port: u16,
    /// The peer's address and port.
    pub peer: Endpoint,
    /// At most 65,507 bytes.
    pub bytes: &'a [u8],
}

fn send_to<'a, A: Allocator>(
    entry: &Entry<A>,
    peer: Endpoint,
    bytes: &'a [u8],
) -> Option<ToPeer<'a>>
    ensures sends { option_map peer_data result ≡ sent entry.now.entry peer bytes.now }
    ensures size { IfSome result (λ x. length x.bytes.now ≤ max_payload) }
{
    if bytes.len() > MAX_PAYLOAD {
        return None;
    }
    Some(ToPeer {
        port: entry.port(),
        peer,
        bytes,
    })
}

fn is_send_indication(message: &Message<'_>) -> bool
    ensures { result ≡ is_send_indication message.now.content }
{
    message.class() == Class::Indication && message.method() == Method::SEND
}

/// The peer that a message names.
#[tactic(auto, unfolding(crate::specs::FromClient::peer_of))]
fn peer_of(message: &Message<'_>) -> Option<Endpoint>
    ensures { result ≡ peer_of message.now.content }
{
    let value = message.seen_value(AttributeType::XOR_PEER_ADDRESS)?;
    let address = read_xor_address(value, message.tx())?;
    match address.ip {
        Addr::V4(ip) => Some(Endpoint {
            ip,
            port: address.port,
        }),
        Addr::V6(_) => None,
    }
}

/// What a message sends.
#[tactic(auto, unfolding(crate::specs::FromClient::sent_by_message))]
fn by_message<'a, A: Allocator + Copy>(
    table: &Table<A>,
    five_tuple: FiveTuple,
    message: &Message<'a>,
) -> Option<ToPeer<'a>>
    ensures sends { option_map peer_data result ≡ sent_by_message (fin.get table.now.contents.entries five_tuple) message.now }
    ensures size { IfSome result (λ x. length x.bytes.now ≤ max_payload) }
{
    if !is_send_indication(message) || has_wrong_fingerprint(message) || message.has_unknown() {
        return None;
    }
    let entry = table.get(five_tuple)?;
    let peer = peer_of(message)?;
    let payload = message.seen_value(AttributeType::DATA)?;
    if !entry.is_permitted(peer.ip) {
        return None;
    }
    send_to(entry, peer, payload)
}

/// What channel data sends.
#[tactic(auto, unfolding(crate::specs::FromClient::sent_by_channel_data))]
fn by_channel_data<'a, A: Allocator + Copy>(
    table: &Table<A>,
    five_tuple: FiveTuple,
    number: u16,
    payload: &'a [u8],
) -> Option<ToPeer<'a>>
    ensures sends { option_map peer_data result ≡ sent_by_channel_data (fin.get table.now.contents.entries five_tuple) number payload.now }
    ensures size { IfSome result (λ x. length x.bytes.now ≤ max_payload) }
{
    let entry = table.get(five_tuple)?;
    let channel = entry.channel(number)?;
    send_to(entry, channel.peer, payload)
}

/// What the channel data of a client sends to a peer: the payload, over a channel that is bound (RFC 8656, section 12.6),
/// unless it has more than 65,507 bytes. What lives at the table's moment counts.
pub fn from_channel_data<'a, A: Allocator + Copy>(
    table: &Table<A>,
    five_tuple: FiveTuple,
    channel_data: &ChannelData<'a>,
) -> Option<ToPeer<'a>>
    ensures sends { (bytes : List ℕ) → EncodesChannelData bytes channel_data.now.number channel_data.now.payload.now →
        SendsToPeer table.now.contents five_tuple bytes (option_map peer_data result) }
    ensures history { (h : History) (bytes : List ℕ) → Agrees table.now h → EncodesChannelData bytes channel_data.now.number channel_data.now.payload.now →
        SendsToPeer (tables.table h table.now.moment) five_tuple bytes (option_map peer_data result) }
    ensures size { IfSome result (λ x. length x.bytes.now ≤ max_payload) }
{
    by_channel_data(table, five_tuple, channel_data.number, channel_data.payload)
}

/// What a message of a client sends to a peer: the DATA of a Send indication to a peer whose address has a permission (RFC
/// 8656, section 11.2), unless it has more than 65,507 bytes. What lives at the table's moment counts.
pub fn from_message<'a, A: Allocator + Copy>(
    table: &Table<A>,
    five_tuple: FiveTuple,
    message: &Message<'a>,
) -> Option<ToPeer<'a>>
    ensures sends { SendsToPeer table.now.contents five_tuple message.now.bytes (option_map peer_data result) }
    ensures history { (h : History) → Agrees table.now h →
        SendsToPeer (tables.table h table.now.moment) five_tuple message.now.bytes (option_map peer_data result) }
    ensures size { IfSome result (λ x. length x.bytes.now ≤ max_payload) }
{
    // For the proof: the bytes of a message are few.
    let _bytes = message.as_bytes();
    by_message(table, five_tuple, message)
}

/// What a client's datagram sends to a peer: the payload of ChannelData on a channel that is bound (RFC 8656,
/// section 12.6), or the DATA of a Send indication to a peer whose address has a permission (section 11.2). All
/// other datagrams send nothing, and so do payloads of more than 65,507 bytes. What lives at the table's moment counts.
pub fn from_client<'a, A: Allocator + Copy>(
    table: &Table<A>,
    five_tuple: FiveTuple,
    datagram: &'a [u8],
) -> Option<ToPeer<'a>>
    ensures sends { SendsToPeer table.now.contents five_tuple datagram.now (option_map peer_data result) }
    ensures history { (h : History) → Agrees table.now h →
        SendsToPeer (tables.table h table.now.moment) five_tuple datagram.now (option_map peer_data result) }
    ensures size { IfSome result (λ x. length x.bytes.now ≤ max_payload) }
{
    if let Some(data) = ChannelData::parse(datagram) {
        return from_channel_data(table, five_tuple, &data);
    }
    match Message::parse(datagram) {
        Ok(message) => from_message(table, five_tuple, &message),
        Err(_) => None,
    }
}
