//! Clients' datagrams.

ghost use Rattle.std.specs.Prelude.{◌≡◌, None, option_map, IfOk};
ghost use Rattle.turn_relay.specs.Views.{peer_data};
ghost use Rattle.turn_rules.specs.Answer.{is_request};
ghost use Rattle.turn_step.specs.Answer.{to_peer as sent_to_peer};
ghost use Rattle.turn_step.specs.Data.{IsReadAs};
ghost use Rattle.turn_step.specs.Views.{sent_of};

use crate::arrival::Outgoing;
use crate::step::Step;
use std::alloc::{AllocError, Allocator};
use turn_codec::{ChannelData, Message};
use turn_relay::{ToPeer, from_channel_data, from_message};
use turn_table::Table;
use turn_types::{Class, FiveTuple};

/// A client's datagram, as it is read.
#[derive(Drop)]
pub(crate) enum ClientDatagram<'a> {
    /// A request.
    Request(Message<'a>),
    /// Any other, with what it sends to a peer, if anything.
    Data(Option<ToPeer<'a>>),
}

fn is_request(message: &Message<'_>) -> bool
    ensures { result ≡ is_request message.now.content.class }
{
    message.class() == Class::Request
}

/// Reads a client's datagram: first for channel data, then as a message.
pub(crate) fn read<'a, A: Allocator + Copy>(
    table: &Table<A>,
    five_tuple: FiveTuple,
    bytes: &'a [u8],
) -> ClientDatagram<'a>
    ensures { IsReadAs table.now.contents five_tuple bytes.now result }
{
    if let Some(data) = ChannelData::parse(bytes) {
        let payload = from_channel_data(table, five_tuple, &data);
        return ClientDatagram::Data(payload);
    }
    let Ok(message) = Message::parse(bytes) else {
        return ClientDatagram::Data(None);
    };
    if is_request(&message) {
        return ClientDatagram::Request(message);
    }
    let payload = from_message(table, five_tuple, &message);
    ClientDatagram::Data(payload)
}

/// The datagram to a peer, if there is a payload.
pub(crate) fn to_peer<A: Allocator + Copy>(
    alloc: A,
    payload: Option<ToPeer<'_>>,
) -> Result<Option<Outgoing<A>>, AllocError>
    ensures { IfOk result (λ o. option_map sent_of o ≡ sent_to_peer (option_map peer_data payload.entry)) }
{
    let Some(payload) = payload else {
        return Ok(None);
    };
    Ok(Some(Outgoing::ToPeer {
        port: payload.port,
        peer: payload.peer,
        bytes: Vec::from_slice(alloc, payload.bytes)?,
    }))
}

/// The step that sends a payload to a peer, where there is one.
pub(crate) fn data_step<A: Allocator + Copy>(
    alloc: A,
    payload: Option<ToPeer<'_>>,
) -> Result<Step<A>, AllocError>
    ensures value { IfOk result (λ s. s ≡ record { change = None; sent = sent_to_peer (option_map peer_data payload.entry) }) }
    ensures nothing_done { IfOk result (λ s. s.change ≡ None) }
{
    Ok(Step::new(None, to_peer(alloc, payload)?))
}
