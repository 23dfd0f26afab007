//! What a peer's datagram sends.

ghost use Rattle.std.specs.Prelude.{◌≡◌, ◌≤◌, nat_le, length, None, option_map, IfOk, IfSome};
ghost use Rattle.turn_codec.specs.Grammar.{Encodes, canonical};
ghost use Rattle.turn_relay.specs.FromPeer.{IsForClient, SendsToClient, client_datagram, data_indication, size_for_client};
ghost use Rattle.turn_relay.specs.Udp.{max_payload};
ghost use Rattle.turn_relay.specs.Views.{client_data};
ghost use Rattle.turn_table.specs.Table.{Agrees};
ghost use Rattle.turn_history.specs.History.{History};
ghost use Rattle.turn_history.specs.Table as tables;

use crate::MAX_PAYLOAD;
use std::alloc::{AllocError, Allocator};
use turn_codec::{AttributeType, Builder, ChannelData, xor_address};
use turn_history::ChannelNumber;
use turn_table::Table;
use turn_types::{Class, Endpoint, FiveTuple, Method, TxId};

/// The max payload of ChannelData over UDP, after a header of 4 bytes.
const MAX_OVER_A_CHANNEL: usize = MAX_PAYLOAD - 4;

/// The max DATA of a Data indication over UDP: the indication has a multiple of 4 bytes, 36 of them before the DATA.
const MAX_INDICATED: usize = MAX_PAYLOAD / 4 * 4 - 36;

/// Data for a client. It is a peer's datagram.
#[derive(Clone, Copy, Debug)]
pub struct ToClient<'a> {
    /// Of the allocation whose relayed port the datagram came to.
    pub five_tuple: FiveTuple,
    /// The number of the channel that is bound to the peer, if one is.
    pub channel: Option<ChannelNumber>,
    /// Who sent it.
    pub peer: Endpoint,
    /// The peer's whole payload.
    pub bytes: &'a [u8],
}

/// A Data indication (RFC 8656, section 11.3).
fn data_indication<A: Allocator + Copy>(
    alloc: A,
    tx: TxId,
    peer: Endpoint,
    payload: &[u8],
) -> Result<Vec<u8, A>, AllocError>
    requires { length payload.now ≤ 65468 }
    ensures bytes { IfOk result (λ v. v.items ≡ canonical (data_indication tx.0 peer payload.now)) }
    ensures encodes { IfOk result (λ v. Encodes v.items (data_indication tx.0 peer payload.now)) }
    ensures size { IfOk result (λ v. length v.items ≡ size_for_client None (length payload.now)) }
{
    // XOR-PEER-ADDRESS, and DATA with its padding.
    let capacity = 12 + (4 + payload.len().next_multiple_of(4));
    let mut builder = Builder::with_capacity(
        alloc,
        Class::Indication,
        Method::DATA,
        tx,
        capacity as u16,
    )?;
    builder.push_fitting(AttributeType::XOR_PEER_ADDRESS, &xor_address(peer))?;
    builder.push_fitting(AttributeType::DATA, payload)?;
    Ok(builder.finish())
}

impl<'a> ToClient<'a> {
    /// The client's datagram: ChannelData without padding (RFC 8656, section 12.5), or a Data indication with the
    /// transaction id (section 11.3), in one allocation.
    #[tactic(auto, unfolding(crate::specs::FromPeer::client_datagram))]
    pub fn write<A: Allocator + Copy>(&self, alloc: A, tx: TxId) -> Result<Vec<u8, A>, AllocError>
        requires size { size_for_client self.now.channel (length self.now.bytes.now) ≤ max_payload }
        ensures bytes { IfOk result (λ v. v.items ≡ client_datagram (client_data self.now) tx.0) }
        ensures encodes { IfOk result (λ v. IsForClient v.items tx.0 (client_data self.now)) }
        ensures size { IfOk result (λ v. length v.items ≡ size_for_client self.now.channel (length self.now.bytes.now)) }
    {
        match self.channel {
            Some(number) => {
                let data = ChannelData {
                    number: number.get(),
                    payload: self.bytes,
                };
                data.write(alloc)
            }
            None => data_indication(alloc, tx, self.peer, self.bytes),
        }
    }
}

/// Whether the client's datagram is one that UDP carries.
fn fits_client(channel: &Option<ChannelNumber>, size: usize) -> bool
    ensures { result ≡ nat_le (size_for_client channel.now size) max_payload }
{
    match channel {
        Some(_) => size <= MAX_OVER_A_CHANNEL,
        None => size <= MAX_INDICATED,
    }
}

/// What a peer's datagram at a relayed port sends to the client of the port's allocation, if the peer's address has a
/// permission: the datagram, over the channel that is bound to the peer's address and port, if one is (RFC 8656,
/// sections 11.3 and 12.7). It sends nothing if the client's datagram would have more than 65,507 bytes. What lives at
/// the table's moment counts.
pub fn from_peer<'a, A: Allocator + Copy>(
    table: &Table<A>,
    port: u16,
    from: Endpoint,
    datagram: &'a [u8],
) -> Option<ToClient<'a>>
    ensures sends { SendsToClient table.now.contents port from datagram.now (option_map client_data result) }
    ensures history { (h : History) → Agrees table.now h →
        SendsToClient (tables.table h table.now.moment) port from datagram.now (option_map client_data result) }
    // What is returned can be written.
    ensures size { IfSome result (λ x. size_for_client x.channel (length x.bytes.now) ≤ max_payload) }
{
    let (five_tuple, entry) = table.by_port(port)?;
    let is_permitted = entry.is_permitted(from.ip);
    if !is_permitted {
        return None;
    }
    let channel = entry.channel_to(from);
    if !fits_client(&channel, datagram.len()) {
        return None;
    }
    Some(ToClient {
        five_tuple,
        channel,
        peer: from,
        bytes: datagram,
    })
}
