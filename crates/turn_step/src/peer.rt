//! Peers' datagrams.

ghost use Rattle.std.specs.Prelude.{◌≡◌, ◌≤◌, IfOk, None, option_map};
ghost use Rattle.turn_history.specs.Fitting.{IsFitting};
ghost use Rattle.turn_history.specs.History.{History, clock};
ghost use Rattle.turn_types.specs.declared.limits.Bounds.{Bounds};
ghost use Rattle.turn_step.specs.Answer.{AnswersPeer};
ghost use Rattle.turn_step.specs.Views.{sent_of};
ghost use Rattle.turn_table.specs.Table.{Agrees};

use crate::arrival::Outgoing;
use crate::step::Step;
use std::alloc::{AllocError, Allocator};
use turn_relay::from_peer;
use turn_table::Table;
use turn_types::{Endpoint, TxId};

/// The datagram to a client that a peer's datagram at a relayed port sends, if it sends one.
pub(crate) fn to_client<A: Allocator + Copy>(
    alloc: A,
    table: &Table<A>,
    port: u16,
    from: Endpoint,
    bytes: &[u8],
    id: TxId,
) -> Result<Option<Outgoing<A>>, AllocError>
    ensures { (b : Bounds) (h : History) → IsFitting b h → clock h ≤ table.now.moment → Agrees table.now h →
        IfOk result (λ o. AnswersPeer h table.now.moment port from bytes.now id.0 (record { change = None; sent = option_map sent_of o })) }
{
    let Some(data) = from_peer(table, port, from, bytes) else {
        return Ok(None);
    };
    Ok(Some(Outgoing::ToClient {
        five_tuple: data.five_tuple,
        bytes: data.write(alloc, id)?,
    }))
}

/// The step of a peer's datagram at a relayed port.
pub(crate) fn peer_step<A: Allocator + Copy>(
    alloc: A,
    table: &Table<A>,
    port: u16,
    from: Endpoint,
    bytes: &[u8],
    id: TxId,
) -> Result<Step<A>, AllocError>
    ensures answers { (b : Bounds) (h : History) → IsFitting b h → clock h ≤ table.now.moment → Agrees table.now h →
        IfOk result (AnswersPeer h table.now.moment port from bytes.now id.0) }
    ensures nothing_done { IfOk result (λ s. s.change ≡ None) }
{
    let outgoing = to_client(alloc, table, port, from, bytes, id)?;
    Ok(Step::new(None, outgoing))
}
