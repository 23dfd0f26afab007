//! Refreshes of 0, one allocation after the other.

ghost use Rattle.std.specs.Prelude.{◌≡◌, ◌≤◌, ◌∷◌, [], IsTrue, OnOk, Some, is_none, map};
ghost use Rattle.std.specs.FinMap as fin;
ghost use Rattle.std.specs.List.{list_all};
ghost use Rattle.std.specs.Option.{option_copied};
ghost use Rattle.turn_engine.specs.State.{now_of};
ghost use Rattle.turn_ending.specs.Ends.{Ends, IsEnd, are_ended};

use crate::chosen::Chosen;
use crate::error::EndError;
use crate::operator::{KEY, Operator};
use std::alloc::Allocator;
use turn_codec::{AttributeType, Message, PushError};
use turn_cred::{AuthHandler, Nonces};
use turn_disk::Disk;
use turn_engine::Server;
use turn_ports::RelayAddressGenerator;
use turn_requests::{Attribute, Request, build_request};
use turn_step::Arrival;
use turn_table::Table;
use turn_types::{FiveTuple, Method, Moment, ServerConfig, TxId};

/// Whether the value of a LIFETIME is there, and is 0.
fn is_zero(value: Option<&[u8]>) -> bool
    ensures { IsTrue result → option_copied value.entry ≡ Some (0 ∷ 0 ∷ 0 ∷ 0 ∷ []) }
{
    matches!(value, Some([0, 0, 0, 0]))
}

/// Whether a datagram is a Refresh with a LIFETIME of 0.
fn is_end(bytes: &[u8]) -> bool
    ensures { IsTrue result → IsEnd bytes.now }
{
    let Ok(message) = Message::parse(bytes) else {
        return false;
    };
    let is_refresh = message.method() == Method::REFRESH;
    is_refresh && is_zero(message.seen_value(AttributeType::LIFETIME))
}

/// A Refresh of 0 by the user who made an allocation.
fn request_of<A: Allocator + Copy>(
    alloc: A,
    config: &ServerConfig<A>,
    chosen: &Chosen<A>,
    moment: Moment,
) -> Result<Vec<u8, A>, PushError> {
    let request = Request {
        method: Method::REFRESH,
        tx: TxId([0; 12]),
        attributes: &[Attribute::Lifetime(0)],
        user: &chosen.user,
        realm: config.realm(),
    };
    let nonces = Nonces::new(*config.secret());
    let nonce = nonces.issue(chosen.five_tuple.client, moment);
    build_request(alloc, &request, &KEY, &nonce)
}

/// Submits a datagram of a five-tuple, if it is a Refresh of 0, and commits it.
fn submit<D: Disk, G: RelayAddressGenerator, A: Allocator + Copy>(
    server: &mut Server<D, Operator, G, A>,
    moment: Moment,
    five_tuple: FiveTuple,
    bytes: &[u8],
) -> Result<(), EndError>
    requires { now_of server.old ≤ moment }
    ensures ends { Ends D.Disk ⟦<Operator as AuthHandler>⟧ G.RelayAddressGenerator (five_tuple ∷ []) moment server.old server.new }
    ensures clock { now_of server.new ≤ moment }
{
    if !is_end(bytes) {
        return Err(EndError::Refused);
    }
    server.submit(moment, &Arrival::Client { five_tuple, bytes })?;
    // The response is of nobody.
    let _ = server.commit()?;
    Ok(())
}

/// Ends an allocation.
fn end<D: Disk, G: RelayAddressGenerator, A: Allocator + Copy>(
    alloc: A,
    server: &mut Server<D, Operator, G, A>,
    config: &ServerConfig<A>,
    chosen: &Chosen<A>,
    moment: Moment,
) -> Result<(), EndError>
    requires { now_of server.old ≤ moment }
    ensures ends { Ends D.Disk ⟦<Operator as AuthHandler>⟧ G.RelayAddressGenerator (chosen.now.five_tuple ∷ []) moment server.old server.new }
    ensures clock { now_of server.new ≤ moment }
{
    let bytes = request_of(alloc, config, chosen, moment)?;
    submit(server, moment, chosen.five_tuple, &bytes)
}

/// Whether a five-tuple has no allocation.
fn is_ended<A: Allocator + Copy>(table: &Table<A>, five_tuple: FiveTuple) -> bool
    ensures { result ≡ is_none (fin.get table.now.contents.entries five_tuple) }
{
    table.get(five_tuple).is_none()
}

/// Whether none of these has an allocation.
fn are_ended<A: Allocator + Copy>(table: &Table<A>, chosen: &[Chosen<A>]) -> bool
    ensures { result ≡ list_all (λ one. is_none (fin.get table.now.contents.entries one.five_tuple)) chosen.now }
{
    chosen.iter().all(|one| is_ended(table, one.five_tuple))
}

/// Ends these allocations, one after the other, up to the first that can't be. `config` is the server's.
pub fn end_all<D: Disk, G: RelayAddressGenerator, A: Allocator + Copy>(
    alloc: A,
    server: &mut Server<D, Operator, G, A>,
    config: &ServerConfig<A>,
    chosen: &[Chosen<A>],
    moment: Moment,
) -> Result<(), EndError>
    requires { now_of server.old ≤ moment }
    // Nothing but Refreshes of 0 of their five-tuples is submitted.
    ensures ends { Ends D.Disk ⟦<Operator as AuthHandler>⟧ G.RelayAddressGenerator (map (λ c. c.five_tuple) chosen.now) moment server.old server.new }
    ensures clock { now_of server.new ≤ moment }
    // And none of them has an allocation any more.
    ensures ended { OnOk result (are_ended server.new.machine.table.contents chosen.now) }
{
    for one in chosen {
        end(alloc, server, config, one, moment)?;
    }
    if are_ended(server.table(), chosen) {
        Ok(())
    } else {
        Err(EndError::Refused)
    }
}
