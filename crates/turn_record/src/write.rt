//! Act entries and payloads, written.

ghost use Rattle.std.specs.Prelude.{◌≡◌, ◌+◌, ◌*◌, ◌≤◌, ◌<◌, ◌^◌, ◌++◌, All, IsOk, None, OnErr, OnOk, length, vec_capacity};
ghost use Rattle.std.specs.Int.{to_be_bytes, w32};
ghost use Rattle.turn_history.specs.Act.{act_of};
ghost use Rattle.turn_record.specs.Bytes.{act_entry, addresses, allocation, body, each, endpoint, five_tuple, name, payload, tag};
ghost use Rattle.turn_history.specs.Fitting.{IsInRange};
ghost use Rattle.turn_record.specs.Records.{HasShortParts, IsBatch, Writes, alloc_size, max_act, max_payload, max_act_bytes};
ghost use Rattle.turn_record.specs.Views.{events_of};

use crate::version::Version;
use std::alloc::{AllocError, Allocator};
use turn_history::{Act, Event};
use turn_types::{Endpoint, FiveTuple, Limits, Moment, TxId};

/// Appends bytes for which there is room.
fn put<A: Allocator>(out: &mut Vec<u8, A>, field: &[u8])
    requires room { length out.old.items + length field.now ≤ vec_capacity out.old }
    ensures items { out.new.items ≡ out.old.items ++ field.now }
    ensures capacity { vec_capacity out.old ≤ vec_capacity out.new }
{
    let Ok(()) = out.extend_from_slice(field) else {
        unreachable!()
    };
}

fn put_endpoint<A: Allocator>(out: &mut Vec<u8, A>, place: Endpoint)
    requires room { length out.old.items + 6 ≤ vec_capacity out.old }
    ensures items { out.new.items ≡ out.old.items ++ endpoint place }
    ensures capacity { vec_capacity out.old ≤ vec_capacity out.new }
{
    put(out, &place.ip.to_be_bytes());
    put(out, &place.port.to_be_bytes());
}

fn put_tuple<A: Allocator>(out: &mut Vec<u8, A>, tuple: FiveTuple)
    requires room { length out.old.items + 12 ≤ vec_capacity out.old }
    ensures items { out.new.items ≡ out.old.items ++ five_tuple tuple }
    ensures capacity { vec_capacity out.old ≤ vec_capacity out.new }
{
    put_endpoint(out, tuple.client);
    put_endpoint(out, tuple.server);
}

fn put_name<A: Allocator>(out: &mut Vec<u8, A>, user: &[u8])
    requires short { length user.now < 2 ^ 16 }
    requires room { length out.old.items + (2 + length user.now) ≤ vec_capacity out.old }
    ensures items { out.new.items ≡ out.old.items ++ name user.now }
    ensures capacity { vec_capacity out.old ≤ vec_capacity out.new }
{
    put(out, &(user.len() as u16).to_be_bytes());
    put(out, user);
}

fn put_each<A: Allocator>(out: &mut Vec<u8, A>, ips: &[u32])
    requires room { length out.old.items + length (each (to_be_bytes w32) ips.now) ≤ vec_capacity out.old }
    ensures items { out.new.items ≡ out.old.items ++ each (to_be_bytes w32) ips.now }
    ensures capacity { vec_capacity out.old ≤ vec_capacity out.new }
{
    for ip in ips {
        put(out, &ip.to_be_bytes());
    }
}

/// What an Allocate gave, without its token.
fn put_allocation<A: Allocator>(
    out: &mut Vec<u8, A>,
    user: &[u8],
    port: u16,
    granted: u32,
    tx: TxId,
)
    requires short { length user.now < 2 ^ 16 }
    requires room { length out.old.items + (20 + length user.now) ≤ vec_capacity out.old }
    ensures items { out.new.items ≡ out.old.items ++ allocation (record { user = user.now; port = port; granted = granted; tx = tx; token = None }) }
    ensures capacity { vec_capacity out.old ≤ vec_capacity out.new }
{
    put_name(out, user);
    put(out, &port.to_be_bytes());
    put(out, &granted.to_be_bytes());
    put(out, &tx.0);
}

/// What follows the five-tuple in an act entry.
fn put_body<A: Allocator, B: Allocator>(out: &mut Vec<u8, A>, act: &Act<B>)
    requires short { HasShortParts (act_of act.now) }
    requires room { length out.old.items + length (body (act_of act.now)) ≤ vec_capacity out.old }
    ensures items { out.new.items ≡ out.old.items ++ body (act_of act.now) }
    ensures capacity { vec_capacity out.old ≤ vec_capacity out.new }
{
    match act {
        Act::Alloc {
            user,
            port,
            granted,
            tx,
        } => put_allocation(out, user.as_slice(), *port, *granted, *tx),
        Act::AllocEven {
            user,
            port,
            granted,
            tx,
            token,
        } => {
            put_allocation(out, user.as_slice(), *port, *granted, *tx);
            put(out, &token.0);
        }
        Act::Renew { granted } => put(out, &granted.to_be_bytes()),
        Act::Permit { addresses } => put_addresses(out, addresses.as_slice()),
        Act::Bind { number, peer } => {
            put(out, &number.get().to_be_bytes());
            put_endpoint(out, *peer);
        }
    }
}

fn put_addresses<A: Allocator>(out: &mut Vec<u8, A>, ips: &[u32])
    requires short { length ips.now < 256 }
    requires room { length out.old.items + length (addresses ips.now) ≤ vec_capacity out.old }
    ensures items { out.new.items ≡ out.old.items ++ addresses ips.now }
    ensures capacity { vec_capacity out.old ≤ vec_capacity out.new }
{
    put(out, &[ips.len() as u8]);
    put_each(out, ips);
}

fn tag_of<B: Allocator>(act: &Act<B>) -> u8
    ensures { result ≡ tag (act_of act.now) }
{
    match act {
        Act::Alloc { .. } => 1,
        Act::AllocEven { .. } => 5,
        Act::Renew { .. } => 2,
        Act::Permit { .. } => 3,
        Act::Bind { .. } => 4,
    }
}

/// Appends an act entry for which there is room.
fn put_act<A: Allocator, B: Allocator>(
    out: &mut Vec<u8, A>,
    moment: Moment,
    tuple: FiveTuple,
    act: &Act<B>,
)
    requires short { HasShortParts (act_of act.now) }
    requires room { length out.old.items + length (act_entry (record { moment = moment; tuple = tuple; act = act_of act.now })) ≤ vec_capacity out.old }
    ensures items { out.new.items ≡ out.old.items ++ act_entry (record { moment = moment; tuple = tuple; act = act_of act.now }) }
    ensures capacity { vec_capacity out.old ≤ vec_capacity out.new }
{
    put(out, &[tag_of(act)]);
    put(out, &moment.seconds().to_be_bytes());
    put_tuple(out, tuple);
    put_body(out, act);
}

/// The max number of bytes of the act entry of an Alloc, without its user.
fn alloc_size(version: Version) -> usize
    ensures { result ≡ alloc_size version }
{
    match version {
        Version::V1 => 41,
        Version::V2 => 49,
    }
}

/// The max number of bytes of an act entry in the version and under the limits.
pub fn max_act(version: Version, limits: Limits) -> usize
    ensures value { result ≡ max_act version limits }
    ensures small { result ≤ max_act_bytes }
{
    let bounds = limits.bounds();
    let alloc = alloc_size(version) + usize::from(bounds.name_bytes);
    let permit = 22 + 4 * usize::from(bounds.permissions);
    alloc.max(permit).max(29)
}

/// The max number of bytes of a payload in the version and under the limits.
pub fn max_payload(version: Version, limits: Limits) -> usize
    ensures { result ≡ max_payload version limits }
{
    1 + usize::from(limits.acts()) * max_act(version, limits)
}

/// Appends the act entry of an event that the version can hold, whose values are in range under the limits. After an `Err` the buffer holds what
/// it held. It takes no memory where the buffer has room for the longest act entry.
pub fn write_act<A: Allocator, B: Allocator>(
    out: &mut Vec<u8, A>,
    version: Version,
    limits: Limits,
    moment: Moment,
    five_tuple: FiveTuple,
    act: &Act<B>,
) -> Result<(), AllocError>
    requires writes { Writes version (act_of act.now) }
    requires range { IsInRange limits (record { moment = moment; tuple = five_tuple; act = act_of act.now }) }
    ensures ok { OnOk result (out.new.items ≡ out.old.items ++ act_entry (record { moment = moment; tuple = five_tuple; act = act_of act.now })) }
    ensures err { OnErr result (out.new.items ≡ out.old.items) }
    ensures room { length out.old.items + max_act version limits ≤ vec_capacity out.old → IsOk result }
    ensures capacity { vec_capacity out.old ≤ vec_capacity out.new }
{
    out.reserve(max_act(version, limits))?;
    put_act(out, moment, five_tuple, act);
    Ok(())
}

fn put_all<A: Allocator, B: Allocator>(out: &mut Vec<u8, A>, events: &[Event<B>])
    requires short { All (λ e. HasShortParts (act_of e.act)) events.now }
    requires room { length out.old.items + length (each act_entry (events_of events.now)) ≤ vec_capacity out.old }
    ensures items { out.new.items ≡ out.old.items ++ each act_entry (events_of events.now) }
    ensures capacity { vec_capacity out.old ≤ vec_capacity out.new }
{
    for event in events {
        put_act(out, event.moment, event.tuple, &event.act);
    }
}

/// Appends the payload of a batch that the version can hold, under the limits: a count, and the act entries. After an `Err` the buffer holds
/// what it held. It takes no memory where the buffer has room for the longest payload of so many acts.
pub fn write_payload<A: Allocator, B: Allocator>(
    out: &mut Vec<u8, A>,
    version: Version,
    limits: Limits,
    events: &[Event<B>],
) -> Result<(), AllocError>
    requires { IsBatch version limits (events_of events.now) }
    ensures ok { OnOk result (out.new.items ≡ out.old.items ++ payload (events_of events.now)) }
    ensures err { OnErr result (out.new.items ≡ out.old.items) }
    ensures room { length out.old.items + (1 + length events.now * max_act version limits) ≤ vec_capacity out.old → IsOk result }
    ensures capacity { vec_capacity out.old ≤ vec_capacity out.new }
{
    // For the proof: the limits are in their ranges.
    let _bounds = limits.bounds();
    out.reserve(1 + events.len() * max_act(version, limits))?;
    put(out, &[events.len() as u8]);
    put_all(out, events);
    Ok(())
}
