//! Act entries and payloads, read.

ghost use Rattle.std.specs.Prelude.{◌≡◌, ◌%◌, [], List, IfOk, Ok};
ghost use Rattle.turn_history.specs.Act.{act_of, event_of};
ghost use Rattle.turn_history.specs.History as histories;
ghost use Rattle.turn_record.specs.Reading.{Gives, act_in, address_at, addresses_at, allocated_at, allocated_even_at, body_at, bound_at, event_at, is_even, many, max_tag, moment_after, payload_in, port_at, tag_at};
ghost use Rattle.turn_record.specs.Records.{EncodesAct, EncodesPayload};
ghost use Rattle.turn_record.specs.Views.{events_of};

use crate::error::{DecodeError, ReadError};
use crate::field::{
    byte_of, channel_number, count_of, endpoint_of, granted_of, moment_of, name_of, renewed_of,
    token_of, tuple_of, tx_of, u16_of, u32_of,
};
use crate::version::Version;
use std::alloc::Allocator;
use turn_history::{Act, Addresses, Event};
use turn_types::{Bounds, Limits, Moment};

#[tactic(auto, unfolding(crate::specs::Reading::allocation_at, crate::specs::Reading::port_at))]
fn alloc_of<'a, A: Allocator + Copy>(
    alloc: A,
    bounds: Bounds,
    bytes: &'a [u8],
) -> Result<(Act<A>, &'a [u8]), ReadError>
    ensures { Gives (λ x. (act_of x.0, x.1.now)) result (allocated_at bounds bytes.now) }
{
    let (user, rest) = name_of(alloc, bounds, bytes)?;
    let (port, rest) = u16_of(rest)?;
    let (granted, rest) = granted_of(rest)?;
    let (tx, rest) = tx_of(rest)?;
    Ok((
        Act::Alloc {
            user,
            port,
            granted,
            tx,
        },
        rest,
    ))
}

#[tactic(auto, unfolding(crate::specs::Reading::port_at))]
fn even_port_of(bytes: &[u8]) -> Result<(u16, &[u8]), ReadError>
    ensures gives { Gives (λ x. (x.0, x.1.now)) result (port_at is_even bytes.now) }
    ensures even { IfOk result (λ x. x.0 % 2 ≡ 0) }
{
    let (port, rest) = u16_of(bytes)?;
    if port % 2 != 0 {
        return Err(ReadError::Malformed(DecodeError::BadValue));
    }
    Ok((port, rest))
}

#[tactic(auto, unfolding(crate::specs::Reading::allocation_at, crate::specs::Reading::pair_at))]
fn alloc_even_of<'a, A: Allocator + Copy>(
    alloc: A,
    bounds: Bounds,
    bytes: &'a [u8],
) -> Result<(Act<A>, &'a [u8]), ReadError>
    ensures { Gives (λ x. (act_of x.0, x.1.now)) result (allocated_even_at bounds bytes.now) }
{
    let (user, rest) = name_of(alloc, bounds, bytes)?;
    let (port, rest) = even_port_of(rest)?;
    let (granted, rest) = granted_of(rest)?;
    let (tx, rest) = tx_of(rest)?;
    let (token, rest) = token_of(port + 1, rest)?;
    Ok((
        Act::AllocEven {
            user,
            port,
            granted,
            tx,
            token,
        },
        rest,
    ))
}

#[tactic(auto, unfolding(crate::specs::Reading::address_at))]
fn address_of<'a>(before: &[u32], bytes: &'a [u8]) -> Result<(u32, &'a [u8]), ReadError>
    ensures { Gives (λ x. (x.0, x.1.now)) result (address_at before.now bytes.now) }
{
    let (address, rest) = u32_of(bytes)?;
    if before.contains(&address) {
        return Err(ReadError::Malformed(DecodeError::BadValue));
    }
    Ok((address, rest))
}

fn addresses_of<'a, A: Allocator + Copy>(
    alloc: A,
    count: u8,
    bytes: &'a [u8],
) -> Result<(Vec<u32, A>, &'a [u8]), ReadError>
    ensures { Gives (λ x. (x.0.items, x.1.now)) result (many address_at count [] bytes.now) }
{
    let mut addresses = Vec::new(alloc);
    let mut rest = bytes;
    for _ in 0..count {
        let (address, after) = address_of(&addresses, rest)?;
        addresses.push(address)?;
        rest = after;
    }
    Ok((addresses, rest))
}

#[tactic(auto, unfolding(crate::specs::Reading::addresses_at))]
fn permitted_of<'a, A: Allocator + Copy>(
    alloc: A,
    bounds: Bounds,
    bytes: &'a [u8],
) -> Result<(Addresses<A>, &'a [u8]), ReadError>
    ensures { Gives (λ x. (x.0, x.1.now)) result (addresses_at bounds bytes.now) }
{
    let (count, rest) = count_of(1, bounds.permissions, bytes)?;
    let (addresses, rest) = addresses_of(alloc, count, rest)?;
    Ok((Addresses::from(addresses), rest))
}

#[tactic(auto, unfolding(crate::specs::Reading::binding_at, crate::specs::Reading::channel_number_at))]
fn bind_of<'a, A: Allocator + Copy>(bytes: &'a [u8]) -> Result<(Act<A>, &'a [u8]), ReadError>
    ensures { Gives (λ x. (act_of x.0, x.1.now)) result (bound_at bytes.now) }
{
    let (number, rest) = u16_of(bytes)?;
    let number = channel_number(number)?;
    let (peer, rest) = endpoint_of(rest)?;
    Ok((Act::Bind { number, peer }, rest))
}

#[tactic(auto, unfolding(crate::specs::Reading::body_at))]
fn body_of<'a, A: Allocator + Copy>(
    alloc: A,
    bounds: Bounds,
    tag: u8,
    bytes: &'a [u8],
) -> Result<(Act<A>, &'a [u8]), ReadError>
    ensures { Gives (λ x. (act_of x.0, x.1.now)) result (body_at bounds tag bytes.now) }
{
    if tag == 1 {
        return alloc_of(alloc, bounds, bytes);
    }
    if tag == 2 {
        let (granted, rest) = renewed_of(bytes)?;
        return Ok((Act::Renew { granted }, rest));
    }
    if tag == 3 {
        let (addresses, rest) = permitted_of(alloc, bounds, bytes)?;
        return Ok((Act::Permit { addresses }, rest));
    }
    if tag == 4 {
        return bind_of(bytes);
    }
    alloc_even_of(alloc, bounds, bytes)
}

/// The last tag: an Alloc with a token is of version 2 alone.
fn max_tag(version: Version) -> u8
    ensures { result ≡ max_tag version }
{
    match version {
        Version::V1 => 4,
        Version::V2 => 5,
    }
}

#[tactic(auto, unfolding(crate::specs::Reading::tag_at))]
fn tag_of(version: Version, bytes: &[u8]) -> Result<(u8, &[u8]), ReadError>
    ensures { Gives (λ x. (x.0, x.1.now)) result (tag_at version bytes.now) }
{
    let (tag, rest) = byte_of(bytes)?;
    if tag == 0 || max_tag(version) < tag {
        return Err(ReadError::Malformed(DecodeError::BadTag));
    }
    Ok((tag, rest))
}

#[tactic(auto, using(crate::proofs::Last::last_of_map), unfolding(crate::specs::Reading::moment_after))]
fn moment_after<'a, A: Allocator + Copy>(
    before: &[Event<A>],
    bytes: &'a [u8],
) -> Result<(Moment, &'a [u8]), ReadError>
    ensures { Gives (λ x. (x.0, x.1.now)) result (moment_after (events_of before.now) bytes.now) }
{
    let (moment, rest) = match moment_of(bytes) {
        Ok(read) => read,
        Err(error) => return Err(error),
    };
    if let Some(last) = before.last() {
        if moment < last.moment {
            return Err(ReadError::Malformed(DecodeError::OutOfOrder));
        }
    }
    Ok((moment, rest))
}

#[tactic(auto, unfolding(crate::specs::Reading::event_at))]
fn event_after<'a, A: Allocator + Copy>(
    alloc: A,
    version: Version,
    bounds: Bounds,
    before: &[Event<A>],
    bytes: &'a [u8],
) -> Result<(Event<A>, &'a [u8]), ReadError>
    ensures { Gives (λ x. (event_of x.0, x.1.now)) result (event_at version bounds (events_of before.now) bytes.now) }
{
    let (tag, rest) = tag_of(version, bytes)?;
    let (moment, rest) = match moment_after(before, rest) {
        Ok(read) => read,
        Err(error) => return Err(error),
    };
    let (tuple, rest) = tuple_of(rest)?;
    let (act, rest) = body_of(alloc, bounds, tag, rest)?;
    Ok((Event { moment, tuple, act }, rest))
}

fn events_of<'a, A: Allocator + Copy>(
    alloc: A,
    version: Version,
    bounds: Bounds,
    count: u8,
    bytes: &'a [u8],
) -> Result<(Vec<Event<A>, A>, &'a [u8]), ReadError>
    ensures { Gives (λ x. (events_of x.0.items, x.1.now)) result (many (event_at version bounds) count [] bytes.now) }
{
    let mut events = Vec::new(alloc);
    let mut rest = bytes;
    for _ in 0..count {
        let (event, after) = event_after(alloc, version, bounds, &events, rest)?;
        events.push(event)?;
        rest = after;
    }
    Ok((events, rest))
}

#[tactic(auto, unfolding(crate::specs::Reading::act_in))]
fn whole_act<A: Allocator + Copy>(
    alloc: A,
    version: Version,
    bounds: Bounds,
    bytes: &[u8],
) -> Result<Event<A>, ReadError>
    ensures { Gives event_of result (act_in version bounds bytes.now) }
{
    let before = Vec::new(alloc);
    let (event, rest) = event_after(alloc, version, bounds, &before, bytes)?;
    if !rest.is_empty() {
        return Err(ReadError::Malformed(DecodeError::TrailingBytes));
    }
    Ok(event)
}

#[tactic(auto, unfolding(crate::specs::Reading::payload_in, crate::specs::Reading::events_at))]
fn whole_payload<A: Allocator + Copy>(
    alloc: A,
    version: Version,
    bounds: Bounds,
    bytes: &[u8],
) -> Result<Vec<Event<A>, A>, ReadError>
    ensures { Gives (λ v. events_of v.items) result (payload_in version bounds bytes.now) }
{
    let (count, rest) = count_of(1, bounds.acts, bytes)?;
    let (events, rest) = events_of(alloc, version, bounds, count, rest)?;
    if !rest.is_empty() {
        return Err(ReadError::Malformed(DecodeError::TrailingBytes));
    }
    Ok(events)
}

/// The event that the bytes encode in the version and under the limits, all of the bytes.
pub fn read_act<A: Allocator + Copy>(
    alloc: A,
    version: Version,
    limits: Limits,
    bytes: &[u8],
) -> Result<Event<A>, ReadError>
    // What is read is what the bytes encode.
    ensures encoded { IfOk result (λ e. EncodesAct version limits (event_of e) bytes.now) }
    // What the bytes encode is read.
    ensures read { (e : histories.Event) → EncodesAct version limits e bytes.now → Gives event_of result (Ok e) }
    // Else it is the first fault.
    ensures fault { Gives event_of result (act_in version limits bytes.now) }
{
    whole_act(alloc, version, limits.bounds(), bytes)
}

/// The events that the bytes of a payload encode in the version and under the limits, all of the bytes.
pub fn read_payload<A: Allocator + Copy>(
    alloc: A,
    version: Version,
    limits: Limits,
    bytes: &[u8],
) -> Result<Vec<Event<A>, A>, ReadError>
    // What is read is what the bytes encode.
    ensures encoded { IfOk result (λ v. EncodesPayload version limits (events_of v.items) bytes.now) }
    // What the bytes encode is read.
    ensures read { (es : List histories.Event) → EncodesPayload version limits es bytes.now → Gives (λ v. events_of v.items) result (Ok es) }
    // Else it is the first fault.
    ensures fault { Gives (λ v. events_of v.items) result (payload_in version limits bytes.now) }
{
    whole_payload(alloc, version, limits.bounds(), bytes)
}
