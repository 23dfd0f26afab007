//! The permissions and the channels of an entry of a snapshot, read.

ghost use Rattle.std.specs.Prelude.{◌≡◌, ◌≤◌, ℕ, List, [], IfOk, nat_lt, true};
ghost use Rattle.std.specs.FinMap as fin;
ghost use Rattle.std.specs.List.{list_any};
ghost use Rattle.std.specs.Ordering.{nat_cmp};
ghost use Rattle.turn_history.specs.ChannelNumber.{is_channel_number};
ghost use Rattle.turn_history.specs.Fitting.{is_peer};
ghost use Rattle.turn_record.specs.Reading.{Field, Gives, checked, last_passes, many};
ghost use Rattle.turn_record.specs.Snapshots.{address_after, channel_at, channel_list_at, expiry_at, list_at, other_peer_at, permission_at, permission_list_at};
ghost use Rattle.turn_record.specs.declared.error.DecodeError.TheVariants.{BadValue};
ghost use Rattle.turn_types.specs.Profile.{max_lifetime};

use crate::error::{DecodeError, ReadError};
use crate::field::{channel_number, count_of, endpoint_of, u16_of, u32_of, u64_of};
use std::alloc::Allocator;
use turn_history::{Channel, ChannelNumber};
use turn_types::{CHANNEL_LIFETIME, Endpoint, Limits, Moment, PERMISSION_LIFETIME};

#[tactic(auto, unfolding(crate::specs::Snapshots::expiry_at))]
pub(crate) fn expiry_of(moment: Moment, most: u64, bytes: &[u8]) -> Result<(u64, &[u8]), ReadError>
    requires { most ≤ max_lifetime }
    ensures { Gives (λ x. (x.0, x.1.now)) result (expiry_at moment most bytes.now) }
{
    let (expiry, rest) = u64_of(bytes)?;
    let now = moment.seconds();
    if expiry <= now || now + most < expiry {
        return Err(ReadError::Malformed(DecodeError::BadValue));
    }
    Ok((expiry, rest))
}

/// What an entry has a list of: permissions or channels.
trait ListItem: Copy {
    // What reading one gives, at a moment and after those before it.
    ghost item_at: { ℕ → List Self → List ℕ → Field Self };

    /// The one that the bytes begin with.
    fn read<'a>(
        moment: Moment,
        before: &[Self],
        bytes: &'a [u8],
    ) -> Result<(Self, &'a [u8]), ReadError>
        ensures { Gives (λ x. (x.0, x.1.now)) result (item_at moment before.now bytes.now) };
}

fn items_of<'a, T: ListItem, A: Allocator + Copy>(
    alloc: A,
    moment: Moment,
    count: u8,
    bytes: &'a [u8],
) -> Result<(Vec<T, A>, &'a [u8]), ReadError>
    ensures { Gives (λ x. (x.0.items, x.1.now)) result (many (T.item_at moment) count [] bytes.now) }
{
    let mut items = Vec::with_capacity(alloc, usize::from(count))?;
    let mut rest = bytes;
    for _ in 0..count {
        let (item, after) = T::read(moment, &items, rest)?;
        items.push(item)?;
        rest = after;
    }
    Ok((items, rest))
}

/// A count up to a limit, and as many items.
fn list_of<'a, T: ListItem, A: Allocator + Copy>(
    alloc: A,
    limit: u16,
    moment: Moment,
    bytes: &'a [u8],
) -> Result<(Vec<T, A>, &'a [u8]), ReadError>
    ensures { Gives (λ x. (x.0.items, x.1.now)) result (list_at (T.item_at moment) limit bytes.now) }
{
    let (count, rest) = count_of(0, limit, bytes)?;
    items_of(alloc, moment, count, rest)
}

// ---- Permissions

#[tactic(auto, unfolding(crate::specs::Snapshots::address_after))]
fn address_after<'a>(before: &[(u32, u64)], bytes: &'a [u8]) -> Result<(u32, &'a [u8]), ReadError>
    ensures { Gives (λ x. (x.0, x.1.now)) result (address_after before.now bytes.now) }
{
    let (address, rest) = u32_of(bytes)?;
    if let Some(last) = before.last() {
        if address <= last.0 {
            return Err(ReadError::Malformed(DecodeError::OutOfOrder));
        }
    }
    Ok((address, rest))
}

impl ListItem for (u32, u64) {
    ghost item_at = { permission_at };

    #[tactic(auto, unfolding(crate::specs::Snapshots::permission_at))]
    fn read<'a>(
        moment: Moment,
        before: &[(u32, u64)],
        bytes: &'a [u8],
    ) -> Result<((u32, u64), &'a [u8]), ReadError> {
        let (address, rest) = address_after(before, bytes)?;
        let (expiry, rest) = expiry_of(moment, PERMISSION_LIFETIME, rest)?;
        Ok(((address, expiry), rest))
    }
}

#[tactic(auto, unfolding(crate::specs::Snapshots::permission_list_at))]
pub(crate) fn permissions_of<'a, A: Allocator + Copy>(
    alloc: A,
    limits: Limits,
    moment: Moment,
    bytes: &'a [u8],
) -> Result<(Vec<(u32, u64), A>, &'a [u8]), ReadError>
    ensures gives { Gives (λ x. (x.0.items, x.1.now)) result (permission_list_at limits moment bytes.now) }
    ensures sorted { IfOk result (λ x. fin.is_sorted nat_cmp x.0.items ≡ true) }
{
    // For the proof: the limits and the moment are in their ranges.
    let (_bounds, _now) = (limits.bounds(), moment.seconds());
    list_of(alloc, limits.permissions(), moment, bytes)
}

// ---- Channels

/// Whether a number is above that of the last channel.
fn is_above_last(before: &[(ChannelNumber, Channel)], number: ChannelNumber) -> bool
    ensures { result ≡ last_passes (λ last. nat_lt last.0 number) before.now }
{
    match before.last() {
        Some(last) => last.0 < number,
        None => true,
    }
}

fn has_peer(channels: &[(ChannelNumber, Channel)], peer: Endpoint) -> bool
    ensures { result ≡ list_any (λ c. is_peer peer c.1) channels.now }
{
    channels
        .iter()
        .any(|c| c.1.peer.ip == peer.ip && c.1.peer.port == peer.port)
}

#[tactic(auto, unfolding(crate::specs::Snapshots::other_peer_at))]
fn other_peer_of<'a>(
    before: &[(ChannelNumber, Channel)],
    bytes: &'a [u8],
) -> Result<(Endpoint, &'a [u8]), ReadError>
    ensures { Gives (λ x. (x.0, x.1.now)) result (other_peer_at before.now bytes.now) }
{
    let (peer, rest) = endpoint_of(bytes)?;
    if has_peer(before, peer) {
        return Err(ReadError::Malformed(DecodeError::BadValue));
    }
    Ok((peer, rest))
}

impl ListItem for (ChannelNumber, Channel) {
    ghost item_at = { channel_at };

    #[tactic(auto, unfolding(crate::specs::Snapshots::channel_at, crate::specs::Snapshots::number_after, crate::specs::Reading::channel_number_at))]
    fn read<'a>(
        moment: Moment,
        before: &[(ChannelNumber, Channel)],
        bytes: &'a [u8],
    ) -> Result<((ChannelNumber, Channel), &'a [u8]), ReadError> {
        let (number, rest) = u16_of(bytes)?;
        let number = channel_number(number)?;
        if !is_above_last(before, number) {
            return Err(ReadError::Malformed(DecodeError::OutOfOrder));
        }
        let (peer, rest) = other_peer_of(before, rest)?;
        let (expiry, rest) = expiry_of(moment, CHANNEL_LIFETIME, rest)?;
        Ok(((number, Channel { peer, expiry }), rest))
    }
}

#[tactic(auto, unfolding(crate::specs::Snapshots::channel_list_at))]
pub(crate) fn channels_of<'a, A: Allocator + Copy>(
    alloc: A,
    limits: Limits,
    moment: Moment,
    bytes: &'a [u8],
) -> Result<(Vec<(ChannelNumber, Channel), A>, &'a [u8]), ReadError>
    ensures gives { Gives (λ x. (x.0.items, x.1.now)) result (channel_list_at limits moment bytes.now) }
    ensures sorted { IfOk result (λ x. fin.is_sorted nat_cmp x.0.items ≡ true) }
{
    // For the proof: the limits and the moment are in their ranges.
    let (_bounds, _now) = (limits.bounds(), moment.seconds());
    list_of(alloc, limits.channels(), moment, bytes)
}
