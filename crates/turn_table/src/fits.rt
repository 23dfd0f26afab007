//! What more permissions and channels an entry may have.

ghost use Rattle.std.specs.Prelude.{◌≡◌, ◌+◌, ◌≤◌, ◌↔◌, IsTrue, not, ◌||◌, is_some, nat_eq};
ghost use Rattle.std.specs.FinMap as fin;
ghost use Rattle.std.specs.List.{list_all, list_any};
ghost use Rattle.turn_history.specs.Fitting.{FitsChannel, IsChannelNumber, exceeds, goes_with, is_bound_elsewhere};
ghost use Rattle.turn_history.specs.Table.{install};
ghost use Rattle.turn_history.specs.declared.channel.Channel.{Channel};

use crate::entry::Entry;
use crate::search::is_peer;
use std::alloc::Allocator;
use turn_history::{Channel, ChannelNumber};
use turn_types::{Endpoint, Limits};

fn is_among(addresses: &[u32], address: u32) -> bool
    ensures { result ≡ list_any (nat_eq address) addresses.now }
{
    addresses.iter().any(|other| address == *other)
}

/// Whether an address has no permission and is not among later addresses.
fn is_new<A: Allocator + Copy>(entry: &Entry<A>, address: u32, later: &[u32]) -> bool
    ensures { result ≡ not (is_some (fin.get entry.now.entry.permissions address) || list_any (nat_eq address) later.now) }
{
    !(entry.is_permitted(address) || is_among(later, address))
}

/// How many of the addresses have no permission, each counted once.
fn new_addresses<A: Allocator + Copy>(entry: &Entry<A>, addresses: &[u32]) -> usize
    ensures count { result + fin.len entry.now.entry.permissions ≡ fin.len (install 0 addresses.now entry.now.entry.permissions) }
{
    let mut new = 0;
    let mut left = addresses.len();
    while left > 0 {
        left -= 1;
        let (address, later) = (addresses[left], &addresses[left + 1..]);
        if is_new(entry, address, later) {
            new += 1;
        }
    }
    new
}

/// Whether an entry may have permissions of these addresses too.
pub(crate) fn fits_permissions<A: Allocator + Copy>(
    entry: &Entry<A>,
    addresses: &[u32],
    limit: u16,
) -> bool
    ensures { IsTrue result ↔ (fin.len (install 0 addresses.now entry.now.entry.permissions) ≤ limit) }
{
    let new = new_addresses(entry, addresses);
    let limit = usize::from(limit);
    new <= limit && entry.permissions.len() <= limit - new
}

/// Whether an entry may have a channel of this number too.
fn fits_number<A: Allocator + Copy>(entry: &Entry<A>, number: ChannelNumber, limit: u16) -> bool
    ensures { (c : Channel) → IsTrue result ↔ (fin.len (fin.insert entry.now.entry.channels number c) ≤ limit) }
{
    let len = entry.channels.len();
    if entry.has_channel(number) {
        len <= usize::from(limit)
    } else {
        len < usize::from(limit)
    }
}

/// Whether a channel number and a peer are bound to each other wherever one of them is bound.
fn go_together(channels: &[(ChannelNumber, Channel)], number: ChannelNumber, peer: Endpoint) -> bool
    ensures { result ≡ list_all (goes_with number peer) channels.now }
{
    channels.iter().all(|slot| {
        if slot.0 == number {
            is_peer(&slot.1, peer)
        } else {
            !is_peer(&slot.1, peer)
        }
    })
}

/// Whether a channel number of an entry may be bound to a peer.
pub(crate) fn fits_channel<A: Allocator + Copy>(
    entry: &Entry<A>,
    limits: Limits,
    number: ChannelNumber,
    peer: Endpoint,
) -> bool
    ensures fits { IsTrue result ↔ FitsChannel limits number peer entry.now.entry }
    // What the number's type says of it.
    ensures range { IsChannelNumber number }
    ensures value { result ≡ not (is_bound_elsewhere number peer entry.now.entry || exceeds limits number peer entry.now.entry) }
{
    if !fits_permissions(entry, &[peer.ip], limits.permissions()) {
        return false;
    }
    if !fits_number(entry, number, limits.channels()) {
        return false;
    }
    go_together(entry.channels.items(), number, peer)
}

/// Whether the channel number or the peer is bound, but not to each other.
pub(crate) fn is_bound_elsewhere<A: Allocator + Copy>(
    entry: &Entry<A>,
    number: ChannelNumber,
    peer: Endpoint,
) -> bool
    ensures { result ≡ is_bound_elsewhere number peer entry.now.entry }
{
    !go_together(entry.channels.items(), number, peer)
}
