//! Searches of lists.

ghost use Rattle.std.specs.Prelude.{◌≡◌, ℕ, ◌+◌, ◌^◌, ◌<◌, ◌≤◌, true, is_some, MatchResult, IfSome, Some, option_map, slice_get, length, nat_le, ◌==◌};
ghost use Rattle.std.specs.List.{AllByRecursion, position_from};
ghost use Rattle.std.specs.FinMap as fin;
ghost use Rattle.std.specs.Ordering.{nat_cmp};
ghost use Rattle.std.specs.Str.{bytes_eq};
ghost use Rattle.turn_history.specs.Fitting.{is_peer};
ghost use Rattle.turn_ports.specs.Ports.{IsLowestFree};
ghost use Rattle.turn_table.specs.Live.{IsQuiet};
ghost use Rattle.turn_table.specs.Sorted.{scan};

use crate::entry::Entry;
use crate::sorted_map::Key;
use std::alloc::Allocator;
use turn_history::{Channel, ChannelNumber, Reservation};
use turn_types::{Endpoint, Token};

/// The place of a key among keys that rise, or the place where it would be inserted.
pub(crate) fn place_of<K: Key, V>(items: &[(K, V)], key: &K) -> Result<usize, usize>
    requires { fin.is_sorted K.cmp items.now ≡ true }
    ensures value { result ≡ scan K.cmp key.now items.now }
    ensures found { MatchResult result (λ i. i < length items.now) (λ i. i ≤ length items.now) }
{
    items.binary_search_by(|slot| slot.0.cmp(key))
}

/// The same among channel numbers, of a number that may be none.
pub(crate) fn place_of_number<V>(items: &[(ChannelNumber, V)], number: u16) -> Result<usize, usize>
    requires { fin.is_sorted nat_cmp items.now ≡ true }
    ensures value { result ≡ scan nat_cmp number items.now }
    ensures found { MatchResult result (λ i. i < length items.now) (λ i. i ≤ length items.now) }
{
    items.binary_search_by(|slot| slot.0.get().cmp(&number))
}

/// Those of ports that rise that aren't below a first one.
pub(crate) fn ports_from<V>(ports: &[(u16, V)], first: u16) -> &[(u16, V)]
    requires { fin.is_sorted nat_cmp ports.now ≡ true }
    ensures sorted { fin.is_sorted nat_cmp result.now ≡ true }
    ensures same { (port : ℕ) → first ≤ port
        → fin.get (fin.from_sorted {R = nat_cmp} result.now) port ≡ fin.get (fin.from_sorted {R = nat_cmp} ports.now) port }
{
    match place_of(ports, &first) {
        Ok(place) => &ports[place..],
        Err(place) => &ports[place..],
    }
}

/// How many ports at the front of ports that rise are a first one and those that follow it.
fn run_from<V>(ports: &[(u16, V)], first: u16) -> usize
    requires { fin.is_sorted nat_cmp ports.now ≡ true }
    ensures run { (i : ℕ) → i < result → option_map (λ s. s.0) (slice_get ports.now i) ≡ Some (first + i) }
    ensures within { result ≤ length ports.now }
    ensures fits { first + result ≤ 2 ^ 16 }
{
    if ports.is_empty() || ports[0].0 != first {
        return 0;
    }
    let mut low = 0;
    let mut high = ports.len();
    while low < high {
        let middle = low + (high - low) / 2;
        let port = ports[middle].0;
        if first <= port && usize::from(port - first) == middle {
            low = middle + 1;
        } else {
            high = middle;
        }
    }
    low
}

/// The lowest port from a first to a last that is not among ports that rise, and an even one where `even` asks for it.
pub(crate) fn lowest_free<V>(ports: &[(u16, V)], first: u16, last: u16, even: bool) -> Option<u16>
    requires { fin.is_sorted nat_cmp ports.now ≡ true }
    ensures { IsLowestFree (first, last) (λ port. is_some (fin.get (fin.from_sorted {R = nat_cmp} ports.now) port)) even result }
{
    let step = if even { 2 } else { 1 };
    let run = if even { 0 } else { run_from(ports, first) };
    let mut lowest = u32::from(first) + run as u32;
    if even {
        lowest += lowest % 2;
    }
    let left = &ports[run..];
    for slot in left {
        let port = u32::from(slot.0);
        if lowest < port {
            break;
        }
        if lowest == port {
            lowest += step;
        }
    }
    if lowest <= u32::from(last) {
        Some(lowest as u16)
    } else {
        None
    }
}

/// The place of an entry that has expired.
pub(crate) fn expired_entry_of<A: Allocator>(entries: &[Entry<A>], seconds: u64) -> Option<usize>
    ensures { result ≡ position_from (λ h. nat_le h.entry.expiry seconds) 0 entries.now }
{
    for (i, entry) in entries.iter().enumerate() {
        if entry.expiry() <= seconds {
            return Some(i);
        }
    }
    None
}

/// The place of a reservation that has expired.
pub(crate) fn expired_reservation_of(ports: &[(u16, Reservation)], seconds: u64) -> Option<usize>
    ensures value { result ≡ position_from (λ p. nat_le p.1.expiry seconds) 0 ports.now }
    ensures found { IfSome result (λ i. i < length ports.now) }
{
    for (i, slot) in ports.iter().enumerate() {
        if slot.1.expiry <= seconds {
            return Some(i);
        }
    }
    None
}

/// The place of the first reservation with a token.
pub(crate) fn named_port_of(ports: &[(u16, Reservation)], token: &Token) -> Option<usize>
    ensures value { result ≡ position_from (λ p. bytes_eq p.1.token.0 token.now.0) 0 ports.now }
    ensures found { IfSome result (λ i. i < length ports.now) }
{
    for (i, slot) in ports.iter().enumerate() {
        if slot.1.token.0 == token.0 {
            return Some(i);
        }
    }
    None
}

/// The earliest moment at which something expires.
pub(crate) fn earliest_of<A: Allocator + Copy>(entries: &[Entry<A>]) -> u64
    ensures { AllByRecursion (λ h. IsQuiet result h.entry) entries.now }
{
    let mut earliest = u64::MAX;
    for entry in entries {
        earliest = earliest.min(entry.earliest());
    }
    earliest
}

/// The first channel to a peer.
pub(crate) fn number_to(channels: &[(ChannelNumber, Channel)], peer: Endpoint) -> Option<usize>
    ensures value { result ≡ position_from (λ s. is_peer peer s.1) 0 channels.now }
    ensures found { IfSome result (λ i. i < length channels.now) }
{
    for (i, slot) in channels.iter().enumerate() {
        if is_peer(&slot.1, peer) {
            return Some(i);
        }
    }
    None
}

/// Whether a channel is to a peer.
pub(crate) fn is_peer(channel: &Channel, peer: Endpoint) -> bool
    ensures { result ≡ is_peer peer channel.now }
{
    channel.peer.ip == peer.ip && channel.peer.port == peer.port
}
