//! Sockets that a supervisor holds and hands over, as `sd_listen_fds(3)` has it.

ghost use Rattle.std.specs.Prelude.{◌≡◌, ◌<◌, ◌≤◌, ◌&&◌, ◌≤ℤ◌, Err, IfErr, IfOk, find, length, nat_eq, not, pos};
ghost use Rattle.std.specs.List.{list_all, list_any};
ghost use Rattle.std.specs.Option.{option_copied};
ghost use Rattle.turn_sockets.specs.Held.{IsOfDescriptor, descriptor_fault, place_fault};
ghost use Rattle.turn_sockets.specs.Own.{are_at};
ghost use Rattle.turn_sockets.specs.declared.held.HeldFault.TheVariants as faults;

use crate::listening::is_among;
use crate::socket::BoundSocket;
use crate::socket_option::{is_connected, is_datagram_socket};
use mio::net::UdpSocket;
use os::FromRawFd;
use std::alloc::{AllocError, Allocator};
use std::net;
use turn_types::Endpoint;

/// How many sockets may be handed over.
pub const MAX_HELD: usize = 64;

/// The first descriptor that is handed over.
const FIRST: i32 = 3;

/// How many sockets this process is handed, by the values of LISTEN_PID and LISTEN_FDS. `None` where they are of another process, or
/// say no number from 1 to 255.
pub fn held_count(process: &str, count: &str) -> Option<u8> {
    let process: i32 = process.parse().ok()?;
    if process != libc::getpid() {
        return None;
    }
    let count: u8 = count.parse().ok()?;
    if count == 0 { None } else { Some(count) }
}

/// Why sockets aren't taken that a supervisor hands over.
#[derive(Clone, Copy, Debug, PartialEq, Eq)]
pub enum HeldFault {
    /// None are handed over: LISTEN_PID isn't this process, or LISTEN_FDS is no number from 1 to 255.
    NotHanded,
    /// There are more than 64.
    TooMany,
    /// A descriptor, which this is, is no UDP socket over IPv4.
    NotUdp(i32),
    /// A socket, whose descriptor this is, is connected: datagrams of one address alone would come to it.
    Connected(i32),
    /// An address that clients send to has no socket.
    Missing(Endpoint),
    /// A socket is bound at another address.
    Elsewhere(Endpoint),
    /// An allocation failed.
    Memory,
}

impl From<AllocError> for HeldFault {
    ghost from_gives = { λ _ f. f ≡ faults.Memory };

    fn from(_: AllocError) -> HeldFault {
        HeldFault::Memory
    }
}

/// What is at fault with a descriptor, by what the system says of it.
fn descriptor_fault(descriptor: i32, is_datagram: bool, is_connected: bool) -> Option<HeldFault>
    ensures { result ≡ descriptor_fault descriptor is_datagram is_connected }
{
    if !is_datagram {
        return Some(HeldFault::NotUdp(descriptor));
    }
    if is_connected {
        return Some(HeldFault::Connected(descriptor));
    }
    None
}

/// The socket of a descriptor that is a socket, which it takes. `None` where it is none over IPv4.
fn bound(descriptor: i32) -> Option<BoundSocket>
    requires { pos 0 ≤ℤ descriptor }
{
    // It is open, as the system has just said, and who hands it over has given it up.
    let socket = unsafe { net::UdpSocket::from_raw_fd(descriptor) };
    socket.set_nonblocking(true).ok()?;
    BoundSocket::of(UdpSocket::from_std(socket)).ok()
}

/// The UDP socket over IPv4 of a descriptor, which it takes.
fn take(descriptor: i32) -> Result<BoundSocket, HeldFault>
    requires { pos 0 ≤ℤ descriptor }
    ensures { IfErr result (IsOfDescriptor descriptor) }
{
    let is_datagram = is_datagram_socket(descriptor);
    if let Some(fault) = descriptor_fault(descriptor, is_datagram, is_connected(descriptor)) {
        return Err(fault);
    }
    bound(descriptor).ok_or(HeldFault::NotUdp(descriptor))
}

/// Takes the sockets of so many descriptors from 3 on, at most 64. It is refused where there are more, or one is no UDP socket over
/// IPv4 or is connected. What is not taken stays open. No other code may use these descriptors.
pub fn take_held<A: Allocator + Copy>(alloc: A, count: u8) -> Result<Vec<BoundSocket, A>, HeldFault>
    ensures taken { IfOk result (λ sockets. (length sockets.items ≡ count) × (count ≤ 64)) }
    ensures many { 64 < count → result ≡ Err faults.TooMany }
{
    if MAX_HELD < usize::from(count) {
        return Err(HeldFault::TooMany);
    }
    let mut sockets = Vec::with_capacity(alloc, usize::from(count))?;
    for place in 0..count {
        let socket = take(FIRST + i32::from(place))?;
        sockets.push(socket).map_err(|_| HeldFault::Memory)?;
    }
    Ok(sockets)
}

/// Whether a socket is bound at an address.
fn is_at(socket: &BoundSocket, address: Endpoint) -> bool
    ensures { result ≡ (nat_eq socket.now.ip address.ip && nat_eq socket.now.port address.port) }
{
    socket.at().ip == address.ip && socket.at().port == address.port
}

fn has_socket(sockets: &[BoundSocket], address: Endpoint) -> bool
    ensures { result ≡ list_any (λ s. nat_eq s.ip address.ip && nat_eq s.port address.port) sockets.now }
{
    sockets.iter().any(|socket| is_at(socket, address))
}

fn have_sockets(addresses: &[Endpoint], sockets: &[BoundSocket]) -> bool
    ensures { result ≡ list_all (λ a. list_any (λ s. nat_eq s.ip a.ip && nat_eq s.port a.port) sockets.now) addresses.now }
{
    addresses
        .iter()
        .all(|address| has_socket(sockets, *address))
}

fn are_among(sockets: &[BoundSocket], addresses: &[Endpoint]) -> bool
    ensures { result ≡ list_all (λ s. list_any (λ a. nat_eq a.ip s.ip && nat_eq a.port s.port) addresses.now) sockets.now }
{
    sockets
        .iter()
        .all(|socket| is_among(addresses, socket.at()))
}

/// Whether each of these sockets is bound at one of these addresses, and each address has a socket. Several may have one address.
pub fn are_at(sockets: &[BoundSocket], addresses: &[Endpoint]) -> bool
    ensures { result ≡ are_at sockets.now addresses.now }
{
    are_among(sockets, addresses) && have_sockets(addresses, sockets)
}

/// The first of these sockets that is at none of these addresses.
fn elsewhere<'s>(sockets: &'s [BoundSocket], addresses: &[Endpoint]) -> Option<&'s BoundSocket>
    ensures { option_copied result ≡ find (λ s. not (list_any (λ a. nat_eq a.ip s.ip && nat_eq a.port s.port) addresses.now)) sockets.now }
{
    sockets
        .iter()
        .find(|socket| !is_among(addresses, socket.at()))
}

/// The first of these addresses that has no socket.
fn without_socket<'a>(addresses: &'a [Endpoint], sockets: &[BoundSocket]) -> Option<&'a Endpoint>
    ensures { option_copied result ≡ find (λ a. not (list_any (λ s. nat_eq s.ip a.ip && nat_eq s.port a.port) sockets.now)) addresses.now }
{
    addresses
        .iter()
        .find(|address| !has_socket(sockets, **address))
}

/// What is at fault with where these sockets are bound: a socket at none of these addresses, or else an address without one. `None`
/// where there is neither.
pub fn place_fault(sockets: &[BoundSocket], addresses: &[Endpoint]) -> Option<HeldFault>
    ensures { result ≡ place_fault sockets.now addresses.now }
{
    if let Some(socket) = elsewhere(sockets, addresses) {
        return Some(HeldFault::Elsewhere(socket.at()));
    }
    match without_socket(addresses, sockets) {
        Some(address) => Some(HeldFault::Missing(*address)),
        None => None,
    }
}
