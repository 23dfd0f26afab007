//! The addresses of the server itself, at which there is no client and no peer.

ghost use Rattle.std.specs.Prelude.{◌↔◌, ◌≡◌, ◌||◌, ◌&&◌, Any, IsTrue, nat_eq};
ghost use Rattle.std.specs.List.{list_any};
ghost use Rattle.turn_sockets.specs.Own.{IsListening, IsNamed, IsOwnIp, IsRelay, IsServerIp, come_from, has_any, is_closed, is_relay_port, sent_to};

use crate::listening::ListeningAddresses;
use turn_local::LocalPeers;
use turn_ports::{PortRange, RelayAddressGenerator};
use turn_types::Endpoint;

/// The addresses of a server.
///
/// A relay port of it could be told to send to an address that clients send to: the server would take what comes for a
/// client's, answer to the relay port, and so on (RFC 8656, section 21.1). So what a relay port sends there is lost, and what
/// comes from one of its own relay ports is of no client.
#[derive(Debug, Drop)]
pub struct OwnAddresses {
    /// The addresses that clients send to, as they are bound.
    pub listening: ListeningAddresses,
    /// The address that clients are told of relay ports.
    pub relay: u32,
    /// The address on which relay ports are bound.
    pub bound: u32,
    /// The range of the relay ports.
    pub ports: PortRange,
    /// The peers on the server's own machine that relay ports may send to.
    pub local_peers: LocalPeers,
}

/// Whether one of these has an IP address.
fn has_ip(addresses: &[Endpoint], ip: u32) -> bool
    ensures { result ≡ list_any (λ a. nat_eq a.ip ip) addresses.now }
{
    addresses.iter().any(|a| a.ip == ip)
}

/// Whether one of these is an address.
fn has_address(addresses: &[Endpoint], peer: Endpoint) -> bool
    ensures { result ≡ list_any (λ a. nat_eq a.port peer.port && nat_eq a.ip peer.ip) addresses.now }
{
    addresses
        .iter()
        .any(|a| a.port == peer.port && a.ip == peer.ip)
}

/// Whether one of these is an address, where 0.0.0.0 is any.
fn reach(addresses: &[Endpoint], peer: Endpoint) -> bool
    ensures { result ≡ list_any (λ a. nat_eq a.port peer.port && (nat_eq a.ip 0 || nat_eq a.ip peer.ip)) addresses.now }
{
    addresses
        .iter()
        .any(|a| a.port == peer.port && (a.ip == 0 || a.ip == peer.ip))
}

impl OwnAddresses {
    // Whether an IP address is one that clients send to.
    fn has_listening_ip(&self, ip: u32) -> bool
        ensures { IsTrue result ↔ Any (λ a. ip ≡ a.ip) self.now.listening }
    {
        has_ip(self.listening.as_slice(), ip)
    }

    // Whether clients are told an IP address or send to it, or relay ports are bound there.
    fn is_server_ip(&self, ip: u32) -> bool
        ensures { IsTrue result ↔ IsServerIp self.now ip }
    {
        ip == self.relay || ip == self.bound || self.has_listening_ip(ip)
    }

    // Whether a port is of the range.
    fn is_relay_port(&self, port: u16) -> bool
        ensures { result ≡ is_relay_port self.now port }
    {
        let (first, last) = self.ports.range();
        first <= port && port <= last
    }

    /// Where a relay port sends what is for a peer. Where the relay ports are bound on another address than clients are told, by a
    /// translation that may not lead back, one of them is reached at the address that is bound.
    pub fn sent_to(&self, peer: Endpoint) -> Endpoint
        ensures { result ≡ sent_to self.now peer }
    {
        if peer.ip != self.relay || !self.is_relay_port(peer.port) || self.bound == 0 {
            return peer;
        }
        Endpoint {
            ip: self.bound,
            port: peer.port,
        }
    }

    /// Which peer something comes from that a relay port receives: one of them is that of the address that clients are told.
    pub fn come_from(&self, from: Endpoint) -> Endpoint
        ensures { result ≡ come_from self.now from }
    {
        if from.ip != self.bound || !self.is_relay_port(from.port) || self.bound == 0 {
            return from;
        }
        Endpoint {
            ip: self.relay,
            port: from.port,
        }
    }

    /// Whether an address may be that of a relay port: one of the server's addresses, with a port of the range. The listening ones
    /// count, since each is the source of what goes to it where relay ports are bound on any address.
    pub fn is_relay(&self, from: Endpoint) -> bool
        ensures { IsTrue result ↔ IsRelay self.now from }
    {
        self.is_relay_port(from.port) && self.is_server_ip(from.ip)
    }

    /// Whether an address is one that clients send to, by its name.
    pub fn is_named(&self, peer: Endpoint) -> bool
        ensures { IsTrue result ↔ IsNamed self.now peer }
    {
        has_address(self.listening.as_slice(), peer)
    }

    /// Whether an address may be one that clients send to: its port, and its address or, where that is 0.0.0.0, any.
    pub fn is_listening(&self, peer: Endpoint) -> bool
        ensures { IsTrue result ↔ IsListening self.now peer }
    {
        reach(self.listening.as_slice(), peer)
    }
    /// Whether an IP address is the server's own, or 0.0.0.0, by which a socket sends to its own machine.
    pub fn has_ip(&self, ip: u32) -> bool
        ensures { IsTrue result ↔ IsOwnIp self.now ip }
    {
        ip == 0 || self.is_server_ip(ip)
    }

    /// Whether each address of the machine may be the server's, since one of its own is 0.0.0.0.
    pub fn has_any(&self) -> bool
        ensures { result ≡ has_any self.now }
    {
        self.bound == 0 || has_ip(self.listening.as_slice(), 0)
    }

    /// Whether no relay port has the port of an endpoint, and no local peer is there: at an address of the server's own, what
    /// a relay port sends there is lost then.
    pub fn is_closed(&self, to: Endpoint) -> bool
        ensures { result ≡ is_closed self.now to }
    {
        !self.is_relay_port(to.port) && !self.local_peers.has(to)
    }
}
