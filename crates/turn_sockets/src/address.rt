//! Endpoints as the addresses of sockets, and back.

ghost use Rattle.std.specs.Prelude.{◌≡◌, Some, IfSome};
ghost use Rattle.turn_sockets.specs.Addresses.{IsAddressOf};

use std::net::{Ipv4Addr, SocketAddr, SocketAddrV4};
use turn_types::Endpoint;

/// The endpoint of an IPv4 address with a port. `None` for an IPv6 address, which no socket over IPv4 receives from.
pub fn endpoint_of(address: SocketAddr) -> Option<Endpoint>
    ensures found { IfSome result (λ endpoint. IsAddressOf endpoint address) }
    ensures only { (endpoint : _) → IsAddressOf endpoint address → result ≡ Some endpoint }
{
    match address {
        SocketAddr::V4(address) => Some(Endpoint {
            ip: address.ip().to_bits(),
            port: address.port(),
        }),
        SocketAddr::V6(_) => None,
    }
}

/// The address of an endpoint, as sockets have it.
pub fn address_of(endpoint: Endpoint) -> SocketAddr
    ensures { IsAddressOf endpoint result }
{
    let ip = Ipv4Addr::from_bits(endpoint.ip);
    SocketAddr::V4(SocketAddrV4::new(ip, endpoint.port))
}
