//! IP addresses and ports. An IPv4 address is the number whose highest byte is its first part.

/// An IP address as a message may name it. The number's highest byte is the address's first.
#[derive(Clone, Copy, Debug, PartialEq, Eq)]
pub enum Addr {
    /// An IPv4 address.
    V4(u32),
    /// An IPv6 address.
    V6(u128),
}

/// The address and port of a peer, as a request names it (RFC 8656, section 18.3).
#[derive(Clone, Copy, Debug, PartialEq, Eq)]
pub struct PeerAddress {
    /// The IP address.
    pub ip: Addr,
    /// The UDP port.
    pub port: u16,
}

/// An IPv4 address and a port. The default is port 0 of 0.0.0.0.
#[derive(Clone, Copy, Debug, Default, PartialEq, Eq, PartialOrd, Ord, Hash)]
pub struct Endpoint {
    /// The IPv4 address: its highest byte is the address's first.
    pub ip: u32,
    /// The UDP port.
    pub port: u16,
}

/// The client's and the server's endpoint, which name an allocation (RFC 8656, section 3.2). The transport
/// is always UDP. The order is by the client's address and port, then by the server's, which is that of the twelve
/// bytes in network byte order.
#[derive(Clone, Copy, Debug, PartialEq, Eq, PartialOrd, Ord, Hash)]
pub struct FiveTuple {
    /// Where the client sends from.
    pub client: Endpoint,
    /// Where the client sends to.
    pub server: Endpoint,
}
