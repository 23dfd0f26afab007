//! Addresses as text.

use std::fmt;
use turn_types::Endpoint;

/// Shows an IPv4 address: four numbers with dots between.
#[derive(Clone, Copy, Debug)]
pub struct ShownIp(pub u32);

impl fmt::Display for ShownIp {
    fn fmt<W: fmt::Write>(&self, f: &mut fmt::Formatter<W>) -> fmt::Result {
        let [a, b, c, d] = self.0.to_be_bytes();
        write!(f, "{a}.{b}.{c}.{d}")
    }
}

/// Shows an address and a port, with a colon between.
#[derive(Clone, Copy, Debug)]
pub struct ShownEndpoint(pub Endpoint);

impl fmt::Display for ShownEndpoint {
    fn fmt<W: fmt::Write>(&self, f: &mut fmt::Formatter<W>) -> fmt::Result {
        let (ip, port) = (ShownIp(self.0.ip), self.0.port);
        write!(f, "{ip}:{port}")
    }
}
