//! Sockets that are bound.

ghost use Rattle.std.specs.Prelude.{◌≡◌, ◌⊎◌, ◌++◌, ◌∷◌, [], IfOk};
ghost use Rattle.turn_sockets.specs.Wire.{Sent};

use crate::address::{address_of, endpoint_of};
use crate::record::SocketRecord;
use crate::socket_option::{receive_buffer, set_receive_buffer};
use mio::net::UdpSocket;
use mio::{Interest, Registry, Token};
use std::io::{self, Error, ErrorKind};
use std::marker::Model;
use std::net::{Net, SocketAddr};
use turn_types::Endpoint;

/// A UDP socket, and the address at which it is bound.
#[derive(Drop)]
pub struct BoundSocket {
    socket: UdpSocket,
    at: Endpoint,
}

impl Model for BoundSocket {
    ghost use Rattle.turn_types.specs.declared.address.Endpoint.{Endpoint};

    ghost Value = { Endpoint };

    ghost view = { λ s. s.at };
}

impl BoundSocket {
    /// Binds a socket at an address, of which port 0 is any free one. It is an error if the system says that it is bound elsewhere.
    pub fn bind<R: Net>(net: &R, at: Endpoint) -> io::Result<BoundSocket>
        ensures ip { IfOk result (λ s. s.ip ≡ at.ip) }
        ensures port { IfOk result (λ s. (at.port ≡ 0) ⊎ (s.port ≡ at.port)) }
    {
        let socket = UdpSocket::bind(net, address_of(at))?;
        match endpoint_of(socket.local_addr()?) {
            Some(local) if local.ip == at.ip && (at.port == 0 || local.port == at.port) => {
                Ok(BoundSocket { socket, at: local })
            }
            _ => Err(Error::from(ErrorKind::AddrNotAvailable)),
        }
    }

    /// A socket that is bound already, and doesn't block. It is an error if it is not over IPv4.
    pub(crate) fn of(socket: UdpSocket) -> io::Result<BoundSocket> {
        match endpoint_of(socket.local_addr()?) {
            Some(at) => Ok(BoundSocket { socket, at }),
            None => Err(Error::from(ErrorKind::AddrNotAvailable)),
        }
    }

    /// The address at which it is bound.
    pub fn at(&self) -> Endpoint
        ensures { result ≡ self.now }
    {
        self.at
    }

    /// Has a registry watch it for datagrams, which are reported by this token.
    pub fn watch(&mut self, registry: &Registry, token: usize) -> io::Result<()>
        ensures { self.new ≡ self.old }
    {
        registry.register(&mut self.socket, Token(token), Interest::READABLE)
    }

    /// Asks for a receive buffer of so many bytes. The system may give less: on Linux at most `net.core.rmem_max`, doubled.
    /// False if it refuses.
    pub fn set_receive_buffer(&self, bytes: u32) -> bool {
        set_receive_buffer(&self.socket, bytes)
    }

    /// The size of its receive buffer as the system counts it, or 0 if it doesn't say.
    pub fn receive_buffer(&self) -> u32 {
        receive_buffer(&self.socket)
    }

    /// Sends a datagram, and notes it. One that the system refuses is lost, as on any link: its reason then.
    pub fn send(&self, wire: &mut SocketRecord, bytes: &[u8], to: Endpoint) -> Option<Error>
        ensures { wire.new.passed ≡ wire.old.passed ++ Sent self.now to bytes.now ∷ [] }
    {
        wire.note_sent(self.at, to, bytes);
        self.socket.send_to(bytes, address_of(to)).err()
    }

    /// Receives a datagram into a buffer: its size, and who sent it. A datagram that doesn't fit loses its end.
    pub(crate) fn receive(&self, buffer: &mut [u8]) -> io::Result<(usize, SocketAddr)> {
        self.socket.recv_from(buffer)
    }
}
