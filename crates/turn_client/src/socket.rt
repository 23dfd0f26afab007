//! A socket whose reads end after a time.

ghost use Rattle.std.specs.Prelude.{◌≡◌, IfErr};

use crate::error::ClientError;
use std::alloc::{Allocator, Global};
use std::marker::Model;
use std::net::{Net, UdpSocket};
use std::time::Duration;
use turn_sockets::{address_of, endpoint_of};
use turn_types::Endpoint;

/// How many bytes a datagram over UDP may have, with some to spare.
const MAX_DATAGRAM: usize = 65_536;

/// How long a read waits for a datagram.
const WAIT_MILLIS: u64 = 500;

/// A UDP socket whose reads wait for half a second at most, or for as long as it is told.
#[derive(Drop)]
pub struct TimedSocket<A: Allocator = Global> {
    socket: UdpSocket,
    local: Endpoint,
    bytes: Vec<u8, A>,
}

// Clauses see nothing of it, which keeps the proofs of callers small.
impl<A: Allocator> Model for TimedSocket<A> {
    ghost Value = { Unit {0} };

    ghost view = { λ _. tt };
}

/// Binds a socket, and sets how long its reads wait.
fn bind<R: Net>(net: &R, at: Endpoint) -> Option<(UdpSocket, Endpoint)> {
    let socket = UdpSocket::bind(net, address_of(at)).ok()?;
    socket
        .set_read_timeout(Some(Duration::from_millis(WAIT_MILLIS)))
        .ok()?;
    let local = endpoint_of(socket.local_addr().ok()?)?;
    Some((socket, local))
}

impl<A: Allocator> TimedSocket<A> {
    /// Binds a socket. Port 0 is any free one.
    pub fn open<R: Net>(alloc: A, net: &R, at: Endpoint) -> Result<TimedSocket<A>, ClientError> {
        let (socket, local) = bind(net, at).ok_or(ClientError::Socket)?;
        Ok(TimedSocket {
            socket,
            local,
            bytes: Vec::from_elem(alloc, 0u8, MAX_DATAGRAM)?,
        })
    }

    /// The address of the socket, with the port that the system chose if it was to choose one.
    pub fn local(&self) -> Endpoint {
        self.local
    }

    /// How long each read waits from now on, which isn't 0.
    pub fn set_wait(&self, wait: Duration) -> Result<(), ClientError>
        ensures { IfErr result (λ fault. fault ≡ ClientError.Socket) }
    {
        self.socket
            .set_read_timeout(Some(wait))
            .map_err(|_| ClientError::Socket)
    }

    /// Sends one datagram. `Socket` where the system doesn't take it.
    pub fn send(&self, to: Endpoint, bytes: &[u8]) -> Result<(), ClientError>
        ensures { IfErr result (λ fault. fault ≡ ClientError.Socket) }
    {
        self.socket
            .send_to(bytes, address_of(to))
            .map_err(|_| ClientError::Socket)?;
        Ok(())
    }

    /// The next datagram, and who sent it.
    pub fn receive(&mut self) -> Result<(&[u8], Endpoint), ClientError> {
        let Ok((size, from)) = self.socket.recv_from(self.bytes.as_mut_slice()) else {
            return Err(ClientError::Silent);
        };
        let bytes = self
            .bytes
            .as_slice()
            .get(..size)
            .ok_or(ClientError::Unexpected)?;
        let from = endpoint_of(from).ok_or(ClientError::Unexpected)?;
        Ok((bytes, from))
    }
}
