//! Datagrams as they are received, and the ids of Data indications.

ghost use Rattle.std.specs.Prelude.{◌≡◌, ◌+◌, ◌%◌, ◌^◌, ◌++◌, ◌∷◌, [], ◌↔◌};
ghost use Rattle.std.specs.Int.{to_be_bytes, w32, w64};
ghost use Rattle.std.specs.IoError.{error_kind};
ghost use Rattle.std.specs.declared.io.ErrorKind.TheVariants.{WouldBlock};
ghost use Rattle.turn_sockets.specs.Received.{passed_by};
ghost use Rattle.turn_types.specs.declared.address.Endpoint.{Endpoint};
ghost use Rattle.turn_sockets.specs.declared.buffer.Received.TheVariants as received;

use crate::address::endpoint_of;
use crate::record::SocketRecord;
use crate::socket::BoundSocket;
use std::alloc::{AllocError, Allocator, Global};
use std::io::{self, Error, ErrorKind};
use std::net::SocketAddr;
use turn_types::{Endpoint, Moment, TxId};

/// How many bytes a datagram over UDP may have, with some to spare: what doesn't fit into a buffer is lost.
const MAX_DATAGRAM: usize = 65_536;

/// The transaction ids of the Data indications that clients get: each is a moment and a count that wraps.
#[derive(Clone, Copy, Debug)]
pub struct DataIds {
    count: u32,
}

impl DataIds {
    /// The ids from count 0 on.
    pub fn new() -> DataIds
        ensures { result.count ≡ 0 }
    {
        DataIds { count: 0 }
    }

    /// The id of the next indication: the moment in 8 bytes, and the count in 4, in network byte order.
    pub fn next(&mut self, moment: Moment) -> TxId
        ensures bytes { result.0 ≡ to_be_bytes w64 moment ++ to_be_bytes w32 self.old.count }
        ensures count { self.new.count ≡ (self.old.count + 1) % 2 ^ 32 }
    {
        let [a, b, c, d, e, f, g, h] = moment.seconds().to_be_bytes();
        let [i, j, k, l] = self.count.to_be_bytes();
        self.count = self.count.wrapping_add(1);
        TxId([a, b, c, d, e, f, g, h, i, j, k, l])
    }
}

/// A socket that datagrams are received from.
pub trait DatagramSocket {
    /// The address at which it is bound.
    ghost bound_at: { Self → Endpoint };

    /// The address at which it is bound.
    fn at(&self) -> Endpoint
        ensures { result ≡ bound_at self.now };

    /// Receives a datagram into a buffer: its size, and who sent it. A datagram that doesn't fit loses its end. An error whose kind
    /// is `WouldBlock` says that none waits.
    fn receive(&self, buffer: &mut [u8]) -> io::Result<(usize, SocketAddr)>;
}

impl DatagramSocket for BoundSocket {
    ghost bound_at = { λ s. s };

    fn at(&self) -> Endpoint {
        self.at()
    }

    fn receive(&self, buffer: &mut [u8]) -> io::Result<(usize, SocketAddr)> {
        self.receive(buffer)
    }
}

/// What was received of a socket.
#[derive(Clone, Copy, Debug)]
pub enum Received<'b> {
    /// A datagram, and who sent it.
    Datagram { bytes: &'b [u8], from: Endpoint },
    /// Nothing, though more may wait: the system failed, or the sender has no IPv4 address.
    Failed,
    /// None waits. The socket is reported again once something arrives.
    Nothing,
}

/// What an error of a receive says. One that reports something else than that none waits, as an ICMP message or a lack of memory,
/// says nothing of what waits.
fn failure_of<'b>(error: &Error) -> Received<'b>
    ensures nothing { (result ≡ received.Nothing) ↔ (error_kind error.now ≡ WouldBlock) }
{
    match error.kind() {
        ErrorKind::WouldBlock => Received::Nothing,
        _ => Received::Failed,
    }
}

/// The datagram of so many bytes at the beginning of a buffer.
fn datagram_in<'b>(buffer: &'b [u8], size: usize, from: SocketAddr) -> Received<'b> {
    match (buffer.get(..size), endpoint_of(from)) {
        (Some(bytes), Some(from)) => Received::Datagram { bytes, from },
        _ => Received::Failed,
    }
}

/// The room for one datagram.
#[derive(Drop)]
pub struct Buffer<A: Allocator = Global> {
    bytes: Vec<u8, A>,
}

impl<A: Allocator> Buffer<A> {
    /// Room for 65,536 bytes, which is more than a datagram has.
    pub fn new(alloc: A) -> Result<Buffer<A>, AllocError> {
        Ok(Buffer {
            bytes: Vec::from_elem(alloc, 0u8, MAX_DATAGRAM)?,
        })
    }

    /// Receives a datagram of a socket, and notes what was found.
    pub fn receive<S: DatagramSocket>(
        &mut self,
        socket: &S,
        wire: &mut SocketRecord,
    ) -> Received<'_>
        ensures { wire.new.passed ≡ wire.old.passed ++ passed_by (S.bound_at socket.now) result ∷ [] }
    {
        let found = match socket.receive(self.bytes.as_mut_slice()) {
            Ok((size, from)) => datagram_in(self.bytes.as_slice(), size, from),
            Err(error) => failure_of(&error),
        };
        wire.note_read(socket.at(), found);
        found
    }
}
