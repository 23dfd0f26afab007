//! The socket of a server: a stream over a Unix socket or over TCP, whose waits are bounded.

ghost use Rattle.std.specs.Prelude.{◌<◌, ◌≤◌, IfOk, IfSome};

use crate::error::NbdError;
use crate::stream::Stream;
use crate::uri::Place;
use libc::types::timespec;
use mio::net::{TcpStream, UnixStream};
use mio::{Events, Interest, Poll, Token};
use std::alloc::{Allocator, Global};
use std::io::{self, ErrorKind, Read, Write};
use std::net::{Ipv4Addr, Net, SocketAddr, SocketAddrV4};
use std::os::fd::{AsRawFd, RawFd};
use std::time::Duration;
use turn_disk::is_apart;
use turn_types::Endpoint;

/// How long the waits of one request are together, in milliseconds.
const REQUEST_MILLIS: u64 = 30_000;

/// How long a wait of `try_read` is, in milliseconds.
const PAUSE_MILLIS: u64 = 1;

/// How often a read or a write is tried before it is given up, however short the waits are.
const TRIES: u32 = 1 << 20;

/// How many sockets one wait reports.
const EVENTS: usize = 1;

/// A socket that is connected, or about to be.
#[derive(Drop)]
enum Link {
    Unix(UnixStream),
    Tcp(TcpStream),
}

/// The socket of a server.
#[derive(Drop)]
pub struct Socket<A: Allocator = Global> {
    link: Link,
    poll: Poll,
    events: Events<A>,
    // When the waits end, in milliseconds of the system's clock that doesn't go back.
    until: u64,
}

/// The milliseconds of the system's clock that doesn't go back. `None` if it fails.
fn millis() -> Option<u64> {
    let mut time = timespec {
        tv_sec: 0,
        tv_nsec: 0,
    };
    if libc::clock_gettime(libc::CLOCK_MONOTONIC, &mut time) != 0 {
        return None;
    }
    let seconds = u64::try_from(time.tv_sec).ok()?;
    let nanos = u64::try_from(time.tv_nsec).ok()?;
    Some(
        seconds
            .saturating_mul(1_000)
            .saturating_add(nanos / 1_000_000),
    )
}

/// When a wait of so many milliseconds ends that begins now. It has ended if the clock fails.
pub(crate) fn end_of(count: u64) -> u64 {
    match millis() {
        Some(now) => now.saturating_add(count),
        None => 0,
    }
}

/// How many milliseconds there are until then. None if the clock fails.
pub(crate) fn left_until(end: u64) -> u64 {
    match millis() {
        Some(now) => end.saturating_sub(now),
        None => 0,
    }
}

/// An attempt to connect that the system refuses.
fn refused(reason: io::Error) -> NbdError {
    NbdError::Refused(reason)
}

impl Link {
    // Begins to connect.
    fn connect<R: Net>(net: &R, place: Place<'_>) -> io::Result<Link> {
        match place {
            Place::Unix(path) => Ok(Link::Unix(UnixStream::connect(net, path)?)),
            Place::Tcp(Endpoint { ip, port }) => {
                let address = SocketAddrV4::new(Ipv4Addr::from_bits(ip), port);
                let stream = TcpStream::connect(net, SocketAddr::V4(address))?;
                let _ = stream.set_nodelay(true);
                Ok(Link::Tcp(stream))
            }
        }
    }

    // Whether it is connected. It is an error if it can't be any more.
    fn is_connected(&self) -> Result<bool, NbdError> {
        let Link::Tcp(stream) = self else {
            return Ok(true);
        };
        match stream.take_error() {
            Ok(None) => Ok(stream.peer_addr().is_ok()),
            Ok(Some(reason)) | Err(reason) => Err(NbdError::Refused(reason)),
        }
    }

    // Whether its descriptor is none of a standard stream: what is printed would be sent.
    fn is_apart(&self) -> bool {
        match self {
            Link::Unix(stream) => is_apart(stream.as_raw_fd()),
            Link::Tcp(stream) => is_apart(stream.as_raw_fd()),
        }
    }

    // Has a wait report when it can be read or written.
    fn watch(&mut self, poll: &Poll) -> io::Result<()> {
        let both = Interest::READABLE | Interest::WRITABLE;
        match self {
            Link::Unix(stream) => poll.registry().register(stream, Token(0), both),
            Link::Tcp(stream) => poll.registry().register(stream, Token(0), both),
        }
    }

    fn read(&mut self, buffer: &mut [u8]) -> io::Result<usize> {
        match self {
            Link::Unix(stream) => stream.read(buffer),
            Link::Tcp(stream) => stream.read(buffer),
        }
    }

    fn write(&mut self, bytes: &[u8]) -> io::Result<usize> {
        match self {
            Link::Unix(stream) => stream.write(bytes),
            Link::Tcp(stream) => stream.write(bytes),
        }
    }
}

impl<A: Allocator + Copy> Socket<A> {
    /// Connects to a server at a place, over TCP in at most so many milliseconds. It has 30 s for its handshake then.
    pub fn connect<R: Net>(
        alloc: A,
        net: &R,
        place: Place<'_>,
        most: u64,
    ) -> Result<Socket<A>, NbdError> {
        let mut link = Link::connect(net, place).map_err(refused)?;
        let poll = Poll::new(net).map_err(refused)?;
        if !link.is_apart() {
            return Err(refused(io::Error::other("it would be a standard stream")));
        }
        link.watch(&poll).map_err(refused)?;
        let mut socket = Socket {
            link,
            poll,
            events: Events::with_capacity(alloc, EVENTS)?,
            until: end_of(most),
        };
        for _ in 0..TRIES {
            if socket.link.is_connected()? {
                return Ok(socket);
            }
            if socket.wait(most).is_err() {
                return Err(refused(io::Error::from(ErrorKind::TimedOut)));
            }
        }
        Err(refused(io::Error::from(ErrorKind::TimedOut)))
    }
}

impl<A: Allocator> Socket<A> {
    /// Its descriptor, for a wait of one's own.
    pub fn descriptor(&self) -> RawFd {
        match &self.link {
            Link::Unix(stream) => stream.as_raw_fd(),
            Link::Tcp(stream) => stream.as_raw_fd(),
        }
    }

    // Waits until the socket may be read or written, at most so many milliseconds. It fails once the time is up.
    fn wait(&mut self, most: u64) -> Result<(), NbdError> {
        let Some(now) = millis() else {
            return Err(NbdError::Late);
        };
        if self.until <= now {
            return Err(NbdError::Late);
        }
        let rest = Duration::from_millis(most.min(self.until - now));
        match self.poll.poll(&mut self.events, Some(rest)) {
            Ok(()) => Ok(()),
            // As by a signal that lets a stopped process go on.
            Err(error) if error.kind() == ErrorKind::Interrupted => Ok(()),
            Err(_) => Err(NbdError::Closed),
        }
    }
}

// How many bytes a read or write moved, of at most so many, or `None` where it has to wait first.
fn moved(answer: io::Result<usize>, max: usize) -> Result<Option<usize>, NbdError>
    ensures { IfOk result (λ moved. IfSome moved (λ count. (0 < count) × (count ≤ max))) }
{
    match answer {
        Ok(count) if 0 < count && count <= max => Ok(Some(count)),
        Err(error) if error.kind() == ErrorKind::WouldBlock => Ok(None),
        _ => Err(NbdError::Closed),
    }
}

impl<A: Allocator> Stream for Socket<A> {
    fn begin(&mut self) {
        self.until = end_of(REQUEST_MILLIS);
    }

    fn read(&mut self, buffer: &mut [u8]) -> Result<usize, NbdError> {
        let max = buffer.len();
        for _ in 0..TRIES {
            if let Some(count) = moved(self.link.read(buffer), max)? {
                return Ok(count);
            }
            self.wait(REQUEST_MILLIS)?;
        }
        Err(NbdError::Late)
    }

    // It reads again after the wait: what came then is there before anything else is done.
    fn try_read(&mut self, buffer: &mut [u8], pause: bool) -> Result<usize, NbdError> {
        let max = buffer.len();
        if let Some(count) = moved(self.link.read(buffer), max)? {
            return Ok(count);
        }
        self.wait(if pause { PAUSE_MILLIS } else { 0 })?;
        Ok(moved(self.link.read(buffer), max)?.unwrap_or(0))
    }

    fn write(&mut self, bytes: &[u8]) -> Result<usize, NbdError> {
        let max = bytes.len();
        for _ in 0..TRIES {
            if let Some(count) = moved(self.link.write(bytes), max)? {
                return Ok(count);
            }
            self.wait(REQUEST_MILLIS)?;
        }
        Err(NbdError::Late)
    }
}
