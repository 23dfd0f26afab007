//! What neither the standard library nor `mio` says of a socket: the size of its receive buffer, and what it is a socket of.

use libc::net as c;
use mio::net::UdpSocket;
use std::os::fd::{AsRawFd, RawFd};

/// How many bytes of datagrams a socket is asked to keep until they are read.
pub const RECEIVE_BUFFER: u32 = 8 << 20;

/// Asks for a receive buffer of so many bytes. The system may give less: on Linux at most `net.core.rmem_max`, doubled.
/// False if it refuses.
pub(crate) fn set_receive_buffer(socket: &UdpSocket, bytes: u32) -> bool {
    let [a, b, c3, d] = bytes.to_ne_bytes();
    let value = [a, b, c3, d, 0, 0, 0, 0, 0, 0, 0, 0, 0, 0, 0, 0];
    unsafe { c::setsockopt(socket.as_raw_fd(), c::SOL_SOCKET, c::SO_RCVBUF, &value, 4) == 0 }
}

/// The size of the receive buffer as the system counts it, or 0 if it doesn't say.
pub(crate) fn receive_buffer(socket: &UdpSocket) -> u32 {
    let mut value = [0u8; 16];
    let mut size = 4u32;
    let done = unsafe {
        c::getsockopt(
            socket.as_raw_fd(),
            c::SOL_SOCKET,
            c::SO_RCVBUF,
            &mut value,
            &mut size,
        )
    };
    if done != 0 {
        return 0;
    }
    u32::from_ne_bytes([value[0], value[1], value[2], value[3]])
}

/// Whether a descriptor is a socket.
fn has_buffer(descriptor: RawFd) -> bool {
    let mut value = [0u8; 16];
    let mut size = 4u32;
    unsafe {
        c::getsockopt(
            descriptor,
            c::SOL_SOCKET,
            c::SO_RCVBUF,
            &mut value,
            &mut size,
        ) == 0
    }
}

/// Whether a descriptor is a socket of TCP.
fn is_stream(descriptor: RawFd) -> bool {
    let mut value = [0u8; 16];
    let mut size = 4u32;
    unsafe {
        c::getsockopt(
            descriptor,
            c::IPPROTO_TCP,
            c::TCP_NODELAY,
            &mut value,
            &mut size,
        ) == 0
    }
}

/// Whether a descriptor is a socket, and none of TCP.
pub(crate) fn is_datagram_socket(descriptor: RawFd) -> bool {
    has_buffer(descriptor) && !is_stream(descriptor)
}

/// Whether a socket is connected.
pub(crate) fn is_connected(descriptor: RawFd) -> bool {
    let mut address = [0u8; c::_SS_SIZE];
    let mut size = c::_SS_SIZE as u32;
    unsafe { c::getpeername(descriptor, &mut address, &mut size) == 0 }
}
