//! Tells a supervisor that a server is ready, as `sd_notify(3)` has it.

ghost use Rattle.std.specs.Prelude.{◌≡◌, ◌≤◌, ◌-◌, ◌++◌, ◌∷◌, IfSome, length, replicate};
ghost use Rattle.turn_sockets.specs.Notify.{unix_address};

use libc::net as c;
use std::alloc::AllocGlobal;
use std::env::{self, Env};
use std::net::Net;

/// What a supervisor is told.
const READY: &[u8] = b"READY=1";

/// How many bytes of an address C counts at most, that of a Unix socket: its family and 108 bytes of a name.
const MAX_LENGTH: usize = 110;

/// How long a supervisor that doesn't read is waited for, a second, as C has it (`struct timeval`).
const PATIENCE: [u8; 16] = [1, 0, 0, 0, 0, 0, 0, 0, 0, 0, 0, 0, 0, 0, 0, 0];

/// The address of a Unix socket, as C has it.
#[derive(Clone, Copy)]
pub(crate) struct UnixAddress {
    // `struct sockaddr_un`, with zeros after it.
    bytes: [u8; c::_SS_SIZE],
    // How many of the bytes count.
    length: u32,
}

/// How many bytes are after the family and the first byte of a name.
const REST: usize = c::_SS_SIZE - 3;

/// The bytes after the first one of a name, filled with zeros.
fn filled(rest: &[u8]) -> [u8; REST]
    requires { length rest.now ≤ 125 }
    ensures { result ≡ rest.now ++ replicate (125 - length rest.now) 0 }
{
    let mut bytes = [0; REST];
    bytes[..rest.len()].copy_from_slice(rest);
    bytes
}

/// The family of Unix sockets in two bytes, the low one first, then the first byte of a name, and the others.
fn address_bytes(first: u8, rest: &[u8; REST]) -> [u8; c::_SS_SIZE]
    ensures { result ≡ 1 ∷ 0 ∷ first ∷ rest.now }
{
    let mut bytes = [0; c::_SS_SIZE];
    bytes[0] = 1;
    bytes[2] = first;
    bytes[3..].copy_from_slice(rest);
    bytes
}

/// The address that the value of NOTIFY_SOCKET names: a path from the root on, with the zero that ends it, or after `@` an abstract
/// name, which begins with a zero.
pub(crate) fn unix_address(name: &[u8]) -> Option<UnixAddress>
    ensures named { result ≡ unix_address name.now }
    ensures fits { IfSome result (λ address. address.length ≤ 110) }
{
    let (first, rest) = name.split_first()?;
    let is_abstract = *first == b'@';
    if (!is_abstract && *first != b'/') || rest.is_empty() {
        return None;
    }
    let length = if is_abstract {
        name.len() + 2
    } else {
        name.len() + 3
    };
    if length > MAX_LENGTH {
        return None;
    }
    Some(UnixAddress {
        bytes: address_bytes(if is_abstract { 0 } else { *first }, &filled(rest)),
        length: length as u32,
    })
}

/// Sends it in one datagram, from a socket that is closed again.
fn send_ready(address: &UnixAddress)
    requires { address.now.length ≤ 110 }
{
    let socket = unsafe { c::socket(c::AF_UNIX, c::SOCK_DGRAM | c::SOCK_CLOEXEC, 0) };
    if socket < 0 {
        return;
    }
    unsafe {
        c::setsockopt(socket, c::SOL_SOCKET, c::SO_SNDTIMEO, &PATIENCE, 16);
        c::sendto(
            socket,
            READY,
            c::MSG_NOSIGNAL,
            &address.bytes,
            address.length,
        );
    }
    libc::close(socket);
}

/// Tells the supervisor that NOTIFY_SOCKET names, if it names one, that this server is ready. It waits a second at most, and a
/// supervisor that can't be told is none.
pub fn notify_ready<R: Net + Env + AllocGlobal>(rt: &R) {
    if let Ok(name) = env::var(rt, "NOTIFY_SOCKET") {
        if let Some(address) = unix_address(name.as_bytes()) {
            send_ready(&address);
        }
    }
}
