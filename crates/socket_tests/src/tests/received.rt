//! What a receive says of what waits.

use std::cell::Cell;
use std::io::{self, Error, ErrorKind};
use std::net::{Ipv6Addr, SocketAddr, SocketAddrV6};
use std::test::Fail;
use turn_sockets::{Buffer, DatagramSocket, Received, SocketRecord, address_of};
use turn_types::Endpoint;

const PEER: Endpoint = Endpoint {
    ip: 0xCB00_7105,
    port: 7000,
};

/// A socket at which two datagrams wait, the first from an IPv6 address. The first receive fails for want of memory.
#[derive(Drop)]
struct FailingOnce<'a> {
    calls: &'a Cell<u32>,
}

impl DatagramSocket for FailingOnce<'_> {
    ghost bound_at = { λ _. record { ip = 0; port = 7001 } };

    fn at(&self) -> Endpoint {
        Endpoint { ip: 0, port: 7001 }
    }

    fn receive(&self, buffer: &mut [u8]) -> io::Result<(usize, SocketAddr)> {
        let call = self.calls.get();
        self.calls.set(call.wrapping_add(1));
        if let [first, second, third, ..] = buffer {
            (*first, *second, *third) = (b'a', b'b', b'c');
        }
        match call {
            0 => Err(Error::from_raw_os_error(12)),
            1 => {
                let from = SocketAddrV6::new(Ipv6Addr::LOCALHOST, 7000, 0, 0);
                Ok((3, SocketAddr::V6(from)))
            }
            2 => Ok((3, address_of(PEER))),
            _ => Err(Error::from(ErrorKind::WouldBlock)),
        }
    }
}

fn is_datagram(received: Received<'_>) -> bool {
    match received {
        Received::Datagram { bytes, from } => bytes == b"abc".as_slice() && from == PEER,
        Received::Failed | Received::Nothing => false,
    }
}

#[test]
fn only_would_block_says_that_nothing_waits(rt: HostRuntime) -> Result<(), Fail> {
    let calls = Cell::new(0);
    let socket = FailingOnce { calls: &calls };
    let mut buffer = Buffer::new(rt.alloc())?;
    let mut wire = SocketRecord::new(&rt);
    assert!(rt; matches!(buffer.receive(&socket, &mut wire), Received::Failed));
    assert!(rt; matches!(buffer.receive(&socket, &mut wire), Received::Failed));
    assert!(rt; is_datagram(buffer.receive(&socket, &mut wire)));
    assert!(rt; matches!(buffer.receive(&socket, &mut wire), Received::Nothing));
    Ok(())
}
