//! Servers on the loopback over a store in memory, with a client and its peer; addresses and datagrams.

use std::alloc::Global;
use std::test::Fail;
use turn_client::{ClientCredentials, Conversation, Loopback, TimedSocket, limits};
use turn_disk::{Disk, MemoryDisk};
use turn_ports::PortRange;
use turn_serving::Commits;
use turn_store::{format, least_area};
use turn_types::{Endpoint, Limits};

pub type Talk<'a> = Conversation<'a, MemoryDisk, HostRuntime>;

/// 127.0.0.1 and 127.0.0.2, which are both this machine's.
pub const HOME: u32 = 0x7F00_0001;

pub const ELSEWHERE: u32 = 0x7F00_0002;

/// Any free port.
pub const ANY: Endpoint = Endpoint { ip: HOME, port: 0 };

/// The relay ports of conversations.
pub const PORTS: (u16, u16) = (62_000, 62_999);

pub const ALICE: ClientCredentials<'static> = ClientCredentials {
    user: b"alice",
    realm: b"example.org",
    password: b"wonder",
};

/// A Binding request.
pub const BINDING: &[u8] =
    b"\x00\x01\x00\x00\x21\x12\xA4\x42\x01\x02\x03\x04\x05\x06\x07\x08\x09\x0A\x0B\x0C";

/// An Allocate without attributes. Its answer, a challenge, is the same for every table, so it is answered at once.
pub const PLAIN: &[u8] =
    b"\x00\x03\x00\x00\x21\x12\xA4\x42\x01\x02\x03\x04\x05\x06\x07\x08\x09\x0A\x0B\x0C";

/// An Allocate with MESSAGE-INTEGRITY alone. It is answered at once too, with a 400.
pub const SIGNED: &[u8] =
    b"\x00\x03\x00\x18\x21\x12\xA4\x42\x01\x02\x03\x04\x05\x06\x07\x08\x09\x0A\x0B\x0C\x00\x08\x00\x14\x00\x00\x00\x00\x00\x00\x00\x00\x00\x00\x00\x00\x00\x00\x00\x00\x00\x00\x00\x00";

/// A new store in memory.
pub fn new_disk(alloc: Global, limits: Limits) -> Result<MemoryDisk, Fail> {
    let area = least_area(limits);
    let mut disk = MemoryDisk::new(alloc, Vec::from_elem(alloc, 0u8, 64 + 2 * area)?);
    if format(&mut disk, limits, area).is_err() {
        return Err(Fail::new("format"));
    }
    Ok(disk)
}

/// A client, its peer, and a server to be, with relay ports of a range, whose turns take so many datagrams of a socket.
pub fn make_loopback(
    rt: &HostRuntime,
    (first, last): (u16, u16),
    burst: u8,
    commits: Commits,
) -> Result<Loopback<'_, HostRuntime>, Fail> {
    let ports = PortRange::new(first, last).ok_or("a range")?;
    Ok(Loopback::new(rt.alloc(), rt, ports, burst, commits)?)
}

/// A server over a new store.
pub fn begin(rt: &HostRuntime, burst: u8, commits: Commits) -> Result<Talk<'_>, Fail> {
    let disk = new_disk(rt.alloc(), limits())?;
    Ok(make_loopback(rt, PORTS, burst, commits)?.serve(rt, disk)?)
}

/// The conversation, if what was done in it came out right.
pub fn go_on<'a, D: Disk + Drop>(
    talk: Conversation<'a, D, HostRuntime>,
    right: Result<bool, Fail>,
) -> Result<Conversation<'a, D, HostRuntime>, Fail> {
    match right {
        Ok(true) => Ok(talk),
        Ok(false) => {
            talk.end();
            Err(Fail::new("another outcome"))
        }
        Err(fail) => {
            talk.end();
            Err(fail)
        }
    }
}

/// Ends a conversation. What was done in it has to have come out right.
pub fn end_right<D: Disk + Drop>(
    talk: Conversation<'_, D, HostRuntime>,
    right: Result<bool, Fail>,
) -> Result<(), Fail> {
    talk.end();
    if right? {
        Ok(())
    } else {
        Err(Fail::new("another outcome"))
    }
}

/// A peer at any port of an address sends so many datagrams of this size to a relayed port.
pub fn tell(rt: &HostRuntime, ip: u32, port: u16, size: usize, count: u8) -> Result<(), Fail> {
    let peer = TimedSocket::open(rt.alloc(), rt, Endpoint { ip, port: 0 })?;
    let payload = Vec::from_elem(rt.alloc(), b'x', size)?;
    for _ in 0..count {
        peer.send(Endpoint { ip: HOME, port }, &payload)?;
    }
    Ok(())
}
