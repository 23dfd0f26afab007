//! Several addresses that clients send to: by which of them data comes back, over a crash too.

use super::conversations::are_got;
use super::own::is_lost;
use super::talks::{ELSEWHERE, HOME, PORTS, Talk, end_right, make_loopback, new_disk};
use std::test::Fail;
use turn_client::{Allocated, ClientError, limits};
use turn_disk::{CrashOutcome, MemoryDisk};
use turn_serving::Commits;
use turn_sockets::ListeningAddresses;
use turn_types::Endpoint;

fn two(first: (u32, u16), second: (u32, u16)) -> Result<ListeningAddresses, Fail> {
    let [first, second] = [first, second].map(|(ip, port)| Endpoint { ip, port });
    Ok(ListeningAddresses::new(first, &[second]).ok_or("addresses")?)
}

/// A server over a new store in memory that listens on these addresses.
fn begin_at(rt: &HostRuntime, listen: ListeningAddresses) -> Result<Talk<'_>, Fail> {
    let mut loopback = make_loopback(rt, PORTS, 1, Commits::EachTurn)?;
    loopback.set_listen(listen);
    Ok(loopback.serve(rt, new_disk(rt.alloc(), limits())?)?)
}

/// A crash of the server, and a start that listens on these addresses.
fn restart<'a>(
    rt: &'a HostRuntime,
    talk: Talk<'a>,
    listen: ListeningAddresses,
) -> Result<Talk<'a>, Fail> {
    let (mut disk, mut loopback) = talk.end();
    disk.crash(CrashOutcome::Lost);
    loopback.set_listen(listen);
    Ok(loopback.serve(rt, disk)?)
}

/// An allocation by an address of the server, with a permission for the peer.
fn call(rt: &HostRuntime, talk: &mut Talk<'_>, server: Endpoint) -> Result<Allocated, ClientError> {
    talk.client().set_server(server);
    talk.challenge(rt)?;
    let allocated = talk.allocate(rt)?;
    talk.permit(rt)?;
    Ok(allocated)
}

/// An allocation of one client address by each of two.
fn call_both(
    rt: &HostRuntime,
    talk: &mut Talk<'_>,
    servers: &ListeningAddresses,
) -> Result<(Allocated, Allocated), Fail> {
    let [first, second] = servers.as_slice() else {
        return Err(Fail::new("two addresses"));
    };
    let calls = (call(rt, talk, *first)?, call(rt, talk, *second)?);
    if calls.0.port == calls.1.port {
        return Err(Fail::new("one allocation"));
    }
    Ok(calls)
}

/// Whether data goes to the peer by an allocation, and comes back by the address that the client sends to. The client takes
/// nothing of another address.
fn goes(rt: &HostRuntime, talk: &mut Talk<'_>, server: Endpoint, port: u16) -> bool {
    talk.client().set_server(server);
    are_got(talk.send(rt, port, b"hello"), b"hello")
        && are_got(talk.receive(rt, port, b"world"), b"world")
}

/// Whether both allocations are there, each by its address.
fn are_kept(
    rt: &HostRuntime,
    talk: &mut Talk<'_>,
    servers: &ListeningAddresses,
    calls: &(Allocated, Allocated),
) -> bool {
    let [first, second] = servers.as_slice() else {
        return false;
    };
    goes(rt, talk, *second, calls.1.port)
        && goes(rt, talk, *first, calls.0.port)
        && talk.repeat(rt, &calls.0) == Ok(true)
        && goes(rt, talk, *second, calls.1.port)
        && talk.repeat(rt, &calls.1) == Ok(true)
}

/// Whether the first allocation goes on where the server doesn't listen on the other's address, and the other gets nothing.
fn is_first_alone(
    rt: &HostRuntime,
    talk: &mut Talk<'_>,
    servers: &ListeningAddresses,
    calls: &(Allocated, Allocated),
) -> bool {
    let first = servers.first();
    let is_lost = talk.receive(rt, calls.1.port, b"lost") == Err(ClientError::Silent);
    is_lost && goes(rt, talk, first, calls.0.port)
}

#[test]
fn a_call_goes_by_the_address_that_its_client_uses(rt: HostRuntime) -> Result<(), Fail> {
    let mut talk = begin_at(&rt, two((HOME, 0), (ELSEWHERE, 0))?)?;
    let servers = talk.servers().copied();
    let calls = call_both(&rt, &mut talk, &servers)?;
    let before = are_kept(&rt, &mut talk, &servers, &calls);
    let mut talk = restart(&rt, talk, servers.copied())?;
    let after = are_kept(&rt, &mut talk, &servers, &calls);
    let mut talk = restart(&rt, talk, ListeningAddresses::one(servers.first()))?;
    let alone = is_first_alone(&rt, &mut talk, &servers, &calls);
    let mut talk = restart(&rt, talk, servers.copied())?;
    let again = are_kept(&rt, &mut talk, &servers, &calls);
    talk.end();
    assert!(rt; before && after && alone && again);
    Ok(())
}

/// Where the server's address is in the first frame of a store that was formatted. The frame is at 94: a gate, four bytes of length, the
/// number of records, the kind of the first one, its moment in eight bytes, and the client's address in six.
const STORED_SERVER: usize = 94 + 21;

fn stored_server(disk: &MemoryDisk) -> Option<Endpoint> {
    let bytes = disk.content().get(STORED_SERVER..STORED_SERVER + 6)?;
    let [a, b, c, d, high, low] = bytes else {
        return None;
    };
    Some(Endpoint {
        ip: u32::from_be_bytes([*a, *b, *c, *d]),
        port: u16::from_be_bytes([*high, *low]),
    })
}

#[test]
fn a_stored_five_tuple_ends_at_the_address_that_the_client_sent_to(
    rt: HostRuntime,
) -> Result<(), Fail> {
    let mut talk = begin_at(&rt, two((HOME, 0), (ELSEWHERE, 0))?)?;
    let second = talk.servers().as_slice().get(1).copied();
    let called = call(&rt, &mut talk, second.ok_or("two addresses")?);
    let (disk, _) = talk.end();
    called?;
    assert!(rt; stored_server(&disk) == second);
    Ok(())
}

#[test]
fn what_a_relay_port_sends_to_the_second_address_is_lost(rt: HostRuntime) -> Result<(), Fail> {
    let mut talk = begin_at(&rt, two((HOME, 63_101), (HOME, 63_102))?)?;
    let second = Endpoint {
        ip: HOME,
        port: 63_102,
    };
    let right = is_lost(&rt, &mut talk, second);
    end_right(talk, right)
}
