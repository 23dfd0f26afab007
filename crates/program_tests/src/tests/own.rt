//! Datagrams of a server to itself.

use super::talks::{ANY, BINDING, HOME, Talk, begin, end_right, make_loopback, new_disk};
use std::test::Fail;
use turn_client::{ClientError, TimedSocket, limits};
use turn_serving::Commits;
use turn_types::Endpoint;

/// A range of relay ports, and one of them.
const RANGE: (u16, u16) = (63_011, 63_013);

const OF_RANGE: Endpoint = Endpoint {
    ip: HOME,
    port: 63_012,
};

/// A client sends a Binding request through its relay port to an address of the server, and permits what would come back. Returns
/// whether nothing does, which would be a Data indication.
pub fn is_lost(rt: &HostRuntime, talk: &mut Talk<'_>, server: Endpoint) -> Result<bool, Fail> {
    talk.challenge(rt)?;
    talk.allocate(rt)?;
    talk.permit(rt)?;
    talk.client().send_to_peer(server, BINDING)?;
    for _ in 0..3u8 {
        talk.turn(rt)?;
    }
    Ok(talk.client().receive() == Err(ClientError::Silent))
}

#[test]
fn what_a_relay_port_sends_to_the_listening_address_is_lost(rt: HostRuntime) -> Result<(), Fail> {
    let mut talk = begin(&rt, 1, Commits::EachTurn)?;
    let server = talk.server();
    let right = is_lost(&rt, &mut talk, server);
    end_right(talk, right)
}

/// Whether a Binding request of a socket is answered.
fn is_answered(rt: &HostRuntime, talk: &mut Talk<'_>, at: Endpoint) -> Result<bool, Fail> {
    let mut socket = TimedSocket::open(rt.alloc(), rt, at)?;
    socket.send(talk.server(), BINDING)?;
    talk.turn(rt)?;
    Ok(socket.receive().is_ok())
}

/// Whether a port of the range isn't answered, and another one is.
fn is_of_no_client(rt: &HostRuntime, talk: &mut Talk<'_>) -> Result<bool, Fail> {
    let is_lost = !is_answered(rt, talk, OF_RANGE)?;
    Ok(is_lost && is_answered(rt, talk, ANY)?)
}

#[test]
fn what_comes_from_a_port_of_the_range_is_of_no_client(rt: HostRuntime) -> Result<(), Fail> {
    let loopback = make_loopback(&rt, RANGE, 1, Commits::EachTurn)?;
    let mut talk = loopback.serve(&rt, new_disk(rt.alloc(), limits())?)?;
    let right = is_of_no_client(&rt, &mut talk);
    end_right(talk, right)
}
