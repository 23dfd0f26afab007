//! What a turn takes of which sockets.

use super::received::{got, receive_all};
use super::talks::{ELSEWHERE, HOME, Talk, begin, end_right, tell};
use std::test::Fail;
use turn_client::ClientError;
use turn_serving::Commits;
use turn_types::Method;

/// The client gets an allocation and a permission for its peer's address. The last turn found nothing. Returns the relayed port.
fn prepare(rt: &HostRuntime, talk: &mut Talk<'_>) -> Result<u16, ClientError> {
    talk.challenge(rt)?;
    let port = talk.allocate(rt)?.port;
    talk.permit(rt)?;
    talk.turn(rt)?;
    Ok(port)
}

/// The client sends so many Binding requests.
fn ask(talk: &mut Talk<'_>, count: u8) -> Result<(), ClientError> {
    for _ in 0..count {
        let request = talk.client().plain_request(Method::BINDING)?;
        talk.client().send(&request)?;
    }
    Ok(())
}

fn turns(rt: &HostRuntime, talk: &mut Talk<'_>, count: u8) -> Result<(), ClientError> {
    for _ in 0..count {
        talk.turn(rt)?;
    }
    Ok(())
}

/// One turn takes a datagram of the client and one of the peer.
fn take_both(rt: &HostRuntime, talk: &mut Talk<'_>) -> Result<bool, Fail> {
    let port = prepare(rt, talk)?;
    ask(talk, 1)?;
    tell(rt, HOME, port, 3, 1)?;
    turns(rt, talk, 1)?;
    Ok(receive_all(talk) == got(0, 1, 1))
}

/// Of 20 datagrams of the client a turn takes one. The peer's comes in between, and is taken in the next turn.
fn look(rt: &HostRuntime, talk: &mut Talk<'_>) -> Result<bool, Fail> {
    let port = prepare(rt, talk)?;
    ask(talk, 20)?;
    turns(rt, talk, 1)?;
    tell(rt, HOME, port, 3, 1)?;
    turns(rt, talk, 1)?;
    let first = receive_all(talk);
    turns(rt, talk, 18)?;
    Ok(first == got(0, 1, 2) && receive_all(talk) == got(0, 0, 18))
}

/// The client's Refreshes are answered one in each turn. A peer's datagram that comes before the second is taken in it.
fn look_after_writes(rt: &HostRuntime, talk: &mut Talk<'_>) -> Result<bool, Fail> {
    let port = prepare(rt, talk)?;
    for _ in 0..5u8 {
        let request = talk.client().request(Method::REFRESH, &[])?;
        talk.client().send(&request)?;
    }
    turns(rt, talk, 1)?;
    tell(rt, HOME, port, 3, 1)?;
    turns(rt, talk, 1)?;
    let received = receive_all(talk);
    Ok(received.data == 1)
}

/// Of three datagrams of a peer a turn takes two.
fn take_two(rt: &HostRuntime, talk: &mut Talk<'_>) -> Result<bool, Fail> {
    let port = prepare(rt, talk)?;
    tell(rt, HOME, port, 3, 3)?;
    turns(rt, talk, 1)?;
    let first = receive_all(talk);
    turns(rt, talk, 1)?;
    Ok(first == got(0, 2, 0) && receive_all(talk) == got(0, 1, 0))
}

/// A peer's address, the size of its datagram, and how many Data indications come of it: an empty one is relayed, one of an
/// address without a permission isn't, nor is one that fits in no Data indication.
const STRANGE: [(u32, usize, u8); 4] = [
    (HOME, 0, 1),
    (ELSEWHERE, 3, 0),
    (HOME, 65_507, 0),
    (HOME, 3, 1),
];

fn relay_strange(rt: &HostRuntime, talk: &mut Talk<'_>) -> Result<bool, Fail> {
    let port = prepare(rt, talk)?;
    for (ip, size, data) in &STRANGE {
        tell(rt, *ip, port, *size, 1)?;
        turns(rt, talk, 1)?;
        if receive_all(talk) != got(0, *data, 0) {
            return Ok(false);
        }
    }
    Ok(true)
}

#[test]
fn a_turn_takes_of_each_socket_that_has_a_datagram(rt: HostRuntime) -> Result<(), Fail> {
    let mut talk = begin(&rt, 1, Commits::EachTurn)?;
    let right = take_both(&rt, &mut talk);
    end_right(talk, right)
}

#[test]
fn a_peer_gets_through_while_a_client_sends_without_a_pause(rt: HostRuntime) -> Result<(), Fail> {
    let mut talk = begin(&rt, 1, Commits::EachTurn)?;
    let right = look(&rt, &mut talk);
    end_right(talk, right)
}

#[test]
fn a_peer_gets_through_while_requests_are_committed(rt: HostRuntime) -> Result<(), Fail> {
    let mut talk = begin(&rt, 1, Commits::EachTurn)?;
    let right = look_after_writes(&rt, &mut talk);
    end_right(talk, right)
}

#[test]
fn a_turn_takes_as_many_datagrams_of_a_peer_as_its_burst(rt: HostRuntime) -> Result<(), Fail> {
    let mut talk = begin(&rt, 2, Commits::EachTurn)?;
    let right = take_two(&rt, &mut talk);
    end_right(talk, right)
}

#[test]
fn a_peers_datagram_is_relayed_if_it_is_permitted_and_fits(rt: HostRuntime) -> Result<(), Fail> {
    let mut talk = begin(&rt, 1, Commits::EachTurn)?;
    let right = relay_strange(&rt, &mut talk);
    end_right(talk, right)
}

/// A burst, how many Binding requests a client sends, and how many a turn takes. A batch of the server takes four arrivals: a turn that
/// takes more commits in the middle.
const BURSTS: [(u8, u8, u8); 3] = [(1, 3, 1), (3, 3, 3), (64, 9, 9)];

/// Whether a turn takes so many of the Binding requests that are sent.
fn takes(rt: &HostRuntime, talk: &mut Talk<'_>, sent: u8, taken: u8) -> Result<bool, Fail> {
    ask(talk, sent)?;
    turns(rt, talk, 1)?;
    Ok(receive_all(talk) == got(0, 0, taken))
}

#[test]
fn a_turn_takes_as_many_datagrams_as_its_burst(rt: HostRuntime) -> Result<(), Fail> {
    for (burst, sent, taken) in &BURSTS {
        let mut talk = begin(&rt, *burst, Commits::EachTurn)?;
        let right = takes(&rt, &mut talk, *sent, *taken);
        end_right(talk, right)?;
    }
    Ok(())
}
