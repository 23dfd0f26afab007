//! Turns of a server over a disk in memory: a commit that fails, and datagrams that are none of a client's.

use super::talks::{PORTS, Talk, begin, end_right, make_loopback, new_disk};
use std::test::Fail;
use turn_client::{ClientError, limits};
use turn_engine::CommitError;
use turn_serving::{Commits, StartError, TurnError};
use turn_store::OpenError;
use turn_types::Method;

/// A server over a new store, whose turns take so many datagrams of a socket. The device call of this number from its start on
/// fails.
fn begin_failing(
    rt: &HostRuntime,
    call: u64,
    burst: u8,
) -> Result<Result<Talk<'_>, ClientError>, Fail> {
    let mut disk = new_disk(rt.alloc(), limits())?;
    if 0 < call {
        disk.fail_call(call);
    }
    Ok(make_loopback(rt, PORTS, burst, Commits::EachTurn)?.serve(rt, disk))
}

/// Where a device call that fails is.
#[derive(Clone, Copy, PartialEq, Eq)]
enum Place {
    Start,
    /// In the commit of the first Allocate.
    Commit,
    Later,
}

/// A start opens the empty store by 12 calls: a sync, the superblock, four reads of each area's head, the snapshot and the gate after it.
/// The commit of an Allocate makes four.
const CALLS: [(u64, Place); 7] = [
    (1, Place::Start),
    (12, Place::Start),
    (13, Place::Commit),
    (14, Place::Commit),
    (15, Place::Commit),
    (16, Place::Commit),
    (17, Place::Later),
];

/// Where a turn fails, of a challenge and an Allocate. If it is in the commit, the Allocate gets no answer, and there is no
/// later turn.
fn place_of(rt: &HostRuntime, talk: &mut Talk<'_>) -> Result<Place, Fail> {
    talk.challenge(rt)?;
    match talk.allocate(rt) {
        Ok(_) => return Ok(Place::Later),
        Err(ClientError::Turn(TurnError::Commit(CommitError::Device))) => {}
        Err(_) => return Err(Fail::new("another fault")),
    }
    let is_silent = matches!(talk.client().receive(), Err(ClientError::Silent));
    let stopped = ClientError::Turn(TurnError::Commit(CommitError::Stopped));
    if is_silent && talk.turn(rt) == Err(stopped) {
        Ok(Place::Commit)
    } else {
        Err(Fail::new("an answer, or a later turn"))
    }
}

fn expect_place(rt: &HostRuntime, call: u64, place: Place) -> Result<(), Fail> {
    let found = match begin_failing(rt, call, 1)? {
        Ok(mut talk) => {
            let found = place_of(rt, &mut talk);
            talk.end();
            found?
        }
        Err(ClientError::Start(StartError::Store(OpenError::Device))) => Place::Start,
        Err(_) => return Err(Fail::new("another fault")),
    };
    if found == place {
        Ok(())
    } else {
        Err(Fail::new(call))
    }
}

#[test]
fn a_turn_whose_commit_fails_answers_nothing(rt: HostRuntime) -> Result<(), Fail> {
    for (call, place) in &CALLS {
        expect_place(&rt, *call, *place)?;
    }
    Ok(())
}

/// A burst, and a device call from the commits of two Refreshes on, the first one after an Allocate being 17: whether a turn fails
/// of two after the Refreshes were sent. With a burst of 2 one commit of four calls has both.
const REFRESHES: [(u8, u64, bool); 3] = [(1, 21, true), (2, 20, true), (2, 21, false)];

/// Whether a turn fails of two after two Refreshes.
fn fails(rt: &HostRuntime, talk: &mut Talk<'_>) -> Result<bool, Fail> {
    talk.challenge(rt)?;
    talk.allocate(rt)?;
    for _ in 0..2u8 {
        let request = talk.client().request(Method::REFRESH, &[])?;
        talk.client().send(&request)?;
    }
    Ok(talk.turn(rt).is_err() || talk.turn(rt).is_err())
}

/// Whether one fails exactly if one is to.
fn fails_so(rt: &HostRuntime, talk: &mut Talk<'_>, failure: bool) -> Result<bool, Fail> {
    Ok(fails(rt, talk)? == failure)
}

#[test]
fn requests_of_one_turn_share_a_commit(rt: HostRuntime) -> Result<(), Fail> {
    for (burst, call, failure) in &REFRESHES {
        let mut talk = begin_failing(&rt, *call, *burst)??;
        let right = fails_so(&rt, &mut talk, *failure);
        end_right(talk, right)?;
    }
    Ok(())
}

/// Whether the answers to two requests of one turn come in the order of the requests, and nothing else comes. The first answer is an
/// error of 401, and the second one a Binding success.
fn are_in_order(rt: &HostRuntime, talk: &mut Talk<'_>) -> Result<bool, Fail> {
    let first = talk.client().plain_request(Method::ALLOCATE)?;
    let second = talk.client().plain_request(Method::BINDING)?;
    talk.client().send(&first)?;
    talk.client().send(&second)?;
    talk.turn(rt)?;
    let is_first = talk.client().receive()?.get(8..20) == first.get(8..20);
    let is_second = talk.client().receive()?.get(8..20) == second.get(8..20);
    let is_all = matches!(talk.client().receive(), Err(ClientError::Silent));
    Ok(is_first && is_second && is_all)
}

#[test]
fn the_answers_of_a_turn_are_sent_in_the_order_of_its_requests_once_each(
    rt: HostRuntime,
) -> Result<(), Fail> {
    let mut talk = begin(&rt, 2, Commits::EachTurn)?;
    let right = are_in_order(&rt, &mut talk);
    end_right(talk, right)
}

/// No datagram of a client: nothing, texts, headers that are cut or of another length, a channel of no allocation, and an
/// indication of no allocation.
const STRANGE: [&[u8]; 8] = [
    b"",
    b"\x00",
    b"GET / HTTP/1.1\r\n\r\n",
    b"\xff\xff\xff\xff\xff\xff\xff\xff\xff\xff\xff\xff\xff\xff\xff\xff\xff\xff\xff\xff",
    b"\x00\x01\x00\x00\x21\x12\xa4\x42\x01\x02\x03\x04\x05\x06\x07\x08\x09\x0a\x0b",
    b"\x00\x01\xff\xfc\x21\x12\xa4\x42\x01\x02\x03\x04\x05\x06\x07\x08\x09\x0a\x0b\x0c",
    b"\x40\x00\x00\x04abcd",
    b"\x00\x16\x00\x00\x21\x12\xa4\x42\x01\x02\x03\x04\x05\x06\x07\x08\x09\x0a\x0b\x0c",
];

/// How many bytes a datagram over IPv4 has at most.
const MAX_DATAGRAM: usize = 65_507;

/// Sends a datagram, and a Binding request. Returns whether the request alone is answered.
fn is_dropped(rt: &HostRuntime, talk: &mut Talk<'_>, bytes: &[u8]) -> Result<bool, Fail> {
    talk.client().send(bytes)?;
    talk.turn(rt)?;
    let request = talk.client().plain_request(Method::BINDING)?;
    talk.client().send(&request)?;
    talk.turn(rt)?;
    let answer = talk.client().receive()?;
    // The type of a Binding success, and the request's transaction id.
    Ok(answer.get(..2) == Some(b"\x01\x01".as_slice()) && answer.get(8..20) == request.get(8..20))
}

fn are_dropped(rt: &HostRuntime, talk: &mut Talk<'_>) -> Result<bool, Fail> {
    let longest = Vec::from_elem(rt.alloc(), 0u8, MAX_DATAGRAM)?;
    for bytes in &STRANGE {
        if !is_dropped(rt, talk, bytes)? {
            return Ok(false);
        }
    }
    is_dropped(rt, talk, &longest)
}

#[test]
fn a_datagram_of_no_client_is_dropped_and_the_next_is_answered(
    rt: HostRuntime,
) -> Result<(), Fail> {
    let mut talk = begin(&rt, 1, Commits::EachTurn)?;
    let right = are_dropped(&rt, &mut talk);
    end_right(talk, right)
}
