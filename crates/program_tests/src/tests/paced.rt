//! When requests are committed while data comes, and what waits behind them: by a clock that the tests set.

use super::clocks::Ticking;
use super::received::{got, receive_all};
use super::talks::{ANY, BINDING, HOME, Talk, begin, end_right, tell};
use std::test::Fail;
use turn_client::{ClientError, TimedSocket};
use turn_requests::Attribute;
use turn_serving::Commits;
use turn_types::Method;

/// What is sent before some turns; at which time in milliseconds the turns are, how long a commit takes, and how many turns there are.
struct Row {
    /// How many Refreshes the client sends.
    refreshes: u8,
    /// Whether its peer sends data.
    data: bool,
    /// Whether the client sends a Binding after its Refreshes.
    binding: bool,
    /// Whether another client sends a Binding.
    other: bool,
    at: u64,
    commit: u64,
    turns: u8,
    /// What the client has got after the turns: Refreshes, data and Bindings.
    got: (u8, u8, u8),
}

/// A turn before which nothing is sent.
const ROW: Row = Row {
    refreshes: 0,
    data: false,
    binding: false,
    other: false,
    at: 0,
    commit: 0,
    turns: 1,
    got: (0, 0, 0),
};

/// A lone request is answered at once, and so is the next one while no data comes. Once data came, a request waits for 40 ms after
/// a commit of 10, and so does what the client sends after it, but neither data nor other clients. Once the pause is over up to
/// four requests, a batch of this server, are committed, and the next ones in the next turn. Of 70 requests of a client 64 may wait:
/// the others are dropped, and data isn't.
const ROWS: [Row; 12] = [
    Row {
        refreshes: 1,
        at: 1_000,
        commit: 10,
        got: (1, 0, 0),
        ..ROW
    },
    Row {
        refreshes: 1,
        at: 1_011,
        commit: 10,
        got: (1, 0, 0),
        ..ROW
    },
    Row {
        data: true,
        at: 1_022,
        got: (0, 1, 0),
        ..ROW
    },
    Row {
        refreshes: 1,
        binding: true,
        at: 1_023,
        ..ROW
    },
    Row {
        refreshes: 1,
        data: true,
        other: true,
        at: 1_060,
        got: (0, 1, 0),
        ..ROW
    },
    Row {
        at: 1_061,
        commit: 10,
        got: (2, 0, 1),
        ..ROW
    },
    Row {
        data: true,
        at: 1_072,
        got: (0, 1, 0),
        ..ROW
    },
    Row {
        refreshes: 5,
        data: true,
        at: 1_110,
        got: (0, 1, 0),
        ..ROW
    },
    Row {
        at: 1_200,
        commit: 10,
        got: (4, 0, 0),
        ..ROW
    },
    Row {
        data: true,
        at: 1_240,
        commit: 10,
        got: (0, 1, 0),
        ..ROW
    },
    Row {
        refreshes: 69,
        data: true,
        other: true,
        at: 1_245,
        got: (0, 1, 0),
        ..ROW
    },
    Row {
        at: 1_400,
        turns: 16,
        got: (64, 0, 0),
        ..ROW
    },
];

/// The client and its peer send what a row says.
fn send(rt: &HostRuntime, talk: &mut Talk<'_>, port: u16, row: &Row) -> Result<(), Fail> {
    for _ in 0..row.refreshes {
        let request = talk.client().request(Method::REFRESH, &[])?;
        talk.client().send(&request)?;
    }
    if row.binding {
        let request = talk.client().plain_request(Method::BINDING)?;
        talk.client().send(&request)?;
    }
    if row.data {
        tell(rt, HOME, port, 3, 1)?;
    }
    Ok(())
}

/// Sends what a row says, takes its turns, and compares what the clients got.
fn is_row(
    rt: &HostRuntime,
    talk: &mut Talk<'_>,
    clock: &Ticking,
    port: u16,
    row: &Row,
) -> Result<bool, Fail> {
    send(rt, talk, port, row)?;
    let mut other = TimedSocket::open(rt.alloc(), rt, ANY)?;
    if row.other {
        other.send(talk.server(), BINDING)?;
    }
    clock.set(row.at, row.commit);
    for _ in 0..row.turns {
        talk.turn(clock)?;
    }
    let is_answered = !row.other || matches!(other.receive(), Ok(([1, 1, ..], _)));
    let (refreshes, data, bindings) = row.got;
    Ok(is_answered && receive_all(talk) == got(refreshes, data, bindings))
}

/// An allocation with a permission, each of its requests answered in its turn.
fn allocate(talk: &mut Talk<'_>, clock: &Ticking) -> Result<u16, ClientError> {
    talk.challenge(clock)?;
    let port = talk.allocate(clock)?.port;
    talk.permit(clock)?;
    Ok(port)
}

fn play(rt: &HostRuntime, talk: &mut Talk<'_>) -> Result<bool, Fail> {
    let clock = Ticking::new(u32::MAX, 0);
    let port = allocate(talk, &clock)?;
    for row in &ROWS {
        if !is_row(rt, talk, &clock, port, row)? {
            return Err(Fail::new(row.at));
        }
    }
    Ok(true)
}

#[test]
fn requests_wait_for_the_end_of_a_pause_and_data_does_not(rt: HostRuntime) -> Result<(), Fail> {
    let mut talk = begin(&rt, 64, Commits::Paced)?;
    let right = play(&rt, &mut talk);
    end_right(talk, right)
}

/// What a client sends right after a request, without waiting for its answer.
#[derive(Clone, Copy)]
enum Next {
    /// A Send indication after the CreatePermission for its peer.
    Indication,
    /// Data over a channel after the ChannelBind.
    OverChannel,
}

/// The channel.
const CHANNEL: u16 = 0x4000;

/// Each is sent over a server with no permission of the client, in one turn with the request before it.
const NEXT: [Next; 2] = [Next::Indication, Next::OverChannel];

/// What the peer gets of data that is sent in one turn with the request that allows it.
fn send_next(
    talk: &mut Talk<'_>,
    clock: &Ticking,
    port: u16,
    next: Next,
) -> Result<Vec<u8>, ClientError> {
    let peer = talk.peer();
    match next {
        Next::Indication => {
            let attributes = [Attribute::Peer(peer)];
            let request = talk
                .client()
                .request(Method::CREATE_PERMISSION, &attributes)?;
            talk.client().send(&request)?;
            talk.send(clock, port, b"data")
        }
        Next::OverChannel => {
            let attributes = [Attribute::Channel(CHANNEL), Attribute::Peer(peer)];
            let request = talk.client().request(Method::CHANNEL_BIND, &attributes)?;
            talk.client().send(&request)?;
            talk.send_over(clock, CHANNEL, port, b"data")
        }
    }
}

fn is_relayed(talk: &mut Talk<'_>, next: Next) -> Result<bool, Fail> {
    let clock = Ticking::new(u32::MAX, 0);
    talk.challenge(&clock)?;
    let port = talk.allocate(&clock)?.port;
    let got = send_next(talk, &clock, port, next)?;
    Ok(got.as_slice() == b"data".as_slice())
}

#[test]
fn data_right_after_the_request_that_allows_it_is_relayed(rt: HostRuntime) -> Result<(), Fail> {
    for next in NEXT {
        let mut talk = begin(&rt, 8, Commits::Paced)?;
        let right = is_relayed(&mut talk, next);
        end_right(talk, right)?;
    }
    Ok(())
}
