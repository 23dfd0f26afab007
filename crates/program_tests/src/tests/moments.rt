//! The moment of a turn, by a system whose time stands still.

use super::clocks::Still;
use super::talks::{HOME, Talk, begin, end_right, tell};
use std::test::Fail;
use turn_client::ClientError;
use turn_serving::{Commits, TurnError};
use turn_sockets::moment_now;
use turn_types::Moment;

/// The system's second, the server's clock, and the moment.
const MOMENTS: [(Option<u64>, u64, Option<u64>); 7] = [
    (Some(1_000), 5, Some(1_000)),
    (Some(5), 5, Some(5)),
    (Some(3), 5, Some(5)),
    (Some(0), 0, Some(0)),
    (Some(1_099_511_624_175), 5, Some(1_099_511_624_175)),
    (Some(1_099_511_624_176), 5, Some(5)),
    (None, 5, None),
];

fn seconds_at(system: Option<u64>, clock: u64) -> Option<u64> {
    let moment = moment_now(&&Still(system), Moment::new(clock)?)?;
    Some(moment.seconds())
}

#[test]
fn the_moment_is_the_systems_second_or_the_clock(_rt: HostRuntime) -> Result<(), Fail> {
    for (system, clock, moment) in &MOMENTS {
        if seconds_at(*system, *clock) != *moment {
            return Err(Fail::new(*clock));
        }
    }
    Ok(())
}

/// The system's second when a peer sends data, and the transaction id of the Data indication: the moment in eight bytes, and how
/// many datagrams of peers came before in four.
const DATA: [(u64, Option<&[u8; 12]>); 4] = [
    (
        1_000,
        Some(b"\x00\x00\x00\x00\x00\x00\x03\xe8\x00\x00\x00\x00"),
    ),
    (
        1_299,
        Some(b"\x00\x00\x00\x00\x00\x00\x05\x13\x00\x00\x00\x01"),
    ),
    // The permission has expired, also where the system's time goes back.
    (1_300, None),
    (1_200, None),
];

/// Permitted again at the server's clock, 1,300, by a system whose second is 1,200.
const LATER: &[u8; 12] = b"\x00\x00\x00\x00\x00\x00\x05\x14\x00\x00\x00\x04";

/// A peer sends a datagram, which a turn at a second takes. Returns whether the client gets it under this id, or nothing.
fn is_indicated(
    rt: &HostRuntime,
    talk: &mut Talk<'_>,
    port: u16,
    second: u64,
    id: Option<&[u8; 12]>,
) -> Result<bool, Fail> {
    tell(rt, HOME, port, 3, 1)?;
    talk.turn(&Still(Some(second)))?;
    match (talk.client().receive(), id) {
        (Ok(bytes), Some(id)) => Ok(
            bytes.get(..2) == Some(b"\x00\x17".as_slice())
                && bytes.get(8..20) == Some(id.as_slice()),
        ),
        (Err(ClientError::Silent), None) => Ok(true),
        _ => Ok(false),
    }
}

/// An allocation with a permission for its peer from second 1,000 on. Returns the relayed port.
fn allocate(talk: &mut Talk<'_>) -> Result<u16, ClientError> {
    let system = Still(Some(1_000));
    talk.challenge(&system)?;
    let port = talk.allocate(&system)?.port;
    talk.permit(&system)?;
    Ok(port)
}

fn relay(rt: &HostRuntime, talk: &mut Talk<'_>) -> Result<bool, Fail> {
    let port = allocate(talk)?;
    for (second, id) in &DATA {
        if !is_indicated(rt, talk, port, *second, *id)? {
            return Ok(false);
        }
    }
    talk.permit(&Still(Some(1_200)))?;
    let is_later = is_indicated(rt, talk, port, 1_200, Some(LATER))?;
    Ok(is_later && talk.turn(&Still(None)) == Err(ClientError::Turn(TurnError::Clock)))
}

#[test]
fn a_turn_is_at_the_systems_second_or_the_clock(rt: HostRuntime) -> Result<(), Fail> {
    let mut talk = begin(&rt, 1, Commits::EachTurn)?;
    let right = relay(&rt, &mut talk);
    end_right(talk, right)
}
