//! A pair of ports over sockets of 127.0.0.1: the reserved one has a socket also after the server was opened again, and who names the
//! token gets it.

use super::conversations::{Talk, begin, reopen};
use super::talks::{end_right, go_on};
use std::fs;
use std::net::UdpSocket;
use std::test::Fail;
use turn_requests::{Attribute, ServerMessage, read_message};
use turn_types::{Method, Token};

/// An Allocate with an attribute: the relayed port, and the token if there is one.
fn allocate(
    rt: &HostRuntime,
    talk: &mut Talk<'_>,
    attribute: Attribute,
) -> Result<(u16, Option<Token>), Fail> {
    let request = talk.client().request(Method::ALLOCATE, &[attribute])?;
    talk.client().send(&request)?;
    talk.turn(rt)?;
    match read_message(&talk.client().receive_message()?) {
        Some(ServerMessage::Allocated { port, token, .. }) => Ok((port, token)),
        _ => Err(Fail::new("no allocation")),
    }
}

/// A pair: the even port, and the token of the next one.
fn reserve(rt: &HostRuntime, talk: &mut Talk<'_>) -> Result<(u16, Token), Fail> {
    talk.challenge(rt)?;
    let (port, token) = allocate(rt, talk, Attribute::EvenPort { reserves: true })?;
    Ok((port, token.ok_or("a token")?))
}

/// Whether a port of 127.0.0.1 is in use.
fn is_bound(rt: &HostRuntime, port: u16) -> Result<bool, Fail> {
    let address = format!(in rt.alloc(); "127.0.0.1:{port}")?;
    Ok(UdpSocket::bind(rt, address.as_str()).is_err())
}

/// Deletes the allocation. Whether its reservation stays.
fn stays(rt: &HostRuntime, talk: &mut Talk<'_>, port: u16) -> Result<bool, Fail> {
    let next = port.wrapping_add(1);
    let was_bound = is_bound(rt, next)?;
    talk.refresh(rt, 0)?;
    Ok(was_bound && is_bound(rt, next)? && !is_bound(rt, port)?)
}

/// Whether the token gets the reserved port, over which data goes to the peer.
fn is_taken(rt: &HostRuntime, talk: &mut Talk<'_>, next: u16, token: Token) -> Result<bool, Fail> {
    let got = allocate(rt, talk, Attribute::ReservationToken(token))?;
    talk.permit(rt)?;
    let bytes = talk.send(rt, next, b"hello")?;
    Ok(got == (next, None) && bytes.as_slice() == b"hello".as_slice())
}

fn expect_steps(rt: &HostRuntime, path: &str) -> Result<(), Fail> {
    let mut talk = begin(rt, path)?;
    let (port, token) = match reserve(rt, &mut talk) {
        Ok(first) => first,
        Err(fail) => {
            talk.end();
            return Err(fail);
        }
    };
    let mut talk = reopen(rt, talk, path)?;
    let right = stays(rt, &mut talk, port);
    let mut talk = reopen(rt, go_on(talk, right)?, path)?;
    let right = is_taken(rt, &mut talk, port.wrapping_add(1), token);
    end_right(talk, right)?;
    fs::remove_file(rt, path)?;
    Ok(())
}

#[test]
fn a_reserved_port_has_its_socket_after_a_restart(rt: HostRuntime) -> Result<(), Fail> {
    expect_steps(&rt, "turn_pairs.store")
}
