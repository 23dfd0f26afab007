//! Datagrams of clients that wait for a commit, at three addresses.
//!
//! - `room DATAGRAMS ONE BYTES`: nothing waits. So many datagrams may wait at an address, so many of one client, and so many bytes.
//! - `push CLIENT SERVER TEXT`: a datagram is taken; `full CLIENT SERVER TEXT`: it isn't.
//! - `pop CLIENT SERVER TEXT`: something waits, and this is removed. `nothing`: nothing waits.
//! - `has CLIENT SERVER`: something of these addresses waits; `lacks CLIENT SERVER`: nothing does.

use crate::interpreter::Interpreter;
use crate::values::{Values, endpoint};
use std::alloc::{AllocError, Global};
use turn_sockets::{Backlog, Room};
use turn_types::{Endpoint, FiveTuple};

/// The addresses that are listened on.
const ADDRESSES: [Endpoint; 3] = [
    Endpoint { ip: 1, port: 3478 },
    Endpoint { ip: 1, port: 443 },
    Endpoint { ip: 2, port: 3478 },
];

/// What waits at a place of a text.
#[derive(Drop)]
pub struct Backlogs {
    values: Values,
    backlog: Option<Backlog<Global>>,
}

fn five_tuple(client: &str, server: &str) -> Option<FiveTuple> {
    Some(FiveTuple {
        client: endpoint(client)?,
        server: endpoint(server)?,
    })
}

fn room(datagrams: &str, of_one: &str, bytes: &str) -> Option<Room> {
    Some(Room {
        datagrams: datagrams.parse().ok()?,
        of_one: of_one.parse().ok()?,
        bytes: bytes.parse().ok()?,
    })
}

fn pops(backlog: &mut Backlog<Global>, five_tuple: FiveTuple, bytes: &[u8]) -> bool {
    if backlog.is_empty() {
        return false;
    }
    match backlog.pop() {
        Some((found, waiting)) => found == five_tuple && waiting.as_slice() == bytes,
        None => false,
    }
}

impl Backlogs {
    /// No addresses yet.
    pub fn new(alloc: Global) -> Backlogs {
        Backlogs {
            values: Values::new(alloc),
            backlog: None,
        }
    }

    fn calls(&mut self, word: &str, five_tuple: FiveTuple, bytes: &[u8]) -> Option<bool> {
        let backlog = self.backlog.as_mut()?;
        match word {
            "push" => backlog.push(five_tuple, bytes).ok(),
            "full" => Some(!backlog.push(five_tuple, bytes).ok()?),
            "pop" => Some(pops(backlog, five_tuple, bytes)),
            "has" => Some(backlog.has(five_tuple)),
            "lacks" => Some(!backlog.has(five_tuple)),
            _ => None,
        }
    }

    fn begin(&mut self, room: Room) -> Option<bool> {
        self.backlog = Some(Backlog::new(self.values.alloc, &ADDRESSES, room).ok()?);
        Some(true)
    }

    fn plays(&mut self, line: &str) -> Option<bool> {
        if line == "nothing" {
            let backlog = self.backlog.as_mut()?;
            return Some(backlog.is_empty() && backlog.pop().is_none());
        }
        let words = self.values.words(line)?;
        match words.as_slice() {
            ["room", datagrams, of_one, bytes] => self.begin(room(datagrams, of_one, bytes)?),
            [word, client, server] => self.calls(word, five_tuple(client, server)?, b""),
            [word, client, server, text] => {
                let bytes = self.values.bytes(text)?;
                self.calls(word, five_tuple(client, server)?, &bytes)
            }
            _ => None,
        }
    }
}

impl Interpreter for Backlogs {
    fn play(&mut self, line: &[u8]) -> Result<bool, AllocError> {
        Ok(match str::from_utf8(line) {
            Ok(line) => self.plays(line) == Some(true),
            Err(_) => false,
        })
    }
}
