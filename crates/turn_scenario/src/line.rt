//! The lines after `format` or `format1`.

use crate::attributes::attributes;
use std::alloc::{AllocError, Allocator};
use turn_config::values::{endpoint, moment, ordinal, port, split_once};
use turn_disk::CrashOutcome;
use turn_requests::Attribute;
use turn_types::{Endpoint, Method, Moment, Token, TxId};

/// What an `ask` line says.
#[derive(Clone, Copy)]
pub struct Ask<'a> {
    /// The client's address.
    pub client: Endpoint,
    /// The user's name.
    pub user: &'a [u8],
    /// The transaction id.
    pub tx: TxId,
    /// What is asked for.
    pub method: Method,
    /// The attributes' words, if there are any.
    pub attributes: Option<&'a [u8]>,
}

impl Ask<'_> {
    /// The attributes, or `None` if a word is no attribute. The last token that was reported is passed.
    pub fn read_attributes<A: Allocator>(
        &self,
        alloc: A,
        reported: Option<Token>,
    ) -> Result<Option<Vec<Attribute, A>>, AllocError> {
        match self.attributes {
            Some(words) => attributes(alloc, words, reported),
            None => Ok(Some(Vec::new(alloc))),
        }
    }
}

/// A datagram of a peer, at a relayed port.
#[derive(Clone, Copy)]
pub struct PeerLine<'a> {
    /// The relayed port.
    pub port: u16,
    /// The peer's address.
    pub from: Endpoint,
    /// The datagram.
    pub hex: &'a [u8],
}

/// A line after `format` or `format1`. What is written in hex is still text.
#[derive(Clone, Copy)]
pub enum Line<'a> {
    /// The moment of the lines after it.
    At(Moment),
    /// The moment of the nonces of the requests after it.
    Nonce(Moment),
    /// A datagram of a client.
    Raw(Endpoint, &'a [u8]),
    /// A request of a client.
    Ask(Ask<'a>),
    /// A Send indication: the client, the peer and the data.
    Send(Endpoint, Endpoint, &'a [u8]),
    /// A datagram of a peer.
    Peer(PeerLine<'a>),
    /// A commit.
    Commit,
    /// The device call of this number fails.
    Fail(u64),
    /// The device call of this number fails, and so does each later one.
    Stop(u64),
    /// A crash of the disk.
    Crash(CrashOutcome),
    /// Another opening.
    Reopen,
    /// The table is reported.
    Table,
    /// The next line of the report.
    Expect(&'a [u8]),
}

fn outcome(text: &[u8]) -> Option<CrashOutcome> {
    match text {
        b"lost" => return Some(CrashOutcome::Lost),
        b"kept" => return Some(CrashOutcome::Kept),
        b"half" => return Some(CrashOutcome::Half),
        _ => {}
    }
    let (b"fill", digits) = split_once(text, b' ')? else {
        return None;
    };
    let mut byte = [0u8];
    hex::decode_to_slice(digits, &mut byte).ok()?;
    Some(CrashOutcome::Fill(byte[0]))
}

fn method(word: &[u8]) -> Option<Method> {
    match word {
        b"allocate" => Some(Method::ALLOCATE),
        b"refresh" => Some(Method::REFRESH),
        b"permit" => Some(Method::CREATE_PERMISSION),
        b"bind" => Some(Method::CHANNEL_BIND),
        _ => None,
    }
}

fn transaction(text: &[u8]) -> Option<TxId> {
    let mut tx = [0u8; 12];
    hex::decode_to_slice(text, &mut tx).ok()?;
    Some(TxId(tx))
}

fn ask_line(text: &[u8]) -> Option<Line<'_>> {
    let (client, rest) = split_once(text, b' ')?;
    let (user, rest) = split_once(rest, b' ')?;
    let (tx, rest) = split_once(rest, b' ')?;
    let (word, attributes) = match split_once(rest, b' ') {
        Some((word, attributes)) => (word, Some(attributes)),
        None => (rest, None),
    };
    Some(Line::Ask(Ask {
        client: endpoint(client)?,
        user,
        tx: transaction(tx)?,
        method: method(word)?,
        attributes,
    }))
}

fn raw_line(text: &[u8]) -> Option<Line<'_>> {
    let (client, hex) = split_once(text, b' ')?;
    Some(Line::Raw(endpoint(client)?, hex))
}

fn send_line(text: &[u8]) -> Option<Line<'_>> {
    let (client, rest) = split_once(text, b' ')?;
    let (peer, hex) = split_once(rest, b' ')?;
    Some(Line::Send(endpoint(client)?, endpoint(peer)?, hex))
}

fn peer_line(text: &[u8]) -> Option<Line<'_>> {
    let (relayed, rest) = split_once(text, b' ')?;
    let (from, hex) = split_once(rest, b' ')?;
    Some(Line::Peer(PeerLine {
        port: port(relayed)?,
        from: endpoint(from)?,
        hex,
    }))
}

/// A line, by its word and what is after the blank.
fn with_values<'a>(word: &[u8], text: &'a [u8]) -> Option<Line<'a>> {
    match word {
        b"at" => Some(Line::At(moment(text)?)),
        b"nonce" => Some(Line::Nonce(moment(text)?)),
        b"raw" => raw_line(text),
        b"ask" => ask_line(text),
        b"send" => send_line(text),
        b"peer" => peer_line(text),
        b"fail" => Some(Line::Fail(ordinal(text)?)),
        b"stop" => Some(Line::Stop(ordinal(text)?)),
        b"crash" => Some(Line::Crash(outcome(text)?)),
        b"expect" => Some(Line::Expect(text)),
        _ => None,
    }
}

/// What a line says, if it is well-formed.
pub fn read_line(text: &[u8]) -> Option<Line<'_>> {
    match text {
        b"commit" => Some(Line::Commit),
        b"reopen" => Some(Line::Reopen),
        b"table" => Some(Line::Table),
        _ => {
            let (word, rest) = split_once(text, b' ')?;
            with_values(word, rest)
        }
    }
}
