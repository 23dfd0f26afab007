//! Datagrams as text.

use std::alloc::{AllocError, Allocator};
use turn_codec::{ChannelData, Message};
use turn_config::ShownEndpoint;
use turn_requests::{ServerMessage, read_message};
use turn_types::{Method, Token};

/// The word of a method to which a server responds.
fn method_word(method: Method) -> &'static str {
    match method.number() {
        0x001 => "binding",
        0x003 => "allocate",
        0x004 => "refresh",
        0x008 => "permit",
        _ => "bind",
    }
}

/// What the line of an Allocate success ends with.
fn reserved_text<A: Allocator + Copy>(
    alloc: A,
    token: Option<Token>,
) -> Result<String<A>, AllocError> {
    match token {
        Some(token) => {
            let token = hex::encode(alloc, &token.0)?;
            format!(in alloc; " token={token}")
        }
        None => String::from_str(alloc, ""),
    }
}

fn message_text<A: Allocator + Copy>(
    alloc: A,
    message: &Message<'_>,
    received: ServerMessage<'_>,
) -> Result<String<A>, AllocError> {
    let method = method_word(message.method());
    let tx = hex::encode(alloc, &message.tx().0)?;
    match received {
        ServerMessage::Allocated {
            port,
            lifetime,
            token,
        } => {
            let reserved = reserved_text(alloc, token)?;
            format!(in alloc; "success {method} {tx} port={port} life={lifetime}{reserved}")
        }
        ServerMessage::Refreshed(life) => format!(in alloc; "success {method} {tx} life={life}"),
        ServerMessage::Success => format!(in alloc; "success {method} {tx}"),
        ServerMessage::Error(code) => format!(in alloc; "error {method} {tx} {code}"),
        ServerMessage::Data(peer, payload) => {
            let (peer, payload) = (ShownEndpoint(peer), hex_text(alloc, payload)?);
            format!(in alloc; "data {peer} {payload}")
        }
    }
}

/// Bytes in hex, and `-` for none.
pub(crate) fn hex_text<A: Allocator>(alloc: A, bytes: &[u8]) -> Result<String<A>, AllocError> {
    if bytes.is_empty() {
        String::from_str(alloc, "-")
    } else {
        hex::encode(alloc, bytes)
    }
}

/// The token that a datagram to a client has, if it is an Allocate success with one.
pub(crate) fn token_in(bytes: &[u8]) -> Option<Token> {
    let message = Message::parse(bytes).ok()?;
    match read_message(&message)? {
        ServerMessage::Allocated { token, .. } => token,
        _ => None,
    }
}

/// What a datagram says to a client. A server sends only those that have a meaning; any other is shown in hex.
pub(crate) fn received_text<A: Allocator + Copy>(
    alloc: A,
    bytes: &[u8],
) -> Result<String<A>, AllocError> {
    if let Some(data) = ChannelData::parse(bytes) {
        let (number, payload) = (data.number, hex_text(alloc, data.payload)?);
        return format!(in alloc; "channel {number:04x} {payload}");
    }
    if let Ok(message) = Message::parse(bytes) {
        if let Some(received) = read_message(&message) {
            return message_text(alloc, &message, received);
        }
    }
    let bytes = hex_text(alloc, bytes)?;
    format!(in alloc; "datagram {bytes}")
}
