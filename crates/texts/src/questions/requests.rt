//! What a client writes and reads.

use crate::values::Values;
use turn_codec::Message;
use turn_mac::generate_auth_key;
use turn_requests::{Attribute, Request, ServerMessage, build_request, read_message};
use turn_types::{Method, Token, TxId};

/// A user's Allocate in the realm `example.org`, with a token.
fn allocate(values: &Values, id: &str, token: &str, user: &str, password: &str) -> Option<String> {
    let user = values.bytes(user)?;
    let request = Request {
        method: Method::ALLOCATE,
        tx: TxId(values.array(id)?),
        attributes: &[Attribute::ReservationToken(Token(values.array(token)?))],
        user: &user,
        realm: b"example.org",
    };
    let key = generate_auth_key(&user, b"example.org", &values.bytes(password)?);
    values.hex(&build_request(values.alloc, &request, &key, b"nonce").ok()?)
}

fn token_text(values: &Values, token: Option<Token>) -> Option<String> {
    match token {
        Some(token) => values.hex(&token.0),
        None => values.text("none"),
    }
}

fn said(values: &Values, bytes: &[u8]) -> Option<String> {
    let message = Message::parse(bytes).ok()?;
    match read_message(&message)? {
        ServerMessage::Allocated {
            port,
            lifetime,
            token,
        } => {
            let token = token_text(values, token)?;
            format!(in values.alloc; "port {port} lifetime {lifetime} token {token}").ok()
        }
        _ => None,
    }
}

/// What is written, or what a server's message says.
pub fn answer(values: &Values, words: &[&str]) -> Option<String> {
    match words {
        ["allocate", id, token, user, password] => allocate(values, id, token, user, password),
        ["says", bytes] => said(values, &values.bytes(bytes)?),
        _ => None,
    }
}
