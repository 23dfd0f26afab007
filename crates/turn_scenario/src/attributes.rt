//! The attributes of an `ask` line.

ghost use Rattle.std.specs.Prelude.{◌≡◌};
ghost use Rattle.turn_scenario.specs.Tokens.{last};

use std::alloc::{AllocError, Allocator};
use turn_config::values::{endpoint, number_32, octet, split_once};
use turn_requests::Attribute;
use turn_types::Token;

/// A channel number: four hex digits.
fn channel_number(text: &[u8]) -> Option<u16> {
    let mut bytes = [0u8; 2];
    hex::decode_to_slice(text, &mut bytes).ok()?;
    Some(u16::from_be_bytes(bytes))
}

fn transport(text: &[u8]) -> Option<Attribute> {
    match text {
        b"none" => Some(Attribute::NoTransport),
        _ => Some(Attribute::Transport(octet(text)?)),
    }
}

/// A token: sixteen hex digits, or `last` for the last one that was reported, if there is one.
fn token(text: &[u8], reported: Option<Token>) -> Option<Token>
    ensures { text.now ≡ last → result ≡ reported }
{
    match text {
        b"last" => reported,
        _ => {
            let mut bytes = [0u8; 8];
            hex::decode_to_slice(text, &mut bytes).ok()?;
            Some(Token(bytes))
        }
    }
}

fn attribute(word: &[u8], reported: Option<Token>) -> Option<Attribute> {
    match word {
        b"even" => return Some(Attribute::EvenPort { reserves: false }),
        b"even+" => return Some(Attribute::EvenPort { reserves: true }),
        b"df" => return Some(Attribute::DontFragment),
        _ => {}
    }
    let (name, value) = split_once(word, b'=')?;
    match name {
        b"life" => Some(Attribute::Lifetime(number_32(value)?)),
        b"peer" => Some(Attribute::Peer(endpoint(value)?)),
        b"chan" => Some(Attribute::Channel(channel_number(value)?)),
        b"transport" => transport(value),
        b"token" => Some(Attribute::ReservationToken(token(value, reported)?)),
        _ => None,
    }
}

/// The attributes that words with a blank between name, or `None` if a word is no attribute. The last token that was reported
/// is passed.
pub(crate) fn attributes<A: Allocator>(
    alloc: A,
    words: &[u8],
    reported: Option<Token>,
) -> Result<Option<Vec<Attribute, A>>, AllocError> {
    let mut found = Vec::new(alloc);
    for word in words.split(|byte| *byte == b' ') {
        let Some(attribute) = attribute(word, reported) else {
            return Ok(None);
        };
        found.push(attribute)?;
    }
    Ok(Some(found))
}
