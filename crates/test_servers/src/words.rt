//! Words of a line.

use std::alloc::Global;
use turn_config::values::{self, number_32, port, split_once};

/// The text before the first blank, and the text after it.
pub(crate) fn first_word(line: &[u8]) -> (&[u8], &[u8]) {
    split_once(line, b' ').unwrap_or((line, b""))
}

/// Ports with a blank between.
pub(crate) fn ports_of(alloc: Global, text: &[u8]) -> Option<Vec<u16>> {
    let mut ports = Vec::new(alloc);
    for word in text.split(|byte| *byte == b' ') {
        if !word.is_empty() {
            ports.push(port(word)?).ok()?;
        }
    }
    Some(ports)
}

/// Adds bytes in hexadecimal, or so many times: `5a` or `5a*3`.
fn add_part(alloc: Global, part: &[u8], all: &mut Vec<u8>) -> Option<()> {
    let (digits, times) = match split_once(part, b'*') {
        Some((digits, times)) => (digits, number_32(times)?),
        None => (part, 1),
    };
    let bytes = values::bytes(alloc, digits).ok()??;
    for _ in 0..times {
        all.extend_from_slice(&bytes).ok()?;
    }
    Some(())
}

/// Bytes in hexadecimal: `-` for none, else parts with `+` between, each of which may be repeated, as `0102+5a*3`.
pub(crate) fn bytes_of(alloc: Global, word: &[u8]) -> Option<Vec<u8>> {
    let mut all = Vec::new(alloc);
    if word == b"-".as_slice() {
        return Some(all);
    }
    for part in word.split(|byte| *byte == b'+') {
        add_part(alloc, part, &mut all)?;
    }
    Some(all)
}

/// A line of a report, whose last word may be bytes that are repeated.
pub(crate) fn expected(alloc: Global, text: &[u8]) -> Option<Vec<u8>> {
    if !text.contains(&b'*') {
        return Vec::from_slice(alloc, text).ok();
    }
    let at = text.iter().rposition(|byte| *byte == b' ')?;
    let (front, word) = (&text[..at], &text[at + 1..]);
    let digits = hex::encode(alloc, &bytes_of(alloc, word)?).ok()?;
    let mut line = Vec::from_slice(alloc, front).ok()?;
    line.push(b' ').ok()?;
    line.extend_from_slice(digits.as_bytes()).ok()?;
    Some(line)
}
