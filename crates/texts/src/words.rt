//! Words of a line.

use std::alloc::Global;

/// The text before the first space, and the text after it.
pub fn word(text: &[u8]) -> (&[u8], &[u8]) {
    match text.iter().position(|byte| *byte == b' ') {
        Some(at) => (&text[..at], &text[at + 1..]),
        None => (text, b""),
    }
}

/// A decimal number.
pub fn number(text: &[u8]) -> Option<u64> {
    let text = str::from_utf8(text).ok()?;
    u64::from_str_radix(text, 10).ok()
}

/// The next word, a decimal number of 16 bits, and what follows it.
pub fn number_16(text: &[u8]) -> Option<(u16, &[u8])> {
    let (first, rest) = word(text);
    let value = u16::try_from(number(first)?).ok()?;
    Some((value, rest))
}

/// The next word, a decimal number of 32 bits, and what follows it.
pub fn number_32(text: &[u8]) -> Option<(u32, &[u8])> {
    let (first, rest) = word(text);
    let value = u32::try_from(number(first)?).ok()?;
    Some((value, rest))
}

/// The next word, a place or a count, and what follows it.
pub fn place(text: &[u8]) -> Option<(usize, &[u8])> {
    let (first, rest) = word(text);
    let value = usize::try_from(number(first)?).ok()?;
    Some((value, rest))
}

/// Bytes in hexadecimal, or `-` for none.
pub fn bytes(alloc: Global, text: &[u8]) -> Option<Vec<u8>> {
    if text == "-".as_bytes() {
        return Some(Vec::new(alloc));
    }
    hex::decode(alloc, text).ok()
}
