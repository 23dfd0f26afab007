//! Words of a line.

use percent_encoding::percent_decode;
use std::alloc::Global;

/// The text before the first space, and the text after it.
pub fn word(text: &str) -> (&str, &str) {
    text.split_once(' ').unwrap_or((text, ""))
}

/// A text in which `%` with two hex digits is a byte.
pub fn decoded(alloc: Global, text: &str) -> Option<String> {
    let mut bytes = Vec::new(alloc);
    percent_decode(text.as_bytes()).append_to(&mut bytes).ok()?;
    String::from_utf8(bytes).ok()
}

/// The program's name and the words of a line, with a space between each two: `''` is an empty word.
pub fn arguments(alloc: Global, line: &str) -> Option<Vec<String>> {
    let mut words = Vec::new(alloc);
    words.push(decoded(alloc, "turn")?).ok()?;
    if !line.is_empty() {
        for word in line.split(' ') {
            let word = if word == "''" { "" } else { word };
            words.push(decoded(alloc, word)?).ok()?;
        }
    }
    Some(words)
}
