//! What lines of records and stores set: bytes with a name, a version and limits.

use crate::words::{bytes, number_16, number_32, place, word};
use std::alloc::Global;
use turn_record::Version;
use turn_types::{Bounds, Limits};

#[derive(Drop)]
struct Named {
    name: Vec<u8>,
    bytes: Vec<u8>,
}

/// What the lines of a text have set so far.
#[derive(Drop)]
pub struct Scene {
    pub alloc: Global,
    pub version: Version,
    pub limits: Limits,
    names: Vec<Named>,
}

/// The limits that five numbers are: allocations, permissions, channels, acts of a frame, bytes of a name.
fn limits_of(text: &[u8]) -> Option<Limits> {
    let (allocations, rest) = number_32(text)?;
    let (permissions, rest) = number_16(rest)?;
    let (channels, rest) = number_16(rest)?;
    let (acts, rest) = number_16(rest)?;
    let (name_bytes, _) = number_16(rest)?;
    Limits::new(Bounds {
        allocations,
        permissions,
        channels,
        acts,
        name_bytes,
    })
}

fn version_of(text: &[u8]) -> Option<Version> {
    match text {
        b"1" => Some(Version::V1),
        b"2" => Some(Version::V2),
        _ => None,
    }
}

/// How often a word is repeated, as in `12*00`, and the word.
fn repeated(text: &[u8]) -> Option<(usize, &[u8])> {
    match text.iter().position(|byte| *byte == b'*') {
        Some(at) => Some((place(&text[..at])?.0, &text[at + 1..])),
        None => Some((1, text)),
    }
}

/// Adds a part so many times.
fn put_repeated(out: &mut Vec<u8>, part: &[u8], count: usize) -> Option<()> {
    if let [byte] = part {
        return out.resize(out.len().checked_add(count)?, *byte).ok();
    }
    for _ in 0..count {
        out.extend_from_slice(part).ok()?;
    }
    Some(())
}

/// A number of 16 bits in hexadecimal after a `+`, raised by a count.
fn raised(alloc: Global, text: &[u8], count: u16) -> Option<[u8; 2]> {
    match text {
        [b'+', digits @ ..] => match bytes(alloc, digits)?.as_slice() {
            [high, low] => Some(
                u16::from_be_bytes([*high, *low])
                    .wrapping_add(count)
                    .to_be_bytes(),
            ),
            _ => None,
        },
        _ => None,
    }
}

impl Scene {
    /// Of a text that has not begun.
    pub fn new(alloc: Global) -> Scene {
        Scene {
            alloc,
            version: Version::V1,
            limits: Limits::MAX,
            names: Vec::new(alloc),
        }
    }

    fn named(&self, name: &[u8]) -> Option<&[u8]> {
        for named in &self.names {
            if named.name.as_slice() == name {
                return Some(&named.bytes);
            }
        }
        None
    }

    fn put_word(&self, out: &mut Vec<u8>, text: &[u8]) -> Option<()> {
        let (count, text) = repeated(text)?;
        let part = match self.named(text) {
            Some(named) => Vec::from_slice(self.alloc, named).ok()?,
            None => bytes(self.alloc, text)?,
        };
        put_repeated(out, &part, count)
    }

    /// The bytes of words, one after the other.
    pub fn bytes(&self, words: &[u8]) -> Option<Vec<u8>> {
        let mut out = Vec::new(self.alloc);
        for text in words.split(|byte| *byte == b' ') {
            self.put_word(&mut out, text)?;
        }
        Some(out)
    }

    fn put_counted(&self, out: &mut Vec<u8>, words: &[u8], count: u16) -> Option<()> {
        for text in words.split(|byte| *byte == b' ') {
            match raised(self.alloc, text, count) {
                Some(number) => out.extend_from_slice(&number).ok()?,
                None => self.put_word(out, text)?,
            }
        }
        Some(())
    }

    fn counted(&self, text: &[u8]) -> Option<Vec<u8>> {
        let (count, words) = number_16(text)?;
        let mut out = Vec::new(self.alloc);
        for i in 0..count {
            self.put_counted(&mut out, words, i)?;
        }
        Some(out)
    }

    /// Gives bytes a name, in place of others that had it.
    pub fn keep(&mut self, name: &[u8], bytes: Vec<u8>) -> Option<()> {
        let name = Vec::from_slice(self.alloc, name).ok()?;
        self.names.retain(|named| named.name != name);
        self.names.push(Named { name, bytes }).ok()
    }

    /// Does a line that sets something. Nothing, if it is another line or can't be read.
    pub fn set(&mut self, name: &[u8], text: &[u8]) -> Option<()> {
        match name {
            b"version" => self.version = version_of(text)?,
            b"limits" => self.limits = limits_of(text)?,
            b"bytes" => {
                let (name, words) = word(text);
                let bytes = self.bytes(words)?;
                self.keep(name, bytes)?;
            }
            b"counted" => {
                let (name, words) = word(text);
                let bytes = self.counted(words)?;
                self.keep(name, bytes)?;
            }
            _ => return None,
        }
        Some(())
    }

    /// The bytes with those of a word in place of the ones from a place up to another, and what follows in the text:
    /// `FROM TO WORD ..`.
    pub fn replaced<'a>(&self, bytes: &[u8], text: &'a [u8]) -> Option<(Vec<u8>, &'a [u8])> {
        let (from, rest) = place(text)?;
        let (to, rest) = place(rest)?;
        let (part, rest) = word(rest);
        let mut all = Vec::from_slice(self.alloc, bytes.get(..from)?).ok()?;
        self.put_word(&mut all, part)?;
        all.extend_from_slice(bytes.get(to..)?).ok()?;
        Some((all, rest))
    }
}

/// What is before and after the word `is`.
pub fn halves(text: &[u8]) -> Option<(&[u8], &[u8])> {
    let at = text.windows(4).position(|part| part == b" is ".as_slice())?;
    let (before, after) = text.split_at(at);
    Some((before, after.get(4..)?))
}
