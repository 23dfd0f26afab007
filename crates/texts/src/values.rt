//! Values as texts encode them.

use std::alloc::Global;
use std::collections::BTreeMap;
use std::net::SocketAddrV4;
use turn_types::{Endpoint, Moment};

/// The values that a text has given names.
#[derive(Drop)]
pub struct Values {
    /// What holds them.
    pub alloc: Global,
    named: BTreeMap<Vec<u8>, Vec<u8>>,
}

fn repeated(alloc: Global, part: &str, count: &str) -> Option<Vec<u8>> {
    let part = hex::decode(alloc, part).ok()?;
    let mut all = Vec::new(alloc);
    for _ in 0..count.parse::<u32>().ok()? {
        all.extend_from_slice(&part).ok()?;
    }
    Some(all)
}

impl Values {
    /// No names.
    pub fn new(alloc: Global) -> Values {
        Values {
            alloc,
            named: BTreeMap::new(alloc),
        }
    }

    /// Gives the bytes that a word encodes a name.
    pub fn name(&mut self, name: &str, word: &str) -> Option<()> {
        let value = self.bytes(word)?;
        let name = Vec::from_slice(self.alloc, name.as_bytes()).ok()?;
        self.named.insert(name, value).ok()?;
        Some(())
    }

    /// Bytes: `HEX`, `HEX*COUNT` if they are repeated, text in quotation marks, `-` if there are none, or `$NAME`.
    pub fn bytes(&self, word: &str) -> Option<Vec<u8>> {
        if word == "-" {
            return Some(Vec::new(self.alloc));
        }
        if let Some(name) = word.strip_prefix('$') {
            return Vec::from_slice(self.alloc, self.named.get(name.as_bytes())?).ok();
        }
        if let Some(text) = word.strip_prefix('"') {
            return Vec::from_slice(self.alloc, text.strip_suffix('"')?.as_bytes()).ok();
        }
        match word.split_once('*') {
            Some((part, count)) => repeated(self.alloc, part, count),
            None => hex::decode(self.alloc, word).ok(),
        }
    }

    /// So many bytes.
    pub fn array<const SIZE: usize>(&self, word: &str) -> Option<[u8; SIZE]> {
        self.bytes(word)?.as_slice().try_into().ok()
    }

    /// A number of 16 bits, in hexadecimal.
    pub fn number(&self, word: &str) -> Option<u16> {
        Some(u16::from_be_bytes(self.array(word)?))
    }

    /// The words of a line, with single blanks between them.
    pub fn words<'a>(&self, line: &'a str) -> Option<Vec<&'a str>> {
        let mut words = Vec::new(self.alloc);
        for word in line.split(' ') {
            words.push(word).ok()?;
        }
        Some(words)
    }

    /// Bytes in hexadecimal.
    pub fn hex(&self, bytes: &[u8]) -> Option<String> {
        hex::encode(self.alloc, bytes).ok()
    }

    /// A text as an answer.
    pub fn text(&self, text: &str) -> Option<String> {
        String::from_str(self.alloc, text).ok()
    }

    /// Yes or no.
    pub fn truth(&self, holds: bool) -> Option<String> {
        self.text(if holds { "yes" } else { "no" })
    }
}

/// An IPv4 address and a port.
pub fn endpoint(word: &str) -> Option<Endpoint> {
    let address = word.parse::<SocketAddrV4>().ok()?;
    Some(Endpoint {
        ip: u32::from(*address.ip()),
        port: address.port(),
    })
}

/// A moment, in seconds.
pub fn moment(word: &str) -> Option<Moment> {
    Moment::new(word.parse().ok()?)
}
