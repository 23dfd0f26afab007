//! The report of what a server does.

use std::alloc::{AllocError, Allocator};
use turn_player::Effect;
use turn_scenario::event_text;
use turn_step::Outgoing;

/// A line, with the bytes of the datagram that it shows, or none.
#[derive(Drop)]
struct Reported<A: Allocator> {
    text: String<A>,
    bytes: Vec<u8, A>,
}

/// Lines, the first of which were compared.
#[derive(Drop)]
pub(crate) struct Report<A: Allocator + Copy> {
    alloc: A,
    lines: Vec<Reported<A>, A>,
    compared: usize,
}

impl<A: Allocator + Copy> Report<A> {
    pub(crate) fn new(alloc: A) -> Report<A> {
        Report {
            alloc,
            lines: Vec::new(alloc),
            compared: 0,
        }
    }

    pub(crate) fn push(&mut self, text: String<A>) -> Result<(), AllocError> {
        let bytes = Vec::new(self.alloc);
        self.lines.push(Reported { text, bytes })?;
        Ok(())
    }

    /// Adds what came of a step.
    pub(crate) fn add(&mut self, effect: Effect<A>) -> Result<(), AllocError> {
        let text = event_text(self.alloc, &effect)?;
        let bytes = match effect {
            Effect::Sent(Outgoing::ToClient { bytes, .. } | Outgoing::ToPeer { bytes, .. }) =>
                bytes,
            _ => Vec::new(self.alloc),
        };
        self.lines.push(Reported { text, bytes })?;
        Ok(())
    }

    /// Whether the next line that was not compared is this text.
    pub(crate) fn compare(&mut self, text: &[u8]) -> bool {
        match self.lines.get(self.compared) {
            Some(line) if line.text.as_bytes() == text => {
                self.compared = self.compared.wrapping_add(1);
                true
            }
            _ => false,
        }
    }

    /// The next line that was not compared, if there is one.
    pub(crate) fn next(&self) -> Option<&str> {
        match self.lines.get(self.compared) {
            Some(line) => Some(line.text.as_str()),
            None => None,
        }
    }

    /// The bytes of the datagram of the line that was compared last.
    pub(crate) fn last_bytes(&self) -> Option<&[u8]> {
        match self.lines.get(self.compared.wrapping_sub(1)) {
            Some(line) => Some(line.bytes.as_slice()),
            None => None,
        }
    }

    /// Whether the datagram of the line that was compared last has these bytes.
    pub(crate) fn has_bytes(&self, bytes: &[u8]) -> bool {
        match self.last_bytes() {
            Some(last) => last == bytes,
            None => false,
        }
    }

    /// Whether each line was compared.
    pub(crate) fn is_compared(&self) -> bool {
        self.lines.len() == self.compared
    }
}
