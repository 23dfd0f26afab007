//! A server whose bytes are all known before: it sends them, and keeps what it is sent.

use std::cell::Cell;
use turn_nbd::{NbdError, Stream};

/// How many bytes a server keeps of what it is sent.
pub const KEPT: usize = 512;

/// How often a wait is asked whether there is something to read before it is over.
pub const BOUND: u32 = 100;

/// A server that sends these bytes, at most so many at once, and then closes the connection.
#[derive(Drop)]
pub struct Script<'t> {
    pub answers: &'t [u8],
    pub at_once: usize,
    pub sent: &'t Cell<[u8; KEPT]>,
    pub count: &'t Cell<usize>,
    /// How often nothing is there yet before the reply to a request.
    pub delay: u32,
    /// How often nothing was there yet since the present request began.
    pub asked: u32,
    /// How many of all these asked for a pause.
    pub pauses: &'t Cell<u32>,
}

impl Stream for Script<'_> {
    fn begin(&mut self) {
        self.asked = 0;
    }

    fn try_read(&mut self, buffer: &mut [u8], pause: bool) -> Result<usize, NbdError> {
        if self.delay <= self.asked {
            return self.read(buffer);
        }
        if BOUND <= self.asked {
            return Err(NbdError::Late);
        }
        self.asked += 1;
        if pause {
            self.pauses.set(self.pauses.get().saturating_add(1));
        }
        Ok(0)
    }

    fn read(&mut self, buffer: &mut [u8]) -> Result<usize, NbdError> {
        let count = buffer.len().min(self.answers.len()).min(self.at_once);
        if count == 0 {
            return Err(NbdError::Closed);
        }
        buffer[..count].copy_from_slice(&self.answers[..count]);
        self.answers = &self.answers[count..];
        Ok(count)
    }

    fn write(&mut self, bytes: &[u8]) -> Result<usize, NbdError> {
        let at = self.count.get();
        let mut sent = self.sent.get();
        if KEPT <= at {
            return Err(NbdError::Closed);
        }
        let count = bytes.len().min(KEPT - at).min(self.at_once);
        if count == 0 {
            return Err(NbdError::Closed);
        }
        sent[at..at + count].copy_from_slice(&bytes[..count]);
        self.sent.set(sent);
        self.count.set(at + count);
        Ok(count)
    }
}
