//! Plays the lines of a text.

use crate::folder::Folder;
use crate::outcome::Outcome;
use crate::words::{arguments, word};
use std::net::UdpSocket;

/// What the lines of a text so far have set.
#[derive(Drop)]
pub struct Player<'a> {
    rt: &'a HostRuntime,
    folder: Folder,
    second: u64,
    held: Option<UdpSocket>,
    expected: Outcome,
    runs: u64,
}

impl<'a> Player<'a> {
    /// Of a text that has not begun.
    pub fn new(rt: &'a HostRuntime) -> Player<'a> {
        Player {
            rt,
            folder: Folder::new(rt.alloc()),
            second: 0,
            held: None,
            expected: Outcome::silent(rt.alloc(), 0),
            runs: 0,
        }
    }

    /// How many runs have held.
    pub fn runs(&self) -> u64 {
        self.runs
    }

    /// Plays a line. Returns false if it doesn't hold, or can't be read.
    pub fn play(&mut self, line: &str) -> bool {
        line.is_empty() || line.starts_with('#') || self.try_line(line).is_some()
    }

    fn try_line(&mut self, line: &str) -> Option<()> {
        let (first, rest) = word(line);
        match first {
            "run" => self.run(rest)?,
            "expect" => self.expected = Outcome::silent(self.rt.alloc(), rest.parse().ok()?),
            "out" | "err" | "log" => self.expected.add(first, rest)?,
            "at" => self.second = rest.parse().ok()?,
            "hold" => self.held = Some(UdpSocket::bind(self.rt, rest).ok()?),
            "release" => self.held = None,
            "|" => self.folder.add(self.rt, rest)?,
            _ => self.folder.play(self.rt, first, rest)?,
        }
        Some(())
    }

    /// The program comes to what is expected, and each file holds what it has to.
    fn run(&mut self, line: &str) -> Option<()> {
        let words = arguments(self.rt.alloc(), line)?;
        let outcome = Outcome::of(self.rt, self.second, &words);
        if !outcome.is(&self.expected) {
            outcome.show(self.rt)?;
            return None;
        }
        if let Some(name) = self.folder.differing(self.rt) {
            println!(self.rt; "another {name}").ok()?;
            return None;
        }
        self.runs = self.runs.wrapping_add(1);
        Some(())
    }
}
