//! What a run of the program comes to.

ghost use Rattle.std.specs.Prelude.{◌≡◌, ◌↔◌, IsTrue};

use crate::clock::At;
use std::alloc::Global;
use test_files::ProcInFolder;
use turn_program::{Release, run_words};

/// What the program says it is made from.
const RELEASE: Release<'static> = Release {
    version: "1.2.3",
    sources: "00ff",
    toolchain: "a toolchain",
};

/// The exit status, and what is written to standard output, to standard error and to the log.
#[derive(Drop)]
pub struct Outcome {
    status: u8,
    out: Vec<u8>,
    err: Vec<u8>,
    log: Vec<u8>,
}

fn add_line(bytes: &mut Vec<u8>, line: &str) -> Option<()> {
    bytes.extend_from_slice(line.as_bytes()).ok()?;
    bytes.push(b'\n').ok()
}

fn show_lines(rt: &HostRuntime, stream: &str, bytes: &[u8]) -> Option<()> {
    for line in str::from_utf8(bytes).ok()?.lines() {
        println!(rt; "{stream} {line}").ok()?;
    }
    Some(())
}

impl Outcome {
    /// Nothing is written.
    pub fn silent(alloc: Global, status: u8) -> Outcome {
        Outcome {
            status,
            out: Vec::new(alloc),
            err: Vec::new(alloc),
            log: Vec::new(alloc),
        }
    }

    /// A line more is written.
    pub fn add(&mut self, stream: &str, line: &str) -> Option<()> {
        match stream {
            "out" => add_line(&mut self.out, line),
            "err" => add_line(&mut self.err, line),
            _ => add_line(&mut self.log, line),
        }
    }

    /// Runs the program on words, its name first, at a second.
    pub fn of(rt: &HostRuntime, second: u64, words: &[String]) -> Outcome {
        let (mut out, mut err) = (Vec::new(rt.alloc()), Vec::new(rt.alloc()));
        let mut log = Vec::new(rt.alloc());
        let (system, at) = (ProcInFolder(rt), At(second));
        let status = run_words(&system, &at, RELEASE, words, &mut out, &mut err, &mut log);
        Outcome {
            status,
            out,
            err,
            log,
        }
    }

    /// Whether all is as in another.
    pub fn is(&self, other: &Outcome) -> bool
        ensures { IsTrue result ↔ ((self.now.status ≡ other.now.status) × (self.now.out.items ≡ other.now.out.items)
            × (self.now.err.items ≡ other.now.err.items) × (self.now.log.items ≡ other.now.log.items)) }
    {
        self.status == other.status
            && self.out.as_slice() == other.out.as_slice()
            && self.err.as_slice() == other.err.as_slice()
            && self.log.as_slice() == other.log.as_slice()
    }

    /// Prints it, as the lines of a text have it.
    pub fn show(&self, rt: &HostRuntime) -> Option<()> {
        println!(rt; "expect {}", self.status).ok()?;
        show_lines(rt, "out", &self.out)?;
        show_lines(rt, "err", &self.err)?;
        show_lines(rt, "log", &self.log)
    }
}
