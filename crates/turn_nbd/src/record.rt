//! What passed over a stream, which clauses alone read.

ghost use Rattle.std.specs.Prelude.{◌≡◌, ◌++◌, []};
ghost use Rattle.turn_nbd.specs.Wire.{passing};

use std::marker::Model;
use turn_ghost::{Ghost, Shows};

/// No byte. In a `Ghost` it stands for any number of them.
#[derive(Drop)]
struct Passed;

impl Model for Passed {
    ghost use Rattle.std.specs.Prelude.{[], List, Bool, ℕ};

    ghost Value = { List (Bool × ℕ) };

    ghost view = { λ _. [] };
}

impl Shows<Passed> for Passed {
    ghost shown = { λ none. none };
}

/// Bytes, and what passed before them.
#[derive(Drop)]
struct Noted<'a> {
    before: &'a Ghost<Passed>,
    is_sent: bool,
    bytes: &'a [u8],
}

impl Shows<Passed> for Noted<'_> {
    ghost shown = { λ noted. noted.before.now ++ passing noted.is_sent noted.bytes.now };
}

/// Each byte that was sent or received so far, in order. It takes no memory: it exists in proofs alone.
#[derive(Drop)]
pub struct WireRecord {
    /// In order; whether it was sent, and the byte.
    passed: Ghost<Passed>,
}

impl WireRecord {
    /// Of a stream over which nothing has passed.
    pub fn new() -> WireRecord
        ensures { result.passed ≡ [] }
    {
        WireRecord {
            passed: Ghost::of(&Passed),
        }
    }

    /// Notes bytes: whether they were sent, and which.
    pub(crate) fn note(&mut self, is_sent: bool, bytes: &[u8])
        ensures { self.new.passed ≡ self.old.passed ++ passing is_sent bytes.now }
    {
        self.passed = Ghost::of(&Noted {
            before: &self.passed,
            is_sent,
            bytes,
        });
    }
}
