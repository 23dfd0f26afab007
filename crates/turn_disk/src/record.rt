//! The calls on a file, or on an export of another crate, with their answers, which clauses alone read.

ghost use Rattle.std.specs.Prelude.{◌≡◌, ◌∷◌, [], List};

use std::marker::Model;
use turn_ghost::{Ghost, Shows};

/// The number of a read, by which it is noted.
pub const READ: u8 = 0;

/// The number of a write.
pub const WRITE: u8 = 1;

/// The number of a sync.
pub const SYNC: u8 = 2;

/// No call. In a `Ghost` it stands for any number of them.
#[derive(Drop)]
struct Calls;

impl Model for Calls {
    ghost use Rattle.std.specs.Prelude.{[], List};
    ghost use Rattle.turn_disk.specs.Calls.{LoggedCall};

    ghost Value = { List LoggedCall };

    ghost view = { λ _. [] };
}

impl Shows<Calls> for Calls {
    ghost shown = { λ none. none };
}

/// A call, and those before it.
#[derive(Drop)]
struct Noted<'a> {
    before: &'a Ghost<Calls>,
    call: u8,
    at: usize,
    succeeded: bool,
    bytes: &'a [u8],
}

impl Shows<Calls> for Noted<'_> {
    ghost shown = { λ noted. (noted.call, noted.at, noted.succeeded, noted.bytes.now) ∷ noted.before.now };
}

/// The calls so far, the newest first. It takes no memory: it exists in proofs alone.
#[derive(Drop)]
pub struct CallRecord {
    /// The newest first.
    events: Ghost<Calls>,
}

impl CallRecord {
    /// No call was made.
    pub fn new() -> CallRecord
        ensures { result.events ≡ [] }
    {
        CallRecord {
            events: Ghost::of(&Calls),
        }
    }

    /// Notes a call: which one, at which position, whether it succeeded, and the bytes that it read or wrote.
    pub fn note(&mut self, call: u8, at: usize, succeeded: bool, bytes: &[u8])
        ensures { self.new.events ≡ (call, at, succeeded, bytes.now) ∷ self.old.events }
    {
        self.events = Ghost::of(&Noted {
            before: &self.events,
            call,
            at,
            succeeded,
            bytes,
        });
    }
}
