//! What came of each port that was asked for, which clauses alone read.

ghost use Rattle.std.specs.Prelude.{◌≡◌, ◌++◌, ◌∷◌, []};

use crate::ports::Bound;
use std::marker::Model;
use turn_ghost::{Ghost, Shows};

/// No port. In a `Ghost` it stands for any number of ports that were asked for.
#[derive(Drop)]
struct Ports;

impl Model for Ports {
    ghost use Rattle.std.specs.Prelude.{[]};
    ghost use Rattle.turn_sockets.specs.Ports.{Asked};

    ghost Value = { Asked };

    ghost view = { λ _. [] };
}

impl Shows<Ports> for Ports {
    ghost shown = { λ none. none };
}

/// A port that was asked for and what came of it, and those before it.
#[derive(Drop)]
struct Noted<'a> {
    before: &'a Ghost<Ports>,
    port: u16,
    bound: Bound,
}

impl Shows<Ports> for Noted<'_> {
    ghost shown = { λ noted. noted.before.now ++ (noted.port, noted.bound) ∷ [] };
}

/// The ports of all searches.
#[derive(Drop)]
struct Joined<'a> {
    earlier: &'a Ghost<Ports>,
    latest: &'a Ghost<Ports>,
}

impl Shows<Ports> for Joined<'_> {
    ghost shown = { λ joined. joined.earlier.now ++ joined.latest.now };
}

/// Each port that was asked for, with what came of it, in order. It takes no memory: it exists in proofs alone.
#[derive(Drop)]
pub(crate) struct BindRecord {
    // Before the latest search began.
    earlier: Ghost<Ports>,
    // Since then.
    latest: Ghost<Ports>,
}

impl BindRecord {
    // No port was asked for.
    pub(crate) fn new() -> BindRecord {
        BindRecord {
            earlier: Ghost::of(&Ports),
            latest: Ghost::of(&Ports),
        }
    }

    // A search begins.
    pub(crate) fn begin(&mut self)
        ensures earlier { self.new.earlier ≡ self.old.earlier ++ self.old.latest }
        ensures latest { self.new.latest ≡ [] }
    {
        self.earlier = Ghost::of(&Joined {
            earlier: &self.earlier,
            latest: &self.latest,
        });
        self.latest = Ghost::of(&Ports);
    }

    // Notes what came of a port. `Binder::bind` alone does.
    pub(crate) fn note(&mut self, port: u16, bound: Bound)
        ensures earlier { self.new.earlier ≡ self.old.earlier }
        ensures latest { self.new.latest ≡ self.old.latest ++ (port, bound) ∷ [] }
    {
        self.latest = Ghost::of(&Noted {
            before: &self.latest,
            port,
            bound,
        });
    }
}
