//! Arrivals for whose answer there was no memory.

ghost use Rattle.std.specs.Prelude.{◌≡◌};
ghost use Rattle.turn_step.specs.Views.{arrival_of};

use std::fmt;
use std::marker::Model;
use thiserror::Error;
use turn_ghost::{Ghost, Shows};
use turn_step::Arrival;

/// An arrival. In a `Ghost` it stands for any.
#[derive(Drop)]
struct AnyArrival;

impl Model for AnyArrival {
    ghost use Rattle.turn_step.specs.Outcome.{Arrives};
    ghost use Rattle.turn_step.specs.Outcome.Arrives.{FromPeer};
    ghost use Rattle.std.specs.Prelude.{[]};

    ghost Value = { Arrives };

    ghost view = { λ _. FromPeer 0 (record { ip = 0; port = 0 }) [] [] };
}

impl Shows<AnyArrival> for Arrival<'_> {
    ghost shown = { λ arrival. arrival_of arrival };
}

/// There was no memory for the answer to an arrival. Only `Beside::relay` makes one, so who drops a datagram for want of an answer has asked
/// for it.
#[derive(Drop, Error)]
#[error("out of memory")]
pub struct Unanswered {
    // The arrival.
    arrival: Ghost<AnyArrival>,
}

impl Model for Unanswered {
    ghost use Rattle.turn_step.specs.Outcome.{Arrives};

    ghost Value = { Arrives };

    ghost view = { λ unanswered. unanswered.arrival };
}

// By hand, since a ghost value isn't `Debug`.
impl fmt::Debug for Unanswered {
    fn fmt<W: fmt::Write>(&self, f: &mut fmt::Formatter<W>) -> fmt::Result {
        write!(f, "Unanswered {{ .. }}")
    }
}

impl Unanswered {
    pub(crate) fn of(arrival: &Arrival<'_>) -> Unanswered
        ensures { result ≡ arrival_of arrival.now }
    {
        Unanswered {
            arrival: Ghost::of(arrival),
        }
    }
}
