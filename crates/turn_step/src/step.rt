//! What is to be done about an arrival.

ghost use Rattle.std.specs.Prelude.{◌≡◌, None, option_map, option_copied};
ghost use Rattle.turn_history.specs.Act.{act_of};
ghost use Rattle.turn_step.specs.Outcome.{change_of};
ghost use Rattle.turn_step.specs.Views.{sent_of};

use crate::arrival::Outgoing;
use std::alloc::{Allocator, Global};
use std::marker::Model;
use turn_history::Act;
use turn_types::FiveTuple;

/// What is to be done about an arrival: at most one act, and at most one datagram to be sent. It holds the port that
/// was picked for its act, so it can't be dropped: `Machine::apply` and `Machine::abandon` take it.
pub struct Step<A: Allocator = Global> {
    // In a box: relayed data has no act, and its step is moved often.
    act: Option<Box<(FiveTuple, Act<A>), A>>,
    outgoing: Option<Outgoing<A>>,
}

impl<A: Allocator> Model for Step<A> {
    ghost use Rattle.std.specs.Prelude.{option_map};
    ghost use Rattle.turn_history.specs.Act.{act_of};
    ghost use Rattle.turn_step.specs.Outcome.{StepOutcome, change_of};
    ghost use Rattle.turn_step.specs.Views.{sent_of};

    ghost Value = { StepOutcome };

    ghost view = { λ s. record {
      change = option_map (λ b. change_of b.value.0 (act_of b.value.1)) s.act;
      sent = option_map sent_of s.outgoing;
    } };
}

impl<A: Allocator> Step<A> {
    pub(crate) fn new(
        act: Option<Box<(FiveTuple, Act<A>), A>>,
        outgoing: Option<Outgoing<A>>,
    ) -> Step<A>
        ensures { result ≡ record {
          change = option_map (λ b. change_of b.value.0 (act_of b.value.1)) act;
          sent = option_map sent_of outgoing;
        } }
    {
        Step { act, outgoing }
    }

    pub(crate) fn into_parts(self) -> (Option<Box<(FiveTuple, Act<A>), A>>, Option<Outgoing<A>>)
        ensures { self ≡ record {
          change = option_map (λ b. change_of b.value.0 (act_of b.value.1)) result.0;
          sent = option_map sent_of result.1;
        } }
    {
        let Step { act, outgoing } = self;
        (act, outgoing)
    }

    /// The act, and the five-tuple to whose allocation it is done.
    pub fn act(&self) -> Option<(FiveTuple, &Act<A>)>
        ensures { option_map (λ p. change_of p.0 (act_of p.1.now)) result ≡ self.now.change }
    {
        match &self.act {
            Some(change) => Some((change.0, &change.1)),
            None => None,
        }
    }

    /// The datagram that is sent once the act is done.
    pub fn outgoing(&self) -> Option<&Outgoing<A>>
        ensures { option_map sent_of (option_copied result) ≡ self.now.sent }
    {
        self.outgoing.as_ref()
    }
}
