//! Laws over the definitions.

ghost use Rattle.std.specs.Prelude.{ℕ, Bool, List};
ghost use Rattle.std.specs.List.{AllByRecursion};
ghost use Rattle.turn_engine.specs.Runs.{IsRun, Taken, accepted};
ghost use Rattle.turn_history.specs.History.{History};
ghost use Rattle.turn_step.specs.Answer.{AnswersArrival, Setting};
ghost use Rattle.turn_step.specs.Outcome.{Arrives, StepOutcome, added};
ghost use Rattle.turn_types.specs.declared.address.FiveTuple.{FiveTuple};
ghost use Rattle.turn_ending.specs.Ends.{IsDeletion, IsEndOf};

/// What is accepted of Refreshes of 0 deletes allocations of their five-tuples, and does nothing else, whoever asks and whatever
/// the history is.
pub fn ends_change_nothing_else()
    ensures one { (tuples : List FiveTuple) (s : Setting) (h : History) (t : ℕ) (failed : Bool) (a : Arrives) (o : StepOutcome)
        → AnswersArrival s h t failed a o → IsEndOf tuples a → AllByRecursion (IsDeletion tuples) (added t o.change) }
    ensures run { (tuples : List FiveTuple) (s : Setting) (h : History) (t : ℕ) (taken : List Taken)
        → IsRun s h t taken → AllByRecursion (λ x. IsEndOf tuples x.arrival) taken → AllByRecursion (IsDeletion tuples) (accepted taken) }
{}
