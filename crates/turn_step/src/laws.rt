//! What holds of the definitions in specs/. Each law is a clause of a function that does nothing.

ghost use Rattle.std.specs.Prelude.{◌≡◌, ◌≢◌, ◌≤◌, ◌↔◌, ℕ, Bool, List, None, Some, drop, map, take, true, false};
ghost use Rattle.std.specs.FinMap as fin;
ghost use Rattle.std.specs.List.{AllByRecursion};
ghost use Rattle.turn_codec.specs.Channel.{EncodesChannelData};
ghost use Rattle.turn_codec.specs.Grammar.{Content, Encodes};
ghost use Rattle.turn_history.specs.Fitting.{IsFitting};
ghost use Rattle.turn_history.specs.History.{Event, History, clock};
ghost use Rattle.turn_history.specs.Laws.{events_of};
ghost use Rattle.turn_history.specs.Table.{Entry, table};
ghost use Rattle.turn_rules.specs.Answer.{is_request};
ghost use Rattle.turn_step.specs.Answer.{AnswersArrival, AnswersClient, Setting};
ghost use Rattle.turn_step.specs.Data.{IsOwner, IsRequestOf, NeedsTable};
ghost use Rattle.turn_step.specs.Laws.{HasNoReply, EncodesNoAllocate, SameForAllocates};
ghost use Rattle.turn_step.specs.Outcome.{Arrives, StepOutcome, nothing};
ghost use Rattle.turn_step.specs.Outcome.Arrives.{FromClient, FromPeer};
ghost use Rattle.turn_step.specs.Outcome.Sent.{ToPeer};
ghost use Rattle.turn_types.specs.declared.address.Endpoint.{Endpoint};
ghost use Rattle.turn_types.specs.declared.address.FiveTuple.{FiveTuple};
ghost use Rattle.turn_types.specs.declared.limits.Bounds.{Bounds};

/// A reply and relayed data exclude each other: a client's request sends nothing to a peer; a message that is no request,
/// and a datagram that is no message, get no reply and do no act; and a datagram that is neither a message nor channel
/// data gets nothing at all.
pub fn replies_answer_requests()
    ensures requests { (s : Setting) (h : History) (t : ℕ) (failed : Bool) (f : FiveTuple) (bytes : List ℕ) (o : StepOutcome) (m : Content) →
        Encodes bytes m → is_request m.class ≡ true → AnswersClient s h t failed f bytes o →
        (port : ℕ) (peer : Endpoint) (payload : List ℕ) → o.sent ≢ Some (ToPeer port peer payload) }
    ensures others { (s : Setting) (h : History) (t : ℕ) (failed : Bool) (f : FiveTuple) (bytes : List ℕ) (o : StepOutcome) (m : Content) →
        Encodes bytes m → is_request m.class ≡ false → AnswersClient s h t failed f bytes o → HasNoReply o }
    ensures no_message { (s : Setting) (h : History) (t : ℕ) (failed : Bool) (f : FiveTuple) (bytes : List ℕ) (o : StepOutcome) →
        ((m : Content) → ¬ Encodes bytes m) → AnswersClient s h t failed f bytes o → HasNoReply o }
    ensures unreadable { (s : Setting) (h : History) (t : ℕ) (failed : Bool) (f : FiveTuple) (bytes : List ℕ) (o : StepOutcome) →
        ((m : Content) → ¬ Encodes bytes m) → ((number : ℕ) (payload : List ℕ) → ¬ EncodesChannelData bytes number payload) →
        AnswersClient s h t failed f bytes o → o ≡ nothing }
{}

/// What may be answered to a client is given by the events of its own five-tuple: the same may be sent and done after two
/// histories that have the same events of it. For an Allocate, these are to have as many allocations of the user and of all,
/// and the same taken ports too. So is what a peer's datagram at the relayed port of a live allocation sends.
pub fn clients_stand_alone()
    ensures client { (s : Setting) (h g : History) (t : ℕ) (failed : Bool) (f : FiveTuple) (bytes : List ℕ) (o : StepOutcome) →
        events_of f h ≡ events_of f g → EncodesNoAllocate bytes →
        (AnswersArrival s h t failed (FromClient f bytes) o ↔ AnswersArrival s g t failed (FromClient f bytes) o) }
    ensures allocate { (s : Setting) (h g : History) (t : ℕ) (failed : Bool) (f : FiveTuple) (bytes : List ℕ) (o : StepOutcome) →
        events_of f h ≡ events_of f g → SameForAllocates s f t bytes (table h t) (table g t) →
        (AnswersArrival s h t failed (FromClient f bytes) o ↔ AnswersArrival s g t failed (FromClient f bytes) o) }
    ensures peer { (s : Setting) (b : Bounds) (h g : History) (t : ℕ) (failed : Bool) (f : FiveTuple) (e : Entry) (from : Endpoint) (bytes id : List ℕ) (o : StepOutcome) →
        IsFitting b h → IsFitting b g → clock h ≤ t → clock g ≤ t → events_of f h ≡ events_of f g → fin.get (table h t).entries f ≡ Some e →
        (AnswersArrival s h t failed (FromPeer e.port from bytes id) o ↔ AnswersArrival s g t failed (FromPeer e.port from bytes id) o) }
{}

/// What may be answered to a request whose answer doesn't depend on the table is the same after every two histories, whether the
/// generator failed or not, and changes nothing. So the answer may be sent while other acts are being stored.
pub fn answers_of_no_table()
    ensures answers { (s : Setting) (h g : History) (t : ℕ) (failed failed_then : Bool) (a : Arrives) (o : StepOutcome) →
        IsRequestOf a → ¬ NeedsTable s t a → AnswersArrival s h t failed a o → AnswersArrival s g t failed_then a o }
    ensures no_change { (s : Setting) (h : History) (t : ℕ) (failed : Bool) (a : Arrives) (o : StepOutcome) →
        IsRequestOf a → ¬ NeedsTable s t a → AnswersArrival s h t failed a o → o.change ≡ None }
    // What needs the table is a request.
    ensures needs { (s : Setting) (t : ℕ) (a : Arrives) → NeedsTable s t a → IsRequestOf a }
{}

/// What may be answered to data is the same after a beginning of a history, where no later event is of the owner of the data. So the
/// answer may be sent before the later events are stored.
pub fn data_stands_alone()
    ensures { (s : Setting) (b : Bounds) (h : History) (k t : ℕ) (failed : Bool) (a : Arrives) (f : FiveTuple) (o : StepOutcome) →
        IsFitting b h → clock h ≤ t → ¬ IsRequestOf a → IsOwner (table h t) a f → AllByRecursion (λ g. g ≢ f) (map (λ (e : Event). e.tuple) (drop k h)) →
        (AnswersArrival s h t failed a o ↔ AnswersArrival s (take k h) t failed a o) }
{}
