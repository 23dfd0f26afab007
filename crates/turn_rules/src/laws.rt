//! Laws over the definition of the answer.

ghost use Rattle.std.specs.FinMap as fin;
ghost use Rattle.std.specs.Prelude.{◌≡◌, ◌≢◌, ◌↔◌, ◌<◌, ◌^◌, ◌==◌, ◌||◌, if◌then◌else◌, ℕ, Bool, true, false, IfSome, IsSome, List, Option, Some, None, is_none, is_some};
ghost use Rattle.turn_codec.specs.Grammar.{Content, Datagram};
ghost use Rattle.turn_cred.specs.Credential.{Verdict};
ghost use Rattle.turn_cred.specs.Credential.Verdict.{Passed};
ghost use Rattle.turn_cred.specs.declared.key.Key.{Key};
ghost use Rattle.turn_history.specs.Fitting.{Fits, IsActInRange, IsTokenOf, is_taken};
ghost use Rattle.turn_history.specs.History.{Allocates, History};
ghost use Rattle.turn_history.specs.Laws.{ReservedApart, ReservesNone, allocation_of, events_of};
ghost use Rattle.turn_history.specs.Table.{Contents, Entry, table};
ghost use Rattle.turn_rules.specs.Allocate.{before_port, named_port, needed_for, own_outcome};
ghost use Rattle.turn_rules.specs.Answer.{Decided, MayAnswer, by_verdict, decision, is_allocate, is_expired, needed_if_passed, outcome_of, passed_outcome, port_needed, user_of};
ghost use Rattle.turn_rules.specs.Examples.{BindingExample, UnknownExample};
ghost use Rattle.turn_rules.specs.Laws.{AreReservedPorts, IsMadeOfBytes, IsPicked, IsPlain, NamesInRange, SameForOthers};
ghost use Rattle.turn_rules.specs.Tableless.{depends_on_table};
ghost use Rattle.turn_rules.specs.Taking.{is_picked, takes_if_any};
ghost use Rattle.turn_rules.specs.Token.{token_for};
ghost use Rattle.turn_rules.specs.declared.outcome.Outcome.TheVariants.{Challenge};
ghost use Rattle.turn_types.specs.Config.{Config};
ghost use Rattle.turn_types.specs.Methods.{allocate};
ghost use Rattle.turn_types.specs.declared.error.ErrorCode.TheVariants.{Unauthenticated};
ghost use Rattle.turn_types.specs.declared.address.FiveTuple.{FiveTuple};

/// What the definition says of two requests of known bytes.
pub fn worked_examples()
    ensures binding { BindingExample }
    ensures unknown { UnknownExample }
{}

/// The token of a reserved port begins with the port.
pub fn tokens_are_of_their_ports()
    ensures { (secret : List ℕ) (t : ℕ) (f : FiveTuple) (tx : List ℕ) (port : ℕ) → port < 2 ^ 16 → IsTokenOf port (token_for secret t f tx port) }
{}

/// What is decided to be done to an allocation fits the table, if no entry has a reserved port, and what was picked is free for what is
/// needed.
pub fn decided_acts_fit()
    ensures fits { (pairs : Bool) (s : Config) (c : Contents) (f : FiveTuple) (t : ℕ) (d : Datagram) (v : Option Verdict) (port : Option ℕ) →
        ReservedApart c → IsPicked c (port_needed pairs s c f t d v) port → IfSome (decision pairs s c f t d v port).act (Fits s.limits c f) }
    // Without pairs no port is reserved.
    ensures no_pairs { (s : Config) (c : Contents) (f : FiveTuple) (t : ℕ) (d : Datagram) (v : Option Verdict) (port : Option ℕ) →
        IfSome (decision false s c f t d v port).act ReservesNone }
{}

/// What is decided to be done to an allocation is in range, if the message's values are bytes, reserved ports and what was picked are
/// ports, and the user whose credentials hold has a name of 1 to `name_bytes` bytes.
pub fn decided_acts_are_in_range()
    ensures { (pairs : Bool) (s : Config) (c : Contents) (f : FiveTuple) (t : ℕ) (d : Datagram) (v : Option Verdict) (port : Option ℕ) →
        IsMadeOfBytes d.content → AreReservedPorts c → IsPicked c (port_needed pairs s c f t d v) port → NamesInRange s.limits v →
        IfSome (decision pairs s c f t d v port).act (IsActInRange s.limits) }
{}

/// A server without pairs answers an Allocate as one that knows of no reservations, whatever its table has: by the rows in which each
/// token and each R bit is 508, with a port that was picked, and without a token. `pairs` is asked for nowhere else.
pub fn servers_without_pairs_are_plain()
    ensures { (s : Config) (c : Contents) (f : FiveTuple) (t : ℕ) (user : List ℕ) (m : Content) → IsPlain s c f t user m }
{}

/// What is decided takes the ports that were picked, and no other but such as are taken already, if none is picked but where one is needed.
pub fn picked_ports_are_taken()
    ensures { (pairs : Bool) (s : Config) (c : Contents) (f : FiveTuple) (t : ℕ) (d : Datagram) (v : Option Verdict) (port : Option ℕ) →
        (port_needed pairs s c f t d v ≡ None → port ≡ None) →
        (q : ℕ) → takes_if_any (decision pairs s c f t d v port).act q || is_taken c q ≡ is_picked (port_needed pairs s c f t d v) port q || is_taken c q }
{}

/// A key without an expiry time is checked by the rows alone, and so are all requests but those for a new allocation, and all at which the
/// key has not expired.
pub fn expiry_counts_for_new_allocations()
    ensures lasting { (c : Contents) (f : FiveTuple) (t : ℕ) (m : Content) (key : Key) → key.expiry ≡ None → is_expired c f t m key ≡ false }
    ensures before { (c : Contents) (f : FiveTuple) (t : ℕ) (m : Content) (key : Key) (expiry : ℕ) → key.expiry ≡ Some expiry → t < expiry → is_expired c f t m key ≡ false }
    ensures others { (c : Contents) (f : FiveTuple) (t : ℕ) (m : Content) (key : Key) → (m.method == allocate) ≡ false → is_expired c f t m key ≡ false }
    ensures live { (c : Contents) (f : FiveTuple) (t : ℕ) (m : Content) (key : Key) → IsSome (fin.get c.entries f) → is_expired c f t m key ≡ false }
    // What is not expired has the outcome and the port that it has without an expiry time.
    ensures outcome { (pairs : Bool) (s : Config) (c : Contents) (f : FiveTuple) (t : ℕ) (m : Content) (user : List ℕ) (key : Key) (port : Option ℕ) → is_expired c f t m key ≡ false →
        by_verdict pairs s c f t m (Some (Passed user key)) port ≡ passed_outcome pairs s c f t user m port }
    ensures port { (pairs : Bool) (s : Config) (c : Contents) (f : FiveTuple) (t : ℕ) (m : Content) (user : List ℕ) (key : Key) → is_expired c f t m key ≡ false →
        needed_if_passed pairs s c f t m (Some (Passed user key)) ≡ (if is_none (before_port pairs s c f user m) then needed_for c m else None) }
    // What is expired gets 401 and needs no port, whatever is asked for.
    ensures expired { (pairs : Bool) (s : Config) (c : Contents) (f : FiveTuple) (t : ℕ) (m : Content) (user : List ℕ) (key : Key) (port : Option ℕ) → is_expired c f t m key ≡ true →
        (by_verdict pairs s c f t m (Some (Passed user key)) port ≡ Challenge Unauthenticated) × (needed_if_passed pairs s c f t m (Some (Passed user key)) ≡ None) }
{}

/// Where the answer doesn't depend on the table, it is the same over all, and does nothing.
pub fn answers_of_no_table()
    ensures decision { (pairs later : Bool) (s : Config) (c k : Contents) (f : FiveTuple) (t : ℕ) (d : Datagram) (v : Option Verdict) (port other : Option ℕ) →
        depends_on_table d v ≡ false → decision pairs s c f t d v port ≡ decision later s k f t d v other }
    ensures no_act { (pairs : Bool) (s : Config) (c : Contents) (f : FiveTuple) (t : ℕ) (d : Datagram) (v : Option Verdict) (port : Option ℕ) →
        depends_on_table d v ≡ false → ((decision pairs s c f t d v port).act ≡ None) × (port_needed pairs s c f t d v ≡ None) }
    // The same may be answered after every two histories, whatever ports the generator has, and whether it failed or not.
    ensures answers { (pairs later : Bool) (s : Config) (range other : ℕ × ℕ) (h g : History) (t : ℕ) (failed failed_then : Bool) (f : FiveTuple) (d : Datagram) (v : Option Verdict) (o : Decided) →
        depends_on_table d v ≡ false → MayAnswer pairs s range h t failed f d v o → MayAnswer later s other g t failed_then f d v o }
{}

/// Where the answer may depend on the table, it does: a table without an allocation of the five-tuple gives another outcome than one where
/// another user has one.
pub fn dependent_answers_differ()
    ensures { (pairs : Bool) (s : Config) (c k : Contents) (f : FiveTuple) (t : ℕ) (d : Datagram) (v : Option Verdict) (port : Option ℕ) (e : Entry) →
        depends_on_table d v ≡ true → fin.get c.entries f ≡ None → fin.get k.entries f ≡ Some e → e.user ≢ user_of v →
        outcome_of pairs s c f t d v port ≢ outcome_of pairs s k f t d v port }
{}

/// What may be answered to a request that is no Allocate, and what is done by it, is given by the events of its own
/// five-tuple: the same may be answered after two histories that have the same events of it.
pub fn answers_stand_alone()
    ensures { (pairs : Bool) (s : Config) (range : ℕ × ℕ) (h g : History) (t : ℕ) (failed : Bool) (f : FiveTuple) (d : Datagram) (v : Option Verdict) (o : Decided) →
        events_of f h ≡ events_of f g → is_allocate d ≡ false →
        (MayAnswer pairs s range h t failed f d v o ↔ MayAnswer pairs s range g t failed f d v o) }
{}

/// What may be answered to an Allocate is given by the events of its own five-tuple, the number of the user's
/// allocations, the number of all, the ports of the range that are taken, and the reserved ports.
pub fn allocates_need_these()
    ensures others { (pairs : Bool) (s : Config) (range : ℕ × ℕ) (h g : History) (t : ℕ) (failed : Bool) (f : FiveTuple) (d : Datagram) (v : Option Verdict) (o : Decided) →
        events_of f h ≡ events_of f g → SameForOthers range (user_of v) (table h t) (table g t) →
        (MayAnswer pairs s range h t failed f d v o ↔ MayAnswer pairs s range g t failed f d v o) }
    // Where an outcome before the quota applies, by the events of the five-tuple and by whether a reserved port has the token alone.
    ensures own { (pairs : Bool) (s : Config) (range : ℕ × ℕ) (h g : History) (t : ℕ) (failed : Bool) (f : FiveTuple) (d : Datagram) (user : List ℕ) (key : Key) (o : Decided) →
        events_of f h ≡ events_of f g → is_some (named_port (table h t) d.content) ≡ is_some (named_port (table g t) d.content) →
        IsSome (own_outcome pairs (is_some (named_port (table h t) d.content)) (fin.get (table h t).entries f) user d.content) →
        (MayAnswer pairs s range h t failed f d (Some (Passed user key)) o ↔ MayAnswer pairs s range g t failed f d (Some (Passed user key)) o) }
{}

/// Where an Allocate was answered by a success, the same datagram with the same credentials gets the same bytes and
/// does nothing, over any table where the five-tuple has the allocation that was made then, whatever else is there, at
/// any moment, whether ports may be reserved by then or not.
pub fn repeated_allocates_get_the_same()
    ensures first { (pairs later : Bool) (s : Config) (c again : Contents) (f : FiveTuple) (d : Datagram) (v : Option Verdict) (t u : ℕ) (port other : Option ℕ) (e : Entry) →
        (decision pairs s c f t d v port).act ≡ Some (Allocates e.user e.port e.granted e.tx e.token) → fin.get again.entries f ≡ Some e →
        decision later s again f u d v other ≡ record { reply = (decision pairs s c f t d v port).reply; act = None } }
    // The same holds of each repetition.
    ensures later { (pairs later : Bool) (s : Config) (c again : Contents) (f : FiveTuple) (d : Datagram) (user : List ℕ) (key : Key) (t u : ℕ) (port other : Option ℕ) (x e : Entry) →
        is_allocate d ≡ true → fin.get c.entries f ≡ Some x → fin.get again.entries f ≡ Some e → allocation_of x ≡ allocation_of e →
        decision later s again f u d (Some (Passed user key)) other ≡ decision pairs s c f t d (Some (Passed user key)) port }
{}
