//! What holds of the tables of histories. The definitions stand in specs/; each law is a clause of a function
//! that does nothing.

ghost use Rattle.std.specs.Prelude.{◌≡◌, ◌+◌, ◌≤◌, ◌++◌, ◌∷◌, [], ◌↔◌, ℕ, List, Some, IsSome, IfSome, Bool, true, false, max};
ghost use Rattle.std.specs.List.{AllByRecursion, list_all};
ghost use Rattle.std.specs.FinMap as fin;
ghost use Rattle.turn_history.specs.Fitting.{Follows, FitsAfter, FitsChannel, IsFitting, IsInRange, IsTuple, IsEntryInRange, AreReservationsInRange, IsUnreserved, PortIsFree, exceeds, is_bound_elsewhere, is_taken};
ghost use Rattle.turn_history.specs.History.{History, Event, PlainAct, Allocation, clock, made, span, allocation_at, span_at, IsLive};
ghost use Rattle.turn_history.specs.Laws.{AllFrom, HasNoTokens, NeverFall, PortsApart, ReservedApart, ReservedAt, ReservesNone, PeersApart, IsWithin, events_of, IsLast, IsEntryOf, InstalledAt, BoundAt, IsPermitted, IsBound, IsAfterLatest, HasPermission, PermissionEnds, HasChannel, ChannelEnds};
ghost use Rattle.turn_types.specs.declared.limits.Bounds.{Bounds};
ghost use Rattle.turn_types.specs.declared.message.Token.{Token};
ghost use Rattle.turn_history.specs.Table.{Contents, Entry, table, purged, applied};
ghost use Rattle.turn_types.specs.Profile.{permission_lifetime, channel_lifetime, reservation_lifetime};
ghost use Rattle.turn_types.specs.declared.address.Endpoint.{Endpoint};
ghost use Rattle.turn_types.specs.declared.address.FiveTuple.{FiveTuple};

/// The table of a history at a later moment is its table without what has expired by then.
pub fn tables_expire()
    ensures { (h : History) (t u : ℕ) → t ≤ u → table h u ≡ purged u (table h t) }
{}

/// What one more fitting act makes of the table at its moment is a function of that table and the act. So
/// histories that have one table at a moment, and are continued by the same events from that moment on, have one
/// table at every later moment.
pub fn acts_change_tables()
    ensures next { (b : Bounds) (h : History) (e : Event) → Follows b h e →
        table (h ++ e ∷ []) e.moment ≡ applied e.moment e.tuple e.act (table h e.moment) }
    ensures same { (b : Bounds) (h g : History) (es : List Event) (s t : ℕ) →
        table h s ≡ table g s → AllFrom s es → FitsAfter b h es → FitsAfter b g es →
        s ≤ t → clock es ≤ t → table (h ++ es) t ≡ table (g ++ es) t }
{}

/// A fitting history with one more event that may follow it is fitting, and its clock is that event's moment. The
/// first events of a fitting history are one, and the others fit after them.
pub fn fitting_histories_grow()
    ensures grows { (b : Bounds) (h : History) (e : Event) →
        IsFitting b h → Follows b h e → IsFitting b (h ++ e ∷ []) }
    ensures clock { (h : History) (e : Event) →
        clock h ≤ e.moment → clock (h ++ e ∷ []) ≡ e.moment }
    ensures begins { (b : Bounds) (h g : History) →
        IsFitting b (h ++ g) → IsFitting b h × FitsAfter b h g }
    ensures joins { (b : Bounds) (h g : History) →
        IsFitting b h → FitsAfter b h g → IsFitting b (h ++ g) }
{}

/// The clock of two histories joined is the later of theirs. Of events that may follow a history, each is in range,
/// none is before the history's clock, and none is before an earlier one of them.
pub fn histories_join()
    ensures clock { (h g : History) → clock (h ++ g) ≡ max (clock h) (clock g) }
    ensures in_range { (b : Bounds) (h : History) (es : List Event) → FitsAfter b h es → AllByRecursion (IsInRange b) es }
    ensures from { (b : Bounds) (h : History) (es : List Event) → FitsAfter b h es → AllFrom (clock h) es }
    ensures never_fall { (b : Bounds) (h : History) (es : List Event) → FitsAfter b h es → NeverFall es }
{}

/// A test passes each entry of a map, in the order of its keys, exactly if it passes what the map holds at each key.
/// The order tells keys apart.
pub fn maps_list_entries<K: Ord, V>()
    ensures { fin.IsAntisymmetric K.cmp → (m : fin.FinMap K.cmp V) (p : K × V → Bool) →
        (list_all p (fin.entries m) ≡ true) ↔ ((k : K) (v : V) → fin.get m k ≡ Some v → p (k, v) ≡ true) }
{}

/// The entry of a five-tuple in the table of a history is that in the table of its own events alone.
pub fn entries_stand_alone()
    ensures { (h : History) (t : ℕ) (f : FiveTuple) →
        fin.get (table h t).entries f ≡ fin.get (table (events_of f h) t).entries f }
{}

/// The ports of live five-tuples and the reserved ports are all distinct, and in an entry no two channels have one peer.
pub fn ports_and_peers_differ()
    ensures ports { (b : Bounds) (h : History) (t : ℕ) →
        IsFitting b h → clock h ≤ t → PortsApart (table h t) }
    ensures reserved { (b : Bounds) (h : History) (t : ℕ) →
        IsFitting b h → clock h ≤ t → ReservedApart (table h t) }
    ensures peers { (b : Bounds) (h : History) (t : ℕ) →
        IsFitting b h → clock h ≤ t → PeersApart (table h t) }
{}

/// A table has an entry exactly of each live five-tuple: the user, port, lifetime and transaction id that its last
/// Alloc gave, and the moment when its last Alloc or Renew expires. "The last" is meant by places in the history.
pub fn tables_hold_the_live()
    ensures live { (h : History) (t : ℕ) (f : FiveTuple) →
        IsSome (fin.get (table h t).entries f) ↔ IsLive h t f }
    ensures entry { (h : History) (t : ℕ) (f : FiveTuple) →
        IfSome (fin.get (table h t).entries f) (IsEntryOf h f) }
    ensures made { (h : History) (f : FiveTuple) (a : Allocation) →
        (made h f ≡ Some a) ↔ IsLast allocation_at h f a }
    ensures span { (h : History) (f : FiveTuple) (x : ℕ) →
        (span h f ≡ Some x) ↔ IsLast span_at h f x }
{}

/// The permissions of a live five-tuple in a table are those of the addresses that some Permit or Bind of it names,
/// which is after its last Alloc and is less than 300 seconds old. A permission expires 300 seconds after the
/// latest of these.
pub fn tables_hold_the_permitted()
    ensures permitted { (b : Bounds) (h : History) (t : ℕ) (f : FiveTuple) (a : ℕ) →
        IsFitting b h → (HasPermission (table h t) f a ↔ IsPermitted h t f a) }
    ensures expiry { (b : Bounds) (h : History) (t : ℕ) (f : FiveTuple) (a x : ℕ) → IsFitting b h →
        (PermissionEnds (table h t) f a x ↔
        (IsLive h t f × IsAfterLatest permission_lifetime (InstalledAt h t f a) x)) }
{}

/// The channels of a live five-tuple in a table are the numbers and peers of its Binds that are after its last
/// Alloc and are less than 600 seconds old. A channel expires 600 seconds after the latest of these.
pub fn tables_hold_the_bound()
    ensures bound { (b : Bounds) (h : History) (t : ℕ) (f : FiveTuple) (n : ℕ) (p : Endpoint) →
        IsFitting b h → clock h ≤ t → (HasChannel (table h t) f n p ↔ IsBound h t f n p) }
    ensures expiry { (b : Bounds) (h : History) (t : ℕ) (f : FiveTuple) (n : ℕ) (p : Endpoint) (x : ℕ) →
        IsFitting b h → clock h ≤ t →
        (ChannelEnds (table h t) f n p x ↔
        (IsLive h t f × IsAfterLatest channel_lifetime (BoundAt h t f n p) x)) }
{}

/// A port is reserved in a table, with a token and until a moment, exactly if some event less than 30 seconds old
/// reserves it with that token, and no Alloc of the port is after it. The reservation lasts 30 seconds, whatever becomes
/// of the allocation that made it.
pub fn tables_hold_the_reserved()
    ensures { (b : Bounds) (h : History) (t q : ℕ) (token : Token) (x : ℕ) → IsFitting b h → clock h ≤ t →
        ((fin.get (table h t).reserved q ≡ Some (record { token = token; expiry = x })) ↔
        ((m : ℕ) × (x ≡ m + reservation_lifetime) × ReservedAt h t q token m)) }
{}

/// A table without tokens is one at a later moment, and after an act that reserves no port. So is the table of a history
/// of such acts.
pub fn tables_without_tokens_stay()
    ensures later { (t : ℕ) (c : Contents) → HasNoTokens c → HasNoTokens (purged t c) }
    ensures acts { (t : ℕ) (f : FiveTuple) (d : PlainAct) (c : Contents) → ReservesNone d → HasNoTokens c → HasNoTokens (applied t f d c) }
    ensures all { (b : Bounds) (h : History) (t : ℕ) → IsFitting b h → clock h ≤ t → AllByRecursion (λ e. ReservesNone e.act) h → HasNoTokens (table h t) }
{}

/// The values in the table of a fitting history are in their ranges: each entry has an Alloc's, ends within 3600
/// seconds, and has permissions that end within 300 seconds and channels that end within 600. And there are no
/// more entries, permissions and channels than the limits allow.
pub fn tables_are_in_range()
    ensures values { (b : Bounds) (h : History) (t : ℕ) (f : FiveTuple) (e : Entry) →
        IsFitting b h → clock h ≤ t → fin.get (table h t).entries f ≡ Some e →
        IsTuple f × IsEntryInRange b t e }
    ensures reserved { (b : Bounds) (h : History) (t : ℕ) →
        IsFitting b h → clock h ≤ t → AreReservationsInRange t (table h t) }
    ensures counts { (b : Bounds) (h : History) (t : ℕ) →
        IsFitting b h → clock h ≤ t → IsWithin b (table h t) }
{}

/// The tests by which requests are answered decide the facts: a port is free exactly if no entry has it, and a
/// channel fits exactly if neither the number nor the peer is bound elsewhere and no limit is exceeded.
pub fn tests_decide()
    ensures port { (c : Contents) (port : ℕ) → (is_taken c port ≡ false) ↔ (PortIsFree c port × IsUnreserved c port) }
    ensures channel { (b : Bounds) (n : ℕ) (p : Endpoint) (e : Entry) →
        ((is_bound_elsewhere n p e ≡ false) × (exceeds b n p e ≡ false)) ↔ FitsChannel b n p e }
{}
