//! Laws of the bytes. Each is a clause of a function that does nothing.

ghost use Rattle.std.specs.Prelude.{◌≡◌, ◌≤◌, ◌<◌, ◌-◌, ◌^◌, ◌++◌, ℕ, List, length};
ghost use Rattle.turn_history.specs.Fitting.{Fits, IsFitting, IsInRange};
ghost use Rattle.std.specs.List.{AllByRecursion};
ghost use Rattle.turn_history.specs.History.{Event, History, clock};
ghost use Rattle.turn_history.specs.Table.{Contents, applied, purged, table};
ghost use Rattle.turn_record.specs.Bytes.{act_entry, payload, snapshot};
ghost use Rattle.turn_record.specs.Records.{Holds, IsBatch, IsSnapshot, Writes, max_act, max_payload, max_snapshot};
ghost use Rattle.turn_record.specs.declared.version.Version.{Version};
ghost use Rattle.turn_record.specs.declared.version.Version.TheVariants.{V1, V2};
ghost use Rattle.turn_types.specs.Limits.{AreInRange};
ghost use Rattle.turn_types.specs.Profile.{end_of_moments};
ghost use Rattle.turn_types.specs.declared.limits.Bounds.{Bounds};

/// Bytes encode one event, one batch, or in a version one table at one moment, at most, and no encoding of one is a
/// proper prefix of another's.
pub fn encodings_are_one()
    ensures acts { (b : Bounds) → AreInRange b → (x y : Event) (u v : List ℕ) → IsInRange b x → IsInRange b y →
        act_entry x ++ u ≡ act_entry y ++ v → (x ≡ y) × (u ≡ v) }
    ensures payloads { (b : Bounds) → AreInRange b → (v w : Version) (x y : List Event) (s t : List ℕ) → IsBatch v b x → IsBatch w b y →
        payload x ++ s ≡ payload y ++ t → (x ≡ y) × (s ≡ t) }
    ensures snapshots { (version : Version) (b : Bounds) → AreInRange b → (s t : ℕ) (c d : Contents) (u v : List ℕ) → IsSnapshot version b s c → IsSnapshot version b t d →
        snapshot version s c ++ u ≡ snapshot version t d ++ v → (s ≡ t) × (c ≡ d) × (u ≡ v) }
{}

/// The table of a fitting history has a snapshot, at each moment from the history's clock on, in each version that can
/// hold it, as a version can that can hold the history's acts.
pub fn tables_have_snapshots()
    ensures holds { (v : Version) (b : Bounds) (h : History) (t : ℕ) → IsFitting b h → clock h ≤ t → t < end_of_moments →
        Holds v (table h t) → IsSnapshot v b t (table h t) }
    ensures writes { (v : Version) (b : Bounds) (h : History) (t : ℕ) → IsFitting b h → clock h ≤ t → t < end_of_moments →
        AllByRecursion (λ e. Writes v e.act) h → IsSnapshot v b t (table h t) }
{}

/// What has a snapshot at a moment still has one at a later moment, without what has expired by then, and has one after
/// an event that fits it at its moment and that the version can hold.
pub fn snapshots_go_on()
    ensures later { (v : Version) (b : Bounds) (t u : ℕ) (c : Contents) → t ≤ u → u < end_of_moments → IsSnapshot v b t c → IsSnapshot v b u (purged u c) }
    ensures acts { (v : Version) (b : Bounds) (e : Event) (c : Contents) → Writes v e.act → IsInRange b e → Fits b c e.tuple e.act → IsSnapshot v b e.moment c →
        IsSnapshot v b e.moment (applied e.moment e.tuple e.act c) }
{}

/// What has a snapshot of version 1 has one of version 2.
pub fn snapshots_carry_over()
    ensures { (b : Bounds) (t : ℕ) (c : Contents) → IsSnapshot V1 b t c → IsSnapshot V2 b t c }
{}

/// How many bytes act entries, payloads and snapshots have at most.
pub fn encodings_are_short()
    ensures acts { (v : Version) (b : Bounds) (e : Event) → Writes v e.act → IsInRange b e → length (act_entry e) ≤ max_act v b }
    ensures payloads { (v : Version) (b : Bounds) (es : List Event) → IsBatch v b es → length (payload es) ≤ max_payload v b }
    ensures snapshots { (v : Version) (b : Bounds) (t : ℕ) (c : Contents) → IsSnapshot v b t c → length (snapshot v t c) ≤ max_snapshot v b }
{}
