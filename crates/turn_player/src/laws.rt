//! Laws of lives: what holds of every list of arrivals, commits, stops and openings. Each is a clause of a function that does
//! nothing.

ghost use Rattle.std.specs.Prelude.{◌≡◌, ◌++◌, ◌∷◌, [], ℕ, Bool, List, None, Result, false, map, true};
ghost use Rattle.turn_types.specs.declared.address.FiveTuple.{FiveTuple};
ghost use Rattle.turn_history.specs.History.{Allocation};
ghost use Rattle.turn_codec.specs.Grammar.{Datagram};
ghost use Rattle.turn_disk.specs.Disk.{EachImageSince};
ghost use Rattle.turn_engine.specs.Calls.{Commits, Opening};
ghost use Rattle.turn_engine.specs.Images.{AtLeast};
ghost use Rattle.turn_engine.specs.Runs.{NeverFails, Taken, accepted};
ghost use Rattle.turn_engine.specs.State.{ServerState};
ghost use Rattle.turn_engine.specs.declared.error.ServerOpenError.{ServerOpenError};
ghost use Rattle.turn_record.specs.declared.version.Version.TheVariants.{V2};
ghost use Rattle.turn_step.specs.Answer.{Setting};
ghost use Rattle.turn_step.specs.Outcome.{StepOutcome, Sent};
ghost use Rattle.turn_store.specs.Areas.{Form};
ghost use Rattle.turn_store.specs.Images.{EachImage, RepresentsAt};
ghost use Rattle.turn_store.specs.declared.error.StoreError.{StoreError};
ghost use Rattle.turn_player.specs.Laws.{IsOneRun, IsWhole, Keeps, LastsOnDisk};
ghost use Rattle.turn_player.specs.Lives.{Input, Lasting, Life, NeverFall, Point, Said, bound_of, count_of, formatted, history_of, sent_by_all, sent_in, settled_history_of, sure_of, taken_of};
ghost use Rattle.turn_player.specs.Repeats.{ComesAgain, LastsAfter, MadeBefore, Makes};
ghost use Rattle.turn_player.specs.Versions.{Reserves};
ghost use Rattle.turn_player.specs.Worlds.{Calls, Down, Lives, Runs, Serving, Stands, World, disk_of, handler_of, ports_of, world_after};

use turn_cred::AuthHandler;
use turn_disk::Disk;
use turn_ports::RelayAddressGenerator;

/// In every life from a formatted disk on whose moments never fall, the arrivals whose answers were handed out or whose acts an
/// opening found, with those that were taken since, are one run: however many stops and openings there were. What lasts is
/// never lost.
pub fn every_life_is_one_run()
    ensures whole { (s : Setting) (may_fail : Bool) (inputs : List Input) (said : List Said) (q : Point)
        → Life s may_fail formatted inputs said q → NeverFall 0 inputs → IsOneRun s may_fail (sent_in said) q }
    // The same from any point where it holds.
    ensures goes_on { (s : Setting) (may_fail : Bool) (p q : Point) (inputs : List Input) (said : List Said) (sent : List Sent)
        → Life s may_fail p inputs said q → NeverFall (bound_of p) inputs → IsOneRun s may_fail sent p
        → IsOneRun s may_fail (sent ++ sent_in said) q }
    ensures keeps { (s : Setting) (may_fail : Bool) (p q : Point) (inputs : List Input) (said : List Said)
        → Life s may_fail p inputs said q → Keeps p q }
    // What was handed out lasts, in order, whatever the moments are.
    ensures handed_out { (s : Setting) (may_fail : Bool) (p q : Point) (inputs : List Input) (said : List Said)
        → Life s may_fail p inputs said q → sent_by_all (sure_of q) ≡ sent_by_all (sure_of p) ++ sent_in said }
{}

/// An Allocate whose success was handed out, or whose act an opening found, gets the same bytes again, and nothing is done,
/// however many stops and openings there were since, as long as its nonce holds and the allocation lives.
pub fn repeats_get_the_same()
    ensures first { (s : Setting) (q : Point) (before : List Lasting) (x : Lasting) (f : FiveTuple) (d : Datagram) (a : Allocation) (t : ℕ) (again : StepOutcome)
        → LastsAfter s q before x → Makes (taken_of x) f d a → ComesAgain s (history_of q) t f d a again
        → again ≡ record { change = None; sent = (taken_of x).outcome.sent } }
    // The same where the five-tuple had the allocation already.
    ensures later { (s : Setting) (q : Point) (before : List Lasting) (x : Lasting) (f : FiveTuple) (d : Datagram) (a : Allocation) (t : ℕ) (again : StepOutcome)
        → LastsAfter s q before x → MadeBefore s (accepted (map taken_of before)) (taken_of x) f d a → ComesAgain s (history_of q) t f d a again
        → again ≡ (taken_of x).outcome }
{}

/// Arrivals, commits, stops at any moment of any call, and openings, in any order, from a formatted disk on, make a life.
pub fn calls_make_lives<D: Disk, H: AuthHandler, G: RelayAddressGenerator>()
    ensures formatted { (form : Form) (s : Setting) (d : D) (h : H) (g : G)
        → D.follows_crash_model d → EachImage (D.trace d).now (RepresentsAt form [] 0) → H.key_of h ≡ s.keys → G.range g ≡ s.range
        → Stands D.Disk H.AuthHandler G.RelayAddressGenerator form s (Down d h g) formatted }
    ensures goes_on { (form : Form) (s : Setting) (may_fail : Bool) (p : Point) (w v : World D H G) (inputs : List Input) (said : List Said)
        → form.bounds ≡ s.config.limits → (may_fail ≡ false → NeverFails G.RelayAddressGenerator)
        → Calls D.Disk H.AuthHandler G.RelayAddressGenerator s w inputs said v → Stands D.Disk H.AuthHandler G.RelayAddressGenerator form s w p
        → D.follows_crash_model (disk_of v) → Lives D.Disk H.AuthHandler G.RelayAddressGenerator form s may_fail p inputs said v }

    // At each moment of a commit or an opening each image represents the first events of the history, and no fewer than last.
    ensures commits { (form : Form) (s : Setting) (p : Point) (old new : ServerState D H G) (result : Result (List Sent) StoreError)
        → Stands D.Disk H.AuthHandler G.RelayAddressGenerator form s (Serving old) p → Commits D.Disk old new result
        → D.follows_crash_model new.store.disk → EachImageSince (D.trace old.store.disk) (D.trace new.store.disk) (AtLeast form (history_of p) (count_of p) (bound_of p)) }
    ensures openings { (form : Form) (s : Setting) (p : Point) (w : World D H G) (result : Result (ServerState D H G) (ServerOpenError D H G))
        → Stands D.Disk H.AuthHandler G.RelayAddressGenerator form s w p → Opening D.Disk (disk_of w) s.config (handler_of w) (ports_of w) result
        → D.follows_crash_model (disk_of (world_after result)) → EachImageSince (D.trace (disk_of w)) (D.trace (disk_of (world_after result))) (AtLeast form (settled_history_of p) (count_of p) (bound_of p)) }

    // From a formatted disk on, by moments that never fall, all of it is one run.
    ensures whole { (form : Form) (s : Setting) (may_fail : Bool) (w v : World D H G) (inputs : List Input) (said : List Said)
        → form.bounds ≡ s.config.limits → (may_fail ≡ false → NeverFails G.RelayAddressGenerator)
        → Calls D.Disk H.AuthHandler G.RelayAddressGenerator s w inputs said v → Stands D.Disk H.AuthHandler G.RelayAddressGenerator form s w formatted
        → NeverFall 0 inputs → D.follows_crash_model (disk_of v) → IsWhole D.Disk H.AuthHandler G.RelayAddressGenerator form s may_fail inputs said v }

    // Of each datagram that was handed out, relayed data too: whatever calls and stops follow, each image of the disk represents
    // a history that begins with the one that it was answered from.
    ensures lasts { (form : Form) (s : Setting) (may_fail : Bool) (p : Point) (w v : World D H G) (inputs : List Input) (said : List Said)
        (sent : List Sent) (before : List Lasting) (x : Lasting) (after : List Lasting)
        → form.bounds ≡ s.config.limits → (may_fail ≡ false → NeverFails G.RelayAddressGenerator)
        → Calls D.Disk H.AuthHandler G.RelayAddressGenerator s w inputs said v → Stands D.Disk H.AuthHandler G.RelayAddressGenerator form s w p
        → IsOneRun s may_fail sent p → sure_of p ≡ before ++ x ∷ after → D.follows_crash_model (disk_of v) → LastsOnDisk D.Disk form s before (taken_of x) (disk_of v) }
{}

/// A server that reserves ports is followed by such servers, whatever arrivals, commits, stops and openings come, and whether or not
/// these may carry a store over.
pub fn servers_go_on_reserving_ports<D: Disk, H: AuthHandler, G: RelayAddressGenerator>()
    ensures begins { (form : Form) (s : Setting) (server : ServerState D H G) (sure : List Lasting) (recent : List Taken) (pairs : Bool) (c m : ℕ)
        → Runs D.Disk H.AuthHandler G.RelayAddressGenerator form s server sure recent pairs c m → server.store.version ≡ V2 → server.machine.pairs ≡ true
        → Reserves D.Disk form (Serving server) }
    ensures goes_on { (form : Form) (s : Setting) (p : Point) (w v : World D H G) (inputs : List Input) (said : List Said)
        → form.bounds ≡ s.config.limits → Calls D.Disk H.AuthHandler G.RelayAddressGenerator s w inputs said v
        → Stands D.Disk H.AuthHandler G.RelayAddressGenerator form s w p → D.follows_crash_model (disk_of v)
        → Reserves D.Disk form w → Reserves D.Disk form v }
{}
