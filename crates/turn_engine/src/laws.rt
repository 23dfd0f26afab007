//! Laws of runs: what follows of the contracts of `submit` and `commit`, whatever calls are made. Each is a clause of a
//! function that does nothing.

ghost use Rattle.std.specs.Prelude.{◌≡◌, ◌++◌, ◌∷◌, [], ℕ, List, Err, None, true, length, take};
ghost use Rattle.turn_disk.specs.Disk.{EachImageSince, IsSettled, State};
ghost use Rattle.turn_disk.specs.declared.disk.Disk as disks;
ghost use Rattle.turn_cred.specs.declared.handler.AuthHandler as handlers;
ghost use Rattle.turn_history.specs.History.{History};
ghost use Rattle.turn_ports.specs.declared.generator.RelayAddressGenerator as generators;
ghost use Rattle.turn_step.specs.Answer.{Setting};
ghost use Rattle.turn_step.specs.State.{HoldsPorts, setting_of};
ghost use Rattle.turn_store.specs.Areas.{Form};
ghost use Rattle.turn_store.specs.Images.{EachImage};
ghost use Rattle.turn_store.specs.State.{form_of};
ghost use Rattle.turn_store.specs.declared.error.StoreError.{StoreError};
ghost use Rattle.turn_engine.specs.Calls.{Commits};
ghost use Rattle.turn_engine.specs.Images.{AtLeast};
ghost use Rattle.turn_engine.specs.Recovering.{Opens, RecoversTo};
ghost use Rattle.turn_engine.specs.Runs.{IsAtPlace, IsCall, IsSilent, Lasts, Leads, Place, Serves, ServerCall, Taken, accepted, after_of, count_at, history_at, last_of, start};
ghost use Rattle.turn_engine.specs.Stops.{IsLeft};
ghost use Rattle.turn_engine.specs.State.{ServerState, now_of};

use turn_cred::AuthHandler;
use turn_disk::Disk;
use turn_ports::RelayAddressGenerator;

/// From an opening on, whatever arrivals and commits come, what the commits hand out is in order what the arrivals of one
/// run were answered, each once, up to the last commit that answered `Ok`. A commit that failed handed nothing of its batch
/// out, and nothing is handed out later.
pub fn servers_make_runs<D: Disk, H: AuthHandler, G: RelayAddressGenerator>()
    // What an opening yields, with nothing staged, is at the start of a run after the part of the history that it recovers to.
    ensures opened { (form : Form) (h : History) (k m : ℕ) (content : List ℕ) (server : ServerState D H G)
        → D.follows_crash_model server.store.disk → (o : Opens form h k m content (D.trace server.store.disk).now server) → server.outs ≡ [] → server.arrivals ≡ 0
        → IsAtPlace D.Disk H.AuthHandler G.RelayAddressGenerator (setting_of H.key_of G.range server.machine) (take o.count h) (now_of server) server start }

    // So is every server with all of a history stored and nothing staged.
    ensures starts { (server : ServerState D H G) (h : History) (k : ℕ)
        → D.follows_crash_model server.store.disk → RecoversTo (D.trace server.store.disk).now server h k → k ≡ length h → server.outs ≡ [] → server.arrivals ≡ 0
        → IsAtPlace D.Disk H.AuthHandler G.RelayAddressGenerator (setting_of H.key_of G.range server.machine) h (now_of server) server start }

    ensures goes_on { (s : Setting) (h : History) (t : ℕ) (server : ServerState D H G) (p : Place) (steps : List (ServerCall D H G))
        → IsAtPlace D.Disk H.AuthHandler G.RelayAddressGenerator s h t server p → Serves D.Disk H.AuthHandler G.RelayAddressGenerator server steps
        → D.follows_crash_model (last_of server steps).store.disk → Leads D.Disk H.AuthHandler G.RelayAddressGenerator s h t server p steps }
    ensures failed { (old new : ServerState D H G) (fault : StoreError) (steps : List (ServerCall D H G))
        → Commits D.Disk old new (Err fault) → Serves D.Disk H.AuthHandler G.RelayAddressGenerator new steps → IsSilent new steps }
{}

/// At every moment of every call each image of the disk represents the first events of the run's history, and no fewer
/// than belong to what was handed out.
pub fn stops_keep_what_was_handed_out<D: Disk, H: AuthHandler, G: RelayAddressGenerator>()
    ensures calls { (s : Setting) (h : History) (t : ℕ) (server : ServerState D H G) (p : Place) (x : ServerCall D H G)
        → IsAtPlace D.Disk H.AuthHandler G.RelayAddressGenerator s h t server p → IsCall D.Disk H.AuthHandler G.RelayAddressGenerator server x
        → D.follows_crash_model (after_of x).store.disk → EachImageSince (D.trace server.store.disk) (D.trace (after_of x).store.disk)
        (AtLeast (form_of server.store) (history_at h p) (count_at h p) (now_of server)) }

    // Of each datagram that was handed out, relayed data too: whatever calls follow, each image at each moment of the call
    // after them represents a history that begins with the one that it was answered from.
    ensures datagrams { (s : Setting) (h : History) (t : ℕ) (server : ServerState D H G) (p : Place) (before : List Taken) (x : Taken) (after : List Taken)
        (steps : List (ServerCall D H G)) (call : ServerCall D H G)
        → IsAtPlace D.Disk H.AuthHandler G.RelayAddressGenerator s h t server p → p.handed ≡ before ++ x ∷ after
        → Serves D.Disk H.AuthHandler G.RelayAddressGenerator server steps → IsCall D.Disk H.AuthHandler G.RelayAddressGenerator (last_of server steps) call
        → D.follows_crash_model (after_of call).store.disk → Lasts D.Disk s (h ++ accepted before) x (last_of server steps) (after_of call) }
{}

/// A stop at any moment of a `submit` or a `commit` leaves a disk of which each image represents the first events of the run's
/// history, and no fewer than belong to what was handed out: what `Server::open` asks for.
pub fn stopped_servers_open_again<D: Disk, H: AuthHandler, G: RelayAddressGenerator>()
    ensures { (s : Setting) (h : History) (t : ℕ) (server : ServerState D H G) (p : Place) (x : ServerCall D H G) (image : List ℕ) (state : State)
        → IsAtPlace D.Disk H.AuthHandler G.RelayAddressGenerator s h t server p → IsCall D.Disk H.AuthHandler G.RelayAddressGenerator server x
        → D.follows_crash_model (after_of x).store.disk → IsLeft (D.trace server.store.disk) (D.trace (after_of x).store.disk) image → state.bytes ≡ image → IsSettled state
        → EachImage state (AtLeast (form_of server.store) (history_at h p) (count_at h p) (now_of server)) }
{}

/// Over any disk, whether or not it follows the crash model, and whatever calls are made: where the generator of a server holds the ports of the table's
/// allocations and reservations and no other, it does so after the calls. Each of these ports is that of one allocation or one
/// reservation (`Server::table`, clause `apart`).
pub fn ports_stay_held<D: Disk, H: AuthHandler, G: RelayAddressGenerator>()
    ensures { (server : ServerState D H G) (steps : List (ServerCall D H G)) → Serves D.Disk H.AuthHandler G.RelayAddressGenerator server steps
        → HoldsPorts G.holds server.machine None → HoldsPorts G.holds (last_of server steps).machine None }
{}
