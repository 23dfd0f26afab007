//! What follows of the contracts of `Setup::start` and `Serving::turn`, as clauses of a function that does nothing.

ghost use Rattle.std.specs.Prelude.{◌≡◌, ◌++◌, ℕ, Bool, None, true};
ghost use Rattle.turn_engine.specs.Images.{AtLeast};
ghost use Rattle.turn_engine.specs.Runs.{IsAtPlace, Leads, Place};
ghost use Rattle.turn_engine.specs.State.{ServerState};
ghost use Rattle.turn_history.specs.History.{History};
ghost use Rattle.turn_sockets.specs.Moments.{IsMoment};
ghost use Rattle.turn_step.specs.Answer.{Setting};
ghost use Rattle.turn_step.specs.State.{HoldsPorts};
ghost use Rattle.turn_store.specs.Areas.{Form};
ghost use Rattle.turn_store.specs.Images.{EachImage};
ghost use Rattle.turn_types.specs.Config.{Config};
ghost use Rattle.turn_sockets.specs.Backlog.{waiting_of};
ghost use Rattle.turn_types.specs.declared.address.FiveTuple.{FiveTuple};
ghost use Rattle.turn_serving.specs.Events.{Does, ServingState};
ghost use Rattle.turn_serving.specs.Manner.{reads_of};
ghost use Rattle.turn_serving.specs.Order.{TakesRounds, answered_in, of_tuple, taken_in};
ghost use Rattle.turn_serving.specs.Sending.{port_sockets};
ghost use Rattle.turn_serving.specs.Starts.{BeginsRun, Started};
ghost use Rattle.turn_serving.specs.Turns.{Served};

use crate::manner::Commits;
use crate::relay_sockets::RelaySockets;
use turn_cred::AuthHandler;
use turn_disk::Disk;
use turn_ports::RelayAddressGenerator;
use turn_sockets::Time;

/// A start over a disk that follows the crash model is at the start of a run after the first events of a history, if each image of the disk stands
/// for such. Each turn leads on: what turns hand out is in order what the arrivals of the run were answered.
pub fn turns_make_runs<D: Disk, H: AuthHandler, G: RelayAddressGenerator, T: Time>()
    ensures starts { (old : D) (config : Config) (users : H) (range : ℕ × ℕ) (server : ServerState D H G) (form : Form) (h : History) (k m : ℕ)
        → Started D.Disk H.AuthHandler G.RelayAddressGenerator old config users range server
        → D.follows_crash_model server.store.disk → form.bounds ≡ config.limits → EachImage (D.trace old).now (AtLeast form h k m)
        → BeginsRun D.Disk H.AuthHandler G.RelayAddressGenerator (record { config = config; keys = H.key_of users; range = range; pairs = server.machine.pairs }) h k server }
    ensures goes_on { (s : Setting) (h : History) (t : ℕ) (system : T) (old new : ServerState D H G) (p : Place)
        → IsAtPlace D.Disk H.AuthHandler G.RelayAddressGenerator s h t old p → (turn : Served D.Disk H.AuthHandler G.RelayAddressGenerator (IsMoment (T.told system)) old new)
        → D.follows_crash_model new.store.disk → Leads D.Disk H.AuthHandler G.RelayAddressGenerator s h t old p turn.steps }
{}

/// A start leaves relay ports that are held exactly once (`Setup::start`, clause `held`), and so does each turn, over any disk: between
/// two turns, and between two calls of a turn, the generator holds the ports of the table's allocations and reservations and no other.
pub fn turns_keep_ports<D: Disk, H: AuthHandler, G: RelayAddressGenerator, T: Time>()
    ensures { (system : T) (old new : ServerState D H G) → Served D.Disk H.AuthHandler G.RelayAddressGenerator (IsMoment (T.told system)) old new
        → HoldsPorts G.holds old.machine None → HoldsPorts G.holds new.machine None }
{}

/// Of each five-tuple, what was answered at once or submitted, and then what waits, is in order what waited before, and then what was
/// received, but for what was dropped: since there was no room or no memory, or since it came from a relay port of this server itself.
pub fn five_tuples_keep_their_order<D: Disk, H: AuthHandler, G: RelaySockets, T: Time>()
    ensures { (system : T) (least : ℕ) (done : Bool) (old new : ServingState D H G)
        → (does : Does D.Disk H.AuthHandler G.RelayAddressGenerator (port_sockets G.has_socket G.bound) (IsMoment (T.told system)) least done old new) → (f : FiveTuple)
        → of_tuple f (answered_in does.events) ++ waiting_of new.backlog f ≡ waiting_of old.backlog f ++ of_tuple f (taken_in does.events) }
{}

/// Where requests wait for commits, turns that end well visit sockets in as many rounds at least, each time the one that is next, and at
/// most as many datagrams a visit as the manner has: so the laws of `turn_sockets` on how long a socket waits speak of turns.
pub fn sockets_are_visited_in_rounds<D: Disk, H: AuthHandler, G: RelaySockets, T: Time>()
    ensures { (system : T) (least : ℕ) (old new : ServingState D H G) → Does D.Disk H.AuthHandler G.RelayAddressGenerator (port_sockets G.has_socket G.bound) (IsMoment (T.told system)) least true old new
        → old.manner.commits ≡ Commits.Paced → TakesRounds (reads_of old.manner) least old.agenda new.agenda }
{}
