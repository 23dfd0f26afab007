//! What follows of the contracts of `Setup::start` and `Serving::turn` for any number of processes, as clauses of functions that do
//! nothing.

ghost use Rattle.std.specs.Prelude.{◌≡◌, [], ◌∷◌, ◌↔◌, ℕ, Bool, List, false};
ghost use Rattle.turn_disk.specs.Disk.{State};
ghost use Rattle.turn_disk.specs.Views.{InFile};
ghost use Rattle.turn_engine.specs.Runs.{NeverFails, Taken};
ghost use Rattle.turn_player.specs.Lives.{Lasting, NeverFall};
ghost use Rattle.turn_player.specs.Worlds.{Leaves};
ghost use Rattle.turn_store.specs.Areas.{Form};
ghost use Rattle.turn_store.specs.Images.{EachImage, RepresentsAt};
ghost use Rattle.turn_lives.specs.Files.{file_of};
ghost use Rattle.turn_lives.specs.Processes.{AllReserve, AreOneRunOn, HaveLimits, IsReserving, LiveOn, Part, Process, Processes, inputs_of_all};

use std::fs::OpenFile;
use std::os::unix::fs::FileExt;
use turn_cred::AuthHandler;
use turn_disk::{Disk, FileDisk, Start};
use turn_ports::RelayAddressGenerator;
use turn_sockets::Time;

/// Processes over one disk, each with a setting of its own, and each stopped at any moment of its start or of a turn, make lives as
/// `turn_player` has them. Each starts with a generator of its own, which counts as failed at an arrival exactly where its count differs
/// afterwards.
pub fn processes_make_lives<D: Disk, N: Disk, H: AuthHandler, G: RelayAddressGenerator, T: Time>()
    // One process, after which the next finds a disk of whatever type.
    ensures one { (form : Form) (may_fail : Bool) (old : D) (new : N) (part : Part) (sure : List Lasting) (recent : List Taken) (m : ℕ)
        → form.bounds ≡ part.setting.config.limits → (may_fail ≡ false → NeverFails G.RelayAddressGenerator)
        → Process D.Disk N.Disk H.AuthHandler G.RelayAddressGenerator T.Time part.setting old part.inputs part.said new
        → Leaves D.Disk form old sure recent m → N.follows_crash_model new → LiveOn N.Disk form may_fail sure recent m (part ∷ []) new }

    // Any number of them: what any of them handed out lasts. No clock is a premise.
    ensures lives { (form : Form) (may_fail : Bool) (old new : D) (parts : List Part) (sure : List Lasting) (recent : List Taken) (m : ℕ)
        → HaveLimits form parts → (may_fail ≡ false → NeverFails G.RelayAddressGenerator)
        → Processes (λ (name : Unit {0}). D.Disk) H.AuthHandler G.RelayAddressGenerator T.Time tt old parts tt new
        → Leaves D.Disk form old sure recent m → D.follows_crash_model new → LiveOn D.Disk form may_fail sure recent m parts new }

    // The same from a formatted disk on.
    ensures lasts { (form : Form) (may_fail : Bool) (old new : D) (parts : List Part)
        → HaveLimits form parts → (may_fail ≡ false → NeverFails G.RelayAddressGenerator)
        → Processes (λ (name : Unit {0}). D.Disk) H.AuthHandler G.RelayAddressGenerator T.Time tt old parts tt new
        → EachImage (D.trace old).now (RepresentsAt form [] 0) → D.follows_crash_model new → LiveOn D.Disk form may_fail [] [] 0 parts new }

    // Where no moment is before one that any process submitted earlier, all of it is one run, too: what was handed out is what its
    // arrivals were answered, each by the setting of its process, and the disk keeps it.
    ensures whole { (form : Form) (may_fail : Bool) (old new : D) (parts : List Part)
        → HaveLimits form parts → (may_fail ≡ false → NeverFails G.RelayAddressGenerator)
        → Processes (λ (name : Unit {0}). D.Disk) H.AuthHandler G.RelayAddressGenerator T.Time tt old parts tt new
        → EachImage (D.trace old).now (RepresentsAt form [] 0) → NeverFall 0 (inputs_of_all parts) → D.follows_crash_model new
        → AreOneRunOn D.Disk form may_fail parts new }

    // A process whose server reserves ports is followed by such processes.
    ensures reserves { (form : Form) (old next new : D) (part : Part) (parts : List Part) (sure : List Lasting) (recent : List Taken) (m : ℕ)
        → HaveLimits form (part ∷ parts)
        → (one : Process D.Disk D.Disk H.AuthHandler G.RelayAddressGenerator T.Time part.setting old part.inputs part.said next)
        → (rest : Processes (λ (name : Unit {0}). D.Disk) H.AuthHandler G.RelayAddressGenerator T.Time tt next parts tt new)
        → Leaves D.Disk form old sure recent m → D.follows_crash_model new → IsReserving one → AllReserve rest }
{}

/// The same of processes over a file, which each of them opens anew: a disk by the state in which the file was found then.
///
/// Clause `whole`, with `recovers` of `Server::open_as` for the table, is the claim: for every list of arrivals with moments that never
/// go back, stopped before, between or inside any disk write or sync, opening the store yields the allocation table of a prefix of
/// the accepted requests that holds every request whose success response was handed out; from there every arrival is answered as
/// RFC 8656, in this project's written profile, allows for that table. docs/PROOF.md goes through it word by word. Clause `lasts` has the
/// part about what was handed out, which needs no clock.
pub fn files_make_lives<
    F: FileExt + OpenFile,
    S: Start,
    H: AuthHandler,
    G: RelayAddressGenerator,
    T: Time,
>()
    // `file_of` is what the contracts of a disk over a file say, in whatever state the file was found.
    ensures crash_model { (disk : InFile) → ⟦<FileDisk<F, S> as Disk>⟧.follows_crash_model disk ↔ (file_of S.found).follows_crash_model disk }
    ensures trace { (disk : InFile) → ⟦<FileDisk<F, S> as Disk>⟧.trace disk ≡ (file_of S.found).trace disk }

    ensures lives { (form : Form) (may_fail : Bool) (first last : State) (old new : InFile) (parts : List Part) (sure : List Lasting)
        (recent : List Taken) (m : ℕ)
        → HaveLimits form parts → (may_fail ≡ false → NeverFails G.RelayAddressGenerator)
        → Processes file_of H.AuthHandler G.RelayAddressGenerator T.Time first old parts last new
        → Leaves (file_of first) form old sure recent m → (file_of last).follows_crash_model new
        → LiveOn (file_of last) form may_fail sure recent m parts new }

    ensures lasts { (form : Form) (may_fail : Bool) (first last : State) (old new : InFile) (parts : List Part)
        → HaveLimits form parts → (may_fail ≡ false → NeverFails G.RelayAddressGenerator)
        → Processes file_of H.AuthHandler G.RelayAddressGenerator T.Time first old parts last new
        → EachImage ((file_of first).trace old).now (RepresentsAt form [] 0) → (file_of last).follows_crash_model new
        → LiveOn (file_of last) form may_fail [] [] 0 parts new }

    ensures whole { (form : Form) (may_fail : Bool) (first last : State) (old new : InFile) (parts : List Part)
        → HaveLimits form parts → (may_fail ≡ false → NeverFails G.RelayAddressGenerator)
        → Processes file_of H.AuthHandler G.RelayAddressGenerator T.Time first old parts last new
        → EachImage ((file_of first).trace old).now (RepresentsAt form [] 0) → NeverFall 0 (inputs_of_all parts)
        → (file_of last).follows_crash_model new → AreOneRunOn (file_of last) form may_fail parts new }

    ensures reserves { (form : Form) (first mid last : State) (old next new : InFile) (part : Part) (parts : List Part) (sure : List Lasting)
        (recent : List Taken) (m : ℕ) → HaveLimits form (part ∷ parts)
        → (one : Process (file_of first) (file_of mid) H.AuthHandler G.RelayAddressGenerator T.Time part.setting old part.inputs part.said next)
        → (rest : Processes file_of H.AuthHandler G.RelayAddressGenerator T.Time mid next parts last new)
        → Leaves (file_of first) form old sure recent m → (file_of last).follows_crash_model new → IsReserving one → AllReserve rest }
{}
