//! A server over sockets that serves.

ghost use Rattle.std.specs.Prelude.{◌≡◌, ◌≤◌, ◌++◌, ℕ, IfOk, List, OnOk, false, is_none, is_ok, map, slice_index_or, true};
ghost use Rattle.std.specs.Result.{result_map_both};
ghost use Rattle.turn_disk.specs.Disk.{EachImageSince};
ghost use Rattle.turn_engine.specs.Calls as calls;
ghost use Rattle.turn_engine.specs.Relaying.{beside};
ghost use Rattle.turn_engine.specs.Runs.{BeginsWith, IsAtPlace, Place, accepted};
ghost use Rattle.turn_engine.specs.State.{emptied, now_of};
ghost use Rattle.turn_history.specs.History.{History};
ghost use Rattle.turn_sockets.specs.Moments.{IsMoment};
ghost use Rattle.turn_sockets.specs.Schedule.{with_all_ready};
ghost use Rattle.turn_step.specs.Answer.{Setting};
ghost use Rattle.turn_step.specs.Views.{sent_of};
ghost use Rattle.turn_store.specs.State.{form_of};
ghost use Rattle.turn_serving.specs.Events.{Does, flow_of};
ghost use Rattle.turn_serving.specs.Manner.{reads_of};
ghost use Rattle.turn_serving.specs.Reading.{AreRounds, MakesVisits};
ghost use Rattle.turn_serving.specs.Sending.{addresses_of, port_sockets};
ghost use Rattle.turn_serving.specs.Turns.{At, Never, Served};
ghost use Rattle.turn_serving.specs.Visits.{Round, begun_by};

use crate::error::TurnError;
use crate::listening::{Listening, Waiting};
use crate::manner::{Commits, Manner};
use crate::meanwhile::{Meanwhile, Traffic};
use crate::reader::{Reader, Tally};
use crate::relay_sockets::RelaySockets;
use crate::sending::send_all;
use crate::watch::{Silent, Watch};
use std::alloc::{Allocator, Global};
use std::marker::{Model, PhantomData};
use std::mem;
use std::time::Duration;
use turn_cred::AuthHandler;
use turn_disk::Disk;
use turn_engine::{CommitError, Server};
use turn_ports::RelayAddressGenerator;
use turn_sockets::{ListeningAddresses, Pace, SocketPorts, Time, moment_now};
use turn_step::{Arrival, Outgoing};
use turn_types::{Endpoint, Moment};

/// A server with its sockets, which takes turns.
pub struct Serving<
    D: Disk + Drop,
    H: AuthHandler + Drop,
    G: RelaySockets + Drop,
    A: Allocator + Copy = Global,
    W: Watch + Drop = Silent,
> {
    server: Server<D, H, G, A>,
    listening: Listening<W, A>,
    waiting: Waiting<A>,
    traffic: Traffic<A>,
    // What stands in the place of that while it is lent to a commit, where sockets are read beside commits.
    placeholder: Option<Traffic<A>>,
    manner: Manner,
    pace: Pace,
    // Whether data came since the last commit of requests that waited.
    has_data: bool,
    // Whether something was read in the last turn, and sockets may have more.
    is_busy: bool,
    // Whether a commit let the sockets be read.
    reads_beside: bool,
}

/// A server whose relay ports each have a socket.
pub type SocketServing<'a, D, H, R, A = Global, W = Silent> = Serving<
    D,
    H,
    SocketPorts<'a, R, A>,
    A,
    W,
>;

impl<
    D: Disk + Drop,
    H: AuthHandler + Drop,
    G: RelaySockets + Drop,
    A: Allocator + Copy,
    W: Watch + Drop,
> Model for Serving<D, H, G, A, W> {
    ghost use Rattle.std.specs.Coded.{codes};
    ghost use Rattle.turn_table.specs.State.{state_code};
    ghost use Rattle.turn_serving.specs.Events.{ServingState};
    ghost use Rattle.turn_serving.specs.Sending.{addresses_of};

    ghost Value = { ServingState D H G };

    ghost coded = { Prim.hlevel (codes, state_code) };

    ghost view = { λ s. record { server = s.server; backlog = s.traffic.intake.backlog; agenda = s.traffic.schedule; manner = s.manner; passed = s.traffic.intake.record.passed; addresses = addresses_of s.listening.sockets.items s.listening.own } };
}

// By hand: a derived drop is one step for each field in the proof of each caller.
impl<
    D: Disk + Drop,
    H: AuthHandler + Drop,
    G: RelaySockets + Drop,
    A: Allocator + Copy,
    W: Watch + Drop,
> Drop for Serving<D, H, G, A, W> {
    fn drop(self) {
        let Serving {
            server: _,
            listening: _,
            waiting: _,
            traffic: _,
            placeholder: _,
            manner: _,
            pace: _,
            has_data: _,
            is_busy: _,
            reads_beside: _,
        } = self;
    }
}

impl<
    D: Disk + Drop,
    H: AuthHandler + Drop,
    G: RelaySockets + Drop,
    A: Allocator + Copy,
    W: Watch + Drop,
> Serving<D, H, G, A, W> {
    pub(crate) fn new(
        server: Server<D, H, G, A>,
        listening: Listening<W, A>,
        waiting: Waiting<A>,
        traffic: Traffic<A>,
        placeholder: Option<Traffic<A>>,
        manner: Manner,
    ) -> Serving<D, H, G, A, W>
        ensures server { result.server ≡ server }
        ensures backlog { result.backlog ≡ traffic.intake.backlog }
        ensures passed { result.passed ≡ traffic.intake.record.passed }
        ensures addresses { result.addresses ≡ addresses_of listening.sockets.items listening.own }
        ensures manner { result.manner ≡ manner }
    {
        Serving {
            server,
            listening,
            waiting,
            traffic,
            placeholder,
            manner,
            pace: Pace::new(),
            has_data: false,
            is_busy: false,
            reads_beside: false,
        }
    }

    /// The first address that clients send to, with the port that the system chose if it was to choose one.
    pub fn local(&self) -> Endpoint
        ensures { result ≡ slice_index_or self.now.addresses.own.listening 0 result }
    {
        self.listening.own.listening.first()
    }

    /// The addresses that clients send to, likewise.
    pub fn locals(&self) -> &ListeningAddresses
        ensures { result.now ≡ self.now.addresses.own.listening }
    {
        &self.listening.own.listening
    }

    /// The server over the store.
    pub fn server(&self) -> &Server<D, H, G, A>
        ensures { result.now ≡ self.now.server }
    {
        &self.server
    }

    /// Ends the server, and returns its disk and its handler. The sockets are closed.
    pub fn close(self) -> (D, H)
        ensures disk { result.0 ≡ self.server.store.disk }
        ensures handler { result.1 ≡ self.server.machine.handler }
    {
        let Serving {
            server,
            listening: _,
            waiting: _,
            traffic: _,
            placeholder: _,
            manner: _,
            pace: _,
            has_data: _,
            is_busy: _,
            reads_beside: _,
        } = self;
        let (disk, handler, _) = server.close();
        (disk, handler)
    }

    // ---- Reading

    // The moment that it is now. The watch sees the table before it is brought there.
    fn moment<T: Time>(&self, system: &T) -> Result<Moment, TurnError>
        ensures is_one { IfOk result (λ moment. IsMoment (T.told system.now) (now_of self.now.server) moment) }
        ensures late { IfOk result (λ moment. now_of self.now.server ≤ moment) }
    {
        let moment = moment_now(system, self.server.clock()).ok_or(TurnError::Clock)?;
        self.listening.watch.taking(moment, self.server.table());
        Ok(moment)
    }

    // Reads the machine's addresses again, if it is time.
    fn refresh(&mut self, moment: Moment)
        ensures { self.new ≡ self.old }
    {
        self.listening.refresh(self.server.ports(), moment);
    }

    // Looks which sockets got a datagram, for so long if there is none, and begins a round.
    fn begin_round(&mut self, timeout: Duration) -> Result<(), TurnError>
        ensures begun { OnOk result ((ready : List ℕ) × (self.new.agenda ≡ begun_by self.old.manner.commits (with_all_ready self.old.agenda ready))) }
        ensures rest { self.new ≡ record self.old { agenda = self.new.agenda } }
    {
        let reader = Reader {
            listening: &self.listening,
            manner: self.manner,
        };
        reader.begin(&mut self.waiting, &mut self.traffic.schedule, timeout)
    }

    // Reads sockets to the end of the round that began, at the server's clock.
    fn read_round(&mut self) -> Result<Tally, TurnError>
        ensures visits { MakesVisits H.AuthHandler G.RelayAddressGenerator (port_sockets G.has_socket G.bound) self.old.addresses (reads_of self.old.manner)
            (beside self.old.server) (is_ok result) self.old.agenda (flow_of self.old) self.new.agenda (flow_of self.new) }
        ensures rest { self.new ≡ record self.old { backlog = self.new.backlog; agenda = self.new.agenda; passed = self.new.passed } }
    {
        let reader = Reader {
            listening: &self.listening,
            manner: self.manner,
        };
        let Traffic { schedule, intake } = &mut self.traffic;
        reader.round(&self.server.beside(), intake, schedule)
    }

    // Looks which sockets got a datagram, for so long if there is none, brings the table to the moment, and reads them.
    fn take_round<T: Time>(&mut self, system: &T, timeout: Duration) -> Result<Tally, TurnError>
        requires runs { self.old.server.store.stopped ≡ false }
        ensures does { Does D.Disk H.AuthHandler G.RelayAddressGenerator (port_sockets G.has_socket G.bound) (IsMoment (T.told system.now)) 1 (is_ok result) self.old self.new }
        ensures current { OnOk result (IsMoment (T.told system.now) (now_of self.old.server) (now_of self.new.server)) }
        ensures idle { self.old.server ≡ emptied self.old.server self.old.server.store
            → OnOk result (self.new.server ≡ emptied self.new.server self.new.server.store) }
        ensures store { self.new.server.store ≡ self.old.server.store }
        ensures manner { self.new.manner ≡ self.old.manner }
    {
        self.begin_round(timeout)?;
        let moment = self.moment(system)?;
        self.refresh(moment);
        self.server.advance(moment);
        self.read_round()
    }

    // For how long nothing is to be done unless a datagram comes.
    fn rest<T: Time>(&self, system: &T) -> Duration {
        let patience = self.manner.patience();
        if self.traffic.intake.backlog.is_empty() {
            return patience;
        }
        // What is there is read before the next commit, or the pause is over.
        if !self.has_data && !self.is_busy {
            return Duration::ZERO;
        }
        // Without a clock nothing waits.
        match system.monotonic() {
            Ok(now) => self.pace.rest(now).min(patience),
            Err(_) => Duration::ZERO,
        }
    }

    // Takes what there is, and if there is nothing, what comes first.
    fn take_each<T: Time>(&mut self, system: &T) -> Result<Tally, TurnError>
        requires runs { self.old.server.store.stopped ≡ false }
        ensures does { Does D.Disk H.AuthHandler G.RelayAddressGenerator (port_sockets G.has_socket G.bound) (IsMoment (T.told system.now)) 1 (is_ok result) self.old self.new }
        ensures current { OnOk result (IsMoment (T.told system.now) (now_of self.old.server) (now_of self.new.server)) }
        ensures idle { self.old.server ≡ emptied self.old.server self.old.server.store
            → OnOk result (self.new.server ≡ emptied self.new.server self.new.server.store) }
        ensures store { self.new.server.store ≡ self.old.server.store }
        ensures manner { self.new.manner ≡ self.old.manner }
    {
        let tally = self.take_round(system, Duration::ZERO)?;
        if tally.any {
            return Ok(tally);
        }
        self.take_round(system, self.manner.patience())
    }

    // Takes what comes, if nothing is there as soon as it comes.
    fn take<T: Time>(&mut self, system: &T) -> Result<Tally, TurnError>
        requires runs { self.old.server.store.stopped ≡ false }
        ensures does { Does D.Disk H.AuthHandler G.RelayAddressGenerator (port_sockets G.has_socket G.bound) (IsMoment (T.told system.now)) 1 (is_ok result) self.old self.new }
        ensures current { OnOk result (IsMoment (T.told system.now) (now_of self.old.server) (now_of self.new.server)) }
        ensures idle { self.old.server ≡ emptied self.old.server self.old.server.store
            → OnOk result (self.new.server ≡ emptied self.new.server self.new.server.store) }
        ensures store { self.new.server.store ≡ self.old.server.store }
        ensures manner { self.new.manner ≡ self.old.manner }
    {
        match self.manner.commits {
            Commits::EachTurn => self.take_each(system),
            Commits::Paced => {
                let rest = if self.is_busy {
                    Duration::ZERO
                } else {
                    self.rest(system)
                };
                self.take_round(system, rest)
            }
        }
    }

    // ---- Requests that wait

    // Submits the next datagram that waits. False if none waits, or the batch is full. One that is refused for memory is dropped.
    fn submit_next(&mut self, moment: Moment) -> bool
        requires in_time { now_of self.old.server ≤ moment }
        ensures does { Does D.Disk H.AuthHandler G.RelayAddressGenerator (port_sockets G.has_socket G.bound) (At moment) 0 true self.old self.new }
        ensures in_time { now_of self.new.server ≤ moment }
        ensures store { self.new.server.store ≡ self.old.server.store }
        ensures manner { self.new.manner ≡ self.old.manner }
    {
        if self.server.room() == 0 {
            return false;
        }
        let Some((five_tuple, bytes)) = self.traffic.intake.backlog.pop() else {
            return false;
        };
        let arrival = Arrival::Client {
            five_tuple,
            bytes: bytes.as_slice(),
        };
        self.listening
            .watch
            .submitted(self.server.table(), &arrival);
        let _ = self.server.submit(moment, &arrival);
        true
    }

    // Submits datagrams that wait, at one moment, until none waits or the batch is full. Returns how many.
    fn submit_waiting<T: Time>(&mut self, system: &T) -> Result<u16, TurnError>
        ensures does { Does D.Disk H.AuthHandler G.RelayAddressGenerator (port_sockets G.has_socket G.bound) (IsMoment (T.told system.now)) 0 (is_ok result) self.old self.new }
        ensures store { self.new.server.store ≡ self.old.server.store }
        ensures manner { self.new.manner ≡ self.old.manner }
    {
        let moment = self.moment(system)?;
        let room = self.server.room();
        for count in 0..room {
            if !self.submit_next(moment) {
                return Ok(count);
            }
        }
        Ok(room)
    }

    // If turns are paced, several datagrams were submitted, and the batch has room for more, reads what came meanwhile and submits what of
    // that waits: it would wait for the same commit anyway. Not over a disk that lets the sockets be read.
    fn share_batch<T: Time>(&mut self, system: &T, count: u16) -> Result<(), TurnError>
        requires runs { self.old.server.store.stopped ≡ false }
        requires current { IsMoment (T.told system.now) (now_of self.old.server) (now_of self.old.server) }
        ensures does { Does D.Disk H.AuthHandler G.RelayAddressGenerator (port_sockets G.has_socket G.bound) (IsMoment (T.told system.now)) 0 (is_ok result) self.old self.new }
        ensures store { self.new.server.store ≡ self.old.server.store }
        ensures manner { self.new.manner ≡ self.old.manner }
    {
        if self.manner.commits == Commits::EachTurn
            || count < 2
            || self.server.room() == 0
            || self.reads_beside
        {
            return Ok(());
        }
        self.begin_round(Duration::ZERO)?;
        self.read_round()?;
        self.submit_waiting(system)?;
        Ok(())
    }

    // ---- Commits

    // Commits what is staged. While the disk is waited for, the sockets are read, where they are read beside commits. Returns what is to be
    // sent too, and the first failure of a wait.
    fn commit_beside(&mut self) -> (Result<Vec<Outgoing<A>, A>, CommitError>, Option<TurnError>)
        ensures call { calls.Commits D.Disk self.old.server self.new.server (result_map_both (λ outs. map sent_of outs.items) (λ fault. fault) result.0) }
        ensures reads { (rounds : List Round) × AreRounds H.AuthHandler G.RelayAddressGenerator (port_sockets G.has_socket G.bound) self.old.addresses self.old.manner
            (beside self.old.server) (is_none result.1) rounds self.old.agenda (flow_of self.old) self.new.agenda (flow_of self.new) }
        ensures rest { self.new ≡ record self.old { server = self.new.server; backlog = self.new.backlog; agenda = self.new.agenda; passed = self.new.passed } }
    {
        let Some(placeholder) = self.placeholder.take() else {
            return (self.server.commit(), None);
        };
        let meanwhile = Meanwhile::<'_, D, W, A> {
            reader: Reader {
                listening: &self.listening,
                manner: self.manner,
            },
            waiting: &mut self.waiting,
            traffic: mem::replace(&mut self.traffic, placeholder),
            is_asked: false,
            fault: None,
            marker: PhantomData,
        };
        let (committed, meanwhile) = self.server.commit_while(meanwhile);
        let Meanwhile {
            reader: _,
            waiting: _,
            traffic,
            is_asked,
            fault,
            marker: _,
        } = meanwhile;
        self.placeholder = Some(mem::replace(&mut self.traffic, traffic));
        self.reads_beside |= is_asked;
        (committed, fault)
    }

    // Notes how long a commit took. One beside which the sockets were read held up no data, so that there is no pause after it, and what it
    // left unread is read in the next turn, which doesn't wait then.
    fn note_commit(&mut self, began: Option<Duration>, ended: Option<Duration>)
        ensures { self.new ≡ self.old }
    {
        self.has_data = false;
        if self.reads_beside {
            self.is_busy |= !self.traffic.schedule.is_empty();
            self.pace.note(None, ended);
        } else {
            self.pace.note(began, ended);
        }
        if let (Some(began), Some(ended)) = (began, ended) {
            let took = ended.saturating_sub(began);
            self.listening.watch.committed(self.server.clock(), took);
        }
    }

    // Commits what is staged, sends what that hands out, and notes how long it took.
    fn commit_staged<T: Time>(&mut self, system: &T) -> Result<(), TurnError>
        requires runs { self.old.server.store.stopped ≡ false }
        requires current { IsMoment (T.told system.now) (now_of self.old.server) (now_of self.old.server) }
        ensures does { Does D.Disk H.AuthHandler G.RelayAddressGenerator (port_sockets G.has_socket G.bound) (IsMoment (T.told system.now)) 0 (is_ok result) self.old self.new }
        ensures done { OnOk result (self.new.server ≡ emptied self.old.server self.new.server.store) }
        ensures runs { OnOk result (self.new.server.store.stopped ≡ false) }
        ensures manner { self.new.manner ≡ self.old.manner }
    {
        let began = system.monotonic().ok();
        let (committed, fault) = self.commit_beside();
        let outgoing = committed?;
        let ended = system.monotonic().ok();
        send_all(
            &self.listening,
            &self.server,
            &mut self.traffic.intake.record,
            &outgoing,
        );
        self.note_commit(began, ended);
        match fault {
            Some(fault) => Err(fault),
            None => Ok(()),
        }
    }

    // Submits a batch of the datagrams that wait, and commits it.
    fn commit_waiting<T: Time>(&mut self, system: &T) -> Result<(), TurnError>
        requires runs { self.old.server.store.stopped ≡ false }
        requires current { IsMoment (T.told system.now) (now_of self.old.server) (now_of self.old.server) }
        ensures does { Does D.Disk H.AuthHandler G.RelayAddressGenerator (port_sockets G.has_socket G.bound) (IsMoment (T.told system.now)) 0 (is_ok result) self.old self.new }
        ensures done { OnOk result (self.new.server ≡ emptied self.new.server self.new.server.store) }
        ensures runs { OnOk result (self.new.server.store.stopped ≡ false) }
        ensures manner { self.new.manner ≡ self.old.manner }
    {
        let count = self.submit_waiting(system)?;
        self.share_batch(system, count)?;
        self.commit_staged(system)
    }

    // Whether what waits is committed now.
    fn is_due<T: Time>(&self, system: &T) -> bool {
        if self.traffic.intake.backlog.is_empty() {
            return false;
        }
        match self.manner.commits {
            Commits::EachTurn => true,
            Commits::Paced => self.rest(system) == Duration::ZERO,
        }
    }

    // Commits what waits, if it is due: a batch of it, or all.
    fn commit_due<T: Time>(&mut self, system: &T) -> Result<(), TurnError>
        requires runs { self.old.server.store.stopped ≡ false }
        requires current { IsMoment (T.told system.now) (now_of self.old.server) (now_of self.old.server) }
        ensures does { Does D.Disk H.AuthHandler G.RelayAddressGenerator (port_sockets G.has_socket G.bound) (IsMoment (T.told system.now)) 0 (is_ok result) self.old self.new }
        ensures done { self.old.server ≡ emptied self.old.server self.old.server.store
            → OnOk result (self.new.server ≡ emptied self.new.server self.new.server.store) }
        ensures runs { OnOk result (self.new.server.store.stopped ≡ false) }
        ensures manner { self.new.manner ≡ self.old.manner }
    {
        let most = match self.manner.commits {
            Commits::EachTurn => u16::MAX,
            Commits::Paced => 1,
        };
        for _commit in 0..most {
            if !self.is_due(system) {
                return Ok(());
            }
            self.commit_waiting(system)?;
        }
        Ok(())
    }

    // ---- Turns

    // Commits what an earlier turn left staged, if it did.
    fn commit_left(&mut self) -> Result<(), TurnError>
        ensures does { Does D.Disk H.AuthHandler G.RelayAddressGenerator (port_sockets G.has_socket G.bound) Never 0 (is_ok result) self.old self.new }
        ensures idle { OnOk result (self.new.server ≡ emptied self.new.server self.new.server.store) }
        ensures runs { OnOk result (self.new.server.store.stopped ≡ false) }
        ensures clock { now_of self.new.server ≡ now_of self.old.server }
        ensures manner { self.new.manner ≡ self.old.manner }
    {
        if self.server.is_stopped() {
            return Err(TurnError::Commit(CommitError::Stopped));
        }
        if self.server.is_idle() {
            return Ok(());
        }
        let outgoing = self.server.commit()?;
        send_all(
            &self.listening,
            &self.server,
            &mut self.traffic.intake.record,
            &outgoing,
        );
        Ok(())
    }

    /// One turn: reads sockets that have datagrams, and sends at once what rests on nothing that isn't stored; then commits what waits,
    /// as `Commits` says, and sends what came of it. The moment is the system's second, or the server's clock if that is later.
    ///
    /// Nothing is sent that rests on what was not committed. After a commit that failed each later turn fails.
    pub fn turn<T: Time>(&mut self, system: &T) -> Result<(), TurnError>
        // What happened at the server and at its sockets, event by event, and nothing else; in one round at least if it ended well.
        ensures does { Does D.Disk H.AuthHandler G.RelayAddressGenerator (port_sockets G.has_socket G.bound) (IsMoment (T.told system.now)) 1 (is_ok result) self.old self.new }
        // So calls of the server, each within its contract.
        ensures served { Served D.Disk H.AuthHandler G.RelayAddressGenerator (IsMoment (T.told system.now)) self.old.server self.new.server }
        ensures clock { now_of self.old.server ≤ now_of self.new.server }
        // Whatever came, the table is brought to a second that the system told, if that isn't before it.
        ensures current { OnOk result (IsMoment (T.told system.now) (now_of self.old.server) (now_of self.new.server)) }
        // Nothing is left staged.
        ensures done { OnOk result (self.new.server ≡ emptied self.new.server self.new.server.store) }
        ensures runs { OnOk result (self.new.server.store.stopped ≡ false) }
        ensures addresses { self.new.addresses ≡ self.old.addresses }
        ensures manner { self.new.manner ≡ self.old.manner }
        // Whatever run the server is in, at every moment of the turn each image represents a history that begins with what was
        // handed out before.
        ensures stop { (s : Setting) (h : History) (t : ℕ) (p : Place) → IsAtPlace D.Disk H.AuthHandler G.RelayAddressGenerator s h t self.old.server p
            → D.follows_crash_model self.new.server.store.disk → EachImageSince (D.trace self.old.server.store.disk) (D.trace self.new.server.store.disk)
            (BeginsWith (form_of self.old.server.store) (h ++ accepted p.handed) (now_of self.new.server)) }
    {
        self.commit_left()?;
        let tally = self.take(system)?;
        self.has_data |= tally.data;
        self.is_busy = tally.any && !self.traffic.schedule.is_empty();
        self.commit_due(system)
    }

    /// So many turns, one after the other, or up to the first that fails.
    ///
    /// ```rust
    /// serving.turns(&clock, 2)?;
    /// assert!(rt; serving.server().table().is_empty());
    /// let (disk, _) = serving.close();
    /// assert_eq!(rt; disk.size(), 64 + 2 * least_area(Limits::MAX));
    /// ```
    pub fn turns<T: Time>(&mut self, system: &T, count: u64) -> Result<(), TurnError>
        // No turn leaves all as it was; one turn or more that ended well are what one is, in as many rounds at least.
        ensures none { count ≡ 0 → self.new ≡ self.old }
        ensures does { Does D.Disk H.AuthHandler G.RelayAddressGenerator (port_sockets G.has_socket G.bound) (IsMoment (T.told system.now)) count (is_ok result) self.old self.new }
        ensures served { Served D.Disk H.AuthHandler G.RelayAddressGenerator (IsMoment (T.told system.now)) self.old.server self.new.server }
        ensures clock { now_of self.old.server ≤ now_of self.new.server }
        ensures current { 1 ≤ count → OnOk result (IsMoment (T.told system.now) (now_of self.old.server) (now_of self.new.server)) }
        ensures done { 1 ≤ count → OnOk result (self.new.server ≡ emptied self.new.server self.new.server.store) }
        ensures runs { 1 ≤ count → OnOk result (self.new.server.store.stopped ≡ false) }
        ensures addresses { self.new.addresses ≡ self.old.addresses }
        ensures manner { self.new.manner ≡ self.old.manner }
        // Whatever run the server is in, at every moment of the turns each image represents a history that begins with what was
        // handed out before.
        ensures stop { (s : Setting) (h : History) (t : ℕ) (p : Place) → IsAtPlace D.Disk H.AuthHandler G.RelayAddressGenerator s h t self.old.server p
            → D.follows_crash_model self.new.server.store.disk → EachImageSince (D.trace self.old.server.store.disk) (D.trace self.new.server.store.disk)
            (BeginsWith (form_of self.old.server.store) (h ++ accepted p.handed) (now_of self.new.server)) }
    {
        for turned in 0..count {
            self.turn(system)?;
        }
        Ok(())
    }
}
