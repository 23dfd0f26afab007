//! The server.

ghost use Rattle.std.specs.Prelude.{◌≡◌, ◌≢◌, ◌+◌, ◌-◌, ◌^◌, ◌≤◌, ◌<◌, ◌↔◌, ◌++◌, ℕ, Bool, [], ◌∷◌, Ok, Err, Some, None, IsOk, IfOk, IfErr, IfSome, IfNone, IsTrue, OnOk, OnErr, true, false, length, map, take, drop, option_map, vec_len, vec_capacity, List};
ghost use Rattle.std.specs.Option.{option_to_list};
ghost use Rattle.std.specs.Result.{result_map_both};
ghost use Rattle.turn_disk.specs.Device.{Uses};
ghost use Rattle.turn_disk.specs.Disk.{EachImageSince};
ghost use Rattle.turn_disk.specs.Meanwhile.{Passes};
ghost use Rattle.turn_history.specs.Fitting.{IsInRange};
ghost use Rattle.turn_history.specs.History.{Event, History};
ghost use Rattle.turn_ports.specs.Ports.{has_failed};
ghost use Rattle.turn_record.specs.Bytes as bytes;
ghost use Rattle.turn_record.specs.Records.{Holds, Writes};
ghost use Rattle.turn_step.specs.Outcome.{added, event_at};
ghost use Rattle.turn_step.specs.State.{CountsOne, HoldsPorts, IsPurged, KeepsSetting, setting_of};
ghost use Rattle.turn_step.specs.Views.{arrival_of, is_reserved, sent_of};
ghost use Rattle.turn_store.specs.Areas.{Form};
ghost use Rattle.turn_store.specs.Carrying.{Carries};
ghost use Rattle.turn_store.specs.Images.{EachImage, EitherBy, RepresentsBy};
ghost use Rattle.turn_store.specs.Opened.{IsOpened};
ghost use Rattle.turn_store.specs.Opening as stores;
ghost use Rattle.turn_store.specs.Refused.{IsPlain, WhyRefused};
ghost use Rattle.turn_store.specs.Stages.{InStages};
ghost use Rattle.turn_store.specs.State.{form_of};
ghost use Rattle.turn_store.specs.Tables.{snapshot_of};
ghost use Rattle.turn_engine.specs.Calls.{Advances, Commits, Opening, Submits, committed, disk_after};
ghost use Rattle.turn_engine.specs.Images.{AtLeast};
ghost use Rattle.turn_engine.specs.Recovering.{Opens, RecoversTo, Takes, tuples_of};
ghost use Rattle.turn_engine.specs.Relaying.{beside};
ghost use Rattle.turn_engine.specs.State.{emptied, has_pairs, limits_of, now_of};

use crate::batch::Batch;
use crate::beside::Beside;
use crate::error::{ServerOpenError, SubmitError};
use crate::meanwhile::{Lending, WhileCommitting};
use std::alloc::{AllocError, Allocator, Global};
use std::marker::Model;
use std::mem;
use turn_cred::AuthHandler;
use turn_disk::{Disk, Idle};
use turn_ports::RelayAddressGenerator;
use turn_record::Version;
use turn_step::{Arrival, Machine, MachineError, Outgoing, Pairs, Step};
use turn_store::{Info, OpenError, Opened, Store, StoreError, StoreOpenError};
use turn_table::Table;
use turn_types::{Moment, ServerConfig};

/// A TURN server over a disk.
///
/// `submit` takes an arrival: it is answered from all that was accepted so far, and what is to be sent is staged. `commit`
/// writes the acts that were accepted since the last commit, and returns what is staged. So nothing is sent before what it
/// rests on is on the disk. After a commit that failed each call answers `Stopped`.
pub struct Server<D: Disk, H: AuthHandler, G: RelayAddressGenerator, A: Allocator = Global> {
    alloc: A,
    store: Store<D, A>,
    machine: Machine<H, G, A>,
    batch: Batch<A>,
    outgoing: Vec<Outgoing<A>, A>,
    // How many arrivals were taken since the last commit.
    arrivals: u16,
    // The moment of the first of them.
    since: Moment,
}

// By hand: a derived drop is one step for each field in the proof of each caller.
impl<D: Disk + Drop, H: AuthHandler + Drop, G: RelayAddressGenerator + Drop, A: Allocator> Drop
    for Server<D, H, G, A> {
    fn drop(self) {
        let Server {
            alloc: _,
            store: _,
            machine: _,
            batch: _,
            outgoing: _,
            arrivals: _,
            since: _,
        } = self;
    }
}

impl<D: Disk, H: AuthHandler, G: RelayAddressGenerator, A: Allocator> Model for Server<D, H, G, A> {
    ghost use Rattle.std.specs.Prelude.{map};
    ghost use Rattle.std.specs.Coded.{codes};
    ghost use Rattle.turn_step.specs.Views.{sent_of};
    ghost use Rattle.turn_table.specs.State.{state_code};
    ghost use Rattle.std.specs.Prelude.{◌≡◌};
    ghost use Rattle.turn_engine.specs.State.{IsEmpty, IsSound, ServerState};

    ghost Value = { ServerState D H G };

    ghost coded = { Prim.hlevel (codes, state_code) };

    ghost view = { λ s. record {
      store = s.store;
      machine = s.machine;
      payload = s.batch.payload;
      acts = s.batch.acts;
      tuples = s.batch.tuples;
      outs = map sent_of s.outgoing.items;
      arrivals = s.arrivals;
      since = s.since;
    } };

    ghost invariant = { λ s. IsSound s.machine.config.limits s.store.bounds s.batch.bounds s.store.version s.batch.version s.batch.acts s.arrivals s.machine.pairs s.machine.table
        × (s.arrivals ≡ 0 → IsEmpty s.batch.payload s.batch.tuples (map sent_of s.outgoing.items)) };
}

/// Whether a server over a store of this version reserves ports.
fn pairs_of(version: Version) -> Pairs
    ensures { is_reserved result ≡ has_pairs version }
{
    match version {
        Version::V1 => Pairs::Refused,
        Version::V2 => Pairs::Reserved,
    }
}

/// Adds the act of a step, which the batch's version can hold, to a batch that has room for it.
fn stage_act<A: Allocator>(batch: &mut Batch<A>, moment: Moment, step: &Step<A>)
    requires few { batch.old.acts < batch.old.bounds.acts }
    requires in_range { IfSome step.now.change (λ c. IsInRange batch.old.bounds (event_at moment c)) }
    requires writes { IfSome step.now.change (λ c. Writes batch.old.version c.act) }
    ensures bounds { batch.new.bounds ≡ batch.old.bounds }
    ensures version { batch.new.version ≡ batch.old.version }
    ensures acts { batch.new.acts ≡ batch.old.acts + length (added moment step.now.change) }
    ensures tuples { batch.new.tuples ≡ batch.old.tuples ++ tuples_of (added moment step.now.change) }
    ensures payload { (es : List Event) → batch.old.payload ≡ bytes.payload es
        → batch.new.payload ≡ bytes.payload (es ++ added moment step.now.change) }
{
    if let Some((five_tuple, act)) = step.act() {
        batch.push(moment, five_tuple, act);
    }
}

/// Adds a datagram, if there is one, for which there is room.
fn stage_datagram<A: Allocator>(outgoing: &mut Vec<Outgoing<A>, A>, datagram: Option<Outgoing<A>>)
    requires room { vec_len outgoing.old + 1 ≤ vec_capacity outgoing.old }
    ensures { map sent_of outgoing.new.items ≡ map sent_of outgoing.old.items ++ option_to_list (option_map sent_of datagram) }
{
    if let Some(datagram) = datagram {
        let Ok(()) = outgoing.push(datagram) else {
            unreachable!()
        };
    }
}

/// The moment of the first of the arrivals that are staged, once one of this moment is added to so many.
fn first_moment(arrivals: u16, since: Moment, moment: Moment) -> Moment
    ensures first { arrivals ≡ 0 → result ≡ moment }
    ensures later { 1 ≤ arrivals → result ≡ since }
{
    if arrivals == 0 { moment } else { since }
}

impl<D: Disk, H: AuthHandler, G: RelayAddressGenerator, A: Allocator + Copy> Server<D, H, G, A> {
    /// A server over a store that was opened, with nothing staged. It reserves ports exactly where the store is of version 2. A refusal, for
    /// memory, returns the disk, the handler and the generator.
    pub fn over(
        alloc: A,
        opened: Opened<D, A>,
        config: ServerConfig<A>,
        handler: H,
        ports: G,
    ) -> Result<Server<D, H, G, A>, ServerOpenError<D, H, G>>
        requires bounds { (opened.store.bounds ≡ config.limits) × (opened.table.bounds ≡ config.limits) }
        requires holds { Holds opened.store.version opened.table.contents }
        ensures ok { IfOk result (λ s. s ≡ record {
          store = opened.store;
          machine = record { config = config; handler = handler; ports = ports; table = opened.table; pairs = has_pairs opened.store.version };
          payload = 0 ∷ [];
          acts = 0;
          tuples = [];
          outs = [];
          arrivals = 0;
          since = opened.table.moment;
        }) }
        ensures err { IfErr result (λ r. r ≡ record { fault = OpenError.Memory; disk = opened.store.disk; handler = handler; ports = ports }) }

        ensures disk { disk_after result ≡ opened.store.disk }

        // It comes of a disk as the opening of the store did.
        ensures call { (old : D) (carry : Bool) → stores.Opening D.Disk old config.limits carry (Ok opened)
            → Opening D.Disk old config handler ports result }
    {
        let Opened { store, table } = opened;
        let version = store.info().version;
        let since = table.moment();
        let Ok(batch) = Batch::new(alloc, version, config.limits()) else {
            return Err(ServerOpenError {
                fault: OpenError::Memory,
                disk: store.into_disk(),
                handler,
                ports,
            });
        };
        match Machine::new(alloc, config, handler, ports, table, pairs_of(version)) {
            Ok(machine) => Ok(Server {
                alloc,
                store,
                machine,
                batch,
                outgoing: Vec::new(alloc),
                arrivals: 0,
                since,
            }),
            Err(MachineError { handler, ports }) => Err(ServerOpenError {
                fault: OpenError::Memory,
                disk: store.into_disk(),
                handler,
                ports,
            }),
        }
    }

    /// Opens the store of a disk, which was formatted with the limits of the configuration, as `Store::open_as` does, and makes a server
    /// over it. A refusal returns the disk, the handler and the generator.
    pub fn open_as(
        alloc: A,
        disk: D,
        config: &ServerConfig<A>,
        handler: H,
        ports: G,
        carry: bool,
    ) -> Result<Server<D, H, G, A>, ServerOpenError<D, H, G>>
        ensures call { Opening D.Disk disk config.now handler ports result }

        // Exactly a store of version 1 is carried over whose areas have room for version 2, and which isn't worn. Where nothing is to be
        // carried over the content stays.
        ensures carried { IfOk result (λ s. D.follows_crash_model s.store.disk → Carries carry (D.trace disk).now.bytes s.store) }
        ensures same { carry ≡ false → D.follows_crash_model (disk_after result)
            → (D.trace (disk_after result)).now.bytes ≡ (D.trace disk).now.bytes }
    {
        let limits = config.limits();
        let Ok(config) = config.try_clone(alloc) else {
            return Err(ServerOpenError {
                fault: OpenError::Memory,
                disk,
                handler,
                ports,
            });
        };
        let opened = match Store::open_as(alloc, disk, limits, carry) {
            Ok(opened) => opened,
            Err(StoreOpenError { fault, disk }) => {
                return Err(ServerOpenError {
                    fault,
                    disk,
                    handler,
                    ports,
                });
            }
        };
        Server::over(alloc, opened, config, handler, ports)
    }

    /// Opens the store of a disk as `open_as` does, and carries it over to version 2 if it can be.
    ///
    /// ```rust
    /// let server = match Server::open(alloc, disk, &config, users, ports) {
    ///     Ok(server) => server,
    ///     Err(refused) => bail!("not opened: {}", refused.fault),
    /// };
    /// assert!(rt; server.table().is_empty() && server.clock().seconds() == 0);
    /// ```
    pub fn open(
        alloc: A,
        disk: D,
        config: &ServerConfig<A>,
        handler: H,
        ports: G,
    ) -> Result<Server<D, H, G, A>, ServerOpenError<D, H, G>>
        ensures call { Opening D.Disk disk config.now handler ports result }
        ensures carried { IfOk result (λ s. D.follows_crash_model s.store.disk → Carries true (D.trace disk).now.bytes s.store) }
    {
        Server::open_as(alloc, disk, config, handler, ports, true)
    }

    // Why an arrival is refused before anything is done for it.
    fn refusal(&self) -> Option<SubmitError>
        ensures stopped { (result ≡ Some SubmitError.Stopped) ↔ (self.now.store.stopped ≡ true) }
        ensures full { (result ≡ Some SubmitError.BatchFull)
            ↔ ((self.now.store.stopped ≡ false) × (self.now.arrivals ≡ (limits_of self.now).acts)) }
        ensures memory { result ≢ Some SubmitError.Memory }
        ensures none { IfNone result (self.now.arrivals < (limits_of self.now).acts) }
        ensures few { self.now.arrivals ≤ (limits_of self.now).acts }
        ensures small { IfNone result (self.now.arrivals + 1 < 2 ^ 16) }
        ensures room { 1 ≤ (limits_of self.now).acts }
    {
        let room = self.machine.config().limits().acts();
        if self.store.is_stopped() {
            return Some(SubmitError::Stopped);
        }
        let is_full = self.arrivals >= room;
        if is_full {
            return Some(SubmitError::BatchFull);
        }
        None
    }

    // Takes an arrival, for which the batch has room.
    fn take(&mut self, moment: Moment, arrival: &Arrival<'_>) -> Result<(), AllocError>
        requires clock { now_of self.old ≤ moment }
        requires room { self.old.arrivals < (limits_of self.old).acts }
        requires small { self.old.arrivals + 1 < 2 ^ 16 }

        ensures store { self.new.store ≡ self.old.store }
        ensures clock { now_of self.new ≡ moment }
        ensures setting { KeepsSetting G.range self.old.machine self.new.machine }
        ensures count { CountsOne (G.failures self.old.machine.ports) (G.failures self.new.machine.ports) }
        ensures held { HoldsPorts G.holds self.old.machine None → HoldsPorts G.holds self.new.machine None }
        ensures arrivals { OnOk result (self.new.arrivals ≡ self.old.arrivals + 1) }
        ensures since { OnOk result (self.old.arrivals ≡ 0 → self.new.since ≡ moment) }
        ensures since_kept { OnOk result (1 ≤ self.old.arrivals → self.new.since ≡ self.old.since) }
        ensures ok { (h : History) (k : ℕ) → RecoversTo (D.trace self.old.store.disk).now self.old h k
            → OnOk result (Takes (setting_of H.key_of G.range self.old.machine) (D.trace self.old.store.disk).now self.old self.new h k moment
            (has_failed (G.failures self.old.machine.ports) (G.failures self.new.machine.ports)) (arrival_of arrival.now)) }
        ensures memory { OnErr result (self.new ≡ record self.old { machine = self.new.machine }) }
        ensures memory_table { OnErr result (IsPurged moment self.old.machine.table self.new.machine.table) }
        ensures memory_rests { (h : History) (k : ℕ) → RecoversTo (D.trace self.old.store.disk).now self.old h k
            → OnErr result (RecoversTo (D.trace self.old.store.disk).now self.new h k) }
    {
        // Room for the whole batch, so that its list is one allocation.
        let left = self.machine.config().limits().acts() - self.arrivals;
        let step = self.machine.prepare(moment, arrival)?;
        if self.outgoing.reserve(usize::from(left)).is_err() {
            self.machine.abandon(step);
            return Err(AllocError);
        }
        stage_act(&mut self.batch, moment, &step);
        let datagram = self.machine.apply(step);
        stage_datagram(&mut self.outgoing, datagram);
        self.since = first_moment(self.arrivals, self.since, moment);
        self.arrivals += 1;
        Ok(())
    }

    /// Takes an arrival at a moment that isn't before the clock.
    ///
    /// ```rust
    /// let arrival = Arrival::Client { five_tuple, bytes: &allocate };
    /// if server.clock() <= moment {
    ///     server.submit(moment, &arrival)?;
    /// }
    /// assert!(rt; server.clock() == moment && server.table().has_port(50000));
    /// ```
    pub fn submit(&mut self, moment: Moment, arrival: &Arrival<'_>) -> Result<(), SubmitError>
        requires { now_of self.old ≤ moment }
        ensures call { Submits D.Disk H.AuthHandler G.RelayAddressGenerator self.old self.new moment (arrival_of arrival.now) result }
    {
        if let Some(refused) = self.refusal() {
            return Err(refused);
        }
        self.take(moment, arrival)?;
        Ok(())
    }

    /// Brings the clock to a moment that isn't before it: what has expired by then ends, and its ports are released. Nothing is staged, and
    /// there is no device call; a stopped server does it too.
    ///
    /// ```rust
    /// server.submit(moment, &Arrival::Client { five_tuple, bytes: &allocate })?;
    /// let later = Moment::new(2000).context("later")?;
    /// server.advance(later);
    /// assert!(rt; server.clock() == later && server.table().is_empty());
    /// ```
    pub fn advance(&mut self, moment: Moment)
        requires { now_of self.old ≤ moment }
        ensures call { Advances D.Disk G.RelayAddressGenerator self.old self.new moment }
    {
        self.machine.advance(moment);
    }

    /// What answers arrivals beside what is staged. It answers on behalf of a server that isn't stopped.
    pub fn beside(&self) -> Beside<'_, '_, H, G, A>
        ensures { result ≡ beside self.now }
    {
        Beside::new(
            &self.machine,
            self.batch.tuples(),
            self.arrivals,
            self.since,
        )
    }

    // Writes the acts that were accepted since the last commit, if there are any. With what is staged handed out after Ok, it is a commit.
    fn write<W: WhileCommitting<H, G, A>>(&mut self, other: W) -> (Result<(), StoreError>, W)
        ensures meanwhile { Passes (W.passes (beside self.old)) other result.1 }
        ensures idle { self.old.store.stopped ≡ true → result.1 ≡ other }
        ensures rest { self.new ≡ record self.old { store = self.new.store } }
        ensures call { Commits D.Disk self.old (committed self.old self.new.store result.0)
            (result_map_both (λ _. self.old.outs) (λ fault. fault) result.0) }
    {
        if self.store.is_stopped() {
            return (Err(StoreError::Stopped), other);
        }
        if self.batch.acts() == 0 {
            return (Ok(()), other);
        }
        let mut lending = Lending {
            other,
            beside: Beside::new(
                &self.machine,
                self.batch.tuples(),
                self.arrivals,
                self.since,
            ),
        };
        let appended = self
            .store
            .append(self.batch.payload(), self.machine.table(), &mut lending);
        let Lending { other, beside: _ } = lending;
        let written = match appended {
            Ok(_) => Ok(()),
            Err(fault) => Err(fault),
        };
        (written, other)
    }

    // Returns what is staged, in order, and empties the batch.
    fn hand_out(&mut self) -> Vec<Outgoing<A>, A>
        ensures handed { map sent_of result.items ≡ self.old.outs }
        ensures emptied { self.new ≡ emptied self.old self.old.store }
    {
        self.batch.clear();
        self.arrivals = 0;
        mem::replace(&mut self.outgoing, Vec::new(self.alloc))
    }

    /// Writes the acts that were accepted since the last commit, and returns what is to be sent, in order. While a device call waits,
    /// `other` is done, a piece at a time, with what answers arrivals beside what is staged; on a stopped server nothing is. It is returned
    /// in any case.
    pub fn commit_while<W: WhileCommitting<H, G, A>>(
        &mut self,
        other: W,
    ) -> (Result<Vec<Outgoing<A>, A>, StoreError>, W)
        ensures call { Commits D.Disk self.old self.new (result_map_both (λ outs. map sent_of outs.items) (λ fault. fault) result.0) }
        ensures meanwhile { Passes (W.passes (beside self.old)) other result.1 }
        ensures idle { self.old.store.stopped ≡ true → result.1 ≡ other }
    {
        let (written, other) = self.write(other);
        match written {
            Ok(()) => (Ok(self.hand_out()), other),
            Err(fault) => (Err(fault), other),
        }
    }

    /// `commit_while` with nothing else to do.
    ///
    /// ```rust
    /// server.submit(moment, &Arrival::Client { five_tuple, bytes: &allocate })?;
    /// let outgoing = server.commit()?;
    /// assert!(rt; matches!(outgoing.as_slice(), [Outgoing::ToClient { .. }]));
    /// assert_eq!(rt; server.info().frames, 1);
    /// ```
    pub fn commit(&mut self) -> Result<Vec<Outgoing<A>, A>, StoreError>
        ensures call { Commits D.Disk self.old self.new (result_map_both (λ outs. map sent_of outs.items) (λ fault. fault) result) }
    {
        let (outgoing, Idle) = self.commit_while(Idle);
        outgoing
    }

    /// The moment of the last arrival that was taken or refused for memory, or the one that the clock was brought to since; after an opening
    /// the latest one in the store.
    pub fn clock(&self) -> Moment
        ensures { result ≡ now_of self.now }
    {
        self.machine.moment()
    }

    /// How many more arrivals a batch takes before its commit.
    pub fn room(&self) -> u16
        ensures { result ≡ (limits_of self.now).acts - self.now.arrivals }
    {
        self.machine.config().limits().acts() - self.arrivals
    }

    /// Whether nothing is staged.
    pub fn is_idle(&self) -> bool
        ensures { IsTrue result ↔ (self.now ≡ emptied self.now self.now.store) }
    {
        self.arrivals == 0
    }

    /// Whether a commit failed. From then on each call answers `Stopped`.
    pub fn is_stopped(&self) -> bool
        ensures { result ≡ self.now.store.stopped }
    {
        self.store.is_stopped()
    }

    /// The store's version and generation, and how many frames it has.
    pub fn info(&self) -> Info
        ensures version { result.version ≡ self.now.store.version }
        ensures generation { result.generation ≡ self.now.store.generation }
        ensures frames { result.frames ≡ self.now.store.frames }
    {
        self.store.info()
    }

    /// The generator of relayed ports.
    pub fn ports(&self) -> &G
        ensures { result.now ≡ self.now.machine.ports }
    {
        self.machine.ports()
    }

    /// The table at the clock, with what is staged.
    pub fn table(&self) -> &Table<A>
        ensures { result.now ≡ self.now.machine.table }
    {
        self.machine.table()
    }

    /// The disk of the store.
    pub fn disk(&self) -> &D
        ensures { result.now ≡ self.now.store.disk }
    {
        self.store.disk()
    }

    /// Returns the disk, the handler and the generator.
    ///
    /// ```rust
    /// server.submit(moment, &Arrival::Client { five_tuple, bytes: &allocate })?;
    /// server.commit()?;
    /// let (mut disk, users, ports) = server.close();
    /// disk.crash(CrashOutcome::Lost);
    /// let server = Server::open(alloc, disk, &config, users, ports).map_err(|refused| refused.fault)?;
    /// assert!(rt; server.table().has_port(50000));
    /// ```
    pub fn close(self) -> (D, H, G)
        ensures disk { result.0 ≡ self.store.disk }
        ensures handler { result.1 ≡ self.machine.handler }
        ensures ports { result.2 ≡ self.machine.ports }
    {
        let Server {
            alloc: _,
            store,
            machine,
            batch: _,
            outgoing: _,
            arrivals: _,
            since: _,
        } = self;
        let (handler, ports) = machine.into_parts();
        (store.into_disk(), handler, ports)
    }
}
