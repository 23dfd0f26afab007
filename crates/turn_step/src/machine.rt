//! The rules of a server.

ghost use Rattle.std.specs.Prelude.{◌≡◌, ◌≤◌, ◌↔◌, ◌++◌, Bool, true, false, None, IfOk, IfErr, IfSome, OnErr, option_map};
ghost use Rattle.turn_codec.specs.Grammar.{Datagram};
ghost use Rattle.turn_history.specs.Fitting.{Follows};
ghost use Rattle.turn_history.specs.History.{History};
ghost use Rattle.turn_history.specs.Laws.{IsTableAt};
ghost use Rattle.turn_ports.specs.Ports.{has_failed};
ghost use Rattle.turn_rules.specs.Answer.{credential_outcome};
ghost use Rattle.turn_rules.specs.Laws.{IsMadeOfBytes};
ghost use Rattle.turn_rules.specs.Tableless.{depends_on_table};
ghost use Rattle.turn_step.specs.Answer.{AnswersArrival, AnswersClient, IsDecided};
ghost use Rattle.turn_step.specs.Data.{IsOwner, IsRequestOf, NeedsTable};
ghost use Rattle.turn_step.specs.Outcome.{added, event_at};
ghost use Rattle.turn_step.specs.State.{Answered, CountsOne, HoldsPorts, IsAfter, IsPurged, IsReady, IsSameTable, KeepsSetting, changed, setting_of};
ghost use Rattle.turn_step.specs.Views.{arrival_of, data_outcome, is_reserved, reply_outcome, sent_of};
ghost use Rattle.turn_table.specs.Table.{Agrees};

use crate::answer::Answer;
use crate::arrival::{Arrival, Outgoing};
use crate::client::{ClientDatagram, data_step, read, to_peer};
use crate::error::MachineError;
use crate::pairs::Pairs;
use crate::peer::{peer_step, to_client};
use crate::purge::{advance, release, release_for};
use crate::request::{check_credentials, peek_credentials, pick, reply_to, settle};
use crate::step::Step;
use std::alloc::{AllocError, AllocFailed, Allocator, Global};
use std::marker::Model;
use turn_codec::Message;
use turn_cred::{AuthHandler, Checker};
use turn_history::Act;
use turn_ports::RelayAddressGenerator;
use turn_rules::{ClientMessage, Need, Tableless, assess, reply_without_table};
use turn_table::Table;
use turn_types::{FiveTuple, Moment, ServerConfig};

/// The rules of a server over its configuration, credentials, ports and table, without sockets and without a store.
///
/// Each arrival is one step, in two halves: `prepare` decides and makes all room, and `apply` does what was decided.
/// Between them a caller who stores acts can write the act. The moments of the steps never go back.
///
/// Each port that was picked is released exactly once: when its allocation or its reservation has expired, by a Refresh of 0, or, if
/// no allocation came of it, after an allocation failure or by `abandon`.
pub struct Machine<H: AuthHandler, G: RelayAddressGenerator, A: Allocator = Global> {
    alloc: A,
    config: ServerConfig<A>,
    checker: Checker<H, A>,
    ports: G,
    table: Table<A>,
    // Whether ports may be reserved.
    pairs: bool,
}

// By hand: a derived drop is one step for each field in the proof of each caller.
impl<H: AuthHandler + Drop, G: RelayAddressGenerator + Drop, A: Allocator> Drop
    for Machine<H, G, A> {
    fn drop(self) {
        let Machine {
            alloc: _,
            config: _,
            checker: _,
            ports: _,
            table: _,
            pairs: _,
        } = self;
    }
}

impl<H: AuthHandler, G: RelayAddressGenerator, A: Allocator> Model for Machine<H, G, A> {
    ghost use Rattle.std.specs.Prelude.{◌≡◌};
    ghost use Rattle.turn_cred.specs.Credential.{policy_of};
    ghost use Rattle.std.specs.Coded.{codes};
    ghost use Rattle.turn_table.specs.State.{state_code};
    ghost use Rattle.turn_step.specs.State.{MachineState};

    ghost Value = { MachineState H G };

    ghost coded = { Prim.hlevel (codes, state_code) };

    ghost view = { λ m. record { config = m.config; handler = m.checker.handler; ports = m.ports; table = m.table; pairs = m.pairs } };

    ghost invariant = { λ m. (m.checker.policy ≡ policy_of m.config) × (m.table.bounds ≡ m.config.limits) };
}

impl<H: AuthHandler, G: RelayAddressGenerator, A: Allocator + Copy> Machine<H, G, A> {
    /// A machine over a table with the limits of the configuration. After an allocation failure the error has the handler and the
    /// generator.
    ///
    /// ```rust
    /// let table = Table::new(alloc, config.limits(), Moment::new(0).context("moment")?);
    /// let machine = Machine::new(alloc, config, users, ports, table, Pairs::Refused)?;
    /// assert!(rt; machine.table().is_empty());
    /// ```
    pub fn new(
        alloc: A,
        config: ServerConfig<A>,
        handler: H,
        ports: G,
        table: Table<A>,
        pairs: Pairs,
    ) -> Result<Machine<H, G, A>, MachineError<H, G>>
        requires { table.bounds ≡ config.limits }
        ensures ok { IfOk result (λ m. m ≡ record { config = config; handler = handler; ports = ports; table = table; pairs = is_reserved pairs }) }
        ensures err { IfErr result (λ e. e ≡ record { handler = handler; ports = ports }) }
    {
        match Checker::new(alloc, &config, handler) {
            Ok(checker) => Ok(Machine {
                alloc,
                config,
                checker,
                ports,
                table,
                pairs: pairs.is_reserved(),
            }),
            Err(AllocFailed { value: handler }) => Err(MachineError { handler, ports }),
        }
    }

    /// The moment of the table.
    pub fn moment(&self) -> Moment
        ensures { result ≡ self.now.table.moment }
    {
        self.table.moment()
    }

    /// The table at its moment.
    pub fn table(&self) -> &Table<A>
        ensures value { result.now ≡ self.now.table }
        ensures limits { result.now.bounds ≡ self.now.config.limits }
        ensures at { IsTableAt self.now.table.bounds self.now.table.moment self.now.table.contents }
    {
        // For the proof: it is a table at its moment.
        let _moment = self.table.moment();
        &self.table
    }

    /// The generator of relayed ports.
    pub fn ports(&self) -> &G
        ensures { result.now ≡ self.now.ports }
    {
        &self.ports
    }

    /// The configuration.
    pub fn config(&self) -> &ServerConfig<A>
        ensures { result.now ≡ self.now.config }
    {
        &self.config
    }

    /// Returns the handler and the generator, as they are now.
    pub fn into_parts(self) -> (H, G)
        ensures handler { result.0 ≡ self.handler }
        ensures ports { result.1 ≡ self.ports }
    {
        let Machine {
            alloc: _,
            config: _,
            checker,
            ports,
            table: _,
            pairs: _,
        } = self;
        (checker.into_handler(), ports)
    }

    /// The step of a request.
    fn request_step(
        &mut self,
        five_tuple: FiveTuple,
        message: Message<'_>,
    ) -> Result<Step<A>, AllocError>
        requires { IsMadeOfBytes message.content }
        ensures answers { (h : History) (d : Datagram) → Agrees self.old.table h → message.entry ≡ d →
            IfOk result (IsDecided (setting_of H.key_of G.range self.old) h self.old.table.moment (has_failed (G.failures self.old.ports) (G.failures self.new.ports)) five_tuple d) }
        ensures ready { IfOk result (IsReady self.new) }
        ensures table { IsSameTable self.old.table self.new.table }
        ensures setting { KeepsSetting G.range self.old self.new }
        ensures count { CountsOne (G.failures self.old.ports) (G.failures self.new.ports) }
        ensures held { HoldsPorts G.holds self.old None → IfOk result (λ s. HoldsPorts G.holds self.new s.change) }
        ensures held_err { HoldsPorts G.holds self.old None → OnErr result (HoldsPorts G.holds self.new None) }
    {
        let moment = self.table.moment();
        let verdict = check_credentials(&mut self.checker, &message, five_tuple.client, moment);
        let request = ClientMessage {
            message,
            five_tuple,
            verdict,
        };
        let assessment = assess(&self.table, &self.config, &request, self.pairs);
        let need = assessment.needs_port();
        let port = pick(&mut self.ports, &self.table, need)?;
        let settled = settle(
            self.alloc,
            &mut self.table,
            &self.config,
            &request,
            assessment,
            port,
        );
        let Ok(step) = settled else {
            release_for(&mut self.ports, need, port);
            return Err(AllocError);
        };
        Ok(step)
    }

    /// The step of a client's datagram: data to a peer, or a request, or nothing.
    fn client_step(&mut self, five_tuple: FiveTuple, bytes: &[u8]) -> Result<Step<A>, AllocError>
        ensures answers { (h : History) → Agrees self.old.table h →
            IfOk result (AnswersClient (setting_of H.key_of G.range self.old) h self.old.table.moment (has_failed (G.failures self.old.ports) (G.failures self.new.ports)) five_tuple bytes.now) }
        ensures ready { IfOk result (IsReady self.new) }
        ensures table { IsSameTable self.old.table self.new.table }
        ensures setting { KeepsSetting G.range self.old self.new }
        ensures count { CountsOne (G.failures self.old.ports) (G.failures self.new.ports) }
        ensures held { HoldsPorts G.holds self.old None → IfOk result (λ s. HoldsPorts G.holds self.new s.change) }
        ensures held_err { HoldsPorts G.holds self.old None → OnErr result (HoldsPorts G.holds self.new None) }
    {
        match read(&self.table, five_tuple, bytes) {
            ClientDatagram::Request(message) => self.request_step(five_tuple, message),
            ClientDatagram::Data(payload) => data_step(self.alloc, payload),
        }
    }

    /// The answer to a request, if it is the same for every table.
    fn answer_request(
        &self,
        five_tuple: FiveTuple,
        message: Message<'_>,
    ) -> Result<Answer<A>, AllocError>
        ensures requests { (result ≡ Ok Answer.Request) ↔ (depends_on_table message.entry (credential_outcome self.now.config (H.key_of self.now.handler) five_tuple.client self.now.table.moment message.entry) ≡ true) }
        ensures reply { IfOk result (λ x. IfSome (reply_outcome x) (λ o. (h : History) (failed : Bool) →
            IsDecided (setting_of H.key_of G.range self.now) h self.now.table.moment failed five_tuple message.entry o)) }
        ensures no_data { IfOk result (λ x. data_outcome x ≡ None) }
    {
        let moment = self.table.moment();
        let verdict = peek_credentials(&self.checker, &message, five_tuple.client, moment);
        let request = ClientMessage {
            message,
            five_tuple,
            verdict,
        };
        match reply_without_table(self.alloc, &self.config, &request, moment)? {
            Tableless::Depends => Ok(Answer::Request),
            Tableless::Reply(reply) => Ok(Answer::Reply(reply_to(five_tuple, reply))),
        }
    }

    /// Answers, at the moment of the table, what needs no act, and changes nothing: data, and a request whose answer is
    /// the same for every table. Any other request is left to `prepare`.
    pub fn answer(&self, arrival: &Arrival<'_>) -> Result<Answer<A>, AllocError>
        ensures requests { (result ≡ Ok Answer.Request) ↔ NeedsTable (setting_of H.key_of G.range self.now) self.now.table.moment (arrival_of arrival.now) }
        ensures reply { IfOk result (λ x. IfSome (reply_outcome x) (λ o. IsRequestOf (arrival_of arrival.now)
            × ((h : History) (failed : Bool) → AnswersArrival (setting_of H.key_of G.range self.now) h self.now.table.moment failed (arrival_of arrival.now) o))) }
        ensures data { IfOk result (λ x. IfSome (data_outcome x) (λ o. (¬ IsRequestOf (arrival_of arrival.now))
            × ((h : History) → IsAfter self.now h → AnswersArrival (setting_of H.key_of G.range self.now) h self.now.table.moment false (arrival_of arrival.now) o))) }
    {
        match *arrival {
            Arrival::Client { five_tuple, bytes } => {
                match read(&self.table, five_tuple, bytes) {
                    ClientDatagram::Request(message) => self.answer_request(five_tuple, message),
                    ClientDatagram::Data(payload) => {
                        Ok(Answer::Data(to_peer(self.alloc, payload)?))
                    }
                }
            }
            Arrival::Peer {
                port,
                from,
                bytes,
                id,
            } => {
                let sent = to_client(self.alloc, &self.table, port, from, bytes, id)?;
                Ok(Answer::Data(sent))
            }
        }
    }

    /// The five-tuple whose events an answer to data depends on: the client's own, or that of the live allocation whose relayed
    /// port a peer's datagram came to.
    pub fn owner_of(&self, arrival: &Arrival<'_>) -> Option<FiveTuple>
        ensures some { IfSome result (IsOwner self.now.table.contents (arrival_of arrival.now)) }
        ensures none { result ≡ None → (f : FiveTuple) → ¬ IsOwner self.now.table.contents (arrival_of arrival.now) f }
    {
        match *arrival {
            Arrival::Client { five_tuple, .. } => Some(five_tuple),
            Arrival::Peer { port, .. } => {
                let (five_tuple, _) = self.table.by_port(port)?;
                Some(five_tuple)
            }
        }
    }

    /// Brings the table to a moment that isn't before it: what has expired by then ends, and its ports are released.
    pub fn advance(&mut self, moment: Moment)
        requires { self.old.table.moment ≤ moment }
        ensures table { IsPurged moment self.old.table self.new.table }
        ensures after { (h : History) → IsAfter self.old h → IsAfter self.new h }
        ensures limits { self.new.table.bounds ≡ self.new.config.limits }
        ensures setting { KeepsSetting G.range self.old self.new }
        ensures count { G.failures self.new.ports ≡ G.failures self.old.ports }
        ensures held { HoldsPorts G.holds self.old None → HoldsPorts G.holds self.new None }
    {
        advance(&mut self.table, &mut self.ports, moment);
    }

    /// The first half of a step, at a moment that isn't before the table's: removes what has expired, decides, and makes
    /// room for the datagram and for the act. After an `Err` the table is at the moment, the ports of the allocations
    /// that have expired are released, and nothing else has changed. Where the table is at the moment already it isn't
    /// searched.
    pub fn prepare(&mut self, moment: Moment, arrival: &Arrival<'_>) -> Result<Step<A>, AllocError>
        requires { self.old.table.moment ≤ moment }

        ensures answers { (h : History) → IsAfter self.old h →
            IfOk result (AnswersArrival (setting_of H.key_of G.range self.old) h moment (has_failed (G.failures self.old.ports) (G.failures self.new.ports)) (arrival_of arrival.now)) }
        ensures ready { IfOk result (IsReady self.new) }
        ensures follows { (h : History) → IsAfter self.old h → IfOk result (λ s. IfSome s.change (λ c. Follows self.old.config.limits h (event_at moment c))) }

        // After an `Err` too.
        ensures table { IsPurged moment self.old.table self.new.table }
        ensures after { (h : History) → IsAfter self.old h → IsAfter self.new h }
        ensures setting { KeepsSetting G.range self.old self.new }
        ensures count { CountsOne (G.failures self.old.ports) (G.failures self.new.ports) }
        // The ports of the table are held, and those that were picked for the act; after an `Err` those of the table. No other is.
        ensures held { HoldsPorts G.holds self.old None → IfOk result (λ s. HoldsPorts G.holds self.new s.change) }
        ensures held_err { HoldsPorts G.holds self.old None → OnErr result (HoldsPorts G.holds self.new None) }
    {
        self.advance(moment);
        match *arrival {
            Arrival::Client { five_tuple, bytes } => self.client_step(five_tuple, bytes),
            Arrival::Peer {
                port,
                from,
                bytes,
                id,
            } => peer_step(self.alloc, &self.table, port, from, bytes, id),
        }
    }

    /// The second half, which can't be refused: does the act, releases the port of an allocation that it deletes, and
    /// returns the datagram that is to be sent. The step is the last one that was prepared.
    pub fn apply(&mut self, step: Step<A>) -> Option<Outgoing<A>>
        requires { IsReady self.old step }
        ensures sent { option_map sent_of result ≡ step.sent }
        ensures table { self.new.table ≡ changed self.old.table step.change }
        ensures after { (h : History) → IsAfter self.old h → IsAfter self.new (h ++ added self.old.table.moment step.change) }
        ensures setting { KeepsSetting G.range self.old self.new }
        ensures count { G.failures self.new.ports ≡ G.failures self.old.ports }
        ensures held { HoldsPorts G.holds self.old step.change → HoldsPorts G.holds self.new None }
    {
        let (act, outgoing) = step.into_parts();
        if let Some(change) = act {
            let (five_tuple, act) = Box::into_inner(change);
            // For the proof: no two allocations have one port, and none has a reserved one.
            let _ = self.table.moment();
            let freed = self.table.apply(five_tuple, act);
            release(&mut self.ports, freed);
        }
        outgoing
    }

    /// In place of the second half: releases what was picked for the act, if anything was, and so no reserved port that the act would
    /// have taken. The table is as after the first half.
    pub fn abandon(&mut self, step: Step<A>)
        ensures table { self.new.table ≡ self.old.table }
        ensures setting { KeepsSetting G.range self.old self.new }
        ensures count { G.failures self.new.ports ≡ G.failures self.old.ports }
        ensures held { IsReady self.old step → HoldsPorts G.holds self.old step.change → HoldsPorts G.holds self.new None }
    {
        let (act, _) = step.into_parts();
        let Some(change) = act else {
            return;
        };
        match Box::into_inner(change).1 {
            Act::Alloc { port, .. } => {
                if self.table.reserved(port).is_none() {
                    release(&mut self.ports, Some(port));
                }
            }
            Act::AllocEven { port, .. } => {
                // For the proof: reserved ports are odd, and this one is even.
                let _ = self.table.moment();
                release_for(&mut self.ports, Some(Need::Pair), Some(port));
            }
            _ => {}
        }
    }

    /// Both halves. After an `Err` as after one of `prepare`.
    ///
    /// ```rust
    /// let arrival = Arrival::Client { five_tuple, bytes: &allocate };
    /// let outgoing = machine.step(moment, &arrival)?;
    /// assert!(rt; matches!(outgoing, Some(Outgoing::ToClient { .. })));
    /// assert!(rt; machine.moment() == moment && machine.table().has_port(50000));
    /// ```
    pub fn step(
        &mut self,
        moment: Moment,
        arrival: &Arrival<'_>,
    ) -> Result<Option<Outgoing<A>>, AllocError>
        requires { self.old.table.moment ≤ moment }
        ensures answers { (h : History) → IsAfter self.old h → IfOk result (λ out.
            Answered (setting_of H.key_of G.range self.old) self.new h moment (has_failed (G.failures self.old.ports) (G.failures self.new.ports)) (arrival_of arrival.now) (option_map sent_of out)) }
        ensures memory { OnErr result (IsPurged moment self.old.table self.new.table) }
        ensures memory_after { (h : History) → IsAfter self.old h → OnErr result (IsAfter self.new h) }
        ensures moment { self.new.table.moment ≡ moment }
        ensures setting { KeepsSetting G.range self.old self.new }
        ensures count { CountsOne (G.failures self.old.ports) (G.failures self.new.ports) }
        ensures held { HoldsPorts G.holds self.old None → HoldsPorts G.holds self.new None }
    {
        let step = self.prepare(moment, arrival)?;
        Ok(self.apply(step))
    }
}
