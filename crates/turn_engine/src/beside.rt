//! Answers beside what is staged.

ghost use Rattle.std.specs.Prelude.{◌≡◌, ◌≢◌, ◌↔◌, ℕ, IsTrue, IfErr, IfOk, IfSome, List, Ok, false};
ghost use Rattle.std.specs.List.{AllByRecursion};
ghost use Rattle.turn_step.specs.Outcome.Arrives.{FromPeer};
ghost use Rattle.turn_step.specs.Views.{arrival_of};
ghost use Rattle.turn_types.specs.declared.address.Endpoint.{Endpoint};
ghost use Rattle.turn_engine.specs.Relaying.{HasToWait, IsApart, IsAtClock, IsBehind, Relays};
ghost use Rattle.turn_engine.specs.Views.{relayed_of};

use crate::unanswered::Unanswered;
use std::alloc::{Allocator, Global};
use std::marker::Model;
use turn_cred::AuthHandler;
use turn_ports::RelayAddressGenerator;
use turn_step::{Answer, Arrival, Machine, Outgoing};
use turn_table::Table;
use turn_types::{Endpoint, FiveTuple, Moment, TxId};

/// What comes of an arrival that is to be answered beside what is staged.
#[derive(Drop)]
pub enum Relayed<A: Allocator = Global> {
    /// It has to be submitted.
    Waits,
    /// It is answered. This is to be sent at once, if anything is.
    Answered(Option<Outgoing<A>>),
}

/// What answers arrivals beside what is staged: at rest, and while a commit waits for its disk. It answers data, and requests whose answer is
/// the same for every table. What is sent so rests on nothing that isn't stored.
pub struct Beside<'a, 'b, H: AuthHandler, G: RelayAddressGenerator, A: Allocator = Global> {
    machine: &'a Machine<H, G, A>,
    // Of the acts that are staged.
    tuples: &'b [FiveTuple],
    // How many arrivals are staged, and the moment of the first.
    arrivals: u16,
    since: Moment,
}

impl<'a, 'b, H: AuthHandler, G: RelayAddressGenerator, A: Allocator> Drop
    for Beside<'a, 'b, H, G, A> {
    fn drop(self) {
        let Beside {
            machine: _,
            tuples: _,
            arrivals: _,
            since: _,
        } = self;
    }
}

impl<'a, 'b, H: AuthHandler, G: RelayAddressGenerator, A: Allocator> Model
    for Beside<'a, 'b, H, G, A> {
    ghost use Rattle.std.specs.Coded.{codes};
    ghost use Rattle.turn_table.specs.State.{state_code};
    ghost use Rattle.turn_engine.specs.Relaying.{BesideState};

    ghost Value = { BesideState H G };

    ghost coded = { Prim.hlevel (codes, state_code) };

    ghost view = { λ b. record { machine = b.machine.now; tuples = b.tuples.now; arrivals = b.arrivals; since = b.since } };
}

/// Whether a five-tuple is one of these.
fn has_tuple(tuples: &[FiveTuple], owner: FiveTuple) -> bool
    ensures some { IsTrue result → ¬ AllByRecursion (λ g. g ≢ owner) tuples.now }
    ensures none { result ≡ false → AllByRecursion (λ g. g ≢ owner) tuples.now }
{
    tuples.contains(&owner)
}

impl<'a, 'b, H: AuthHandler, G: RelayAddressGenerator, A: Allocator + Copy> Beside<
    'a,
    'b,
    H,
    G,
    A,
> {
    pub(crate) fn new(
        machine: &'a Machine<H, G, A>,
        tuples: &'b [FiveTuple],
        arrivals: u16,
        since: Moment,
    ) -> Beside<'a, 'b, H, G, A>
        ensures { result ≡ record { machine = machine.now; tuples = tuples.now; arrivals = arrivals; since = since } }
    {
        Beside {
            machine,
            tuples,
            arrivals,
            since,
        }
    }

    /// The generator of relayed ports.
    pub fn ports(&self) -> &'a G
        ensures { result.now ≡ self.now.machine.ports }
    {
        self.machine.ports()
    }

    /// The table at the clock, with what is staged.
    pub fn table(&self) -> &'a Table<A>
        ensures { result.now ≡ self.now.machine.table }
    {
        self.machine.table()
    }

    /// Whether all that is staged is of the clock's moment. If not, every arrival has to be submitted.
    pub fn is_at_clock(&self) -> bool
        ensures { IsTrue result ↔ IsAtClock self.now }
    {
        self.arrivals == 0 || self.since == self.machine.moment()
    }

    // Whether no act is staged, or none of the arrival's five-tuple.
    fn is_apart(&self, arrival: &Arrival<'_>) -> bool
        ensures apart { IsTrue result → IsApart self.now.machine.table.contents self.now.tuples (arrival_of arrival.now) }
        ensures behind { result ≡ false → IsBehind self.now.machine.table.contents self.now.tuples (arrival_of arrival.now) }
    {
        if self.tuples.is_empty() {
            return true;
        }
        match self.machine.owner_of(arrival) {
            Some(owner) => !has_tuple(self.tuples, owner),
            None => false,
        }
    }

    /// Whether data that comes to a relayed port is answered now, whatever it is: nothing is staged of an earlier moment, and no act is
    /// staged, or the port is that of an allocation of which none is.
    pub fn relays_at(&self, port: u16) -> bool
        ensures answers { IsTrue result → (from : Endpoint) (bytes id : List ℕ) → ¬ HasToWait H.key_of G.range self.now (FromPeer port from bytes id) }
        ensures waits { result ≡ false → (from : Endpoint) (bytes id : List ℕ) → HasToWait H.key_of G.range self.now (FromPeer port from bytes id) }
    {
        let arrival = Arrival::Peer {
            port,
            from: Endpoint { ip: 0, port: 0 },
            bytes: &[],
            id: TxId([0; 12]),
        };
        // For the proof: no two allocations have one port.
        let _table = self.machine.table();
        self.is_at_clock() && self.is_apart(&arrival)
    }

    /// Answers data, or a request whose answer no table changes, at the clock, and changes nothing: of a five-tuple of which no act is staged,
    /// while nothing is staged of an earlier moment. Every other arrival has to be submitted. `Unanswered` after an allocation failure.
    ///
    /// ```rust
    /// server.advance(moment);
    /// let send = build_send(alloc, peer, b"hello")?;
    /// let data = server.beside().relay(&Arrival::Client { five_tuple, bytes: &send })?;
    /// assert!(rt; matches!(data, Relayed::Answered(None)));
    /// let request = server.beside().relay(&Arrival::Client { five_tuple, bytes: &allocate })?;
    /// assert!(rt; matches!(request, Relayed::Waits));
    /// ```
    pub fn relay(&self, arrival: &Arrival<'_>) -> Result<Relayed<A>, Unanswered>
        ensures waits { result ≡ Ok Relayed.Waits → HasToWait H.key_of G.range self.now (arrival_of arrival.now) }
        ensures answers { IfOk result (λ r. IfSome (relayed_of r) (Relays H.key_of G.range self.now (arrival_of arrival.now))) }
        ensures memory { IfErr result (λ u. u ≡ arrival_of arrival.now) }
    {
        if !self.is_at_clock() || !self.is_apart(arrival) {
            return Ok(Relayed::Waits);
        }
        let Ok(answer) = self.machine.answer(arrival) else {
            return Err(Unanswered::of(arrival));
        };
        match answer {
            Answer::Request => Ok(Relayed::Waits),
            Answer::Reply(datagram) => Ok(Relayed::Answered(datagram)),
            Answer::Data(datagram) => Ok(Relayed::Answered(datagram)),
        }
    }
}
