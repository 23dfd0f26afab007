//! Relay ports, each with a socket.

ghost use Rattle.std.specs.Prelude.{◌≡◌, ◌≢◌, ◌<◌, ◌≤◌, ◌+◌, ◌^◌, ◌⊎◌, ◌++◌, ℕ, Bool, true, [], Ok, Some, None, IfOk, OnErr, option_map, IfSome};
ghost use Rattle.std.specs.BTreeMap.{IsUnchanged, Updates, get};
ghost use Rattle.std.specs.Ordering.{nat_cmp};
ghost use Rattle.rand_chacha.specs.ChaCha.{next_word};
ghost use Rattle.turn_ports.specs.Ports.{Failed, MayPick, MayPickPair, has_failed, with_pair, with_port, without_port};
ghost use Rattle.turn_sockets.specs.Ports.{AreAtPorts, Binds, HaveSockets, IsBound, IsDrawn, MayFind, drawn_place, draws_of};
ghost use Rattle.turn_sockets.specs.declared.ports.Bound.TheVariants as binds;
ghost use Rattle.turn_sockets.specs.declared.ports.Wanted.TheVariants as wants;

use crate::bind_record::BindRecord;
use crate::binder::Binder;
use crate::machine::MachineAddresses;
use crate::socket::BoundSocket;
use mio::Registry;
use rand_chacha::ChaCha20Rng;
use rand_core::SeedableRng;
use rand_core::utils::NextWord;
use std::alloc::{AllocError, Allocator, Global};
use std::cell::Cell;
use std::collections::BTreeMap;
use std::io;
use std::net::Net;
use std::rt::Files;
use turn_ports::{PortRange, PortSet, RelayAddressGenerator};
use turn_types::Endpoint;

/// What came of binding a port.
#[derive(Clone, Copy, Debug, PartialEq, Eq)]
pub enum Bound {
    /// It has a socket.
    Done,
    /// This port can't be bound now, as if another program has it; others may be.
    Unavailable,
    /// The system has no socket for any port, as if too many files are open.
    Exhausted,
}

/// What a search is for.
#[derive(Clone, Copy)]
pub(crate) enum Wanted {
    /// A port, and an even one where `even` asks for it.
    Port { even: bool },
    /// An even port and the next one.
    Pair,
}

/// What a search for free ports came to.
#[derive(Clone, Copy)]
pub(crate) enum Search {
    // The port, or the first one of the pair.
    Found(u16),
    /// Nothing that is wanted is free.
    Nothing,
    /// None was found, but some were left out: they can't be bound, or have a socket and no allocation.
    Failed,
    /// The search ended since the system has no socket for any port.
    Exhausted,
}

/// The relay ports of one address. Each port that was picked has a socket, which `poll` watches with the port as its token.
///
/// The search for a free port begins at one that is drawn at random, so that nobody can guess which port the next allocation has
/// (RFC 8656, section 7.2; RFC 6056, section 3.3.1).
pub struct SocketPorts<'a, R: Net, A: Allocator = Global> {
    binder: Binder<'a, R>,
    first: u16,
    last: u16,
    // What ports are drawn by.
    draws: ChaCha20Rng,
    sockets: BTreeMap<u16, BoundSocket, A>,
    failures: u64,
    asked: BindRecord,
    ghost ordered: { first ≤ last },
    // Each socket is bound at its port, on the address of the binder.
    ghost at_ports: { AreAtPorts binder.ip sockets },
}

// By hand: a derived drop is one step for each field in the proof of each caller.
impl<'a, R: Net, A: Allocator> Drop for SocketPorts<'a, R, A> {
    fn drop(self) {
        let SocketPorts {
            binder: _,
            first: _,
            last: _,
            draws: _,
            sockets: _,
            failures: _,
            asked: _,
        } = self;
    }
}

impl<'a, R: Net, A: Allocator + Copy> SocketPorts<'a, R, A> {
    /// The ports of a range, none of which is bound yet. Sockets are bound on the address and watched by the registry. Ports are
    /// drawn by ChaCha with 20 rounds from a seed, which is as secret as the ports are to be.
    pub fn new(
        alloc: A,
        net: &'a R,
        registry: Registry,
        ip: u32,
        ports: PortRange,
        seed: [u8; 32],
    ) -> SocketPorts<'a, R, A>
        ensures ip { result.binder.ip ≡ ip }
        ensures first { result.first ≡ ports.0 }
        ensures last { result.last ≡ ports.1 }
        ensures draws { result.draws ≡ draws_of seed }
        ensures count { result.failures ≡ 0 }
        ensures empty { result.sockets.entries ≡ [] }
    {
        let (first, last) = ports.range();
        SocketPorts {
            binder: Binder {
                net,
                registry,
                ip,
                refusal: Cell::new(None),
                exhausted: Cell::new(None),
            },
            first,
            last,
            draws: ChaCha20Rng::from_seed(seed),
            sockets: BTreeMap::new(alloc),
            failures: 0,
            asked: BindRecord::new(),
        }
    }

    /// The socket of a port.
    pub fn socket(&self, port: u16) -> Option<&BoundSocket>
        ensures found { option_map (λ s. s.now) result ≡ get nat_cmp self.now.sockets port }
        ensures at { IfSome result (λ s. s.now ≡ record { ip = self.now.binder.ip; port = port }) }
    {
        self.sockets.get(&port)
    }

    /// Whether the address of the relay ports is one of this machine: a socket is bound at it, at any port, and released. The system's
    /// reason where it isn't.
    pub fn check_address(&self) -> io::Result<()> {
        let at = Endpoint {
            ip: self.binder.ip,
            port: 0,
        };
        BoundSocket::bind(self.binder.net, at)?;
        Ok(())
    }

    /// The number of the system's newest refusal to bind a port, if it gave one.
    pub fn refusal(&self) -> Option<i32> {
        self.binder.refusal.get()
    }

    /// The number of the system's newest refusal that no other port would have changed, as of too many open files, if there was one
    /// since the last call.
    pub fn take_exhausted(&self) -> Option<i32> {
        let number = self.binder.exhausted.get();
        self.binder.exhausted.set(None);
        number
    }

    /// Binds a port that has no socket yet, also outside the range. Port 0 is never bound.
    pub fn bind(&mut self, port: u16) -> Result<Bound, AllocError>
        requires { get nat_cmp self.old.sockets port ≡ None }
        ensures ip { self.new.binder.ip ≡ self.old.binder.ip }
        ensures first { self.new.first ≡ self.old.first }
        ensures last { self.new.last ≡ self.old.last }
        ensures draws { self.new.draws ≡ self.old.draws }
        ensures count { self.new.failures ≡ self.old.failures }
        ensures bound { result ≡ Ok binds.Done → IsBound self.old.binder.ip self.old.sockets self.new.sockets port }
        ensures refused { result ≢ Ok binds.Done → IsUnchanged self.old.sockets self.new.sockets }
        ensures never { port ≡ 0 → result ≢ Ok binds.Done }
    {
        self.binder.bind(&mut self.sockets, &mut self.asked, port)
    }

    // The port of the range at which a search begins.
    fn draw(&mut self) -> u16
        ensures place { result ≡ drawn_place (self.old.first, self.old.last) self.old.draws }
        ensures range { (self.old.first ≤ result) × (result ≤ self.old.last) }
        ensures ip { self.new.binder.ip ≡ self.old.binder.ip }
        ensures first { self.new.first ≡ self.old.first }
        ensures last { self.new.last ≡ self.old.last }
        ensures draws { self.new.draws ≡ (next_word 10 self.old.draws).1 }
        ensures count { self.new.failures ≡ self.old.failures }
        ensures sockets { self.new.sockets ≡ self.old.sockets }
        ensures asked { self.new.asked ≡ self.old.asked }
    {
        let ports = u32::from(self.last - self.first) + 1;
        self.first + (self.draws.next_word() % ports) as u16
    }

    // What is wanted and free, with sockets bound.
    fn find<S: PortSet>(&mut self, taken: &S, wanted: Wanted) -> Result<Option<u16>, AllocError>
        ensures answer { IfOk result (MayFind (self.old.first, self.old.last) (S.has taken.now) wanted (has_failed self.old.failures self.new.failures)) }
        ensures count { (self.new.failures ≡ self.old.failures) ⊎ ((result ≡ Ok None) × Failed self.old.failures self.new.failures) }
        ensures ip { self.new.binder.ip ≡ self.old.binder.ip }
        ensures first { self.new.first ≡ self.old.first }
        ensures last { self.new.last ≡ self.old.last }
        ensures draws { self.new.draws ≡ (next_word 10 self.old.draws).1 }
        ensures never { result ≢ Ok (Some 0) }
        ensures bound { IfOk result (Binds self.old.binder.ip wanted self.old.sockets self.new.sockets) }
        ensures drawn { IfOk result (IsDrawn self.new.asked.latest self.old.sockets (self.old.first, self.old.last) (drawn_place (self.old.first, self.old.last) self.old.draws) (S.has taken.now) wanted) }
        ensures asked { self.new.asked.earlier ≡ self.old.asked.earlier ++ self.old.asked.latest }
        ensures err { OnErr result (IsUnchanged self.old.sockets self.new.sockets) }
    {
        let range = (self.first, self.last);
        let from = self.draw();
        self.asked.begin();
        let search = self.binder.search_around(
            &mut self.sockets,
            &mut self.asked,
            range,
            from,
            taken,
            wanted,
        )?;
        match search {
            Search::Found(port) => Ok(Some(port)),
            Search::Nothing => Ok(None),
            Search::Failed | Search::Exhausted => {
                self.failures = self.failures.wrapping_add(1);
                Ok(None)
            }
        }
    }
}

impl<'a, R: Net + Files, A: Allocator> SocketPorts<'a, R, A> {
    /// Reads the addresses of this machine.
    pub fn machine<B: Allocator + Copy>(&self, alloc: B) -> io::Result<MachineAddresses<B>> {
        MachineAddresses::read(alloc, self.binder.net)
    }
}

impl<'a, R: Net, A: Allocator + Copy> RelayAddressGenerator for SocketPorts<'a, R, A> {
    ghost range = { λ s. (s.first, s.last) };

    ghost failures = { λ s. s.failures };

    ghost holds = { λ s held. HaveSockets s.sockets held };

    fn range(&self) -> (u16, u16) {
        (self.first, self.last)
    }

    /// A free port, with a socket bound. A port that can't be bound is passed over; if no other is free, that is one failure.
    fn pick<S: PortSet>(&mut self, taken: &S, even: bool) -> Result<Option<u16>, AllocError>
        ensures answer { IfOk result (MayPick (self.old.first, self.old.last) (S.has taken.now) even (has_failed self.old.failures self.new.failures)) }
        ensures count { (self.new.failures ≡ self.old.failures) ⊎ ((result ≡ Ok None) × Failed self.old.failures self.new.failures) }
        ensures ip { self.new.binder.ip ≡ self.old.binder.ip }
        ensures first { self.new.first ≡ self.old.first }
        ensures last { self.new.last ≡ self.old.last }
        ensures draws { self.new.draws ≡ (next_word 10 self.old.draws).1 }
        ensures never { result ≢ Ok (Some 0) }
        ensures bound { IfOk result (Binds self.old.binder.ip (wants.Port even) self.old.sockets self.new.sockets) }
        ensures drawn { IfOk result (IsDrawn self.new.asked.latest self.old.sockets (self.old.first, self.old.last) (drawn_place (self.old.first, self.old.last) self.old.draws) (S.has taken.now) (wants.Port even)) }
        ensures asked { self.new.asked.earlier ≡ self.old.asked.earlier ++ self.old.asked.latest }
        ensures unbound { OnErr result (IsUnchanged self.old.sockets self.new.sockets) }
        ensures picked { (held : ℕ → Bool) → HaveSockets self.old.sockets held → IfOk result (λ port. HaveSockets self.new.sockets (with_port held port)) }
        ensures err { (held : ℕ → Bool) → HaveSockets self.old.sockets held → OnErr result (HaveSockets self.new.sockets held) }
    {
        self.find(taken, Wanted::Port { even })
    }

    /// A free pair, with a socket bound for each port. Where one of the two can't be bound neither is, and the search goes on; if no
    /// other pair is free, that is one failure.
    fn pick_pair<S: PortSet>(&mut self, taken: &S) -> Result<Option<u16>, AllocError>
        ensures answer { IfOk result (MayPickPair (self.old.first, self.old.last) (S.has taken.now) (has_failed self.old.failures self.new.failures)) }
        ensures count { (self.new.failures ≡ self.old.failures) ⊎ ((result ≡ Ok None) × Failed self.old.failures self.new.failures) }
        ensures ip { self.new.binder.ip ≡ self.old.binder.ip }
        ensures first { self.new.first ≡ self.old.first }
        ensures last { self.new.last ≡ self.old.last }
        ensures draws { self.new.draws ≡ (next_word 10 self.old.draws).1 }
        ensures never { result ≢ Ok (Some 0) }
        ensures bound { IfOk result (Binds self.old.binder.ip wants.Pair self.old.sockets self.new.sockets) }
        ensures drawn { IfOk result (IsDrawn self.new.asked.latest self.old.sockets (self.old.first, self.old.last) (drawn_place (self.old.first, self.old.last) self.old.draws) (S.has taken.now) wants.Pair) }
        ensures asked { self.new.asked.earlier ≡ self.old.asked.earlier ++ self.old.asked.latest }
        ensures unbound { OnErr result (IsUnchanged self.old.sockets self.new.sockets) }
        ensures picked { (held : ℕ → Bool) → HaveSockets self.old.sockets held → IfOk result (λ port. HaveSockets self.new.sockets (with_pair held port)) }
        ensures err { (held : ℕ → Bool) → HaveSockets self.old.sockets held → OnErr result (HaveSockets self.new.sockets held) }
    {
        self.find(taken, Wanted::Pair)
    }

    /// Closes the socket of a port.
    fn release(&mut self, port: u16)
        ensures ip { self.new.binder.ip ≡ self.old.binder.ip }
        ensures first { self.new.first ≡ self.old.first }
        ensures last { self.new.last ≡ self.old.last }
        ensures draws { self.new.draws ≡ self.old.draws }
        ensures count { self.new.failures ≡ self.old.failures }
        ensures updated { Updates nat_cmp self.old.sockets self.new.sockets port None }
        ensures released { (held : ℕ → Bool) → HaveSockets self.old.sockets held → held port ≡ true → HaveSockets self.new.sockets (without_port held port) }
    {
        let _ = self.sockets.remove(&port);
    }

    fn failures(&self) -> u64 {
        self.failures
    }
}
