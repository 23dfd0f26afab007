//! The sockets that clients send to, and the wait for them and for the relay sockets.

ghost use Rattle.std.specs.Prelude.{◌≡◌, ◌≢◌, ◌↔◌, ◌<◌, ◌+◌, ◌⊎◌, ℕ, All, Contains, IfNone, IfOk, IfSome, List, None, OnOk};
ghost use Rattle.turn_sockets.specs.Own.{IsRelay};
ghost use Rattle.turn_sockets.specs.Schedule.{with_all_ready};
ghost use Rattle.turn_serving.specs.Listening.{AreBoundFor, AreOwnAs, HasSockets, IsBoundFor};

use crate::error::{BindError, Needed, SocketFault, TurnError};
use crate::relay_sockets::RelaySockets;
use crate::watch::Watch;
use mio::unix::SourceFd;
use mio::{Events, Interest, Poll, Token};
use std::alloc::{Allocator, Global};
use std::io::ErrorKind;
use std::net::Net;
use std::os::fd::RawFd;
use std::rt::{Clock, Files};
use std::thread;
use std::time::Duration;
use turn_sockets::{
    BoundSocket, LISTENING, ListeningAddresses, MachineAddresses, OwnAddresses, RECEIVE_BUFFER,
    Schedule, are_at,
};
use turn_types::{Endpoint, FiveTuple, Moment};

/// How many sockets one wait reports; the next one reports more.
const EVENTS: usize = 1_025;

/// How often a start tries to bind a port that is in use, and the pause after each attempt: the process before may still be
/// ending.
pub(crate) const ATTEMPTS: u32 = 40;

const PAUSE_MILLIS: u64 = 50;

/// The token of the disk's answers, which is none of a socket.
const ANSWERS: Token = Token(usize::MAX);

/// How many seconds pass before the machine's addresses are read again.
const REFRESH_SECONDS: u64 = 60;

/// How long a look beside a commit waits at most.
const BESIDE_MILLIS: u64 = 100;

/// Where the sockets that clients send to come from.
#[derive(Drop)]
pub enum ListeningSockets<A: Allocator = Global> {
    /// The server binds one at each of its addresses.
    Bound,
    /// A supervisor hands these over, which are bound at its addresses. Several may be at one address.
    Held(Vec<BoundSocket, A>),
}

/// The sockets that clients send to, and who sees what is sent.
#[derive(Drop)]
pub(crate) struct Listening<W: Watch + Drop, A: Allocator = Global> {
    pub(crate) sockets: Vec<BoundSocket, A>,
    pub(crate) own: OwnAddresses,
    pub(crate) watch: W,
    // The addresses of this machine, once they could be read, and the second from which on they are read again. They count only where
    // one of the server's is 0.0.0.0.
    pub(crate) machine: Option<MachineAddresses<A>>,
    due: u64,
}

/// Waits a moment for a port that is in use.
pub(crate) fn pause<C: Clock>(system: &C) {
    thread::sleep(system, Duration::from_millis(PAUSE_MILLIS));
}

/// Binds a socket. While the address is in use it tries again, up to two seconds.
fn bind<R: Net, C: Clock>(net: &R, system: &C, at: Endpoint) -> Result<BoundSocket, BindError>
    ensures { IfOk result (λ s. IsBoundFor at s) }
{
    for _ in 0..ATTEMPTS {
        match BoundSocket::bind(net, at) {
            Err(reason) if reason.kind() == ErrorKind::AddrInUse => {}
            bound => return bound.map_err(|reason| BindError::of(Needed::Listening(at), reason)),
        }
        pause(system);
    }
    BoundSocket::bind(net, at).map_err(|reason| BindError::of(Needed::Listening(at), reason))
}

/// Has a wait report the datagrams of a socket by this token.
fn watch(poll: &Poll, socket: &mut BoundSocket, token: usize) -> Result<(), BindError>
    ensures { socket.new ≡ socket.old }
{
    socket
        .watch(poll.registry(), token)
        .map_err(|reason| BindError::of(Needed::Wait, reason))?;
    // A smaller buffer is no fault.
    let _ = socket.set_receive_buffer(RECEIVE_BUFFER);
    Ok(())
}

/// Has a wait end when there is something to read at a descriptor.
fn watch_answers(poll: &Poll, descriptor: RawFd) -> Result<(), BindError> {
    poll.registry()
        .register(&mut SourceFd(&descriptor), ANSWERS, Interest::READABLE)
        .map_err(|reason| BindError::of(Needed::Wait, reason))
}

/// Binds a socket at each of these addresses, in whose place it puts the one that was bound. Port 0 is any free one.
fn bind_all<R: Net, C: Clock, A: Allocator + Copy>(
    alloc: A,
    net: &R,
    system: &C,
    listening: &mut ListeningAddresses,
) -> Result<Vec<BoundSocket, A>, BindError>
    ensures sockets { IfOk result (λ sockets. sockets.items ≡ listening.new) }
    ensures bound { OnOk result (AreBoundFor listening.old listening.new) }
{
    let count = listening.as_slice().len();
    let mut sockets = Vec::with_capacity(alloc, count)?;
    for place in 0..count {
        let at = listening.as_slice()[place];
        let socket = bind(net, system, at)?;
        listening.set(place, socket.at());
        sockets.push(socket).map_err(|_| BindError::Memory)?;
    }
    Ok(sockets)
}

/// Has a wait report the datagrams of each of these sockets.
fn watch_all(poll: &Poll, sockets: &mut [BoundSocket]) -> Result<(), BindError>
    ensures { sockets.new ≡ sockets.old }
{
    for place in 0..sockets.len() {
        watch(poll, &mut sockets[place], LISTENING.wrapping_add(place))?;
    }
    Ok(())
}

/// The sockets of these addresses. Those that are handed over have to be theirs.
fn take_all<R: Net, C: Clock, A: Allocator + Copy>(
    alloc: A,
    net: &R,
    system: &C,
    listening: &mut ListeningAddresses,
    sockets: ListeningSockets<A>,
) -> Result<Vec<BoundSocket, A>, BindError>
    ensures sockets { IfOk result (λ taken. HasSockets taken.items listening.new) }
    ensures bound { OnOk result (AreBoundFor listening.old listening.new) }
{
    match sockets {
        ListeningSockets::Bound => {
            let sockets = bind_all(alloc, net, system, listening)?;
            Ok(sockets)
        }
        ListeningSockets::Held(sockets) => {
            if are_at(&sockets, listening.as_slice()) {
                Ok(sockets)
            } else {
                Err(BindError::Socket(SocketFault {
                    needed: Needed::Held,
                    number: None,
                }))
            }
        }
    }
}

impl<W: Watch + Drop, A: Allocator + Copy> Listening<W, A> {
    /// A socket or more for each listening address of these. The machine's addresses are read if one of the server's is 0.0.0.0; that they can't
    /// be read is no fault.
    pub(crate) fn open<R: Net + Files, C: Clock>(
        alloc: A,
        net: &R,
        system: &C,
        poll: &Poll,
        mut own: OwnAddresses,
        sockets: ListeningSockets<A>,
        watch: W,
    ) -> Result<Listening<W, A>, BindError>
        // The server's own addresses are those of all sockets.
        ensures sockets { IfOk result (λ l. HasSockets l.sockets.items l.own.listening) }
        ensures own { IfOk result (λ l. AreOwnAs own l.own) }
    {
        let mut sockets = take_all(alloc, net, system, &mut own.listening, sockets)?;
        watch_all(poll, &mut sockets)?;
        let machine = if own.has_any() {
            MachineAddresses::read(alloc, net).ok()
        } else {
            None
        };
        Ok(Listening {
            sockets,
            own,
            watch,
            machine,
            due: 0,
        })
    }

    /// Reads the machine's addresses again, once a minute by the server's clock, where one of the server's is 0.0.0.0. If they can't be
    /// read they are what they were.
    pub(crate) fn refresh<G: RelaySockets>(&mut self, ports: &G, moment: Moment)
        ensures sockets { self.new.sockets ≡ self.old.sockets }
        ensures own { self.new.own ≡ self.old.own }
        ensures watch { self.new.watch ≡ self.old.watch }
        // Each minute once.
        ensures early { moment < self.old.due → self.new ≡ self.old }
        ensures due { (self.new.due ≡ self.old.due) ⊎ (self.new.due ≡ moment + 60) }
    {
        if moment.seconds() < self.due || !self.own.has_any() {
            return;
        }
        if let Some(machine) = ports.machine(*self.sockets.allocator()) {
            self.machine = Some(machine);
        }
        self.due = moment.seconds() + REFRESH_SECONDS;
    }

    /// The five-tuple of a datagram that a socket received. `None` if it comes from a relay port of this server: it is lost.
    pub(crate) fn five_tuple_of(&self, socket: &BoundSocket, from: Endpoint) -> Option<FiveTuple>
        ensures own { (result ≡ None) ↔ IsRelay self.now.own from }
        ensures client { IfSome result (λ f. f ≡ record { client = from; server = socket.now }) }
    {
        if self.own.is_relay(from) {
            return None;
        }
        Some(FiveTuple {
            client: from,
            server: socket.at(),
        })
    }

    /// The socket by which a client of a five-tuple gets datagrams: that of its server's address. `None` if there is none such, as
    /// after a start with other addresses.
    pub(crate) fn socket_of(&self, five_tuple: FiveTuple) -> Option<&BoundSocket>
        ensures found { IfSome result (λ s. (s.now ≡ five_tuple.server) × Contains self.now.sockets.items s.now) }
        ensures none { IfNone result (All (λ at. at ≢ five_tuple.server) self.now.sockets.items) }
    {
        self.sockets.iter().find(|s| s.at() == five_tuple.server)
    }
}

/// The wait for datagrams.
#[derive(Drop)]
pub(crate) struct Waiting<A: Allocator = Global> {
    poll: Poll,
    events: Events<A>,
    // Whether it ends too when the disk has an answer.
    is_awaited: bool,
}

impl<A: Allocator + Copy> Waiting<A> {
    /// Where there is a descriptor at which the disk's answers come, a wait ends then too.
    pub(crate) fn new(
        alloc: A,
        poll: Poll,
        awaited: Option<RawFd>,
    ) -> Result<Waiting<A>, BindError> {
        if let Some(descriptor) = awaited {
            watch_answers(&poll, descriptor)?;
        }
        Ok(Waiting {
            poll,
            events: Events::with_capacity(alloc, EVENTS)?,
            is_awaited: awaited.is_some(),
        })
    }
}

impl<A: Allocator> Waiting<A> {
    /// For how long a look beside a commit may wait: until its disk has an answer, if that ends a wait too.
    pub(crate) fn beside(&self) -> Duration {
        Duration::from_millis(if self.is_awaited { BESIDE_MILLIS } else { 0 })
    }

    /// Waits for so long until a socket gets a datagram, and lists those that got one.
    pub(crate) fn look(
        &mut self,
        schedule: &mut Schedule<A>,
        timeout: Duration,
    ) -> Result<(), TurnError>
        ensures { OnOk result ((ready : List ℕ) × (schedule.new ≡ with_all_ready schedule.old ready)) }
    {
        if let Err(reason) = self.poll.poll(&mut self.events, Some(timeout)) {
            return Err(TurnError::Socket(reason.raw_os_error()));
        }
        schedule.add_all(&self.events)?;
        Ok(())
    }
}
