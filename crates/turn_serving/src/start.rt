//! How a server over sockets is started.

ghost use Rattle.std.specs.Prelude.{◌≡◌, ◌==◌, ℕ, [], None, Ok, IfErr, IfOk, OnOk, true, false, unwrap_or};
ghost use Rattle.std.specs.List.{list_any};
ghost use Rattle.turn_history.specs.Fitting.{has_port, is_taken};
ghost use Rattle.turn_sockets.specs.Backlog.{waiting_of};
ghost use Rattle.turn_sockets.specs.Ports.{HaveSockets, draws_of};
ghost use Rattle.turn_step.specs.State.{HoldsPorts};
ghost use Rattle.turn_store.specs.Opening as stores;
ghost use Rattle.turn_types.specs.declared.address.FiveTuple.{FiveTuple};
ghost use Rattle.turn_serving.specs.Listening.{AreOwnAs, HasSockets, room_of};
ghost use Rattle.turn_serving.specs.Starts.{AreBoundToo, IfOfStore, IsBeforeCarrying, IsKept, IsOfVersion, IsRefusedFor, KeepsImages, Started, have_ports};

use crate::error::{BindError, Needed, SetupError, SocketFault, StartError};
use crate::listening::{ATTEMPTS, Listening, ListeningSockets, Waiting, pause};
use crate::manner::{Commits, Manner};
use crate::meanwhile::Traffic;
use crate::reader::Intake;
use crate::relay_sockets::RelaySockets;
use crate::serving::{Serving, SocketServing};
use crate::watch::Watch;
use mio::Poll;
use std::alloc::{AllocError, Allocator, Global};
use std::net::Net;
use std::os::fd::RawFd;
use std::rt::{Clock, Files};
use turn_cred::AuthHandler;
use turn_disk::Disk;
use turn_engine::Server;
use turn_history::Reservation;
use turn_ports::{PortRange, RelayAddressGenerator};
use turn_record::Version;
use turn_sockets::{
    Backlog, Bound, Buffer, DataIds, ListeningAddresses, LocalPeers, OwnAddresses, Room, Schedule,
    SocketPorts, SocketRecord,
};
use turn_store::{OpenError, Opened, Store, StoreOpenError};
use turn_table::Table;
use turn_types::{Endpoint, ServerConfig};

/// What a server is started with, beside its disk and the handler of its users.
#[derive(Clone, Copy)]
pub struct Setup<'c, A: Allocator = Global> {
    /// The configuration, with the limits that the store was formatted with.
    pub config: &'c ServerConfig<A>,
    /// The addresses that clients send to. Port 0 is any free one.
    pub listen: &'c ListeningAddresses,
    /// The range of the relay ports.
    pub ports: PortRange,
    /// The address on which relay sockets are bound, if it isn't the one that clients are told.
    pub relay_bind: Option<u32>,
    /// The peers on the server's own machine that relay ports may send to.
    pub local_peers: &'c LocalPeers,
    /// How many datagrams a turn reads, as `Commits` says.
    pub burst: u8,
    /// When what was accepted is written, and how sockets are read.
    pub commits: Commits,
    /// What relay ports are drawn from: random bytes, new at each start.
    pub seed: [u8; 32],
    /// The descriptor at which the disk's answers come, if it has one, as that of an export has. Beside a commit sockets are waited for
    /// only where there is one, else they are looked at again and again.
    pub awaited: Option<RawFd>,
}

/// What a server has beside its store.
struct Beside<'a, R: Net, W: Watch + Drop, A: Allocator + Copy> {
    ports: SocketPorts<'a, R, A>,
    listening: Listening<W, A>,
    waiting: Waiting<A>,
    traffic: Traffic<A>,
    // Where sockets are read beside commits.
    placeholder: Option<Traffic<A>>,
}

/// How many datagrams of clients may wait for a commit, of all that were sent to the server's addresses.
const MAX_WAITING: usize = 1_024;

/// How many of these may be of one client, so that those of others have places too.
const MAX_OF_ONE: usize = 64;

/// How many bytes they may have in all.
const MAX_BYTES: usize = 1 << 20;

/// What may wait of the datagrams that were sent to one of so many addresses: each has the same share.
fn room_of(addresses: &[Endpoint]) -> Room
    ensures { result ≡ room_of addresses.now }
{
    let count = addresses.len().max(1);
    Room {
        datagrams: MAX_WAITING / count,
        of_one: MAX_OF_ONE,
        bytes: MAX_BYTES / count,
    }
}

/// No socket may have a datagram, and none waits of what was sent to these addresses.
fn no_traffic<R: Net, A: Allocator + Copy>(
    alloc: A,
    net: &R,
    addresses: &[Endpoint],
) -> Result<Traffic<A>, AllocError>
    ensures waits { IfOk result (λ traffic. (f : FiveTuple) → waiting_of traffic.intake.backlog f ≡ []) }
    ensures room { IfOk result (λ traffic. traffic.intake.backlog.room ≡ room_of addresses.now) }
    ensures passed { IfOk result (λ traffic. traffic.intake.record.passed ≡ []) }
{
    let intake = Intake {
        buffer: Buffer::new(alloc)?,
        ids: DataIds::new(),
        backlog: Backlog::new(alloc, addresses, room_of(addresses))?,
        record: SocketRecord::new(net),
    };
    Ok(Traffic {
        schedule: Schedule::new(alloc)?,
        intake,
    })
}

/// Binds a port, if it has no socket yet. While it is in use it tries again, up to two seconds.
fn bind<R: Net, A: Allocator + Copy, C: Clock>(
    sockets: &mut SocketPorts<'_, R, A>,
    system: &C,
    port: u16,
) -> Result<(), BindError>
    ensures ip { sockets.new.binder.ip ≡ sockets.old.binder.ip }
    ensures first { sockets.new.first ≡ sockets.old.first }
    ensures last { sockets.new.last ≡ sockets.old.last }
    ensures draws { sockets.new.draws ≡ sockets.old.draws }
    ensures bound { OnOk result (AreBoundToo sockets.old.sockets sockets.new.sockets (λ p. port == p)) }
{
    for _attempt in 0..ATTEMPTS {
        if sockets.socket(port).is_some() {
            return Ok(());
        }
        match sockets.bind(port)? {
            Bound::Done => return Ok(()),
            Bound::Unavailable => pause(system),
            Bound::Exhausted => break,
        }
    }
    Err(BindError::Socket(SocketFault {
        needed: Needed::RelayPort(port),
        number: sockets.refusal(),
    }))
}

/// Binds the port of each allocation of a table.
fn bind_allocated<R: Net, A: Allocator + Copy, C: Clock>(
    sockets: &mut SocketPorts<'_, R, A>,
    system: &C,
    table: &Table<A>,
) -> Result<(), BindError>
    ensures ip { sockets.new.binder.ip ≡ sockets.old.binder.ip }
    ensures first { sockets.new.first ≡ sockets.old.first }
    ensures last { sockets.new.last ≡ sockets.old.last }
    ensures draws { sockets.new.draws ≡ sockets.old.draws }
    ensures bound { OnOk result (AreBoundToo sockets.old.sockets sockets.new.sockets (has_port table.now.contents)) }
{
    for (_, entry) in table.entries() {
        bind(sockets, system, entry.port())?;
    }
    Ok(())
}

/// Binds each of these reserved ports.
fn bind_reserved<R: Net, A: Allocator + Copy, C: Clock>(
    sockets: &mut SocketPorts<'_, R, A>,
    system: &C,
    reserved: &[(u16, Reservation)],
) -> Result<(), BindError>
    ensures ip { sockets.new.binder.ip ≡ sockets.old.binder.ip }
    ensures first { sockets.new.first ≡ sockets.old.first }
    ensures last { sockets.new.last ≡ sockets.old.last }
    ensures draws { sockets.new.draws ≡ sockets.old.draws }
    ensures bound { OnOk result (AreBoundToo sockets.old.sockets sockets.new.sockets (λ p. list_any (λ s. s.0 == p) reserved.now)) }
{
    for (port, _) in reserved {
        bind(sockets, system, *port)?;
    }
    Ok(())
}

impl<'c, A: Allocator + Copy> Setup<'c, A> {
    /// The address on which relay sockets are bound.
    fn bound(&self) -> u32
        ensures { result ≡ unwrap_or self.now.relay_bind self.now.config.now.relay }
    {
        self.relay_bind.unwrap_or(self.config.relay())
    }

    /// The server's own addresses.
    fn own(&self) -> OwnAddresses
        ensures listening { result.listening ≡ self.now.listen.now }
        ensures relay { result.relay ≡ self.now.config.now.relay }
        ensures bound { result.bound ≡ unwrap_or self.now.relay_bind self.now.config.now.relay }
        ensures ports { result.ports ≡ self.now.ports }
        ensures local_peers { result.local_peers ≡ self.now.local_peers.now }
    {
        OwnAddresses {
            listening: self.listen.copied(),
            relay: self.config.relay(),
            bound: self.bound(),
            ports: self.ports,
            local_peers: self.local_peers.copied(),
        }
    }

    /// Opens the store of a disk, whose content stays, with a copy of the configuration. A refusal returns the disk.
    fn open<D: Disk + Drop>(
        &self,
        alloc: A,
        disk: D,
    ) -> Result<(Opened<D, A>, ServerConfig<A>), StoreOpenError<D>>
        ensures opens { IfOk result (λ r. stores.Opening D.Disk disk self.now.config.now.limits false (Ok r.0)) }
        ensures config { IfOk result (λ r. r.1 ≡ self.now.config.now) }
        ensures kept_err { IfErr result (λ r. IsKept D.Disk disk r.disk) }
        ensures refused { IfErr result (λ r. IsRefusedFor D.Disk disk r.disk self.now.config.now.limits r.fault) }
    {
        let limits = self.config.limits();
        let Ok(config) = self.config.try_clone(alloc) else {
            return Err(StoreOpenError {
                fault: OpenError::Memory,
                disk,
            });
        };
        match Store::open_unchanged(alloc, disk, limits) {
            Ok(opened) => Ok((opened, config)),
            Err(refused) => Err(refused),
        }
    }

    /// The relay ports, with a socket for each port that a table has, and for no other.
    fn bind_ports<'a, R: Net, C: Clock>(
        &self,
        alloc: A,
        net: &'a R,
        system: &C,
        poll: &Poll,
        table: &Table<A>,
    ) -> Result<SocketPorts<'a, R, A>, BindError>
        ensures range { IfOk result (λ sockets. ⟦<SocketPorts<'a, R, A> as RelayAddressGenerator>⟧.range sockets ≡ self.now.ports) }
        ensures draws { IfOk result (λ sockets. sockets.draws ≡ draws_of self.now.seed) }
        ensures bound { IfOk result (λ sockets. sockets.binder.ip ≡ unwrap_or self.now.relay_bind self.now.config.now.relay) }
        ensures held { IfOk result (λ sockets. HaveSockets sockets.sockets (is_taken table.now.contents)) }
    {
        let registry = poll
            .registry()
            .try_clone()
            .map_err(|reason| BindError::of(Needed::Wait, reason))?;
        let ip = self.bound();
        let mut sockets = SocketPorts::new(alloc, net, registry, ip, self.ports, self.seed);
        sockets
            .check_address()
            .map_err(|reason| BindError::of(Needed::Relay(ip), reason))?;
        bind_allocated(&mut sockets, system, table)?;
        bind_reserved(&mut sockets, system, table.reserved_ports())?;
        Ok(sockets)
    }

    /// All that a server needs beside its store, with a socket for each port that a table has, and for no other.
    fn bind_beside<'a, R: Net + Files + Drop, C: Clock, W: Watch + Drop>(
        &self,
        alloc: A,
        net: &'a R,
        system: &C,
        table: &Table<A>,
        sockets: ListeningSockets<A>,
        watch: W,
    ) -> Result<Beside<'a, R, W, A>, BindError>
        ensures range { IfOk result (λ beside. ⟦<SocketPorts<'a, R, A> as RelayAddressGenerator>⟧.range beside.ports ≡ self.now.ports) }
        ensures draws { IfOk result (λ beside. beside.ports.draws ≡ draws_of self.now.seed) }
        ensures bound { IfOk result (λ beside. beside.ports.binder.ip ≡ unwrap_or self.now.relay_bind self.now.config.now.relay) }
        ensures held { IfOk result (λ beside. HaveSockets beside.ports.sockets (is_taken table.now.contents)) }
        ensures waits { IfOk result (λ beside. (f : FiveTuple) → waiting_of beside.traffic.intake.backlog f ≡ []) }
        ensures passed { IfOk result (λ beside. beside.traffic.intake.record.passed ≡ []) }
        ensures room { IfOk result (λ beside. beside.traffic.intake.backlog.room ≡ room_of beside.listening.own.listening) }
        ensures own { IfOk result (λ beside. HasSockets beside.listening.sockets.items beside.listening.own.listening) }
        ensures own_addresses { IfOk result (λ beside. AreOwnAs (record {
          listening = self.now.listen.now;
          relay = self.now.config.now.relay;
          bound = unwrap_or self.now.relay_bind self.now.config.now.relay;
          ports = self.now.ports;
          local_peers = self.now.local_peers.now;
        }) beside.listening.own) }
    {
        let poll = Poll::new(net).map_err(|reason| BindError::of(Needed::Wait, reason))?;
        let ports = self.bind_ports(alloc, net, system, &poll, table)?;
        let listening = Listening::open(alloc, net, system, &poll, self.own(), sockets, watch)?;
        let addresses = listening.own.listening.as_slice();
        let traffic = no_traffic(alloc, net, addresses)?;
        let placeholder = match self.commits {
            Commits::EachTurn => None,
            Commits::Paced => Some(no_traffic(alloc, net, addresses)?),
        };
        Ok(Beside {
            ports,
            listening,
            waiting: Waiting::new(alloc, poll, self.awaited)?,
            traffic,
            placeholder,
        })
    }

    /// Opens the store of a disk, binds the relay ports of its allocations and those that it reserves, and binds or takes the listening
    /// sockets: so a fault of the store comes before one of a socket. A port that is in use is tried again for two seconds, in pauses by the
    /// system's clock. Then the store is carried over to version 2, if it can be, so that a start which finds a socket at fault leaves the
    /// store as it was. A refusal returns the disk.
    /// `watch` sees what the server sends.
    ///
    /// What a relay port sends to an address of the server's own is lost, but for relay ports and local peers. Where the server listens at
    /// 0.0.0.0, or binds relay ports there, the machine's addresses are its own. They are read of the kernel's list of routes. Until that can
    /// be read none but those with a name is its own, but for the ports that clients send to: what a relay port sends there is lost, whoever
    /// the peer is.
    ///
    /// ```rust
    /// let (relay_bind, commits, seed) = (ip(b"127.0.0.1"), Commits::EachTurn, [0; 32]);
    /// let local_peers = &LocalPeers::new();
    /// let setup = Setup { config: &config, listen: &listen, ports, relay_bind, local_peers, burst: 64, commits, seed, awaited: None };
    /// let serving = match setup.start(alloc, &rt, &rt, disk, users, ListeningSockets::Bound, Silent) {
    ///     Ok(serving) => serving,
    ///     Err(refused) => bail!("not started: {}", refused.fault),
    /// };
    /// assert!(rt; serving.local().port != 0);
    /// ```
    pub fn start<
        'a,
        D: Disk + Drop,
        H: AuthHandler + Drop,
        R: Net + Files + Drop,
        C: Clock,
        W: Watch + Drop,
    >(
        &self,
        alloc: A,
        net: &'a R,
        system: &C,
        disk: D,
        handler: H,
        sockets: ListeningSockets<A>,
        watch: W,
    ) -> Result<SocketServing<'a, D, H, R, A, W>, SetupError<D>>
        ensures started { IfOk result (λ serving. Started D.Disk H.AuthHandler ⟦<SocketPorts<'a, R, A> as RelayAddressGenerator>⟧
            disk self.now.config.now handler self.now.ports serving.server) }
        // The relay port of each allocation has a socket, and each reserved port.
        ensures sockets { IfOk result (λ serving. have_ports (⟦<SocketPorts<'a, R, A> as RelaySockets>⟧.has_socket serving.server.machine.ports)
            serving.server.machine.table.contents ≡ true) }
        // And no other port has one.
        ensures held { IfOk result (λ serving. HoldsPorts ⟦<SocketPorts<'a, R, A> as RelayAddressGenerator>⟧.holds serving.server.machine None) }
        // The next port is drawn by the seed.
        ensures draws { IfOk result (λ serving. serving.server.machine.ports.draws ≡ draws_of self.now.seed) }
        // No datagram waits, and turns are taken as the setup says.
        ensures waits { IfOk result (λ serving. (f : FiveTuple) → waiting_of serving.backlog f ≡ []) }
        // No socket has received or sent anything, and each listening address has one.
        ensures passed { IfOk result (λ serving. serving.passed ≡ []) }
        ensures own { IfOk result (λ serving. HasSockets serving.addresses.sockets serving.addresses.own.listening) }
        // Its own addresses are those of the setup, and where the system was to choose a port, the one that it chose.
        ensures own_addresses { IfOk result (λ serving. AreOwnAs (record {
          listening = self.now.listen.now;
          relay = self.now.config.now.relay;
          bound = unwrap_or self.now.relay_bind self.now.config.now.relay;
          ports = self.now.ports;
          local_peers = self.now.local_peers.now;
        }) serving.addresses.own) }
        // Relay ports are bound at the address of the configuration, if the setup has no other one.
        ensures relay_bound { IfOk result (λ serving. ⟦<SocketPorts<'a, R, A> as RelaySockets>⟧.bound serving.server.machine.ports
            ≡ unwrap_or self.now.relay_bind self.now.config.now.relay) }
        // What was sent to each listening address has the same share of what may wait.
        ensures room { IfOk result (λ serving. serving.backlog.room ≡ room_of serving.addresses.own.listening) }
        ensures manner { IfOk result (λ serving. serving.manner
            ≡ record { commits = self.now.commits; burst = self.now.burst }) }
        // A store that isn't of version 1 keeps its content, and each one does at a refusal before it may be carried over.
        ensures same { IfOk result (λ serving. D.follows_crash_model serving.server.store.disk
            → (IsOfVersion Version.V1 (D.trace disk).now.bytes → ⊥)
            → (D.trace serving.server.store.disk).now.bytes ≡ (D.trace disk).now.bytes) }
        ensures same_err { IfErr result (λ r. D.follows_crash_model r.disk → (IsOfVersion Version.V1 (D.trace disk).now.bytes → ⊥)
            → (D.trace r.disk).now.bytes ≡ (D.trace disk).now.bytes) }
        ensures before_err { IfErr result (λ r. D.follows_crash_model r.disk → IsBeforeCarrying r.fault
            → (D.trace r.disk).now.bytes ≡ (D.trace disk).now.bytes) }

        // A stop at any moment of the start leaves images of the same history, and of version 2 if all were, and so does a refusal.
        ensures stop { IfOk result (λ serving. KeepsImages D.Disk disk serving.server.store.disk) }
        ensures stop_err { IfErr result (λ r. KeepsImages D.Disk disk r.disk) }

        // A fault of the store is the first one of its content, and none but of the device or of memory if that is sound.
        ensures refused { IfErr result (λ r. IfOfStore r.fault (IsRefusedFor D.Disk disk r.disk self.now.config.now.limits)) }
    {
        let (opened, config) = match self.open(alloc, disk) {
            Ok(opened) => opened,
            Err(StoreOpenError { fault, disk }) => {
                return Err(SetupError {
                    fault: StartError::Store(fault),
                    disk,
                });
            }
        };
        let beside = match self.bind_beside(alloc, net, system, &opened.table, sockets, watch) {
            Ok(beside) => beside,
            Err(fault) => {
                let Opened { store, table: _ } = opened;
                return Err(SetupError {
                    fault: StartError::from(fault),
                    disk: store.into_disk(),
                });
            }
        };
        let Beside {
            ports,
            listening,
            waiting,
            traffic,
            placeholder,
        } = beside;
        // This may write, so it comes behind all that a socket may refuse.
        let opened = match opened.carry_over(alloc) {
            Ok(opened) => opened,
            Err(StoreOpenError { fault, disk }) => {
                return Err(SetupError {
                    fault: StartError::Carry(fault),
                    disk,
                });
            }
        };
        let server = match Server::over(alloc, opened, config, handler, ports) {
            Ok(server) => server,
            Err(refused) => {
                return Err(SetupError {
                    fault: StartError::Carry(refused.fault),
                    disk: refused.disk,
                });
            }
        };
        let manner = Manner {
            commits: self.commits,
            burst: self.burst,
        };
        Ok(Serving::new(server, listening, waiting, traffic, placeholder, manner))
    }
}
