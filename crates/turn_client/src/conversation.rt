//! A client and a peer that talk over a server, all on the loopback and in one thread.

ghost use Rattle.std.specs.Prelude.{◌≡◌};

use crate::client::{Client, ClientCredentials};
use crate::error::ClientError;
use crate::socket::TimedSocket;
use std::alloc::{AllocError, Allocator, Global};
use std::marker::Model;
use std::net::Net;
use std::rt::{Clock, Files};
use turn_codec::{ChannelData, Message};
use turn_cred::Users;
use turn_disk::Disk;
use turn_mac::generate_auth_key;
use turn_ports::PortRange;
use turn_requests::{Attribute, ServerMessage, read_message};
use turn_serving::{Commits, ListeningSockets, Setup, Silent, SocketServing};
use turn_sockets::{ListeningAddresses, LocalPeer, LocalPeers};
use turn_types::{Bounds, ConfigError, Endpoint, Limits, Method, ServerConfig, Settings};

/// 127.0.0.1.
const LOOPBACK: u32 = 0x7F00_0001;

/// Any free port of the loopback.
const ANY_PORT: Endpoint = Endpoint {
    ip: LOOPBACK,
    port: 0,
};

const CREDENTIALS: ClientCredentials<'static> = ClientCredentials {
    user: b"alice",
    realm: b"example.org",
    password: b"wonder",
};

/// The peers of a conversation, which are on its server's machine: any port of the loopback.
fn local_peers() -> LocalPeers {
    let mut peers = LocalPeers::new();
    peers.add(LocalPeer {
        ip: LOOPBACK,
        first: 0,
        last: u16::MAX,
    });
    peers
}

/// The limits of the server: its store needs few bytes.
pub fn limits() -> Limits
    ensures { result ≡ record { allocations = 4; permissions = 4; channels = 4; acts = 4; name_bytes = 16 } }
{
    let bounds = Bounds {
        allocations: 4,
        permissions: 4,
        channels: 4,
        acts: 4,
        name_bytes: 16,
    };
    Limits::new(bounds).unwrap_or(Limits::MAX)
}

/// What each start of the server is given.
#[derive(Drop)]
struct Plan<'a, R: Net, A: Allocator + Copy> {
    alloc: A,
    net: &'a R,
    config: ServerConfig<A>,
    ports: PortRange,
    burst: u8,
    commits: Commits,
}

/// What is there also while no server runs: its configuration, a client, and a peer.
#[derive(Drop)]
pub struct Loopback<'a, R: Net, A: Allocator + Copy = Global> {
    plan: Plan<'a, R, A>,
    users: Users<A>,
    // Where the server listens; port 0 before it ran.
    listen: ListeningAddresses,
    client: Client<'static, A>,
    peer: TimedSocket<A>,
}

// Clauses see nothing of it, which keeps the proofs of callers small.
impl<'a, R: Net, A: Allocator + Copy> Model for Loopback<'a, R, A> {
    ghost Value = { Unit {0} };

    ghost view = { λ _. tt };
}

/// A server that runs, with a client and a peer. Each step sends one datagram, takes one turn of the server, and receives
/// what comes of it.
#[derive(Drop)]
pub struct Conversation<'a, D: Disk + Drop, R: Net + Files, A: Allocator + Copy = Global> {
    plan: Plan<'a, R, A>,
    serving: SocketServing<'a, D, Users<A>, R, A>,
    client: Client<'static, A>,
    peer: TimedSocket<A>,
}

// Clauses see nothing of it, which keeps the proofs of callers small.
impl<'a, D: Disk + Drop, R: Net + Files, A: Allocator + Copy> Model for Conversation<'a, D, R, A> {
    ghost Value = { Unit {0} };

    ghost view = { λ _. tt };
}

/// An Allocate, the success that it got, and what that says.
#[derive(Drop)]
pub struct Allocated<A: Allocator = Global> {
    /// The whole datagram of the request.
    pub request: Vec<u8, A>,
    /// The whole datagram of the response.
    pub response: Vec<u8, A>,
    /// The relayed port.
    pub port: u16,
    /// In seconds.
    pub lifetime: u32,
}

fn make_config<A: Allocator + Copy>(alloc: A) -> Result<ServerConfig<A>, AllocError> {
    let settings = Settings {
        realm: CREDENTIALS.realm,
        secret: [0; 32],
        relay: LOOPBACK,
        quota: 4,
        denied: &[],
        limits: limits(),
    };
    match ServerConfig::new(alloc, settings) {
        Ok(config) => Ok(config),
        Err(ConfigError::Memory) => Err(AllocError),
        Err(_) => unreachable!(),
    }
}

/// What relay ports are drawn from: other bytes for each client, so that two conversations at once seldom ask for the same ports.
fn seed_of(client: Endpoint) -> [u8; 32] {
    let [high, low] = client.port.to_be_bytes();
    let mut seed = [0u8; 32];
    seed[0] = high;
    seed[1] = low;
    seed
}

fn make_users<A: Allocator + Copy>(alloc: A) -> Result<Users<A>, AllocError> {
    let ClientCredentials {
        user,
        realm,
        password,
    } = CREDENTIALS;
    let mut users = Users::new(alloc);
    users.add(user, generate_auth_key(user, realm, password))?;
    Ok(users)
}

impl<'a, R: Net + Files + Drop, A: Allocator + Copy> Loopback<'a, R, A> {
    /// A client and a peer with sockets of their own, and a server to be, with relay ports of a range, which takes up to so
    /// many datagrams of a socket in a turn, and commits so.
    pub fn new(
        alloc: A,
        net: &'a R,
        ports: PortRange,
        burst: u8,
        commits: Commits,
    ) -> Result<Loopback<'a, R, A>, ClientError> {
        let client = Client::open(alloc, net, ANY_PORT, ANY_PORT, CREDENTIALS)?;
        let peer = TimedSocket::open(alloc, net, ANY_PORT)?;
        let plan = Plan {
            alloc,
            net,
            config: make_config(alloc)?,
            ports,
            burst,
            commits,
        };
        Ok(Loopback {
            plan,
            users: make_users(alloc)?,
            listen: ListeningAddresses::one(ANY_PORT),
            client,
            peer,
        })
    }

    /// From now on the server listens on these addresses once it is started.
    pub fn set_listen(&mut self, listen: ListeningAddresses) {
        self.listen = listen;
    }

    /// Starts the server over a disk. The clock is for pauses where a port is in use.
    pub fn serve<D: Disk + Drop, C: Clock>(
        self,
        system: &C,
        disk: D,
    ) -> Result<Conversation<'a, D, R, A>, ClientError> {
        let Loopback {
            plan,
            users,
            listen,
            mut client,
            peer,
        } = self;
        let setup = Setup {
            config: &plan.config,
            listen: &listen,
            ports: plan.ports,
            relay_bind: None,
            local_peers: &local_peers(),
            burst: plan.burst,
            commits: plan.commits,
            seed: seed_of(client.local()),
            awaited: None,
        };
        let serving = setup.start(
            plan.alloc,
            plan.net,
            system,
            disk,
            users,
            ListeningSockets::Bound,
            Silent,
        )?;
        client.set_server(serving.local());
        Ok(Conversation {
            plan,
            serving,
            client,
            peer,
        })
    }
}

impl<'a, D: Disk + Drop, R: Net + Files + Drop, A: Allocator + Copy> Conversation<'a, D, R, A> {
    /// Ends the server, and returns its disk.
    pub fn end(self) -> (D, Loopback<'a, R, A>) {
        let Conversation {
            plan,
            serving,
            client,
            peer,
        } = self;
        let listen = serving.locals().copied();
        let (disk, users) = serving.close();
        let loopback = Loopback {
            plan,
            users,
            listen,
            client,
            peer,
        };
        (disk, loopback)
    }

    /// The client.
    pub fn client(&mut self) -> &mut Client<'static, A> {
        &mut self.client
    }

    /// One turn of the server.
    pub fn turn<C: Clock>(&mut self, clock: &C) -> Result<(), ClientError> {
        self.serving.turn(&clock)?;
        Ok(())
    }

    /// The address of the server, the first if it has several.
    pub fn server(&self) -> Endpoint {
        self.serving.local()
    }

    /// The addresses of the server.
    pub fn servers(&self) -> &ListeningAddresses {
        self.serving.locals()
    }

    /// The address of the peer.
    pub fn peer(&self) -> Endpoint {
        self.peer.local()
    }

    // Sends a datagram to the server, and returns its answer.
    fn exchange<C: Clock>(&mut self, clock: &C, bytes: &[u8]) -> Result<Message<'_>, ClientError> {
        self.client.send(bytes)?;
        self.turn(clock)?;
        self.client.receive_message()
    }

    /// An Allocate without credentials. Returns the code of the challenge, and keeps its nonce.
    pub fn challenge<C: Clock>(&mut self, clock: &C) -> Result<u16, ClientError> {
        let request = self.client.plain_request(Method::ALLOCATE)?;
        self.client.send(&request)?;
        self.turn(clock)?;
        self.client.take_challenge()
    }

    /// An Allocate with the nonce of the last challenge. `Unexpected` where anything but a success comes.
    pub fn allocate<C: Clock>(&mut self, clock: &C) -> Result<Allocated<A>, ClientError> {
        let alloc = self.plan.alloc;
        let request = self.client.request(Method::ALLOCATE, &[])?;
        let message = self.exchange(clock, &request)?;
        let Some(ServerMessage::Allocated { port, lifetime, .. }) = read_message(&message) else {
            return Err(ClientError::Unexpected);
        };
        let response = Vec::from_slice(alloc, message.as_bytes())?;
        Ok(Allocated {
            request,
            response,
            port,
            lifetime,
        })
    }

    /// Sends an Allocate again. Returns whether the response is the same.
    pub fn repeat<C: Clock>(
        &mut self,
        clock: &C,
        first: &Allocated<A>,
    ) -> Result<bool, ClientError> {
        let message = self.exchange(clock, &first.request)?;
        Ok(message.as_bytes() == first.response.as_slice())
    }

    // A request that gets a success without values.
    fn ask<C: Clock>(
        &mut self,
        clock: &C,
        method: Method,
        attributes: &[Attribute],
    ) -> Result<(), ClientError> {
        let request = self.client.request(method, attributes)?;
        let message = self.exchange(clock, &request)?;
        match read_message(&message) {
            Some(ServerMessage::Success) => Ok(()),
            _ => Err(ClientError::Unexpected),
        }
    }

    /// A CreatePermission for the peer.
    pub fn permit<C: Clock>(&mut self, clock: &C) -> Result<(), ClientError> {
        let peer = self.peer();
        self.ask(clock, Method::CREATE_PERMISSION, &[Attribute::Peer(peer)])
    }

    /// A ChannelBind of a number to the peer.
    pub fn bind<C: Clock>(&mut self, clock: &C, number: u16) -> Result<(), ClientError> {
        let peer = self.peer();
        let attributes = [Attribute::Channel(number), Attribute::Peer(peer)];
        self.ask(clock, Method::CHANNEL_BIND, &attributes)
    }

    /// A Refresh for a number of seconds. Returns how many are granted.
    pub fn refresh<C: Clock>(&mut self, clock: &C, seconds: u32) -> Result<u32, ClientError> {
        let attributes = [Attribute::Lifetime(seconds)];
        let request = self.client.request(Method::REFRESH, &attributes)?;
        let message = self.exchange(clock, &request)?;
        match read_message(&message) {
            Some(ServerMessage::Refreshed(granted)) => Ok(granted),
            _ => Err(ClientError::Unexpected),
        }
    }

    // What the peer gets from a relayed port.
    fn at_peer<C: Clock>(&mut self, clock: &C, port: u16) -> Result<Vec<u8, A>, ClientError> {
        self.turn(clock)?;
        let alloc = self.plan.alloc;
        let (bytes, from) = self.peer.receive()?;
        if from.ip != LOOPBACK || from.port != port {
            return Err(ClientError::Unexpected);
        }
        Ok(Vec::from_slice(alloc, bytes)?)
    }

    /// Sends data to the peer in a Send indication. Returns what the peer gets from this relayed port.
    pub fn send<C: Clock>(
        &mut self,
        clock: &C,
        port: u16,
        payload: &[u8],
    ) -> Result<Vec<u8, A>, ClientError> {
        self.client.send_to_peer(self.peer.local(), payload)?;
        self.at_peer(clock, port)
    }

    /// Sends data over a channel. Returns what the peer gets from this relayed port.
    pub fn send_over<C: Clock>(
        &mut self,
        clock: &C,
        number: u16,
        port: u16,
        payload: &[u8],
    ) -> Result<Vec<u8, A>, ClientError> {
        self.client.send_over_channel(number, payload)?;
        self.at_peer(clock, port)
    }

    // The peer sends data to a relayed port.
    fn send_back<C: Clock>(
        &mut self,
        clock: &C,
        port: u16,
        payload: &[u8],
    ) -> Result<(), ClientError> {
        let relayed = Endpoint { ip: LOOPBACK, port };
        self.peer.send(relayed, payload)?;
        self.turn(clock)?;
        Ok(())
    }

    /// The peer sends data to a relayed port. Returns what the client gets in a Data indication.
    pub fn receive<C: Clock>(
        &mut self,
        clock: &C,
        port: u16,
        payload: &[u8],
    ) -> Result<Vec<u8, A>, ClientError> {
        self.send_back(clock, port, payload)?;
        let (alloc, peer) = (self.plan.alloc, self.peer());
        let message = self.client.receive_message()?;
        match read_message(&message) {
            Some(ServerMessage::Data(from, bytes)) if from == peer => Ok(Vec::from_slice(
                alloc, bytes,
            )?),
            _ => Err(ClientError::Unexpected),
        }
    }

    /// The peer sends data to a relayed port. Returns what the client gets over a channel.
    pub fn receive_over<C: Clock>(
        &mut self,
        clock: &C,
        number: u16,
        port: u16,
        payload: &[u8],
    ) -> Result<Vec<u8, A>, ClientError> {
        self.send_back(clock, port, payload)?;
        let alloc = self.plan.alloc;
        let data = ChannelData::parse(self.client.receive()?).ok_or(ClientError::Unexpected)?;
        if data.number != number {
            return Err(ClientError::Unexpected);
        }
        Ok(Vec::from_slice(alloc, data.payload)?)
    }
}
