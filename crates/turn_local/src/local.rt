//! Ranges of ports at addresses.

ghost use Rattle.std.specs.Prelude.{◌≡◌, ◌<◌, ◌≤◌, ◌++◌, ◌∷◌, [], false, length, true};
ghost use Rattle.turn_local.specs.Local.{is_local_peer, is_of};

use arrayvec::ArrayVec;
use std::marker::Model;
use turn_types::Endpoint;

/// How many local peers a configuration may name.
pub const MAX_LOCAL_PEERS: usize = 16;

/// The ports of a range at one address.
#[derive(Clone, Copy, Debug, Default, PartialEq, Eq)]
pub struct LocalPeer {
    /// The address.
    pub ip: u32,
    /// The first port.
    pub first: u16,
    /// The last port.
    pub last: u16,
}

impl LocalPeer {
    /// Whether an endpoint is at the address, with a port of the range.
    fn has(&self, peer: Endpoint) -> bool
        ensures { result ≡ is_of self.now peer }
    {
        peer.ip == self.ip && self.first <= peer.port && peer.port <= self.last
    }
}

/// Whether an endpoint is of one of these.
fn have(peers: &[LocalPeer], peer: Endpoint) -> bool
    ensures { result ≡ is_local_peer peers.now peer }
{
    peers.iter().any(|local| local.has(peer))
}

/// The peers on a server's own machine that its relay ports may send to, at most 16, in the order in which they were given.
#[derive(Debug, Drop)]
pub struct LocalPeers {
    peers: ArrayVec<LocalPeer, MAX_LOCAL_PEERS>,
}

impl Model for LocalPeers {
    ghost use Rattle.std.specs.Prelude.{List};
    ghost use Rattle.turn_local.specs.declared.local.LocalPeer.{LocalPeer};

    ghost Value = { List LocalPeer };

    ghost view = { λ l. l.peers.items };
}

impl LocalPeers {
    /// None.
    pub fn new() -> LocalPeers
        ensures { result ≡ [] }
    {
        LocalPeers {
            peers: ArrayVec::new(),
        }
    }

    /// Adds ports at an address. False if there are 16 already: then these stay as they were.
    pub fn add(&mut self, peer: LocalPeer) -> bool
        ensures added { result ≡ true → (self.new ≡ self.old ++ peer ∷ []) × (length self.old < 16) }
        ensures refused { result ≡ false → (self.new ≡ self.old) × (16 ≤ length self.old) }
    {
        if self.peers.is_full() {
            return false;
        }
        self.peers.push(peer);
        true
    }

    /// The same peers.
    pub fn copied(&self) -> LocalPeers
        ensures { result ≡ self.now }
    {
        let mut peers = ArrayVec::new();
        // There is room for all.
        let _ = peers.try_extend_from_slice(self.as_slice());
        LocalPeers { peers }
    }

    /// The peers.
    pub fn as_slice(&self) -> &[LocalPeer]
        ensures value { result.now ≡ self.now }
        ensures few { length result.now ≤ 16 }
    {
        self.peers.as_slice()
    }

    /// Whether an endpoint is one of these.
    pub fn has(&self, peer: Endpoint) -> bool
        ensures { result ≡ is_local_peer self.now peer }
    {
        have(self.as_slice(), peer)
    }
}
