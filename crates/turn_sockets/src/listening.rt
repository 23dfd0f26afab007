//! The addresses that clients send to.

ghost use Rattle.std.specs.Prelude.{◌≡◌, ◌≢◌, ◌<◌, ◌≤◌, ◌⊎◌, ◌++◌, ◌∷◌, ◌&&◌, [], Contains, IsTrue, SomeIff, false, length, nat_eq, slice_index, slice_index_or, slice_set, true};
ghost use Rattle.std.specs.List.{list_any};
ghost use Rattle.turn_sockets.specs.Own.{AreListened};

use arrayvec::ArrayVec;
use std::marker::Model;
use turn_types::Endpoint;

/// How many addresses a server may listen on.
pub const MAX_LISTENING: usize = 9;

/// The addresses that clients send to: one to nine, in the order in which they were given.
#[derive(Debug, Drop)]
pub struct ListeningAddresses {
    addresses: ArrayVec<Endpoint, MAX_LISTENING>,
}

impl Model for ListeningAddresses {
    ghost use Rattle.std.specs.Prelude.{◌≤◌, List, length};
    ghost use Rattle.turn_types.specs.declared.address.Endpoint.{Endpoint};

    ghost Value = { List Endpoint };

    ghost view = { λ a. a.addresses.items };

    ghost invariant = { λ a. 1 ≤ length a.addresses.items };
}

/// Whether an address is one of these.
pub(crate) fn is_among(addresses: &[Endpoint], address: Endpoint) -> bool
    ensures { result ≡ list_any (λ a. nat_eq a.ip address.ip && nat_eq a.port address.port) addresses.now }
{
    addresses
        .iter()
        .any(|a| a.ip == address.ip && a.port == address.port)
}

impl ListeningAddresses {
    /// One address alone.
    pub fn one(address: Endpoint) -> ListeningAddresses
        ensures { result ≡ address ∷ [] }
    {
        let mut addresses = ArrayVec::new();
        addresses.push(address);
        ListeningAddresses { addresses }
    }

    // Adds an address. False if it is there already, or there are nine.
    fn add(&mut self, address: Endpoint) -> bool
        ensures added { result ≡ true → (self.new ≡ self.old ++ address ∷ []) × (length self.old < 9) × ¬ Contains self.old address }
        ensures refused { result ≡ false → Contains self.old address ⊎ (length self.old ≡ 9) }
    {
        if self.addresses.is_full() {
            return false;
        }
        if is_among(self.as_slice(), address) {
            return false;
        }
        self.addresses.push(address);
        true
    }

    /// An address and others. `None` if one is there twice, or there are more than nine.
    ///
    /// ```rust
    /// let listen = ListeningAddresses::new(peer, &[five_tuple.server]).context("addresses")?;
    /// assert!(rt; listen.first() == peer && listen.as_slice().len() == 2);
    /// assert!(rt; ListeningAddresses::new(peer, &[peer]).is_none());
    /// ```
    pub fn new(first: Endpoint, others: &[Endpoint]) -> Option<ListeningAddresses>
        ensures { SomeIff result (AreListened (first ∷ others.now)) (first ∷ others.now) }
    {
        let mut all = ListeningAddresses::one(first);
        for address in others {
            if !all.add(*address) {
                return None;
            }
        }
        Some(all)
    }

    /// The same addresses.
    pub fn copied(&self) -> ListeningAddresses
        ensures { result ≡ self.now }
    {
        let mut addresses = ArrayVec::new();
        // There is room for all.
        let _ = addresses.try_extend_from_slice(self.as_slice());
        ListeningAddresses { addresses }
    }

    /// The addresses, at least one and at most nine.
    pub fn as_slice(&self) -> &[Endpoint]
        ensures value { result.now ≡ self.now }
        ensures some { 1 ≤ length result.now }
        ensures few { length result.now ≤ 9 }
    {
        self.addresses.as_slice()
    }

    /// The first address.
    pub fn first(&self) -> Endpoint
        ensures { result ≡ slice_index_or self.now 0 result }
    {
        self.as_slice()[0]
    }

    /// Puts an address in the place of another one, as where the system was to choose its port.
    pub fn set(&mut self, place: usize, address: Endpoint)
        requires { place < length self.old }
        ensures { self.new ≡ slice_set self.old place address }
    {
        let listed = self.addresses.as_mut_slice();
        listed[place] = address;
    }
}
