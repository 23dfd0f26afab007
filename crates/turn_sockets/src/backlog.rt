//! Datagrams of clients that wait for a commit.

ghost use Rattle.std.specs.Prelude.{◌≡◌, ◌≢◌, ◌+◌, ◌<◌, ◌≤◌, ◌++◌, ◌∷◌, ◌&&◌, ◌==◌, ◌↔◌, not, ℕ, [], All, IfOk, IfSome, IfNone, OnOk, IsSome, IsTrue, None, Ok, Some, count_by, false, length, map, nat_eq, position, slice_index_or, true};
ghost use Rattle.std.specs.List.{list_any};
ghost use Rattle.turn_types.specs.declared.address.Endpoint.{Endpoint};
ghost use Rattle.turn_types.specs.declared.address.FiveTuple.{FiveTuple};
ghost use Rattle.turn_sockets.specs.Backlog.{AreApart, HasRoom, IsNext, TakesTurns, addresses_of, count_of, datagrams_at, has_queue, has_some, if_same, is_same, size_of, waiting_of};

use std::alloc::{AllocError, Allocator, Global};
use std::collections::VecDeque;
use std::marker::Model;
use turn_types::{Endpoint, FiveTuple};

/// A datagram of a client that waits.
#[derive(Drop)]
struct Waiting<A: Allocator = Global> {
    client: Endpoint,
    bytes: Vec<u8, A>,
}

/// What waits of the datagrams that were sent to one address of the server, in the order in which they came.
#[derive(Drop)]
struct Queue<A: Allocator = Global> {
    server: Endpoint,
    datagrams: VecDeque<Waiting<A>, A>,
    // How many bytes these have in all.
    size: usize,
}

impl<A: Allocator> Model for Queue<A> {
    ghost use Rattle.std.specs.Prelude.{◌≡◌, map};
    ghost use Rattle.turn_sockets.specs.Backlog.{QueueState, size_of};

    ghost Value = { QueueState };

    ghost view = { λ q. record { server = q.server; datagrams = map (λ d. (d.client, d.bytes.items)) q.datagrams.items } };

    ghost invariant = { λ q. size_of (map (λ d. (d.client, d.bytes.items)) q.datagrams.items) ≡ q.size };
}

/// How much may wait of what was sent to one address.
#[derive(Clone, Copy, Debug)]
pub struct Room {
    /// How many datagrams.
    pub datagrams: usize,
    /// How many datagrams of one client.
    pub of_one: usize,
    /// How many bytes in all.
    pub bytes: usize,
}

/// Whether two endpoints are the same.
fn is_same(a: Endpoint, b: Endpoint) -> bool
    ensures { result ≡ is_same a b }
{
    a.ip == b.ip && a.port == b.port
}

impl<A: Allocator + Copy> Queue<A> {
    /// No datagram that was sent to an address.
    fn new(alloc: A, server: Endpoint) -> Queue<A>
        ensures { result ≡ record { server = server; datagrams = [] } }
    {
        Queue {
            server,
            datagrams: VecDeque::new(alloc),
            size: 0,
        }
    }

    fn is_empty(&self) -> bool
        ensures { result ≡ (length self.now.datagrams == 0) }
    {
        self.datagrams.is_empty()
    }

    /// Whether it is that of an address.
    fn is_of(&self, server: Endpoint) -> bool
        ensures { result ≡ is_same self.now.server server }
    {
        is_same(self.server, server)
    }

    /// How many datagrams a client has.
    fn count_of(&self, client: Endpoint) -> usize
        ensures { result ≡ count_of client self.now.datagrams }
    {
        let mut count = 0;
        for place in 0..self.datagrams.len() {
            if is_same(self.datagrams[place].client, client) {
                count += 1;
            }
        }
        count
    }

    /// Whether there is room for a datagram of so many bytes.
    fn has_room(&self, room: Room, client: Endpoint, size: usize) -> bool
        ensures { IsTrue result ↔ HasRoom room self.now.datagrams client size }
    {
        self.datagrams.len() < room.datagrams
            && self.size <= room.bytes
            && size <= room.bytes - self.size
            && self.count_of(client) < room.of_one
    }

    /// Adds a datagram. False if there is no room for it.
    fn push(
        &mut self,
        alloc: A,
        room: Room,
        client: Endpoint,
        bytes: &[u8],
    ) -> Result<bool, AllocError>
        ensures done { result ≡ Ok true → self.new ≡ record self.old { datagrams = self.old.datagrams ++ (client, bytes.now) ∷ [] } }
        ensures room { result ≡ Ok true → HasRoom room self.old.datagrams client (length bytes.now) }
        ensures full { result ≡ Ok false → HasRoom room self.old.datagrams client (length bytes.now) → ⊥ }
        ensures not_done { result ≢ Ok true → self.new ≡ self.old }
    {
        if !self.has_room(room, client, bytes.len()) {
            return Ok(false);
        }
        let bytes = Vec::from_slice(alloc, bytes)?;
        let size = bytes.len();
        self.datagrams.push_back(Waiting { client, bytes })?;
        self.size += size;
        Ok(true)
    }

    /// Removes the first datagram.
    fn pop(&mut self) -> Option<Waiting<A>>
        ensures none { result ≡ None → (self.new ≡ self.old) }
        ensures empty { (result ≡ None) ↔ (self.old.datagrams ≡ []) }
        ensures first { IfSome result (λ w. self.old ≡ record self.new { datagrams = (w.client, w.bytes.items) ∷ self.new.datagrams }) }
    {
        let waiting = self.datagrams.pop_front()?;
        self.size -= waiting.bytes.len();
        Some(waiting)
    }
}

/// Datagrams of clients that wait for a commit: a queue for each address of the server, so that nobody who sends to one of them
/// takes the places of those who send to another. Each has the same room.
#[derive(Drop)]
pub struct Backlog<A: Allocator = Global> {
    alloc: A,
    queues: Vec<Queue<A>, A>,
    room: Room,
    // The place of the queue whose turn it is.
    turn: usize,
}

impl<A: Allocator> Model for Backlog<A> {
    ghost use Rattle.std.specs.Prelude.{◌≤◌, length};
    ghost use Rattle.turn_sockets.specs.Backlog.{AreApart, BacklogState};

    ghost Value = { BacklogState };

    ghost view = { λ b. record { queues = b.queues.items; turn = b.turn; room = b.room } };

    ghost invariant = { λ b. AreApart b.queues.items × (b.turn ≤ length b.queues.items) };
}

/// The place of the queue of an address.
fn place_of<A: Allocator + Copy>(queues: &[Queue<A>], server: Endpoint) -> Option<usize>
    ensures { result ≡ position (λ q. is_same q.server server) queues.now }
{
    queues.iter().position(|queue| queue.is_of(server))
}

/// The place of the first queue from this one on that has datagrams.
fn first_from<A: Allocator + Copy>(queues: &[Queue<A>], first: usize) -> Option<usize>
    ensures found { IfSome result (λ p. (first ≤ p) × (p < length queues.now) × (has_some queues.now p ≡ true)) }
    ensures before { IfSome result (λ p. (k : ℕ) → first ≤ k → k < p → has_some queues.now k ≡ false) }
    ensures none { IfNone result ((k : ℕ) → first ≤ k → k < length queues.now → has_some queues.now k ≡ false) }
{
    for place in first..queues.len() {
        if !queues[place].is_empty() {
            return Some(place);
        }
    }
    None
}

/// The place of the queue whose turn it is or, if that has none, of the next one that has datagrams; after the last comes the first.
fn next_place<A: Allocator + Copy>(queues: &[Queue<A>], turn: usize) -> Option<usize>
    ensures next { IfSome result (IsNext queues.now turn) }
    ensures none { IfNone result ((k : ℕ) → k < length queues.now → has_some queues.now k ≡ false) }
{
    match first_from(queues, turn) {
        Some(place) => Some(place),
        None => first_from(queues, 0),
    }
}

/// Adds a queue for an address, if there is none.
fn add_queue<A: Allocator + Copy>(
    alloc: A,
    queues: &mut Vec<Queue<A>, A>,
    server: Endpoint,
) -> Result<(), AllocError>
    requires { AreApart queues.old.items }
    ensures queue { OnOk result (has_queue queues.new.items server ≡ true) }
    ensures others { (e : Endpoint) → has_queue queues.old.items e ≡ true → has_queue queues.new.items e ≡ true }
    ensures apart { AreApart queues.new.items }
    ensures empty { ((e : Endpoint) → datagrams_at queues.old.items e ≡ []) → (e : Endpoint) → datagrams_at queues.new.items e ≡ [] }
{
    match place_of(queues, server) {
        Some(_) => Ok(()),
        None => Ok(queues.push(Queue::new(alloc, server))?),
    }
}

impl<A: Allocator + Copy> Backlog<A> {
    /// Nothing waits. There is a queue for each of these addresses.
    pub fn new(alloc: A, addresses: &[Endpoint], room: Room) -> Result<Backlog<A>, AllocError>
        ensures queues { IfOk result (λ b. All (λ e. has_queue b.queues e ≡ true) addresses.now) }
        ensures room { IfOk result (λ b. b.room ≡ room) }
        ensures empty { IfOk result (λ b. (f : FiveTuple) → waiting_of b f ≡ []) }
    {
        let mut queues = Vec::with_capacity(alloc, addresses.len())?;
        for server in addresses {
            add_queue(alloc, &mut queues, *server)?;
        }
        Ok(Backlog {
            alloc,
            queues,
            room,
            turn: 0,
        })
    }

    /// Whether nothing waits.
    pub fn is_empty(&self) -> bool
        ensures { IsTrue result ↔ ((k : ℕ) → k < length self.now.queues → has_some self.now.queues k ≡ false) }
    {
        first_from(&self.queues, 0).is_none()
    }

    /// Whether something of this five-tuple waits.
    pub fn has(&self, five_tuple: FiveTuple) -> bool
        ensures { result ≡ not (length (waiting_of self.now five_tuple) == 0) }
    {
        match place_of(&self.queues, five_tuple.server) {
            Some(place) => self.queues[place].count_of(five_tuple.client) != 0,
            None => false,
        }
    }

    /// Adds a datagram. False if there is no queue for its address, or no room for it.
    pub fn push(&mut self, five_tuple: FiveTuple, bytes: &[u8]) -> Result<bool, AllocError>
        // It waits behind what waits of the same five-tuple, and all else is as it was.
        ensures order { result ≡ Ok true → (g : FiveTuple) → waiting_of self.new g ≡ waiting_of self.old g ++ if_same five_tuple g bytes.now }
        ensures room { result ≡ Ok true → HasRoom self.old.room (datagrams_at self.old.queues five_tuple.server) five_tuple.client (length bytes.now) }
        ensures full { result ≡ Ok false → has_queue self.old.queues five_tuple.server ≡ true
            → HasRoom self.old.room (datagrams_at self.old.queues five_tuple.server) five_tuple.client (length bytes.now) → ⊥ }
        ensures refused { result ≢ Ok true → self.new ≡ self.old }
        ensures same_room { self.new.room ≡ self.old.room }
        ensures same_addresses { addresses_of self.new.queues ≡ addresses_of self.old.queues }
    {
        let (alloc, room) = (self.alloc, self.room);
        let FiveTuple { client, server } = five_tuple;
        match place_of(&self.queues, server) {
            Some(place) => {
                let queue = &mut self.queues[place];
                queue.push(alloc, room, client, bytes)
            }
            None => Ok(false),
        }
    }

    /// Removes the first datagram of the queue whose turn it is or, if that has none, of the next one that has some.
    pub fn pop(&mut self) -> Option<(FiveTuple, Vec<u8, A>)>
        // It is the first that waits of its five-tuple, and all else is as it was.
        ensures order { IfSome result (λ w. (g : FiveTuple) → waiting_of self.old g ≡ if_same w.0 g w.1.items ++ waiting_of self.new g) }
        ensures turns { IfSome result (λ w. TakesTurns self.old self.new) }
        ensures none { result ≡ None → self.new ≡ self.old }
        ensures same_room { self.new.room ≡ self.old.room }
        ensures same_addresses { addresses_of self.new.queues ≡ addresses_of self.old.queues }
        ensures empty { (result ≡ None) ↔ ((k : ℕ) → k < length self.old.queues → has_some self.old.queues k ≡ false) }
    {
        let place = next_place(&self.queues, self.turn)?;
        let queue = &mut self.queues[place];
        let server = queue.server;
        let Waiting { client, bytes } = queue.pop()?;
        self.turn = place + 1;
        Some((FiveTuple { client, server }, bytes))
    }
}
