//! Which socket is read next.

ghost use Rattle.std.specs.Prelude.{◌≡◌, ◌+◌, ◌==◌, ◌&&◌, min, not, slice_index_or, length, nat_lt, IfOk, IfSome, OnErr, OnOk, None, false, map, option_map, true};
ghost use Rattle.mio.specs.Event.{event_token};
ghost use Rattle.mio.specs.Events.{items};
ghost use Rattle.turn_sockets.specs.Fairness.{EachIsVisited, FreshComeFirst, NoneStarves};
ghost use Rattle.turn_sockets.specs.Schedule.{begun, begun_for_each, can_list, counted, is_turn_of_clients, next_of, nothing_ready, since_after, source_of, with_all_ready, with_more, with_ready};

use crate::held::MAX_HELD;
use mio::Events;
use std::alloc::{AllocError, AllocFailed, Allocator, Global};
use std::collections::VecDeque;
use std::marker::Model;
use std::mem;

/// The token of the first listening socket; the next ones have the next tokens. A relay socket's token is its port.
pub const LISTENING: usize = 65_536;

/// How many tokens there are: one for each port, and those of the listening sockets.
const TOKENS: usize = LISTENING + MAX_HELD;

/// How many relay sockets are visited between two visits of listening ones that have more.
const FEW: u8 = 4;

/// How many visits of sockets that were visited before there are in a round.
const VISITS: u8 = 8;

/// How many of these are kept for after the fresh sockets.
const KEPT_BACK: u8 = 2;

/// Of which sockets the next one is.
#[derive(Clone, Copy)]
pub(crate) enum Source {
    /// Those that became ready.
    Fresh,
    /// Listening sockets that may have more.
    Clients,
    /// Relay sockets that may have more.
    Peers,
    /// None: the round is over.
    Nothing,
}

/// The sockets that may have a datagram, and which of them is read next.
///
/// `mio` reports a socket once when it gets a datagram, and not again before it was read until nothing was left. So a socket that
/// was reported is listed until a read of it finds nothing.
///
/// Sockets are visited in rounds, each after a look at which became ready. Those that did are visited first, each once, in the order of
/// the report. A socket that has more after a visit comes after the others that have more. These are visited in turn, eight visits a
/// round, and a listening one wherever four relay sockets were visited since a listening one was. So a socket that gets a datagram
/// now and then doesn't wait for those that always have some. It is the idea of fq_codel (RFC 8290), of sockets.
#[derive(Drop)]
pub struct Schedule<A: Allocator = Global> {
    // By token, whether the socket is on one of the three lists.
    flags: Vec<bool, A>,
    fresh: VecDeque<usize, A>,
    clients: VecDeque<usize, A>,
    peers: VecDeque<usize, A>,
    // How many relay sockets were visited since a listening one was, at most four.
    since: u8,
    // How many visits of `clients` and `peers` there may still be in this round.
    left: u8,
}

impl<A: Allocator> Model for Schedule<A> {
    ghost use Rattle.turn_sockets.specs.Schedule.{Agenda, AreFlags};

    ghost Value = { Agenda };

    ghost view = { λ s. record { fresh = s.fresh.items; clients = s.clients.items; peers = s.peers.items; since = s.since; left = s.left } };

    ghost invariant = { λ s. AreFlags s.flags.items s.fresh.items s.clients.items s.peers.items };
}

impl<A: Allocator + Copy> Schedule<A> {
    /// No socket, with room for all, so that none is refused later.
    pub fn new(alloc: A) -> Result<Schedule<A>, AllocError>
        ensures { IfOk result (λ s. s ≡ nothing_ready) }
    {
        Ok(Schedule {
            flags: Vec::from_elem(alloc, false, TOKENS)?,
            fresh: VecDeque::with_capacity(alloc, TOKENS)?,
            clients: VecDeque::with_capacity(alloc, TOKENS)?,
            peers: VecDeque::with_capacity(alloc, TOKENS)?,
            since: 0,
            left: 0,
        })
    }
}

// Whether there is a socket of a token that isn't listed, by the flags of those that are.
fn is_unlisted(flags: &[bool], token: usize) -> bool
    ensures { result ≡ (nat_lt token (length flags.now) && not (slice_index_or flags.now token false)) }
{
    match flags.get(token) {
        Some(is_listed) => !*is_listed,
        None => false,
    }
}

// The count of relay sockets since a listening one, after a relay socket.
fn counted(since: u8) -> u8
    ensures { result ≡ counted since }
{
    if since < FEW { since + 1 } else { FEW }
}

// That count after a visit of any socket.
fn since_after(token: usize, since: u8) -> u8
    ensures { result ≡ since_after token since }
{
    if token < LISTENING { counted(since) } else { 0 }
}

impl<A: Allocator> Schedule<A> {
    /// Whether no socket is listed.
    pub fn is_empty(&self) -> bool
        ensures { result ≡ ((length self.now.fresh == 0) && ((length self.now.clients == 0) && (length self.now.peers == 0))) }
    {
        self.fresh.is_empty() && self.clients.is_empty() && self.peers.is_empty()
    }

    /// Adds a socket that became ready, if it isn't listed. It fails only if there is no room, and then changes nothing.
    pub fn add(&mut self, token: usize) -> Result<(), AllocFailed<usize>>
        ensures ok { OnOk result (self.new ≡ with_ready self.old token) }
        ensures err { OnErr result (self.new ≡ self.old) }
    {
        if !is_unlisted(&self.flags, token) {
            return Ok(());
        }
        self.fresh.push_back(token)?;
        self.flags[token] = true;
        Ok(())
    }

    /// Adds the sockets that a wait reported.
    pub fn add_all<B: Allocator>(&mut self, events: &Events<B>) -> Result<(), AllocFailed<usize>>
        ensures { OnOk result (self.new ≡ with_all_ready self.old (map (λ e. (event_token e).0) (items events.now))) }
    {
        for event in events.iter() {
            self.add(event.token().0)?;
        }
        Ok(())
    }

    /// Begins a round: the sockets that became ready are visited, and some of the others.
    pub fn begin(&mut self)
        ensures { self.new ≡ begun self.old }
    {
        self.left = VISITS;
    }

    /// Begins a round in which each listed socket is visited once.
    pub fn begin_for_each(&mut self) -> Result<(), AllocError>
        ensures { OnOk result (self.new ≡ begun_for_each self.old) }
    {
        self.clients.append(&mut self.fresh)?;
        self.clients.append(&mut self.peers)?;
        mem::swap(&mut self.clients, &mut self.fresh);
        self.left = 0;
        Ok(())
    }

    // Whether one of `clients` is visited next, before any other.
    fn is_turn_of_clients(&self) -> bool
        ensures { result ≡ is_turn_of_clients self.now }
    {
        let kept_back = if self.fresh.is_empty() { 0 } else { KEPT_BACK };
        !self.clients.is_empty() && FEW <= self.since && kept_back < self.left
    }

    // Of which sockets the next one is.
    fn source(&self) -> Source
        ensures { result ≡ source_of self.now }
    {
        if self.is_turn_of_clients() {
            Source::Clients
        } else if !self.fresh.is_empty() {
            Source::Fresh
        } else if self.left == 0 {
            Source::Nothing
        } else if !self.peers.is_empty() {
            Source::Peers
        } else if !self.clients.is_empty() {
            Source::Clients
        } else {
            Source::Nothing
        }
    }

    /// The socket to be visited next, which isn't listed any more. `None` if the round is over.
    pub fn next(&mut self) -> Option<usize>
        ensures next { next_of self.old ≡ option_map (λ token. (token, self.new)) result }
        ensures over { result ≡ None → self.new ≡ self.old }
        ensures unlisted { IfSome result (λ token. can_list self.new token ≡ true) }
    {
        let token = match self.source() {
            Source::Fresh => {
                let token = self.fresh.pop_front()?;
                self.since = since_after(token, self.since);
                token
            }
            Source::Peers => {
                let token = self.peers.pop_front()?;
                self.since = counted(self.since);
                self.left = self.left.saturating_sub(1);
                token
            }
            Source::Clients => {
                let token = self.clients.pop_front()?;
                self.since = 0;
                self.left = self.left.saturating_sub(1);
                token
            }
            Source::Nothing => return None,
        };
        self.flags[token] = false;
        Some(token)
    }

    /// Adds a socket that was visited and may have more, after the others of its kind.
    pub fn put_back(&mut self, token: usize) -> Result<(), AllocFailed<usize>>
        ensures ok { OnOk result (self.new ≡ with_more self.old token) }
        ensures err { OnErr result (self.new ≡ self.old) }
    {
        if !is_unlisted(&self.flags, token) {
            return Ok(());
        }
        if token < LISTENING {
            self.peers.push_back(token)?;
        } else {
            self.clients.push_back(token)?;
        }
        self.flags[token] = true;
        Ok(())
    }
}

/// A socket that becomes ready is read in the next round, before many datagrams of others are.
pub fn fresh_sockets_come_first()
    ensures { FreshComeFirst }
{}

/// A socket that has more is read in one of the next rounds, whatever the others do.
pub fn no_socket_starves()
    ensures { NoneStarves }
{}

/// A round that is begun for each socket visits each that is listed, once.
pub fn each_listed_socket_is_visited()
    ensures { EachIsVisited }
{}
