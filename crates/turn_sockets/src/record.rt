//! What sockets received and sent, which clauses alone read.

ghost use Rattle.std.specs.Prelude.{◌≡◌, ◌++◌, ◌∷◌, []};
ghost use Rattle.turn_sockets.specs.Received.{passed_by};
ghost use Rattle.turn_sockets.specs.Wire.{Sent};

use crate::buffer::Received;
use std::marker::Model;
use std::net::Net;
use turn_ghost::{Ghost, Shows};
use turn_types::Endpoint;

/// Nothing passed. In a `Ghost` it stands for any number of datagrams and reads.
#[derive(Drop)]
struct Datagrams;

impl Model for Datagrams {
    ghost use Rattle.std.specs.Prelude.{[], List};
    ghost use Rattle.turn_sockets.specs.Wire.{Passed};

    ghost Value = { List Passed };

    ghost view = { λ _. [] };
}

impl Shows<Datagrams> for Datagrams {
    ghost shown = { λ none. none };
}

/// What a read of a socket found, and what passed before it.
#[derive(Drop)]
struct Read<'a> {
    before: &'a Ghost<Datagrams>,
    at: Endpoint,
    found: Received<'a>,
}

impl Shows<Datagrams> for Read<'_> {
    ghost shown = { λ read. read.before.now ++ passed_by read.at read.found ∷ [] };
}

/// A datagram that a socket sent, and what passed before it.
#[derive(Drop)]
struct Sending<'a> {
    before: &'a Ghost<Datagrams>,
    at: Endpoint,
    to: Endpoint,
    bytes: &'a [u8],
}

impl Shows<Datagrams> for Sending<'_> {
    ghost shown = { λ sending. sending.before.now ++ Sent sending.at sending.to sending.bytes.now ∷ [] };
}

/// What passed at sockets so far, in order: what each read found, and each datagram that was sent. It takes no memory: it exists in
/// proofs alone.
#[derive(Drop)]
pub struct SocketRecord {
    /// In order.
    passed: Ghost<Datagrams>,
}

impl SocketRecord {
    /// Of sockets that have neither been read nor sent anything. Who has no handle of the network can make no second record, so a
    /// function without one receives and sends by the record that it is given.
    pub fn new<R: Net>(_net: &R) -> SocketRecord
        ensures { result.passed ≡ [] }
    {
        SocketRecord {
            passed: Ghost::of(&Datagrams),
        }
    }

    /// Notes what a read of the socket at this address found.
    pub(crate) fn note_read(&mut self, at: Endpoint, found: Received<'_>)
        ensures { self.new.passed ≡ self.old.passed ++ passed_by at found.entry ∷ [] }
    {
        self.passed = Ghost::of(&Read {
            before: &self.passed,
            at,
            found,
        });
    }

    /// Notes a datagram that the socket at this address sent.
    pub(crate) fn note_sent(&mut self, at: Endpoint, to: Endpoint, bytes: &[u8])
        ensures { self.new.passed ≡ self.old.passed ++ Sent at to bytes.now ∷ [] }
    {
        self.passed = Ghost::of(&Sending {
            before: &self.passed,
            at,
            to,
            bytes,
        });
    }
}
