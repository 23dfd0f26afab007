//! A connection on which an export was agreed, and the requests on it, one at a time.

ghost use Rattle.std.specs.Prelude.{◌≡◌, ◌++◌, ◌<◌, ◌≤◌, ◌^◌, [], Ok, Err, true, false, IsErr, OnOk, MatchResult, length};
ghost use Rattle.turn_disk.specs.Meanwhile.{Passes};
ghost use Rattle.turn_nbd.specs.Requests.{exchange, next_cookie, write_kind};
ghost use Rattle.turn_nbd.specs.declared.error.NbdError.TheVariants.{Closed};
ghost use Rattle.turn_nbd.specs.declared.request.Kind.TheVariants.{Read, Flush};

use crate::error::NbdError;
use crate::reply::check_reply;
use crate::request::{Kind, request};
use crate::stream::Stream;
use crate::wire::Wire;
use std::marker::Model;
use turn_disk::{Idle, Meanwhile};

/// A connection on which an export was agreed. Once a request failed on it, each later one fails at once.
pub struct Connection<T: Stream> {
    wire: Wire<T>,
    cookie: u64,
    is_open: bool,
}

// The server is told that the connection ends, unless a request failed on it: then where its next reply begins isn't known.
impl<T: Stream> Drop for Connection<T> {
    fn drop(self) {
        let Connection {
            mut wire,
            cookie,
            is_open,
        } = self;
        if is_open {
            let _ = wire.send(&request(Kind::Disconnect, cookie, 0, 0));
        }
    }
}

impl<T: Stream> Model for Connection<T> {
    ghost use Rattle.turn_nbd.specs.Views.{InConnection};

    ghost Value = { InConnection };

    ghost view = { λ c. record { wire = c.wire; cookie = c.cookie; is_open = c.is_open } };
}

impl<T: Stream> Connection<T> {
    /// A connection on which an export was agreed.
    pub fn new(wire: Wire<T>) -> Connection<T>
        ensures { result ≡ record { wire = wire; cookie = 0; is_open = true } }
    {
        Connection {
            wire,
            cookie: 0,
            is_open: true,
        }
    }

    /// The stream over which it is.
    pub fn stream(&self) -> &T {
        self.wire.stream()
    }

    // Sends a request with its data, and receives its reply with the reply's data. While the reply isn't there the other is done.
    #[tactic(auto, using(turn_disk::proofs::Passing::passes_none))]
    fn exchange<M: Meanwhile>(
        &mut self,
        kind: Kind,
        at: usize,
        count: u32,
        sent: &[u8],
        received: &mut [u8],
        other: &mut M,
    ) -> Result<(), NbdError>
        ensures wire { OnOk result (self.new.wire ≡ self.old.wire ++ exchange kind self.old.cookie at count sent.now received.new) }
        ensures cookie { self.new.cookie ≡ next_cookie self.old.cookie }
        ensures same { self.new.is_open ≡ self.old.is_open }
        ensures meanwhile { Passes M.passes other.old other.new }
    {
        let cookie = self.cookie;
        self.cookie = cookie.wrapping_add(1);
        self.wire.begin();
        self.wire.send(&request(kind, cookie, at as u64, count))?;
        self.wire.send(sent)?;
        let head = self.wire.receive_array_while(other)?;
        check_reply(&head, cookie)?;
        self.wire.receive(received)?;
        Ok(())
    }

    // The same, unless a request failed before. If it fails, later ones fail at once.
    #[tactic(auto, using(turn_disk::proofs::Passing::passes_none))]
    fn ask<M: Meanwhile>(
        &mut self,
        kind: Kind,
        at: usize,
        count: u32,
        sent: &[u8],
        received: &mut [u8],
        other: &mut M,
    ) -> Result<(), NbdError>
        ensures wire { OnOk result (self.new.wire ≡ self.old.wire ++ exchange kind self.old.cookie at count sent.now received.new) }
        ensures cookie { OnOk result (self.new.cookie ≡ next_cookie self.old.cookie) }
        ensures open { MatchResult result (λ _. self.new.is_open ≡ true) (λ _. self.new.is_open ≡ false) }
        ensures closed { self.old.is_open ≡ false → (result ≡ Err NbdError.Closed) × (self.new ≡ self.old) }
        ensures meanwhile { Passes M.passes other.old other.new }
    {
        if !self.is_open {
            return Err(NbdError::Closed);
        }
        self.is_open = false;
        self.exchange(kind, at, count, sent, received, other)?;
        self.is_open = true;
        Ok(())
    }

    /// Whether no request failed on it.
    pub fn is_open(&self) -> bool
        ensures { result ≡ self.now.is_open }
    {
        self.is_open
    }

    /// Fills the buffer with the bytes from this position on. After a failure the buffer may hold anything.
    pub fn read(&mut self, at: usize, buffer: &mut [u8]) -> Result<(), NbdError>
        requires { length buffer.old < 2 ^ 32 }
        ensures wire { OnOk result (self.new.wire ≡ self.old.wire ++ exchange Read self.old.cookie at (length buffer.new) [] buffer.new) }
        ensures cookie { OnOk result (self.new.cookie ≡ next_cookie self.old.cookie) }
        ensures open { MatchResult result (λ _. self.new.is_open ≡ true) (λ _. self.new.is_open ≡ false) }
        ensures closed { self.old.is_open ≡ false → (result ≡ Err NbdError.Closed) × (self.new ≡ self.old) }
    {
        self.ask(Kind::Read, at, buffer.len() as u32, &[], buffer, &mut Idle)
    }

    /// Writes these bytes from this position on. They are durable at once where `is_durable` is true, else only after a flush. While the
    /// reply isn't there the other is done.
    pub fn write<M: Meanwhile>(
        &mut self,
        at: usize,
        bytes: &[u8],
        is_durable: bool,
        other: &mut M,
    ) -> Result<(), NbdError>
        requires { length bytes.now < 2 ^ 32 }
        ensures wire { OnOk result (self.new.wire ≡ self.old.wire ++ exchange (write_kind is_durable) self.old.cookie at (length bytes.now) bytes.now []) }
        ensures cookie { OnOk result (self.new.cookie ≡ next_cookie self.old.cookie) }
        ensures open { MatchResult result (λ _. self.new.is_open ≡ true) (λ _. self.new.is_open ≡ false) }
        ensures closed { self.old.is_open ≡ false → (result ≡ Err NbdError.Closed) × (self.new ≡ self.old) }
        ensures meanwhile { Passes M.passes other.old other.new }
    {
        let mut nothing = [0u8; 0];
        self.ask(
            Kind::write(is_durable),
            at,
            bytes.len() as u32,
            bytes,
            &mut nothing,
            other,
        )
    }

    /// Makes durable what was written. While the reply isn't there the other is done.
    pub fn flush<M: Meanwhile>(&mut self, other: &mut M) -> Result<(), NbdError>
        ensures wire { OnOk result (self.new.wire ≡ self.old.wire ++ exchange Flush self.old.cookie 0 0 [] []) }
        ensures cookie { OnOk result (self.new.cookie ≡ next_cookie self.old.cookie) }
        ensures open { MatchResult result (λ _. self.new.is_open ≡ true) (λ _. self.new.is_open ≡ false) }
        ensures closed { self.old.is_open ≡ false → (result ≡ Err NbdError.Closed) × (self.new ≡ self.old) }
        ensures meanwhile { Passes M.passes other.old other.new }
    {
        let mut nothing = [0u8; 0];
        self.ask(Kind::Flush, 0, 0, &[], &mut nothing, other)
    }
}
