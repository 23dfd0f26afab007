//! Requests that passed the check of their credentials.

ghost use Rattle.std.specs.Prelude.{◌≡◌, IfSome, IsTrue, true};
ghost use Rattle.turn_mac.specs.Integrity.{has_right_integrity};
ghost use Rattle.turn_cred.specs.Nonce.{is_fresh};
ghost use Rattle.turn_cred.specs.Remembered.{IsIssued};

use crate::nonce::{Nonces, is_current};
use lru::{DefaultHasher, LruCache};
use std::alloc::Allocator;
use std::cell::RefCell;
use std::marker::Model;
use std::num::NonZeroUsize;
use turn_codec::Message;
use turn_types::{Endpoint, Moment};

/// Of how many clients a request is remembered.
const CLIENTS: usize = 1024;

/// How many bytes a request has at most that is remembered.
const REQUEST_BYTES: usize = 1024;

/// A request that passed: its nonce is one of the secret for the client, and its MESSAGE-INTEGRITY is right under the key.
#[derive(Drop)]
struct Passed<A: Allocator> {
    client: Endpoint,
    secret: [u8; 32],
    nonce: [u8; 80],
    key: [u8; 16],
    bytes: Vec<u8, A>,
}

impl<A: Allocator> Model for Passed<A> {
    ghost use Rattle.turn_cred.specs.Remembered.{AreSigned, IsIssued, Request};

    ghost Value = { Request };

    ghost view = { λ p. record { client = p.client; secret = p.secret; nonce = p.nonce; key = p.key; bytes = p.bytes.items } };

    ghost invariant = { λ p. IsIssued p.secret p.nonce p.client × AreSigned p.key p.bytes.items };
}

impl<A: Allocator> Passed<A> {
    /// Whether it is this message, under this key.
    fn is_signed(&self, message: &Message<'_>, key: &[u8; 16]) -> bool
        ensures { IsTrue result → has_right_integrity key.now message.now ≡ true }
    {
        self.key == *key && self.bytes.as_slice() == message.as_bytes()
    }

    /// Whether a nonce holds for a client at a moment, if it is the one of this request.
    fn holds(&self, nonces: &Nonces, nonce: &[u8], client: Endpoint, moment: Moment) -> Option<bool>
        ensures { IfSome result (λ holds. holds ≡ is_fresh nonces.now nonce.now client moment) }
    {
        if self.client != client
            || self.secret != *nonces.secret()
            || self.nonce.as_slice() != nonce
        {
            return None;
        }
        Some(is_current(nonce, moment))
    }
}

/// The last request of each client that passed. What was computed of it isn't computed again when it is checked again, nor of its nonce
/// when another request has that. A request for which there is no memory isn't remembered.
#[derive(Drop)]
pub(crate) struct LastPassed<A: Allocator> {
    alloc: A,
    requests: RefCell<Option<LruCache<Endpoint, Passed<A>, DefaultHasher, A>>>,
}

impl<A: Allocator + Copy> LastPassed<A> {
    /// Remembers nothing, and takes no memory.
    pub(crate) fn new(alloc: A) -> LastPassed<A> {
        LastPassed {
            alloc,
            requests: RefCell::new(None),
        }
    }

    /// Whether a message of a client is known to have a MESSAGE-INTEGRITY that is right under a key.
    pub(crate) fn is_signed(&self, message: &Message<'_>, client: Endpoint, key: &[u8; 16]) -> bool
        ensures { IsTrue result → has_right_integrity key.now message.now ≡ true }
    {
        let Ok(requests) = self.requests.try_borrow() else {
            return false;
        };
        let Some(requests) = &*requests else {
            return false;
        };
        match requests.peek(&client) {
            Some(passed) => passed.is_signed(message, key),
            None => false,
        }
    }

    /// Whether a nonce holds for a client at a moment, if that is known.
    pub(crate) fn holds(
        &self,
        nonces: &Nonces,
        nonce: &[u8],
        client: Endpoint,
        moment: Moment,
    ) -> Option<bool>
        ensures { IfSome result (λ holds. holds ≡ is_fresh nonces.now nonce.now client moment) }
    {
        let requests = self.requests.try_borrow().ok()?;
        let requests = requests.as_ref()?;
        let passed = requests.peek(&client)?;
        passed.holds(nonces, nonce, client, moment)
    }

    /// Remembers a request that passed, in place of the client's last one.
    pub(crate) fn keep(
        &self,
        nonces: &Nonces,
        message: &Message<'_>,
        client: Endpoint,
        nonce: &[u8],
        key: &[u8; 16],
    )
        requires issued { IsIssued nonces.now nonce.now client }
        requires signed { has_right_integrity key.now message.now ≡ true }
    {
        let bytes = message.as_bytes();
        if bytes.len() > REQUEST_BYTES {
            return;
        }
        let Ok(nonce) = nonce.try_into() else {
            return;
        };
        let Ok(bytes) = Vec::from_slice(self.alloc, bytes) else {
            return;
        };
        let passed = Passed {
            client,
            secret: *nonces.secret(),
            nonce,
            key: *key,
            bytes,
        };
        let Ok(mut requests) = self.requests.try_borrow_mut() else {
            return;
        };
        if requests.is_none() {
            *requests = room(self.alloc);
        }
        if let Some(requests) = &mut *requests {
            let _ = requests.put(client, passed);
        }
    }
}

/// Room for requests, which takes memory as they come.
fn room<A: Allocator + Copy>(alloc: A) -> Option<LruCache<Endpoint, Passed<A>, DefaultHasher, A>> {
    LruCache::sparse(alloc, NonZeroUsize::new(CLIENTS)?).ok()
}
