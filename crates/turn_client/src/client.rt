//! A client of a server.

ghost use Rattle.std.specs.Prelude.{◌≡◌, ◌≤◌, ◌<◌, ◌⊎◌, ◌↔◌, ◌^◌, Err, IfErr, length};

use crate::error::ClientError;
use crate::socket::TimedSocket;
use std::alloc::{Allocator, Global};
use std::marker::Model;
use std::net::Net;
use std::time::Duration;
use turn_codec::{AttributeType, Builder, Message};
use turn_mac::generate_auth_key;
use turn_requests::{
    Attribute, Request, ServerMessage, build_request, build_send, channel_data, read_message,
};
use turn_types::{Class, Endpoint, Method, TxId};

/// Who a client is.
#[derive(Clone, Copy, Debug)]
pub struct ClientCredentials<'c> {
    /// The name, in bytes.
    pub user: &'c [u8],
    /// The server's realm, in bytes.
    pub realm: &'c [u8],
    /// The password, in bytes.
    pub password: &'c [u8],
}

/// A client of one server, with the credentials of a user.
pub struct Client<'c, A: Allocator = Global> {
    alloc: A,
    socket: TimedSocket<A>,
    server: Endpoint,
    credentials: ClientCredentials<'c>,
    // The nonce of the server's last challenge.
    nonce: Vec<u8, A>,
    // How many requests there were.
    requests: u32,
}

// By hand: a derived drop is one step for each field in the proof of each caller.
impl<'c, A: Allocator> Drop for Client<'c, A> {
    fn drop(self) {
        let Client {
            alloc: _,
            socket: _,
            server: _,
            credentials: _,
            nonce: _,
            requests: _,
        } = self;
    }
}

// Clauses see nothing of it, which keeps the proofs of callers small.
impl<'c, A: Allocator> Model for Client<'c, A> {
    ghost Value = { Unit {0} };

    ghost view = { λ _. tt };
}

impl<'c, A: Allocator + Copy> Client<'c, A> {
    /// A client with a socket of its own. Port 0 is any free one.
    pub fn open<R: Net>(
        alloc: A,
        net: &R,
        at: Endpoint,
        server: Endpoint,
        credentials: ClientCredentials<'c>,
    ) -> Result<Client<'c, A>, ClientError> {
        Ok(Client {
            alloc,
            socket: TimedSocket::open(alloc, net, at)?,
            server,
            credentials,
            nonce: Vec::new(alloc),
            requests: 0,
        })
    }

    /// The address of the client's socket, with the port that the system chose if it was to choose one.
    pub fn local(&self) -> Endpoint {
        self.socket.local()
    }

    /// From now on the server is at this address.
    pub fn set_server(&mut self, server: Endpoint) {
        self.server = server;
    }

    // A transaction id that no request before had.
    fn next_tx(&mut self) -> TxId {
        self.requests = self.requests.wrapping_add(1);
        let [a, b, c, d] = self.requests.to_be_bytes();
        TxId([0, 0, 0, 0, 0, 0, 0, 0, a, b, c, d])
    }

    /// A request without credentials and attributes, as it is sent.
    pub fn plain_request(&mut self, method: Method) -> Result<Vec<u8, A>, ClientError> {
        let tx = self.next_tx();
        Ok(Builder::new(self.alloc, Class::Request, method, tx)?.finish())
    }

    /// A request with the credentials and the nonce of the last challenge, as it is sent.
    pub fn request(
        &mut self,
        method: Method,
        attributes: &[Attribute],
    ) -> Result<Vec<u8, A>, ClientError> {
        let ClientCredentials {
            user,
            realm,
            password,
        } = self.credentials;
        let request = Request {
            method,
            tx: self.next_tx(),
            attributes,
            user,
            realm,
        };
        let key = generate_auth_key(user, realm, password);
        Ok(build_request(self.alloc, &request, &key, &self.nonce)?)
    }

    /// Sends a datagram to the server.
    pub fn send(&self, bytes: &[u8]) -> Result<(), ClientError>
        ensures { IfErr result (λ fault. fault ≡ ClientError.Socket) }
    {
        self.socket.send(self.server, bytes)
    }

    /// Sends data to a peer, in a Send indication.
    pub fn send_to_peer(&self, peer: Endpoint, payload: &[u8]) -> Result<(), ClientError> {
        self.send(&build_send(self.alloc, peer, payload)?)
    }

    /// Sends data over a channel: a number from 0x4000 to 0x7FFF, and at most 65,535 bytes.
    pub fn send_over_channel(&self, number: u16, payload: &[u8]) -> Result<(), ClientError>
        ensures { (result ≡ Err ClientError.TooLong)
            ↔ ((number < 2 ^ 14) ⊎ ((2 ^ 15 ≤ number) ⊎ (2 ^ 16 ≤ length payload.now))) }
    {
        let data = channel_data(number, payload).ok_or(ClientError::TooLong)?;
        self.send(&data.write(self.alloc)?)
    }

    /// How long it waits for each datagram from now on, which isn't 0.
    pub fn set_wait(&self, wait: Duration) -> Result<(), ClientError>
        ensures { IfErr result (λ fault. fault ≡ ClientError.Socket) }
    {
        self.socket.set_wait(wait)
    }

    /// The next datagram of the server.
    pub fn receive(&mut self) -> Result<&[u8], ClientError> {
        let server = self.server;
        let (bytes, from) = self.socket.receive()?;
        if from == server {
            Ok(bytes)
        } else {
            Err(ClientError::Unexpected)
        }
    }

    /// The next message of the server.
    pub fn receive_message(&mut self) -> Result<Message<'_>, ClientError> {
        Message::parse(self.receive()?).map_err(|_| ClientError::Unexpected)
    }

    /// Receives a challenge. Returns its code, and keeps its nonce for the next requests.
    pub fn take_challenge(&mut self) -> Result<u16, ClientError> {
        let alloc = self.alloc;
        let challenge = self.receive_message()?;
        let Some(ServerMessage::Error(code)) = read_message(&challenge) else {
            return Err(ClientError::Unexpected);
        };
        let nonce = challenge
            .find(AttributeType::NONCE)
            .ok_or(ClientError::Unexpected)?;
        let nonce = Vec::from_slice(alloc, nonce)?;
        self.nonce = nonce;
        Ok(code)
    }
}
