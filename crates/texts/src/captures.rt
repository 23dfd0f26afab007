//! What real clients sent to a server, replayed over `turn_step`: `SECOND CLIENT DATAGRAM NAME = OUTCOME`.
//!
//! The server has the configuration of the captures. At its own address a peer is another client's relayed port, and every other
//! peer echoes what it gets.

use crate::interpreter::Interpreter;
use crate::values::{endpoint, moment};
use std::alloc::{AllocError, Global};
use turn_codec::{ChannelData, Message};
use turn_config::ShownEndpoint;
use turn_cred::Users;
use turn_mac::generate_auth_key;
use turn_ports::PortRange;
use turn_requests::{ServerMessage, read_message};
use turn_step::{Arrival, Machine, Outgoing, Pairs};
use turn_table::Table;
use turn_types::{Endpoint, FiveTuple, Limits, Moment, ServerConfig, Settings, TxId};

type Server = Machine<Users, PortRange>;

/// 198.18.0.1:3478.
const SERVER: Endpoint = Endpoint {
    ip: 0xC612_0001,
    port: 3478,
};

/// 198.18.0.3.
const RELAY: u32 = 0xC612_0003;

const SECRET: [u8; 32] = [
    0, 1, 2, 3, 4, 5, 6, 7, 8, 9, 10, 11, 12, 13, 14, 15, 16, 17, 18, 19, 20, 21, 22, 23, 24, 25,
    26, 27, 28, 29, 30, 31,
];

/// The server of a capture, with an empty table at its first line.
#[derive(Drop)]
pub struct Captures {
    alloc: Global,
    server: Option<Server>,
    found: Option<String>,
}

/// The server of the captures, with an empty table.
fn server(alloc: Global) -> Option<Server> {
    let settings = Settings {
        realm: b"example.org",
        secret: SECRET,
        relay: RELAY,
        quota: 1024,
        denied: &[],
        limits: Limits::MAX,
    };
    let config = ServerConfig::new(alloc, settings).ok()?;
    let mut users = Users::new(alloc);
    let key = generate_auth_key(b"user", b"example.org", b"pass");
    users.add(b"user", key).ok()?;
    let ports = PortRange::new(20000, 29999)?;
    let table = Table::new(alloc, config.limits(), Moment::new(0)?);
    Machine::new(alloc, config, users, ports, table, Pairs::Refused).ok()
}

/// What a datagram to a peer leads to.
fn echo(port: u16, peer: Endpoint, bytes: &[u8]) -> Arrival<'_> {
    let (port, from) = if peer.ip == RELAY {
        (peer.port, Endpoint { ip: RELAY, port })
    } else {
        (port, peer)
    };
    Arrival::Peer {
        port,
        from,
        bytes,
        id: TxId([0; 12]),
    }
}

/// What the server sends, if no line is older than the one before it.
fn step(server: &mut Server, second: Moment, arrival: &Arrival<'_>) -> Option<Option<Outgoing>> {
    if second < server.moment() {
        return None;
    }
    server.step(second, arrival).ok()
}

/// What is sent in the end: where the server relays to a peer, also what that leads to.
fn exchange(
    server: &mut Server,
    second: Moment,
    arrival: &Arrival<'_>,
) -> Option<Option<Outgoing>> {
    match step(server, second, arrival)? {
        Some(Outgoing::ToPeer { port, peer, bytes }) => {
            step(server, second, &echo(port, peer, &bytes))
        }
        outgoing => Some(outgoing),
    }
}

fn data_text(alloc: Global, client: Endpoint, data: &[u8]) -> Option<String> {
    let data = hex::encode(alloc, data).ok()?;
    let client = ShownEndpoint(client);
    format!(in alloc; "{client} got {data}").ok()
}

/// What a client got, as text.
fn got(alloc: Global, client: Endpoint, bytes: &[u8]) -> Option<String> {
    if let Some(data) = ChannelData::parse(bytes) {
        return data_text(alloc, client, data.payload);
    }
    let message = Message::parse(bytes).ok()?;
    match read_message(&message)? {
        ServerMessage::Error(code) => format!(in alloc; "error {code}").ok(),
        ServerMessage::Data(_, data) => data_text(alloc, client, data),
        _ => String::from_str(alloc, "success").ok(),
    }
}

fn is_read(bytes: &[u8]) -> bool {
    ChannelData::parse(bytes).is_some() || Message::parse(bytes).is_ok()
}

impl Captures {
    /// A new server.
    pub fn new(alloc: Global) -> Captures {
        Captures {
            alloc,
            server: server(alloc),
            found: None,
        }
    }

    fn outcome(&mut self, second: Moment, client: Endpoint, bytes: &[u8]) -> Option<String> {
        if !is_read(bytes) {
            return None;
        }
        let five_tuple = FiveTuple {
            client,
            server: SERVER,
        };
        let arrival = Arrival::Client { five_tuple, bytes };
        match exchange(self.server.as_mut()?, second, &arrival)? {
            Some(Outgoing::ToClient { five_tuple, bytes }) => {
                got(self.alloc, five_tuple.client, &bytes)
            }
            _ => String::from_str(self.alloc, "nothing").ok(),
        }
    }

    fn plays(&mut self, line: &[u8]) -> Option<bool> {
        self.found = None;
        let (line, expected) = str::from_utf8(line).ok()?.split_once(" = ")?;
        let (second, rest) = line.split_once(' ')?;
        let (client, rest) = rest.split_once(' ')?;
        let (bytes, _) = rest.split_once(' ')?;
        let bytes = hex::decode(self.alloc, bytes).ok()?;
        let outcome = self.outcome(moment(second)?, endpoint(client)?, &bytes)?;
        let holds = outcome.as_str() == expected;
        self.found = Some(outcome);
        Some(holds)
    }
}

impl Interpreter for Captures {
    fn play(&mut self, line: &[u8]) -> Result<bool, AllocError> {
        Ok(self.plays(line) == Some(true))
    }

    fn found(&mut self) -> Option<String> {
        self.found.take()
    }
}
