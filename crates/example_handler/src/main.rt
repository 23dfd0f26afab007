//! A TURN server with a handler of one's own: it knows a maker's devices, whose passwords it works out in place of a list of users.
#![tactic(auto)]

ghost use Rattle.std.specs.Prelude.{◌≡◌};
ghost use Rattle.sha1.specs.Sha1.{sha1};
ghost use Rattle.turn.specs.Hmac.{hmac};
ghost use Rattle.example_handler.specs.Devices.{device_key};

use anyhow::{Context, Result, bail};
use std::alloc::Global;
use turn::messages::{Message, Method, Request, ServerMessage, build_request, read_message};
use turn::rules::{
    Arrival, AuthHandler, Endpoint, FiveTuple, Key, Limits, Machine, Moment, Nonces, Outgoing,
    Pairs, PortRange, ServerConfig, Settings, Table, TxId, generate_auth_key,
};
use turn_mac::hmac_sha1;

const REALM: &[u8] = b"example.org";

/// What the server's nonces are made with. A client reads its nonce from a challenge; here both sides are one program.
const NONCE_SECRET: [u8; 32] = [0; 32];

/// What the passwords of devices are made with.
const MAKER_SECRET: [u8; 16] = *b"of the workshop!";

// ---- The handler

/// Knows the keys of a maker's devices. A device's name is its serial number, of eight bytes.
#[derive(Clone, Copy, Drop)]
struct Devices {
    secret: [u8; 16],
}

impl Devices {
    /// What is written into a device when it is made: the HMAC-SHA1 of its name under the secret, 20 bytes.
    fn password(&self, name: &[u8]) -> [u8; 20]
        ensures { result ≡ hmac sha1 self.now.secret name.now }
    {
        hmac_sha1(&self.secret, name)
    }
}

impl AuthHandler for Devices {
    // The definition to which the server's answers are proved: it has to be a function of the handler, the name and the realm.
    ghost key_of = { λ devices name realm. device_key devices.secret name realm };

    /// The key of a device, which doesn't expire. `None` for each other name, which the server answers by 401.
    fn key(&self, username: &[u8], realm: &[u8]) -> Option<Key> {
        if username.len() != 8 {
            return None;
        }
        Some(Key {
            bytes: generate_auth_key(username, realm, &self.password(username)),
            expiry: None,
        })
    }
}

// ---- A server with it

type Server = Machine<Devices, PortRange>;

/// A server of the relayed ports 50000 to 50009 of 198.51.100.1, with an empty table.
fn server(alloc: Global, devices: Devices) -> Result<Server> {
    let settings = Settings {
        realm: REALM,
        secret: NONCE_SECRET,
        relay: 0xC633_6401,
        quota: 1,
        denied: &[],
        limits: Limits::MAX,
    };
    let config = ServerConfig::new(alloc, settings)?;
    let ports = PortRange::new(50000, 50009).context("ports")?;
    let table = Table::new(alloc, config.limits(), Moment::new(0).context("moment")?);
    Ok(Machine::new(alloc, config, devices, ports, table, Pairs::Refused)?)
}

/// From 192.0.2.1:32853 to 192.0.2.100:3478.
const FIVE_TUPLE: FiveTuple = FiveTuple {
    client: Endpoint {
        ip: 0xC000_0201,
        port: 32853,
    },
    server: Endpoint {
        ip: 0xC000_0264,
        port: 3478,
    },
};

/// An Allocate of a name with a password, and the nonce of a moment.
fn allocate(alloc: Global, name: &[u8], password: &[u8], moment: Moment) -> Result<Vec<u8>> {
    let request = Request {
        method: Method::ALLOCATE,
        tx: TxId([1, 2, 3, 4, 5, 6, 7, 8, 9, 10, 11, 12]),
        attributes: &[],
        user: name,
        realm: REALM,
    };
    let nonce = Nonces::new(NONCE_SECRET).issue(FIVE_TUPLE.client, moment);
    let key = generate_auth_key(name, REALM, password);
    Ok(build_request(alloc, &request, &key, &nonce)?)
}

/// Sends an Allocate of a name at second 1000, and prints what the response says.
fn ask(rt: &HostRuntime, server: &mut Server, name: &str, password: &[u8]) -> Result<()> {
    let moment = Moment::new(1000).context("moment")?;
    let bytes = allocate(rt.alloc(), name.as_bytes(), password, moment)?;
    // `Machine::step` requires it.
    if moment < server.moment() {
        bail!("the clock went back");
    }
    let arrival = Arrival::Client {
        five_tuple: FIVE_TUPLE,
        bytes: &bytes,
    };
    let Some(Outgoing::ToClient { bytes, .. }) = server.step(moment, &arrival)? else {
        bail!("no response");
    };
    match read_message(&Message::parse(&bytes)?) {
        Some(ServerMessage::Allocated { port, lifetime, .. }) => {
            println!(rt; "{name}: port {port} for {lifetime} seconds")?;
        }
        Some(ServerMessage::Error(code)) => println!(rt; "{name}: error {code}")?,
        _ => bail!("another response"),
    }
    Ok(())
}

fn main(rt: HostRuntime) -> Result<()> {
    let devices = Devices {
        secret: MAKER_SECRET,
    };
    let mut server = server(rt.alloc(), devices)?;
    // The password of another device.
    ask(&rt, &mut server, "00000042", &devices.password(b"00000043"))?;
    // A name that no device has, whatever the password.
    ask(&rt, &mut server, "alice", &devices.password(b"alice"))?;
    ask(&rt, &mut server, "00000042", &devices.password(b"00000042"))
}
