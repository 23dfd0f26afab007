//! A TURN server's steps by hand: a client allocates a relayed port and permits a peer, and data goes both ways. The output
//! in `stdout` is made by another program.
#![tactic(auto)]

use anyhow::{Context, Result, bail};
use std::alloc::Global;
use turn::messages::{
    Attribute, AttributeType, Builder, Class, Message, Method, Request, build_request, build_send,
};
use turn::rules::{
    Arrival, Endpoint, FiveTuple, Limits, Machine, Moment, Outgoing, Pairs, PortRange,
    ServerConfig, Settings, Table, TxId, Users, generate_auth_key,
};

const REALM: &[u8] = b"example.org";

const USER: &[u8] = b"alice";

const PASSWORD: &[u8] = b"wonder";

/// The client 192.0.2.1:32853, and the server's address that it sends to, 192.0.2.100:3478.
const FIVE_TUPLE: FiveTuple = FiveTuple {
    client: Endpoint {
        ip: 0xC000_0201,
        port: 32853,
    },
    server: Endpoint {
        ip: 0xC000_0264,
        port: 3478,
    },
};

/// 203.0.113.5:7000.
const PEER: Endpoint = Endpoint {
    ip: 0xCB00_7105,
    port: 7000,
};

/// The transaction id of the Allocates. The response has it again, by which a client knows what is answered.
const ALLOCATE_ID: TxId = TxId([1, 2, 3, 4, 5, 6, 7, 8, 9, 10, 11, 12]);

const PERMISSION_ID: TxId = TxId([1, 2, 3, 4, 5, 6, 7, 8, 9, 10, 11, 13]);

type Server = Machine<Users, PortRange>;

/// A server of one user, with the relayed ports 50000 to 50009 of 198.51.100.1 and an empty table.
fn server(alloc: Global) -> Result<Server> {
    let settings = Settings {
        realm: REALM,
        secret: [0; 32],
        relay: 0xC633_6401,
        quota: 2,
        denied: &[],
        limits: Limits::MAX,
    };
    let config = ServerConfig::new(alloc, settings)?;
    let mut users = Users::new(alloc);
    users.add(USER, generate_auth_key(USER, REALM, PASSWORD))?;
    let ports = PortRange::new(50000, 50009).context("ports")?;
    let table = Table::new(alloc, config.limits(), Moment::new(0).context("moment")?);
    Ok(Machine::new(alloc, config, users, ports, table, Pairs::Refused)?)
}

/// Hands an arrival at a second to the server, and prints and returns what is to be sent, which is at most one datagram.
fn play(
    rt: &HostRuntime,
    server: &mut Server,
    second: u64,
    arrival: &Arrival<'_>,
) -> Result<Option<Outgoing>> {
    let moment = Moment::new(second).context("moment")?;
    // `Machine::step` requires it: without these lines the example isn't proved.
    if moment < server.moment() {
        bail!("the clock went back");
    }
    let outgoing = server.step(moment, arrival)?;
    match &outgoing {
        Some(Outgoing::ToClient { bytes, .. }) => {
            let text = hex::encode(rt.alloc(), bytes.as_slice())?;
            println!(rt; "{second} to the client: {text}")?;
        }
        Some(Outgoing::ToPeer { port, bytes, .. }) => {
            let text = hex::encode(rt.alloc(), bytes.as_slice())?;
            println!(rt; "{second} from port {port} to the peer: {text}")?;
        }
        None => println!(rt; "{second} nothing")?,
    }
    Ok(outgoing)
}

fn from_client(bytes: &[u8]) -> Arrival<'_> {
    Arrival::Client {
        five_tuple: FIVE_TUPLE,
        bytes,
    }
}

/// An Allocate without credentials, for UDP: protocol 17 (RFC 8656, section 18.8).
fn plain_allocate(alloc: Global) -> Result<Vec<u8>> {
    let mut message = Builder::new(alloc, Class::Request, Method::ALLOCATE, ALLOCATE_ID)?;
    message.push(AttributeType::REQUESTED_TRANSPORT, &[17, 0, 0, 0])?;
    Ok(message.finish())
}

/// The nonce of a challenge, which the client's requests have from then on.
fn nonce_of(alloc: Global, challenge: &Option<Outgoing>) -> Result<Vec<u8>> {
    let Some(Outgoing::ToClient { bytes, .. }) = challenge else {
        bail!("no challenge");
    };
    let message = Message::parse(bytes)?;
    let nonce = message.find(AttributeType::NONCE).context("nonce")?;
    Ok(Vec::from_slice(alloc, nonce)?)
}

/// A request with the user's credentials and these attributes.
fn signed(
    alloc: Global,
    method: Method,
    tx: TxId,
    attributes: &[Attribute],
    nonce: &[u8],
) -> Result<Vec<u8>> {
    let request = Request {
        method,
        tx,
        attributes,
        user: USER,
        realm: REALM,
    };
    let key = generate_auth_key(USER, REALM, PASSWORD);
    Ok(build_request(alloc, &request, &key, nonce)?)
}

fn main(rt: HostRuntime) -> Result<()> {
    let alloc = rt.alloc();
    let mut server = server(alloc)?;
    let allocate = plain_allocate(alloc)?;
    let challenge = play(&rt, &mut server, 1000, &from_client(&allocate))?;
    let nonce = nonce_of(alloc, &challenge)?;
    let allocate = signed(alloc, Method::ALLOCATE, ALLOCATE_ID, &[], &nonce)?;
    play(&rt, &mut server, 1000, &from_client(&allocate))?;
    let attributes = [Attribute::Peer(PEER)];
    let permit = signed(
        alloc,
        Method::CREATE_PERMISSION,
        PERMISSION_ID,
        &attributes,
        &nonce,
    )?;
    play(&rt, &mut server, 1000, &from_client(&permit))?;
    let hello = build_send(alloc, PEER, b"hello")?;
    play(&rt, &mut server, 1001, &from_client(&hello))?;
    // The permission lasts 300 seconds (RFC 8656, section 9).
    for second in [1299, 1300] {
        let arrival = Arrival::Peer {
            port: 50000,
            from: PEER,
            bytes: b"hello",
            id: ALLOCATE_ID,
        };
        play(&rt, &mut server, second, &arrival)?;
    }
    Ok(())
}
