//! A TURN server over a UDP socket of 127.0.0.1, with one user and a store in memory. It ends after ten turns, and sends itself a request
//! to answer.
#![tactic(auto)]

use anyhow::{Context, Result, bail};
use std::alloc::Global;
use std::net::UdpSocket;
use std::random::RandomSource;
use std::time::Duration;
use turn::engine::{MemoryDisk, format, least_area};
use turn::messages::{Builder, Class, Message, Method, read_message};
use turn::rules::{Limits, PortRange, ServerConfig, Settings, TxId, Users, generate_auth_key};
use turn::serving::{Commits, ListeningAddresses, ListeningSockets, LocalPeers, Setup, Silent};
use turn::text::{ShownEndpoint, ShownIp, endpoint, ip};

const REALM: &[u8] = b"example.org";

/// A server of one user that relays at 127.0.0.1. The secret is what its nonces are made with.
fn config(alloc: Global, secret: [u8; 32]) -> Result<ServerConfig> {
    let settings = Settings {
        realm: REALM,
        secret,
        relay: ip(b"127.0.0.1").context("relay address")?,
        quota: 10,
        denied: &[],
        limits: Limits::MAX,
    };
    Ok(ServerConfig::new(alloc, settings)?)
}

/// A disk with an empty store.
fn disk(alloc: Global) -> Result<MemoryDisk> {
    let area = least_area(Limits::MAX);
    let mut disk = MemoryDisk::new(alloc, Vec::from_elem(alloc, 0u8, 64 + 2 * area)?);
    format(&mut disk, Limits::MAX, area)?;
    Ok(disk)
}

/// Sends a Binding, the one request that needs no credentials, to the server.
fn ask(rt: &HostRuntime, server: &str) -> Result<UdpSocket> {
    let client = UdpSocket::bind(rt, "127.0.0.1:0")?;
    client.set_read_timeout(Some(Duration::from_secs(5)))?;
    let id = TxId([1, 2, 3, 4, 5, 6, 7, 8, 9, 10, 11, 12]);
    let binding = Builder::new(rt.alloc(), Class::Request, Method::BINDING, id)?;
    client.send_to(&binding.finish(), server)?;
    Ok(client)
}

fn main(rt: HostRuntime) -> Result<()> {
    let alloc = rt.alloc();
    let clock = &rt;
    let (mut secret, mut seed) = ([0u8; 32], [0u8; 32]);
    rt.fill_bytes(&mut secret)?;
    rt.fill_bytes(&mut seed)?;
    let mut users = Users::new(alloc);
    users.add(b"alice", generate_auth_key(b"alice", REALM, b"wonder"))?;
    let listen = endpoint(b"127.0.0.1:0").context("listening address")?;
    let setup = Setup {
        config: &config(alloc, secret)?,
        listen: &ListeningAddresses::one(listen),
        ports: PortRange::new(61000, 61999).context("ports")?,
        relay_bind: None,
        local_peers: &LocalPeers::new(),
        burst: 64,
        commits: Commits::EachTurn,
        seed,
        awaited: None,
    };
    let sockets = ListeningSockets::Bound;
    let mut serving = match setup.start(alloc, &rt, clock, disk(alloc)?, users, sockets, Silent) {
        Ok(serving) => serving,
        Err(refused) => bail!("not started: {}", refused.fault),
    };
    println!(rt; "listening on {}", ShownIp(serving.local().ip))?;
    let address = format!(in alloc; "{}", ShownEndpoint(serving.local()))?;
    let client = ask(&rt, &address)?;
    serving.turns(&clock, 10)?;
    let mut bytes = [0u8; 1500];
    let (size, _) = client.recv_from(&mut bytes)?;
    let answer = Message::parse(&bytes[..size])?;
    println!(rt; "answer {:?}", read_message(&answer))?;
    Ok(())
}
