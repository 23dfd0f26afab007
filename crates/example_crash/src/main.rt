//! A TURN server over a store whose disk stops inside a commit. What was handed out before is there after the next opening;
//! what was not handed out may be there or not.
#![tactic(auto)]

ghost use Rattle.std.specs.Prelude.{◌<◌};

use anyhow::{Context, Result, bail};
use std::alloc::Global;
use turn::engine::{CrashOutcome, MemoryDisk, Server, format, least_area};
use turn::messages::{Method, Request, build_request};
use turn::rules::{
    Arrival, Endpoint, FiveTuple, Limits, Moment, Nonces, Outgoing, PortRange, ServerConfig,
    Settings, TxId, Users, generate_auth_key,
};

const REALM: &[u8] = b"example.org";

/// What the server's nonces are made with. A client reads its nonce from a challenge; here both sides are one program.
const SECRET: [u8; 32] = [0; 32];

/// A user, whose password is the name, and the IPv4 address of the user's client.
#[derive(Clone, Copy)]
struct User {
    name: &'static [u8],
    ip: u32,
}

/// At 192.0.2.1.
const ALICE: User = User {
    name: b"alice",
    ip: 0xC000_0201,
};

/// At 192.0.2.2.
const BOB: User = User {
    name: b"bob",
    ip: 0xC000_0202,
};

impl User {
    /// From port 40000 of the client to 192.0.2.100:3478.
    fn five_tuple(self) -> FiveTuple {
        FiveTuple {
            client: Endpoint {
                ip: self.ip,
                port: 40000,
            },
            server: Endpoint {
                ip: 0xC000_0264,
                port: 3478,
            },
        }
    }
}

type Stored = Server<MemoryDisk, Users, PortRange>;

/// A disk with an empty store: two areas, of which each has room for as much as the limits allow.
fn new_disk(alloc: Global) -> Result<MemoryDisk> {
    let area = least_area(Limits::MAX);
    let mut disk = MemoryDisk::new(alloc, Vec::from_elem(alloc, 0u8, 64 + 2 * area)?);
    format(&mut disk, Limits::MAX, area)?;
    Ok(disk)
}

/// What a program does when it starts: all but the disk is made anew.
fn open(alloc: Global, disk: MemoryDisk) -> Result<Stored> {
    let settings = Settings {
        realm: REALM,
        secret: SECRET,
        relay: 0xC633_6401,
        quota: 1,
        denied: &[],
        limits: Limits::MAX,
    };
    let config = ServerConfig::new(alloc, settings)?;
    let mut users = Users::new(alloc);
    for user in [ALICE, BOB] {
        users.add(user.name, generate_auth_key(user.name, REALM, user.name))?;
    }
    let ports = PortRange::new(50000, 50009).context("ports")?;
    match Server::open(alloc, disk, &config, users, ports) {
        Ok(server) => Ok(server),
        Err(refused) => bail!("not opened: {}", refused.fault),
    }
}

/// Hands a user's Allocate with the nonce of second 1000 to the server. Its answer waits for the commit.
fn submit(alloc: Global, server: &mut Stored, second: u64, user: User) -> Result<()> {
    let issued = Moment::new(1000).context("moment")?;
    let nonce = Nonces::new(SECRET).issue(user.five_tuple().client, issued);
    let request = Request {
        method: Method::ALLOCATE,
        tx: TxId([1, 2, 3, 4, 5, 6, 7, 8, 9, 10, 11, 12]),
        attributes: &[],
        user: user.name,
        realm: REALM,
    };
    let key = generate_auth_key(user.name, REALM, user.name);
    let bytes = build_request(alloc, &request, &key, &nonce)?;
    let moment = Moment::new(second).context("moment")?;
    // `Server::submit` requires it.
    if moment < server.clock() {
        bail!("the clock went back");
    }
    let arrival = Arrival::Client {
        five_tuple: user.five_tuple(),
        bytes: &bytes,
    };
    server.submit(moment, &arrival)?;
    Ok(())
}

/// The answer to alice's Allocate at a second, once it may be sent.
fn answer(alloc: Global, server: &mut Stored, second: u64) -> Result<Vec<u8>> {
    submit(alloc, server, second, ALICE)?;
    match server.commit()?.pop() {
        Some(Outgoing::ToClient { bytes, .. }) => Ok(bytes),
        _ => bail!("no answer"),
    }
}

/// The port of a user's allocation, 0 if there is none.
fn port_of(server: &Stored, user: User) -> u16 {
    match server.table().get(user.five_tuple()) {
        Some(entry) => entry.port(),
        None => 0,
    }
}

/// Stops the disk at a device call of the commit that has bob's allocation, lets it crash, and prints what is there then.
fn stop(rt: &HostRuntime, call: u64, outcome: CrashOutcome) -> Result<()>
    requires { 0 < call }
{
    let alloc = rt.alloc();
    let mut server = open(alloc, new_disk(alloc)?)?;
    let handed_out = answer(alloc, &mut server, 1000)?;
    submit(alloc, &mut server, 1001, BOB)?;
    server.disk().stop_at(call);
    let is_told = server.commit().is_ok();
    let (mut disk, _, _) = server.close();
    disk.crash(outcome);
    let mut server = open(alloc, disk)?;
    let (alice, bob) = (port_of(&server, ALICE), port_of(&server, BOB));
    // A client that didn't get its answer sends the request again (RFC 8489, section 6.2.1).
    let is_same = answer(alloc, &mut server, 1002)? == handed_out;
    println!(rt;
        "stop at call {call}, {outcome:?}: alice port {alice}, same answer {is_same}; bob told {is_told}, port {bob}"
    )?;
    Ok(())
}

fn main(rt: HostRuntime) -> Result<()> {
    // A commit of one batch is a write, a sync, a write of one byte, and a sync. At call 5 it is done.
    for call in 1..=5 {
        for outcome in [CrashOutcome::Lost, CrashOutcome::Kept] {
            stop(&rt, call, outcome)?;
        }
    }
    Ok(())
}
