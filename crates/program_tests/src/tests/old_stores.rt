//! A store of version 1 that a program from before version 2 made, at commit 16229f6, by `--area 1600000` and the default limits: it is
//! carried over, and its calls go on.

use super::clocks::Still;
use super::started::start;
use super::stores::put;
use super::talks::{ALICE, ANY, HOME};
use std::alloc::Global;
use std::test::Fail;
use turn_client::{Client, ClientError, TimedSocket};
use turn_config::read_config;
use turn_disk::MemoryDisk;
use turn_requests::{Attribute, ServerMessage, read_message};
use turn_serving::{Commits, Silent, SocketServing};
use turn_types::{Endpoint, Method};

/// What the server was started with.
const CONFIG: &[u8] = b"realm example.org
user alice wonder
user bob builder
secret 0000000000000000000000000000000000000000000000000000000000000000
listen 127.0.0.1:63081
relay 127.0.0.1 63082 63089
local-peer 127.0.0.1 1 65535
";

const SUPERBLOCK: &[u8] = b"\x52\x54\x55\x52\x4E\x53\x54\x31\x00\x00\x00\x00\x00\x18\x6A\x00\
    \x00\x00\x04\x00\x00\x20\x00\x20\x00\x40\x01\xFC";

/// The first area up to its last gate that is open: alice's allocation of port 63,082 for 600 seconds, her channel to 127.0.0.1:63092,
/// bob's allocation, and a permission of his. What isn't written here is zeros.
const FIRST_AREA: &[u8] = b"\xA5\x01\x00\x00\x00\x00\x00\x00\x00\x01\x00\x00\x00\x0C\
    \x00\x00\x00\x00\x00\x00\x00\x00\x00\x00\x00\x00\
    \xA5\x00\x00\x00\x2F\x01\x01\x00\x00\x00\x00\x6B\x08\xF1\x8A\
    \x7F\x00\x00\x01\xF6\x73\x7F\x00\x00\x01\xF6\x69\x00\x05\x61\x6C\x69\x63\x65\xF6\x6A\
    \x00\x00\x02\x58\x3B\xCF\x34\xD6\x9C\x98\x0D\x0F\xF2\x57\xE8\xFA\
    \xA5\x00\x00\x00\x1E\x01\x04\x00\x00\x00\x00\x6B\x08\xF1\x8A\
    \x7F\x00\x00\x01\xF6\x73\x7F\x00\x00\x01\xF6\x69\x40\x00\x7F\x00\x00\x01\xF6\x74\
    \xA5\x00\x00\x00\x2D\x01\x01\x00\x00\x00\x00\x6B\x08\xF1\x8A\
    \x7F\x00\x00\x01\xF6\x75\x7F\x00\x00\x01\xF6\x69\x00\x03\x62\x6F\x62\xF6\x6B\
    \x00\x00\x0E\x10\x23\x20\xF1\x98\x1C\x79\x2F\x9A\xA6\x27\xE3\xFD\
    \xA5\x00\x00\x00\x1B\x01\x03\x00\x00\x00\x00\x6B\x08\xF1\x8A\
    \x7F\x00\x00\x01\xF6\x75\x7F\x00\x00\x01\xF6\x69\x01\x7F\x00\x00\x01";

/// A hundred seconds after the last request: 1,795,748,234.
const LATER: Still = Still(Some(1_795_748_334));

/// Where alice sends from, and her relayed address.
const CLIENT: Endpoint = Endpoint {
    ip: HOME,
    port: 63_091,
};

const RELAYED: Endpoint = Endpoint {
    ip: HOME,
    port: 63_082,
};

const PEER: Endpoint = Endpoint {
    ip: HOME,
    port: 63_092,
};

type Serving<'a> = SocketServing<'a, MemoryDisk, turn_cred::Credentials, HostRuntime>;

fn make_disk(alloc: Global) -> Result<MemoryDisk, Fail> {
    let mut content = Vec::from_elem(alloc, 0u8, 3_200_064)?;
    put(&mut content, 0, SUPERBLOCK);
    put(&mut content, 64, FIRST_AREA);
    Ok(MemoryDisk::new(alloc, content))
}

/// Data goes both ways over the channel, without any request.
fn relays(
    rt: &HostRuntime,
    serving: &mut Serving<'_>,
    client: &mut Client<'_>,
) -> Result<bool, Fail> {
    let mut peer = TimedSocket::open(rt.alloc(), rt, PEER)?;
    client.send_over_channel(0x4000, b"on")?;
    serving.turn(&&LATER)?;
    let is_sent = peer.receive()? == (b"on".as_slice(), RELAYED);
    peer.send(RELAYED, b"back")?;
    serving.turn(&&LATER)?;
    Ok(is_sent && client.receive()? == b"\x40\x00\x00\x04back".as_slice())
}

/// What a request of a client gets, once it was challenged.
fn ask(
    serving: &mut Serving<'_>,
    client: &mut Client<'_>,
    method: Method,
    attributes: &[Attribute],
) -> Result<Option<(u32, bool)>, ClientError> {
    let request = client.plain_request(method)?;
    client.send(&request)?;
    serving.turn(&&LATER)?;
    client.take_challenge()?;
    let request = client.request(method, attributes)?;
    client.send(&request)?;
    serving.turn(&&LATER)?;
    match read_message(&client.receive_message()?) {
        Some(ServerMessage::Refreshed(lifetime)) => Ok(Some((lifetime, false))),
        Some(
            ServerMessage::Allocated {
                lifetime,
                token,
                ..
            },
        ) => Ok(Some((lifetime, token.is_some()))),
        _ => Ok(None),
    }
}

/// The allocation is renewed, and another client gets a pair of ports.
fn goes_on(rt: &HostRuntime, serving: &mut Serving<'_>) -> Result<bool, Fail> {
    let server = serving.local();
    let mut client = Client::open(rt.alloc(), rt, CLIENT, server, ALICE)?;
    let is_relayed = relays(rt, serving, &mut client)?;
    let lifetime = [Attribute::Lifetime(900)];
    let renewed = ask(serving, &mut client, Method::REFRESH, &lifetime)?;
    let mut other = Client::open(rt.alloc(), rt, ANY, server, ALICE)?;
    let pair = [Attribute::EvenPort { reserves: true }];
    let allocated = ask(serving, &mut other, Method::ALLOCATE, &pair)?;
    Ok(is_relayed && renewed == Some((900, false)) && allocated == Some((600, true)))
}

/// The second area counts: an open gate, version 2, generation 2.
fn is_carried(disk: &MemoryDisk) -> bool {
    let place = 64 + 1_600_000;
    disk.content().get(place..place + 10)
        == Some(b"\xA5\x02\x00\x00\x00\x00\x00\x00\x00\x02".as_slice())
}

#[test]
fn the_calls_of_a_store_from_before_version_2_go_on(rt: HostRuntime) -> Result<(), Fail> {
    let configured = read_config(rt.alloc(), CONFIG).map_err(|_| "a configuration")?;
    let disk = make_disk(rt.alloc())?;
    let mut serving = start(&rt, configured, Commits::EachTurn, &LATER, disk, Silent)?;
    let went_on = goes_on(&rt, &mut serving);
    let (disk, _) = serving.close();
    if went_on? && is_carried(&disk) {
        Ok(())
    } else {
        Err(Fail::new("another answer"))
    }
}
