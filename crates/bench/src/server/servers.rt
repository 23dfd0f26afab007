//! The servers whose calls are measured.

ghost use Rattle.turn_history.specs.Act.{act_of};
ghost use Rattle.turn_history.specs.Fitting.{IsActInRange};

use super::datagrams::{CHANNEL, CLIENT, PAIR, PEER, SECRET, client_at, moment, request};
use crate::requests::{HOUR, Kind, LOWEST, UDP, of_client};
use std::alloc::{AllocError, Global};
use test_requests::{ALICE, ID, REALM, five_tuple};
use turn_cred::Users;
use turn_disk::{Disk, MemoryDisk};
use turn_engine::Server;
use turn_history::{Act, UserName};
use turn_ports::PortRange;
use turn_requests::Attribute;
use turn_step::{Machine, Pairs};
use turn_store::format;
use turn_table::Table;
use turn_types::{Endpoint, FiveTuple, Limits, MAX_LIFETIME, Moment, ServerConfig, Settings};

/// A server over a store in memory.
pub type Engine = Server<MemoryDisk, Users, PortRange>;

/// The rules of the same server, without a store.
pub type Rules = Machine<Users, PortRange>;

/// The relayed port of the client.
pub const PORT: u16 = 50_000;

/// The size of an area.
const AREA: usize = 2_000_000;

/// How many device calls a commit makes at most, and an upper bound of the bytes that it writes on average.
const CALLS: usize = 8;

const BYTES: usize = 4096;

fn config(alloc: Global) -> Result<ServerConfig, AllocError> {
    let settings = Settings {
        realm: REALM,
        secret: SECRET,
        relay: 0xC633_6401,
        quota: 1024,
        denied: &[],
        limits: Limits::MAX,
    };
    ServerConfig::new(alloc, settings).map_err(|_| AllocError)
}

/// One user.
fn users(alloc: Global) -> Result<Users, AllocError> {
    let mut users = Users::new(alloc);
    users.add(ALICE.name(), ALICE.key())?;
    Ok(users)
}

fn ports() -> Result<PortRange, AllocError> {
    PortRange::new(PORT, PORT + 1999).ok_or(AllocError)
}

/// A disk with an empty store, and with room for the record of so many commits.
fn formatted(alloc: Global, commits: usize) -> Result<MemoryDisk, AllocError> {
    let mut disk = MemoryDisk::new(alloc, Vec::from_elem(alloc, 0u8, 64 + 2 * AREA)?);
    if disk.size() != 64 + 2 * AREA {
        return Err(AllocError);
    }
    format(&mut disk, Limits::MAX, AREA).map_err(|_| AllocError)?;
    disk.reserve(commits.saturating_mul(CALLS), commits.saturating_mul(BYTES))?;
    Ok(disk)
}

/// Has a server take the Allocates of so many clients, the first `pairs` of which ask for a pair of ports, and then the client's
/// ChannelBind. It returns whether all were taken.
fn fill<F: FnMut(Endpoint, &[u8]) -> bool>(
    alloc: Global,
    take: &mut F,
    allocations: u16,
    pairs: u16,
) -> Result<bool, AllocError>
    requires { (state : F) (client bytes : _) → F.pre state client bytes }
{
    for place in 0..allocations {
        let client = client_at(place);
        let asked = if place < pairs { PAIR } else { HOUR };
        let bytes = request(alloc, Kind::Allocate, client, &[UDP, asked])?;
        if !take(client, &bytes) {
            return Ok(false);
        }
    }
    let peer = Attribute::Peer(PEER);
    let bytes = request(alloc, Kind::ChannelBind, CLIENT, &[LOWEST, peer])?;
    Ok(take(CLIENT, &bytes))
}

/// Whether a table has so many allocations and reserved ports, and the client's channel.
fn is_filled(table: &Table, allocations: u16, pairs: u16) -> bool {
    table.peer_of(five_tuple(CLIENT), CHANNEL) == Some(PEER)
        && table.len() == usize::from(allocations)
        && table.reserved_len() == usize::from(pairs)
}

fn take_by_engine(server: &mut Engine, moment: Moment, client: Endpoint, bytes: &[u8]) -> bool {
    let arrival = of_client(client, bytes);
    server.clock() <= moment && server.submit(moment, &arrival).is_ok() && server.commit().is_ok()
}

fn take_by_rules(server: &mut Rules, moment: Moment, client: Endpoint, bytes: &[u8]) -> bool {
    server.moment() <= moment && server.step(moment, &of_client(client, bytes)).is_ok()
}

/// A server with so many allocations over a disk with room for the record of so many more commits.
pub fn make_engine(alloc: Global, allocations: u16, commits: usize) -> Result<Engine, AllocError> {
    let moment = moment()?;
    let disk = formatted(alloc, commits.saturating_add(2000))?;
    let config = config(alloc)?;
    let Ok(mut server) = Server::open(alloc, disk, &config, users(alloc)?, ports()?) else {
        return Err(AllocError);
    };
    let take = &mut |client: Endpoint, bytes: &[u8]| take_by_engine(
        &mut server,
        moment,
        client,
        bytes,
    );
    if fill(alloc, take, allocations, 0)? && is_filled(server.table(), allocations, 0) {
        Ok(server)
    } else {
        Err(AllocError)
    }
}

/// The rules of a server with so many allocations, the first of which reserve a port each.
pub fn make_rules(alloc: Global, allocations: u16, pairs: u16) -> Result<Rules, AllocError> {
    let moment = moment()?;
    let config = config(alloc)?;
    let table = Table::new(alloc, config.limits(), moment);
    let mut server = Machine::new(
        alloc,
        config,
        users(alloc)?,
        ports()?,
        table,
        Pairs::Reserved,
    )?;
    let take = &mut |client: Endpoint, bytes: &[u8]| take_by_rules(
        &mut server,
        moment,
        client,
        bytes,
    );
    if fill(alloc, take, allocations, pairs)? && is_filled(server.table(), allocations, pairs) {
        Ok(server)
    } else {
        Err(AllocError)
    }
}

/// Applies an act that fits.
pub fn apply(table: &mut Table, five_tuple: FiveTuple, act: Act) -> Result<(), AllocError>
    requires { IsActInRange table.old.bounds (act_of act) }
{
    if !table.fits(five_tuple, &act) {
        return Err(AllocError);
    }
    table.reserve_for(five_tuple, &act)?;
    // For the proof: the table's moment is in range.
    let _ = table.moment();
    table.apply(five_tuple, act);
    Ok(())
}

/// A table of so many allocations, each of which lives for an hour.
pub fn make_table(alloc: Global, allocations: u16) -> Result<Table, AllocError> {
    let mut table = Table::new(alloc, Limits::MAX, moment()?);
    let name = ALICE.name();
    for place in 0..allocations.min(1024) {
        if name.is_empty() || usize::from(table.limits().name_bytes()) < name.len() {
            return Err(AllocError);
        }
        let five_tuple = five_tuple(client_at(place));
        let act = Act::Alloc {
            user: UserName::from(Vec::from_slice(alloc, name)?),
            port: PORT + place,
            granted: MAX_LIFETIME,
            tx: ID,
        };
        apply(&mut table, five_tuple, act)?;
    }
    Ok(table)
}
