//! The calls that are measured. Each returns whether it did what it is measured for.

ghost use Rattle.std.specs.Prelude.{◌<◌};

use super::datagrams::{CLIENT, PEER, client_at};
use super::servers::{Engine, PORT, Rules, apply, make_table};
use std::alloc::{AllocError, Global};
use test_requests::{ID, five_tuple};
use turn_codec::is_channel_data_number;
use turn_history::{Act, Addresses};
use turn_mac::{hmac_sha1, hmac_sha256};
use turn_relay::{from_client, from_peer};
use turn_step::{Arrival, Outgoing};
use turn_table::Table;
use turn_types::{MAX_LIFETIME, Moment};

/// How many arrivals a commit has.
pub const BATCH: usize = 64;

/// How many permissions the client of a `Lasting` has. Each lives for 300 seconds, and so for as many calls.
const PERMISSIONS: u16 = 30;

/// After how many calls each allocation is renewed, which is every 3,000 seconds. It is a multiple of the permissions, so that these
/// take turns.
const TURNS: u16 = 300;

/// HMAC-SHA1 of a Refresh and of its response, and HMAC-SHA256 of a nonce, by themselves.
pub fn digests(refresh: &[u8], key: &[u8; 16]) -> bool {
    let request = hmac_sha1(key, refresh);
    let response = hmac_sha1(key, &refresh[..28.min(refresh.len())]);
    let nonce = hmac_sha256(&[0; 32], &[0; 14]);
    request[0] ^ response[0] ^ nonce[0] != 0 || request != response
}

/// Whether a datagram starts with these bytes.
fn starts(out: &Outgoing, bytes: &[u8]) -> bool {
    match out {
        Outgoing::ToClient { bytes: sent, .. } | Outgoing::ToPeer { bytes: sent, .. } => {
            sent.starts_with(bytes)
        }
    }
}

/// Submits the same arrival as often as a batch has arrivals, and commits them: as many datagrams that start with these bytes are
/// handed out.
pub fn commit(server: &mut Engine, arrival: &Arrival<'_>, bytes: &[u8]) -> bool {
    for _ in 0..BATCH {
        let moment = server.clock();
        if server.submit(moment, arrival).is_err() {
            return false;
        }
    }
    match server.commit() {
        Ok(outs) => outs.len() == BATCH && outs.iter().all(|out| starts(out, bytes)),
        Err(_) => false,
    }
}

/// Makes a step without a store, which sends a datagram that starts with these bytes.
pub fn step(server: &mut Rules, arrival: &Arrival<'_>, bytes: &[u8]) -> bool {
    let moment = server.moment();
    match server.step(moment, arrival) {
        Ok(Some(out)) => starts(&out, bytes),
        _ => false,
    }
}

/// Makes the first half of a step that has an act, and abandons it, so that the server is as before.
pub fn prepare(server: &mut Rules, arrival: &Arrival<'_>) -> bool {
    let moment = server.moment();
    let Ok(step) = server.prepare(moment, arrival) else {
        return false;
    };
    let has_act = step.act().is_some();
    server.abandon(step);
    has_act
}

/// Purges a table a second later, up to the last second before something expires, and then at that one again. Nothing has expired.
pub fn purge(table: &mut Table, last: Moment) -> bool {
    let moment = table.moment();
    let moment = match Moment::new(moment.seconds() + 1) {
        Some(next) if next <= last => next,
        _ => moment,
    };
    table.purge(moment).is_none()
}

/// A table whose allocations live on. Its client has permissions for 30 addresses, one of which expires every 10 seconds.
#[derive(Drop)]
pub struct Lasting {
    table: Table,
    // Which permission and which allocations are next.
    turn: u16,
}

impl Lasting {
    /// The table, of so many allocations, once the client has the permissions.
    pub fn make(alloc: Global, allocations: u16) -> Result<Lasting, AllocError> {
        let table = make_table(alloc, allocations)?;
        let mut lasting = Lasting { table, turn: 0 };
        for _ in 0..PERMISSIONS {
            if !lasting.purge_and_permit(alloc) {
                return Err(AllocError);
            }
        }
        Ok(lasting)
    }

    /// Purges the table 10 seconds later, at which a permission of the client has expired, so that all entries are walked, and gives the
    /// permission anew. It also renews a 300th of the allocations, so that none ever expires.
    pub fn purge_and_permit(&mut self, alloc: Global) -> bool {
        let Some(moment) = Moment::new(self.table.moment().seconds() + 10) else {
            return false;
        };
        let turn = self.turn % TURNS;
        self.turn = turn + 1;
        let ip = PEER.ip ^ u32::from(turn % PERMISSIONS);
        self.table.purge(moment).is_none()
            && !self.table.permitted(five_tuple(CLIENT), ip)
            && permit(alloc, &mut self.table, ip).is_ok()
            && renew(&mut self.table, turn).is_ok()
    }
}

fn permit(alloc: Global, table: &mut Table, ip: u32) -> Result<(), AllocError> {
    let addresses = Addresses::from(Vec::from_slice(alloc, &[ip])?);
    // For the proof: the limits allow a permission.
    let _ = table.limits();
    apply(table, five_tuple(CLIENT), Act::Permit { addresses })
}

/// Renews each 300th allocation from a place on. No table has more than four times 300.
fn renew(table: &mut Table, first: u16) -> Result<(), AllocError>
    requires { first < 300 }
{
    for part in 0..4 {
        let place = first + part * TURNS;
        if usize::from(place) < table.len() {
            let granted = MAX_LIFETIME;
            apply(table, five_tuple(client_at(place)), Act::Renew { granted })?;
        }
    }
    Ok(())
}

/// Relays the client's datagram by the relay alone, with the payload in a vector of its own.
pub fn to_peer(alloc: Global, table: &Table, bytes: &[u8]) -> bool {
    match from_client(table, five_tuple(CLIENT), bytes) {
        Some(data) => Vec::from_slice(alloc, data.bytes).is_ok(),
        None => false,
    }
}

/// Relays the peer's datagram by the relay alone, as the client's.
pub fn to_client(alloc: Global, table: &Table, bytes: &[u8]) -> bool {
    match from_peer(table, PORT, PEER, bytes) {
        Some(data) => match data.channel {
            Some(number) if is_channel_data_number(number.get()) => data.write(alloc, ID).is_ok(),
            _ => false,
        },
        None => false,
    }
}
