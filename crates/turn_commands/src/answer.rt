//! `turn answer`.

use crate::reply::reply_to;
use std::alloc::Global;
use std::io::Write;
use turn_faults::{Fault, print_line};
use turn_types::{Endpoint, FiveTuple, Moment};

/// The server that `turn answer` answers as: 192.0.2.100:3478.
const SERVER: Endpoint = Endpoint {
    ip: 0xC000_0264,
    port: 3478,
};

/// Prints the reply to one datagram.
pub fn run_answer<W: Write>(
    alloc: Global,
    from: Endpoint,
    at: Moment,
    datagram: &[u8],
    out: &mut W,
) -> Result<(), Fault> {
    let five_tuple = FiveTuple {
        client: from,
        server: SERVER,
    };
    match reply_to(alloc, five_tuple, at, datagram)? {
        Some(reply) => print_line(&hex::encode(alloc, reply.as_slice())?, out),
        None => print_line("dropped", out),
    }
}
