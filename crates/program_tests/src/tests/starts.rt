//! A start opens its store once, and the receive buffers of relay sockets.

use super::started::start;
use super::stores::{FRAME, allocated, formatted, fresh, put};
use std::alloc::Global;
use std::cell::Cell;
use std::fs;
use std::test::Fail;
use test_files::{Changing, TestFile};
use turn_config::read_config;
use turn_config::values::{number_32, split_once};
use turn_cred::AuthHandler;
use turn_disk::{Disk, FileDisk};
use turn_engine::Server;
use turn_serving::{Commits, RelaySockets, Silent};
use turn_sockets::BoundSocket;

const CONFIG: &[u8] = b"realm example.org
user alice wonder
secret 0000000000000000000000000000000000000000000000000000000000000000
listen 127.0.0.1:0
relay 127.0.0.1 63014 63019
limits 2 1 1 1 8
";

/// A frame with alice's allocation of a pair at 1000 for 600 seconds, and the closed gate after it: the next port, which is at 52, is
/// reserved.
const PAIR: &[u8] = b"\xA5\x00\x00\x00\x37\x01\x05\x00\x00\x00\x00\x00\x00\x03\xE8\
    \xC0\x00\x02\x01\x80\x55\xC0\x00\x02\x64\x0D\x96\x00\x05\x61\x6C\x69\x63\x65\xF6\x2A\
    \x00\x00\x02\x58\x01\x02\x03\x04\x05\x06\x07\x08\x09\x0A\x0B\x0C\
    \xF6\x2B\xD5\x74\xB1\x5A\x49\xFA\x00";

/// A store of version 2 with alice's allocation at relayed port 63,018.
fn even(alloc: Global) -> Result<Vec<u8>, Fail> {
    let mut bytes = formatted(alloc)?;
    put(&mut bytes, 94, FRAME);
    put(&mut bytes, 94 + 34, b"\xF6\x2A");
    Ok(bytes)
}

/// The same, with port 63,019 reserved.
fn pair(alloc: Global) -> Result<Vec<u8>, Fail> {
    let mut bytes = formatted(alloc)?;
    put(&mut bytes, 94, PAIR);
    Ok(bytes)
}

/// The receive buffer of a port's socket, if it has one.
fn buffer_at<D: Disk, H: AuthHandler, G: RelaySockets>(
    server: &Server<D, H, G>,
    port: u16,
) -> Option<u32> {
    server.ports().socket(port).map(BoundSocket::receive_buffer)
}

/// The receive buffer of the socket of port 63,019, if it has one after a start over a file, which has the other content at a second
/// opening. The store is opened once.
fn found_buffer(rt: &HostRuntime, store: &[u8], other: &[u8]) -> Result<Option<u32>, Fail> {
    let configured = read_config(rt.alloc(), CONFIG).map_err(|_| "a configuration")?;
    let syncs = Cell::new(0);
    let file = Changing {
        first: store,
        second: other,
        syncs: &syncs,
    };
    let disk = FileDisk::new(TestFile(file), store.len());
    let serving = start(rt, configured, Commits::EachTurn, rt, disk, Silent).map_err(
        |_| "a start",
    )?;
    let buffer = buffer_at(serving.server(), 63_019);
    serving.close();
    if syncs.get() == 1 {
        Ok(buffer)
    } else {
        Err(Fail::new("another number of openings"))
    }
}

/// The receive buffer that Linux gives where 8 MiB are asked for: no more than its limit, and doubled.
fn given_buffer(rt: &HostRuntime) -> Result<u32, Fail> {
    let text = fs::read(rt, "/proc/sys/net/core/rmem_max")?;
    let (limit, _) = split_once(&text, b'\n').ok_or("a line")?;
    let limit = number_32(limit).ok_or("a number")?;
    Ok(limit.min(8 << 20).wrapping_mul(2))
}

#[test]
fn a_start_has_a_socket_for_each_port_of_its_store(rt: HostRuntime) -> Result<(), Fail> {
    let (empty, allocated) = (fresh(rt.alloc())?, allocated(rt.alloc(), 63_019)?);
    let buffer = Some(given_buffer(&rt)?);
    assert!(rt; found_buffer(&rt, &allocated, &empty)? == buffer);
    // Nor has another port one.
    assert!(rt; found_buffer(&rt, &empty, &allocated)?.is_none());
    Ok(())
}

#[test]
fn a_start_has_a_socket_for_each_reserved_port(rt: HostRuntime) -> Result<(), Fail> {
    let (even, pair) = (even(rt.alloc())?, pair(rt.alloc())?);
    let buffer = Some(given_buffer(&rt)?);
    assert!(rt; found_buffer(&rt, &pair, &even)? == buffer);
    assert!(rt; found_buffer(&rt, &even, &pair)?.is_none());
    Ok(())
}
