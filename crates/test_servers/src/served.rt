//! A server over a disk in memory.

use std::alloc::{Allocator, Global};
use test_requests::Ports;
use turn_cred::Credentials;
use turn_disk::MemoryDisk;
use turn_engine::Server;

/// A server over a disk in memory, whose generator of ports records its calls.
pub type Served<A = Global> = Server<MemoryDisk<A>, Credentials, Ports, A>;

/// A server that runs, or the disk of one whose store was not opened.
#[derive(Drop)]
pub(crate) enum Held<A: Allocator + Copy> {
    Serving(Served<A>),
    Down(MemoryDisk<A>),
}

impl<A: Allocator + Copy> Held<A> {
    /// The disk, of the closed server if one runs.
    pub(crate) fn into_disk(self) -> MemoryDisk<A> {
        match self {
            Held::Serving(server) => {
                let (disk, _, _) = server.close();
                disk
            }
            Held::Down(disk) => disk,
        }
    }
}

/// Whether the ports of the table are held, those that are reserved too, and no other, and each was picked and released in turn.
pub(crate) fn keeps_ports<A: Allocator + Copy>(server: &Served<A>) -> bool {
    let (table, ports) = (server.table(), server.ports());
    ports.is_sound()
        && (50000..50010u16).all(|port| ports.is_held(port)
            == (table.by_port(port).is_some() || table.reserved(port).is_some()))
}
