//! `turn end`: allocations end, in a store that no server holds.

use crate::fault::fault_of_end;
use std::alloc::{AllocError, Global};
use std::io::Write;
use std::rt::Clock;
use turn_config::ShownEndpoint;
use turn_disk::{Disk, FileDisk};
use turn_ending::{Chosen, Operator, Whose, chosen_of, end_all};
use turn_engine::Server;
use turn_faults::{
    Fault, Host, Named, PATIENCE, Prepared, ProgramError, StorePlace, open_export, prepare,
    print_lines,
};
use turn_log::ShownName;
use turn_ports::PortRange;
use turn_sockets::moment_now;
use turn_types::ServerConfig;

/// A line for each allocation that ended.
fn lines_of(alloc: Global, ended: &[Chosen]) -> Result<Vec<String>, AllocError> {
    let mut lines = Vec::new(alloc);
    for one in ended {
        let (client, server) = (
            ShownEndpoint(one.five_tuple.client),
            ShownEndpoint(one.five_tuple.server),
        );
        let (name, port) = (ShownName(&one.user), one.port);
        lines.push(format!(in alloc; "ended {name} client {client} at={server} port={port}")?)?;
    }
    Ok(lines)
}

/// Ends allocations in the store of a server.
fn end_over<D: Disk + Drop, C: Clock>(
    alloc: Global,
    clock: &C,
    config: &ServerConfig,
    server: &mut Server<D, Operator, PortRange>,
    whose: Whose<'_>,
) -> Result<Vec<Chosen>, ProgramError> {
    let moment = moment_now(&clock, server.clock()).ok_or(ProgramError::Device)?;
    let chosen = chosen_of(alloc, server.table(), whose, moment)?;
    end_all(alloc, server, config, &chosen, moment).map_err(fault_of_end)?;
    Ok(chosen)
}

/// Ends allocations in the store on a disk.
fn end_on<D: Disk + Drop, C: Clock>(
    alloc: Global,
    clock: &C,
    prepared: &Prepared,
    store: Named<'_>,
    disk: D,
    whose: Whose<'_>,
) -> Result<Vec<Chosen>, Fault> {
    let config = &prepared.config;
    // The store keeps its version: a start carries it over.
    let mut server = match Server::open_as(alloc, disk, config, Operator, prepared.ports, false) {
        Ok(server) => server,
        Err(refused) => {
            let kind = ProgramError::from(refused.fault);
            return Err(Fault::of_disk(alloc, store, kind, &refused.disk));
        }
    };
    match end_over(alloc, clock, config, &mut server, whose) {
        Ok(chosen) => Ok(chosen),
        Err(kind) => {
            let (disk, ..) = server.close();
            Err(Fault::of_disk(alloc, store, kind, &disk))
        }
    }
}

/// Ends allocations in a store.
fn end_at<R: Host, C: Clock>(
    rt: &R,
    clock: &C,
    prepared: &Prepared,
    store: &str,
    whose: Whose<'_>,
) -> Result<Vec<Chosen>, Fault> {
    let (alloc, named) = (rt.alloc(), Named::store(store));
    match StorePlace::of(store)? {
        StorePlace::File(path) => {
            let disk = FileDisk::open(rt, path).map_err(|refused| Fault::of_file(
                alloc, named, refused,
            ))?;
            end_on(alloc, clock, prepared, named, disk, whose)
        }
        StorePlace::Export(export) => {
            let disk = open_export(rt, clock, export, PATIENCE)?;
            end_on(alloc, clock, prepared, named, disk, whose)
        }
    }
}

/// Ends the allocations of a user or of a client's address in a store that no server holds, and prints a line for each. Nothing else of
/// the store changes, but that it is opened.
pub fn run_end<R: Host, C: Clock, W: Write>(
    rt: &R,
    clock: &C,
    config: &str,
    store: &str,
    whose: Whose<'_>,
    out: &mut W,
) -> Result<(), Fault> {
    let prepared = prepare(rt, config, &[])?;
    let chosen = end_at(rt, clock, &prepared, store, whose)?;
    let lines = lines_of(rt.alloc(), &chosen)?;
    print_lines(rt.alloc(), &lines, out)
}
