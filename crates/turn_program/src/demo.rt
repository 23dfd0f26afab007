//! `turn demo`.

ghost use Rattle.std.specs.Prelude.{◌≡◌};
ghost use Rattle.turn_program.specs.Faults.{of_client};

use std::alloc::Global;
use std::io::Write;
use std::net::Net;
use std::rt::{Clock, Files};
use turn_client::{Allocated, ClientError, Conversation, Loopback, limits};
use turn_disk::{CrashOutcome, Disk, MemoryDisk};
use turn_faults::{Fault, Host, ProgramError, print_line};
use turn_ports::PortRange;
use turn_service::{fault_of_start, fault_of_turn};
use turn_serving::Commits;
use turn_store::{format, least_area};

/// The relay ports are above those that Linux gives to other sockets by default.
const FIRST_PORT: u16 = 61_000;

const LAST_PORT: u16 = 61_999;

/// The fault of the demonstration. In it an answer that doesn't come, or another one, is a fault of the sockets.
fn fault_of_client(fault: ClientError) -> ProgramError
    ensures { result ≡ of_client fault }
{
    match fault {
        ClientError::Start(fault) => fault_of_start(fault),
        ClientError::Turn(fault) => fault_of_turn(fault),
        ClientError::Memory => ProgramError::Memory,
        _ => ProgramError::Socket,
    }
}

/// A disk in memory with a store that holds nothing.
fn make_disk(alloc: Global) -> Result<MemoryDisk, ProgramError> {
    let area = least_area(limits());
    let mut disk = MemoryDisk::new(alloc, Vec::from_elem(alloc, 0u8, 64 + 2 * area)?);
    format(&mut disk, limits(), area)?;
    Ok(disk)
}

fn make_loopback<R: Net + Files + Drop>(
    alloc: Global,
    net: &R,
) -> Result<Loopback<'_, R>, ProgramError> {
    let ports = PortRange::new(FIRST_PORT, LAST_PORT).ok_or(ProgramError::Socket)?;
    Loopback::new(alloc, net, ports, 1, Commits::EachTurn).map_err(fault_of_client)
}

/// A permission for the peer.
fn permit<D: Disk + Drop, R: Net + Files + Drop, C: Clock, W: Write>(
    talk: &mut Conversation<'_, D, R>,
    clock: &C,
    out: &mut W,
) -> Result<(), Fault> {
    talk.permit(clock).map_err(fault_of_client)?;
    print_line("permission ok", out)
}

/// Prints bytes in hex.
fn print_bytes<W: Write>(
    alloc: Global,
    from_or_to: &str,
    bytes: &[u8],
    out: &mut W,
) -> Result<(), Fault> {
    let text = hex::encode(alloc, bytes)?;
    print_line(&format!(in alloc; "{from_or_to} peer {text}")?, out)
}

/// Data to the peer, and data back.
fn send_both_ways<D: Disk + Drop, R: Net + Files + Drop, C: Clock, W: Write>(
    alloc: Global,
    talk: &mut Conversation<'_, D, R>,
    clock: &C,
    port: u16,
    out: &mut W,
) -> Result<(), Fault> {
    let bytes = talk.send(clock, port, b"hello").map_err(fault_of_client)?;
    print_bytes(alloc, "to", &bytes, out)?;
    let bytes = talk
        .receive(clock, port, b"world")
        .map_err(fault_of_client)?;
    print_bytes(alloc, "from", &bytes, out)
}

/// The Allocate once more.
fn repeat<D: Disk + Drop, R: Net + Files + Drop, C: Clock, W: Write>(
    alloc: Global,
    talk: &mut Conversation<'_, D, R>,
    clock: &C,
    allocated: &Allocated,
    out: &mut W,
) -> Result<(), Fault> {
    let is_same = talk.repeat(clock, allocated).map_err(fault_of_client)?;
    let word = if is_same { "same" } else { "differs" };
    print_line(&format!(in alloc; "repeat {word}")?, out)
}

/// The end of the allocation.
fn delete<D: Disk + Drop, R: Net + Files + Drop, C: Clock, W: Write>(
    alloc: Global,
    talk: &mut Conversation<'_, D, R>,
    clock: &C,
    out: &mut W,
) -> Result<(), Fault> {
    let granted = talk.refresh(clock, 0).map_err(fault_of_client)?;
    print_line(&format!(in alloc; "refresh {granted}")?, out)
}

/// An Allocate without credentials, and one with them.
fn allocate<D: Disk + Drop, R: Net + Files + Drop, C: Clock, W: Write>(
    alloc: Global,
    talk: &mut Conversation<'_, D, R>,
    clock: &C,
    out: &mut W,
) -> Result<Allocated, Fault> {
    let code = talk.challenge(clock).map_err(fault_of_client)?;
    print_line(&format!(in alloc; "challenge {code}")?, out)?;
    let allocated = talk.allocate(clock).map_err(fault_of_client)?;
    print_line(&format!(in alloc; "allocate {}", allocated.lifetime)?, out)?;
    Ok(allocated)
}

/// The server crashes: what was not synced is lost.
fn restart<'a, R: Net + Files + Drop, C: Clock>(
    talk: Conversation<'a, MemoryDisk, R>,
    clock: &C,
) -> Result<Conversation<'a, MemoryDisk, R>, ClientError> {
    let (mut disk, loopback) = talk.end();
    disk.crash(CrashOutcome::Lost);
    loopback.serve(clock, disk)
}

/// What is said before the crash.
fn say_first<D: Disk + Drop, R: Net + Files + Drop, C: Clock, W: Write>(
    alloc: Global,
    talk: &mut Conversation<'_, D, R>,
    clock: &C,
    out: &mut W,
) -> Result<Allocated, Fault> {
    let allocated = allocate(alloc, talk, clock, out)?;
    permit(talk, clock, out)?;
    send_both_ways(alloc, talk, clock, allocated.port, out)?;
    Ok(allocated)
}

/// What is said after the crash.
fn say_last<D: Disk + Drop, R: Net + Files + Drop, C: Clock, W: Write>(
    alloc: Global,
    talk: &mut Conversation<'_, D, R>,
    clock: &C,
    first: Result<Allocated, Fault>,
    out: &mut W,
) -> Result<(), Fault> {
    let allocated = first?;
    print_line("restart", out)?;
    repeat(alloc, talk, clock, &allocated, out)?;
    delete(alloc, talk, clock, out)
}

/// Shows a server over sockets of the loopback and a disk in memory.
pub fn run_demo<R: Host, C: Clock, W: Write>(rt: &R, clock: &C, out: &mut W) -> Result<(), Fault> {
    let alloc = rt.alloc();
    let disk = make_disk(alloc)?;
    let mut talk = make_loopback(alloc, rt)?
        .serve(clock, disk)
        .map_err(fault_of_client)?;
    let first = say_first(alloc, &mut talk, clock, out);
    let mut talk = restart(talk, clock).map_err(fault_of_client)?;
    let last = say_last(alloc, &mut talk, clock, first, out);
    talk.end();
    last
}
