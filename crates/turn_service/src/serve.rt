//! `turn serve`.

ghost use Rattle.std.specs.Prelude.{◌≡◌, Err, IfErr, IfOk, IsErr};
ghost use Rattle.turn_faults.specs.Places.{IsConnected};
ghost use Rattle.turn_sockets.specs.Moments.{IsMoment};
ghost use Rattle.turn_serving.specs.Starts.{KeepsImages};
ghost use Rattle.turn_serving.specs.Turns.{Served};
ghost use Rattle.turn_service.specs.Serving.{AnySecond, IsOpened, Serves, ServesOpened, StartedOver, commits_of, just_opened};

use crate::about::{fault_of_sockets, fault_of_wait};
use crate::fault::{fault_of_start, fault_of_turn};
use crate::held::{not_held, sockets_of};
use crate::started::{Started, live_at, tell_notes, tell_started};
use crate::watch::StoreWatch;
use std::alloc::Global;
use std::fs::File;
use std::io::Write;
use std::os::fd::RawFd;
use std::random::RandomSource;
use std::rt::{Clock, Files};
use std::thread;
use std::time::Duration;
use turn_config::{Configured, ShownEndpoint};
use turn_cred::{AuthHandler, Credentials};
use turn_disk::{Disk, FileDisk, FileError, Start, Unknown};
use turn_faults::{
    Fault, Host, Named, NamedExport, Prepared, ProgramError, StorePlace, configure,
    open_export_to_serve, prepare, print_line, read_whole, second_now,
};
use turn_lines::Known;
use turn_log::Log;
use turn_nbd::{NbdDisk, Socket, is_uri};
use turn_notes::Noted;
use turn_ports::{PortRange, RelayAddressGenerator};
use turn_serving::{
    Commits, ListeningSockets, Setup, SetupError, SocketServing, StartError, TurnError,
};
use turn_sockets::{SocketPorts, notify_ready};
use turn_types::Endpoint;

/// What the words of `turn serve` say.
#[derive(Clone, Copy)]
pub struct Service<'a> {
    /// The program's version, which a log begins with.
    pub version: &'a str,
    /// The path of the configuration.
    pub config: &'a str,
    /// The path of the store, or the URI of its export.
    pub store: &'a str,
    /// After how many turns the server ends, if it does.
    pub turns: Option<u64>,
    /// How many datagrams a turn takes of each socket.
    pub burst: u8,
    /// The address on which relay sockets are bound, if it isn't that of the configuration.
    pub relay_bind: Option<u32>,
    /// The addresses that clients send to, beside the configuration's.
    pub listen: &'a [Endpoint],
    /// Whether a supervisor hands the listening sockets over.
    pub is_held: bool,
}

/// What a fault is about where the system gives no random bytes.
const RANDOM: &str = "random bytes";

/// Requests wait for each other unless turns are counted.
fn commits_of(turns: Option<u64>) -> Commits
    ensures { result ≡ commits_of turns }
{
    match turns {
        Some(_) => Commits::EachTurn,
        None => Commits::Paced,
    }
}

/// Random bytes of the system.
fn random_bytes<R: Host>(rt: &R) -> Result<[u8; 32], Fault>
    ensures { IfErr result (λ fault. fault.kind ≡ ProgramError.Device) }
{
    let mut bytes = [0u8; 32];
    match rt.fill_bytes(&mut bytes) {
        Ok(()) => Ok(bytes),
        Err(reason) => Err(Fault::of(rt.alloc(), ProgramError::Device, &RANDOM, &reason)),
    }
}

/// A server over the store on a disk, which a log watches.
type DiskServing<'a, 'w, 'l, D, R, C, L> = SocketServing<
    'a,
    D,
    Credentials,
    R,
    Global,
    &'w StoreWatch<'l, R, C, L>,
>;

/// How often a store that is in use is tried again: a server that ends may have it for a moment yet.
const AGAIN: u32 = 40;

/// The milliseconds before each of these.
const PAUSE: u64 = 50;

/// Opens the disk of a store, whose lock it has from then on. If the store is in use it waits, at most two seconds.
fn open_disk<R: Files<File = File>, C: Clock>(
    rt: &R,
    clock: &C,
    store: &str,
) -> Result<FileDisk<File>, FileError>
    ensures { IfOk result (λ disk. disk ≡ just_opened disk.size) }
{
    for _ in 0..AGAIN {
        match FileDisk::open(rt, store) {
            Ok(disk) => return Ok(disk),
            Err(FileError::InUse) => thread::sleep(clock, Duration::from_millis(PAUSE)),
            Err(refused) => return Err(refused),
        }
    }
    FileDisk::open(rt, store)
}

/// What a fault is about where the system tells no time.
const CLOCK: &str = "clock: the system tells no time";

/// What a start takes before its store.
#[derive(Drop)]
struct Taken {
    began: Option<Duration>,
    seed: [u8; 32],
    prepared: Prepared,
    sockets: ListeningSockets,
    // At which the answers of the store's export come, if it is in one.
    awaited: Option<RawFd>,
}

/// Takes the configuration, and the sockets that are handed over.
fn take_first<R: Host, C: Clock>(rt: &R, clock: &C, service: Service<'_>) -> Result<Taken, Fault> {
    let began = clock.monotonic().ok();
    let seed = random_bytes(rt)?;
    let prepared = prepare(rt, service.config, service.listen)?;
    let listen = prepared.listen.as_slice();
    let sockets = sockets_of(rt, service.is_held, listen).map_err(|fault| not_held(
        rt.alloc(),
        fault,
    ))?;
    Ok(Taken {
        began,
        seed,
        prepared,
        sockets,
        awaited: None,
    })
}

/// Takes these and the store in a file.
fn take_file<R: Host, C: Clock>(
    rt: &R,
    clock: &C,
    service: Service<'_>,
) -> Result<(Taken, FileDisk<File>), Fault>
    ensures { IfOk result (λ taken. taken.1 ≡ just_opened taken.1.size) }
{
    let taken = take_first(rt, clock, service)?;
    match open_disk(rt, clock, service.store) {
        Ok(disk) => Ok((taken, disk)),
        Err(refused) => Err(Fault::of_file(rt.alloc(), Named::store(service.store), refused)),
    }
}

/// Takes these and the store in an export.
fn take_export<R: Host, C: Clock>(
    rt: &R,
    clock: &C,
    service: Service<'_>,
    named: NamedExport<'_>,
) -> Result<(Taken, NbdDisk), Fault>
    ensures { IfOk result (λ taken. IsConnected taken.1) }
{
    let mut taken = take_first(rt, clock, service)?;
    let disk = open_export_to_serve(rt, clock, named)?;
    taken.awaited = Some(disk.descriptor());
    Ok((taken, disk))
}

/// The fault of a start over this disk.
fn refused<D: Disk>(
    alloc: Global,
    store: &str,
    ports: PortRange,
    fault: StartError,
    disk: &D,
) -> Fault {
    let kind = fault_of_start(fault);
    match fault {
        StartError::Store(_) | StartError::Carry(_) => {
            Fault::of_disk(alloc, Named::store(store), kind, disk)
        }
        StartError::Socket(missing) => fault_of_sockets(alloc, ports, missing),
        StartError::Memory => Fault::from(kind),
    }
}

/// The fault of a turn over this disk.
fn fault_of<D: Disk>(alloc: Global, store: &str, fault: TurnError, disk: &D) -> Fault {
    let kind = fault_of_turn(fault);
    match fault {
        TurnError::Commit(_) => Fault::of_disk(alloc, Named::store(store), kind, disk),
        TurnError::Socket(number) => fault_of_wait(alloc, number),
        TurnError::Clock => Fault::about(alloc, kind, &CLOCK),
        TurnError::Memory => Fault::from(kind),
    }
}

/// How long it is since a time, if the system says.
fn since<C: Clock>(clock: &C, began: Option<Duration>) -> Option<Duration> {
    let now = clock.monotonic().ok()?;
    Some(now.saturating_sub(began?))
}

/// How a service over a disk ended.
#[derive(Drop)]
pub struct Ended<D: Disk + Drop> {
    /// The first fault, if there was one.
    pub told: Result<(), Fault>,
    /// The disk as it was left.
    pub disk: D,
}

/// Starts a server over a disk.
fn start<'a, 'w, 'l, D: Disk + Drop, R: Host, C: Clock, L: Write + Drop>(
    rt: &'a R,
    clock: &C,
    service: Service<'_>,
    watch: &'w StoreWatch<'l, R, C, L>,
    taken: Taken,
    disk: D,
) -> Result<DiskServing<'a, 'w, 'l, D, R, C, L>, Ended<D>>
    ensures started { IfOk result (λ serving. StartedOver D.Disk ⟦<Credentials as AuthHandler>⟧
        ⟦<SocketPorts<'a, R, Global> as RelayAddressGenerator>⟧ disk serving.server) }
    ensures kept { IfErr result (λ ended. KeepsImages D.Disk disk ended.disk) }
    ensures told { IfErr result (λ ended. IsErr ended.told) }
{
    let Taken {
        began: _,
        seed,
        prepared,
        sockets,
        awaited,
    } = taken;
    let Prepared {
        config,
        credentials,
        listen,
        ports,
        relay_bind,
        local_peers,
    } = prepared;
    let relay_bind = service.relay_bind.or(relay_bind);
    let setup = Setup {
        config: &config,
        listen: &listen,
        ports,
        relay_bind,
        local_peers: &local_peers,
        burst: service.burst,
        commits: commits_of(service.turns),
        seed,
        awaited,
    };
    match setup.start(rt.alloc(), rt, clock, disk, credentials, sockets, watch) {
        Ok(serving) => Ok(serving),
        Err(SetupError { fault, disk }) => {
            let fault = refused(rt.alloc(), service.store, ports, fault, &disk);
            Err(Ended {
                told: Err(fault),
                disk,
            })
        }
    }
}

/// Takes turns.
fn take_turns<'a, D: Disk + Drop, R: Host, C: Clock, L: Write + Drop>(
    rt: &R,
    serving: &mut DiskServing<'a, '_, '_, D, R, C, L>,
    clock: &C,
    service: Service<'_>,
) -> Result<(), Fault>
    ensures { Served D.Disk ⟦<Credentials as AuthHandler>⟧ ⟦<SocketPorts<'a, R, Global> as RelayAddressGenerator>⟧
        (IsMoment AnySecond) serving.old.server serving.new.server }
{
    // 2^64 turns of which each takes a microsecond are 580,000 years.
    match serving.turns(&clock, service.turns.unwrap_or(u64::MAX)) {
        Ok(()) => Ok(()),
        Err(fault) => {
            let disk = serving.server().disk();
            Err(fault_of(rt.alloc(), service.store, fault, disk))
        }
    }
}

/// Prints a line for each address that clients send to.
fn print_addresses<W: Write>(
    alloc: Global,
    addresses: &[Endpoint],
    out: &mut W,
) -> Result<(), Fault> {
    for address in addresses {
        let shown = ShownEndpoint(*address);
        print_line(&format!(in alloc; "listening {shown}")?, out)?;
    }
    Ok(())
}

/// Says where the server listens, takes the turns, and says how many there were.
fn tell<'a, D: Disk + Drop, R: Host, C: Clock, W: Write, L: Write + Drop>(
    rt: &R,
    serving: &mut DiskServing<'a, '_, '_, D, R, C, L>,
    clock: &C,
    service: Service<'_>,
    out: &mut W,
) -> Result<(), Fault>
    ensures { Served D.Disk ⟦<Credentials as AuthHandler>⟧ ⟦<SocketPorts<'a, R, Global> as RelayAddressGenerator>⟧
        (IsMoment AnySecond) serving.old.server serving.new.server }
{
    print_addresses(rt.alloc(), serving.locals().as_slice(), out)?;
    take_turns(rt, serving, clock, service)?;
    match service.turns {
        Some(turns) => print_line(&format!(in rt.alloc(); "served {turns} turns")?, out),
        None => Ok(()),
    }
}

/// Lets a log know the server: its configuration, which is read once more, and its ports. Without that its lines say less.
fn inform<R: Host, C: Clock, L: Write + Drop>(
    rt: &R,
    service: Service<'_>,
    watch: &StoreWatch<'_, R, C, L>,
    started: &Started<'_>,
    second: u64,
) -> Result<(), Fault> {
    if !watch.log().is_kept() {
        return Ok(());
    }
    let text = read_whole(rt, Named::config(service.config))?;
    let Configured {
        config,
        credentials,
        ..
    } = configure(rt.alloc(), service.config, &text)?;
    let known = Known {
        config,
        credentials,
        has_several: started.listen.len() > 1,
        is_ahead: started.is_ahead,
    };
    watch.know(known, started.ports, second)?;
    Ok(())
}

/// Says what was started. At a file the log looks from then on whether its path still leads to it.
fn tell_begun<'a, D: Disk + Drop, R: Host, C: Clock, L: Write + Drop>(
    rt: &R,
    clock: &C,
    service: Service<'_>,
    watch: &StoreWatch<'_, R, C, L>,
    serving: &DiskServing<'a, '_, '_, D, R, C, L>,
    began: Option<Duration>,
) {
    let (second, log) = (second_now(clock), watch.log());
    let started = Started {
        version: service.version,
        listen: serving.locals().as_slice(),
        ports: serving.server().ports().range(),
        store: service.store,
        generation: serving.server().info().generation,
        live: live_at(serving.server().table(), second),
        is_ahead: second < serving.server().clock().seconds(),
        took: since(clock, began),
    };
    if !is_uri(service.store) {
        watch.begin();
    }
    tell_started(rt.alloc(), clock, log, &started);
    let noted = Noted {
        ports: started.ports,
        allocations: serving.server().table().limits().allocations(),
        clock: Some(serving.server().table().moment()),
    };
    tell_notes(rt, clock, log, noted);
    let _ = inform(rt, service, watch, &started, second);
}

/// Serves over a disk for so many turns, or until the process is ended. The disk is returned as it was left.
fn serve_over<'a, D: Disk + Drop, R: Host, C: Clock, W: Write, L: Write + Drop>(
    rt: &'a R,
    clock: &C,
    service: Service<'_>,
    taken: Taken,
    disk: D,
    log: &Log<L>,
    out: &mut W,
) -> Ended<D>
    ensures { Serves D.Disk ⟦<Credentials as AuthHandler>⟧
        ⟦<SocketPorts<'a, R, Global> as RelayAddressGenerator>⟧ disk result.disk }
{
    let watch = StoreWatch::new(rt.alloc(), rt, clock, service.store, log);
    let began = taken.began;
    let mut serving = match start(rt, clock, service, &watch, taken, disk) {
        Ok(serving) => serving,
        Err(ended) => return ended,
    };
    tell_begun(rt, clock, service, &watch, &serving, began);
    notify_ready(rt);
    let told = tell(rt, &mut serving, clock, service, out);
    let (disk, _) = serving.close();
    Ended { told, disk }
}

/// Serves over the store in a file, for so many turns, or until the process is ended. `S` stands for the state in
/// which the store's file was found, whatever that is. An error is one before the file was opened; from then on the disk is returned.
pub fn run_serve<'a, S: Start, R: Host, C: Clock, W: Write, L: Write + Drop>(
    rt: &'a R,
    clock: &C,
    service: Service<'_>,
    log: &Log<L>,
    out: &mut W,
) -> Result<Ended<FileDisk<File, S>>, Fault>
    ensures { IfOk result (λ ended. ServesOpened ⟦<FileDisk<File, S> as Disk>⟧ ⟦<Credentials as AuthHandler>⟧
        ⟦<SocketPorts<'a, R, Global> as RelayAddressGenerator>⟧ IsOpened ended.disk) }
{
    match take_file(rt, clock, service) {
        Ok((taken, disk)) => {
            let disk = disk.holding::<S>();
            Ok(serve_over(rt, clock, service, taken, disk, log, out))
        }
        Err(fault) => Err(fault),
    }
}

/// Serves over the store in an export, as `run_serve` over one in a file. `S` stands for the state in which the export was found.
pub fn serve_export<'a, S: Start, R: Host, C: Clock, W: Write, L: Write + Drop>(
    rt: &'a R,
    clock: &C,
    service: Service<'_>,
    named: NamedExport<'_>,
    log: &Log<L>,
    out: &mut W,
) -> Result<Ended<NbdDisk<Socket, S>>, Fault>
    ensures { IfOk result (λ ended. ServesOpened ⟦<NbdDisk<Socket, S> as Disk>⟧ ⟦<Credentials as AuthHandler>⟧
        ⟦<SocketPorts<'a, R, Global> as RelayAddressGenerator>⟧ IsConnected ended.disk) }
{
    match take_export(rt, clock, service, named) {
        Ok((taken, disk)) => {
            let disk = disk.holding::<S>();
            Ok(serve_over(rt, clock, service, taken, disk, log, out))
        }
        Err(fault) => Err(fault),
    }
}

/// The first fault of a service, if there was one.
fn told_of<D: Disk + Drop>(ended: Result<Ended<D>, Fault>) -> Result<(), Fault>
    ensures told { IfOk ended (λ ended. result ≡ ended.told) }
    ensures refused { IfErr ended (λ fault. result ≡ Err fault) }
{
    match ended {
        Ok(Ended { told, disk: _ }) => told,
        Err(fault) => Err(fault),
    }
}

/// Serves over a store in a file or in an export, for so many turns, or until the process is ended.
pub fn run_service<R: Host, C: Clock, W: Write, L: Write + Drop>(
    rt: &R,
    clock: &C,
    service: Service<'_>,
    log: &Log<L>,
    out: &mut W,
) -> Result<(), Fault> {
    match StorePlace::of(service.store)? {
        StorePlace::File(_) => {
            told_of(run_serve::<Unknown, R, C, W, L>(rt, clock, service, log, out))
        }
        StorePlace::Export(named) => {
            told_of(serve_export::<Unknown, R, C, W, L>(rt, clock, service, named, log, out))
        }
    }
}
