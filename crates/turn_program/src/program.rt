//! A whole run of the program, over its words and two writers.

ghost use Rattle.std.specs.Prelude.{◌≡◌};
ghost use Rattle.turn_faults.specs.Status.{status_of, IsStatus};
ghost use Rattle.turn_program.specs.Faults.{of_words};

use crate::demo::run_demo;
use crate::help::run_help;
use crate::place::check_place;
use crate::probe::run_probe;
use crate::version::{Release, run_version};
use std::alloc::Global;
use std::convert::AsStr;
use std::env::Env;
use std::fs::File;
use std::io::Write;
use std::net::Net;
use std::random::RandomSource;
use std::rt::{Clock, Files};
use turn_cli::{CliError, Command, Ended, command_of};
use turn_commands::{
    run_answer, run_check, run_credential, run_end, run_format, run_inspect, run_replay, run_status,
};
use turn_ending::Whose;
use turn_faults::{Fault, Host, ProgramError, Said, second_now};
use turn_log::Log;
use turn_service::{Service, run_service};

/// Whether words ask for a log.
fn is_logged(command: &Command) -> bool {
    match command {
        Command::Replay { log, .. }
        | Command::Credential { log, .. }
        | Command::Format { log, .. }
        | Command::Inspect { log, .. }
        | Command::Check { log, .. }
        | Command::End { log, .. }
        | Command::Probe { log, .. }
        | Command::Status { log, .. }
        | Command::Serve { log, .. } => *log,
        _ => false,
    }
}

fn whose_of(ended: &Ended) -> Whose<'_> {
    match ended {
        Ended::User(name) => Whose::User(name.as_bytes()),
        Ended::Client(client) => Whose::Client(*client),
    }
}

/// Says what a fault is about, and why. Returns the fault.
fn tell<C: Clock, L: Write + Drop>(
    alloc: Global,
    clock: &C,
    log: &Log<L>,
    fault: Fault,
) -> ProgramError
    ensures { result ≡ fault.kind }
{
    let Fault { kind, said } = fault;
    let second = second_now(clock);
    match &said {
        Said::Nothing => {}
        Said::Output(reason) => {
            if let Ok(line) = format!(in alloc; "standard output: {reason}") {
                log.say(second, line.as_str());
            }
        }
        Said::Line(line) => log.say(second, line.as_str()),
    }
    kind
}

/// Runs a command, and says at a fault what it is about: nothing else does.
fn run_command<R: Host, C: Clock, W: Write, L: Write + Drop>(
    rt: &R,
    clock: &C,
    release: Release<'_>,
    command: &Command,
    out: &mut W,
    log: L,
) -> Result<(), ProgramError> {
    check_place(command)?;
    let log = Log::new(rt.alloc(), log, is_logged(command));
    match run_logged(rt, clock, release, command, out, &log) {
        Ok(()) => Ok(()),
        Err(fault) => Err(tell(rt.alloc(), clock, &log, fault)),
    }
}

/// Runs a command with its log.
fn run_logged<R: Host, C: Clock, W: Write, L: Write + Drop>(
    rt: &R,
    clock: &C,
    release: Release<'_>,
    command: &Command,
    out: &mut W,
    log: &Log<L>,
) -> Result<(), Fault> {
    match command {
        Command::Answer { from, at, datagram } => {
            run_answer(rt.alloc(), *from, *at, datagram, out)
        }
        Command::Replay { file, .. } => run_replay(rt, file, out),
        Command::Credential {
            config,
            name,
            expiry,
            ..
        } => run_credential(rt, config, name.as_deref(), *expiry, out),
        Command::Format {
            config,
            store,
            area,
            ..
        } => run_format(rt, clock, config, store, *area, out),
        Command::Inspect { store, at, .. } => run_inspect(rt, clock, store, *at, out),
        Command::Check {
            config,
            store,
            listen,
            ..
        } => run_check(rt, clock, config, store.as_deref(), listen, out),
        Command::Serve {
            config,
            store,
            turns,
            burst,
            relay_bind,
            listen,
            held,
            ..
        } => {
            let service = Service {
                version: release.version,
                config,
                store,
                turns: *turns,
                burst: *burst,
                relay_bind: *relay_bind,
                listen,
                is_held: *held,
            };
            run_service(rt, clock, service, log, out)
        }
        Command::End {
            config,
            store,
            ended,
            ..
        } => run_end(rt, clock, config, store, whose_of(ended), out),
        Command::Probe {
            server,
            asker,
            only_binding,
            ..
        } => run_probe(rt, clock, *server, asker, *only_binding, out),
        Command::Status { config, store, .. } => run_status(rt, clock, config, store, out),
        Command::Demo => run_demo(rt, clock, out),
        Command::Version => run_version(rt.alloc(), release, out),
        Command::Help { synopsis } => run_help(rt.alloc(), *synopsis, out),
    }
}

/// The fault of words.
fn fault_of_words(fault: CliError) -> ProgramError
    ensures { result ≡ of_words fault }
{
    match fault {
        CliError::Usage => ProgramError::Usage,
        CliError::BadDatagram => ProgramError::BadDatagram,
        CliError::Memory => ProgramError::Memory,
    }
}

fn try_words<R: Host, C: Clock, S: AsStr, W: Write, L: Write + Drop>(
    rt: &R,
    clock: &C,
    release: Release<'_>,
    words: &[S],
    out: &mut W,
    log: L,
) -> Result<(), ProgramError> {
    let command = command_of(rt.alloc(), words).map_err(fault_of_words)?;
    run_command(rt, clock, release, &command, out, log)
}

/// Prints the line of a fault, and gives its exit status. A standard error that takes nothing changes no status.
pub fn report<E: Write>(fault: ProgramError, err: &mut E) -> u8
    ensures { result ≡ status_of fault }
{
    let _ = writeln!(err, "{fault}");
    fault.status()
}

/// Runs the program on its words, its name first, and gives the exit status. `release` says what the program is made from; a server
/// that is to keep a log writes it to `log`.
pub fn run_words<
    R: Files<File = File> + Net + RandomSource + Env + Drop + AllocGlobal,
    C: Clock,
    S: AsStr,
    W: Write,
    E: Write,
    L: Write + Drop,
>(rt: &R, clock: &C, release: Release<'_>, words: &[S], out: &mut W, err: &mut E, log: L) -> u8
    ensures { IsStatus result }
{
    match try_words(rt, clock, release, words, out, log) {
        Ok(()) => 0,
        Err(fault) => report(fault, err),
    }
}
