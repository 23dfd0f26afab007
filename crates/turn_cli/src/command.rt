//! The words of a command line as a command with its values.

ghost use Rattle.std.specs.Prelude.{◌≡◌, ◌≢◌, ◌↔◌, IfOk, map};
ghost use Rattle.clap.specs.Values.{kind_of};
ghost use Rattle.clap.specs.Words.{HasMatchesOf};
ghost use Rattle.clap.specs.declared.error.ErrorKind.TheVariants.{OutOfMemory};
ghost use Rattle.turn_cli.specs.Command.{IsInRange};
ghost use Rattle.turn_cli.specs.Read.{IsCalled, IsRead};
ghost use Rattle.turn_cli.specs.Table.{told};
ghost use Rattle.turn_cli.specs.declared.error.CliError.TheVariants as faults;

mod answer;
mod check;
mod credential;
mod end;
mod format;
mod found;
mod help;
mod inspect;
mod line;
mod listen;
mod probe;
mod replay;
mod serve;
mod status;
mod table;
mod words;

use crate::error::CliError;
use answer::answer_of;
use check::check_of;
use clap::ArgMatches;
use clap::error::ErrorKind;
use credential::credential_of;
pub use end::Ended;
use end::end_of;
use format::format_of;
use found::{Found, found_in};
use help::help_of;
use inspect::inspect_of;
pub use inspect::shown_at;
pub use line::line_of;
pub use probe::Asker;
use probe::probe_of;
use replay::replay_of;
use serve::serve_of;
use status::status_of;
use std::alloc::Global;
use std::convert::AsStr;
use table::Subcommand;
pub use table::{SYNOPSES, Synopsis};
use turn_types::{Endpoint, Moment};
use words::table_command;

/// What a command line asks for.
#[derive(Drop)]
pub enum Command {
    /// The answer to one datagram that a client sends at a moment.
    Answer {
        /// The client's address, by `--from`.
        from: Endpoint,
        /// When it is sent, by `--at`; 0 if there is no such option.
        at: Moment,
        /// The bytes that were written as pairs of hex digits.
        datagram: Vec<u8>,
    },
    /// The report of the scenario in a file.
    Replay {
        /// The path of the scenario.
        file: String,
        /// Whether the reason of a fault is told.
        log: bool,
    },
    /// A user's name that expires at a moment, with its password under the secret of a configuration. The name given, if there is
    /// one, comes after the moment.
    Credential {
        /// The path of the configuration.
        config: String,
        /// What comes after the moment and a colon, by `--name`.
        name: Option<String>,
        /// The moment of `--at` and the seconds of `--life` after it.
        expiry: Moment,
        /// Whether the reason of a fault is told.
        log: bool,
    },
    /// A new store in a file, with the limits of a configuration and two areas of so many bytes.
    Format {
        /// The path of the configuration.
        config: String,
        /// The path of the store.
        store: String,
        /// The size of each of the two areas, in bytes.
        area: u32,
        /// Whether the reason of a fault is told.
        log: bool,
    },
    /// What the store in a file holds.
    Inspect {
        /// The path of the store.
        store: String,
        /// The moment at which the table is shown, by `--at`, if it is not before the table's own.
        at: Option<Moment>,
        /// Whether the reason of a fault is told.
        log: bool,
    },
    /// Whether a server would start with a configuration, as far as its sockets, and with a store if one is given. `listen` are
    /// the addresses that clients send to beside the configuration's.
    Check {
        /// The path of the configuration.
        config: String,
        /// The path of the store, if one is given.
        store: Option<String>,
        /// The addresses of `--listen`, in their order.
        listen: Vec<Endpoint>,
        /// Whether the reason of a fault is told.
        log: bool,
    },
    /// A server over sockets and the store in a file, for so many turns if that is given. It keeps a log if that is asked for.
    Serve {
        /// The path of the configuration.
        config: String,
        /// The path of the store.
        store: String,
        /// After how many turns it ends, if it does.
        turns: Option<u64>,
        /// How many datagrams a counted turn reads of each socket at most, else a round of all that have more, 1 to 64.
        burst: u8,
        /// The address on which relay sockets are bound, if it isn't the configuration's.
        relay_bind: Option<u32>,
        /// The addresses of `--listen`, in their order, which clients send to beside the configuration's.
        listen: Vec<Endpoint>,
        /// Whether a supervisor hands the listening sockets over.
        held: bool,
        /// Whether a log is kept.
        log: bool,
    },
    /// The end of allocations in the store in a file, which no server holds.
    End {
        /// The path of the configuration.
        config: String,
        /// The path of the store.
        store: String,
        /// Whose allocations end.
        ended: Ended,
        /// Whether the reason of a fault is told.
        log: bool,
    },
    /// The answers of a server to what a client asks.
    Probe {
        /// The server's address, if it isn't that of the configuration.
        server: Option<Endpoint>,
        /// Who asks.
        asker: Asker,
        /// Whether it asks for a Binding alone.
        only_binding: bool,
        /// Whether the reason of a fault is told.
        log: bool,
    },
    /// Who has what in the store in a file.
    Status {
        /// The path of the configuration.
        config: String,
        /// The path of the store.
        store: String,
        /// Whether the reason of a fault is told.
        log: bool,
    },
    /// A server over sockets that shows what it does.
    Demo,
    /// What the program is made from.
    Version,
    /// How commands are called.
    Help {
        /// The synopsis of the command that is asked about, if one is.
        synopsis: Option<&'static Synopsis>,
    },
}

/// A refusal of the words, `--help` included, is a usage fault.
fn fault_of(error: clap::Error) -> CliError
    ensures memory { (result ≡ faults.Memory) ↔ (kind_of error ≡ OutOfMemory) }
    ensures words { result ≢ faults.BadDatagram }
{
    match error.kind() {
        ErrorKind::OutOfMemory => CliError::Memory,
        _ => CliError::Usage,
    }
}

/// The command of a row with the values that its words were given.
fn read(alloc: Global, found: &Found<'_, '_>) -> Result<Command, CliError>
    ensures range { IfOk result (λ command. IsInRange command) }
    ensures read { IfOk result (λ command. IsRead found.now command) }
{
    match found.synopsis.subcommand {
        Subcommand::Format => format_of(alloc, found),
        Subcommand::Serve => serve_of(alloc, found),
        Subcommand::Check => check_of(alloc, found),
        Subcommand::Inspect => inspect_of(alloc, found),
        Subcommand::Status => status_of(alloc, found),
        Subcommand::End => end_of(alloc, found),
        Subcommand::Probe => probe_of(alloc, found),
        Subcommand::Credential => credential_of(alloc, found),
        Subcommand::Demo => Ok(Command::Demo),
        Subcommand::Version => Ok(Command::Version),
        Subcommand::Help => help_of(found),
        Subcommand::Answer => answer_of(alloc, found),
        Subcommand::Replay => replay_of(alloc, found),
    }
}

/// What `clap` finds in the words.
#[tactic(auto, unfolding(crate::specs::Table::told))]
fn matches_of<'a, S: AsStr>(
    program: clap::Command<'a>,
    words: &'a [S],
) -> Result<ArgMatches<'a>, CliError>
    ensures { IfOk result (HasMatchesOf (told program.entry) (map S.text words.entry.now)) }
{
    match program.try_get_matches_from(words) {
        Ok(matches) => Ok(matches),
        Err(error) => Err(fault_of(error)),
    }
}

/// The command that the words make, by the rows of a table.
fn called<S: AsStr>(
    alloc: Global,
    synopses: &'static [Synopsis],
    words: &[S],
) -> Result<Command, CliError>
    ensures range { IfOk result (λ command. IsInRange command) }
    ensures called { IfOk result (λ command. IsCalled synopses.entry.now (map S.text words.entry.now) command) }
{
    let program = table_command(alloc, synopses)?;
    let matches = matches_of(program, words)?;
    let found = found_in(synopses, &matches)?;
    read(alloc, &found)
}

/// The command that the words make, the program's name first.
pub fn command_of<S: AsStr>(alloc: Global, words: &[S]) -> Result<Command, CliError>
    ensures { IfOk result (λ command. IsInRange command) }
{
    called(alloc, &SYNOPSES, words)
}
