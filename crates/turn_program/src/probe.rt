//! `turn probe`: asks a server as a client would.

ghost use Rattle.std.specs.Prelude.{◌≡◌, ◌≢◌, ◌⊎◌, All, length, slice_index_or, take};

use std::alloc::Global;
use std::io::Write;
use std::net::Net;
use std::rt::Clock;
use turn_cli::Asker;
use turn_client::ClientCredentials;
use turn_commands::{Login, login_of, server_in};
use turn_faults::{Fault, Host, Named, ProgramError, print_line, read_scenario};
use turn_probe::Talk;
use turn_types::Endpoint;

/// The address that is asked: the one that is given, or that of the configuration.
fn server_of<R: Host>(rt: &R, server: Option<Endpoint>, asker: &Asker) -> Result<Endpoint, Fault> {
    match (server, asker) {
        (Some(server), _) => Ok(server),
        (None, Asker::Configured { config }) => server_in(rt, config),
        (None, _) => Err(Fault::from(ProgramError::Usage)),
    }
}

/// The bytes before the first newline, or all.
fn first_line(text: &[u8]) -> &[u8]
    ensures line { All (λ byte. byte ≢ 10) result.now }
    ensures first { result.now ≡ take (length result.now) text.now }
    ensures end { (length result.now ≡ length text.now) ⊎ (slice_index_or text.now (length result.now) 0 ≡ 10) }
{
    match text.iter().position(|byte| *byte == b'\n') {
        Some(end) => &text[..end],
        None => text,
    }
}

/// Who asks, if anybody does. The file of a password is a regular one or standard input, as that of a scenario.
fn asking<R: Host, C: Clock>(rt: &R, clock: &C, asker: &Asker) -> Result<Option<Login>, Fault> {
    match asker {
        Asker::Nobody => Ok(None),
        Asker::User { name, password } => {
            let login = Login::new(rt.alloc(), name.as_bytes(), password.as_bytes())?;
            Ok(Some(login))
        }
        Asker::UserByFile { name, file } => {
            let text = read_scenario(rt, Named::password(file))?;
            let login = Login::new(rt.alloc(), name.as_bytes(), first_line(&text))?;
            Ok(Some(login))
        }
        Asker::Configured { config } => Ok(Some(login_of(rt, clock, config)?)),
    }
}

fn ask<R: Net, C: Clock, W: Write>(
    alloc: Global,
    talk: &mut Talk<'_, R, C>,
    login: Option<&Login>,
    out: &mut W,
) -> Result<(), Fault> {
    let binding = talk.binding()?;
    let Some(login) = login else {
        return print_line(&format!(in alloc; "binding {binding} ms")?, out);
    };
    let credentials = ClientCredentials {
        user: login.user.as_slice(),
        realm: &[],
        password: login.password.as_slice(),
    };
    let [allocate, permission, data, refresh] = talk.relay(credentials)?;
    print_line(
        &format!(in alloc;
            "binding {binding} ms, allocate {allocate} ms, permission {permission} ms, data {data} ms, refresh {refresh} ms"
        )?,
        out,
    )
}

/// Asks a server for a Binding, and unless that is all with a name and a password for an allocation, over which a datagram goes there and back. Prints a
/// line with the milliseconds of each.
pub fn run_probe<R: Host, C: Clock, W: Write>(
    rt: &R,
    clock: &C,
    server: Option<Endpoint>,
    asker: &Asker,
    only_binding: bool,
    out: &mut W,
) -> Result<(), Fault> {
    let alloc = rt.alloc();
    let server = server_of(rt, server, asker)?;
    let login = if only_binding {
        None
    } else {
        asking(rt, clock, asker)?
    };
    let mut talk = Talk::open(alloc, clock, rt, server)?;
    ask(alloc, &mut talk, login.as_ref(), out)
}
