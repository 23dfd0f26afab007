//! The words of `turn serve`.

ghost use Rattle.std.specs.Prelude.{◌≡◌, ◌^◌, ℕ, ◌≤◌, Option, Some, IfOk, IfSome, SomeIff};
ghost use Rattle.std.specs.Option.{option_copied};
ghost use Rattle.turn_cli.specs.Command.{IsBelowIfGiven, IsBind, IsBurst, IsInRange, burst_of, number_if_given};
ghost use Rattle.turn_cli.specs.Read.{IsRead};

use super::Command;
use super::found::Found;
use super::listen::listen_of;
use super::table::Kind;
use crate::error::CliError;
use std::alloc::Global;
use turn_config::values::{ip, number};

/// How many datagrams of a socket may be taken in a turn.
const MAX_BURST: u64 = 64;

/// How many turns a server makes, if there is such an option.
fn turns_in(text: Option<&[u8]>) -> Option<Option<u64>>
    ensures { SomeIff result (IsBelowIfGiven (2 ^ 64) (option_copied text.entry)) (number_if_given (option_copied text.entry)) }
{
    match text {
        Some(text) => Some(Some(number(text)?)),
        None => Some(None),
    }
}

/// How many datagrams of a socket are taken in a turn: 1 to 64. If there is no such option, 1 where turns are counted and else 64.
fn burst_in(text: Option<&[u8]>, turns: Option<u64>) -> Option<u8>
    ensures value { SomeIff result (IsBurst (option_copied text.entry)) (burst_of turns (option_copied text.entry)) }
    ensures range { IfSome result (λ burst. (1 ≤ burst) × (burst ≤ 64)) }
{
    let Some(text) = text else {
        return match turns {
            Some(_) => Some(1),
            None => Some(MAX_BURST as u8),
        };
    };
    let burst = number(text)?;
    if 1 <= burst && burst <= MAX_BURST {
        Some(burst as u8)
    } else {
        None
    }
}

/// The address that relay sockets are bound to, if there is such an option.
fn bind_in(text: Option<&[u8]>) -> Option<Option<u32>>
    ensures found { IfSome result (λ bind. IsBind (option_copied text.entry) bind) }
    ensures only { (bind : Option ℕ) → IsBind (option_copied text.entry) bind → result ≡ Some bind }
{
    match text {
        Some(text) => Some(Some(ip(text)?)),
        None => Some(None),
    }
}

/// The values of `serve`. `Usage` where one is malformed or out of range.
pub fn serve_of(alloc: Global, found: &Found<'_, '_>) -> Result<Command, CliError>
    ensures range { IfOk result (λ command. IsInRange command) }
    ensures read { IfOk result (λ command. IsRead found.now command) }
{
    let turns = turns_in(found.bytes("turns", Kind::Number)).ok_or(CliError::Usage)?;
    let burst = found.bytes("burst", Kind::Burst);
    let bind = found.bytes("relay-bind", Kind::Ip);
    Ok(Command::Serve {
        turns,
        burst: burst_in(burst, turns).ok_or(CliError::Usage)?,
        relay_bind: bind_in(bind).ok_or(CliError::Usage)?,
        listen: listen_of(alloc, found)?,
        held: found.flag("held"),
        log: found.flag("log"),
        config: found.owned(alloc, "config", Kind::File)?,
        store: found.owned(alloc, "store", Kind::Store)?,
    })
}
