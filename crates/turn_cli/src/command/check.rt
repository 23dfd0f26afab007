//! The words of `turn check`.

ghost use Rattle.std.specs.Prelude.{IfOk};
ghost use Rattle.turn_cli.specs.Command.{IsInRange};
ghost use Rattle.turn_cli.specs.Read.{IsRead};

use super::Command;
use super::found::{Found, owned};
use super::listen::listen_of;
use super::table::Kind;
use crate::error::CliError;
use std::alloc::Global;

/// The values of `check`. `Usage` where an address is malformed.
pub fn check_of(alloc: Global, found: &Found<'_, '_>) -> Result<Command, CliError>
    ensures range { IfOk result (λ command. IsInRange command) }
    ensures read { IfOk result (λ command. IsRead found.now command) }
{
    Ok(Command::Check {
        config: found.owned(alloc, "config", Kind::File)?,
        store: owned(alloc, found.text("store", Kind::Store))?,
        listen: listen_of(alloc, found)?,
        log: found.flag("log"),
    })
}
