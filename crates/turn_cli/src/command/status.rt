//! The words of `turn status`.

ghost use Rattle.std.specs.Prelude.{IfOk};
ghost use Rattle.turn_cli.specs.Command.{IsInRange};
ghost use Rattle.turn_cli.specs.Read.{IsRead};

use super::Command;
use super::found::Found;
use super::table::Kind;
use crate::error::CliError;
use std::alloc::Global;

/// The values of `status`.
pub fn status_of(alloc: Global, found: &Found<'_, '_>) -> Result<Command, CliError>
    ensures range { IfOk result (λ command. IsInRange command) }
    ensures read { IfOk result (λ command. IsRead found.now command) }
{
    Ok(Command::Status {
        config: found.owned(alloc, "config", Kind::File)?,
        log: found.flag("log"),
        store: found.owned(alloc, "store", Kind::Store)?,
    })
}
