//! The words of `turn format`.

ghost use Rattle.std.specs.Prelude.{IfOk};
ghost use Rattle.turn_cli.specs.Command.{IsInRange};
ghost use Rattle.turn_cli.specs.Read.{IsRead};

use super::Command;
use super::found::Found;
use super::table::Kind;
use crate::error::CliError;
use std::alloc::Global;
use turn_config::values::number_32;

/// The values of `format`. `Usage` where the size is malformed or out of range.
pub fn format_of(alloc: Global, found: &Found<'_, '_>) -> Result<Command, CliError>
    ensures range { IfOk result (λ command. IsInRange command) }
    ensures read { IfOk result (λ command. IsRead found.now command) }
{
    let area = found.bytes("area", Kind::Size).ok_or(CliError::Usage)?;
    Ok(Command::Format {
        area: number_32(area).ok_or(CliError::Usage)?,
        log: found.flag("log"),
        config: found.owned(alloc, "config", Kind::File)?,
        store: found.owned(alloc, "store", Kind::Store)?,
    })
}
