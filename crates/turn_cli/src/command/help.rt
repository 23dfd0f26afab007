//! The words of `turn help`.

ghost use Rattle.std.specs.Prelude.{◌≡◌, IfOk, IfSome, bytes_eq, find};
ghost use Rattle.std.specs.Option.{option_copied};
ghost use Rattle.turn_cli.specs.Command.{IsInRange};
ghost use Rattle.turn_cli.specs.Read.{IsRead};

use super::Command;
use super::found::Found;
use super::table::{Kind, SYNOPSES, Synopsis};
use crate::error::CliError;

/// The row of a command, by its name.
pub fn row_of(synopses: &'static [Synopsis], name: &str) -> Option<&'static Synopsis>
    ensures row { option_copied result ≡ find (λ row. bytes_eq row.name.now name.now) synopses.entry.now }
    ensures name { IfSome result (λ row. row.now.name.now ≡ name.now) }
{
    synopses.iter().find(|row| row.name == name)
}

/// The values of `help`. `Usage` where there is no such command.
pub fn help_of(found: &Found<'_, '_>) -> Result<Command, CliError>
    ensures range { IfOk result (λ command. IsInRange command) }
    ensures read { IfOk result (λ command. IsRead found.now command) }
{
    let synopsis = match found.text("COMMAND", Kind::Command) {
        Some(name) => Some(row_of(&SYNOPSES, name).ok_or(CliError::Usage)?),
        None => None,
    };
    Ok(Command::Help { synopsis })
}
