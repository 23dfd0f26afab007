//! The words of `turn inspect`.

ghost use Rattle.std.specs.Prelude.{◌≡◌, IfOk, SomeIff, max};
ghost use Rattle.std.specs.Option.{option_copied, option_map_or};
ghost use Rattle.turn_cli.specs.Command.{IsMomentWord, IsInRange, number_if_given};
ghost use Rattle.turn_cli.specs.Read.{IsRead};

use super::Command;
use super::found::Found;
use super::table::Kind;
use crate::error::CliError;
use std::alloc::Global;
use turn_config::values::moment;
use turn_types::Moment;

/// The moment of `--at`, if there is such an option.
fn moment_in(text: Option<&[u8]>) -> Option<Option<Moment>>
    ensures { SomeIff result (IsMomentWord (option_copied text.entry)) (number_if_given (option_copied text.entry)) }
{
    match text {
        Some(text) => Some(Some(moment(text)?)),
        None => Some(None),
    }
}

/// The moment at which a table is shown: that of `--at`, but none before the table's own.
pub fn shown_at(at: Option<Moment>, clock: Moment) -> Moment
    ensures { result ≡ option_map_or (λ second. max second clock) at clock }
{
    match at {
        Some(at) if clock < at => at,
        _ => clock,
    }
}

/// The values of `inspect`. `Usage` where the moment is malformed or out of range.
pub fn inspect_of(alloc: Global, found: &Found<'_, '_>) -> Result<Command, CliError>
    ensures range { IfOk result (λ command. IsInRange command) }
    ensures read { IfOk result (λ command. IsRead found.now command) }
{
    let at = found.bytes("at", Kind::Moment);
    Ok(Command::Inspect {
        at: moment_in(at).ok_or(CliError::Usage)?,
        log: found.flag("log"),
        store: found.owned(alloc, "store", Kind::Store)?,
    })
}
