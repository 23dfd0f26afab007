//! The words of `turn credential`.

ghost use Rattle.std.specs.Prelude.{◌≡◌, ◌+◌, ◌≤◌, IfOk, IfSome, SomeIff};
ghost use Rattle.std.specs.List.{list_all};
ghost use Rattle.std.specs.Option.{option_copied};
ghost use Rattle.turn_config.specs.Values.{number_of};
ghost use Rattle.turn_cli.specs.Command.{AreTimes, IsInRange, is_shown};
ghost use Rattle.turn_cli.specs.Read.{IsRead, IsTextIfGiven};

use super::Command;
use super::found::{Found, owned};
use super::table::Kind;
use crate::error::CliError;
use std::alloc::Global;
use turn_config::values::{moment, number};
use turn_types::Moment;

/// The moment so many seconds after another one. 0 is no end of a name.
fn expiry(at: &[u8], life: &[u8]) -> Option<Moment>
    ensures value { SomeIff result (AreTimes at.now life.now) (number_of at.now + number_of life.now) }
    ensures some { IfSome result (λ expiry. 1 ≤ expiry) }
{
    let at = moment(at)?;
    let seconds = at.seconds().checked_add(number(life)?)?;
    if seconds == 0 {
        return None;
    }
    Moment::new(seconds)
}

/// Whether a line can show a text: it has no control character of ASCII.
fn is_shown(text: &[u8]) -> bool
    ensures { result ≡ list_all is_shown text.now }
{
    text.iter().all(|byte| 0x20 <= *byte && *byte != 0x7f)
}

/// Whether a text has a control character, of those beyond ASCII too: U+0085 begins a line.
fn has_control(text: &str) -> bool {
    text.chars().any(|c| c.is_control())
}

/// The name of `--name`, if it is there.
fn name_in(alloc: Global, text: Option<&str>) -> Result<Option<String>, CliError>
    ensures { IfOk result (λ name. IsTextIfGiven (option_copied text.entry) name) }
{
    match text {
        Some(name) if !is_shown(name.as_bytes()) || has_control(name) => Err(CliError::Usage),
        _ => Ok(owned(alloc, text)?),
    }
}

/// The values of `credential`. `Usage` where one is malformed or out of range.
pub fn credential_of(alloc: Global, found: &Found<'_, '_>) -> Result<Command, CliError>
    ensures range { IfOk result (λ command. IsInRange command) }
    ensures read { IfOk result (λ command. IsRead found.now command) }
{
    let at = found.bytes("at", Kind::Moment).ok_or(CliError::Usage)?;
    let life = found.bytes("life", Kind::Number).ok_or(CliError::Usage)?;
    Ok(Command::Credential {
        expiry: expiry(at, life).ok_or(CliError::Usage)?,
        name: name_in(alloc, found.text("name", Kind::ShownName))?,
        log: found.flag("log"),
        config: found.owned(alloc, "config", Kind::File)?,
    })
}
