//! The words of `turn end`.

ghost use Rattle.std.specs.Prelude.{IfOk};
ghost use Rattle.std.specs.Option.{option_copied};
ghost use Rattle.turn_cli.specs.Command.{IsInRange};
ghost use Rattle.turn_cli.specs.Read.{IsEnded, IsRead};

use super::Command;
use super::found::Found;
use super::table::Kind;
use crate::error::CliError;
use std::alloc::Global;
use turn_config::values::endpoint;
use turn_types::Endpoint;

/// Whose allocations end.
#[derive(Drop)]
pub enum Ended {
    /// Those of a user, by the name.
    User(String),
    /// Those of a client's address.
    Client(Endpoint),
}

/// Whose allocations end. `Usage` where neither is given or both are, or the address is malformed.
fn ended_of(alloc: Global, user: Option<&str>, client: Option<&str>) -> Result<Ended, CliError>
    ensures { IfOk result (λ ended. IsEnded (option_copied user.entry) (option_copied client.entry) ended) }
{
    match (user, client) {
        (Some(user), None) => Ok(Ended::User(String::from_str(alloc, user)?)),
        (None, Some(client)) => {
            let address = endpoint(client.as_bytes()).ok_or(CliError::Usage)?;
            Ok(Ended::Client(address))
        }
        _ => Err(CliError::Usage),
    }
}

/// The values of `end`.
pub fn end_of(alloc: Global, found: &Found<'_, '_>) -> Result<Command, CliError>
    ensures range { IfOk result (λ command. IsInRange command) }
    ensures read { IfOk result (λ command. IsRead found.now command) }
{
    let user = found.text("user", Kind::Name);
    let client = found.text("client", Kind::Endpoint);
    Ok(Command::End {
        ended: ended_of(alloc, user, client)?,
        log: found.flag("log"),
        config: found.owned(alloc, "config", Kind::File)?,
        store: found.owned(alloc, "store", Kind::Store)?,
    })
}
