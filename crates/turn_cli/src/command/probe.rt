//! The words of `turn probe`.

ghost use Rattle.std.specs.Prelude.{IfOk};
ghost use Rattle.std.specs.Option.{option_copied};
ghost use Rattle.turn_cli.specs.Command.{IsInRange};
ghost use Rattle.turn_cli.specs.Read.{IsAsker, IsRead, IsServer};

use super::Command;
use super::found::Found;
use super::table::Kind;
use crate::error::CliError;
use std::alloc::Global;
use turn_config::values::endpoint;
use turn_types::Endpoint;

/// Who a probe asks as.
#[derive(Drop)]
pub enum Asker {
    /// Nobody: it asks for a Binding alone.
    Nobody,
    /// A user.
    User {
        /// The name.
        name: String,
        /// The password.
        password: String,
    },
    /// A user, whose password a file has.
    UserByFile {
        /// The name.
        name: String,
        /// The path of the file.
        file: String,
    },
    /// A user of a configuration.
    Configured {
        /// The path of the configuration.
        config: String,
    },
}

/// Who asks: a name and a password or its file, or a configuration, or nobody. `Usage` where one of them is missing, or several are
/// there.
fn asker_of(
    alloc: Global,
    user: Option<&str>,
    password: Option<&str>,
    file: Option<&str>,
    config: Option<&str>,
) -> Result<Asker, CliError>
    ensures { IfOk result (λ asker. IsAsker (option_copied user.entry) (option_copied password.entry) (option_copied file.entry) (option_copied config.entry) asker) }
{
    match (user, password, file, config) {
        (None, None, None, None) => Ok(Asker::Nobody),
        (Some(name), Some(password), None, None) => Ok(Asker::User {
            name: String::from_str(alloc, name)?,
            password: String::from_str(alloc, password)?,
        }),
        (Some(name), None, Some(file), None) => Ok(Asker::UserByFile {
            name: String::from_str(alloc, name)?,
            file: String::from_str(alloc, file)?,
        }),
        (None, None, None, Some(config)) => Ok(Asker::Configured {
            config: String::from_str(alloc, config)?,
        }),
        _ => Err(CliError::Usage),
    }
}

/// The address that is asked. Where none is given it is that of a configuration.
fn server_of(address: Option<&str>, config: Option<&str>) -> Result<Option<Endpoint>, CliError>
    ensures { IfOk result (λ server. IsServer (option_copied address.entry) (option_copied config.entry) server) }
{
    match (address, config) {
        (Some(address), _) => Ok(Some(endpoint(address.as_bytes()).ok_or(CliError::Usage)?)),
        (None, Some(_)) => Ok(None),
        (None, None) => Err(CliError::Usage),
    }
}

/// The values of `probe`. `Usage` where the address is malformed, or there is none and no configuration.
pub fn probe_of(alloc: Global, found: &Found<'_, '_>) -> Result<Command, CliError>
    ensures range { IfOk result (λ command. IsInRange command) }
    ensures read { IfOk result (λ command. IsRead found.now command) }
{
    let user = found.text("user", Kind::Name);
    let password = found.text("password", Kind::Password);
    let file = found.text("password-file", Kind::File);
    let config = found.text("config", Kind::File);
    Ok(Command::Probe {
        server: server_of(found.text("IP:PORT", Kind::Endpoint), config)?,
        asker: asker_of(alloc, user, password, file, config)?,
        only_binding: found.flag("binding"),
        log: found.flag("log"),
    })
}
