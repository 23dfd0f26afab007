//! The addresses of `--listen`.

ghost use Rattle.std.specs.Prelude.{◌≡◌, ◌≤◌, IfOk, IfSome, Some, codes, length};
ghost use Rattle.turn_types.specs.declared.address.Endpoint.{Endpoint};
ghost use Rattle.turn_cli.specs.Command.{IsListen};
ghost use Rattle.turn_cli.specs.Read.{AreListenIfGiven};
ghost use Rattle.turn_cli.specs.Table.{all_given};
ghost use Rattle.turn_cli.specs.declared.command.table.Kind.TheVariants.{Listen};

use super::found::Found;
use super::table::Kind;
use crate::error::CliError;
use std::alloc::{AllocError, Global};
use turn_config::values::endpoint;
use turn_types::Endpoint;

/// How often the option may be given.
const MAX_LISTEN: usize = 8;

/// The address that an option sets. Its port isn't 0: clients have to know it.
fn listen_in(text: &[u8]) -> Option<Endpoint>
    ensures found { IfSome result (λ address. IsListen text.now address) }
    ensures only { (address : Endpoint) → IsListen text.now address → result ≡ Some address }
{
    let address = endpoint(text)?;
    if address.port == 0 {
        return None;
    }
    Some(address)
}

/// The addresses of all options, at most eight, in their order.
pub fn listen_of(alloc: Global, found: &Found<'_, '_>) -> Result<Vec<Endpoint>, CliError>
    ensures few { IfOk result (λ addresses. length addresses.items ≤ 8) }
    ensures read { IfOk result (λ addresses. AreListenIfGiven (all_given found.now (codes "listen") Listen) addresses.items) }
{
    let mut addresses = Vec::new(alloc);
    let Some(texts) = found.texts("listen", Kind::Listen) else {
        return Ok(addresses);
    };
    for text in texts {
        if addresses.len() == MAX_LISTEN {
            return Err(CliError::Usage);
        }
        let Some(address) = listen_in(text.as_bytes()) else {
            return Err(CliError::Usage);
        };
        if let Err(refused) = addresses.push(address) {
            return Err(CliError::from(AllocError::from(refused)));
        }
    }
    Ok(addresses)
}
