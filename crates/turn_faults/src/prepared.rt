//! What a start takes before its store: a configuration.

ghost use Rattle.std.specs.Prelude.{◌≡◌, ◌∷◌, IfErr, IfOk};
ghost use Rattle.turn_config.specs.declared.config.ConfigTextError.{ConfigTextError};
ghost use Rattle.turn_faults.specs.Checks.{IsErrorBeforeStore};
ghost use Rattle.turn_faults.specs.Faults.{of_config};
ghost use Rattle.turn_sockets.specs.Own.{AreListened};
ghost use Rattle.turn_types.specs.declared.address.Endpoint.{Endpoint};

use crate::bad_line::bad_line_text;
use crate::error::ProgramError;
use crate::fault::{Fault, Named};
use crate::files::read_whole;
use std::alloc::{AllocGlobal, Global};
use std::rt::Files;
use turn_config::{ConfigTextError, Configured, read_config};
use turn_cred::Credentials;
use turn_ports::PortRange;
use turn_sockets::{ListeningAddresses, LocalPeers};
use turn_types::{Endpoint, ServerConfig};

/// A configuration.
#[derive(Drop)]
pub struct Prepared {
    /// The configuration.
    pub config: ServerConfig,
    /// The handler of its users.
    pub credentials: Credentials,
    /// The addresses that clients send to, the configuration's first.
    pub listen: ListeningAddresses,
    /// The range of the relay ports.
    pub ports: PortRange,
    /// The address on which relay sockets are bound, if it isn't the one that clients are told.
    pub relay_bind: Option<u32>,
    /// The peers on the server's own machine that relay ports may send to.
    pub local_peers: LocalPeers,
}

/// What a log says of an address that is given twice.
const LISTENS_TWICE: &str = "listen: an address is given twice";

/// The fault of the text of a configuration in a file. Of a bad line a log says what is wrong with it.
fn refused(alloc: Global, path: &str, text: &[u8], refused: ConfigTextError) -> Fault
    ensures { result.kind ≡ of_config refused }
{
    let kind = ProgramError::from(refused);
    match refused {
        ConfigTextError::BadLine(number) => {
            Fault::saying(kind, bad_line_text(alloc, path, text, number))
        }
        ConfigTextError::Memory => Fault::from(kind),
    }
}

/// Reads the text of a configuration in a file.
pub fn configure<'a>(alloc: Global, path: &str, text: &'a [u8]) -> Result<Configured<'a>, Fault>
    ensures { IfErr result (λ fault. (of : ConfigTextError) × (fault.kind ≡ of_config of)) }
{
    match read_config(alloc, text) {
        Ok(configured) => Ok(configured),
        Err(why) => Err(refused(alloc, path, text, why)),
    }
}

/// The addresses that clients send to: that of a configuration and others. One that is there twice is a usage fault.
fn listening_of(
    alloc: Global,
    configured: Endpoint,
    others: &[Endpoint],
) -> Result<ListeningAddresses, Fault>
    ensures listened { IfOk result (λ all. (all ≡ configured ∷ others.now) × AreListened all) }
    ensures refused { IfErr result (λ fault. (fault.kind ≡ ProgramError.Usage) × ¬ AreListened (configured ∷ others.now)) }
{
    match ListeningAddresses::new(configured, others) {
        Some(all) => Ok(all),
        None => Err(Fault::about(alloc, ProgramError::Usage, &LISTENS_TWICE)),
    }
}

/// Reads the configuration in a file. `others` are the addresses that clients send to beside the configuration's. So `turn serve`
/// and `turn check` tell the first fault in one order: of the file, of its lines, of an address that is there twice.
pub fn prepare<R: Files + AllocGlobal>(
    rt: &R,
    config: &str,
    others: &[Endpoint],
) -> Result<Prepared, Fault>
    // The addresses are the others behind one, each once.
    ensures listened { IfOk result (λ prepared. (first : Endpoint) × (prepared.listen ≡ first ∷ others.now) × AreListened prepared.listen) }
    ensures fault { IfErr result (λ fault. IsErrorBeforeStore others.now fault.kind) }
{
    let text = read_whole(rt, Named::config(config))?;
    let Configured {
        config,
        credentials,
        listen,
        ports,
        relay_bind,
        local_peers,
        ..
    } = configure(rt.alloc(), config, &text)?;
    Ok(Prepared {
        config,
        credentials,
        listen: listening_of(rt.alloc(), listen, others)?,
        ports,
        relay_bind,
        local_peers,
    })
}
