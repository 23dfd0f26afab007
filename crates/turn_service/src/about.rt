//! What a fault of a server's sockets is about.

ghost use Rattle.std.specs.Prelude.{◌≡◌};

use std::alloc::{AllocError, Global};
use std::io;
use turn_config::{ShownEndpoint, ShownIp};
use turn_faults::{Fault, ProgramError};
use turn_ports::{PortRange, RelayAddressGenerator};
use turn_serving::{Needed, SocketFault};

/// What a log says of sockets that aren't at the server's addresses.
const HELD: &str = "held: the sockets aren't those of the listening addresses";

/// What it says of the wait for all sockets.
const WAIT: &str = "wait for sockets";

/// Which socket is missing.
fn text_of(alloc: Global, ports: PortRange, needed: Needed) -> Result<String, AllocError> {
    match needed {
        Needed::Listening(at) => format!(in alloc; "listen {}", ShownEndpoint(at)),
        Needed::Relay(ip) => format!(in alloc; "relay {}", ShownIp(ip)),
        Needed::RelayPort(port) => {
            let (first, last) = ports.range();
            format!(in alloc; "relay ports {first}-{last}: {port}")
        }
        Needed::Held => format!(in alloc; "{HELD}"),
        Needed::Wait => format!(in alloc; "{WAIT}"),
    }
}

/// A text with the system's reason, if it gave a number.
fn with_reason(alloc: Global, text: String, number: Option<i32>) -> Result<String, AllocError> {
    let Some(number) = number else {
        return Ok(text);
    };
    let reason = io::Error::from_raw_os_error(number);
    format!(in alloc; "{text}: {reason}")
}

fn line_of(alloc: Global, ports: PortRange, missing: SocketFault) -> Result<String, AllocError> {
    let text = text_of(alloc, ports, missing.needed)?;
    with_reason(alloc, text, missing.number)
}

/// That a socket is missing, and why. The relay ports are of this range.
pub fn fault_of_sockets(alloc: Global, ports: PortRange, missing: SocketFault) -> Fault
    ensures { result.kind ≡ ProgramError.Socket }
{
    Fault::saying(ProgramError::Socket, line_of(alloc, ports, missing))
}

/// That the wait for sockets failed, by the system's number, if it gave one.
pub fn fault_of_wait(alloc: Global, number: Option<i32>) -> Fault
    ensures { result.kind ≡ ProgramError.Socket }
{
    match number {
        Some(number) => {
            let reason = io::Error::from_raw_os_error(number);
            Fault::of(alloc, ProgramError::Socket, &WAIT, &reason)
        }
        None => Fault::about(alloc, ProgramError::Socket, &WAIT),
    }
}
