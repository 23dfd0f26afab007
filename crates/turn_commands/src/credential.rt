//! `turn credential`.

use std::alloc::{AllocError, Global};
use std::io::Write;
use turn_config::{Configured, ShownEndpoint};
use turn_faults::{Fault, Host, Named, ProgramError, configure, print_lines, read_whole};
use turn_types::{Endpoint, Moment};

/// A user's name that expires at a moment: its seconds and, after a colon, the name given, if there is one and it isn't empty.
fn username_of(alloc: Global, name: Option<&str>, expiry: Moment) -> Result<String, AllocError> {
    let (seconds, name) = (expiry.seconds(), name.unwrap_or_default());
    let colon = if name.is_empty() { "" } else { ":" };
    format!(in alloc; "{seconds}{colon}{name}")
}

/// A password, which is ASCII, as text.
fn text_of(alloc: Global, password: &[u8]) -> Result<String, AllocError> {
    let mut text = String::new(alloc);
    for byte in password {
        text.push(char::from(*byte))?;
    }
    Ok(text)
}

/// A text without control characters, as it is in a string of JSON (RFC 8259, section 7).
fn escaped(alloc: Global, text: &str) -> Result<String, AllocError> {
    let mut escaped = String::new(alloc);
    for letter in text.chars() {
        if letter == '"' || letter == '\\' {
            escaped.push('\\')?;
        }
        escaped.push(letter)?;
    }
    Ok(escaped)
}

/// The lines of a user's name and password, and that of the configuration of an `RTCPeerConnection`, if the server's port is known.
fn lines_of(
    alloc: Global,
    listen: Endpoint,
    username: &str,
    password: &str,
) -> Result<Vec<String>, AllocError> {
    let server = ShownEndpoint(listen);
    let quoted = escaped(alloc, username)?;
    let mut lines = Vec::new(alloc);
    lines.push(format!(in alloc; "username {username}")?)?;
    lines.push(format!(in alloc; "password {password}")?)?;
    if listen.port == 0 {
        return Ok(lines);
    }
    lines.push(format!(in alloc;
        "{{\"iceServers\": [{{\"urls\": \"turn:{server}?transport=udp\", \"username\": \"{quoted}\", \"credential\": \"{password}\"}}]}}"
    )?)?;
    Ok(lines)
}

/// What a log says where a server would not take the name.
const NO_PASSWORD: &str = "name: no password for it under this configuration";

/// The lines of a user's name that expires at a moment, and of its password under the secret of a configuration.
fn lines_under(
    alloc: Global,
    configured: &Configured<'_>,
    name: Option<&str>,
    expiry: Moment,
) -> Result<Vec<String>, Fault> {
    let username = username_of(alloc, name, expiry)?;
    let Some(password) = configured.shared_password(username.as_bytes()) else {
        return Err(Fault::about(alloc, ProgramError::Usage, &NO_PASSWORD));
    };
    let password = text_of(alloc, &password)?;
    Ok(lines_of(alloc, configured.listen, &username, &password)?)
}

/// Prints a user's name that expires at a moment, and its password under the secret of a configuration.
pub fn run_credential<R: Host, W: Write>(
    rt: &R,
    config: &str,
    name: Option<&str>,
    expiry: Moment,
    out: &mut W,
) -> Result<(), Fault> {
    let alloc = rt.alloc();
    let text = read_whole(rt, Named::config(config))?;
    let configured = configure(alloc, config, &text)?;
    let lines = lines_under(alloc, &configured, name, expiry)?;
    print_lines(alloc, &lines, out)
}
