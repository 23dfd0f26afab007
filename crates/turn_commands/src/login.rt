//! Which server a probe asks, and under which name.

use std::alloc::{AllocError, Global};
use std::rt::Clock;
use turn_config::{Configured, is_skipped};
use turn_faults::{Fault, Host, Named, ProgramError, configure, read_whole};
use turn_sockets::moment_now;
use turn_types::{Endpoint, Moment};

/// 127.0.0.1.
const LOOPBACK: u32 = 0x7F00_0001;

/// For how many seconds a name is good that a probe makes for itself.
const LIFE: u64 = 300;

/// The name and the password that a probe has.
#[derive(Drop)]
pub struct Login {
    /// The name, in bytes.
    pub user: Vec<u8>,
    /// The password, in bytes.
    pub password: Vec<u8>,
}

impl Login {
    /// This name and this password.
    pub fn new(alloc: Global, name: &[u8], password: &[u8]) -> Result<Login, AllocError> {
        Ok(Login {
            user: Vec::from_slice(alloc, name)?,
            password: Vec::from_slice(alloc, password)?,
        })
    }
}

/// The name and the password of the first `user` line of a configuration.
fn first_user(alloc: Global, text: &[u8]) -> Result<Option<Login>, AllocError> {
    for line in text.split(|byte| *byte == b'\n') {
        if is_skipped(line) {
            continue;
        }
        let mut words = line.split(|byte| *byte == b' ');
        if let (Some(b"user"), Some(user), Some(password)) = (
            words.next(),
            words.next(),
            words.next(),
        ) {
            return Ok(Some(Login::new(alloc, user, password)?));
        }
    }
    Ok(None)
}

/// A name that is good for some minutes, and its password under the secret of a configuration.
fn shared_user<C: Clock>(
    alloc: Global,
    clock: &C,
    configured: &Configured<'_>,
) -> Result<Option<Login>, ProgramError> {
    let first = Moment::new(0).ok_or(ProgramError::Device)?;
    let now = moment_now(&clock, first).ok_or(ProgramError::Device)?;
    let expiry = now.seconds().saturating_add(LIFE);
    let name = format!(in alloc; "{expiry}:probe")?;
    let Some(password) = configured.shared_password(name.as_bytes()) else {
        return Ok(None);
    };
    Ok(Some(Login::new(alloc, name.as_bytes(), &password)?))
}

/// The address of a configuration, which is asked. One that means any of the machine's is asked on the loopback.
pub fn server_in<R: Host>(rt: &R, config: &str) -> Result<Endpoint, Fault> {
    let text = read_whole(rt, Named::config(config))?;
    let listen = configure(rt.alloc(), config, &text)?.listen;
    if listen.ip == 0 {
        return Ok(Endpoint {
            ip: LOOPBACK,
            port: listen.port,
        });
    }
    Ok(listen)
}

/// A name under the secret of a configuration, or else the first user of its text.
fn login_under<C: Clock>(
    alloc: Global,
    clock: &C,
    configured: &Configured<'_>,
    text: &[u8],
) -> Result<Login, ProgramError> {
    if let Some(login) = shared_user(alloc, clock, configured)? {
        return Ok(login);
    }
    // A configuration without a user and without a secret lets nobody in.
    first_user(alloc, text)?.ok_or(ProgramError::Usage)
}

/// Who asks, by the configuration: a name under its secret, or else its first user.
pub fn login_of<R: Host, C: Clock>(rt: &R, clock: &C, config: &str) -> Result<Login, Fault> {
    let text = read_whole(rt, Named::config(config))?;
    let configured = configure(rt.alloc(), config, &text)?;
    Ok(login_under(rt.alloc(), clock, &configured, &text)?)
}
