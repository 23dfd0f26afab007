//! The opening of an export that a text names.

ghost use Rattle.std.specs.Prelude.{◌≡◌, [], IfOk, true, false};

use crate::disk::NbdDisk;
use crate::error::NbdError;
use crate::socket::{Socket, end_of, left_until};
use crate::uri::{Export, Place};
use std::alloc::Allocator;
use std::net::Net;
use std::os::fd::RawFd;
use std::rt::Clock;
use std::thread;
use std::time::Duration;

/// The pause between two attempts to connect, in milliseconds.
const PAUSE_MILLIS: u64 = 100;

/// How often it is tried at most, however little the clock goes on.
const ATTEMPTS: u64 = 1 << 20;

/// How long an attempt over TCP waits at least and at most, in milliseconds.
const ATTEMPT_MILLIS: (u64, u64) = (1_000, 5_000);

/// Connects to a server at a place. While no server accepts a connection it tries again, in pauses of 0.1 s, until so many seconds have
/// passed. The last attempt may take a second more.
fn connect<R: Net, C: Clock, A: Allocator + Copy>(
    alloc: A,
    net: &R,
    system: &C,
    place: Place<'_>,
    wait: u64,
) -> Result<Socket<A>, NbdError> {
    let (least, most) = ATTEMPT_MILLIS;
    let end = end_of(wait.saturating_mul(1_000));
    for _ in 0..ATTEMPTS {
        let left = left_until(end);
        match Socket::connect(alloc, net, place, left.clamp(least, most)) {
            Err(NbdError::Refused(_)) if 0 < left => {}
            connected => return connected,
        }
        thread::sleep(system, Duration::from_millis(PAUSE_MILLIS));
    }
    Socket::connect(alloc, net, place, least)
}

impl<A: Allocator> NbdDisk<Socket<A>> {
    /// The descriptor of its socket, at which the replies come, for a wait of one's own.
    pub fn descriptor(&self) -> RawFd {
        self.stream().descriptor()
    }
}

impl<A: Allocator + Copy> NbdDisk<Socket<A>> {
    /// Opens an export to be read and written. While no server accepts a connection it tries again, until so many seconds have
    /// passed, and a second at most for the last attempt.
    pub fn open<R: Net, C: Clock>(
        alloc: A,
        net: &R,
        system: &C,
        export: &Export<'_>,
        wait: u64,
    ) -> Result<NbdDisk<Socket<A>>, NbdError>
        ensures failures { IfOk result (λ disk. disk.failures ≡ 0) }
        ensures events { IfOk result (λ disk. disk.events ≡ []) }
        ensures can_write { IfOk result (λ disk. disk.can_write ≡ true) }
    {
        let socket = connect(alloc, net, system, export.place, wait)?;
        NbdDisk::over(socket, export.name, true)
    }

    /// Opens an export to be read alone: it may be read-only, and lack FLUSH. Each write and sync fails.
    pub fn open_to_read<R: Net, C: Clock>(
        alloc: A,
        net: &R,
        system: &C,
        export: &Export<'_>,
        wait: u64,
    ) -> Result<NbdDisk<Socket<A>>, NbdError>
        ensures failures { IfOk result (λ disk. disk.failures ≡ 0) }
        ensures events { IfOk result (λ disk. disk.events ≡ []) }
        ensures can_write { IfOk result (λ disk. disk.can_write ≡ false) }
    {
        let socket = connect(alloc, net, system, export.place, wait)?;
        NbdDisk::over(socket, export.name, false)
    }
}
