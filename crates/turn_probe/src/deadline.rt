//! When a probe ends.

ghost use Rattle.std.specs.Prelude.{◌≡◌, ◌<◌, ◌≤◌, ◌+◌, ◌↔◌, IfErr, IfSome, None};

use std::rt::Clock;
use std::time::Duration;
use turn_client::ClientError;

/// How long a probe takes, in milliseconds.
const PROBE_MILLIS: u64 = 10_000;

/// How long one wait for a datagram is at most, in milliseconds: then what was sent is sent again.
const WAIT_MILLIS: u64 = 500;

/// How many milliseconds may be waited at a time, to end at another one at most. `None` once that has come.
fn wait_before(now: u64, until: u64) -> Option<u64>
    ensures some { IfSome result (λ wait. (0 < wait) × (wait ≤ 500) × (now + wait ≤ until)) }
    ensures none { (result ≡ None) ↔ (until ≤ now) }
{
    if until <= now {
        return None;
    }
    Some(WAIT_MILLIS.min(until - now))
}

/// The milliseconds of a clock that doesn't go back. One that fails is at its end.
fn millis_of<C: Clock>(clock: &C) -> u64 {
    match clock.monotonic() {
        Ok(now) => u64::try_from(now.as_millis()).unwrap_or(u64::MAX),
        Err(_) => u64::MAX,
    }
}

/// When a probe ends, whatever its server does.
#[derive(Drop)]
pub(crate) struct Deadline<'c, C: Clock> {
    clock: &'c C,
    // In milliseconds of the clock.
    until: u64,
}

impl<'c, C: Clock> Deadline<'c, C> {
    /// Of a probe that begins now.
    pub(crate) fn new(clock: &'c C) -> Deadline<'c, C> {
        Deadline {
            clock,
            until: millis_of(clock).saturating_add(PROBE_MILLIS),
        }
    }

    /// The milliseconds of the clock.
    pub(crate) fn now(&self) -> u64 {
        millis_of(self.clock)
    }

    /// How long the next wait for a datagram may be. `Silent` once there may be none.
    pub(crate) fn wait(&self) -> Result<Duration, ClientError>
        ensures { IfErr result (λ fault. fault ≡ ClientError.Silent) }
    {
        match wait_before(self.now(), self.until) {
            Some(wait) => Ok(Duration::from_millis(wait)),
            None => Err(ClientError::Silent),
        }
    }
}
