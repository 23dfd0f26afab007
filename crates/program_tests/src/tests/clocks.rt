//! Clocks that tests set.

use std::cell::Cell;
use std::io::{self, ErrorKind};
use std::rt::Clock;
use std::time::Duration;

fn at(second: Option<u64>) -> io::Result<Duration> {
    match second {
        Some(second) => Ok(Duration::from_secs(second)),
        None => Err(io::Error::from(ErrorKind::Unsupported)),
    }
}

/// A time since 1970, or none.
#[derive(Clone, Copy)]
pub struct Still(pub Option<u64>);

impl Clock for Still {
    fn monotonic(&self) -> io::Result<Duration> {
        self.since_1970()
    }

    fn since_1970(&self) -> io::Result<Duration> {
        at(self.0)
    }
}

/// A clock that tells the second 1,000 as often as it has readings left, at the last of them 1,001, and then no time. Each reading of the
/// other time is some milliseconds later: a commit is timed by two of them.
#[derive(Drop)]
pub struct Ticking {
    left: Cell<u32>,
    millis: Cell<u64>,
    tick: Cell<u64>,
}

impl Clock for Ticking {
    fn monotonic(&self) -> io::Result<Duration> {
        let now = self.millis.get();
        self.set(now.wrapping_add(self.tick.get()), self.tick.get());
        Ok(Duration::from_millis(now))
    }

    fn since_1970(&self) -> io::Result<Duration> {
        let left = self.left.get();
        self.left.set(left.saturating_sub(1));
        at(match left {
            0 => None,
            1 => Some(1_001),
            _ => Some(1_000),
        })
    }
}

impl Ticking {
    /// With so many readings left, at the start of its other time, and with so long commits.
    pub fn new(left: u32, tick: u64) -> Ticking {
        Ticking {
            left: Cell::new(left),
            millis: Cell::new(0),
            tick: Cell::new(tick),
        }
    }

    /// At this other time, with so long commits.
    pub fn set(&self, millis: u64, tick: u64) {
        self.millis.set(millis);
        self.tick.set(tick);
    }
}
