//! Which device calls of a disk in memory fail on purpose. It is kept in cells, so no contract speaks of it.

use std::cell::Cell;

/// The calls that are to fail: one by itself, and all from one on.
#[derive(Drop)]
pub struct Faults {
    // How many calls succeed before one that fails.
    fail: Cell<Option<u64>>,
    // How many calls succeed before all later ones fail.
    stop: Cell<Option<u64>>,
}

impl Faults {
    /// No call is to fail.
    pub fn none() -> Faults {
        Faults {
            fail: Cell::new(None),
            stop: Cell::new(None),
        }
    }

    /// Replaces a failure that is still to come.
    pub fn fail_after(&self, calls: u64) {
        self.fail.set(Some(calls));
    }

    /// A stop that is still to come is moved nearer, never further away.
    pub fn stop_after(&self, calls: u64) {
        let nearest = match self.stop.get() {
            Some(stop) => stop.min(calls),
            None => calls,
        };
        self.stop.set(Some(nearest));
    }

    /// No call is to fail from now on.
    pub fn forget(&self) {
        self.fail.set(None);
        self.stop.set(None);
    }

    /// Counts one device call, and returns whether it fails.
    pub fn next_call_fails(&self) -> bool {
        let fail = self.fail.get();
        let stop = self.stop.get();
        self.fail.set(fail.and_then(|calls| calls.checked_sub(1)));
        self.stop.set(stop.map(|calls| calls.saturating_sub(1)));
        fail == Some(0) || stop == Some(0)
    }
}
