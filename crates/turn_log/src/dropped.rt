//! How many datagrams were dropped in a second.

ghost use Rattle.std.specs.Prelude.{◌≡◌, ◌≤◌, ◌<◌, ◌+◌, ◌-◌, ◌^◌, min};

/// How many datagrams of clients a server dropped in a second, since nothing more could wait for a commit.
#[derive(Clone, Copy, Debug, PartialEq, Eq)]
pub struct DroppedCount {
    second: u64,
    count: u64,
}

impl DroppedCount {
    /// Nothing was dropped.
    pub fn new() -> DroppedCount
        ensures { result ≡ record { second = 0; count = 0 } }
    {
        DroppedCount {
            second: 0,
            count: 0,
        }
    }

    /// Begins a second, unless it has begun. Returns how many were dropped since the last one began.
    pub fn begin(&mut self, second: u64) -> u64
        ensures goes_on { second ≤ self.old.second → (result ≡ 0) × (self.new ≡ self.old) }
        ensures begins { self.old.second < second → (result ≡ self.old.count) × (self.new ≡ record { second = second; count = 0 }) }
    {
        if second <= self.second {
            return 0;
        }
        let count = self.count;
        *self = DroppedCount { second, count: 0 };
        count
    }

    /// Counts so many as dropped.
    pub fn add(&mut self, count: u64)
        ensures { self.new ≡ record self.old { count = min (self.old.count + count) (2 ^ 64 - 1) } }
    {
        self.count = self.count.saturating_add(count);
    }
}
