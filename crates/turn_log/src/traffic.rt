//! How much was relayed.

ghost use Rattle.std.specs.Prelude.{◌≡◌, ◌+◌, ◌-◌, ◌^◌, min};

/// Datagrams that were sent, and the bytes in them.
#[derive(Clone, Copy, Debug, Default, PartialEq, Eq)]
pub struct Traffic {
    /// How many datagrams.
    pub datagrams: u64,
    /// How many bytes.
    pub bytes: u64,
}

impl Traffic {
    /// Counts a datagram of so many bytes.
    pub fn add(&mut self, bytes: usize)
        ensures { self.new ≡ record {
          datagrams = min (self.old.datagrams + 1) (2 ^ 64 - 1);
          bytes = min (self.old.bytes + bytes) (2 ^ 64 - 1);
        } }
    {
        self.datagrams = self.datagrams.saturating_add(1);
        self.bytes = self.bytes.saturating_add(bytes as u64);
    }

    /// The same without some of it.
    pub fn without(self, some: Traffic) -> Traffic
        ensures { result ≡ record { datagrams = self.datagrams - some.datagrams; bytes = self.bytes - some.bytes } }
    {
        Traffic {
            datagrams: self.datagrams.saturating_sub(some.datagrams),
            bytes: self.bytes.saturating_sub(some.bytes),
        }
    }
}
