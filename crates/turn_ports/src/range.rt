//! The ports of a range, in ascending order.

ghost use Rattle.std.specs.Prelude.{◌≡◌, ◌≤◌, ⊤, IsOkAnd, SomeIff};
ghost use Rattle.turn_ports.specs.Ports.{IsLowestFree, IsLowestFreePair};

use crate::generator::{PortSet, RelayAddressGenerator};
use std::alloc::AllocError;
use std::marker::Model;

/// A generator that picks the lowest free port of its range. It holds nothing for a port, and never fails.
#[derive(Clone, Copy, Debug, PartialEq, Eq)]
pub struct PortRange {
    first: u16,
    last: u16,
}

impl Model for PortRange {
    ghost use Rattle.std.specs.Prelude.{ℕ, ◌≤◌};

    ghost Value = { ℕ × ℕ };

    ghost view = { λ r. (r.first, r.last) };

    ghost invariant = { λ r. r.first ≤ r.last };

    ghost inverse = { λ r. record { first = r.0; last = r.1 } };
}

impl PortRange {
    /// The ports from a first to a last, both included. `None` where the first is above the last.
    ///
    /// ```rust
    /// let ports = PortRange::new(50000, 50009).context("ports")?;
    /// assert_eq!(rt; ports.range(), (50000, 50009));
    /// assert!(rt; PortRange::new(50009, 50000).is_none());
    /// ```
    pub fn new(first: u16, last: u16) -> Option<PortRange>
        ensures { SomeIff result (first ≤ last) (first, last) }
    {
        if first <= last {
            Some(PortRange { first, last })
        } else {
            None
        }
    }
}

impl RelayAddressGenerator for PortRange {
    ghost range = { λ r. r };

    ghost failures = { λ _. 0 };

    ghost holds = { λ _ _. ⊤ };

    fn range(&self) -> (u16, u16)
        ensures value { result ≡ self.now }
        ensures ordered { result.0 ≤ result.1 }
    {
        (self.first, self.last)
    }

    /// The lowest free port, and `None` only where there is none. Takes no memory.
    fn pick<S: PortSet>(&mut self, taken: &S, even: bool) -> Result<Option<u16>, AllocError>
        ensures lowest { IsOkAnd result (IsLowestFree self.old (S.has taken.now) even) }
        ensures unchanged { self.new ≡ self.old }
    {
        Ok(taken.lowest_free(self.first, self.last, even))
    }

    /// The lowest free pair, and `None` only where there is none. Takes no memory.
    fn pick_pair<S: PortSet>(&mut self, taken: &S) -> Result<Option<u16>, AllocError>
        ensures lowest { IsOkAnd result (IsLowestFreePair self.old (S.has taken.now)) }
        ensures unchanged { self.new ≡ self.old }
    {
        Ok(taken.lowest_free_pair(self.first, self.last))
    }

    fn release(&mut self, _port: u16)
        ensures unchanged { self.new ≡ self.old }
    {
        // Nothing is held for a port.
    }

    fn failures(&self) -> u64
        ensures { result ≡ 0 }
    {
        0
    }
}
