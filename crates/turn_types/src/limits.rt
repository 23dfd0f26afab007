//! The most that a server holds.

ghost use Rattle.std.specs.Prelude.{◌≡◌, ◌≤◌, SomeIff};
ghost use Rattle.turn_types.specs.Limits.{AreInRange};
ghost use Rattle.turn_types.specs.Profile.{max_allocations};

use crate::profile::MAX_ALLOCATIONS;
use std::marker::Model;

/// Five numbers that limits are made of.
#[derive(Clone, Copy, Debug, PartialEq, Eq)]
pub struct Bounds {
    /// Live allocations.
    pub allocations: u32,
    /// Permissions of an allocation.
    pub permissions: u16,
    /// Channels of an allocation.
    pub channels: u16,
    /// Acts of a frame of the journal, and arrivals of a batch.
    pub acts: u16,
    /// Bytes of a user's name.
    pub name_bytes: u16,
}

/// The most that a server holds: bounds that are in range.
#[derive(Clone, Copy, Debug, PartialEq, Eq)]
pub struct Limits {
    bounds: Bounds,
}

impl Model for Limits {
    ghost use Rattle.turn_types.specs.Limits.{AreInRange};
    ghost use Rattle.turn_types.specs.declared.limits.Bounds.{Bounds};

    ghost Value = { Bounds };

    ghost view = { λ l. l.bounds };

    ghost invariant = { λ l. AreInRange l.bounds };

    ghost inverse = { λ b. record { bounds = b } };
}

impl Limits {
    /// The max limits: each bound has the last value of its range.
    pub const MAX: Limits = Limits {
        bounds: Bounds {
            allocations: MAX_ALLOCATIONS,
            permissions: 32,
            channels: 32,
            acts: 64,
            name_bytes: 508,
        },
    };

    /// Limits of 1 to 1,024 allocations, 1 to 32 permissions and channels of each, 1 to 64 acts of a frame, and 1 to 508
    /// bytes of a user's name. `None` where a bound is out of its range.
    ///
    /// ```rust
    /// let bounds = Limits::MAX.bounds();
    /// let limits = Limits::new(Bounds { allocations: 100, ..bounds }).context("limits")?;
    /// assert_eq!(rt; limits.allocations(), 100);
    /// assert!(rt; Limits::new(Bounds { allocations: 1025, ..bounds }).is_none());
    /// ```
    pub fn new(bounds: Bounds) -> Option<Limits>
        ensures { SomeIff result (AreInRange bounds) bounds }
    {
        if bounds.allocations < 1 || MAX_ALLOCATIONS < bounds.allocations {
            return None;
        }
        if bounds.permissions < 1 || 32 < bounds.permissions {
            return None;
        }
        if bounds.channels < 1 || 32 < bounds.channels {
            return None;
        }
        if bounds.acts < 1 || 64 < bounds.acts {
            return None;
        }
        if bounds.name_bytes < 1 || 508 < bounds.name_bytes {
            return None;
        }
        Some(Limits { bounds })
    }

    /// The five numbers.
    pub fn bounds(&self) -> Bounds
        ensures value { result ≡ self.now }
        ensures range { AreInRange result }
    {
        self.bounds
    }

    /// The max number of live allocations, 1 to 1,024.
    pub fn allocations(&self) -> u32
        ensures value { result ≡ self.now.allocations }
        ensures range { (1 ≤ result) × (result ≤ max_allocations) }
    {
        self.bounds.allocations
    }

    /// The max number of permissions of an allocation, 1 to 32.
    pub fn permissions(&self) -> u16
        ensures value { result ≡ self.now.permissions }
        ensures range { (1 ≤ result) × (result ≤ 32) }
    {
        self.bounds.permissions
    }

    /// The max number of channels of an allocation, 1 to 32.
    pub fn channels(&self) -> u16
        ensures value { result ≡ self.now.channels }
        ensures range { (1 ≤ result) × (result ≤ 32) }
    {
        self.bounds.channels
    }

    /// The max number of acts of a frame and of arrivals of a batch, 1 to 64.
    pub fn acts(&self) -> u16
        ensures value { result ≡ self.now.acts }
        ensures range { (1 ≤ result) × (result ≤ 64) }
    {
        self.bounds.acts
    }

    /// The max number of bytes of a user's name, 1 to 508.
    pub fn name_bytes(&self) -> u16
        ensures value { result ≡ self.now.name_bytes }
        ensures range { (1 ≤ result) × (result ≤ 508) }
    {
        self.bounds.name_bytes
    }
}

impl Default for Limits {
    ghost use Rattle.turn_types.specs.Limits.{max_bounds};

    ghost is_default = { λ l. l ≡ max_bounds };

    /// The max limits.
    fn default() -> Limits {
        Limits::MAX
    }
}
