//! Moments.

ghost use Rattle.std.specs.Prelude.{◌≡◌, ◌<◌, ◌-◌, ◌^◌, ℕ, SomeIff};
ghost use Rattle.turn_types.specs.Profile.{end_of_moments};

use crate::profile::MAX_LIFETIME;
use std::marker::Model;

/// A moment: a number of seconds below 2^40 - 3600, so that a moment plus any lifetime is below 2^40.
#[derive(Clone, Copy, Debug, PartialEq, Eq, PartialOrd, Ord)]
pub struct Moment {
    seconds: u64,
}

impl Model for Moment {
    ghost Value = { ℕ };

    ghost view = { λ m. m.seconds };

    ghost invariant = { λ m. m.seconds < end_of_moments };

    ghost inverse = { λ n. record { seconds = n } };
}

impl Moment {
    /// The moment of a number of seconds.
    ///
    /// ```rust
    /// assert_eq!(rt; Moment::new(1000).map(|moment| moment.seconds()), Some(1000));
    /// assert!(rt; Moment::new(1 << 40).is_none());
    /// ```
    pub fn new(seconds: u64) -> Option<Moment>
        ensures { SomeIff result (seconds < end_of_moments) seconds }
    {
        if seconds < (1 << 40) - u64::from(MAX_LIFETIME) {
            Some(Moment { seconds })
        } else {
            None
        }
    }

    /// The number of seconds, from the same start as every other moment's.
    pub fn seconds(self) -> u64
        ensures value { result ≡ self }
        ensures range { self < end_of_moments }
    {
        self.seconds
    }
}
