//! The moment of a turn.

ghost use Rattle.std.specs.Prelude.{◌≡◌, ◌<◌, ◌≤◌, ◌-◌, ◌^◌, ℕ, IfSome, max};
ghost use Rattle.turn_sockets.specs.Moments.{IsMoment};
ghost use Rattle.turn_types.specs.Profile.{end_of_moments};

use std::rt::Clock;
use std::time::SystemTime;
use turn_types::Moment;

/// The later of a server's clock and the system's second. A second that is no moment, which is one from the year 36812 on,
/// counts as none.
pub fn moment_at(clock: Moment, second: u64) -> Moment
    ensures in_range { second < end_of_moments → result ≡ max clock second }
    ensures beyond { end_of_moments ≤ second → result ≡ clock }
    ensures monotone { clock ≤ result }
{
    match Moment::new(second) {
        Some(moment) if clock <= moment => moment,
        _ => clock,
    }
}

/// What tells the moments of turns.
pub trait Time: Clock {
    /// It has told this second. Of a clock that promises nothing it holds of each.
    ghost told: { Self → ℕ → Type 0 };

    /// The second, counted from 1970 on, of which one before counts as 0. `None` if there is no time.
    fn second(&self) -> Option<u64>
        ensures { IfSome result (λ second. told self.now second) };
}

impl<C: Clock> Time for &C {
    ghost told = { λ _ _. Unit {0} };

    fn second(&self) -> Option<u64> {
        let now = SystemTime::now(self).ok()?;
        match now.duration_since(SystemTime::UNIX_EPOCH) {
            Ok(since) => Some(since.as_secs()),
            Err(_) => Some(0),
        }
    }
}

/// The moment of a turn, by the server's clock. `None` if the system has no time.
pub fn moment_now<T: Time>(system: &T, clock: Moment) -> Option<Moment>
    ensures monotone { IfSome result (λ moment. clock ≤ moment) }
    ensures told { IfSome result (λ moment. IsMoment (T.told system.now) clock moment) }
{
    let second = system.second()?;
    Some(moment_at(clock, second))
}
