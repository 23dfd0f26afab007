//! When requests that wait for a commit are committed.

ghost use Rattle.std.specs.Prelude.{◌≡◌, None, option_map};
ghost use Rattle.std.specs.Duration.{as_nanos};
ghost use Rattle.turn_sockets.specs.Pace.{IsPauseOf, pause_of, rest_of};

use std::time::Duration;

/// How much longer than a commit the pause after it is.
const FACTOR: u32 = 4;

/// How long a pause is at most.
const MAX_MILLIS: u128 = 50;

/// The pause after a commit.
#[derive(Clone, Copy, Debug)]
struct Pause {
    // When the commit ended.
    from: Duration,
    length: Duration,
}

/// When requests that wait for a commit are committed.
///
/// A commit holds up all data while it syncs. So after one there is a pause, four times as long as it took and at most 50 ms, in
/// which requests wait and data does not: then syncs take a fifth of the time at most. After a commit of less than a quarter of a
/// millisecond there is none.
#[derive(Clone, Copy, Debug)]
pub struct Pace {
    // The pause after the last commit, if there was one.
    last: Option<Pause>,
}

fn pause_after(took: Duration) -> Duration
    ensures { as_nanos result ≡ pause_of (as_nanos took) }
{
    let millis = took.saturating_mul(FACTOR).as_millis().min(MAX_MILLIS);
    Duration::from_millis(millis as u64)
}

impl Pace {
    /// No commit was made.
    pub fn new() -> Pace
        ensures { result.last ≡ None }
    {
        Pace { last: None }
    }

    /// A commit began and ended at these times, of a clock that doesn't go back. Where the clock failed there is no pause.
    pub fn note(&mut self, began: Option<Duration>, ended: Option<Duration>)
        ensures { IsPauseOf self.new.last (option_map as_nanos began) (option_map as_nanos ended) }
    {
        self.last = match (began, ended) {
            (Some(began), Some(ended)) => Some(Pause {
                from: ended,
                length: pause_after(ended.saturating_sub(began)),
            }),
            _ => None,
        };
    }

    /// How much is left of the pause: so long requests wait.
    pub fn rest(&self, now: Duration) -> Duration
        ensures { as_nanos result ≡ rest_of self.now.last (as_nanos now) }
    {
        match self.last {
            Some(Pause { from, length }) => length.saturating_sub(now.saturating_sub(from)),
            None => Duration::ZERO,
        }
    }
}
