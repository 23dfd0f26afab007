//! Which commits a log has.

ghost use Rattle.std.specs.Prelude.{◌<◌, ◌↔◌, IsTrue};
ghost use Rattle.std.specs.Duration.{as_nanos};
ghost use Rattle.turn_log.specs.Logged.{slow};

use std::time::Duration;

/// How many milliseconds a commit takes that has no line, at most.
const SLOW_MILLIS: u64 = 100;

/// Whether a log has a line of a commit that took so long.
pub fn is_slow(took: Duration) -> bool
    ensures { IsTrue result ↔ slow < as_nanos took }
{
    Duration::from_millis(SLOW_MILLIS) < took
}
