//! The system's second, where one that it doesn't tell is no fault.

use std::rt::Clock;
use turn_sockets::moment_now;
use turn_types::Moment;

/// The system's second, or 0 if it tells none.
pub fn second_now<C: Clock>(clock: &C) -> u64 {
    let Some(first) = Moment::new(0) else {
        return 0;
    };
    match moment_now(&clock, first) {
        Some(moment) => moment.seconds(),
        None => 0,
    }
}
