//! The time that a number of calls takes.

ghost use Rattle.std.specs.Prelude.{◌≡◌, ◌≤◌, ◌⊎◌, IfSome, Some};

use std::io;
use std::rt::Clock;
use std::time::Instant;

/// Rounds of which the best counts.
pub const ROUNDS: usize = 5;

/// How often a call was made, how often it did what it is measured for, and the time of all calls.
#[derive(Clone, Copy)]
pub struct Timing {
    /// How often it was made.
    pub count: usize,
    /// How often it did that.
    pub done: usize,
    /// Of all calls, in microseconds.
    pub micros: u128,
}

impl Timing {
    /// The nanoseconds of each part of a call that has so many equal ones.
    pub fn nanos(self, parts: usize) -> u128 {
        let all = (self.count as u128).saturating_mul(parts as u128);
        self.micros.saturating_mul(1000) / all.max(1)
    }

    /// The megabytes of a second, if each call reads or writes so many bytes.
    pub fn rate(self, size: usize) -> u128 {
        (self.count as u128).saturating_mul(size as u128) / self.micros.max(1)
    }

    /// The better of this timing and the best one before it.
    pub fn or_before(self, before: Option<Timing>) -> Timing
        ensures least { (result.micros ≤ self.micros) × IfSome before (λ other. result.micros ≤ other.micros) }
        ensures one_of_them { (result ≡ self) ⊎ (before ≡ Some result) }
    {
        match before {
            Some(before) if before.micros <= self.micros => before,
            _ => self,
        }
    }
}

/// Makes the call `count` times. It returns whether it did what it is measured for.
pub fn time<C: Clock, F: FnMut() -> bool>(rt: &C, call: &mut F, count: usize) -> io::Result<Timing>
    requires { (state : F) → F.pre state }
{
    let mut done = 0usize;
    let start = Instant::now(rt)?;
    for _ in 0..count {
        if call() {
            done = done.wrapping_add(1);
        }
    }
    let micros = start.elapsed(rt)?.as_micros();
    Ok(Timing {
        count,
        done,
        micros,
    })
}

/// The best of the rounds, of `count` calls each.
pub fn best_of<C: Clock, F: FnMut() -> bool>(
    rt: &C,
    call: &mut F,
    count: usize,
) -> io::Result<Timing>
    requires { (state : F) → F.pre state }
{
    let mut best = time(rt, call, count)?;
    for _ in 1..ROUNDS {
        best = time(rt, call, count)?.or_before(Some(best));
    }
    Ok(best)
}
