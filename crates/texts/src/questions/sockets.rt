//! Addresses to listen on, and pauses after commits.

use crate::values::{Values, endpoint};
use std::time::Duration;
use turn_sockets::{ListeningAddresses, Pace};
use turn_types::Endpoint;

fn endpoints(values: &Values, words: &[&str]) -> Option<Vec<Endpoint>> {
    let mut all = Vec::new(values.alloc);
    for word in words {
        all.push(endpoint(word)?).ok()?;
    }
    Some(all)
}

/// Whether others make a list, which then has them all after the first.
fn are_taken(first: Endpoint, others: &[Endpoint]) -> bool {
    match ListeningAddresses::new(first, others) {
        Some(all) => all.first() == first && all.as_slice().get(1..) == Some(others),
        None => false,
    }
}

/// What is left of a pause at a time, all in microseconds, after a commit that took so long and ended at another time.
fn rest(took: &str, ended: &str, at: &str) -> Option<Duration> {
    let ended = Duration::from_micros(ended.parse().ok()?);
    let began = ended.saturating_sub(Duration::from_micros(took.parse().ok()?));
    let mut pace = Pace::new();
    pace.note(Some(began), Some(ended));
    Some(pace.rest(Duration::from_micros(at.parse().ok()?)))
}

fn micros(values: &Values, time: Duration) -> Option<String> {
    let micros = time.as_micros();
    format!(in values.alloc; "{micros}").ok()
}

/// Whether the addresses make a list, or what is left of a pause.
pub fn answer(values: &Values, words: &[&str]) -> Option<String> {
    match words {
        ["listen", first, others @ ..] => {
            values.truth(are_taken(endpoint(first)?, &endpoints(values, others)?))
        }
        ["pause", took, ended, at] => micros(values, rest(took, ended, at)?),
        ["no-commit", at] => {
            let at = Duration::from_micros(at.parse().ok()?);
            micros(values, Pace::new().rest(at))
        }
        _ => None,
    }
}
