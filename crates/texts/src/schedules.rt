//! Which socket is read next.
//!
//! - `new`: no socket is listed.
//! - `round READY | MORE | VISITS`: a round begins after a look that names the sockets READY, and visits these in this order. Of those
//!   visited the sockets MORE have more. `each`: the same of a round that visits each listed socket once.
//!
//! A relay socket is its number, a listening socket its number after `@`, and no sockets are `-`.

use crate::interpreter::Interpreter;
use std::alloc::{AllocError, Global};
use turn_sockets::{LISTENING, Schedule};

/// The schedule of a text so far.
#[derive(Drop)]
pub struct Schedules {
    alloc: Global,
    schedule: Option<Schedule<Global>>,
}

fn socket(word: &str) -> Option<usize> {
    match word.strip_prefix('@') {
        Some(number) => LISTENING.checked_add(number.parse().ok()?),
        None => word.parse().ok(),
    }
}

fn sockets(alloc: Global, words: &str) -> Option<Vec<usize>> {
    let mut sockets = Vec::new(alloc);
    if words != "-" {
        for word in words.split(' ') {
            sockets.push(socket(word)?).ok()?;
        }
    }
    Some(sockets)
}

/// Adds sockets, each of which changes nothing when it is put back.
fn add_all(schedule: &mut Schedule<Global>, sockets: &[usize]) -> Option<()> {
    for socket in sockets {
        schedule.add(*socket).ok()?;
        schedule.put_back(*socket).ok()?;
    }
    Some(())
}

/// Whether these sockets are visited, and no other is listed afterwards than those that have more. One that has more is put back
/// twice, as if once.
fn visits(schedule: &mut Schedule<Global>, more: &[usize], visits: &[usize]) -> Option<bool> {
    for socket in visits {
        if schedule.next() != Some(*socket) {
            return Some(false);
        }
        if more.contains(socket) {
            schedule.put_back(*socket).ok()?;
            schedule.put_back(*socket).ok()?;
        }
    }
    Some(schedule.next().is_none() && schedule.is_empty() == more.is_empty())
}

impl Schedules {
    /// No schedule yet.
    pub fn new(alloc: Global) -> Schedules {
        Schedules {
            alloc,
            schedule: None,
        }
    }

    fn plays_round(&mut self, sets: &str, for_each: bool) -> Option<bool> {
        let (ready, rest) = sets.split_once(" | ")?;
        let (more, visited) = rest.split_once(" | ")?;
        let more = sockets(self.alloc, more)?;
        let visited = sockets(self.alloc, visited)?;
        let ready = sockets(self.alloc, ready)?;
        let schedule = self.schedule.as_mut()?;
        add_all(schedule, &ready)?;
        if for_each {
            schedule.begin_for_each().ok()?;
        } else {
            schedule.begin();
        }
        visits(schedule, &more, &visited)
    }

    fn plays(&mut self, line: &str) -> Option<bool> {
        if line == "new" {
            self.schedule = Some(Schedule::new(self.alloc).ok()?);
            return Some(true);
        }
        match line.split_once(' ')? {
            ("round", sets) => self.plays_round(sets, false),
            ("each", sets) => self.plays_round(sets, true),
            _ => None,
        }
    }
}

impl Interpreter for Schedules {
    fn play(&mut self, line: &[u8]) -> Result<bool, AllocError> {
        Ok(match str::from_utf8(line) {
            Ok(line) => self.plays(line) == Some(true),
            Err(_) => false,
        })
    }
}
