//! Plays the texts in `data`. Prints how many lines of each hold, or the first that doesn't. `stdout` was not written by this
//! program.
#![tactic(auto)]

mod backlogs;
mod captures;
mod interpreter;
mod questions;
mod records;
mod reports;
mod scene;
mod schedules;
mod servers;
mod stores;
mod values;
mod words;

use anyhow::Result;
use backlogs::Backlogs;
use captures::Captures;
use interpreter::{Outcome, play_text};
use questions::{Questions, Topic};
use records::Records;
use reports::Reports;
use schedules::Schedules;
use servers::Servers;
use std::alloc::{AllocError, Global};
use std::fs;
use stores::Stores;

/// What plays a text.
enum Family {
    Questions(Topic),
    Reports,
    Captures,
    Schedules,
    Backlogs,
    Records,
    Stores,
    Servers,
}

const TEXTS: [(&str, Family); 33] = [
    ("digests", Family::Questions(Topic::Digests)),
    ("messages", Family::Questions(Topic::Messages)),
    ("integrity", Family::Questions(Topic::Messages)),
    ("verdicts", Family::Questions(Topic::Credentials)),
    ("nonces", Family::Questions(Topic::Credentials)),
    ("names", Family::Questions(Topic::Credentials)),
    ("requests", Family::Questions(Topic::Requests)),
    ("records", Family::Records),
    ("snapshots", Family::Records),
    ("version_2", Family::Records),
    ("disks", Family::Stores),
    ("stores", Family::Stores),
    ("stores_of_version_2", Family::Stores),
    ("snapshots_in_pieces", Family::Stores),
    ("a_store_of_an_earlier_program", Family::Stores),
    ("readings", Family::Stores),
    ("settings", Family::Reports),
    ("lines", Family::Reports),
    ("formats", Family::Reports),
    ("carrying_over", Family::Reports),
    ("server_replies", Family::Servers),
    ("server_sizes", Family::Servers),
    ("server_ports", Family::Servers),
    ("server_reservations", Family::Servers),
    ("server_stores", Family::Servers),
    ("server_names", Family::Servers),
    ("uclient", Family::Captures),
    ("aioice", Family::Captures),
    ("chromium", Family::Captures),
    ("listening", Family::Questions(Topic::Sockets)),
    ("schedule", Family::Schedules),
    ("backlog", Family::Backlogs),
    ("pauses", Family::Questions(Topic::Sockets)),
];

fn interpret(alloc: Global, family: &Family, text: &[u8]) -> Result<Outcome, AllocError> {
    match family {
        Family::Questions(topic) => play_text(&mut Questions::new(alloc, *topic), text),
        Family::Reports => play_text(&mut Reports::new(alloc), text),
        Family::Captures => play_text(&mut Captures::new(alloc), text),
        Family::Schedules => play_text(&mut Schedules::new(alloc), text),
        Family::Backlogs => play_text(&mut Backlogs::new(alloc), text),
        Family::Records => play_text(&mut Records::new(alloc), text),
        Family::Stores => play_text(&mut Stores::new(alloc), text),
        Family::Servers => play_text(&mut Servers::new(alloc), text),
    }
}

fn play_file(rt: &HostRuntime, name: &str, family: &Family) -> Result<()> {
    let file = format!(in rt.alloc(); "{name}.txt")?;
    let text = fs::read(rt, file.as_str())?;
    match interpret(rt.alloc(), family, &text)? {
        Outcome::Holds(lines) => println!(rt; "{name}: {lines} lines")?,
        Outcome::Differs(line, None) => println!(rt; "{name}: line {line} differs")?,
        Outcome::Differs(line, Some(found)) => {
            println!(rt; "{name}: line {line} differs, which came to: {found}")?
        }
    }
    Ok(())
}

fn main(rt: HostRuntime) -> Result<()> {
    for (name, family) in &TEXTS {
        play_file(&rt, name, family)?;
    }
    Ok(())
}
