//! What a log says of a server that was started.

use std::alloc::{AllocError, Allocator, Global};
use std::io::Write;
use std::rt::{Clock, Files};
use std::time::Duration;
use turn_config::ShownEndpoint;
use turn_faults::second_now;
use turn_log::{Log, ShownName};
use turn_notes::{Note, Noted, notes_of};
use turn_table::Table;
use turn_types::Endpoint;

/// What is said of a start.
#[derive(Clone, Copy)]
pub struct Started<'a> {
    /// The program's version.
    pub version: &'a str,
    /// The addresses that clients send to.
    pub listen: &'a [Endpoint],
    /// The first and the last relay port.
    pub ports: (u16, u16),
    /// The path of the store.
    pub store: &'a str,
    /// The generation of the store, which each snapshot raises by one.
    pub generation: u64,
    /// How many allocations of the store are live.
    pub live: u64,
    /// Whether the store's clock is ahead of the system's.
    pub is_ahead: bool,
    /// How long it took, if the system says.
    pub took: Option<Duration>,
}

/// How many allocations of a table are live at a second.
pub fn live_at<A: Allocator + Copy>(table: &Table<A>, second: u64) -> u64 {
    let mut live = 0u64;
    for (_, entry) in table.entries() {
        if second < entry.expiry() {
            live = live.wrapping_add(1);
        }
    }
    live
}

/// The addresses, each with a space before it.
fn shown_addresses(alloc: Global, addresses: &[Endpoint]) -> Result<String, AllocError> {
    let mut text = String::new(alloc);
    for address in addresses {
        let shown = ShownEndpoint(*address);
        text = format!(in alloc; "{text} {shown}")?;
    }
    Ok(text)
}

/// What is said of the store.
fn store_text(alloc: Global, started: &Started<'_>) -> Result<String, AllocError> {
    let Started {
        store,
        generation,
        live,
        took,
        ..
    } = *started;
    let store = ShownName(store.as_bytes());
    let millis = took.unwrap_or(Duration::ZERO).as_millis();
    format!(in alloc; "store {store} generation {generation} live {live} opened in {millis} ms")
}

/// What is said of the addresses.
fn addresses_text(alloc: Global, started: &Started<'_>) -> Result<String, AllocError> {
    let (first, last) = started.ports;
    let listen = shown_addresses(alloc, started.listen)?;
    format!(in alloc; "listening{listen} relay ports {first}-{last}")
}

/// The version, the addresses, and what the store holds: a line of each.
fn texts_of(alloc: Global, started: &Started<'_>) -> Result<Vec<String>, AllocError> {
    let version = started.version;
    let mut texts = Vec::new(alloc);
    texts.push(format!(in alloc; "turn {version}")?)?;
    texts.push(addresses_text(alloc, started)?)?;
    texts.push(store_text(alloc, started)?)?;
    Ok(texts)
}

/// Says the version, the addresses, and what the store holds.
pub fn tell_started<C: Clock, L: Write + Drop>(
    alloc: Global,
    clock: &C,
    log: &Log<L>,
    started: &Started<'_>,
) {
    if !log.is_kept() {
        return;
    }
    let second = second_now(clock);
    if let Ok(texts) = texts_of(alloc, started) {
        for text in &texts {
            log.say(second, text.as_str());
        }
    }
}

/// Says something odd.
fn tell_note<L: Write + Drop>(alloc: Global, second: u64, log: &Log<L>, note: Note) {
    if let Ok(text) = format!(in alloc; "note: {note}") {
        log.say(second, text.as_str());
    }
}

/// Says what is odd of the machine and of the store.
pub fn tell_notes<R: Files + AllocGlobal, C: Clock, L: Write + Drop>(
    rt: &R,
    clock: &C,
    log: &Log<L>,
    noted: Noted,
) {
    if !log.is_kept() {
        return;
    }
    let second = second_now(clock);
    let notes = notes_of(rt, clock, noted);
    for note in &notes {
        if let Some(note) = note {
            tell_note(rt.alloc(), second, log, *note);
        }
    }
}
