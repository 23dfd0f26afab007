//! What is odd of a machine or a store, and no fault.

ghost use Rattle.std.specs.Prelude.{◌≡◌, ◌+◌, ◌-◌, ◌*◌, ◌<◌, ◌≤◌, ◌↔◌, IsFalse, IsTrue, SomeIff, max, min};
ghost use Rattle.turn_notes.specs.Notes.{have_common, needed_of};
ghost use Rattle.turn_notes.specs.declared.notes.Note.TheVariants.{Ahead, Buffer, Descriptors, Overlap};

use std::alloc::AllocGlobal;
use std::fmt;
use std::fs::OpenOptions;
use std::io::Read;
use std::rt::{Clock, Files};
use turn_config::values::{number, port, split_once};
use turn_disk::open_regular;
use turn_sockets::{RECEIVE_BUFFER, moment_now};
use turn_types::Moment;

/// A first and a last port.
type Ports = (u16, u16);

/// What is odd, and no fault.
#[derive(Clone, Copy)]
pub enum Note {
    /// The system may give relay ports to other programs.
    Overlap {
        /// The relay ports.
        relay: Ports,
        /// The ports that the system gives to programs that ask for any.
        local: Ports,
    },
    /// The store's clock is ahead of the system's by so many seconds.
    Ahead(u64),
    /// The process may have fewer descriptors open than it may need.
    Descriptors {
        /// How many it may have.
        allowed: u64,
        /// How many it may need.
        needed: u64,
    },
    /// A receive buffer gets so many bytes, fewer than a socket asks for.
    Buffer(u64),
}

impl fmt::Display for Note {
    fn fmt<W: fmt::Write>(&self, f: &mut fmt::Formatter<W>) -> fmt::Result {
        match *self {
            Note::Overlap { relay, local } => {
                let ((first, last), (low, high)) = (relay, local);
                write!(
                    f,
                    "relay ports {first}-{last} overlap with the system's local ports {low}-{high}"
                )
            }
            Note::Ahead(seconds) => write!(f, "the store's clock is ahead by {seconds} s"),
            Note::Descriptors { allowed, needed } => {
                write!(
                    f,
                    "a process may open {allowed} files of {needed} (LimitNOFILE)"
                )
            }
            Note::Buffer(granted) => write!(
                f,
                "receive buffers get {granted} bytes of {RECEIVE_BUFFER} (net.core.rmem_max)"
            ),
        }
    }
}

/// The ports that two ranges have in common.
fn common(one: Ports, other: Ports) -> Option<Ports>
    ensures { SomeIff result (max one.0 other.0 ≤ min one.1 other.1) (max one.0 other.0, min one.1 other.1) }
{
    let (first, last) = (one.0.max(other.0), one.1.min(other.1));
    if first <= last {
        Some((first, last))
    } else {
        None
    }
}

/// Whether a range has all ports of another one.
fn has_all(range: Ports, ports: Ports) -> bool
    ensures { IsTrue result ↔ ((range.0 ≤ ports.0) × (ports.1 ≤ range.1)) }
{
    range.0 <= ports.0 && ports.1 <= range.1
}

/// The first word of a text, and what comes after it.
fn first_word(text: &[u8]) -> (&[u8], &[u8]) {
    let text = text.trim_ascii_start();
    match text.iter().position(|byte| byte.is_ascii_whitespace()) {
        Some(end) => (&text[..end], &text[end..]),
        None => (text, b""),
    }
}

/// The ports of `ip_local_port_range`: two numbers.
fn local_ports(text: &[u8]) -> Option<Ports> {
    let (first, rest) = first_word(text);
    let (last, _) = first_word(rest);
    Some((port(first)?, port(last)?))
}

/// The ports of a part of `ip_local_reserved_ports`: one number, or a first and a last one with a hyphen between.
fn reserved_range(part: &[u8]) -> Option<Ports> {
    let (first, last) = split_once(part, b'-').unwrap_or((part, part));
    Some((port(first)?, port(last)?))
}

/// Whether `ip_local_reserved_ports` has all these ports. The system joins ranges that touch, so they are in a single one.
fn are_reserved(text: &[u8], ports: Ports) -> bool {
    let (list, _) = first_word(text);
    list.split(|byte| *byte == b',')
        .any(|part| match reserved_range(part) {
            Some(range) => has_all(range, ports),
            None => false,
        })
}

/// The note of two ranges of ports that overlap, unless what they have in common is reserved.
fn overlap_of(relay: Ports, local: Ports, are_reserved: bool) -> Option<Note>
    ensures { SomeIff result (have_common relay local × IsFalse are_reserved) (Overlap relay local) }
{
    if common(relay, local).is_none() || are_reserved {
        return None;
    }
    Some(Note::Overlap { relay, local })
}

/// Whether the relay ports overlap with the system's range of local ports, by the texts of `ip_local_port_range` and
/// `ip_local_reserved_ports`.
fn overlap_note(relay: Ports, range: &[u8], reserved: &[u8]) -> Option<Note> {
    let local = local_ports(range)?;
    let are_reserved = are_reserved(reserved, common(relay, local)?);
    overlap_of(relay, local, are_reserved)
}

/// How many seconds a store's clock may be ahead of the system's.
const DAY: u64 = 86_400;

/// Whether a store's clock is ahead of the system's by more than a day, both in seconds.
fn ahead_note(clock: u64, system: u64) -> Option<Note>
    ensures { SomeIff result (system + 86400 < clock) (Ahead (clock - system)) }
{
    let ahead = clock.checked_sub(system)?;
    if ahead <= DAY {
        return None;
    }
    Some(Note::Ahead(ahead))
}

/// How many descriptors a server has beside the sockets of allocations and reserved ports: its streams, its store, nine listening
/// sockets and what waits for sockets are fewer.
const OTHERS: u64 = 64;

/// How many descriptors a server may need: one for each allocation, and one for a port that is reserved with each.
fn needed_of(allocations: u32) -> u64
    ensures { result ≡ needed_of allocations }
{
    2 * u64::from(allocations) + OTHERS
}

/// The note of a process that may have so many descriptors open, which are fewer than it may need with so many allocations.
fn descriptors_of(allocations: u32, allowed: u64) -> Option<Note>
    ensures { SomeIff result (allowed < needed_of allocations) (Descriptors allowed (needed_of allocations)) }
{
    let needed = needed_of(allocations);
    if needed <= allowed {
        return None;
    }
    Some(Note::Descriptors { allowed, needed })
}

/// What the row of the limit of open files in `/proc/self/limits` begins with.
const ROW: &[u8] = b"Max open files";

/// Whether a process may have fewer descriptors open than it needs with so many allocations, by the text of `/proc/self/limits`.
fn descriptors_note(allocations: u32, limits: &[u8]) -> Option<Note> {
    let row = limits
        .split(|byte| *byte == b'\n')
        .find(|line| line.starts_with(ROW))?;
    let (soft, _) = first_word(row.get(ROW.len()..)?);
    descriptors_of(allocations, number(soft)?)
}

/// The note of a receive buffer that gets so many bytes, which are fewer than a socket asks for.
fn buffer_of(granted: u64) -> Option<Note>
    ensures { SomeIff result (granted < RECEIVE_BUFFER) (Buffer granted) }
{
    if u64::from(RECEIVE_BUFFER) <= granted {
        return None;
    }
    Some(Note::Buffer(granted))
}

/// Whether the system grants less than the receive buffer that a socket asks for, by the text of `rmem_max`.
fn buffer_note(text: &[u8]) -> Option<Note> {
    let (word, _) = first_word(text);
    buffer_of(number(word)?)
}

/// How many bytes of a file of `/proc` are read.
const MAX_TEXT: u64 = 8192;

/// The text of a file of `/proc`. `None` where it can't be read or is longer.
fn read_text<R: Files + AllocGlobal>(rt: &R, path: &str) -> Option<Vec<u8>> {
    let mut options = OpenOptions::new();
    options.read(true);
    let file = open_regular(rt, path, &options).ok()?;
    let mut bytes = Vec::new(rt.alloc());
    file.take(MAX_TEXT + 1).read_to_end(&mut bytes).ok()?;
    if bytes.len() as u64 > MAX_TEXT {
        return None;
    }
    Some(bytes)
}

/// What a server is started with, as far as notes are concerned.
#[derive(Clone, Copy)]
pub struct Noted {
    /// The first and the last relay port.
    pub ports: Ports,
    /// How many allocations there may be.
    pub allocations: u32,
    /// The clock of the store, if there is one.
    pub clock: Option<Moment>,
}

fn read_overlap<R: Files + AllocGlobal>(rt: &R, relay: Ports) -> Option<Note> {
    let range = read_text(rt, "/proc/sys/net/ipv4/ip_local_port_range")?;
    let reserved = read_text(rt, "/proc/sys/net/ipv4/ip_local_reserved_ports")?;
    overlap_note(relay, &range, &reserved)
}

/// By how much a clock is ahead of the system's, if that is more than a day.
pub fn read_ahead<C: Clock>(system: &C, clock: Option<Moment>) -> Option<Note> {
    let now = moment_now(&system, Moment::new(0)?)?;
    ahead_note(clock?.seconds(), now.seconds())
}

fn read_descriptors<R: Files + AllocGlobal>(rt: &R, allocations: u32) -> Option<Note> {
    descriptors_note(allocations, &read_text(rt, "/proc/self/limits")?)
}

fn read_buffer<R: Files + AllocGlobal>(rt: &R) -> Option<Note> {
    buffer_note(&read_text(rt, "/proc/sys/net/core/rmem_max")?)
}

/// What is odd of the machine and of the store.
pub fn notes_of<R: Files + AllocGlobal, C: Clock>(
    rt: &R,
    clock: &C,
    noted: Noted,
) -> [Option<Note>; 4] {
    [
        read_overlap(rt, noted.ports),
        read_ahead(clock, noted.clock),
        read_descriptors(rt, noted.allocations),
        read_buffer(rt),
    ]
}
