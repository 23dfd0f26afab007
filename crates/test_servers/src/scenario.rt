//! A scenario.

use crate::datagram::{Datagram, Source};
use crate::report::Report;
use crate::served::{Held, Served, keeps_ports};
use crate::setup::{Opening, Setup};
use crate::words::{bytes_of, expected, first_word, ports_of};
use std::alloc::{Allocator, Global};
use turn_config::values::{number, number_32};
use turn_config::{Configured, is_skipped};
use turn_disk::{CrashOutcome, MemoryDisk};
use turn_engine::{CommitError, SubmitError};
use turn_player::Effect;
use turn_record::Version;
use turn_requests::build_send;
use turn_scenario::{Line, put_table, read_line};
use turn_types::Moment;

/// The first lines of a scenario, with the users of `test_requests`, a quota of 2 and the ports from 50000 to 50009.
const HEAD: &[u8] = b"realm example.org
user alice wonder
user bob builder
secret 0000000000000000000000000000000000000000000000000000000000000000
listen 192.0.2.100:3478
relay 198.51.100.1 50000 50009
quota 2
deny 203.0.113.9 203.0.113.9
";

/// A scenario whose lines are played one after the other: those of `turn_scenario`, and
///
/// - `bytes HEX`: the datagram of the line that was compared last has these bytes, `5a*3` for `5a5a5a`, `01+5a*3` for `015a5a5a`;
/// - `picked PORT..`, `released PORT..`: since the last opening the generator gave these ports in this order, and got these back in
///   any order;
/// - `disk AT HEX`: the disk has these bytes from a place on;
/// - `damage AT HEX`: the server is closed, these bytes are put there, and the store is opened again;
/// - `failing`: the store is opened again, by a server that can't have any port;
/// - `anew`: a server over a new store with the same `format`, at second 0; `new`: the next line is the first of another
///   configuration.
///
/// A line other than `expect` doesn't hold while a line of the report was not compared.
#[derive(Drop)]
pub struct Scenario<A: Allocator + Copy = Global> {
    alloc: Global,
    inner: A,
    setup: Setup,
    form: Option<(Version, u32)>,
    held: Option<Held<A>>,
    // Whether the store was empty when it was opened, so that the generator gave each port of the table.
    was_empty: bool,
    moment: Moment,
    nonce: Option<Moment>,
    report: Report<A>,
}

/// Whether two lists have the same ports, in any order.
fn are_same(found: &[u16], wanted: &[u16]) -> bool {
    found.len() == wanted.len()
        && found.iter().all(|port| wanted.contains(port))
        && wanted.iter().all(|port| found.contains(port))
}

/// A disk with bytes in place of those from a place on.
fn damaged<A: Allocator + Copy>(
    inner: A,
    disk: &MemoryDisk<A>,
    at: usize,
    bytes: &[u8],
) -> Option<MemoryDisk<A>> {
    let mut content = Vec::from_slice(inner, disk.content().get(..at)?).ok()?;
    content.extend_from_slice(bytes).ok()?;
    let rest = disk.content().get(content.len()..)?;
    content.extend_from_slice(rest).ok()?;
    Some(MemoryDisk::new(inner, content))
}

impl<A: Allocator + Copy> Scenario<A> {
    /// No lines. The server is made over `inner`, and what it gets over `alloc`.
    pub fn new(alloc: Global, inner: A) -> Scenario<A> {
        Scenario {
            alloc,
            inner,
            setup: Setup::new(alloc),
            form: None,
            held: None,
            was_empty: false,
            moment: Moment::new(0).unwrap(),
            nonce: None,
            report: Report::new(inner),
        }
    }

    /// A scenario with the users, the quota and the ports of most tests, in which these lines were played, or `None` if one doesn't hold.
    pub fn begin(alloc: Global, inner: A, lines: &[u8]) -> Option<Scenario<A>> {
        let mut scenario = Scenario::new(alloc, inner);
        let holds = scenario.play_all(HEAD) && scenario.play_all(lines);
        if holds { Some(scenario) } else { None }
    }

    /// What the first lines say together.
    pub fn configured(&self) -> Option<Configured<'_>> {
        self.setup.configured()
    }

    /// The server, if one runs.
    pub fn server(&self) -> Option<&Served<A>> {
        match &self.held {
            Some(Held::Serving(server)) => Some(server),
            _ => None,
        }
    }

    /// The server, if one runs, for calls of its own.
    pub fn server_mut(&mut self) -> Option<&mut Served<A>> {
        match &mut self.held {
            Some(Held::Serving(server)) => Some(server),
            _ => None,
        }
    }

    /// Whether the generator has given the ports of the table and of the reservations and no others, each once. It doesn't know those
    /// that were in the store when this was opened.
    pub fn keeps_ports(&self) -> bool {
        match self.server() {
            Some(server) => !self.was_empty || keeps_ports(server),
            None => true,
        }
    }

    /// Plays the lines of a text to its end, or to the first that doesn't hold. Returns whether each holds.
    pub fn play_all(&mut self, text: &[u8]) -> bool {
        for line in text.split(|byte| *byte == b'\n') {
            if !is_skipped(line) && !self.play(line) {
                return false;
            }
        }
        true
    }

    /// Plays a line. False if it can't be read, or if what it says doesn't hold.
    pub fn play(&mut self, line: &[u8]) -> bool {
        let (word, text) = first_word(line);
        let held = match self.holds(word, text) {
            Some(holds) => holds,
            None => self.report.is_compared() && self.acts(word, text, line).is_some(),
        };
        held && self.keeps_ports()
    }

    /// Whether what a line says holds. `None` for a line that does something, and for one that can't be read.
    fn holds(&mut self, word: &[u8], text: &[u8]) -> Option<bool> {
        match word {
            b"expect" => Some(self.report.compare(&expected(self.alloc, text)?)),
            b"bytes" => Some(self.report.has_bytes(&bytes_of(self.alloc, text)?)),
            b"picked" => {
                let wanted = ports_of(self.alloc, text)?;
                Some(self.server()?.ports().picked() == wanted.as_slice())
            }
            b"released" => {
                let wanted = ports_of(self.alloc, text)?;
                Some(are_same(self.server()?.ports().released(), &wanted))
            }
            b"disk" => {
                let (at, bytes) = self.placed(text)?;
                let rest = self.server()?.disk().content().get(at..)?;
                Some(rest.starts_with(&bytes))
            }
            _ => None,
        }
    }

    /// What a line that doesn't hold was compared with, as text: the ports or the bytes, else the next line of the report, if there is
    /// one.
    pub fn found(&self, line: &[u8]) -> Option<String> {
        let (word, _) = first_word(line);
        match word {
            b"bytes" => hex::encode(self.alloc, self.report.last_bytes()?).ok(),
            b"picked" => format!(in self.alloc; "{:?}", self.server()?.ports().picked()).ok(),
            b"released" => format!(in self.alloc; "{:?}", self.server()?.ports().released()).ok(),
            _ => String::from_str(self.alloc, self.report.next()?).ok(),
        }
    }

    /// A place and bytes.
    fn placed(&self, text: &[u8]) -> Option<(usize, Vec<u8>)> {
        let (at, word) = first_word(text);
        let at = usize::try_from(number(at)?).ok()?;
        Some((at, bytes_of(self.alloc, word)?))
    }

    /// Does what a line says.
    fn acts(&mut self, word: &[u8], text: &[u8], line: &[u8]) -> Option<()> {
        match word {
            b"new" => *self = Scenario::new(self.alloc, self.inner),
            b"anew" => self.start()?,
            b"failing" => self.open(Opening::WithoutPorts)?,
            b"damage" => {
                let (at, bytes) = self.placed(text)?;
                let disk = self.held.take()?.into_disk();
                self.held = Some(Held::Down(damaged(self.inner, &disk, at, &bytes)?));
                self.open(Opening::Plain)?;
            }
            b"format" => self.format(Version::V2, text)?,
            b"format1" => self.format(Version::V1, text)?,
            _ if self.form.is_none() => self.setup.push(line)?,
            _ => return self.read(line),
        }
        Some(())
    }

    fn format(&mut self, version: Version, text: &[u8]) -> Option<()> {
        self.form = Some((version, number_32(text)?));
        self.start()
    }

    /// Opens a new store, at second 0.
    fn start(&mut self) -> Option<()> {
        let (version, area) = self.form?;
        let disk = self.setup.format(self.inner, version, area)?;
        self.held = Some(Held::Down(disk));
        self.moment = Moment::new(0)?;
        self.nonce = None;
        self.open(Opening::Plain)
    }

    /// Opens the store of the disk.
    fn open(&mut self, opening: Opening) -> Option<()> {
        let disk = self.held.take()?.into_disk();
        let (held, effect) = self.setup.open(self.inner, disk, opening)?;
        self.held = Some(held);
        self.was_empty = match self.server() {
            Some(server) => server.table().is_empty() && server.table().reserved_len() == 0,
            None => false,
        };
        self.report.add(effect).ok()
    }

    /// The datagram of a line, where it has one.
    fn datagram_of(&self, line: &Line<'_>) -> Option<Datagram> {
        let (source, bytes) = match line {
            Line::Raw(client, word) => (Source::Client(*client), bytes_of(self.alloc, word)?),
            Line::Ask(ask) => {
                let nonce = self.nonce.unwrap_or(self.moment);
                (Source::Client(ask.client), self.setup.request(ask, nonce)?)
            }
            Line::Send(client, peer, word) => {
                let payload = bytes_of(self.alloc, word)?;
                let bytes = build_send(self.alloc, *peer, &payload).ok()?;
                (Source::Client(*client), bytes)
            }
            Line::Peer(line) => {
                let source = Source::Peer(line.port, line.from);
                (source, bytes_of(self.alloc, line.hex)?)
            }
            _ => return None,
        };
        Some(Datagram { source, bytes })
    }

    /// The datagram of a line.
    pub fn datagram(&self, line: &[u8]) -> Option<Datagram> {
        match read_line(line) {
            Some(line) => self.datagram_of(&line),
            None => None,
        }
    }

    /// Submits a datagram at the moment, or at the clock if that is later. `None` where no server runs.
    pub fn submit(&mut self, datagram: &Datagram) -> Option<Result<(), SubmitError>> {
        match &mut self.held {
            Some(Held::Serving(server)) => {
                let clock = server.clock();
                let at = if self.moment < clock {
                    clock
                } else {
                    self.moment
                };
                Some(server.submit(at, &datagram.arrival()))
            }
            _ => None,
        }
    }

    /// Submits the datagram of a line, and reports why it was not taken.
    fn arrive(&mut self, line: &Line<'_>) -> Option<()> {
        let datagram = self.datagram_of(line)?;
        match self.submit(&datagram)? {
            Ok(()) => Some(()),
            Err(why) => self.report.add(Effect::Refused(why)).ok(),
        }
    }

    fn commit(&mut self) -> Option<()> {
        let Some(Held::Serving(server)) = &mut self.held else {
            return None;
        };
        match server.commit() {
            Ok(outs) => {
                let count = outs.len();
                for out in outs {
                    self.report.add(Effect::Sent(out)).ok()?;
                }
                self.report.add(Effect::Committed(count)).ok()
            }
            Err(why) => self.report.add(Effect::Failed(why)).ok(),
        }
    }

    fn crash(&mut self, outcome: CrashOutcome) -> Option<()> {
        let mut disk = self.held.take()?.into_disk();
        disk.crash(outcome);
        self.held = Some(Held::Down(disk));
        self.open(Opening::Carrying)
    }

    /// Reports the table at the moment, or that the server is stopped.
    fn table(&mut self) -> Option<()> {
        let mut lines = Vec::new(self.inner);
        let server = self.server()?;
        if server.is_stopped() {
            return self.report.add(Effect::Failed(CommitError::Stopped)).ok();
        }
        put_table(self.inner, server.table(), self.moment, &mut lines).ok()?;
        for line in lines {
            self.report.push(line).ok()?;
        }
        Some(())
    }

    fn fail_call(&self, call: u64) -> Option<()> {
        if call == 0 {
            return None;
        }
        self.server()?.disk().fail_call(call);
        Some(())
    }

    fn read(&mut self, line: &[u8]) -> Option<()> {
        match read_line(line) {
            Some(line) => self.do_line(&line),
            None => None,
        }
    }

    fn do_line(&mut self, line: &Line<'_>) -> Option<()> {
        match line {
            Line::At(moment) => self.moment = *moment,
            Line::Nonce(moment) => self.nonce = Some(*moment),
            Line::Commit => self.commit()?,
            Line::Fail(call) => self.fail_call(*call)?,
            Line::Crash(outcome) => self.crash(*outcome)?,
            Line::Reopen => self.open(Opening::Carrying)?,
            Line::Table => self.table()?,
            Line::Stop(_) | Line::Expect(_) => return None,
            _ => self.arrive(line)?,
        }
        Some(())
    }
}
