//! Whether a store's path still leads to the file that a server writes to.

ghost use Rattle.std.specs.Prelude.{◌≡◌, IfOk};
ghost use Rattle.turn_service.specs.Watching.{change_between};

use std::alloc::{AllocError, Allocator, Global};
use std::cell::{Cell, RefCell};
use std::fs::{self, File};
use std::io::{self, ErrorKind, Write};
use std::os::unix::fs::MetadataExt;
use std::rt::{Clock, Files};
use std::time::Duration;
use turn_faults::second_now;
use turn_lines::{Known, Lines};
use turn_log::{Log, ShownName};
use turn_notes::{Note, read_ahead};
use turn_serving::Watch;
use turn_step::{Arrival, Outgoing};
use turn_table::Table;
use turn_types::{Endpoint, Moment};

/// After how many seconds a path is looked at again.
const AGAIN: u64 = 10;

/// After how many seconds a fault of it is told again.
const TOLD_AGAIN: u64 = 60;

/// What a path leads to: a file by its device and number, and how many bytes it has.
#[derive(Clone, Copy, Debug, PartialEq, Eq)]
struct Place {
    device: u64,
    number: u64,
    size: u64,
}

fn place_of<R: Files<File = File>>(files: &R, path: &str) -> io::Result<Place> {
    let there = fs::metadata(files, path)?;
    Ok(Place {
        device: there.dev(),
        number: there.ino(),
        size: there.size(),
    })
}

/// Why what is written to a store may be lost at the next start.
#[derive(Clone, Copy, Debug, PartialEq, Eq)]
enum Change {
    /// The path leads to no file.
    Unlinked,
    /// It leads to another file.
    OtherFile,
    /// The file has another size, which this is.
    Size(u64),
}

/// What has changed of a path since a server opened it. Where the system doesn't say, nothing has.
fn change_of(opened: Place, now: io::Result<Place>) -> Option<Change>
    ensures { IfOk now (λ now. result ≡ change_between opened now) }
{
    match now {
        Ok(now) if now.device != opened.device || now.number != opened.number => {
            Some(Change::OtherFile)
        }
        Ok(now) if now.size != opened.size => Some(Change::Size(now.size)),
        Ok(_) => None,
        Err(error) => match error.kind() {
            ErrorKind::NotFound | ErrorKind::NotADirectory => Some(Change::Unlinked),
            _ => None,
        },
    }
}

fn text_of(alloc: Global, path: &str, opened: Place, change: Change) -> Result<String, AllocError> {
    let (path, size) = (ShownName(path.as_bytes()), opened.size);
    match change {
        Change::Unlinked => format!(in alloc; "store {path} is unlinked"),
        Change::OtherFile => format!(in alloc; "store {path} is another file"),
        Change::Size(now) => format!(in alloc; "store {path} has {now} bytes, not {size}"),
    }
}

/// The seconds of the system's time that doesn't go back, or 0 if it tells none.
fn seconds_of<C: Clock>(system: &C) -> u64 {
    match system.monotonic() {
        Ok(time) => time.as_secs(),
        Err(_) => 0,
    }
}

/// What is said of a clock that is ahead.
fn note_text(alloc: Global, note: Note) -> Result<String, AllocError> {
    format!(in alloc; "note: {note}")
}

/// A log that looks at the path of the store too, each ten seconds.
#[derive(Drop)]
pub struct StoreWatch<'l, R: Files<File = File>, C: Clock, L: Write + Drop> {
    alloc: Global,
    files: &'l R,
    system: &'l C,
    path: &'l str,
    log: &'l Log<L>,
    // None without a log.
    lines: Option<RefCell<Lines<'l, L>>>,
    // What the path led to when the server had opened it.
    opened: Cell<Option<Place>>,
    // The second from which on it is looked at again.
    next: Cell<u64>,
    // The second from which on a fault is told again.
    next_told: Cell<u64>,
    // When the system's clock is looked at again, in seconds of its time that doesn't go back.
    next_clock: Cell<u64>,
}

impl<'l, R: Files<File = File>, C: Clock, L: Write + Drop> StoreWatch<'l, R, C, L> {
    /// Of the store at a path, which isn't open yet.
    pub fn new(
        alloc: Global,
        files: &'l R,
        system: &'l C,
        path: &'l str,
        log: &'l Log<L>,
    ) -> StoreWatch<'l, R, C, L> {
        StoreWatch {
            alloc,
            files,
            system,
            path,
            log,
            lines: if log.is_kept() {
                Some(RefCell::new(Lines::new(alloc, log)))
            } else {
                None
            },
            opened: Cell::new(None),
            next: Cell::new(0),
            next_told: Cell::new(0),
            next_clock: Cell::new(seconds_of(system).saturating_add(TOLD_AGAIN)),
        }
    }

    /// The log.
    pub fn log(&self) -> &'l Log<L> {
        self.log
    }

    /// Learns what the lines say of a server that was started at a second, with relay ports from the first to the last.
    pub fn know(&self, known: Known, ports: (u16, u16), second: u64) -> Result<(), AllocError> {
        if let Some(lines) = &self.lines {
            if let Ok(mut lines) = lines.try_borrow_mut() {
                return lines.know(known, ports, second);
            }
        }
        Ok(())
    }

    /// Notes what the path leads to, now that the store is open. Without a log nothing is looked at.
    pub fn begin(&self) {
        if self.log.is_kept() {
            self.opened.set(place_of(self.files, self.path).ok());
        }
    }

    fn tell(&self, second: u64, opened: Place, change: Change) {
        if second < self.next_told.get() {
            return;
        }
        if let Ok(text) = text_of(self.alloc, self.path, opened, change) {
            self.log.say(second, text.as_str());
            self.next_told.set(second.saturating_add(TOLD_AGAIN));
        }
    }

    // Says each minute by how much the server's clock is ahead of the system's, if that is more than a day.
    fn look_at_clock(&self, moment: Moment) {
        let Some(lines) = &self.lines else {
            return;
        };
        let now = seconds_of(self.system);
        if now < self.next_clock.get() {
            return;
        }
        self.next_clock.set(now.saturating_add(TOLD_AGAIN));
        if let Ok(mut lines) = lines.try_borrow_mut() {
            lines.set_ahead(second_now(self.system) < moment.seconds());
        }
        if let Some(note) = read_ahead(self.system, Some(moment)) {
            if let Ok(text) = note_text(self.alloc, note) {
                self.log.say(moment.seconds(), text.as_str());
            }
        }
    }

    fn look(&self, second: u64) {
        let Some(opened) = self.opened.get() else {
            return;
        };
        if second < self.next.get() {
            return;
        }
        self.next.set(second.saturating_add(AGAIN));
        match change_of(opened, place_of(self.files, self.path)) {
            Some(change) => self.tell(second, opened, change),
            None => self.next_told.set(0),
        }
    }
}

impl<'w, 'l, R: Files<File = File>, C: Clock, L: Write + Drop> Watch
    for &'w StoreWatch<'l, R, C, L> {
    fn taking<A: Allocator + Copy>(&self, moment: Moment, table: &Table<A>) {
        self.look(moment.seconds());
        self.look_at_clock(moment);
        if let Some(lines) = &self.lines {
            if let Ok(mut lines) = lines.try_borrow_mut() {
                lines.look(moment, table);
            }
        }
    }

    fn answered<A: Allocator + Copy>(
        &self,
        table: &Table<A>,
        arrival: &Arrival<'_>,
        answer: Option<&Outgoing<A>>,
    ) {
        if let Some(lines) = &self.lines {
            if let Ok(mut lines) = lines.try_borrow_mut() {
                lines.see_answered(table, arrival, answer);
            }
        }
    }

    fn submitted<A: Allocator + Copy>(&self, table: &Table<A>, arrival: &Arrival<'_>) {
        if let Some(lines) = &self.lines {
            if let Ok(mut lines) = lines.try_borrow_mut() {
                lines.see_submitted(table, arrival);
            }
        }
    }

    fn sent<A: Allocator + Copy>(
        &self,
        moment: Moment,
        table: &Table<A>,
        outgoing: &[Outgoing<A>],
    ) {
        if let Some(lines) = &self.lines {
            if let Ok(mut lines) = lines.try_borrow_mut() {
                lines.see(moment, table, outgoing);
            }
        }
    }

    fn unsent<A: Allocator + Copy>(
        &self,
        table: &Table<A>,
        outgoing: &Outgoing<A>,
        reason: io::Error,
    ) {
        if let Some(lines) = &self.lines {
            if let Ok(mut lines) = lines.try_borrow_mut() {
                lines.count_unsent(table, outgoing, reason);
            }
        }
    }

    fn lost<A: Allocator + Copy>(&self, table: &Table<A>, port: u16, to: Endpoint) {
        if let Some(lines) = &self.lines {
            if let Ok(mut lines) = lines.try_borrow_mut() {
                lines.note_lost(table, port, to);
            }
        }
    }

    fn exhausted(&self, moment: Moment, number: i32) {
        if let Some(lines) = &self.lines {
            if let Ok(mut lines) = lines.try_borrow_mut() {
                lines.note_exhausted(moment, number);
            }
        }
    }

    fn shed(&self, moment: Moment) {
        if let Some(lines) = &self.lines {
            if let Ok(mut lines) = lines.try_borrow_mut() {
                lines.count_dropped(moment);
            }
        }
    }

    fn committed(&self, moment: Moment, took: Duration) {
        if let Some(lines) = &self.lines {
            if let Ok(mut lines) = lines.try_borrow_mut() {
                lines.note_commit(moment, took);
            }
        }
    }
}
