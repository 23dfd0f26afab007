//! Acts, payloads and snapshots: what their bytes are read as.

mod reads;
mod tables;

use crate::interpreter::Interpreter;
use crate::scene::{Scene, halves};
use crate::words::{place, word};
use failing_alloc::FailingAlloc;
use reads::{Kind, again, error_word, read_each};
use std::alloc::{AllocError, Global};
use tables::table_text;
use test_stores::SnapshotTable;
use turn_record::{ReadError, max_payload, max_snapshot, read_snapshot};

/// The record whose bytes the next lines change, and the text of its table.
#[derive(Drop)]
pub struct Records {
    scene: Scene,
    kind: Kind,
    record: Vec<u8>,
    table: Vec<u8>,
}

/// The text with what is after `>` in place of what is before it, where that first is.
fn changed(alloc: Global, text: &[u8], change: &[u8]) -> Option<Vec<u8>> {
    let at = change.iter().position(|byte| *byte == b'>')?;
    let (old, new) = (&change[..at], &change[at + 1..]);
    if old.is_empty() {
        return Vec::from_slice(alloc, text).ok();
    }
    let from = text.windows(old.len().max(1)).position(|part| part == old)?;
    let mut all = Vec::from_slice(alloc, text.get(..from)?).ok()?;
    all.extend_from_slice(new).ok()?;
    all.extend_from_slice(text.get(from.wrapping_add(old.len())..)?)
        .ok()?;
    Some(all)
}

impl Records {
    /// Of a text that has not begun.
    pub fn new(alloc: Global) -> Records {
        Records {
            scene: Scene::new(alloc),
            kind: Kind::Snapshot,
            record: Vec::new(alloc),
            table: Vec::new(alloc),
        }
    }

    fn begin(&mut self, kind: Kind, words: &[u8]) -> Option<bool> {
        self.kind = kind;
        self.record = self.scene.bytes(words)?;
        Some(true)
    }

    /// The fault of bytes, or `good` if they are written again as they are.
    fn outcome(&self, bytes: &[u8]) -> &'static str {
        let scene = &self.scene;
        match again(self.kind, scene.alloc, scene.version, scene.limits, bytes) {
            Ok(written) if written.as_slice() == bytes => "good",
            Ok(_) => "other",
            Err(error) => error_word(error),
        }
    }

    /// Whether a fault is found with the last byte of its field, and not before.
    fn ends_at(&self, bytes: &[u8], fault: &[u8], end: usize) -> Option<bool> {
        let before = if fault == b"trailing".as_slice() {
            "good"
        } else {
            "short"
        };
        let is_short = self.outcome(bytes.get(..end.checked_sub(1)?)?) == before;
        Some(is_short && self.outcome(bytes.get(..end)?).as_bytes() == fault)
    }

    fn has_fault(&self, bytes: &[u8], text: &[u8]) -> Option<bool> {
        let (fault, end) = word(text);
        let is_whole = self.outcome(bytes).as_bytes() == fault;
        if end.is_empty() {
            return Some(is_whole);
        }
        let (end, _) = place(end)?;
        Some(is_whole && self.ends_at(bytes, fault, end)? && self.is_refused_at(bytes, fault, end))
    }

    /// Whether a reader that gets a snapshot's bytes one by one refuses the one that ends the field.
    fn is_refused_at(&self, bytes: &[u8], fault: &[u8], end: usize) -> bool {
        let scene = &self.scene;
        if self.kind != Kind::Snapshot {
            return true;
        }
        match read_each(scene.alloc, scene.version, scene.limits, bytes) {
            (count, Err(error)) => count == end && error_word(error).as_bytes() == fault,
            _ => false,
        }
    }

    /// Whether a snapshot is read as this table, whole and byte by byte.
    fn has_table(&self, bytes: &[u8], expected: &[u8]) -> Option<bool> {
        let scene = &self.scene;
        let whole = read_snapshot(scene.alloc, scene.version, scene.limits, bytes).ok()?;
        let (_, each) = read_each(scene.alloc, scene.version, scene.limits, bytes);
        let whole = table_text(scene.alloc, &whole).ok()?;
        let each = table_text(scene.alloc, &each.ok()?).ok()?;
        let is_both = whole.as_bytes() == expected && each.as_bytes() == expected;
        Some(is_both && self.outcome(bytes) == "good")
    }

    fn row(&self, text: &[u8]) -> Option<bool> {
        let (bytes, rest) = self.scene.replaced(&self.record, text)?;
        match word(rest) {
            (b"is", fault) => self.has_fault(&bytes, fault),
            (b"has", change) => {
                let table = changed(self.scene.alloc, &self.table, change)?;
                self.has_table(&bytes, &table)
            }
            _ => None,
        }
    }

    fn prefixes(&self) -> bool {
        for size in 0..self.record.len() {
            if self.outcome(&self.record[..size]) != "short" {
                return false;
            }
        }
        true
    }

    /// Whether some growth was refused, which is then what is answered. Without one the record is read. Nothing, if it isn't so.
    fn is_refused(&self, served: u64) -> Option<bool> {
        let (version, limits) = (self.scene.version, self.scene.limits);
        let refusing = FailingAlloc::new(self.scene.alloc, served);
        let outcome = again(self.kind, &refusing, version, limits, &self.record);
        match (refusing.has_refused(), outcome) {
            (true, Err(ReadError::Memory)) => Some(true),
            (false, Ok(written)) => (written.as_slice() == self.record.as_slice()).then_some(false),
            _ => None,
        }
    }

    /// The same of a reader that gets a snapshot byte by byte.
    fn is_refused_each(&self, served: u64) -> Option<bool> {
        let (version, limits) = (self.scene.version, self.scene.limits);
        if self.kind != Kind::Snapshot {
            return Some(false);
        }
        let refusing = FailingAlloc::new(self.scene.alloc, served);
        let (_, outcome) = read_each(&refusing, version, limits, &self.record);
        match (refusing.has_refused(), outcome) {
            (true, Err(ReadError::Memory)) => Some(true),
            (false, Ok(_)) => Some(false),
            _ => None,
        }
    }

    fn growths(&self) -> Option<bool> {
        for served in 0..1000 {
            let is_refused = self.is_refused(served)?;
            let is_refused_each = self.is_refused_each(served)?;
            if !is_refused && !is_refused_each {
                return Some(1 < served);
            }
        }
        None
    }

    /// Whether a snapshot is the table's after acts: `FIRST ACT.. is LAST`.
    fn acts(&self, text: &[u8]) -> Option<bool> {
        let scene = &self.scene;
        let (words, last) = halves(text)?;
        let (first, entries) = word(words);
        let first = scene.bytes(first)?;
        let mut table = SnapshotTable::read(scene.alloc, scene.version, scene.limits, &first).ok()?;
        for entry in entries.split(|byte| *byte == b' ') {
            let entry = scene.bytes(entry)?;
            if !table.play(scene.alloc, &entry).ok()? {
                return None;
            }
        }
        let last = scene.bytes(last)?;
        let whole = table.snapshot(scene.alloc).ok()??;
        let pieces = table.pieces(scene.alloc).ok()?;
        Some(whole == last && pieces == last)
    }

    fn line(&mut self, line: &[u8]) -> Option<bool> {
        let (name, text) = word(line);
        let (version, limits) = (self.scene.version, self.scene.limits);
        match name {
            b"act" => self.begin(Kind::Act, text),
            b"payload" => self.begin(Kind::Payload, text),
            b"snapshot" => self.begin(Kind::Snapshot, text),
            b"table" => {
                self.table = Vec::from_slice(self.scene.alloc, text).ok()?;
                Some(true)
            }
            b"row" => self.row(text),
            b"prefixes" => Some(self.prefixes()),
            b"growths" => self.growths(),
            b"acts" => self.acts(text),
            b"max_snapshot" => Some(place(text)?.0 == max_snapshot(version, limits)),
            b"max_payload" => Some(place(text)?.0 == max_payload(version, limits)),
            _ => self.scene.set(name, text).map(|()| true),
        }
    }
}

impl Interpreter for Records {
    fn play(&mut self, line: &[u8]) -> Result<bool, AllocError> {
        Ok(self.line(line) == Some(true))
    }
}
