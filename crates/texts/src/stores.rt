//! Disks and stores: what their bytes are after calls, after calls that fail or are stopped, and after changes of bytes.

mod device;
mod readings;
mod report;

use crate::interpreter::Interpreter;
use crate::scene::{Scene, halves};
use crate::words::{bytes, place, word};
use device::{Device, call_number};
use readings::{growths, reading};
use std::alloc::{AllocError, Global};
use turn_disk::{CrashOutcome, Disk};

/// The disk that the lines of a text speak of.
#[derive(Drop)]
pub struct Stores {
    scene: Scene,
    device: Device,
}

fn outcome_of(alloc: Global, text: &[u8]) -> Option<CrashOutcome> {
    match text {
        b"lost" => Some(CrashOutcome::Lost),
        b"kept" => Some(CrashOutcome::Kept),
        b"half" => Some(CrashOutcome::Half),
        _ => Some(CrashOutcome::Fill(*bytes(alloc, text)?.first()?)),
    }
}

const OUTCOMES: [CrashOutcome; 6] = [
    CrashOutcome::Lost,
    CrashOutcome::Kept,
    CrashOutcome::Half,
    CrashOutcome::Fill(0x11),
    CrashOutcome::Fill(0xA5),
    CrashOutcome::Fill(0x00),
];

impl Stores {
    /// Of a text that has not begun.
    pub fn new(alloc: Global) -> Stores {
        let scene = Scene::new(alloc);
        let device = Device::new(&scene, Vec::new(alloc));
        Stores { scene, device }
    }

    /// Makes a call, of which comes what the line says: `CALL is OUTCOME`.
    fn call(&mut self, text: &[u8]) -> Option<bool> {
        let (call, expected) = halves(text)?;
        let report = self.device.call(&self.scene, call)?;
        Some(report.is(&self.scene, expected))
    }

    /// Makes a call on another disk with these bytes.
    fn call_on(&self, bytes: Vec<u8>, text: &[u8]) -> Option<bool> {
        let (call, expected) = halves(text)?;
        let report = Device::new(&self.scene, bytes).call(&self.scene, call)?;
        Some(report.is(&self.scene, expected))
    }

    /// On a disk with other bytes at a place: `changed AT WORD CALL is OUTCOME`.
    fn changed(&self, text: &[u8]) -> Option<bool> {
        let (at, rest) = place(text)?;
        let (part, rest) = word(rest);
        let part = self.scene.bytes(part)?;
        let mut bytes = self.device.content(&self.scene)?;
        let (_, from) = bytes.split_at_mut_checked(at)?;
        let (place, _) = from.split_at_mut_checked(part.len())?;
        place.copy_from_slice(&part);
        self.call_on(bytes, rest)
    }

    /// On a disk with the first bytes alone: `first SIZE CALL is OUTCOME`.
    fn first(&self, text: &[u8]) -> Option<bool> {
        let (size, rest) = place(text)?;
        let bytes = self.device.content(&self.scene)?;
        let bytes = Vec::from_slice(self.scene.alloc, bytes.get(..size)?).ok()?;
        self.call_on(bytes, rest)
    }

    fn copy(&self) -> Option<Device> {
        let bytes = self.device.content(&self.scene)?;
        self.device.copy(&self.scene, bytes)
    }

    /// Stops the disk at a device call of a call, crashes it with an outcome, and opens it.
    fn stop(
        &self,
        call: &[u8],
        at: u64,
        outcome: CrashOutcome,
        expected: &[u8],
        opened: &[u8],
    ) -> Option<bool> {
        let mut copy = self.copy()?;
        copy.stop_at(at)?;
        let report = copy.call(&self.scene, call)?;
        copy.crash(outcome)?;
        let again = copy.call(&self.scene, b"open")?;
        Some(report.is(&self.scene, expected) && again.is(&self.scene, opened))
    }

    /// With each outcome of a crash: `stopped NUMBER CALL is OUTCOME OPENED..`.
    fn stopped(&self, text: &[u8]) -> Option<bool> {
        let (at, rest) = call_number(text)?;
        let (call, expected) = halves(rest)?;
        let (expected, opened) = word(expected);
        let mut words = opened.split(|byte| *byte == b' ');
        for outcome in &OUTCOMES {
            let opened = words.next()?;
            if !self.stop(call, at, *outcome, expected, opened)? {
                return Some(false);
            }
        }
        Some(words.next().is_none())
    }

    /// Stops the disk at a device call of a call. Whether the call failed, for the device; it is what it is said to be else, and
    /// after each outcome of a crash.
    fn is_stopped(&self, call: &[u8], at: u64, expected: &[u8]) -> Option<bool> {
        let mut is_failed = false;
        for outcome in &OUTCOMES {
            let mut copy = self.copy()?;
            copy.stop_at(at)?;
            let report = copy.call(&self.scene, call)?;
            is_failed = report.is_device();
            copy.crash(*outcome)?;
            let again = copy.call(&self.scene, call)?;
            let is_right = is_failed || report.is(&self.scene, expected);
            if !is_right || !again.is(&self.scene, expected) {
                return None;
            }
        }
        Some(is_failed)
    }

    /// Lets a device call of a call fail. Whether it did; the call is made again then.
    fn is_failed(&self, call: &[u8], at: u64, expected: &[u8]) -> Option<bool> {
        let mut copy = self.copy()?;
        copy.fail_call(at)?;
        let report = copy.call(&self.scene, call)?;
        if copy.disk()?.failures() == 0 {
            return report.is(&self.scene, expected).then_some(false);
        }
        let again = copy.call(&self.scene, call)?;
        (report.is_device() && again.is(&self.scene, expected)).then_some(true)
    }

    /// Each device call of a call stops, or fails, in turn, of which there are at least so many: `each_stop COUNT CALL is OUTCOME`.
    fn each(&self, is_stop: bool, text: &[u8]) -> Option<bool> {
        let (least, rest) = call_number(text)?;
        let (call, expected) = halves(rest)?;
        for at in 1..100u64 {
            let fails = if is_stop {
                self.is_stopped(call, at, expected)?
            } else {
                self.is_failed(call, at, expected)?
            };
            if !fails {
                return Some(least < at);
            }
        }
        None
    }

    /// Reads the store, under its own limits or these: `reading own FIRST SECOND is OUTCOME`.
    fn reading(&self, text: &[u8]) -> Option<bool> {
        let (text, expected) = halves(text)?;
        let (under, contents) = word(text);
        let (first, second) = word(contents);
        let (first, second) = (self.scene.bytes(first)?, self.scene.bytes(second)?);
        let limits = match under {
            b"own" => None,
            _ => Some(self.scene.limits),
        };
        let size = self.device.disk()?.size();
        let text = reading(self.scene.alloc, size, &first, &second, limits)?;
        Some(text.as_bytes() == expected)
    }

    /// Each allocation of a reading is refused in turn, of which there are at least so many: `reading_growths COUNT GENERATION`.
    fn reading_growths(&self, text: &[u8]) -> Option<bool> {
        let (least, rest) = call_number(text)?;
        let (generation, _) = call_number(rest)?;
        let content = self.device.content(&self.scene)?;
        Some(least <= growths(self.scene.alloc, &content, generation)?)
    }

    /// Lines that speak of the disk itself.
    fn disk_line(&mut self, name: &[u8], text: &[u8]) -> Option<()> {
        match name {
            b"disk" => {
                let bytes = self.scene.bytes(text)?;
                self.device = Device::new(&self.scene, bytes);
                Some(())
            }
            b"keep" => {
                let bytes = self.device.content(&self.scene)?;
                self.scene.keep(text, bytes)
            }
            b"close" => self.device.close(),
            b"crash" => {
                let outcome = outcome_of(self.scene.alloc, text)?;
                self.device.crash(outcome)
            }
            b"fail" => self.device.fail_call(call_number(text)?.0),
            b"stop" => self.device.stop_at(call_number(text)?.0),
            _ => self.scene.set(name, text),
        }
    }

    fn line(&mut self, line: &[u8]) -> Option<bool> {
        let (name, text) = word(line);
        match name {
            b"holds" => Some(self.device.content(&self.scene)? == self.scene.bytes(text)?),
            b"changed" => self.changed(text),
            b"first" => self.first(text),
            b"stopped" => self.stopped(text),
            b"each_stop" => self.each(true, text),
            b"each_failure" => self.each(false, text),
            b"reading" => self.reading(text),
            b"reading_growths" => self.reading_growths(text),
            _ => match self.disk_line(name, text) {
                Some(()) => Some(true),
                None => self.call(line),
            },
        }
    }
}

impl Interpreter for Stores {
    fn play(&mut self, line: &[u8]) -> Result<bool, AllocError> {
        Ok(self.line(line) == Some(true))
    }
}
