//! Scenarios, each with its report.
//!
//! - `before LINE`: a line with which each scenario begins from here on.
//! - `report LINE`: what each scenario reports from here on, one line, or nothing. `and LINE`: one line more.
//! - `"TEXT"`: a scenario, after the lines before it. `configuration "TEXT"`: a whole configuration, by itself.
//!
//! In a TEXT `\n`, `\r`, `\t` and `\xHH` are bytes, and `\*COUNT*PART*` is a part so many times.

use crate::interpreter::Interpreter;
use std::alloc::{AllocError, Global};
use turn_config::read_config;
use turn_scenario::{Report, replay};

/// The scenarios of a text so far.
#[derive(Drop)]
pub struct Reports {
    alloc: Global,
    before: String,
    report: String,
    found: Option<String>,
}

fn put_repeated(all: &mut Vec<u8>, text: &[u8]) -> Option<()> {
    let (count, rest) = str::from_utf8(text).ok()?.split_once('*')?;
    let (part, rest) = rest.split_once('*')?;
    for _ in 0..count.parse::<u32>().ok()? {
        all.extend_from_slice(part.as_bytes()).ok()?;
    }
    all.extend_from_slice(rest.as_bytes()).ok()
}

/// Adds what follows a backslash.
fn put_escape(alloc: Global, all: &mut Vec<u8>, text: &[u8]) -> Option<()> {
    let (byte, rest) = match text {
        [b'n', rest @ ..] => (b'\n', rest),
        [b'r', rest @ ..] => (b'\r', rest),
        [b't', rest @ ..] => (b'\t', rest),
        [b'x', high, low, rest @ ..] => {
            let digits = [*high, *low];
            (*hex::decode(alloc, &digits).ok()?.first()?, rest)
        }
        [b'*', rest @ ..] => return put_repeated(all, rest),
        _ => return None,
    };
    all.push(byte).ok()?;
    all.extend_from_slice(rest).ok()
}

fn quoted(alloc: Global, text: &[u8]) -> Option<Vec<u8>> {
    let [b'"', text @ .., b'"'] = text else {
        return None;
    };
    let mut all = Vec::new(alloc);
    for (place, part) in text.split(|byte| *byte == b'\\').enumerate() {
        if place == 0 {
            all.extend_from_slice(part).ok()?;
        } else {
            put_escape(alloc, &mut all, part)?;
        }
    }
    Some(all)
}

fn put_line(text: &mut String, line: &str) -> Option<()> {
    text.push_str(line).ok()?;
    text.push_str("\n").ok()
}

/// The lines of a report, each with a newline.
fn text_of(alloc: Global, report: &Report) -> Option<String> {
    let mut text = String::new(alloc);
    for line in &report.lines {
        put_line(&mut text, line)?;
    }
    Some(text)
}

impl Reports {
    /// No lines before, and an empty report.
    pub fn new(alloc: Global) -> Reports {
        Reports {
            alloc,
            before: String::new(alloc),
            report: String::new(alloc),
            found: None,
        }
    }

    /// Whether the report is this one.
    fn is_report(&mut self, found: String) -> bool {
        let holds = found.as_str() == self.report.as_str();
        self.found = Some(found);
        holds
    }

    fn has_report(&mut self, lines: &[u8]) -> Option<bool> {
        let mut scenario = Vec::from_slice(self.alloc, self.before.as_bytes()).ok()?;
        scenario.extend_from_slice(lines).ok()?;
        let found = match replay(self.alloc, &scenario) {
            Ok(report) => text_of(self.alloc, &report)?,
            Err(fault) => format!(in self.alloc; "{fault}\n").ok()?,
        };
        Some(self.is_report(found))
    }

    fn is_refused(&mut self, text: &[u8]) -> Option<bool> {
        let fault = read_config(self.alloc, text).err()?;
        let found = format!(in self.alloc; "{fault}\n").ok()?;
        Some(self.is_report(found))
    }

    fn set(&mut self, line: &str) -> Option<()> {
        if let Some(line) = line.strip_prefix("before ") {
            return put_line(&mut self.before, line);
        }
        if let Some(line) = line.strip_prefix("and ") {
            return put_line(&mut self.report, line);
        }
        self.report = String::new(self.alloc);
        match line.strip_prefix("report")?.strip_prefix(' ') {
            Some(line) => put_line(&mut self.report, line),
            None => Some(()),
        }
    }

    fn plays(&mut self, line: &[u8]) -> Option<bool> {
        self.found = None;
        if let Some(text) = line.strip_prefix(b"configuration ") {
            return self.is_refused(&quoted(self.alloc, text)?);
        }
        if let Some(lines) = quoted(self.alloc, line) {
            return self.has_report(&lines);
        }
        self.set(str::from_utf8(line).ok()?)?;
        Some(true)
    }
}

impl Interpreter for Reports {
    fn play(&mut self, line: &[u8]) -> Result<bool, AllocError> {
        Ok(self.plays(line) == Some(true))
    }

    fn found(&mut self) -> Option<String> {
        self.found.take()
    }
}
