//! A whole scenario.

use crate::error::{LineError, ScenarioError};
use crate::report::{Lines, Report};
use crate::running::Running;
use std::alloc::{Allocator, Global};
use std::mem;
use turn_config::values::{number_32, split_once};
use turn_config::{ConfigLines, is_skipped};
use turn_record::Version;

/// How far a scenario is.
#[derive(Drop)]
enum Stage<'a, A: Allocator = Global> {
    /// Before the line `format` or `format1`.
    Configuring(ConfigLines<'a, A>),
    Running(Running<'a, A>),
}

/// A scenario whose lines are taken in order.
#[derive(Drop)]
struct Scenario<'a, A: Allocator = Global> {
    alloc: A,
    stage: Stage<'a, A>,
}

/// The version of a store and the size of its areas, where a line is `format` or `format1` with one.
fn format_line(line: &[u8]) -> Option<(Version, &[u8])> {
    match split_once(line, b' ') {
        Some((b"format", size)) => Some((Version::V2, size)),
        Some((b"format1", size)) => Some((Version::V1, size)),
        _ => None,
    }
}

/// The scenario after its `format` or `format1` line. A needed line that is missing makes that line bad.
fn start<'a, A: Allocator + Copy>(
    alloc: A,
    lines: ConfigLines<'a, A>,
    version: Version,
    size: &[u8],
) -> Result<Stage<'a, A>, LineError> {
    let area = number_32(size).ok_or(LineError::Bad)?;
    let configured = lines.finish()?.ok_or(LineError::Bad)?;
    Ok(Stage::Running(Running::start(alloc, configured, version, area)?))
}

fn configure<'a, A: Allocator + Copy>(
    alloc: A,
    lines: &mut ConfigLines<'a, A>,
    line: &'a [u8],
) -> Result<Option<Stage<'a, A>>, LineError> {
    if let Some((version, size)) = format_line(line) {
        let lines = mem::replace(lines, ConfigLines::new(alloc));
        return Ok(Some(start(alloc, lines, version, size)?));
    }
    if lines.take(line)? {
        Ok(None)
    } else {
        Err(LineError::Bad)
    }
}

impl<'a, A: Allocator + Copy> Scenario<'a, A> {
    fn take(&mut self, line: &'a [u8]) -> Result<(), LineError> {
        let next = match &mut self.stage {
            Stage::Running(running) => return running.take(line),
            Stage::Configuring(lines) => configure(self.alloc, lines, line)?,
        };
        if let Some(stage) = next {
            self.stage = stage;
        }
        Ok(())
    }

    /// The report of a scenario whose lines were all taken: empty before `format` or `format1`.
    fn into_report(self) -> Report<A> {
        let Scenario { alloc, stage } = self;
        match stage {
            Stage::Running(running) => running.into_report(),
            Stage::Configuring(_lines) => Lines::new(alloc).into_report(),
        }
    }
}

/// Runs a scenario over a disk in memory and returns its report. Lines are checked and done one after the other, so those
/// after a fault are not read.
///
/// ```rust
/// let settings = "realm example.org\nsecret 0000000000000000000000000000000000000000000000000000000000000000\nlisten 192.0.2.100:3478\nrelay 198.51.100.1 50000 50009";
/// let report = replay(alloc, format!(in alloc; "{settings}\nformat 1600000\nexpect opened clock 0\n")?.as_bytes())?;
/// assert_eq!(rt; report.lines[0].as_str(), "opened clock 0");
/// let refused = replay(alloc, b"realm example.org\nquota 0\n");
/// assert!(rt; matches!(refused, Err(ScenarioError::BadLine(2))));
/// ```
pub fn replay<A: Allocator + Copy>(alloc: A, text: &[u8]) -> Result<Report<A>, ScenarioError> {
    let mut scenario = Scenario {
        alloc,
        stage: Stage::Configuring(ConfigLines::new(alloc)),
    };
    let mut number = 0u64;
    for line in text.split(|byte| *byte == b'\n') {
        number = number.wrapping_add(1);
        if !is_skipped(line) {
            scenario.take(line).map_err(|fault| fault.at(number))?;
        }
    }
    Ok(scenario.into_report())
}
