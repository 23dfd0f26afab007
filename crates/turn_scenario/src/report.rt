//! The report of a scenario.

use std::alloc::{AllocError, Allocator, Global};

/// The lines of a report, without their newlines.
#[derive(Drop)]
pub struct Report<A: Allocator = Global> {
    /// In their order.
    pub lines: Vec<String<A>, A>,
}

/// A report that is being written. `expect` lines compare its lines in order.
#[derive(Drop)]
pub(crate) struct Lines<A: Allocator = Global> {
    report: Report<A>,
    compared: usize,
}

impl<A: Allocator + Copy> Lines<A> {
    pub(crate) fn new(alloc: A) -> Lines<A> {
        Lines {
            report: Report {
                lines: Vec::new(alloc),
            },
            compared: 0,
        }
    }

    pub(crate) fn push(&mut self, line: String<A>) -> Result<(), AllocError> {
        self.report.lines.push(line)?;
        Ok(())
    }

    /// The lines, to which others may be added.
    pub(crate) fn all(&mut self) -> &mut Vec<String<A>, A> {
        &mut self.report.lines
    }

    /// Whether the next line that was not compared is this text. From then on that line was compared.
    pub(crate) fn compare(&mut self, text: &[u8]) -> bool {
        match self.report.lines.get(self.compared) {
            Some(line) if line.as_bytes() == text => {
                self.compared = self.compared.wrapping_add(1);
                true
            }
            _ => false,
        }
    }

    pub(crate) fn into_report(self) -> Report<A> {
        self.report
    }
}
