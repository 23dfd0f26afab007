//! `turn version`.

use std::alloc::{AllocError, Global};
use std::io::Write;
use turn_faults::{Fault, print_lines};

/// What a program is made from.
#[derive(Clone, Copy)]
pub struct Release<'a> {
    /// The program's version, as `0.1.0`.
    pub version: &'a str,
    /// The digest of its sources, in hex.
    pub sources: &'a str,
    /// The toolchain that it is built by, as that names itself.
    pub toolchain: &'a str,
}

fn lines_of(alloc: Global, release: Release<'_>) -> Result<Vec<String>, AllocError> {
    let Release {
        version,
        sources,
        toolchain,
    } = release;
    let mut lines = Vec::new(alloc);
    lines.push(format!(in alloc; "turn {version}")?)?;
    lines.push(format!(in alloc; "sources {sources}")?)?;
    lines.push(format!(in alloc; "toolchain {toolchain}")?)?;
    Ok(lines)
}

/// Prints what the program is made from.
pub fn run_version<W: Write>(
    alloc: Global,
    release: Release<'_>,
    out: &mut W,
) -> Result<(), Fault> {
    print_lines(alloc, &lines_of(alloc, release)?, out)
}
