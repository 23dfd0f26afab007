//! `turn help`.

use std::alloc::{AllocError, Global};
use std::io::Write;
use turn_cli::{SYNOPSES, Synopsis, line_of};
use turn_faults::{Fault, print_line, print_lines};

fn lines_of(alloc: Global, synopses: &[Synopsis]) -> Result<Vec<String>, AllocError> {
    let mut lines = Vec::new(alloc);
    for synopsis in synopses {
        lines.push(line_of(alloc, synopsis)?)?;
    }
    Ok(lines)
}

/// Prints how a command is called, or each one.
pub fn run_help<W: Write>(
    alloc: Global,
    synopsis: Option<&Synopsis>,
    out: &mut W,
) -> Result<(), Fault> {
    match synopsis {
        Some(synopsis) => print_line(&line_of(alloc, synopsis)?, out),
        None => print_lines(alloc, &lines_of(alloc, &SYNOPSES)?, out),
    }
}
