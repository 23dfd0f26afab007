//! What is printed on standard output.

ghost use Rattle.std.specs.Prelude.{◌≡◌, IfErr};

use crate::error::ProgramError;
use crate::fault::{Fault, Said};
use std::alloc::{AllocError, Global};
use std::io::{self, Write};

/// That standard output took no more.
fn refused(reason: io::Error) -> Fault
    ensures { result.kind ≡ ProgramError.Device }
{
    Fault {
        kind: ProgramError::Device,
        said: Said::Output(reason),
    }
}

/// Writes a text, and flushes.
fn print_text<W: Write>(text: &str, out: &mut W) -> io::Result<()> {
    out.write_all(text.as_bytes())?;
    out.flush()
}

/// Writes a line and a newline, and flushes.
pub fn print_line<W: Write>(line: &str, out: &mut W) -> Result<(), Fault>
    ensures { IfErr result (λ fault. fault.kind ≡ ProgramError.Device) }
{
    writeln!(out, "{line}").map_err(refused)?;
    out.flush().map_err(refused)
}

/// The lines, each with a newline.
fn text_of(alloc: Global, lines: &[String]) -> Result<String, AllocError> {
    let mut text = String::new(alloc);
    for line in lines {
        text.push_str(line)?;
        text.push_str("\n")?;
    }
    Ok(text)
}

/// Prints the lines, all of them at once.
pub fn print_lines<W: Write>(alloc: Global, lines: &[String], out: &mut W) -> Result<(), Fault> {
    let text = text_of(alloc, lines)?;
    print_text(&text, out).map_err(refused)
}
