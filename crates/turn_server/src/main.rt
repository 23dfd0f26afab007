//! The program `turn`: the words of a command line to text and an exit status.
#![tactic(auto)]

ghost use Rattle.std.specs.Prelude.{◌≡◌, ◌⊎◌, IfErr};
ghost use Rattle.turn_faults.specs.declared.error.ProgramError.TheVariants as faults;

mod sources;

use sources::{SOURCES, TOOLCHAIN};
use std::io::ErrorKind;
use std::process::ExitCode;
use std::{env, io};
use turn_program::{
    LineStream, LogStream, ProgramError, Release, fill_streams, is_server, report, run_words,
};

/// What `turn version` says.
const RELEASE: Release<'static> = Release {
    version: "0.14.0",
    sources: SOURCES,
    toolchain: TOOLCHAIN,
};

/// The words of the command line, the program's name first. A word that isn't UTF-8 is a usage fault.
fn words_of(rt: &HostRuntime) -> Result<Vec<String>, ProgramError>
    ensures { IfErr result (λ fault. (fault ≡ faults.Usage) ⊎ (fault ≡ faults.Memory)) }
{
    match env::args(rt) {
        Ok(words) => Ok(words.collect(rt.alloc())?),
        Err(error) if error.kind() == ErrorKind::OutOfMemory => Err(ProgramError::Memory),
        Err(_) => Err(ProgramError::Usage),
    }
}

fn main(rt: HostRuntime) -> ExitCode {
    // Before anything else is opened.
    fill_streams(&rt);
    let words = words_of(&rt);
    let is_server = match &words {
        Ok(words) => is_server(words.as_slice()),
        Err(_) => false,
    };
    let mut out = LineStream::new(io::writer(&rt), 1, is_server);
    let mut err = LineStream::new(rt.stderr(), 2, is_server);
    let status = match words {
        Ok(words) => {
            run_words(
                &rt,
                &rt,
                RELEASE,
                words.as_slice(),
                &mut out,
                &mut err,
                LogStream::open(&rt),
            )
        }
        Err(fault) => report(fault, &mut err),
    };
    ExitCode::from(status)
}
