//! A fault with what a log says of it.

ghost use Rattle.std.specs.Prelude.{◌≡◌};
ghost use Rattle.turn_disk.specs.declared.opened.FileError.{FileError};
ghost use Rattle.turn_faults.specs.Faults.{of_file};
ghost use Rattle.turn_faults.specs.declared.error.ProgramError.TheVariants as faults;

use crate::error::ProgramError;
use std::alloc::{AllocError, Global};
use std::{fmt, io};
use turn_disk::{Disk, FileError};
use turn_log::ShownName;

/// A file or an export that the words of a command name.
#[derive(Clone, Copy)]
pub struct Named<'a> {
    what: &'static str,
    /// The word: the file's path, or the export's URI.
    pub word: &'a str,
}

impl<'a> Named<'a> {
    /// The configuration in a file.
    pub fn config(word: &'a str) -> Named<'a> {
        Named {
            what: "config",
            word,
        }
    }

    /// The scenario in a file.
    pub fn scenario(word: &'a str) -> Named<'a> {
        Named {
            what: "scenario",
            word,
        }
    }

    /// The password in a file.
    pub fn password(word: &'a str) -> Named<'a> {
        Named {
            what: "password",
            word,
        }
    }

    /// The store in a file or an export.
    pub fn store(word: &'a str) -> Named<'a> {
        Named {
            what: "store",
            word,
        }
    }
}

impl fmt::Display for Named<'_> {
    fn fmt<W: fmt::Write>(&self, f: &mut fmt::Formatter<W>) -> fmt::Result {
        let (what, name) = (self.what, ShownName(self.word.as_bytes()));
        write!(f, "{what} {name}")
    }
}

/// What a log says of a fault, before the fault's own line.
#[derive(Debug, Drop)]
pub enum Said {
    /// Nothing.
    Nothing,
    /// That standard output took no more, and why.
    Output(io::Error),
    /// A line.
    Line(String),
}

/// Why a command ended without its answer, with what a log says of it.
#[derive(Debug, Drop)]
pub struct Fault {
    /// The fault, by which the exit status goes.
    pub kind: ProgramError,
    /// What a log says of it.
    pub said: Said,
}

impl From<ProgramError> for Fault {
    ghost from_gives = { λ kind fault. fault.kind ≡ kind };

    fn from(kind: ProgramError) -> Fault {
        Fault {
            kind,
            said: Said::Nothing,
        }
    }
}

impl From<AllocError> for Fault {
    ghost from_gives = { λ _ fault. fault.kind ≡ faults.Memory };

    fn from(_error: AllocError) -> Fault {
        Fault::from(ProgramError::Memory)
    }
}

impl Fault {
    /// A fault of which a log has this line, unless there is no memory for it.
    pub fn saying(kind: ProgramError, line: Result<String, AllocError>) -> Fault
        ensures { result.kind ≡ kind }
    {
        match line {
            Ok(line) => Fault {
                kind,
                said: Said::Line(line),
            },
            Err(_) => Fault::from(kind),
        }
    }

    /// A fault of something, and why.
    pub fn of<T: fmt::Display, U: fmt::Display>(
        alloc: Global,
        kind: ProgramError,
        what: &T,
        why: &U,
    ) -> Fault
        ensures { result.kind ≡ kind }
    {
        Fault::saying(kind, format!(in alloc; "{what}: {why}"))
    }

    /// A fault of something, for which nothing gave a reason.
    pub fn about<T: fmt::Display>(alloc: Global, kind: ProgramError, what: &T) -> Fault
        ensures { result.kind ≡ kind }
    {
        Fault::saying(kind, format!(in alloc; "{what}"))
    }

    /// A file that isn't opened.
    pub fn of_file(alloc: Global, file: Named<'_>, refused: FileError) -> Fault
        ensures { result.kind ≡ of_file refused }
    {
        let kind = ProgramError::from(refused);
        match refused {
            FileError::InUse => Fault::about(alloc, kind, &file),
            FileError::Device(reason) => Fault::of(alloc, kind, &file, &reason),
        }
    }

    /// A fault of the store on a disk, with the device call that failed first, if one did.
    pub fn of_disk<D: Disk>(alloc: Global, store: Named<'_>, kind: ProgramError, disk: &D) -> Fault
        ensures { result.kind ≡ kind }
    {
        match disk.failed_call() {
            Some(failed) => Fault::of(alloc, kind, &store, &failed),
            None => Fault::about(alloc, kind, &store),
        }
    }
}
