//! Files that are read whole.

ghost use Rattle.std.specs.Prelude.{◌≡◌, ◌⊎◌, ◌≤◌, ◌^◌, IfErr, IfOk, vec_len};

use crate::error::ProgramError;
use crate::fault::{Fault, Named};
use std::alloc::{AllocGlobal, Global};
use std::fs::{File, OpenOptions};
use std::io::{self, ErrorKind, Read};
use std::rt::Files;
use turn_disk::open_regular;

/// How many bytes a file of lines may have.
const MAX_FILE: u64 = 16_777_216;

/// What is said of a file that has more.
const TOO_LONG: &str = "more than 16777216 bytes";

/// The name of standard input, of which a scenario may be read whatever it is.
const STANDARD_INPUT: &str = "/dev/stdin";

/// Why a file isn't read.
fn unread(alloc: Global, file: Named<'_>, reason: io::Error) -> Fault
    ensures { (result.kind ≡ ProgramError.Device) ⊎ (result.kind ≡ ProgramError.Memory) }
{
    match reason.kind() {
        ErrorKind::OutOfMemory => Fault::from(ProgramError::Memory),
        _ => Fault::of(alloc, ProgramError::Device, &file, &reason),
    }
}

/// What is left to be read of a file, at most 16,777,216 bytes.
fn read_rest<F: Read + Drop>(alloc: Global, named: Named<'_>, file: F) -> Result<Vec<u8>, Fault>
    ensures bytes { IfOk result (λ bytes. vec_len bytes ≤ 2 ^ 24) }
    ensures fault { IfErr result (λ fault. (fault.kind ≡ ProgramError.Device) ⊎ (fault.kind ≡ ProgramError.Memory)) }
{
    let mut bytes = Vec::new(alloc);
    if let Err(reason) = file.take(MAX_FILE + 1).read_to_end(&mut bytes) {
        return Err(unread(alloc, named, reason));
    }
    if bytes.len() as u64 > MAX_FILE {
        return Err(unread(alloc, named, io::Error::other(TOO_LONG)));
    }
    Ok(bytes)
}

/// The bytes of a regular file. One that can't be opened or read, isn't regular, or has more than 16,777,216 bytes, is a
/// device fault.
pub fn read_whole<R: Files + AllocGlobal>(rt: &R, named: Named<'_>) -> Result<Vec<u8>, Fault>
    ensures bytes { IfOk result (λ bytes. vec_len bytes ≤ 2 ^ 24) }
    ensures fault { IfErr result (λ fault. (fault.kind ≡ ProgramError.Device) ⊎ (fault.kind ≡ ProgramError.Memory)) }
{
    let mut options = OpenOptions::new();
    options.read(true);
    match open_regular(rt, named.word, &options) {
        Ok(file) => read_rest(rt.alloc(), named, file),
        Err(reason) => Err(unread(rt.alloc(), named, reason)),
    }
}

/// The bytes of a scenario: those of a regular file, or of standard input.
pub fn read_scenario<R: Files + AllocGlobal>(rt: &R, named: Named<'_>) -> Result<Vec<u8>, Fault>
    ensures { IfOk result (λ bytes. vec_len bytes ≤ 2 ^ 24) }
{
    if named.word != STANDARD_INPUT {
        return read_whole(rt, named);
    }
    match File::open(rt, named.word) {
        Ok(file) => read_rest(rt.alloc(), named, file),
        Err(reason) => Err(unread(rt.alloc(), named, reason)),
    }
}
