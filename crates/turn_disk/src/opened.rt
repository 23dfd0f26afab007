//! How the file of a disk is opened.

ghost use Rattle.std.specs.Fd.{file_raw_fd};
ghost use Rattle.std.specs.Prelude.{◌≡◌, ◌≤ℤ◌, ◌↔◌, pos, IfErr, IfOk, IsTrue};
ghost use Rattle.turn_disk.specs.Files.{IsOfDevice};
ghost use Rattle.turn_disk.specs.declared.opened.FileError.TheVariants.{Device};

use std::fs::{self, File, Files, OpenOptions, TryLockError};
use std::io::{self, ErrorKind};
use std::os::fd::{AsRawFd, RawFd};
use thiserror::Error;

/// What stands in place of the system's number where something else than a regular file has the name.
const NOT_REGULAR: &str = "not a regular file";

/// The same where the file would have the descriptor of a standard stream.
const STANDARD_STREAM: &str = "it would be a standard stream";

/// Why a file isn't opened as a disk.
#[derive(Clone, Copy, Debug, Error)]
pub enum FileError {
    /// The file's lock is held by whoever has it open as a disk to write to.
    #[error("the file is in use")]
    InUse,
    /// The file can't be made, opened or locked, isn't a regular file, or would have the descriptor of a standard stream: the system's
    /// reason, or one in words.
    #[error("{0}")]
    Device(io::Error),
}

impl From<io::Error> for FileError {
    ghost from_gives = { λ reason refused. refused ≡ Device reason };

    fn from(reason: io::Error) -> FileError {
        FileError::Device(reason)
    }
}

/// For programs that report errors of files alone, as the standard library has it for a lock.
impl From<FileError> for io::Error {
    fn from(refused: FileError) -> io::Error {
        match refused {
            FileError::InUse => io::Error::from(ErrorKind::WouldBlock),
            FileError::Device(reason) => reason,
        }
    }
}

/// Whether a descriptor is none of standard input, output and error. What is printed would be written into a file that has
/// one of these.
pub fn is_apart(descriptor: RawFd) -> bool
    ensures { IsTrue result ↔ (pos 3 ≤ℤ descriptor) }
{
    descriptor >= 3
}

/// Opens a file, unless something else than a regular file has its name: a folder, or a FIFO or a device, which may block or
/// have no end.
pub fn open_regular<R: Files>(files: &R, path: &str, options: &OpenOptions) -> io::Result<R::File> {
    match fs::metadata(files, path) {
        Ok(there) if !there.is_file() => Err(io::Error::new(ErrorKind::InvalidInput, NOT_REGULAR)),
        _ => options.open(files, path),
    }
}

/// Whether a symbolic link has the name.
pub fn is_link<R: Files>(files: &R, path: &str) -> bool {
    matches!(fs::symlink_metadata(files, path), Ok(there) if there.file_type().is_symlink())
}

/// Opens a regular file whose descriptor is none of a standard stream.
pub fn open_apart<R: Files<File = File>>(
    files: &R,
    path: &str,
    options: &OpenOptions,
) -> Result<File, FileError>
    ensures apart { IfOk result (λ file. pos 3 ≤ℤ file_raw_fd file) }
    ensures device { IfErr result IsOfDevice }
{
    let file = open_regular(files, path, options)?;
    if !is_apart(file.as_raw_fd()) {
        return Err(FileError::from(io::Error::other(STANDARD_STREAM)));
    }
    Ok(file)
}

/// Takes the lock of a file, which lasts as long as the file is open.
pub fn lock(file: &File) -> Result<(), FileError> {
    match file.try_lock() {
        Ok(()) => Ok(()),
        Err(TryLockError::WouldBlock) => Err(FileError::InUse),
        Err(TryLockError::Error(reason)) => Err(FileError::Device(reason)),
    }
}
