//! A disk over a file. It follows the crash model as long as the answers are those of a file that keeps what was written.

ghost use Rattle.std.specs.Prelude.{◌≡◌, [], IfErr, IfOk, length};
ghost use Rattle.turn_disk.specs.Calls.{FollowCrashModel, replay};
ghost use Rattle.turn_disk.specs.Files.{IsOfDevice};

use crate::disk::{DeviceError, Disk};
use crate::failures::{DeviceCall, FailedCall, Failures};
use crate::meanwhile::Meanwhile;
use crate::opened::{FileError, is_link, lock, open_apart};
use crate::record::{CallRecord, READ, SYNC, WRITE};
use crate::start::{Start, Unknown};
use std::fs::{File, Files, OpenFile, OpenOptions};
use std::io;
use std::marker::{Model, PhantomData};
use std::os::unix::fs::{FileExt, OpenOptionsExt};

/// The permissions of a new file: its owner reads and writes it.
const OWNER_ALONE: u32 = 0o600;

/// Why no file is made where a symbolic link has the name.
const LINK: &str = "a symbolic link";

/// A disk over a file, as large as the file is when it is opened.
///
/// Reads and writes continue after a short count or an interruption; each other error is a failed call.
///
/// `S` stands for the state that the file was found in. Clauses on its content have the premise that the answers so far, of reads above
/// all, were those of a file in this state, which kept what was written, and which nothing else wrote.
#[derive(Drop)]
pub struct FileDisk<F: FileExt + OpenFile = File, S: Start = Unknown> {
    file: F,
    size: usize,
    failures: Failures,
    calls: CallRecord,
    start: PhantomData<S>,
}

impl<F: FileExt + OpenFile, S: Start> Model for FileDisk<F, S> {
    ghost use Rattle.turn_disk.specs.Views.{InFile};

    ghost Value = { InFile };

    ghost view = { λ d. record { size = d.size; failures = d.failures; events = d.calls.events } };
}

impl<F: FileExt + OpenFile> FileDisk<F> {
    /// A disk of the first `size` bytes of a file.
    pub fn new(file: F, size: usize) -> FileDisk<F>
        ensures { result ≡ record { size = size; failures = 0; events = [] } }
    {
        FileDisk {
            file,
            size,
            failures: Failures::none(),
            calls: CallRecord::new(),
            start: PhantomData,
        }
    }

    /// The same disk, with a name for the state that the file was found in when it was opened.
    pub fn holding<S: Start>(self) -> FileDisk<F, S>
        ensures { result ≡ self }
    {
        let FileDisk {
            file,
            size,
            failures,
            calls,
            start: _,
        } = self;
        FileDisk {
            file,
            size,
            failures,
            calls,
            start: PhantomData,
        }
    }
}

impl FileDisk<File> {
    /// Makes the file, or makes it anew, with so many zero bytes, and takes its lock. The content of a file of that name is
    /// lost, unless the file is in use. A new file is the owner's alone. A symbolic link is followed to no file.
    ///
    /// ```rust
    /// let area = least_area(Limits::MAX);
    /// let mut disk = FileDisk::create(&rt, "store", 64 + 2 * area)?;
    /// format(&mut disk, Limits::MAX, area)?;
    /// assert!(rt; matches!(FileDisk::open(&rt, "store"), Err(FileError::InUse)));
    /// ```
    pub fn create<R: Files<File = File>>(
        files: &R,
        path: &str,
        size: usize,
    ) -> Result<FileDisk<File>, FileError>
        ensures size { IfOk result (λ disk. disk.size ≡ size) }
        ensures failures { IfOk result (λ disk. disk.failures ≡ 0) }
        ensures events { IfOk result (λ disk. disk.events ≡ []) }
    {
        let mut options = OpenOptions::new();
        options
            .read(true)
            .write(true)
            .create(true)
            .mode(OWNER_ALONE);
        if is_link(files, path) {
            return Err(FileError::Device(io::Error::other(LINK)));
        }
        let file = open_apart(files, path, &options)?;
        lock(&file)?;
        file.set_len(0)?;
        file.set_len(size as u64)?;
        Ok(FileDisk::new(file, size))
    }

    /// Opens an existing file, and takes its lock.
    pub fn open<R: Files<File = File>>(files: &R, path: &str) -> Result<FileDisk<File>, FileError>
        ensures failures { IfOk result (λ disk. disk.failures ≡ 0) }
        ensures events { IfOk result (λ disk. disk.events ≡ []) }
    {
        let mut options = OpenOptions::new();
        options.read(true).write(true);
        let file = open_apart(files, path, &options)?;
        lock(&file)?;
        FileDisk::whole(file)
    }

    /// Opens an existing file to be read alone, whoever has its lock. Each write fails.
    pub fn open_to_read<R: Files<File = File>>(
        files: &R,
        path: &str,
    ) -> Result<FileDisk<File>, FileError>
        ensures failures { IfOk result (λ disk. disk.failures ≡ 0) }
        ensures events { IfOk result (λ disk. disk.events ≡ []) }
        ensures unlocked { IfErr result IsOfDevice }
    {
        let mut options = OpenOptions::new();
        options.read(true);
        let file = open_apart(files, path, &options)?;
        FileDisk::whole(file)
    }

    // A disk of all bytes of a file.
    fn whole(file: File) -> Result<FileDisk<File>, FileError>
        ensures failures { IfOk result (λ disk. disk.failures ≡ 0) }
        ensures events { IfOk result (λ disk. disk.events ≡ []) }
        ensures device { IfErr result IsOfDevice }
    {
        let len = file.metadata()?.len();
        Ok(FileDisk::new(file, len as usize))
    }
}

// Each method makes one call of the system, and notes it with its answer. Nothing else is done while the system waits. A read or a sync that failed isn't noted: it changes nothing.
impl<F: FileExt + OpenFile, S: Start> Disk for FileDisk<F, S> {
    ghost use Rattle.turn_disk.specs.Calls.{sized_by};

    ghost capacity = { λ disk. disk.size };

    ghost failed = { λ disk. disk.failures };

    ghost follows_crash_model = { λ disk. (length S.Start.found.bytes ≡ disk.size) × FollowCrashModel S.Start.found disk.events };

    ghost trace = { λ disk. replay S.Start.found disk.events };

    ghost sized = { λ disk crash_model. sized_by S.Start.found disk.events disk.size crash_model };

    fn size(&self) -> usize {
        self.size
    }

    fn failures(&self) -> u64 {
        self.failures.count()
    }

    fn failed_call(&self) -> Option<FailedCall> {
        self.failures.first()
    }

    fn read_at(&mut self, at: usize, buffer: &mut [u8]) -> Result<(), DeviceError> {
        match self.file.read_exact_at(buffer, at as u64) {
            Ok(()) => {
                self.calls.note(READ, at, true, buffer);
                Ok(())
            }
            Err(reason) => Err(self.failures.raise(DeviceCall::Read, reason)),
        }
    }

    #[tactic(auto, using(crate::proofs::Passing::passes_none))]
    fn write_at<M: Meanwhile>(
        &mut self,
        at: usize,
        bytes: &[u8],
        _other: &mut M,
    ) -> Result<(), DeviceError> {
        match self.file.write_all_at(bytes, at as u64) {
            Ok(()) => {
                self.calls.note(WRITE, at, true, bytes);
                Ok(())
            }
            Err(reason) => {
                self.calls.note(WRITE, at, false, bytes);
                Err(self.failures.raise(DeviceCall::Write, reason))
            }
        }
    }

    #[tactic(auto, using(crate::proofs::Passing::passes_none))]
    fn sync<M: Meanwhile>(&mut self, _other: &mut M) -> Result<(), DeviceError> {
        match self.file.sync_data() {
            Ok(()) => {
                self.calls.note(SYNC, 0, true, &[]);
                Ok(())
            }
            Err(reason) => Err(self.failures.raise(DeviceCall::Sync, reason)),
        }
    }
}
