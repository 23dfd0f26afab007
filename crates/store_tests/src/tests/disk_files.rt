ghost use Rattle.std.specs.Prelude.{◌≤◌, IfOk};

use std::cell::Cell;
use std::fs::{File, Files};
use std::io::{Error, ErrorKind};
use std::process::Abort;
use std::{fs, io};
use test_files::{FileCalls, TestFile};
use test_stores::{read_at, write_at};
use turn_disk::{DeviceError, Disk, FileDisk, FileError, Idle};

fn write_a_file<R: Abort + Files<File = File>>(rt: &R, path: &str) {
    let mut disk = FileDisk::create(rt, path, 64).expect(rt, "made");
    assert!(rt; disk.size() == 64);
    assert!(rt; write_at(&mut disk, 60, b"abcd") == Some(Ok(())));
    assert!(rt; disk.sync(&mut Idle).is_ok());
    assert!(rt; disk.failures() == 0);
}

fn read_a_file<R: Abort + Files<File = File>>(rt: &R, disk: FileDisk) {
    let mut disk = disk;
    assert!(rt; disk.size() == 64);
    let mut buffer = [9; 6];
    assert!(rt; read_at(&mut disk, 58, &mut buffer) == Some(Ok(())));
    assert!(rt; buffer == *b"\0\0abcd");
}

#[test]
fn a_file_holds_what_was_written(rt: HostRuntime) -> io::Result<()> {
    let path = "turn_disk.holds";
    write_a_file(&rt, path);
    read_a_file(&rt, FileDisk::open(&rt, path).expect(&rt, "opened"));
    read_a_file(&rt, FileDisk::open_to_read(&rt, path).expect(&rt, "opened"));
    fs::remove_file(&rt, path)
}

// A write that lands beside its place is found by another reader of the file.
#[test]
fn a_write_is_at_its_place(rt: HostRuntime) -> io::Result<()> {
    let path = "turn_disk.place";
    write_a_file(&rt, path);
    let content = fs::read(&rt, path)?;
    assert!(rt; content.len() == 64);
    assert!(rt; content.starts_with(&[0; 60]));
    assert!(rt; content.ends_with(b"abcd"));
    fs::remove_file(&rt, path)
}

#[test]
fn a_file_that_is_made_anew_holds_zeros(rt: HostRuntime) -> io::Result<()> {
    let path = "turn_disk.anew";
    write_a_file(&rt, path);
    drop(FileDisk::create(&rt, path, 64).expect(&rt, "made anew"));
    let content = fs::read(&rt, path)?;
    assert!(rt; content.as_slice() == [0; 64].as_slice());
    fs::remove_file(&rt, path)
}

// A disk over a file of 64 bytes, which is then made anew with 16.
fn shortened<R: Abort + Files<File = File>>(rt: &R, path: &str) -> FileDisk {
    drop(FileDisk::create(rt, path, 64).expect(rt, "made"));
    let disk = FileDisk::open_to_read(rt, path).expect(rt, "opened");
    let shorter = FileDisk::create(rt, path, 16).expect(rt, "made anew");
    assert!(rt; shorter.size() == 16);
    disk
}

fn read_past_the_end<D: Disk>(rt: &impl Abort, disk: &mut D) {
    let mut buffer = [9; 4];
    assert!(rt; read_at(disk, 0, &mut buffer) == Some(Ok(())));
    assert!(rt; buffer == [0; 4]);
    assert!(rt; read_at(disk, 14, &mut buffer) == Some(Err(DeviceError)));
    assert!(rt; disk.failures() == 1);
}

#[test]
fn a_disk_has_the_size_of_its_file(rt: HostRuntime) -> io::Result<()> {
    let path = "turn_disk.size";
    let mut disk = shortened(&rt, path);
    assert!(rt; FileDisk::open(&rt, path).expect(&rt, "opened").size() == 16);
    read_past_the_end(&rt, &mut disk);
    fs::remove_file(&rt, path)
}

// Whether a disk was refused since its file is in use, or otherwise.
fn refusal(opened: Result<FileDisk, FileError>) -> Option<bool> {
    match opened {
        Ok(_) => None,
        Err(refused) => Some(matches!(refused, FileError::InUse)),
    }
}

// What comes of opening a path in each way: to make it anew, to write, and to read.
fn refusals<R: Files<File = File>>(rt: &R, path: &str) -> [Option<bool>; 3] {
    [
        refusal(FileDisk::create(rt, path, 64)),
        refusal(FileDisk::open(rt, path)),
        refusal(FileDisk::open_to_read(rt, path)),
    ]
}

#[test]
fn what_is_no_regular_file_is_refused(rt: HostRuntime) {
    for path in [".", "/dev/null", "/dev/zero", "turn_disk.absent/store", ""] {
        assert!(rt; refusals(&rt, path) == [Some(false); 3]);
    }
    assert!(rt; FileDisk::open(&rt, "turn_disk.absent").is_err());
    assert!(rt; FileDisk::open_to_read(&rt, "turn_disk.absent").is_err());
}

// While a disk is open to be written, its file can be opened to be read alone, and stays as it is.
fn open_beside<R: Abort + Files<File = File>>(rt: &R, path: &str, disk: FileDisk) {
    let in_use = Some(true);
    assert!(rt; refusals(rt, path) == [in_use, in_use, None]);
    read_a_file(rt, FileDisk::open_to_read(rt, path).expect(rt, "opened"));
    drop(disk);
    assert!(rt; FileDisk::open(rt, path).is_ok());
}

#[test]
fn a_file_is_opened_once_to_be_written(rt: HostRuntime) -> io::Result<()> {
    let path = "turn_disk.lock";
    write_a_file(&rt, path);
    open_beside(&rt, path, FileDisk::open(&rt, path).expect(&rt, "opened"));
    let made = FileDisk::create(&rt, path, 64).expect(&rt, "made");
    let in_use = Some(true);
    assert!(rt; refusals(&rt, path) == [in_use, in_use, None]);
    drop(made);
    fs::remove_file(&rt, path)
}

#[test]
fn a_disk_that_is_opened_to_be_read_is_not_written(rt: HostRuntime) -> io::Result<()> {
    let path = "turn_disk.read";
    write_a_file(&rt, path);
    let mut disk = FileDisk::open_to_read(&rt, path).expect(&rt, "opened");
    assert!(rt; disk.sync(&mut Idle).is_ok());
    assert!(rt; write_at(&mut disk, 60, b"efgh") == Some(Err(DeviceError)));
    assert!(rt; disk.failures() == 1);
    read_a_file(&rt, disk);
    fs::remove_file(&rt, path)
}

// A file that reads and writes one byte a call. Every other call is interrupted, and a sync fails.
#[derive(Drop)]
struct SlowFile {
    calls: Cell<u64>,
}

impl SlowFile {
    fn step(&self, len: usize) -> io::Result<usize>
        ensures { IfOk result (λ count. count ≤ len) }
    {
        let calls = self.calls.get();
        self.calls.set(calls.wrapping_add(1));
        if calls % 2 == 0 {
            return Err(Error::from(ErrorKind::Interrupted));
        }
        Ok(len.min(1))
    }
}

impl FileCalls for SlowFile {
    fn read(&self, buf: &mut [u8], offset: u64) -> io::Result<usize> {
        if let Some(byte) = buf.first_mut() {
            *byte = (offset % 256) as u8;
        }
        self.step(buf.len())
    }

    fn write(&self, buf: &[u8], _offset: u64) -> io::Result<usize> {
        self.step(buf.len())
    }

    fn sync(&self) -> io::Result<()> {
        Err(Error::from(ErrorKind::Other))
    }
}

#[test]
fn short_counts_and_interruptions_are_no_failures(rt: HostRuntime) {
    let file = SlowFile {
        calls: Cell::new(0),
    };
    let mut disk = FileDisk::new(TestFile(file), 100);
    let mut buffer = [0; 5];
    assert!(rt; read_at(&mut disk, 7, &mut buffer) == Some(Ok(())));
    assert!(rt; buffer == [7, 8, 9, 10, 11]);
    assert!(rt; write_at(&mut disk, 7, &buffer) == Some(Ok(())));
    assert!(rt; disk.failures() == 0);
    assert!(rt; disk.sync(&mut Idle).is_err());
    assert!(rt; disk.failures() == 1);
}

// A file that counts its syncs.
#[derive(Drop)]
struct SyncedFile<'a> {
    syncs: &'a Cell<u64>,
}

impl FileCalls for SyncedFile<'_> {
    fn read(&self, buf: &mut [u8], _offset: u64) -> io::Result<usize> {
        Ok(buf.len())
    }

    fn write(&self, buf: &[u8], _offset: u64) -> io::Result<usize> {
        Ok(buf.len())
    }

    fn sync(&self) -> io::Result<()> {
        self.syncs.set(self.syncs.get().wrapping_add(1));
        Ok(())
    }
}

// A sync that is noted and not made is proved as well: this finds it.
#[test]
fn a_sync_is_one_of_the_file(rt: HostRuntime) {
    let syncs = Cell::new(0);
    let mut disk = FileDisk::new(TestFile(SyncedFile { syncs: &syncs }), 100);
    assert!(rt; write_at(&mut disk, 7, b"abcd") == Some(Ok(())));
    assert!(rt; syncs.get() == 0);
    assert!(rt; disk.sync(&mut Idle).is_ok());
    assert!(rt; syncs.get() == 1);
}
