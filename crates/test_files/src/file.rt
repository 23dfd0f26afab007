//! A file by its calls.

ghost use Rattle.std.specs.Io.{ReadsAtMost, WritesAtMost};

use std::fs::{Metadata, OpenFile};
use std::io::{self, Error, ErrorKind};
use std::os::unix::fs::FileExt;

/// What the calls of a file do. Where it isn't said, a read and a write fail, and a sync does nothing.
pub trait FileCalls {
    fn read(&self, _buf: &mut [u8], _offset: u64) -> io::Result<usize>
        ensures bound { ReadsAtMost result _buf.new }
    {
        Err(Error::from(ErrorKind::Other))
    }

    fn write(&self, _buf: &[u8], _offset: u64) -> io::Result<usize>
        ensures bound { WritesAtMost result _buf.now }
    {
        Err(Error::from(ErrorKind::Other))
    }

    fn sync(&self) -> io::Result<()> {
        Ok(())
    }
}

/// A file with these calls. It has no metadata, its length can't be set, and it is synced by `sync_data` alone: `sync_all` fails.
#[derive(Drop)]
pub struct TestFile<F>(pub F);

impl<F: FileCalls> FileExt for TestFile<F> {
    fn read_at(&self, buf: &mut [u8], offset: u64) -> io::Result<usize> {
        self.0.read(buf, offset)
    }

    fn write_at(&self, buf: &[u8], offset: u64) -> io::Result<usize> {
        self.0.write(buf, offset)
    }
}

impl<F: FileCalls> OpenFile for TestFile<F> {
    fn metadata(&self) -> io::Result<Metadata> {
        Err(Error::from(ErrorKind::Other))
    }

    fn set_len(&self, _size: u64) -> io::Result<()> {
        Err(Error::from(ErrorKind::Other))
    }

    fn sync_all(&self) -> io::Result<()> {
        Err(Error::from(ErrorKind::Other))
    }

    fn sync_data(&self) -> io::Result<()> {
        self.0.sync()
    }
}
