//! A file whose content changes.

ghost use Rattle.std.specs.Prelude.{◌≤◌, length};

use crate::file::FileCalls;
use std::cell::Cell;
use std::io;

/// Fills the buffer with the bytes from an offset on, as far as there are any.
pub fn copy_at(bytes: &[u8], buf: &mut [u8], offset: u64) -> usize
    ensures { result ≤ length buf.new }
{
    let Some(rest) = bytes.get(offset as usize..) else {
        return 0;
    };
    let size = buf.len().min(rest.len());
    buf[..size].copy_from_slice(&rest[..size]);
    size
}

/// A file that has one content up to its first sync, and another from its second sync on. It isn't written.
#[derive(Drop)]
pub struct Changing<'a> {
    pub first: &'a [u8],
    pub second: &'a [u8],
    pub syncs: &'a Cell<u32>,
}

impl FileCalls for Changing<'_> {
    fn read(&self, buf: &mut [u8], offset: u64) -> io::Result<usize> {
        let content = if self.syncs.get() < 2 {
            self.first
        } else {
            self.second
        };
        Ok(copy_at(content, buf, offset))
    }

    fn sync(&self) -> io::Result<()> {
        self.syncs.set(self.syncs.get().wrapping_add(1));
        Ok(())
    }
}
