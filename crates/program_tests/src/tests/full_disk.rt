//! A device without room for a whole store, or that fails after its zeros.

use std::alloc::Global;
use std::cell::Cell;
use std::io::{self, Error, ErrorKind};
use std::test::Fail;
use test_files::{FileCalls, TestFile};
use turn_disk::FileDisk;
use turn_program::{ProgramError, format_disk};
use turn_types::{Bounds, Limits};

/// A file with room for so many bytes, which notes whether a byte other than 0 was written, and may take none.
#[derive(Drop)]
struct FullFile<'a> {
    room: u64,
    takes_all: bool,
    is_marked: &'a Cell<bool>,
}

impl FileCalls for FullFile<'_> {
    fn write(&self, buf: &[u8], offset: u64) -> io::Result<usize> {
        if self.room <= offset {
            return Err(Error::from(ErrorKind::StorageFull));
        }
        if buf.iter().any(|byte| *byte != 0) {
            if !self.takes_all {
                return Err(Error::from(ErrorKind::Other));
            }
            self.is_marked.set(true);
        }
        Ok(buf.len().min((self.room - offset) as usize))
    }
}

/// The room of a device for a store of 200,064 bytes, whether it takes more than zeros, and whether it is formatted.
const ROOMS: [(u64, bool, bool); 7] = [
    (200_064, true, true),
    (200_064, false, false),
    (200_063, true, false),
    (131_072, true, false),
    (65_537, true, false),
    (64, true, false),
    (0, true, false),
];

fn play(alloc: Global, room: u64, takes_all: bool, is_formatted: bool) -> Result<(), Fail> {
    let limits = Limits::new(Bounds {
        allocations: 2,
        permissions: 1,
        channels: 1,
        acts: 1,
        name_bytes: 8,
    })
    .ok_or("limits")?;
    let is_marked = Cell::new(false);
    let file = FullFile {
        room,
        takes_all,
        is_marked: &is_marked,
    };
    let mut disk = FileDisk::new(TestFile(file), 200_064);
    let expected = if is_formatted {
        Ok(())
    } else {
        Err(ProgramError::Device)
    };
    let got = format_disk(alloc, &mut disk, limits, 100_000);
    if got != expected || is_marked.get() != is_formatted {
        return Err(Fail::new(room));
    }
    Ok(())
}

#[test]
fn a_device_that_takes_no_whole_store_is_a_device_fault(rt: HostRuntime) -> Result<(), Fail> {
    for (room, takes_all, is_formatted) in &ROOMS {
        play(rt.alloc(), *room, *takes_all, *is_formatted)?;
    }
    Ok(())
}
