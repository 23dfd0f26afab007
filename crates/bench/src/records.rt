//! Reading and writing snapshots of 1,024 entries.

mod calls;
mod kept;

use crate::encoded::{ENTRIES, Shape, encode};
use crate::measured::best_of;
use calls::{is_right, read_pieces, read_whole, write_pieces, write_whole};
use kept::Kept;
use std::io;
use turn_disk::PIECE;
use turn_record::Version;

/// Prints the nanoseconds of an entry, and the megabytes of a second, of a call on a snapshot of so many bytes.
fn measure<F: FnMut() -> bool>(
    rt: &HostRuntime,
    name: &str,
    call: &mut F,
    count: usize,
    size: usize,
) -> io::Result<()>
    requires { (state : F) → F.pre state }
{
    let timing = best_of(rt, call, count)?;
    println!(rt;
        "{name}: {} ns an entry, {} MB/s ({} of {count} done)",
        timing.nanos(usize::from(ENTRIES)),
        timing.rate(size),
        timing.done
    )
}

fn measure_calls(rt: &HostRuntime, kept: &Kept, bytes: &[u8], count: usize) -> io::Result<()> {
    let alloc = rt.alloc();
    let size = bytes.len();
    measure(
        rt,
        "read_snapshot",
        &mut || read_whole(alloc, bytes),
        count,
        size,
    )?;
    let call = &mut || read_pieces(alloc, bytes);
    measure(rt, "SnapshotReader, in pieces", call, count, size)?;
    let mut piece = [0; PIECE];
    let call = &mut || write_pieces(kept, &mut piece, size);
    measure(rt, "SnapshotWriter, in pieces", call, count, size)?;
    let mut out = Vec::with_capacity(alloc, size)?;
    let call = &mut || write_whole(kept, &mut out, size);
    measure(rt, "write_snapshot", call, count, size)
}

/// Measures snapshots of entries without permissions and channels, and with a few of each.
pub fn measure_all(rt: &HostRuntime, count: usize) -> io::Result<()> {
    for shape in [Shape::PLAIN, Shape::WITH_PEERS] {
        let bytes = encode(rt.alloc(), Version::V1, shape)?;
        println!(rt;
            "{ENTRIES} entries of {} permissions and {} channels, {} bytes",
            shape.permissions,
            shape.channels,
            bytes.len()
        )?;
        match Kept::read(rt.alloc(), &bytes) {
            Some(kept) if is_right(rt.alloc(), &kept, &bytes)? => {
                measure_calls(rt, &kept, &bytes, count)?;
            }
            _ => println!(rt; "a wrong answer")?,
        }
    }
    Ok(())
}
