//! Bytes of stores, by hand.

use std::alloc::{AllocError, Global};

/// A superblock up to the size of an area.
const MAGIC: &[u8] = b"\x52\x54\x55\x52\x4E\x53\x54\x31";

/// The limits in it: 2 allocations, 1 permission, 1 channel, 1 act, names of 8 bytes.
const LIMITS: &[u8] = b"\x00\x00\x00\x02\x00\x01\x00\x01\x00\x01\x00\x08";

/// An open gate, version 1, generation 1, a snapshot of 12 bytes.
const FIRST_AREA: &[u8] = b"\xA5\x01\x00\x00\x00\x00\x00\x00\x00\x01\x00\x00\x00\x0C";

/// An open gate, version 2, generation 1, a snapshot of 16 bytes.
const FIRST_AREA_2: &[u8] = b"\xA5\x02\x00\x00\x00\x00\x00\x00\x00\x01\x00\x00\x00\x10";

/// A frame with alice's allocation at 1000 for 600 seconds, and the closed gate after it. The relayed port is at 34.
pub const FRAME: &[u8] = b"\xA5\x00\x00\x00\x2F\x01\x01\x00\x00\x00\x00\x00\x00\x03\xE8\
    \xC0\x00\x02\x01\x80\x55\xC0\x00\x02\x64\x0D\x96\x00\x05\x61\x6C\x69\x63\x65\xC3\x50\
    \x00\x00\x02\x58\x01\x02\x03\x04\x05\x06\x07\x08\x09\x0A\x0B\x0C\x00";

/// A frame with a Refresh of that allocation at 1000 for 600 seconds.
const REFRESH: &[u8] = b"\xA5\x00\x00\x00\x1A\x01\x02\x00\x00\x00\x00\x00\x00\x03\xE8\
    \xC0\x00\x02\x01\x80\x55\xC0\x00\x02\x64\x0D\x96\x00\x00\x02\x58";

/// Writes bytes over those from a position on.
pub fn put(content: &mut [u8], at: usize, bytes: &[u8]) {
    for (place, byte) in content.iter_mut().skip(at).zip(bytes) {
        *place = *byte;
    }
}

/// A store with areas of this size, of which the first begins so: what is not written here is zeros.
fn store_of(alloc: Global, area: u16, front: &[u8]) -> Result<Vec<u8>, AllocError> {
    let mut content = Vec::from_elem(alloc, 0u8, 64 + 2 * usize::from(area))?;
    put(&mut content, 0, MAGIC);
    put(&mut content, 14, &area.to_be_bytes());
    put(&mut content, 16, LIMITS);
    put(&mut content, 64, front);
    Ok(content)
}

/// A store of version 1 with areas of 238 bytes that holds nothing: for version 2 they are too small.
pub fn fresh(alloc: Global) -> Result<Vec<u8>, AllocError> {
    store_of(alloc, 238, FIRST_AREA)
}

/// The same with alice's allocation at a relayed port. Its frame is after the snapshot.
pub fn allocated(alloc: Global, port: u16) -> Result<Vec<u8>, AllocError> {
    let mut content = fresh(alloc)?;
    put(&mut content, 90, FRAME);
    put(&mut content, 90 + 34, &port.to_be_bytes());
    Ok(content)
}

/// The same of a generation, with five Refreshes. Five bytes of the area are left, in which no frame has room.
pub fn filled(alloc: Global, port: u16, generation: u64) -> Result<Vec<u8>, AllocError> {
    let mut content = allocated(alloc, port)?;
    put(&mut content, 66, &generation.to_be_bytes());
    for number in 0..5usize {
        put(&mut content, 142 + 31 * number, REFRESH);
    }
    Ok(content)
}

/// A store of version 2 with areas of 304 bytes, the min size, that holds nothing. A frame is at 94.
pub fn formatted(alloc: Global) -> Result<Vec<u8>, AllocError> {
    store_of(alloc, 304, FIRST_AREA_2)
}
