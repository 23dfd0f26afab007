//! Disks in memory.

use std::alloc::Allocator;
use std::process::Abort;
use turn_disk::MemoryDisk;

/// A disk with this content.
pub fn disk_of<A: Allocator + Copy>(rt: &impl Abort, alloc: A, content: &[u8]) -> MemoryDisk<A> {
    let content = Vec::from_slice(alloc, content).expect(rt, "memory");
    MemoryDisk::new(alloc, content)
}
