//! Stores of version 1 under the limits 2, 1, 1, 1, 8: alice's allocation at 1000, and the Refreshes after it.

use std::alloc::Allocator;
use std::process::Abort;
use test_stores::{SnapshotTable, TestStore, format_as};
use turn_disk::{Idle, Meanwhile, MemoryDisk};
use turn_record::Version;
use turn_store::{OpenError, StoreError, StoreOpenError, WrittenAs};
use turn_types::{Bounds, Endpoint, FiveTuple, Limits};

/// From 192.0.2.1:32853 to 192.0.2.100:3478, for 600 seconds from 1000 on, with port 50000.
const ALLOCATION: [u8; 47] = *b"\x01\x01\x00\x00\x00\x00\x00\x00\x03\xe8\
    \xc0\x00\x02\x01\x80\x55\xc0\x00\x02\x64\x0d\x96\
    \x00\x05alice\xc3\x50\x00\x00\x02\x58\x01\x02\x03\x04\x05\x06\x07\x08\x09\x0a\x0b\x0c";

/// A Refresh of it for 600 seconds. The moment ends at the tenth byte.
const REFRESH: [u8; 26] = *b"\x01\x02\x00\x00\x00\x00\x00\x00\x00\x00\
    \xc0\x00\x02\x01\x80\x55\xc0\x00\x02\x64\x0d\x96\x00\x00\x02\x58";

/// A snapshot with it. The moment ends at the eighth byte, the expiry time two bytes before the end.
const SNAPSHOT: [u8; 59] = *b"\x00\x00\x00\x00\x00\x00\x00\x00\x00\x00\x00\x01\
    \xc0\x00\x02\x01\x80\x55\xc0\x00\x02\x64\x0d\x96\
    \x00\x05alice\xc3\x50\x00\x00\x02\x58\x01\x02\x03\x04\x05\x06\x07\x08\x09\x0a\x0b\x0c\
    \x00\x00\x00\x00\x00\x00\x00\x00\x00\x00";

const ALICE: FiveTuple = FiveTuple {
    client: Endpoint {
        ip: 0xC000_0201,
        port: 32853,
    },
    server: Endpoint {
        ip: 0xC000_0264,
        port: 3478,
    },
};

pub fn limits(rt: &impl Abort) -> Limits {
    let bounds = Bounds {
        allocations: 2,
        permissions: 1,
        channels: 1,
        acts: 1,
        name_bytes: 8,
    };
    Limits::new(bounds).expect(rt, "limits")
}

/// The payload of a Refresh so many seconds after 1000.
fn refresh_at(second: u8) -> [u8; 26] {
    let [high, low] = (1000 + u16::from(second)).to_be_bytes();
    let mut payload = REFRESH;
    payload[8] = high;
    payload[9] = low;
    payload
}

/// The snapshot so many seconds after 1000, in which the allocation expires 600 seconds later.
fn snapshot_at(second: u8) -> [u8; 59] {
    let [high, low] = (1000 + u16::from(second)).to_be_bytes();
    let [expiry_high, expiry_low] = (1600 + u16::from(second)).to_be_bytes();
    let mut snapshot = SNAPSHOT;
    snapshot[6] = high;
    snapshot[7] = low;
    snapshot[55] = expiry_high;
    snapshot[56] = expiry_low;
    snapshot
}

/// The table of that snapshot.
pub fn table_at<A: Allocator + Copy>(rt: &impl Abort, alloc: A, second: u8) -> SnapshotTable<A> {
    match SnapshotTable::read(alloc, Version::V1, limits(rt), &snapshot_at(second)) {
        Ok(table) => table,
        Err(_) => panic!(rt; "a snapshot"),
    }
}

/// Appends the batch of so many seconds after 1000, with the table after it: the allocation at 0, and else a Refresh.
pub fn append_with<A: Allocator + Copy>(
    store: &mut TestStore<MemoryDisk<A>, A>,
    second: u8,
    table: &SnapshotTable<A>,
) -> Option<Result<WrittenAs, StoreError>> {
    append_beside(store, second, table, &mut Idle)
}

/// The same, while something else is done.
pub fn append_beside<A: Allocator + Copy, M: Meanwhile>(
    store: &mut TestStore<MemoryDisk<A>, A>,
    second: u8,
    table: &SnapshotTable<A>,
    other: &mut M,
) -> Option<Result<WrittenAs, StoreError>> {
    if second == 0 {
        return store.append_beside(&ALLOCATION, table, other);
    }
    store.append_beside(&refresh_at(second), table, other)
}

/// Opens a store as it is.
pub fn open<A: Allocator + Copy>(
    rt: &impl Abort,
    alloc: A,
    disk: MemoryDisk<A>,
) -> TestStore<MemoryDisk<A>, A> {
    match TestStore::open(alloc, disk, limits(rt), false) {
        Ok((store, _)) => store,
        Err(_) => panic!(rt; "not opened"),
    }
}

/// The disk of a store with areas of this size, formatted over zeros, with the first `count` batches.
pub fn disk_after<A: Allocator + Copy>(
    rt: &impl Abort,
    alloc: A,
    area: usize,
    count: u8,
) -> MemoryDisk<A> {
    assert!(rt; area <= 1000);
    let content = Vec::from_elem(alloc, 0u8, 64 + 2 * area).expect(rt, "memory");
    let mut disk = MemoryDisk::new(alloc, content);
    assert!(rt; format_as(&mut disk, Version::V1, limits(rt)) == Some(Ok(())));
    let mut store = open(rt, alloc, disk);
    for second in 0..count {
        let table = table_at(rt, alloc, second);
        assert!(rt; append_with(&mut store, second, &table).is_some_and(|done| done.is_ok()));
    }
    store.into_disk()
}

/// Opens the store of a disk, and carries it over where it can be: when the allocation expires, or 0, or the refusal. Returns
/// the disk too.
pub fn try_open<A: Allocator + Copy>(
    rt: &impl Abort,
    alloc: A,
    disk: MemoryDisk<A>,
) -> (Result<u64, OpenError>, MemoryDisk<A>) {
    match TestStore::open(alloc, disk, limits(rt), true) {
        Ok((store, table)) => {
            let expiry = table.table().get(ALICE).map_or(0, |entry| entry.expiry());
            (Ok(expiry), store.into_disk())
        }
        Err(StoreOpenError { fault, disk }) => (Err(fault), disk),
    }
}
