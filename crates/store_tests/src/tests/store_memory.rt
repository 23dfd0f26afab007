//! Stores over an allocator that refuses memory: what takes none, and each allocation of the others refused in turn.

use super::batches::{append_with, disk_after, limits, open, table_at, try_open};
use super::disks::disk_of;
use failing_alloc::FailingAlloc;
use std::alloc::{Allocator, Global};
use std::process::Abort;
use test_stores::{TestStore, format_as};
use turn_disk::{Disk, MemoryDisk};
use turn_record::Version;
use turn_store::{OpenError, StoreError, WrittenAs};

// Nine device calls, which write 157 bytes.
#[test]
fn formatting_takes_no_memory(rt: HostRuntime) {
    let refusing = FailingAlloc::new(rt.alloc(), u64::MAX);
    let mut disk = disk_of(&rt, &refusing, &[0; 540]);
    assert!(rt; disk.reserve(9, 157).is_ok());
    refusing.arm(0);
    assert!(rt; format_as(&mut disk, Version::V1, limits(&rt)) == Some(Ok(())));
    assert!(rt; !refusing.has_refused());
}

// A store with the first `count` batches, whose disk has room to record so many writes and syncs of so many bytes, and the
// sync of the opening.
fn reserved<A: Allocator + Copy>(
    rt: &impl Abort,
    alloc: A,
    count: u8,
    calls: usize,
    bytes: usize,
) -> TestStore<MemoryDisk<A>, A> {
    assert!(rt; calls < 100);
    let mut disk = disk_of(rt, alloc, disk_after(rt, alloc, 238, count).content());
    assert!(rt; disk.reserve(calls + 1, bytes).is_ok());
    open(rt, alloc, disk)
}

type Outcomes = (
    Option<Result<WrittenAs, StoreError>>,
    Option<Result<(), StoreError>>,
    bool,
);

// What comes of the batch of a second, and then of a compaction, where one request for memory is refused; and whether it was.
fn refuse<A: Allocator + Copy>(
    rt: &impl Abort,
    refusing: &FailingAlloc<Global>,
    alloc: A,
    store: &mut TestStore<MemoryDisk<A>, A>,
    second: u8,
    served: u64,
) -> Outcomes {
    let table = table_at(rt, alloc, second);
    refusing.arm(served);
    let appended = append_with(store, second, &table);
    let compacted = store.compact(&table);
    let is_refused = refusing.has_refused();
    refusing.arm(u64::MAX);
    (appended, compacted, is_refused)
}

// Two writes and two syncs of a frame, and three writes and three syncs of a compaction.
#[test]
fn a_frame_and_a_compaction_take_no_memory(rt: HostRuntime) {
    let refusing = FailingAlloc::new(rt.alloc(), u64::MAX);
    let mut store = reserved(&rt, &refusing, 0, 4 + 6, 52 + 1 + 1 + 73 + 1);
    let outcomes = refuse(&rt, &refusing, &refusing, &mut store, 0, 0);
    assert!(rt; outcomes == (Some(Ok(WrittenAs::Frame)), Some(Ok(())), false));
}

#[test]
fn a_batch_without_room_takes_no_memory(rt: HostRuntime) {
    let refusing = FailingAlloc::new(rt.alloc(), u64::MAX);
    let mut store = reserved(&rt, &refusing, 6, 6 + 6, 2 * (1 + 73 + 1));
    let outcomes = refuse(&rt, &refusing, &refusing, &mut store, 6, 0);
    assert!(rt; outcomes == (Some(Ok(WrittenAs::Snapshot)), Some(Ok(())), false));
}

// What comes of the batch and the compaction where a growth was refused in one of them, or in neither.
fn expected(is_refused: bool, is_appended: bool) -> Outcomes {
    if !is_refused {
        return (Some(Ok(WrittenAs::Frame)), Some(Ok(())), false);
    }
    if is_appended {
        let failed = Err(StoreError::Device);
        return (Some(Ok(WrittenAs::Frame)), Some(failed), true);
    }
    let (failed, stopped) = (Err(StoreError::Device), Err(StoreError::Stopped));
    (Some(failed), Some(stopped), true)
}

// Appends the allocation, and then compacts, over a disk whose record has no room. The allocation is there if the gate of
// its frame is open, at 90. The first growth is of the record of the frame, which is then not written. Returns whether a
// growth was refused.
fn refuse_record(rt: &impl Abort, alloc: Global, served: u64) -> bool {
    let refusing = FailingAlloc::new(alloc, u64::MAX);
    let mut store = reserved(rt, &refusing, 0, 0, 0);
    let outcomes = refuse(rt, &refusing, &refusing, &mut store, 0, served);
    let (is_appended, is_refused) = (outcomes.0 == Some(Ok(WrittenAs::Frame)), outcomes.2);
    assert!(rt; outcomes == expected(is_refused, is_appended));
    let disk = store.into_disk();
    assert!(rt; disk.failures() == u64::from(is_refused));
    let is_open = disk.content().get(90) == Some(&0xA5);
    assert!(rt; is_open || !is_appended);
    assert!(rt; served > 0 || !is_open);
    let expiry = if is_open { 1600 } else { 0 };
    assert!(rt; try_open(rt, &refusing, disk).0 == Ok(expiry));
    is_refused
}

#[test]
fn a_record_without_room_is_a_failed_device_call(rt: HostRuntime) {
    for served in 0..100u64 {
        if !refuse_record(&rt, rt.alloc(), served) {
            assert!(rt; served > 1);
            return;
        }
    }
    panic!(rt; "some growth is always refused");
}

// Opens a disk over an allocator that refuses one request: it stays as it is then, and is opened again. Returns whether one was
// refused.
fn refuse_growth<A: Allocator + Copy>(
    rt: &impl Abort,
    refusing: &FailingAlloc<Global>,
    alloc: A,
    content: &[u8],
    expiry: u64,
    served: u64,
) -> bool {
    let mut disk = disk_of(rt, alloc, content);
    assert!(rt; disk.reserve(7, 1 + 78 + 1).is_ok());
    refusing.arm(served);
    let (outcome, disk) = try_open(rt, alloc, disk);
    let is_refused = refusing.has_refused();
    refusing.arm(u64::MAX);
    assert!(rt; disk.failures() == 0);
    if is_refused {
        assert!(rt; outcome == Err(OpenError::Memory));
        assert!(rt; disk.content() == content);
    } else {
        assert!(rt; outcome == Ok(expiry));
    }
    assert!(rt; try_open(rt, alloc, disk).0 == Ok(expiry));
    is_refused
}

// How many growths an opening has, each of which is refused once.
fn growths_of(rt: &impl Abort, alloc: Global, content: &[u8], expiry: u64) -> u64 {
    let refusing = FailingAlloc::new(alloc, u64::MAX);
    for served in 0..100u64 {
        if !refuse_growth(rt, &refusing, &refusing, content, expiry, served) {
            return served;
        }
    }
    panic!(rt; "some growth is always refused");
}

// The store has a snapshot of 1006 and a frame.
#[test]
fn each_growth_of_an_opening_is_refused_in_turn(rt: HostRuntime) {
    let disk = disk_after(&rt, rt.alloc(), 238, 8);
    assert!(rt; growths_of(&rt, rt.alloc(), disk.content(), 1607) > 2);
}

#[test]
fn each_growth_of_carrying_over_is_refused_before_the_first_write(rt: HostRuntime) {
    let disk = disk_after(&rt, rt.alloc(), 304, 1);
    assert!(rt; growths_of(&rt, rt.alloc(), disk.content(), 1600) > 3);
}
