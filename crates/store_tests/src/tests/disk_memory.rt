use super::disks::disk_of;
use failing_alloc::FailingAlloc;
use std::alloc::Allocator;
use std::process::Abort;
use test_stores::write_at;
use turn_disk::{CrashOutcome, Disk, Idle, MemoryDisk};

// The contents after each of four calls, the second of which is a sync.
const CONTENTS: [&[u8; 8]; 4] = [b"abcd4567", b"abcd4567", b"ababcd67", b"abaabcd7"];

// Whether the call succeeds: call 1 syncs, and each other one writes at the position of its number.
fn make_call<A: Allocator>(disk: &mut MemoryDisk<A>, call: usize) -> bool {
    if call == 1 {
        return disk.sync(&mut Idle).is_ok();
    }
    write_at(disk, call, b"abcd") == Some(Ok(()))
}

// A call that fails leaves the content before it, and succeeds when it is repeated.
fn make_calls<A: Allocator, B: Allocator>(
    rt: &impl Abort,
    disk: &mut MemoryDisk<A>,
    refusing: &FailingAlloc<B>,
) {
    let mut before = b"01234567";
    for (call, after) in CONTENTS.iter().enumerate() {
        if !make_call(disk, call) {
            assert!(rt; disk.content() == before.as_slice());
            assert!(rt; refusing.has_refused());
            assert!(rt; make_call(disk, call));
        }
        assert!(rt; disk.content() == after.as_slice());
        before = after;
    }
}

fn refuse<B: Allocator>(rt: &impl Abort, refusing: &FailingAlloc<B>, served: u64) {
    refusing.arm(u64::MAX);
    let mut disk = disk_of(rt, refusing, b"01234567");
    refusing.arm(served);
    make_calls(rt, &mut disk, refusing);
    assert!(rt; (disk.failures() == 1) == refusing.has_refused());
    disk.crash(CrashOutcome::Lost);
    assert!(rt; disk.content() == b"abcd4567".as_slice());
}

#[test]
fn a_call_without_memory_for_its_record_changes_nothing(rt: HostRuntime) {
    let refusing = FailingAlloc::new(rt.alloc(), u64::MAX);
    for served in 0..16u64 {
        refuse(&rt, &refusing, served);
    }
}

// A sync and three writes of four bytes.
#[test]
fn calls_in_room_that_was_reserved_take_no_memory(rt: HostRuntime) {
    let refusing = FailingAlloc::new(rt.alloc(), u64::MAX);
    let mut disk = disk_of(&rt, &refusing, b"01234567");
    assert!(rt; disk.reserve(4, 12).is_ok());
    refusing.arm(0);
    make_calls(&rt, &mut disk, &refusing);
    assert!(rt; !refusing.has_refused());
    assert!(rt; disk.failures() == 0);
}
