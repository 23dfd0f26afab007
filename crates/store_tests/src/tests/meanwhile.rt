//! What is done while a disk in memory waits.

ghost use Rattle.std.specs.Prelude.{◌≡◌, ◌+◌, ◌%◌, ◌^◌};

use super::batches::{append_beside, disk_after, open, table_at};
use turn_disk::Meanwhile;
use turn_store::WrittenAs;

/// How many pieces were done.
#[derive(Drop)]
struct Counter {
    pieces: u32,
}

impl Meanwhile for Counter {
    ghost passes = { λ old new. new.pieces ≡ (old.pieces + 1) % 2 ^ 32 };

    fn pass(&mut self) -> bool {
        self.pieces = self.pieces.wrapping_add(1);
        true
    }
}

// Two writes and two syncs of a frame.
#[test]
fn each_write_and_each_sync_waits_as_long_as_was_set(rt: HostRuntime) {
    let alloc = rt.alloc();
    let mut store = open(&rt, alloc, disk_after(&rt, alloc, 238, 0));
    let mut counter = Counter { pieces: 0 };
    for (second, pieces) in [(0, 0), (1, 12)] {
        let table = table_at(&rt, alloc, second);
        let appended = append_beside(&mut store, second, &table, &mut counter);
        assert!(rt; appended == Some(Ok(WrittenAs::Frame)));
        assert!(rt; counter.pieces == pieces);
        store.disk().wait_for(3);
    }
}
