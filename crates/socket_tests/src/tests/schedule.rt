//! The allocations of a schedule.

use failing_alloc::FailingAlloc;
use std::alloc::Allocator;
use turn_sockets::{LISTENING, Schedule};

#[test]
fn a_refused_list_is_an_error(rt: HostRuntime) {
    for served in 0..4u64 {
        let refusing = FailingAlloc::new(rt.alloc(), served);
        assert!(rt; Schedule::new(&refusing).is_err());
    }
}

/// Whether sockets are added, visited in a round and put back.
fn plays<A: Allocator>(schedule: &mut Schedule<A>, for_each: bool) -> bool {
    for token in [LISTENING, LISTENING + 1, 1, 2, 3, 40, 65_535] {
        if schedule.add(token).is_err() {
            return false;
        }
    }
    if !for_each {
        schedule.begin();
    } else if schedule.begin_for_each().is_err() {
        return false;
    }
    puts_back(schedule)
}

fn puts_back<A: Allocator>(schedule: &mut Schedule<A>) -> bool {
    for _ in 0..7 {
        let Some(token) = schedule.next() else {
            return false;
        };
        if schedule.put_back(token).is_err() {
            return false;
        }
    }
    true
}

#[test]
fn only_the_beginning_allocates(rt: HostRuntime) {
    for for_each in [false, true] {
        let refusing = FailingAlloc::new(rt.alloc(), 4);
        let mut schedule = Schedule::new(&refusing).expect(&rt, "memory");
        for _ in 0..3 {
            assert!(rt; plays(&mut schedule, for_each));
        }
    }
}
