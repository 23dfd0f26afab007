//! Each growth of a scenario refused in turn.

use failing_alloc::FailingAlloc;
use std::alloc::{Allocator, Global};
use std::process::Abort;
use turn_scenario::{Report, ScenarioError, replay};

/// The settings of the realm example.org with alice and bob, ten relay ports, a denied address, and the min limits but two
/// allocations and names of eight bytes.
const SETTINGS: &str = "realm example.org
user alice wonder
user bob builder
secret 0000000000000000000000000000000000000000000000000000000000000000
listen 192.0.2.100:3478
relay 198.51.100.1 50000 50009
quota 2
deny 203.0.113.9 203.0.113.9
limits 2 1 1 1 8
";

/// A datagram and data both ways, a channel, a crash.
const LINES: &str = "format1 238
ask 192.0.2.1:5 alice 000000000000000000000001 allocate life=600
commit
send 192.0.2.1:5 203.0.113.5:7000 00
peer 50000 203.0.113.5:7000 00
raw 192.0.2.1:5 000100002112a4420102030405060708090a0b0c
commit
ask 192.0.2.1:5 alice 000000000000000000000002 bind chan=4000 peer=203.0.113.5:7000
commit
table
crash kept
table
";

/// A store that a crash carries over, and a port that is then reserved.
const CARRIED: &str = "format1 304
ask 192.0.2.1:5 alice 000000000000000000000001 allocate
commit
crash kept
ask 192.0.2.2:5 bob 000000000000000000000002 allocate even+
commit
table
ask 192.0.2.1:6 bob 000000000000000000000003 allocate token=0123456789abcdef
commit
reopen
table
";

/// Whether two reports have the same lines.
fn are_same<A: Allocator>(report: &Report<A>, whole: &Report) -> bool {
    let mut pairs = report.lines.iter().zip(whole.lines.iter());
    report.lines.len() == whole.lines.len()
        && pairs.all(|(line, same)| line.as_str() == same.as_str())
}

/// Which lines of reports said that an allocation failed.
#[derive(Clone, Copy)]
struct Told {
    /// In an arrival or an opening.
    memory: bool,
    /// In the disk's record.
    device: bool,
}

fn has_line<A: Allocator>(report: &Report<A>, text: &str) -> bool {
    report.lines.iter().any(|line| line.as_str() == text)
}

/// Whether the lines of a report up to the first one that tells of an allocation failure are those of another.
fn begins_alike<A: Allocator>(report: &Report<A>, whole: &Report) -> bool {
    for (line, same) in report.lines.iter().zip(whole.lines.iter()) {
        if line.as_str() == "memory" || line.as_str() == "device" {
            return true;
        }
        if line.as_str() != same.as_str() {
            return false;
        }
    }
    false
}

/// Whether a report is the whole one, or says that an allocation failed where one was refused. A failure that isn't told, in
/// what is remembered of a user, leaves the report as it is without one.
fn is_right<A: Allocator>(
    report: &Report<A>,
    whole: &Report,
    was_refused: bool,
    told: &mut Told,
) -> bool {
    let (memory, device) = (has_line(report, "memory"), has_line(report, "device"));
    told.memory = told.memory || memory;
    told.device = told.device || device;
    if memory || device {
        was_refused && begins_alike(report, whole)
    } else {
        are_same(report, whole)
    }
}

/// Whether a scenario is replayed as `is_right` says, or its fault says that a growth was refused.
fn goes_right(
    refusing: &FailingAlloc<Global>,
    scenario: &[u8],
    whole: &Report,
    told: &mut Told,
) -> bool {
    match replay(refusing, scenario) {
        Ok(report) => is_right(&report, whole, refusing.has_refused(), told),
        Err(fault) => fault == ScenarioError::Memory && refusing.has_refused(),
    }
}

/// Replays with one growth refused after so many. Returns whether none was refused. Any other outcome than an allocation
/// failure fails.
fn replay_succeeds(
    rt: &impl Abort,
    alloc: Global,
    scenario: &[u8],
    whole: &Report,
    served: u64,
    told: &mut Told,
) -> bool {
    let refusing = FailingAlloc::new(alloc, served);
    if !goes_right(&refusing, scenario, whole, told) {
        panic!(rt; "{served} served");
    }
    !refusing.has_refused()
}

/// Refuses one growth after the other, and returns which lines told it.
fn refuse_each(rt: &impl Abort, alloc: Global, scenario: &[u8], whole: &Report) -> Told {
    let mut told = Told {
        memory: false,
        device: false,
    };
    for served in 0..10_000u64 {
        if replay_succeeds(rt, alloc, scenario, whole, served, &mut told) {
            return told;
        }
    }
    panic!(rt; "some growth is always refused");
}

/// Refuses each growth of a scenario, some of an arrival or an opening and some of the disk's record.
fn expect_told(rt: &impl Abort, alloc: Global, lines: &str) {
    let scenario = format!(in alloc; "{SETTINGS}{lines}").expect(rt, "memory");
    let whole = replay(alloc, scenario.as_bytes()).expect(rt, "a report");
    let told = refuse_each(rt, alloc, scenario.as_bytes(), &whole);
    assert!(rt; told.memory);
    assert!(rt; told.device);
}

#[test]
fn each_growth_is_refused(rt: HostRuntime) {
    expect_told(&rt, rt.alloc(), LINES);
}

#[test]
fn each_growth_of_a_store_that_is_carried_over_is_refused(rt: HostRuntime) {
    expect_told(&rt, rt.alloc(), CARRIED);
}
