//! What is answered while a commit waits for its disk.

use std::alloc::Global;
use test_requests::Ports;
use test_servers::{Datagram, Scenario};
use turn_cred::Credentials;
use turn_engine::{Beside, Relayed, WhileCommitting};

/// The allocations of alice, by port 50000, and of bob, by port 50001, each with a permission.
const BOTH: &[u8] = b"limits 8 4 4 8 8
format 4096
expect opened clock 0
at 401
ask 192.0.2.1:32853 alice 0102030405060708090a0b0c allocate
ask 192.0.2.2:40000 bob 000000000000000000000002 allocate
ask 192.0.2.1:32853 alice 0102030405060708090a0b0c permit peer=203.0.113.5:7000
ask 192.0.2.2:40000 bob 000000000000000000000002 permit peer=203.0.113.5:7000
commit
expect client 192.0.2.1:32853 success allocate 0102030405060708090a0b0c port=50000 life=600
expect client 192.0.2.2:40000 success allocate 000000000000000000000002 port=50001 life=600
expect client 192.0.2.1:32853 success permit 0102030405060708090a0b0c
expect client 192.0.2.2:40000 success permit 000000000000000000000002
expect committed 4
at 402";

/// At second 402, staged and not committed.
const REFRESH: &[u8] = b"ask 192.0.2.1:32853 alice 0102030405060708090a0b0c refresh";

/// The same, and the clock is at second 403.
const LATER: &[u8] = b"ask 192.0.2.1:32853 alice 0102030405060708090a0b0c refresh
at 403
send 192.0.2.2:40000 203.0.113.5:7000 68656c6c6f";

/// A Binding request.
const BINDING: &[u8] = b"raw 192.0.2.3:40000 000100002112a4420102030405060708090a0b0c";

/// An Allocate without credentials.
const NO_CREDENTIALS: &[u8] = b"raw 192.0.2.3:40000 000300002112a4420102030405060708090a0b0c";

/// What a piece of work finds.
#[derive(Clone, Copy, PartialEq, Eq)]
enum Found {
    Nothing,
    Waits,
    Dropped,
    Sent,
}

use Found::{Dropped, Sent, Waits};

/// What is staged, what arrives meanwhile, and what is found of it. A frame is written by four device calls, each of which waits for three
/// pieces.
const MEANWHILE: [(&[u8], &[u8], Found); 12] = [
    (
        REFRESH,
        b"send 192.0.2.2:40000 203.0.113.5:7000 68656c6c6f",
        Sent,
    ),
    (
        REFRESH,
        b"send 192.0.2.2:40000 203.0.113.6:7000 68656c6c6f",
        Dropped,
    ),
    (REFRESH, b"raw 192.0.2.2:40000 ff", Dropped),
    (REFRESH, b"peer 50001 203.0.113.5:7000 616263", Sent),
    (
        REFRESH,
        b"send 192.0.2.1:32853 203.0.113.5:7000 68656c6c6f",
        Waits,
    ),
    (REFRESH, b"peer 50000 203.0.113.5:7000 616263", Waits),
    (REFRESH, b"peer 50002 203.0.113.5:7000 616263", Waits),
    (
        REFRESH,
        b"ask 192.0.2.2:40000 bob 000000000000000000000002 refresh",
        Waits,
    ),
    (REFRESH, BINDING, Sent),
    (REFRESH, NO_CREDENTIALS, Sent),
    (
        REFRESH,
        b"raw 192.0.2.1:32853 000100002112a4420102030405060708090a0b0c",
        Waits,
    ),
    (
        LATER,
        b"send 192.0.2.2:40000 203.0.113.5:7000 68656c6c6f",
        Waits,
    ),
];

/// Answers one datagram in each piece, and counts the pieces in which the same was found.
#[derive(Drop)]
struct Answering {
    datagram: Datagram,
    found: Found,
    pieces: u32,
}

impl WhileCommitting<Credentials, Ports, Global> for Answering {
    ghost passes = { λ beside old new. Unit {0} };

    fn pass(&mut self, beside: &Beside<'_, '_, Credentials, Ports, Global>) -> bool {
        let found = match beside.relay(&self.datagram.arrival()) {
            Ok(Relayed::Waits) => Waits,
            Ok(Relayed::Answered(Some(_))) => Sent,
            Ok(Relayed::Answered(None)) => Dropped,
            Err(_) => Found::Nothing,
        };
        if self.pieces == 0 || self.found == found {
            self.pieces = self.pieces.wrapping_add(1);
        }
        self.found = found;
        false
    }
}

/// What was found of a datagram while what is staged was committed, and in how many pieces.
fn found_meanwhile(alloc: Global, staged: &[u8], line: &[u8]) -> Option<(Found, u32)> {
    let mut scenario = Scenario::begin(alloc, alloc, BOTH)?;
    if !scenario.play_all(staged) {
        return None;
    }
    let answering = Answering {
        datagram: scenario.datagram(line)?,
        found: Found::Nothing,
        pieces: 0,
    };
    let server = scenario.server_mut()?;
    server.disk().wait_for(3);
    let (committed, answering) = server.commit_while(answering);
    committed.ok()?;
    Some((answering.found, answering.pieces))
}

#[test]
fn what_is_apart_from_what_is_staged_is_answered_while_a_commit_waits(rt: HostRuntime) {
    for (staged, line, found) in MEANWHILE {
        assert!(rt; found_meanwhile(rt.alloc(), staged, line) == Some((found, 12)));
    }
}
