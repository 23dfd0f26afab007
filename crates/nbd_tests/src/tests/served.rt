//! Exports that are served by scripts.

ghost use Rattle.std.specs.Prelude.{◌≡◌, ◌≤◌};

use super::script::{BOUND, KEPT, Script};
use std::cell::Cell;
use std::process::Abort;
use turn_disk::{Disk, Idle, Meanwhile};
use turn_nbd::{NbdDisk, NbdError};

/// The server's part of a handshake at an export of 64 bytes with FLUSH.
const HANDSHAKE: [u8; 70] = *b"NBDMAGICIHAVEOPT\0\x03\
\0\x03\xe8\x89\x04\x55\x65\xa9\0\0\0\x07\0\0\0\x03\0\0\0\x0c\0\0\0\0\0\0\0\0\0\x40\0\x05\
\0\x03\xe8\x89\x04\x55\x65\xa9\0\0\0\x07\0\0\0\x01\0\0\0\0";

/// Its replies to a write, a flush, and a read of 4 bytes.
const REPLIES: [u8; 52] = *b"\x67\x44\x66\x98\0\0\0\0\0\0\0\0\0\0\0\0\
\x67\x44\x66\x98\0\0\0\0\0\0\0\0\0\0\0\x01\
\x67\x44\x66\x98\0\0\0\0\0\0\0\0\0\0\0\x02abcd";

/// What a client sends: its flags, GO with the export "x", a write of "efg" at 60, a flush, a read of 4 bytes at 8, and its end.
const SENT: [u8; 142] = *b"\0\0\0\x03IHAVEOPT\0\0\0\x07\0\0\0\x07\0\0\0\x01x\0\0\
\x25\x60\x95\x13\0\0\0\x01\0\0\0\0\0\0\0\0\0\0\0\0\0\0\0\x3c\0\0\0\x03efg\
\x25\x60\x95\x13\0\0\0\x03\0\0\0\0\0\0\0\x01\0\0\0\0\0\0\0\0\0\0\0\0\
\x25\x60\x95\x13\0\0\0\0\0\0\0\0\0\0\0\x02\0\0\0\0\0\0\0\x08\0\0\0\x04\
\x25\x60\x95\x13\0\0\0\x02\0\0\0\0\0\0\0\x03\0\0\0\0\0\0\0\0\0\0\0\0";

/// All that a server sends.
fn answers() -> [u8; 122] {
    let mut bytes = [0; 122];
    bytes[..70].copy_from_slice(&HANDSHAKE);
    bytes[70..].copy_from_slice(&REPLIES);
    bytes
}

/// Counts its pieces. Whether there may be more to do at once is always the same.
#[derive(Drop)]
struct Counter {
    pieces: u32,
    more: bool,
}

impl Meanwhile for Counter {
    ghost passes = { λ old new. (old.pieces ≤ new.pieces) × (new.more ≡ old.more) };

    fn pass(&mut self) -> bool {
        self.pieces = self.pieces.saturating_add(1);
        self.more
    }
}

/// Opens, writes, flushes and reads. How many of these succeeded, and how many device calls failed.
fn use_export<M: Meanwhile>(server: Script<'_>, other: &mut M) -> Result<(u8, u64), NbdError> {
    let mut disk = NbdDisk::over(server, "x", true)?;
    if disk.size() != 64 {
        return Ok((0, 0));
    }
    let mut done = 0;
    if disk.write_at(60, b"efg", other).is_ok() {
        done += 1;
    }
    if disk.sync(other).is_ok() {
        done += 2;
    }
    let mut buffer = [0; 4];
    if disk.read_at(8, &mut buffer).is_ok() && buffer == *b"abcd" {
        done += 4;
    }
    Ok((done, disk.failures()))
}

/// The same with a server of these bytes, and how many bytes it is sent.
fn served(answers: &[u8], at_once: usize) -> (Result<(u8, u64), &'static str>, usize, [u8; KEPT]) {
    let sent = Cell::new([0; KEPT]);
    let count = Cell::new(0);
    let server = Script {
        answers,
        at_once,
        sent: &sent,
        count: &count,
        delay: 0,
        asked: 0,
        pauses: &Cell::new(0),
    };
    let outcome = use_export(server, &mut Idle).map_err(|why| why.words());
    (outcome, count.get(), sent.get())
}

#[test]
fn an_export_is_written_flushed_and_read(rt: HostRuntime) {
    for at_once in [1, 3, 1_000] {
        let (outcome, count, sent) = served(&answers(), at_once);
        assert!(rt; outcome == Ok((7, 0)));
        assert!(rt; count == SENT.len());
        assert!(rt; sent.starts_with(&SENT));
    }
}

// What comes too late, or not at all, is a failed call, and so is each later one, which sends nothing, not even that the connection ends.
#[test]
fn a_stream_that_ends_fails_each_later_call(rt: HostRuntime) {
    for size in 0..122usize {
        let all = answers();
        let (outcome, count, _) = served(&all[..size], 7);
        let expected = match size {
            0..70 => Err(NbdError::Closed.words()),
            70..86 => Ok((0, 3)),
            86..102 => Ok((1, 2)),
            _ => Ok((3, 1)),
        };
        assert!(rt; outcome == expected, "{size}");
        let sent = match size {
            0..18 => 0,
            18..70 => 27,
            70..86 => 58,
            86..102 => 86,
            _ => 114,
        };
        assert!(rt; count == sent, "{size}");
    }
}

// One byte of the server's is another.
fn changed<R: Abort>(rt: &R, at: usize, byte: u8) -> Result<(u8, u64), &'static str> {
    let mut bytes = answers();
    assert!(rt; at < bytes.len());
    bytes[at] = byte;
    served(&bytes, 1_000).0
}

#[test]
fn each_fault_of_a_handshake_has_its_name(rt: HostRuntime) {
    for (at, byte, expected) in [
        (0, b'n', NbdError::Handshake),
        (15, b'U', NbdError::Handshake),
        (17, 2, NbdError::Unsupported),
        (18, 1, NbdError::Handshake),
        (29, 1, NbdError::Handshake),
        (30, 0x80, NbdError::NoExport),
        (33, 2, NbdError::Handshake),
        (37, 13, NbdError::Handshake),
        (40, 0x80, NbdError::Size),
        (47, 0, NbdError::Size),
        (49, 7, NbdError::ReadOnly),
        (49, 1, NbdError::NoFlush),
        (49, 4, NbdError::NoFlush),
        (62, 0x40, NbdError::Handshake),
        (65, 3, NbdError::Handshake),
        (66, 1, NbdError::Handshake),
    ] {
        assert!(rt;
            changed(&rt, at, byte) == Err(expected.words()),
            "{at} {byte}"
        );
    }
}

// Of each reply: its magic, its error code, and its cookie.
#[test]
fn a_reply_of_no_success_to_the_request_fails(rt: HostRuntime) {
    for (at, done, failures) in [(70, 0, 3), (86, 1, 2), (102, 3, 1)] {
        for part in [0, 3, 4, 7, 8, 15] {
            let outcome = changed(&rt, at + part, 9);
            assert!(rt; outcome == Ok((done, failures)), "{at} {part}");
        }
    }
}

/// A server that doesn't know GO, by which the export has 256 bytes and is read-only, without zeros after them.
const BY_NAME: [u8; 48] = *b"NBDMAGICIHAVEOPT\0\x03\
\0\x03\xe8\x89\x04\x55\x65\xa9\0\0\0\x07\x80\0\0\x01\0\0\0\0\
\0\0\0\0\0\0\x01\0\0\x03";

fn size_to_read(answers: &[u8]) -> Result<usize, &'static str> {
    let sent = Cell::new([0; KEPT]);
    let count = Cell::new(0);
    let server = Script {
        answers,
        at_once: 1_000,
        sent: &sent,
        count: &count,
        delay: 0,
        asked: 0,
        pauses: &Cell::new(0),
    };
    let disk = NbdDisk::over(server, "", false).map_err(|why| why.words())?;
    Ok(disk.size())
}

#[test]
fn an_export_by_name_follows_an_unknown_go(rt: HostRuntime) {
    assert!(rt; size_to_read(&BY_NAME) == Ok(256));
    assert!(rt; size_to_read(&BY_NAME[..38]) == Err(NbdError::NoExport.words()));
    let mut with_zeros = [0; 48 + 124];
    with_zeros[..48].copy_from_slice(&BY_NAME);
    with_zeros[17] = 1;
    assert!(rt; size_to_read(&with_zeros) == Ok(256));
    assert!(rt; size_to_read(&with_zeros[..171]) == Err(NbdError::Closed.words()));
}

#[test]
fn an_export_that_is_opened_to_be_read_takes_no_write(rt: HostRuntime) {
    let sent = Cell::new([0; KEPT]);
    let count = Cell::new(0);
    let server = Script {
        answers: &answers(),
        at_once: 1_000,
        sent: &sent,
        count: &count,
        delay: 0,
        asked: 0,
        pauses: &Cell::new(0),
    };
    let mut disk = NbdDisk::over(server, "x", false).expect(&rt, "an export");
    let before = count.get();
    assert!(rt; disk.size() == 64);
    assert!(rt; disk.write_at(0, b"a", &mut Idle).is_err());
    assert!(rt; disk.sync(&mut Idle).is_err());
    assert!(rt; disk.failures() == 2);
    assert!(rt; count.get() == before);
}

/// The replies of success to seven requests.
const SUCCESSES: [u8; 112] = *b"\x67\x44\x66\x98\0\0\0\0\0\0\0\0\0\0\0\0\
\x67\x44\x66\x98\0\0\0\0\0\0\0\0\0\0\0\x01\
\x67\x44\x66\x98\0\0\0\0\0\0\0\0\0\0\0\x02\
\x67\x44\x66\x98\0\0\0\0\0\0\0\0\0\0\0\x03\
\x67\x44\x66\x98\0\0\0\0\0\0\0\0\0\0\0\x04\
\x67\x44\x66\x98\0\0\0\0\0\0\0\0\0\0\0\x05\
\x67\x44\x66\x98\0\0\0\0\0\0\0\0\0\0\0\x06";

/// The third request, a write of "b" at 60 with FUA.
const WITH_FUA: [u8; 29] =
    *b"\x25\x60\x95\x13\0\x01\0\x01\0\0\0\0\0\0\0\x02\0\0\0\0\0\0\0\x3c\0\0\0\x01b";

// A write has 29 bytes, a flush 28, and what comes before them 27. The export has these transmission flags.
#[test]
fn a_durable_write_has_fua_where_nothing_else_is_pending(rt: HostRuntime) {
    for (flags, has_fua, second, last) in [(0x05, false, 141, 227), (0x0d, true, 113, 199)] {
        let mut answers = [0; 182];
        answers[..70].copy_from_slice(&HANDSHAKE);
        answers[70..].copy_from_slice(&SUCCESSES);
        answers[49] = flags;
        let sent = Cell::new([0; KEPT]);
        let count = Cell::new(0);
        let server = Script {
            answers: &answers,
            at_once: 1_000,
            sent: &sent,
            count: &count,
            delay: 0,
            asked: 0,
            pauses: &Cell::new(0),
        };
        let mut disk = NbdDisk::over(server, "x", true).expect(&rt, "an export");
        assert!(rt; disk.size() == 64);
        assert!(rt; count.get() == 27);
        // What was found may be pending.
        assert!(rt; disk.write_durably(0, b"a", &mut Idle).is_ok());
        assert!(rt; count.get() == 84);
        assert!(rt; disk.write_durably(60, b"b", &mut Idle).is_ok());
        assert!(rt; count.get() == second);
        assert!(rt; sent.get()[84..].starts_with(&WITH_FUA) == has_fua);
        assert!(rt; disk.write_at(0, b"c", &mut Idle).is_ok());
        assert!(rt; disk.write_durably(60, b"d", &mut Idle).is_ok());
        assert!(rt; count.get() == last);
    }
}

// Nothing is there so often before each reply. Each time a piece of the other is done, except at the read.
#[test]
fn another_is_done_before_a_reply_is_there(rt: HostRuntime) {
    for (delay, more, pieces, paused) in [
        (0, false, 0, 0),
        (1, false, 2, 0),
        (5, false, 10, 12),
        (5, true, 10, 4),
        (BOUND, true, 2 * BOUND, BOUND - 1),
    ] {
        let sent = Cell::new([0; KEPT]);
        let count = Cell::new(0);
        let pauses = Cell::new(0);
        let mut other = Counter { pieces: 0, more };
        let server = Script {
            answers: &answers(),
            at_once: 7,
            sent: &sent,
            count: &count,
            delay,
            asked: 0,
            pauses: &pauses,
        };
        let outcome = use_export(server, &mut other).map_err(|why| why.words());
        assert!(rt; outcome == Ok((7, 0)), "{delay}");
        assert!(rt; other.pieces == pieces, "{delay}");
        assert!(rt; pauses.get() == paused, "{delay}");
        assert!(rt; count.get() == SENT.len());
        assert!(rt; sent.get().starts_with(&SENT));
    }
}

#[test]
fn a_reply_that_never_comes_fails_its_request(rt: HostRuntime) {
    let sent = Cell::new([0; KEPT]);
    let count = Cell::new(0);
    let mut other = Counter {
        pieces: 0,
        more: true,
    };
    let server = Script {
        answers: &answers(),
        at_once: 1_000,
        sent: &sent,
        count: &count,
        delay: u32::MAX,
        asked: 0,
        pauses: &Cell::new(0),
    };
    let outcome = use_export(server, &mut other).map_err(|why| why.words());
    assert!(rt; outcome == Ok((0, 3)));
    assert!(rt; other.pieces == BOUND);
    assert!(rt; count.get() == 58);
}
