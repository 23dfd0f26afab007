//! Writers that fail.

use super::{BINDING, FROM, RELEASE, SCENARIO, SUCCESS};
use std::io::{ErrorKind, Write};
use std::test::Fail;
use std::{fs, io};
use turn_program::run_words;

/// A device with room for so many bytes, which takes at most `step` of them at once. If it buffers what it took until
/// a flush, that flush may fail.
#[derive(Drop)]
struct Device {
    bytes: Vec<u8>,
    room: usize,
    step: usize,
    flushes: bool,
}

impl Write for Device {
    fn write(&mut self, buf: &[u8]) -> io::Result<usize> {
        let taken = buf.len().min(self.step).min(self.room);
        if taken == 0 {
            return Err(io::Error::from(ErrorKind::StorageFull));
        }
        self.bytes.extend_from_slice(&buf[..taken])?;
        self.room -= taken;
        Ok(taken)
    }

    fn flush(&mut self) -> io::Result<()> {
        if self.flushes {
            Ok(())
        } else {
            Err(io::Error::from(ErrorKind::StorageFull))
        }
    }
}

/// Runs `turn answer` with a datagram, over two devices: the status.
fn answer(rt: &HostRuntime, datagram: &str, out: &mut Device, err: &mut Device) -> u8 {
    let words = ["turn", "answer", "--from", FROM, datagram];
    run_words(rt, rt, RELEASE, &words, out, err, io::sink())
}

/// A device's room, step and whether it flushes, and the status of a success that is printed on it.
type Case = (usize, usize, bool, u8);

const CASES: [Case; 6] = [
    (65, 65, true, 0),
    (65, 1, true, 0),
    (0, 65, true, 3),
    (1, 65, true, 3),
    (64, 1, true, 3),
    (65, 65, false, 3),
];

fn play(rt: &HostRuntime, case: &Case) -> Result<(), Fail> {
    let (room, step, flushes, status) = *case;
    let mut out = Device {
        bytes: Vec::new(rt.alloc()),
        room,
        step,
        flushes,
    };
    let mut err = Device {
        bytes: Vec::new(rt.alloc()),
        room: 100,
        step: 100,
        flushes: true,
    };
    let got = answer(rt, BINDING, &mut out, &mut err);
    let said = if status == 0 { "" } else { "turn: device\n" };
    if got != status
        || Some(out.bytes.as_slice()) != SUCCESS.as_bytes().get(..room)
        || err.bytes.as_slice() != said.as_bytes()
    {
        return Err(Fail::new(room));
    }
    Ok(())
}

#[test]
fn a_full_standard_output_is_a_device_fault(rt: HostRuntime) -> Result<(), Fail> {
    for case in &CASES {
        play(&rt, case)?;
    }
    Ok(())
}

/// The status of a datagram over two devices that take nothing.
fn silent_status(rt: &HostRuntime, datagram: &str) -> u8 {
    let mut out = Device {
        bytes: Vec::new(rt.alloc()),
        room: 0,
        step: 1,
        flushes: true,
    };
    let mut err = Device {
        bytes: Vec::new(rt.alloc()),
        room: 0,
        step: 1,
        flushes: false,
    };
    answer(rt, datagram, &mut out, &mut err)
}

#[test]
fn a_full_standard_error_changes_no_status(rt: HostRuntime) {
    assert!(rt; silent_status(&rt, "0g") == 1);
    assert!(rt; silent_status(&rt, BINDING) == 3);
}

/// The status of a replay whose report has 15 bytes, over a device with room for so many that may flush.
fn replay_status(rt: &HostRuntime, path: &str, room: usize, flushes: bool) -> u8 {
    let mut out = Device {
        bytes: Vec::new(rt.alloc()),
        room,
        step: 4,
        flushes,
    };
    let mut err = Vec::new(rt.alloc());
    run_words(
        rt,
        rt,
        RELEASE,
        &["turn", "replay", path],
        &mut out,
        &mut err,
        io::sink(),
    )
}

#[test]
fn a_report_that_is_not_taken_is_a_device_fault(rt: HostRuntime) -> io::Result<()> {
    let path = "turn_replay.written";
    fs::write(&rt, path, SCENARIO)?;
    assert!(rt; replay_status(&rt, path, 15, true) == 0);
    assert!(rt; replay_status(&rt, path, 14, true) == 3);
    assert!(rt; replay_status(&rt, path, 0, true) == 3);
    assert!(rt; replay_status(&rt, path, 15, false) == 3);
    fs::remove_file(&rt, path)
}
