//! Runs with some of standard input, output and error closed: a test is a process of its own, so it may close them.

use super::stores::allocated;
use super::{SCENARIO, run_line};
use std::fs::{self, File};
use std::io;
use std::os::fd::{AsFd, AsRawFd, IntoRawFd, OwnedFd};
use std::test::Fail;

const CONFIG: &str = "realm example.org
secret 0000000000000000000000000000000000000000000000000000000000000000
listen 127.0.0.1:0
relay 127.0.0.1 63031 63039
limits 2 1 1 1 8
";

/// Closes standard input, output and error where their bit is set, the lowest first, and leaves the others open on /dev/null.
fn close(rt: &HostRuntime, closed: u8) -> io::Result<()> {
    for descriptor in 0..3 {
        libc::close(descriptor);
    }
    for _ in 0..3 {
        let mut options = File::options();
        options.read(true).write(true);
        let _descriptor = options.open(rt, "/dev/null")?.into_raw_fd();
    }
    for descriptor in 0..3u8 {
        if closed >> descriptor & 1 == 1 {
            libc::close(i32::from(descriptor));
        }
    }
    Ok(())
}

/// Standard output and standard error, so that they can be opened again.
fn save(rt: &HostRuntime) -> io::Result<[OwnedFd; 2]> {
    Ok([
        rt.stdout().as_fd().try_clone_to_owned()?,
        rt.stderr().as_fd().try_clone_to_owned()?,
    ])
}

fn restore(rt: &HostRuntime, saved: &[OwnedFd; 2]) -> io::Result<()> {
    close(rt, 6)?;
    for descriptor in saved {
        let path = format!(in rt.alloc(); "/proc/self/fd/{}", descriptor.as_raw_fd())?;
        let mut options = File::options();
        options.write(true);
        let _descriptor = options.open(rt, &path)?.into_raw_fd();
    }
    Ok(())
}

/// A command, and whether it uses the store.
const CASES: [(&str, bool); 7] = [
    (
        "turn answer --from 192.0.2.1:32853 000100002112a4420102030405060708090a0b0c",
        false,
    ),
    ("turn replay turn_streams.scenario", false),
    ("turn version", false),
    (
        "turn format --config turn_streams.conf --store turn_streams.store --area 304",
        true,
    ),
    ("turn inspect --store turn_streams.store", true),
    (
        "turn check --config turn_streams.conf --store turn_streams.store",
        true,
    ),
    (
        "turn serve --config turn_streams.conf --store turn_streams.store --turns 1",
        true,
    ),
];

/// Without `fill_streams` a file that stays open would take the place of a stream: a command over a store is a device fault, as is one
/// that can't print, and the store stays as it is.
fn expect(rt: &HostRuntime, closed: u8, line: &str, uses_store: bool) -> Result<(), Fail> {
    let status = if uses_store || closed & 2 == 2 { 3 } else { 0 };
    let store = allocated(rt.alloc(), 63_039)?;
    close(rt, closed)?;
    fs::write(rt, "turn_streams.store", &store)?;
    let (mut out, mut err) = (io::writer(rt), rt.stderr());
    let got = run_line(rt, rt, line, &mut out, &mut err)?;
    if got != status || fs::read(rt, "turn_streams.store")?.as_slice() != store.as_slice() {
        return Err(Fail::new(format_args!("{closed} {line}")));
    }
    Ok(())
}

/// Each command, with every set of closed streams.
fn expect_all(rt: &HostRuntime) -> Result<(), Fail> {
    for closed in 1..8 {
        for (line, uses_store) in &CASES {
            expect(rt, closed, line, *uses_store)?;
        }
    }
    Ok(())
}

/// One test, since all have the same files and ports. A script closes the streams of the program, which has them filled.
#[test]
fn what_is_printed_never_goes_into_a_store(rt: HostRuntime) -> Result<(), Fail> {
    fs::write(&rt, "turn_streams.conf", CONFIG)?;
    fs::write(&rt, "turn_streams.scenario", SCENARIO)?;
    let saved = save(&rt)?;
    let come = expect_all(&rt);
    let _ = restore(&rt, &saved);
    come?;
    fs::remove_file(&rt, "turn_streams.conf")?;
    fs::remove_file(&rt, "turn_streams.scenario")?;
    fs::remove_file(&rt, "turn_streams.store")?;
    Ok(())
}
