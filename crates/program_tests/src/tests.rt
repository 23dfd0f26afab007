mod addresses;
mod beside;
mod channels;
mod clocks;
mod conversations;
mod counted;
mod faults;
mod full_disk;
mod locks;
mod memory;
mod moments;
mod names;
mod old_stores;
mod own;
mod paced;
mod pairs;
mod received;
mod served;
mod sockets;
mod started;
mod starts;
mod stores;
mod streams;
mod talks;
mod turns;
mod watches;
mod writers;

use std::io::{self, Write};
use std::rt::Clock;
use std::test::Fail;
use test_files::ProcInFolder;
use turn_program::{Release, run_words};

const FROM: &str = "192.0.2.1:32853";

/// A Binding request, and what `turn answer` prints of its response.
const BINDING: &str = "000100002112a4420102030405060708090a0b0c";

const SUCCESS: &str = "0101000c2112a4420102030405060708090a0b0c002000080001a147e112a643\n";

/// What a program of these tests says it is made from.
const RELEASE: Release<'static> = Release {
    version: "1.2.3",
    sources: "00ff",
    toolchain: "a toolchain",
};

/// A scenario whose report has 15 bytes.
const SCENARIO: &str = "realm example.org
secret 0000000000000000000000000000000000000000000000000000000000000000
listen 192.0.2.100:3478
relay 198.51.100.1 50000 50009
limits 2 1 1 1 8
format1 238
";

/// Runs the program by a clock on a line of words, its name first. Returns the status.
fn run_line<C: Clock, W: Write, E: Write>(
    rt: &HostRuntime,
    clock: &C,
    line: &str,
    out: &mut W,
    err: &mut E,
) -> Result<u8, Fail> {
    let mut words = Vec::new(rt.alloc());
    for word in line.split(' ') {
        words.push(word)?;
    }
    let system = ProcInFolder(rt);
    Ok(run_words(
        &system,
        clock,
        RELEASE,
        words.as_slice(),
        out,
        err,
        io::sink(),
    ))
}
