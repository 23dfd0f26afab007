//! A client and a peer over sockets of 127.0.0.1, and a server over a store in a file that is dropped and opened again.

use super::talks::{PORTS, end_right, go_on, make_loopback};
use std::fs::{self, File};
use std::test::Fail;
use turn_client::{Allocated, ClientError, Conversation, limits};
use turn_disk::FileDisk;
use turn_program::format_disk;
use turn_serving::Commits;
use turn_store::least_area;

pub type Talk<'a> = Conversation<'a, FileDisk<File>, HostRuntime>;

/// What happens after the Allocate.
#[derive(Clone, Copy)]
enum Step {
    Permit,
    Send(&'static [u8]),
    Receive(&'static [u8]),
    Bind(u16),
    SendOver(u16, &'static [u8]),
    ReceiveOver(u16, &'static [u8]),
    Repeat,
    Refresh(u32, u32),
    Challenge,
}

const STEPS: [Step; 12] = [
    Step::Permit,
    Step::Send(b"hello"),
    Step::Receive(b"world"),
    Step::Bind(0x4000),
    Step::SendOver(0x4000, b"over a channel"),
    Step::ReceiveOver(0x4000, b"and back"),
    Step::Send(b""),
    Step::Repeat,
    Step::Refresh(1200, 1200),
    Step::SendOver(0x4000, b"still"),
    Step::Challenge,
    Step::Refresh(0, 0),
];

pub fn are_got(got: Result<Vec<u8>, ClientError>, bytes: &[u8]) -> bool {
    match got {
        Ok(got) => got.as_slice() == bytes,
        Err(_) => false,
    }
}

/// Takes a step, and says whether what came of it is right.
fn is_right(rt: &HostRuntime, talk: &mut Talk<'_>, first: &Allocated, step: Step) -> bool {
    let port = first.port;
    match step {
        Step::Permit => talk.permit(rt).is_ok(),
        Step::Send(bytes) => are_got(talk.send(rt, port, bytes), bytes),
        Step::Receive(bytes) => are_got(talk.receive(rt, port, bytes), bytes),
        Step::Bind(number) => talk.bind(rt, number).is_ok(),
        Step::SendOver(number, bytes) => are_got(talk.send_over(rt, number, port, bytes), bytes),
        Step::ReceiveOver(number, bytes) => {
            are_got(talk.receive_over(rt, number, port, bytes), bytes)
        }
        Step::Repeat => talk.repeat(rt, first) == Ok(true),
        Step::Refresh(seconds, granted) => talk.refresh(rt, seconds) == Ok(granted),
        Step::Challenge => talk.challenge(rt) == Ok(401),
    }
}

/// Drops the server, and opens it again over the store in its file.
pub fn reopen<'a>(rt: &'a HostRuntime, talk: Talk<'a>, path: &str) -> Result<Talk<'a>, Fail> {
    let (disk, loopback) = talk.end();
    drop(disk);
    Ok(loopback.serve(rt, FileDisk::open(rt, path)?)?)
}

fn make_disk(rt: &HostRuntime, path: &str) -> Result<FileDisk<File>, Fail> {
    let area = least_area(limits());
    let mut disk = FileDisk::create(rt, path, 64 + 2 * area)?;
    match format_disk(rt.alloc(), &mut disk, limits(), area) {
        Ok(()) => Ok(disk),
        Err(_) => Err(Fail::new("format")),
    }
}

/// A server over a new store in a file.
pub fn begin<'a>(rt: &'a HostRuntime, path: &str) -> Result<Talk<'a>, Fail> {
    let disk = make_disk(rt, path)?;
    Ok(make_loopback(rt, PORTS, 1, Commits::EachTurn)?.serve(rt, disk)?)
}

fn allocate(rt: &HostRuntime, talk: &mut Talk<'_>) -> Result<Allocated, Fail> {
    if talk.challenge(rt)? != 401 {
        return Err(Fail::new("challenge"));
    }
    let allocated = talk.allocate(rt)?;
    if allocated.lifetime != 600 {
        return Err(Fail::new("lifetime"));
    }
    Ok(allocated)
}

/// Whether all steps come out right in one conversation.
fn are_right(rt: &HostRuntime, talk: &mut Talk<'_>) -> Result<bool, Fail> {
    let first = allocate(rt, talk)?;
    Ok(STEPS.iter().all(|step| is_right(rt, talk, &first, *step)))
}

/// Takes all steps, each of a server that was opened again.
fn take_all_again<'a>(
    rt: &'a HostRuntime,
    talk: Talk<'a>,
    path: &str,
    first: &Allocated,
) -> Result<(), Fail> {
    let mut talk = talk;
    for step in &STEPS {
        let mut opened = reopen(rt, talk, path)?;
        let right = is_right(rt, &mut opened, first, *step);
        talk = go_on(opened, Ok(right))?;
    }
    talk.end();
    Ok(())
}

/// Each step comes out right, if the server is dropped and opened again before it.
fn expect_steps_again(rt: &HostRuntime, path: &str) -> Result<(), Fail> {
    let mut talk = begin(rt, path)?;
    let taken = match allocate(rt, &mut talk) {
        Ok(first) => take_all_again(rt, talk, path, &first),
        Err(fail) => {
            talk.end();
            Err(fail)
        }
    };
    let _ = fs::remove_file(rt, path);
    taken
}

#[test]
fn a_conversation_over_a_file(rt: HostRuntime) -> Result<(), Fail> {
    let mut talk = begin(&rt, "turn_talk.store")?;
    let right = are_right(&rt, &mut talk);
    end_right(talk, right)?;
    fs::remove_file(&rt, "turn_talk.store")?;
    Ok(())
}

#[test]
fn a_conversation_goes_on_when_the_server_is_opened_again(rt: HostRuntime) -> Result<(), Fail> {
    expect_steps_again(&rt, "turn_again.store")
}
