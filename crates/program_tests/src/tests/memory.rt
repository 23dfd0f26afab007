//! Each growth refused in turn.

use super::{BINDING, FROM, SUCCESS};
use failing_alloc::FailingAlloc;
use std::alloc::Global;
use std::test::Fail;
use turn_config::values::{bytes, endpoint};
use turn_program::reply_to;
use turn_types::{FiveTuple, Moment};

/// Reads hex with one growth refused after so many, and again. Returns whether none was refused.
fn bytes_succeed(alloc: Global, served: u64) -> Result<bool, Fail> {
    let refusing = FailingAlloc::new(alloc, served);
    let Ok(found) = bytes(&refusing, b"00fF7a") else {
        let again = bytes(&refusing, b"00fF7a")?;
        return if refusing.has_refused() && again.is_some() {
            Ok(false)
        } else {
            Err(Fail::new(served))
        };
    };
    let read = found.ok_or("bytes")?;
    if refusing.has_refused() || read.as_slice() != b"\x00\xFF\x7A".as_slice() {
        return Err(Fail::new(served));
    }
    Ok(true)
}

#[test]
fn bytes_take_memory_once(rt: HostRuntime) -> Result<(), Fail> {
    assert!(rt; !bytes_succeed(rt.alloc(), 0)?);
    assert!(rt; bytes_succeed(rt.alloc(), 1)?);
    Ok(())
}

/// Makes the reply to a Binding request with one growth refused after so many, and again. Returns whether none was refused.
fn reply_succeeds(alloc: Global, served: u64) -> Result<bool, Fail> {
    let client = endpoint(FROM.as_bytes()).ok_or("an endpoint")?;
    let server = client;
    let five_tuple = FiveTuple { client, server };
    let moment = Moment::new(0).ok_or("a moment")?;
    let datagram = bytes(alloc, BINDING.as_bytes())?.ok_or("a datagram")?;
    let refusing = FailingAlloc::new(alloc, served);
    let Ok(found) = reply_to(&refusing, five_tuple, moment, &datagram) else {
        let again = reply_to(&refusing, five_tuple, moment, &datagram)?;
        return if refusing.has_refused() && again.is_some() {
            Ok(false)
        } else {
            Err(Fail::new(served))
        };
    };
    let text = hex::encode(alloc, found.ok_or("a reply")?.as_slice())?;
    if refusing.has_refused() || text.as_bytes() != SUCCESS.trim_end().as_bytes() {
        return Err(Fail::new(served));
    }
    Ok(true)
}

#[test]
fn a_reply_is_refused_at_each_growth(rt: HostRuntime) -> Result<(), Fail> {
    assert!(rt; !reply_succeeds(rt.alloc(), 0)?);
    for served in 1..16u64 {
        if reply_succeeds(rt.alloc(), served)? {
            return Ok(());
        }
    }
    Err(Fail::new("some growth is always refused"))
}
