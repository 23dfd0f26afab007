//! Requests of a client, and the users whom a server knows by them.

use failing_alloc::FailingAlloc;
use std::alloc::{Allocator, Global};
use std::test::Fail;
use turn_codec::PushError;
use turn_requests::{Attribute, Request, build_request};
use turn_types::{Method, Token, TxId};

/// The nonce of the second 1000 for 192.0.2.1:32853, under a secret of zeros.
pub const NONCE: &[u8; 80] = b"00000000000003e867b461aa60944ff2d53aa237\
    b6407c1ab6779c548e297976b3bed07840569489";

/// A user's Refresh with a token, under a key.
pub fn refresh<A: Allocator + Copy>(
    alloc: A,
    user: &[u8],
    key: &[u8; 16],
) -> Result<Vec<u8, A>, PushError> {
    let request = Request {
        method: Method::REFRESH,
        tx: TxId([9; 12]),
        attributes: &[Attribute::ReservationToken(Token([7; 8]))],
        user,
        realm: b"example.org",
    };
    build_request(alloc, &request, key, NONCE)
}

/// Whether a request is out of memory where the growth after so many is refused.
fn is_refused(alloc: Global, served: u64) -> Result<bool, Fail> {
    let refusing = FailingAlloc::new(alloc, served);
    let is_memory = matches!(
        refresh(&refusing, b"alice", &[1; 16]),
        Err(PushError::Memory)
    );
    if is_memory != refusing.has_refused() {
        return Err(Fail::new("a refusal"));
    }
    Ok(is_memory)
}

#[test]
fn a_refused_growth_leaves_no_request(rt: HostRuntime) -> Result<(), Fail> {
    assert!(rt; is_refused(rt.alloc(), 0)?);
    for served in 1..16u64 {
        if !is_refused(rt.alloc(), served)? {
            return Ok(());
        }
    }
    Err("some growth is always refused")?
}
