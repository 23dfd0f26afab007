use super::*;
use std::alloc::AllocError;
use std::test::Fail;

#[test]
fn refuses_one_request(rt: HostRuntime) -> Result<(), Fail> {
    for served in 0..4u64 {
        let refusing = FailingAlloc::new(rt.alloc(), served);
        for request in 0..6u64 {
            let refused = Vec::from_elem(&refusing, 7u8, 3).is_err();
            assert!(rt; refused == (request == served), "{served} {request}");
            assert!(rt;
                refusing.has_refused() == (served <= request),
                "{served} {request}"
            );
        }
        assert_eq!(rt; refusing.left(), u64::MAX);
    }
    Ok(())
}

#[test]
fn arms_again(rt: HostRuntime) -> Result<(), Fail> {
    let refusing = FailingAlloc::new(rt.alloc(), u64::MAX);
    let mut bytes: Vec<u8, _> = Vec::new(&refusing);
    bytes.push(1)?;
    refusing.arm(1);
    assert_eq!(rt; refusing.left(), 1);
    let other = Vec::from_elem(&refusing, 2u8, 8)?;
    assert_eq!(rt; refusing.left(), 0);
    assert!(rt; bytes.reserve(64).is_err());
    assert_eq!(rt; bytes.as_slice(), [1].as_slice());
    assert_eq!(rt; other.len(), 8);
    bytes.reserve(64)?;
    assert!(rt; refusing.has_refused());
    Ok(())
}
