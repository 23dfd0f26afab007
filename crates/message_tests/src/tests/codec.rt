//! Allocations of messages and ChannelData.

use failing_alloc::FailingAlloc;
use std::alloc::Global;
use std::test::Fail;
use turn_codec::{AttributeType, Builder, ChannelData, PushError};
use turn_types::{Class, Method, TxId};

const ID: TxId = TxId([1, 2, 3, 4, 5, 6, 7, 8, 9, 10, 11, 12]);

/// Whether a push of an attribute has an outcome, after which the message has a size.
fn has_outcome(
    builder: &mut Builder<&FailingAlloc<Global>>,
    kind: AttributeType,
    value: &[u8],
    outcome: Result<(), PushError>,
    size: usize,
) -> bool {
    builder.push(kind, value) == outcome && builder.as_bytes().len() == size
}

#[test]
fn a_message_takes_memory_twice(rt: HostRuntime) -> Result<(), Fail> {
    let refusing = FailingAlloc::new(rt.alloc(), 0);
    assert!(rt; Builder::new(&refusing, Class::Error, Method::REFRESH, ID).is_err());
    refusing.arm(1);
    let mut builder = Builder::new(&refusing, Class::Error, Method::REFRESH, ID)?;
    assert_eq!(rt; refusing.left(), 0);
    assert!(rt;
        builder
            .push_fitting(AttributeType::REALM, b"example.org")
            .is_err()
    );
    assert_eq!(rt; builder.as_bytes().len(), 20);
    let (kind, value) = (AttributeType::REALM, b"example.org");
    refusing.arm(0);
    assert!(rt; has_outcome(&mut builder, kind, value, Err(PushError::Memory), 20));
    refusing.arm(1);
    assert!(rt; has_outcome(&mut builder, kind, value, Ok(()), 36));
    assert!(rt; !refusing.has_refused());
    Ok(())
}

/// Whether a message with room for 24 bytes of attributes is filled without memory, and grows at a second try.
fn fills_its_capacity(builder: &mut Builder<&FailingAlloc<Global>>) -> bool {
    let (seconds, more) = (AttributeType::LIFETIME, AttributeType::EVEN_PORT);
    has_outcome(builder, AttributeType::REALM, b"example.org", Ok(()), 36)
        && has_outcome(builder, seconds, &[0, 0, 2, 88], Ok(()), 44)
        && has_outcome(builder, more, &[0], Err(PushError::Memory), 44)
        && has_outcome(builder, more, &[0], Ok(()), 52)
}

#[test]
fn a_message_with_a_capacity_takes_memory_once(rt: HostRuntime) -> Result<(), Fail> {
    let refusing = FailingAlloc::new(rt.alloc(), 1);
    let mut builder = Builder::with_capacity(&refusing, Class::Request, Method::ALLOCATE, ID, 24)?;
    assert_eq!(rt; refusing.left(), 0);
    assert!(rt; fills_its_capacity(&mut builder));
    assert_eq!(rt; builder.finish().len(), 52);
    Ok(())
}

#[test]
fn channel_data_is_written_in_one_allocation(rt: HostRuntime) -> Result<(), Fail> {
    let data = ChannelData {
        number: 0x4000,
        payload: b"abc",
    };
    let refusing = FailingAlloc::new(rt.alloc(), 0);
    assert!(rt; data.write(&refusing).is_err());
    refusing.arm(1);
    let written = data.write(&refusing)?;
    assert!(rt; !refusing.has_refused());
    assert_eq!(rt; written.as_slice(), b"\x40\x00\x00\x03abc".as_slice());
    Ok(())
}
