//! The bytes of a snapshot and of payloads, field by field.

ghost use Rattle.std.specs.Prelude.{◌<◌};

use std::alloc::{AllocError, Global};
use turn_record::Version;

/// How many entries a snapshot has at most.
pub const ENTRIES: u16 = 1024;

/// The moment of the snapshots and of the acts, in seconds.
const MOMENT: u64 = 1000;

/// The address of the first client, and of the first peer.
const CLIENT: u32 = 0xC000_0201;

const PEER: u32 = 0xCB00_7105;

/// How many entries a snapshot has, up to `ENTRIES`, and how many permissions and channels each entry has.
#[derive(Clone, Copy)]
pub struct Shape {
    /// Of the snapshot.
    pub entries: u16,
    /// Of each entry.
    pub permissions: u8,
    /// Of each entry.
    pub channels: u8,
}

impl Shape {
    /// As many entries as the max limits allow, without permissions and channels.
    pub const PLAIN: Shape = Shape {
        entries: ENTRIES,
        permissions: 0,
        channels: 0,
    };

    /// As many entries, with a few of each.
    pub const WITH_PEERS: Shape = Shape {
        entries: ENTRIES,
        permissions: 4,
        channels: 2,
    };

    /// As many of all as the max limits allow.
    pub const FULL: Shape = Shape {
        entries: ENTRIES,
        permissions: 32,
        channels: 32,
    };

    /// One entry with as many permissions and channels as the max limits allow.
    pub const ONE: Shape = Shape {
        entries: 1,
        permissions: 32,
        channels: 32,
    };
}

fn put_endpoint(out: &mut Vec<u8>, ip: u32, port: u16) -> Result<(), AllocError> {
    out.extend_from_slice(&ip.to_be_bytes())?;
    out.extend_from_slice(&port.to_be_bytes())
}

/// The five-tuple of the entry at this place.
fn put_tuple(out: &mut Vec<u8>, place: u16) -> Result<(), AllocError>
    requires { place < 1024 }
{
    put_endpoint(out, CLIENT + u32::from(place), 32853)?;
    put_endpoint(out, 0xC000_0164, 3478)
}

/// The five-tuple of the entry at this place, what its Allocate gave, in version 2 that it has no token, and when it expires.
fn put_allocation(out: &mut Vec<u8>, version: Version, place: u16) -> Result<(), AllocError>
    requires { place < 1024 }
{
    put_tuple(out, place)?;
    out.extend_from_slice(&[0, 8])?;
    out.extend_from_slice(b"username")?;
    out.extend_from_slice(&(10_000 + place).to_be_bytes())?;
    out.extend_from_slice(&3600u32.to_be_bytes())?;
    out.extend_from_slice(&[7; 12])?;
    if version == Version::V2 {
        out.push(0)?;
    }
    out.extend_from_slice(&(MOMENT + 3600).to_be_bytes())
}

fn put_permissions(out: &mut Vec<u8>, count: u8) -> Result<(), AllocError> {
    out.push(count)?;
    for place in 0..count {
        out.extend_from_slice(&(PEER + u32::from(place)).to_be_bytes())?;
        out.extend_from_slice(&(MOMENT + 300).to_be_bytes())?;
    }
    Ok(())
}

fn put_channels(out: &mut Vec<u8>, count: u8) -> Result<(), AllocError> {
    out.push(count)?;
    for place in 0..count {
        out.extend_from_slice(&(0x4000 + u16::from(place)).to_be_bytes())?;
        put_endpoint(out, PEER + u32::from(place), 7000)?;
        out.extend_from_slice(&(MOMENT + 600).to_be_bytes())?;
    }
    Ok(())
}

/// The bytes of a snapshot of this shape, with names of 8 bytes, and in version 2 without tokens and reserved ports.
pub fn encode(alloc: Global, version: Version, shape: Shape) -> Result<Vec<u8>, AllocError> {
    let entries = shape.entries.min(ENTRIES);
    let mut out = Vec::new(alloc);
    out.extend_from_slice(&MOMENT.to_be_bytes())?;
    out.extend_from_slice(&u32::from(entries).to_be_bytes())?;
    for place in 0..entries {
        put_allocation(&mut out, version, place)?;
        put_permissions(&mut out, shape.permissions)?;
        put_channels(&mut out, shape.channels)?;
    }
    if version == Version::V2 {
        out.extend_from_slice(&[0; 4])?;
    }
    Ok(out)
}

/// A payload of one act, 26 bytes: a Renew of the entry at this place.
fn renewal(alloc: Global, place: u16) -> Result<Vec<u8>, AllocError>
    requires { place < 1024 }
{
    let mut out = Vec::with_capacity(alloc, 26)?;
    out.extend_from_slice(&[1, 2])?;
    out.extend_from_slice(&MOMENT.to_be_bytes())?;
    put_tuple(&mut out, place)?;
    out.extend_from_slice(&3600u32.to_be_bytes())?;
    Ok(out)
}

/// A payload for each entry of a snapshot of this shape, which renews it.
pub fn renewals(alloc: Global, shape: Shape) -> Result<Vec<Vec<u8>>, AllocError> {
    let mut payloads = Vec::new(alloc);
    for place in 0..shape.entries.min(ENTRIES) {
        let payload = renewal(alloc, place)?;
        payloads.push(payload)?;
    }
    Ok(payloads)
}
