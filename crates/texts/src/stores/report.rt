//! What comes of a call, as lines say it.

use crate::scene::Scene;
use std::alloc::Global;
use turn_disk::DeviceError;
use turn_store::{FormatError, Info, OpenError, StoreError, WrittenAs};

/// What comes of a call: a text, or bytes.
#[derive(Drop)]
pub enum Report {
    Text(String),
    Bytes(Vec<u8>),
}

impl Report {
    /// A text.
    pub fn text(alloc: Global, text: &str) -> Option<Report> {
        Some(Report::Text(String::from_str(alloc, text).ok()?))
    }

    /// Whether it is this text, or the bytes that it names.
    pub fn is(&self, scene: &Scene, expected: &[u8]) -> bool {
        match self {
            Report::Text(text) => text.as_bytes() == expected,
            Report::Bytes(bytes) => scene.bytes(expected).as_ref() == Some(bytes),
        }
    }

    /// Whether a device call failed.
    pub fn is_device(&self) -> bool {
        match self {
            Report::Text(text) => text.as_bytes() == b"device".as_slice(),
            Report::Bytes(_) => false,
        }
    }
}

/// Of device calls.
pub fn of_device(alloc: Global, outcome: Result<(), DeviceError>) -> Option<Report> {
    Report::text(alloc, if outcome.is_ok() { "ok" } else { "device" })
}

fn store_text(fault: StoreError) -> &'static str {
    match fault {
        StoreError::Device => "device",
        StoreError::Stopped => "stopped",
        StoreError::Worn => "worn",
    }
}

/// Of a batch.
pub fn of_append(alloc: Global, outcome: Result<WrittenAs, StoreError>) -> Option<Report> {
    let text = match outcome {
        Ok(WrittenAs::Frame) => "frame",
        Ok(WrittenAs::Snapshot) => "snapshot",
        Err(fault) => store_text(fault),
    };
    Report::text(alloc, text)
}

/// Of a compaction.
pub fn of_compaction(alloc: Global, outcome: Result<(), StoreError>) -> Option<Report> {
    let text = match outcome {
        Ok(()) => "ok",
        Err(fault) => store_text(fault),
    };
    Report::text(alloc, text)
}

/// Of formatting.
pub fn of_format(alloc: Global, outcome: Result<(), FormatError>) -> Option<Report> {
    match outcome {
        Ok(()) => Report::text(alloc, "ok"),
        Err(FormatError::Device) => Report::text(alloc, "device"),
        Err(FormatError::AreaTooSmall(least)) => {
            Some(Report::Text(format!(in alloc; "least:{least}").ok()?))
        }
    }
}

/// Of an opening that is refused.
pub fn of_refusal(alloc: Global, fault: OpenError) -> Option<Report> {
    let text = match fault {
        OpenError::Device => "device",
        OpenError::Memory => "memory",
        OpenError::NotAStore => "no_store",
        OpenError::LimitsDiffer => "limits",
        OpenError::Damaged(place) => {
            return Some(Report::Text(format!(in alloc; "damaged:{place}").ok()?));
        }
    };
    Report::text(alloc, text)
}

/// The version, the generation and the frames of a store.
pub fn of_info(alloc: Global, info: Info) -> Option<Report> {
    let version = if info.version == turn_record::Version::V1 {
        1
    } else {
        2
    };
    let (generation, frames) = (info.generation, info.frames);
    Some(Report::Text(format!(in alloc; "{version} {generation} {frames}").ok()?))
}
