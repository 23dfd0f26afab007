//! Where a store is: a file, or an export of the NBD protocol.

ghost use Rattle.std.specs.Prelude.{◌≡◌, IfErr, IfOk};
ghost use Rattle.turn_faults.specs.Places.{IsConnected};
ghost use Rattle.turn_faults.specs.declared.error.ProgramError.TheVariants as faults;

use crate::error::ProgramError;
use crate::fault::{Fault, Named};
use std::alloc::{AllocGlobal, Global};
use std::net::Net;
use std::rt::Clock;
use std::time::Duration;
use std::{fmt, thread};
use turn_nbd::{Export, NbdDisk, NbdError, is_uri};

/// An export that the words of a command name.
#[derive(Clone, Copy)]
pub struct NamedExport<'a> {
    /// The word.
    pub word: &'a str,
    /// The export.
    pub export: Export<'a>,
}

/// Where a store is.
#[derive(Clone, Copy)]
pub enum StorePlace<'a> {
    /// In the file at this path.
    File(&'a str),
    /// In this export.
    Export(NamedExport<'a>),
}

impl<'a> StorePlace<'a> {
    /// The place that a word names: an export if it is a URI of the NBD protocol, or else a file. A URI that names no export is a
    /// usage fault.
    pub fn of(word: &'a str) -> Result<StorePlace<'a>, ProgramError>
        ensures { IfErr result (λ fault. fault ≡ ProgramError.Usage) }
    {
        if !is_uri(word) {
            return Ok(StorePlace::File(word));
        }
        match Export::parse(word) {
            Some(export) => Ok(StorePlace::Export(NamedExport { word, export })),
            None => Err(ProgramError::Usage),
        }
    }
}

/// How many seconds a command waits for a server that accepts a connection to an export.
pub const PATIENCE: u64 = 2;

/// How many seconds a server waits for it: what serves the export may have been started at the same time.
const PATIENCE_OF_SERVER: u64 = 15;

/// How many seconds a server waits for an export whose own server takes no further client: a server that ends may be one for a moment
/// yet.
const PATIENCE_WITH_CLIENT: u64 = 2;

/// How often it is tried again meanwhile, at most.
const AGAIN: u32 = 40;

/// The milliseconds before each of these.
const PAUSE: u64 = 50;

/// The system's number for an address family that a process may not use.
const NO_FAMILY: i32 = 97;

/// Why an export isn't opened, with what systemd calls the cause where a unit leaves an address family out.
#[derive(Clone, Copy)]
struct Why(NbdError);

impl fmt::Display for Why {
    fn fmt<W: fmt::Write>(&self, f: &mut fmt::Formatter<W>) -> fmt::Result {
        let why = self.0;
        match why {
            NbdError::Refused(reason) if reason.raw_os_error() == Some(NO_FAMILY) => {
                write!(f, "{why}, by RestrictAddressFamilies=")
            }
            _ => write!(f, "{why}"),
        }
    }
}

/// That an export isn't opened.
fn refused(alloc: Global, named: NamedExport<'_>, why: NbdError) -> Fault
    ensures { result.kind ≡ faults.Device }
{
    let kind = ProgramError::from(why);
    Fault::of(alloc, kind, &Named::store(named.word), &Why(why))
}

/// Opens an export as a disk. While no server accepts a connection it tries again, up to so many seconds and one more.
pub fn open_export<R: Net + AllocGlobal, C: Clock>(
    rt: &R,
    clock: &C,
    named: NamedExport<'_>,
    seconds: u64,
) -> Result<NbdDisk, Fault>
    ensures connected { IfOk result (λ disk. IsConnected disk) }
    ensures fault { IfErr result (λ fault. fault.kind ≡ faults.Device) }
{
    match NbdDisk::open(rt.alloc(), rt, clock, &named.export, seconds) {
        Ok(disk) => Ok(disk),
        Err(why) => Err(refused(rt.alloc(), named, why)),
    }
}

/// Whether so many seconds have passed since a time, or the system doesn't say.
fn have_passed<C: Clock>(clock: &C, began: Option<Duration>, seconds: u64) -> bool {
    match (began, clock.monotonic()) {
        (Some(began), Ok(now)) => Duration::from_secs(seconds) < now.saturating_sub(began),
        _ => true,
    }
}

/// Opens the export of a server. If its own server takes no further client it tries again for two seconds.
pub fn open_export_to_serve<R: Net + AllocGlobal, C: Clock>(
    rt: &R,
    clock: &C,
    named: NamedExport<'_>,
) -> Result<NbdDisk, Fault>
    ensures connected { IfOk result (λ disk. IsConnected disk) }
    ensures fault { IfErr result (λ fault. fault.kind ≡ faults.Device) }
{
    let began = clock.monotonic().ok();
    for _ in 0..AGAIN {
        match NbdDisk::open(rt.alloc(), rt, clock, &named.export, PATIENCE_OF_SERVER) {
            Ok(disk) => return Ok(disk),
            Err(NbdError::Closed) if !have_passed(clock, began, PATIENCE_WITH_CLIENT) => {}
            Err(why) => return Err(refused(rt.alloc(), named, why)),
        }
        thread::sleep(clock, Duration::from_millis(PAUSE));
    }
    open_export(rt, clock, named, PATIENCE_OF_SERVER)
}
