//! `turn format`.

ghost use Rattle.std.specs.Prelude.{◌≡◌, [], ◌+◌, ◌*◌, ◌^◌, ◌<◌, ◌≤◌, Err, IfErr, IfSome, OnErr, OnOk, length};
ghost use Rattle.turn_disk.specs.Counts.{CountOutcome, Rises};
ghost use Rattle.turn_faults.specs.declared.error.ProgramError.TheVariants as faults;
ghost use Rattle.turn_record.specs.declared.version.Version.TheVariants.{V2};
ghost use Rattle.turn_store.specs.Format.{IsFormatted};
ghost use Rattle.turn_store.specs.Images.{EachImage, RepresentsAt};
ghost use Rattle.turn_store.specs.Superblock.{least_area};

use std::alloc::Global;
use std::fs::{self, File};
use std::io::{ErrorKind, Write};
use std::rt::Clock;
use turn_disk::{DeviceError, Disk, FileDisk, Idle};
use turn_faults::{
    Fault, Host, Named, NamedExport, PATIENCE, ProgramError, StorePlace, configure, open_export,
    print_line, read_whole,
};
use turn_store::{format, least_area};
use turn_types::Limits;

/// How many bytes of zeros are written at once.
const PIECE: usize = 65_536;

/// Writes this piece again and again, over all bytes of a disk.
fn write_over<D: Disk>(disk: &mut D, piece: &[u8]) -> Result<(), DeviceError>
    requires { 0 < length piece.now }
    ensures size { D.capacity disk.new ≡ D.capacity disk.old }
    ensures crash_model { D.follows_crash_model disk.new → D.follows_crash_model disk.old }
    ensures count { CountOutcome (D.failed disk.old) (D.failed disk.new) result }
{
    let size = disk.size();
    let mut done = 0;
    while done < size {
        let count = piece.len().min(size - done);
        disk.write_at(done, &piece[..count], &mut Idle)?;
        done += count;
    }
    Ok(())
}

/// Writes zeros over all bytes of a disk.
fn write_zeros<D: Disk>(alloc: Global, disk: &mut D) -> Result<(), ProgramError>
    ensures size { D.capacity disk.new ≡ D.capacity disk.old }
    ensures crash_model { D.follows_crash_model disk.new → D.follows_crash_model disk.old }
    ensures count { OnOk result (D.failed disk.new ≡ D.failed disk.old) }
    ensures device { result ≡ Err faults.Device → Rises (D.failed disk.old) (D.failed disk.new) }
{
    let zeros = Vec::from_elem(alloc, 0u8, PIECE)?;
    write_over(disk, &zeros)?;
    Ok(())
}

/// Makes a disk a store of version 2 and of these limits, which holds nothing. First it writes zeros over all its bytes, so that a device
/// that has no room for them fails here.
pub fn format_disk<D: Disk>(
    alloc: Global,
    disk: &mut D,
    limits: Limits,
    area: usize,
) -> Result<(), ProgramError>
    requires { 64 + 2 * area ≡ D.capacity disk.old }
    ensures size { D.capacity disk.new ≡ D.capacity disk.old }
    ensures crash_model { D.follows_crash_model disk.new → D.follows_crash_model disk.old }
    ensures count { OnOk result (D.failed disk.new ≡ D.failed disk.old) }

    // The first area is active, of version 2 and with generation 1, and each image represents the empty history.
    ensures formatted { D.follows_crash_model disk.new
        → OnOk result (IsFormatted V2 (record { bounds = limits; area = area }) (D.trace disk.new).now) }
    ensures done { D.follows_crash_model disk.new
        → OnOk result (EachImage (D.trace disk.new).now (RepresentsAt (record { bounds = limits; area = area }) [] 0)) }
{
    write_zeros(alloc, disk)?;
    format(disk, limits, area)?;
    Ok(())
}

/// The limits of the configuration in a file.
fn limits_in<R: Host>(rt: &R, config: &str) -> Result<Limits, Fault> {
    let text = read_whole(rt, Named::config(config))?;
    let configured = configure(rt.alloc(), config, &text)?;
    Ok(configured.config.limits())
}

/// Refuses an area that is below the min size under the limits.
fn check_area(limits: Limits, area: usize) -> Result<(), ProgramError>
    ensures ok { OnOk result (least_area V2 limits ≤ area) }
    ensures refused { OnErr result (area < least_area V2 limits) }
    ensures fault { IfErr result (λ fault. fault ≡ faults.AreaTooSmall (least_area V2 limits)) }
{
    let needed = least_area(limits);
    if area < needed {
        return Err(ProgramError::AreaTooSmall(needed));
    }
    Ok(())
}

/// Whether nothing has a name yet.
fn is_free<R: Host>(rt: &R, path: &str) -> bool {
    match fs::symlink_metadata(rt, path) {
        Ok(_) => false,
        Err(reason) => matches!(reason.kind(), ErrorKind::NotFound),
    }
}

/// Makes a file a store. It isn't touched if it is in use.
fn make_store<R: Host>(
    rt: &R,
    path: &str,
    limits: Limits,
    area: usize,
) -> Result<FileDisk<File>, Fault>
    requires { area < 2 ^ 32 }
{
    let (alloc, named) = (rt.alloc(), Named::store(path));
    let mut disk = FileDisk::create(rt, path, 64 + 2 * area).map_err(|refused| Fault::of_file(
        alloc, named, refused,
    ))?;
    match format_disk(alloc, &mut disk, limits, area) {
        Ok(()) => Ok(disk),
        Err(kind) => Err(Fault::of_disk(alloc, named, kind, &disk)),
    }
}

/// Makes a file a store, and returns it with its lock. A file that was made for it is removed again at a fault; one that was there
/// stays, whatever it holds then.
fn make_file<R: Host>(
    rt: &R,
    path: &str,
    limits: Limits,
    area: usize,
) -> Result<FileDisk<File>, Fault>
    requires { area < 2 ^ 32 }
{
    let is_free = is_free(rt, path);
    let made = make_store(rt, path, limits, area);
    if is_free && made.is_err() {
        let _ = fs::remove_file(rt, path);
    }
    made
}

/// The size of the two areas that fill a disk of so many bytes, if each has no fewer than so many.
fn area_in(size: usize, least: usize) -> Option<usize>
    ensures { IfSome result (λ area. (64 + 2 * area ≡ size) × (least ≤ area)) }
{
    if size < 64 || size % 2 != 0 {
        return None;
    }
    let area = (size - 64) / 2;
    if area < least {
        return None;
    }
    Some(area)
}

/// That an export has not a size that a store may have.
fn unfit(alloc: Global, store: Named<'_>, size: usize) -> Fault {
    Fault::saying(
        ProgramError::Device,
        format!(in alloc; "{store}: an export of {size} bytes, not of 64 and two areas"),
    )
}

/// Makes an export a store, whose areas have no fewer bytes than so many. The store is as large as the export.
fn fill_export<R: Host, C: Clock>(
    rt: &R,
    clock: &C,
    named: NamedExport<'_>,
    limits: Limits,
    least: usize,
) -> Result<(), Fault> {
    let (alloc, store) = (rt.alloc(), Named::store(named.word));
    let mut disk = open_export(rt, clock, named, PATIENCE)?;
    let size = disk.size();
    let Some(area) = area_in(size, least) else {
        return Err(unfit(alloc, store, size));
    };
    match format_disk(alloc, &mut disk, limits, area) {
        Ok(()) => Ok(()),
        Err(kind) => Err(Fault::of_disk(alloc, store, kind, &disk)),
    }
}

/// Makes a file or an export a store, and returns the file, which has its lock.
fn make_at<R: Host, C: Clock>(
    rt: &R,
    clock: &C,
    store: &str,
    limits: Limits,
    area: usize,
) -> Result<Option<FileDisk<File>>, Fault>
    requires { area < 2 ^ 32 }
{
    match StorePlace::of(store)? {
        StorePlace::File(path) => Ok(Some(make_file(rt, path, limits, area)?)),
        StorePlace::Export(named) => {
            fill_export(rt, clock, named, limits, area)?;
            Ok(None)
        }
    }
}

/// Makes a file a store with the limits of a configuration, or an export. The file is not touched before the area was checked, nor if it is
/// in use, and is locked until it has printed.
pub fn run_format<R: Host, C: Clock, W: Write>(
    rt: &R,
    clock: &C,
    config: &str,
    store: &str,
    area: u32,
    out: &mut W,
) -> Result<(), Fault> {
    let limits = limits_in(rt, config)?;
    let area = area as usize;
    check_area(limits, area)?;
    let _disk = make_at(rt, clock, store, limits, area)?;
    print_line("formatted", out)
}
