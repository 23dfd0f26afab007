//! The events of a log, applied to the table of the snapshot before it.

ghost use Rattle.std.specs.Prelude.{◌≡◌, ◌≢◌, ◌+◌, ◌^◌, ◌<◌, ◌≤◌, List, None, OnOk, IfOk, IfErr, length, Err};
ghost use Rattle.turn_disk.specs.Disk.{StandsAt};
ghost use Rattle.std.specs.List.{AllByRecursion};
ghost use Rattle.turn_history.specs.Act.{event_of};
ghost use Rattle.turn_history.specs.Fitting.{IsInRange};
ghost use Rattle.turn_history.specs.History as histories;
ghost use Rattle.turn_history.specs.Table.{purged};
ghost use Rattle.turn_record.specs.Records.{Holds, EncodesPayload};
ghost use Rattle.turn_record.specs.Views.{events_of};
ghost use Rattle.turn_store.specs.Refused.{ReadsBad, ReadsOn};
ghost use Rattle.turn_store.specs.Applied.{Applies};
ghost use Rattle.turn_store.specs.Replay.{IsNext, GoOn, GoesOn, after, after_all};
ghost use Rattle.turn_store.specs.Stages.{IsRead};
ghost use Rattle.turn_store.specs.Tables.{snapshot_of};
ghost use Rattle.turn_store.specs.declared.replay.FrameError.TheVariants.{Device, Memory};

use std::alloc::{AllocError, Allocator};
use turn_disk::{DeviceError, Disk, read_pieces};
use turn_history::Event;
use turn_record::{ReadError, Version, read_payload};
use turn_table::Table;
use turn_types::{Limits, Moment};

/// Why a frame was not applied.
#[derive(Clone, Copy, Debug, PartialEq, Eq)]
pub enum FrameError {
    /// A device call failed.
    Device,
    /// An allocation failed.
    Memory,
    /// Its payload encodes no batch, or an event is before the table's moment or doesn't fit.
    Bad,
}

impl From<DeviceError> for FrameError {
    ghost from_gives = { λ _ e. e ≡ Device };

    fn from(_: DeviceError) -> Self {
        FrameError::Device
    }
}

impl From<AllocError> for FrameError {
    ghost from_gives = { λ _ e. e ≡ Memory };

    fn from(_: AllocError) -> Self {
        FrameError::Memory
    }
}

// Removes what has expired by a moment.
fn advance<A: Allocator + Copy>(table: &mut Table<A>, moment: Moment)
    requires { table.old.moment ≤ moment }
    ensures { table.new ≡ record table.old { moment = moment; contents = purged moment table.old.contents; room = None } }
{
    while table.purge(moment).is_some() {}
}

// Applies an event that may be the next.
fn apply_next<A: Allocator + Copy>(table: &mut Table<A>, event: Event<A>) -> Result<(), FrameError>
    requires { IsInRange table.old.bounds (event_of event) }
    ensures { Applies table.old table.new (IsNext table.old.bounds (snapshot_of table.old) (event_of event))
        (snapshot_of table.new ≡ after (snapshot_of table.old) (event_of event)) result }
{
    if event.moment < table.moment() {
        return Err(FrameError::Bad);
    }
    advance(table, event.moment);
    if !table.fits(event.tuple, &event.act) {
        return Err(FrameError::Bad);
    }
    table.reserve_for(event.tuple, &event.act)?;
    let _ = table.apply(event.tuple, event.act);
    Ok(())
}

// Applies events, each of which may be the next after those before it.
fn apply_all<A: Allocator + Copy>(
    table: &mut Table<A>,
    events: Vec<Event<A>, A>,
) -> Result<(), FrameError>
    requires { AllByRecursion (IsInRange table.old.bounds) (events_of events.items) }
    ensures { Applies table.old table.new (GoOn table.old.bounds (snapshot_of table.old) (events_of events.items))
        (snapshot_of table.new ≡ after_all (snapshot_of table.old) (events_of events.items)) result }
{
    let mut events = events;
    while !events.is_empty() {
        let event = events.remove(0);
        apply_next(table, event)?;
    }
    Ok(())
}

// The events of a payload.
fn read_events<A: Allocator + Copy>(
    alloc: A,
    version: Version,
    limits: Limits,
    payload: &[u8],
) -> Result<Vec<Event<A>, A>, FrameError>
    ensures no_device { IfErr result (λ fault. fault ≢ FrameError.Device) }
    ensures encoded { IfOk result (λ v. EncodesPayload version limits (events_of v.items) payload.now) }
    ensures once { IfOk result (λ v. (es : List histories.Event) → EncodesPayload version limits es payload.now → es ≡ events_of v.items) }
    ensures bad { IfErr result (λ fault. fault ≡ FrameError.Bad
        → (es : List histories.Event) → EncodesPayload version limits es payload.now → ⊥) }
{
    match read_payload(alloc, version, limits, payload) {
        Ok(events) => Ok(events),
        Err(ReadError::Memory) => Err(FrameError::Memory),
        Err(ReadError::Malformed(_)) => Err(FrameError::Bad),
    }
}

// Applies the events of a payload.
fn apply_payload<A: Allocator + Copy>(
    alloc: A,
    version: Version,
    limits: Limits,
    table: &mut Table<A>,
    payload: &[u8],
) -> Result<(), FrameError>
    requires { table.old.bounds ≡ limits }
    ensures bounds { table.new.bounds ≡ table.old.bounds }
    ensures no_device { IfErr result (λ fault. fault ≢ FrameError.Device) }
    ensures goes { OnOk result (GoesOn version limits (snapshot_of table.old) payload.now (snapshot_of table.new)) }
    ensures bad { IfErr result (λ fault. fault ≡ FrameError.Bad
        → (es : List histories.Event) → EncodesPayload version limits es payload.now → GoOn limits (snapshot_of table.old) es → ⊥) }
{
    let events = read_events(alloc, version, limits, payload)?;
    apply_all(table, events)?;
    Ok(())
}

// Reads a payload of the buffer's length, and applies its events.
fn replay_payload<D: Disk, A: Allocator + Copy>(
    alloc: A,
    disk: &mut D,
    at: usize,
    buffer: &mut [u8],
    table: &mut Table<A>,
    version: Version,
    limits: Limits,
) -> Result<(), FrameError>
    requires bounds { table.old.bounds ≡ limits }
    requires place { at + length buffer.old ≤ D.capacity disk.old }
    requires addressable { at + length buffer.old < 2 ^ 64 }
    ensures len { length buffer.new ≡ length buffer.old }
    ensures bounds { table.new.bounds ≡ table.old.bounds }
    ensures stands { IsRead D.Disk disk.old disk.new (result ≡ Err FrameError.Device) (λ content. OnOk result (StandsAt at buffer.new content)
        × IfErr result (λ fault. fault ≢ FrameError.Device → StandsAt at buffer.new content)) }
    ensures goes { OnOk result (GoesOn version limits (snapshot_of table.old) buffer.new (snapshot_of table.new)) }
    ensures bad { IfErr result (λ fault. fault ≡ FrameError.Bad
        → (es : List histories.Event) → EncodesPayload version limits es buffer.new → GoOn limits (snapshot_of table.old) es → ⊥) }
{
    read_pieces(disk, at, buffer)?;
    apply_payload(alloc, version, limits, table, buffer)?;
    Ok(())
}

/// Reads a payload of so many bytes to the front of the buffer, and applies its events.
pub fn replay_frame<D: Disk, A: Allocator + Copy>(
    alloc: A,
    disk: &mut D,
    at: usize,
    count: usize,
    buffer: &mut [u8],
    table: &mut Table<A>,
    version: Version,
    limits: Limits,
) -> Result<(), FrameError>
    requires bounds { table.old.bounds ≡ limits }
    requires room { count ≤ length buffer.old }
    requires place { at + count ≤ D.capacity disk.old }
    requires addressable { at + count < 2 ^ 64 }
    ensures len { length buffer.new ≡ length buffer.old }
    ensures bounds { table.new.bounds ≡ table.old.bounds }
    ensures holds { Holds version table.old.contents → OnOk result (Holds version table.new.contents) }
    ensures read { IsRead D.Disk disk.old disk.new (result ≡ Err FrameError.Device) (λ content.
        OnOk result (ReadsOn version limits (snapshot_of table.old) at count (snapshot_of table.new) content)
        × IfErr result (λ fault. fault ≡ FrameError.Bad → ReadsBad version limits (snapshot_of table.old) at count content)) }
{
    let payload = &mut buffer[..count];
    replay_payload(alloc, disk, at, payload, table, version, limits)?;
    Ok(())
}
