//! A disk over an export. It follows the crash model as long as the answers are those of an export that keeps what was written.

ghost use Rattle.std.specs.Prelude.{◌≡◌, ◌⊎◌, ◌&&◌, ◌+◌, ◌++◌, ◌∷◌, ◌≤◌, [], ℕ, List, IfOk, OnOk, MatchResult, true, false, length};
ghost use Rattle.turn_disk.specs.Calls.{FollowCrashModel, replay};
ghost use Rattle.turn_disk.specs.Counts.{CountOutcome, Rises};
ghost use Rattle.turn_disk.specs.Meanwhile.{Passes};
ghost use Rattle.turn_nbd.specs.Requests.{exchange, joined, reads, writes};
ghost use Rattle.turn_nbd.specs.declared.request.Kind.TheVariants.{Flush};

use crate::connection::Connection;
use crate::error::NbdError;
use crate::handshake::{fit_size, has_fua};
use crate::negotiate::negotiate;
use crate::pieces::{read_from, write_from};
use crate::socket::Socket;
use crate::stream::Stream;
use crate::wire::Wire;
use std::io;
use std::marker::{Model, PhantomData};
use turn_disk::{
    CallRecord, DeviceCall, DeviceError, Disk, FailedCall, Failures, Meanwhile, READ, SYNC, Start,
    Unknown, WRITE,
};

/// A disk over an export, as large as the export is when it is opened.
///
/// A device call is one request, or one for each 32 MiB, each of which waits for its reply; so is a write with the sync after it, where the
/// server has FUA and nothing is pending. Once a request failed, each later device call fails at once. When the disk is dropped, the server
/// is told that the connection ends.
///
/// `S` stands for the state that the export was found in. Clauses on its content have the premise that the answers so far, of reads above
/// all, were those of an export in this state, which kept what was written, and which nothing else wrote.
#[derive(Drop)]
pub struct NbdDisk<T: Stream = Socket, S: Start = Unknown> {
    connection: Connection<T>,
    can_write: bool,
    has_fua: bool,
    // Whether the newest call that changed something was a sync.
    is_settled: bool,
    size: usize,
    failures: Failures,
    calls: CallRecord,
    start: PhantomData<S>,
}

impl<T: Stream, S: Start> Model for NbdDisk<T, S> {
    ghost use Rattle.std.specs.Prelude.{◌≡◌, true};
    ghost use Rattle.turn_disk.specs.Calls.{replay};
    ghost use Rattle.turn_disk.specs.Disk.{State, IsSettled};
    ghost use Rattle.turn_nbd.specs.Views.{InExport};

    ghost Value = { InExport };

    ghost view = { λ d. record { size = d.size; failures = d.failures; events = d.calls.events; can_write = d.can_write; has_fua = d.has_fua; is_settled = d.is_settled; connection = d.connection } };

    ghost invariant = { λ d. d.is_settled ≡ true → (found : State) → IsSettled (replay found d.calls.events).now };
}

impl<T: Stream> NbdDisk<T> {
    /// Asks a server for its export of this name. Where `can_write` is false, it may be one that can't be written, or lack FLUSH, and each
    /// write and sync fails.
    pub fn over(stream: T, name: &str, can_write: bool) -> Result<NbdDisk<T>, NbdError>
        ensures failures { IfOk result (λ disk. disk.failures ≡ 0) }
        ensures events { IfOk result (λ disk. disk.events ≡ []) }
        ensures can_write { IfOk result (λ disk. disk.can_write ≡ can_write) }
    {
        let mut wire = Wire::new(stream);
        let found = negotiate(&mut wire, name)?;
        let size = fit_size(found, can_write)?;
        Ok(NbdDisk {
            connection: Connection::new(wire),
            can_write,
            has_fua: has_fua(found),
            is_settled: false,
            size,
            failures: Failures::none(),
            calls: CallRecord::new(),
            start: PhantomData,
        })
    }

    /// The same disk, with a name for the state that the export was found in when it was opened.
    pub fn holding<S: Start>(self) -> NbdDisk<T, S>
        ensures { result ≡ self }
    {
        let NbdDisk {
            connection,
            can_write,
            has_fua,
            is_settled,
            size,
            failures,
            calls,
            start: _,
        } = self;
        NbdDisk {
            connection,
            can_write,
            has_fua,
            is_settled,
            size,
            failures,
            calls,
            start: PhantomData,
        }
    }
}

impl<T: Stream, S: Start> NbdDisk<T, S> {
    /// The stream to the server.
    pub(crate) fn stream(&self) -> &T {
        self.connection.stream()
    }

    // Whether a write or a sync is tried: the disk was opened to be written, and no request failed.
    fn may_write(&self) -> bool
        ensures { result ≡ (self.now.can_write && self.now.connection.is_open) }
    {
        self.can_write && self.connection.is_open()
    }

    // Counts a call that failed.
    fn fail(&mut self, call: DeviceCall, why: NbdError) -> DeviceError
        ensures count { Rises self.old.failures self.new.failures }
        ensures rest { self.new ≡ record self.old { failures = self.new.failures } }
    {
        self.failures.raise(call, io::Error::from(why))
    }

    // Why a write or a sync isn't tried.
    fn untried(&self) -> NbdError {
        if self.can_write {
            NbdError::Closed
        } else {
            NbdError::ReadOnly
        }
    }

    // Reads by requests, and notes the call if it succeeds: one that fails changes nothing.
    fn ask_read(&mut self, at: usize, buffer: &mut [u8]) -> Result<(), DeviceError>
        requires { at + length buffer.old ≤ self.old.size }
        ensures size { self.new.size ≡ self.old.size }
        ensures count { CountOutcome self.old.failures self.new.failures result }
        ensures noted { MatchResult result (λ _. self.new.events ≡ (0, at, true, buffer.new) ∷ self.old.events) (λ _. self.new.events ≡ self.old.events) }
        ensures wire { OnOk result ((pieces : List (List ℕ)) × (joined pieces ≡ buffer.new)
            × (self.new.connection.wire ≡ self.old.connection.wire ++ reads self.old.connection.cookie at pieces)) }
    {
        // Its size is one of a disk.
        let _size = self.size;
        match read_from(&mut self.connection, at, buffer, 0) {
            Ok(()) => {
                self.calls.note(READ, at, true, buffer);
                Ok(())
            }
            Err(why) => Err(self.fail(DeviceCall::Read, why)),
        }
    }

    // Writes by requests, and notes the call, unless it isn't tried. While a reply isn't there the other is done.
    #[tactic(auto, using(turn_disk::proofs::Passing::passes_none))]
    fn ask_write<M: Meanwhile>(
        &mut self,
        at: usize,
        bytes: &[u8],
        is_durable: bool,
        other: &mut M,
    ) -> Result<(), DeviceError>
        requires { at + length bytes.now ≤ self.old.size }
        ensures size { self.new.size ≡ self.old.size }
        ensures count { CountOutcome self.old.failures self.new.failures result }
        ensures noted { MatchResult result (λ _. self.new.events ≡ (1, at, true, bytes.now) ∷ self.old.events)
            (λ _. (self.new.events ≡ (1, at, false, bytes.now) ∷ self.old.events)
            ⊎ ((self.new.events ≡ self.old.events) × (self.new.connection ≡ self.old.connection))) }
        ensures wire { OnOk result ((pieces : List (List ℕ)) × (joined pieces ≡ bytes.now)
            × (self.new.connection.wire ≡ self.old.connection.wire ++ writes is_durable self.old.connection.cookie at pieces)) }
        ensures can_write { OnOk result (self.old.can_write ≡ true) }
        ensures meanwhile { Passes M.passes other.old other.new }
    {
        // Its size is one of a disk.
        let _size = self.size;
        if !self.may_write() {
            let why = self.untried();
            return Err(self.fail(DeviceCall::Write, why));
        }
        self.is_settled = false;
        match write_from(&mut self.connection, at, bytes, 0, is_durable, other) {
            Ok(()) => {
                self.calls.note(WRITE, at, true, bytes);
                Ok(())
            }
            Err(why) => {
                self.calls.note(WRITE, at, false, bytes);
                Err(self.fail(DeviceCall::Write, why))
            }
        }
    }

    // Writes by requests with FUA. Nothing else is pending, so that their replies say what those of a write and of a sync after it would,
    // as which it is noted.
    fn ask_durable_write<M: Meanwhile>(
        &mut self,
        at: usize,
        bytes: &[u8],
        other: &mut M,
    ) -> Result<(), DeviceError>
        requires within { at + length bytes.now ≤ self.old.size }
        requires fua { self.old.has_fua ≡ true }
        requires settled { self.old.is_settled ≡ true }
        ensures size { self.new.size ≡ self.old.size }
        ensures count { CountOutcome self.old.failures self.new.failures result }
        ensures noted { MatchResult result (λ _. self.new.events ≡ (2, 0, true, []) ∷ (1, at, true, bytes.now) ∷ self.old.events)
            (λ _. (self.new.events ≡ (1, at, false, bytes.now) ∷ self.old.events)
            ⊎ ((self.new.events ≡ self.old.events) × (self.new.connection ≡ self.old.connection))) }
        ensures wire { OnOk result ((pieces : List (List ℕ)) × (joined pieces ≡ bytes.now)
            × (self.new.connection.wire ≡ self.old.connection.wire ++ writes true self.old.connection.cookie at pieces)) }
        ensures can_write { OnOk result (self.old.can_write ≡ true) }
        ensures meanwhile { Passes M.passes other.old other.new }
    {
        self.ask_write(at, bytes, true, other)?;
        self.calls.note(SYNC, 0, true, &[]);
        self.is_settled = true;
        Ok(())
    }

    // Makes durable what was written by one request, and notes the call if it succeeds: one that fails changes nothing. While the
    // reply isn't there the other is done.
    #[tactic(auto, using(turn_disk::proofs::Passing::passes_none))]
    fn ask_flush<M: Meanwhile>(&mut self, other: &mut M) -> Result<(), DeviceError>
        ensures size { self.new.size ≡ self.old.size }
        ensures count { CountOutcome self.old.failures self.new.failures result }
        ensures noted { MatchResult result (λ _. self.new.events ≡ (2, 0, true, []) ∷ self.old.events) (λ _. self.new.events ≡ self.old.events) }
        ensures wire { OnOk result (self.new.connection.wire ≡ self.old.connection.wire ++ exchange Flush self.old.connection.cookie 0 0 [] []) }
        ensures can_write { OnOk result (self.old.can_write ≡ true) }
        ensures meanwhile { Passes M.passes other.old other.new }
    {
        if !self.may_write() {
            let why = self.untried();
            return Err(self.fail(DeviceCall::Sync, why));
        }
        match self.connection.flush(other) {
            Ok(()) => {
                self.calls.note(SYNC, 0, true, &[]);
                self.is_settled = true;
                Ok(())
            }
            Err(why) => Err(self.fail(DeviceCall::Sync, why)),
        }
    }
}

impl<T: Stream, S: Start> Disk for NbdDisk<T, S> {
    ghost use Rattle.turn_disk.specs.Calls.{sized_by};

    ghost capacity = { λ disk. disk.size };

    ghost failed = { λ disk. disk.failures };

    ghost follows_crash_model = { λ disk. (length S.Start.found.bytes ≡ disk.size) × FollowCrashModel S.Start.found disk.events };

    ghost trace = { λ disk. replay S.Start.found disk.events };

    ghost sized = { λ disk crash_model. sized_by S.Start.found disk.events disk.size crash_model };

    fn size(&self) -> usize {
        self.size
    }

    fn failures(&self) -> u64 {
        self.failures.count()
    }

    fn failed_call(&self) -> Option<FailedCall> {
        self.failures.first()
    }

    fn read_at(&mut self, at: usize, buffer: &mut [u8]) -> Result<(), DeviceError> {
        self.ask_read(at, buffer)
    }

    fn write_at<M: Meanwhile>(
        &mut self,
        at: usize,
        bytes: &[u8],
        other: &mut M,
    ) -> Result<(), DeviceError> {
        self.ask_write(at, bytes, false, other)
    }

    fn sync<M: Meanwhile>(&mut self, other: &mut M) -> Result<(), DeviceError> {
        self.ask_flush(other)
    }

    #[tactic(auto, using(turn_disk::proofs::Passing::passes_join))]
    fn write_durably<M: Meanwhile>(
        &mut self,
        at: usize,
        bytes: &[u8],
        other: &mut M,
    ) -> Result<(), DeviceError> {
        if self.has_fua && self.is_settled {
            return self.ask_durable_write(at, bytes, other);
        }
        self.write_at(at, bytes, other)?;
        self.sync(other)?;
        Ok(())
    }
}
