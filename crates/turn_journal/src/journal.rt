//! A frame is a gate, a payload's length and the payload. After the last one there is a closed gate, and it is on the
//! disk before anything is written after it.

ghost use Rattle.std.specs.Prelude.{◌≡◌, ◌+◌, ◌<◌, ◌≤◌, ◌^◌, ◌↔◌, ℕ, List, length, OnOk, OnErr, IfOk, IfErr, IsTrue};
ghost use Rattle.turn_disk.specs.Device.{Reads, Uses};
ghost use Rattle.turn_disk.specs.Disk.{EachImageSince, IsSettled};
ghost use Rattle.turn_disk.specs.Meanwhile.{Passes};
ghost use Rattle.turn_journal.specs.Area.{IsFullFor, end_of, limit_of};
ghost use Rattle.turn_journal.specs.Frames.{gate_after, AddsFrame, HoldsFramesTo, HoldsWithOrWithout, HoldsWith};
ghost use Rattle.turn_journal.specs.Layout.{frame_room};
ghost use Rattle.turn_journal.specs.Scan.{IsAdmitted, IsFound, IsBadFrame};
ghost use Rattle.turn_journal.specs.declared.journal.AppendError.TheVariants.{Device};

use crate::area::Area;
use crate::found::{Found, ScanError};
use crate::frame::put_frame;
use crate::gate::{open_gate, read_length, write_after};
use crate::layout::{FRAME_HEAD, FRAME_ROOM, OPEN};
use std::alloc::{AllocError, Allocator, Global};
use std::marker::Model;
use thiserror::Error;
use turn_disk::{DeviceError, Disk, Meanwhile, read_array};

/// Why a frame was not added.
#[derive(Clone, Copy, Debug, PartialEq, Eq, Error)]
pub enum AppendError {
    /// A device call failed. The log has the frame or not: it has to be scanned anew.
    #[error("a device call failed")]
    Device,
    /// The frame doesn't fit after the last one. Nothing was written.
    #[error("the area is full")]
    Full,
}

impl From<DeviceError> for AppendError {
    ghost from_gives = { λ _ e. e ≡ Device };

    fn from(_: DeviceError) -> Self {
        AppendError::Device
    }
}

/// The log of one area of a disk.
pub struct Journal<A: Allocator = Global> {
    area: Area,
    // Room for one frame, without its gate and with the one after it.
    frame: Vec<u8, A>,
}

// By hand: a derived drop is one step for each field in the proof of each caller.
impl<A: Allocator> Drop for Journal<A> {
    fn drop(self) {
        let Journal { area: _, frame: _ } = self;
    }
}

impl<A: Allocator> Model for Journal<A> {
    ghost use Rattle.std.specs.Prelude.{◌≡◌, ◌+◌, ◌<◌, ◌^◌, length};
    ghost use Rattle.turn_journal.specs.Layout.{frame_head};
    ghost use Rattle.turn_journal.specs.declared.area.Area.{Area};

    ghost Value = { Area };

    ghost view = { λ j. j.area };

    ghost invariant = { λ j. (j.area.end < j.area.size) × (j.area.start + j.area.size < 2 ^ 64)
        × (j.area.max_payload < 2 ^ 32) × (length j.frame.items ≡ j.area.max_payload + frame_head) };
}

impl<A: Allocator + Copy> Journal<A> {
    /// The log of this area. It takes the memory for one frame; no other call takes any.
    pub fn new(alloc: A, area: Area) -> Result<Journal<A>, AllocError>
        requires gate { area.end < area.size }
        requires addressable { area.start + area.size < 2 ^ 64 }
        requires short { area.max_payload < 2 ^ 32 }
        ensures { IfOk result (λ journal. journal ≡ area) }
    {
        let frame = Vec::from_elem(alloc, 0, area.max_payload + FRAME_HEAD)?;
        Ok(Journal { area, frame })
    }
}

impl<A: Allocator> Journal<A> {
    /// The disk's position at which the area begins.
    pub fn start(&self) -> usize
        ensures start { result ≡ self.now.start }
        ensures addressable { self.now.start + self.now.size < 2 ^ 64 }
    {
        self.area.start
    }

    /// The area's size in bytes.
    pub fn size(&self) -> usize
        ensures { result ≡ self.now.size }
    {
        self.area.size
    }

    /// The length of the longest payload.
    pub fn max_payload(&self) -> usize
        ensures max { result ≡ self.now.max_payload }
        ensures short { self.now.max_payload < 2 ^ 32 }
    {
        self.area.max_payload
    }

    /// The gate at which the log ends, counted from the area's first byte.
    pub fn end(&self) -> usize
        ensures end { result ≡ self.now.end }
        ensures within { self.now.end < self.now.size }
    {
        self.area.end
    }

    /// Continues in another area of this size, whose log ends at that gate.
    pub fn move_to(&mut self, start: usize, end: usize)
        requires gate { end < self.old.size }
        requires addressable { start + self.old.size < 2 ^ 64 }
        ensures { self.new ≡ record self.old { start = start; end = end } }
    {
        self.area.start = start;
        self.area.end = end;
    }

    /// Whether there is room for one more frame, with a payload of `count` bytes.
    pub fn room(&self, count: usize) -> bool
        ensures { IsTrue result ↔ (self.now.end + frame_room + count ≤ self.now.size) }
    {
        let room = self.area.size - self.area.end;
        room >= FRAME_ROOM && count <= room - FRAME_ROOM
    }

    /// Adds a frame, in four device calls: a write of the frame after its closed gate, with a closed gate after it; a
    /// sync; a write that opens the gate; a sync.
    pub fn append<D: Disk, M: Meanwhile>(
        &mut self,
        disk: &mut D,
        payload: &[u8],
        other: &mut M,
    ) -> Result<(), AppendError>
        requires place { self.old.start + self.old.size ≤ D.capacity disk.old }
        requires short { length payload.now ≤ self.old.max_payload }

        ensures uses { Uses D.Disk disk.old disk.new (result ≡ Err AppendError.Device) }

        ensures appended { OnOk result (self.new ≡ record self.old { end = gate_after self.old.end payload.now }) }
        ensures full { (result ≡ Err AppendError.Full) ↔ IsFullFor self.old (length payload.now) }
        ensures untouched { result ≡ Err AppendError.Full → disk.new ≡ disk.old }
        ensures kept { OnErr result (self.new ≡ self.old) }

        // A stop leaves the frames from before alone until the frame is durable after its closed gate; from then on, with the
        // new one or without, and the gate alone is written, at most once.
        ensures stages { let old = (D.trace disk.old).now in
            D.follows_crash_model disk.new → IsSettled old → (from : ℕ) (payloads : List (List ℕ))
            → HoldsFramesTo from payloads (end_of self.old) (limit_of self.old) old.bytes
            → AddsFrame from payloads payload.now (end_of self.old) (limit_of self.old) (D.trace disk.old) (D.trace disk.new) }

        // So a stop at any moment leaves the frames from before, with the new one or without.
        ensures stop { let old = (D.trace disk.old).now in
            D.follows_crash_model disk.new → IsSettled old → (from : ℕ) (payloads : List (List ℕ))
            → HoldsFramesTo from payloads (end_of self.old) (limit_of self.old) old.bytes
            → EachImageSince (D.trace disk.old) (D.trace disk.new)
            (HoldsWithOrWithout from payloads payload.now (end_of self.old) (frame_room + length payload.now) (limit_of self.old) old.bytes) }

        ensures done { let old = (D.trace disk.old).now in let new = (D.trace disk.new).now in
            D.follows_crash_model disk.new → IsSettled old → (from : ℕ) (payloads : List (List ℕ))
            → HoldsFramesTo from payloads (end_of self.old) (limit_of self.old) old.bytes
            → OnOk result (IsSettled new
            × HoldsWith from payloads payload.now (end_of self.old) (frame_room + length payload.now) (limit_of self.old) old.bytes new.bytes) }

        ensures meanwhile { Passes M.passes other.old other.new }
    {
        let count = payload.len();
        if !self.room(count) {
            return Err(AppendError::Full);
        }
        put_frame(&mut self.frame, payload);
        let gate = self.area.start + self.area.end;
        write_after(disk, gate, &self.frame[..count + FRAME_HEAD], other)?;
        open_gate(disk, gate, other)?;
        self.area.end += count + FRAME_HEAD;
        Ok(())
    }

    /// Reads what is at a gate, in at most two device calls. Gates are counted from the area's first byte.
    pub fn scan<D: Disk>(&self, disk: &mut D, at: usize) -> Result<Found, ScanError>
        requires place { self.now.start + self.now.size ≤ D.capacity disk.old }
        requires gate { at < self.now.size }

        ensures reads { Reads D.Disk disk.old disk.new (result ≡ Err ScanError.Device) }

        ensures admitted { IfOk result (λ found. (count : _) → found ≡ Found.Frame count
            → IsAdmitted at self.now.size self.now.max_payload count) }
        ensures found { D.follows_crash_model disk.new
            → IfOk result (IsFound (self.now.start + at) (limit_of self.now) self.now.max_payload (D.trace disk.old).now.bytes) }
        ensures bad { D.follows_crash_model disk.new → IfErr result (λ refused. refused ≡ ScanError.BadFrame
            → IsBadFrame (self.now.start + at) (limit_of self.now) self.now.max_payload (D.trace disk.old).now.bytes) }
    {
        let gate = self.area.start + at;
        let [byte]: [u8; 1] = read_array(disk, gate)?;
        if byte != OPEN {
            return Ok(Found::End);
        }
        let room = self.area.size - at;
        if room < FRAME_ROOM {
            return Err(ScanError::BadFrame);
        }
        let count = read_length(disk, gate)?;
        if count > self.area.max_payload || count > room - FRAME_ROOM {
            return Err(ScanError::BadFrame);
        }
        Ok(Found::Frame(count))
    }
}
