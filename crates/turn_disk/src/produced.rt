//! A write of bytes that are made piece by piece.

ghost use Rattle.std.specs.Prelude.{◌-◌, ◌≡◌, ◌++◌, [], ◌+◌, ◌^◌, ◌<◌, ◌≤◌, ℕ, List, length, take, OnOk, IsErr};
ghost use Rattle.turn_disk.specs.Device.{Uses};
ghost use Rattle.turn_disk.specs.Disk.{ChangesOnly, EachImageSince, IsSettled, WritesThrough};
ghost use Rattle.turn_disk.specs.Meanwhile.{Passes};

use crate::disk::{DeviceError, Disk};
use crate::meanwhile::Meanwhile;
use crate::writes::write_within;
use std::marker::Model;

/// The max number of bytes of a device call of `write_produced`.
pub const PIECE: usize = 4096;

/// A source of bytes, which come a piece at a time.
pub trait Producer {
    /// The bytes that are still to come.
    ghost rest: { Self → List ℕ };

    /// Puts the next bytes at the front of the piece, and returns how many; 0 only at the end.
    fn next(&mut self, piece: &mut [u8]) -> usize
        ensures small { result ≤ length piece.old }
        ensures len { length piece.new ≡ length piece.old }
        ensures gives { rest self.old ≡ take result piece.new ++ rest self.new }
        ensures ends { result ≡ 0 → 0 < length piece.old → rest self.new ≡ [] };
}

/// Produces the bytes of a slice.
#[derive(Drop)]
pub struct Bytes<'a> {
    rest: &'a [u8],
}

impl<'a> Model for Bytes<'a> {
    ghost Value = { List ℕ };

    ghost view = { λ b. b.rest.now };
}

impl<'a> Bytes<'a> {
    /// A producer of these bytes, each once.
    pub fn new(bytes: &'a [u8]) -> Bytes<'a>
        ensures { result ≡ bytes.now }
    {
        Bytes { rest: bytes }
    }
}

impl<'a> Producer for Bytes<'a> {
    ghost rest = { λ bytes. bytes };

    fn next(&mut self, piece: &mut [u8]) -> usize {
        let rest = self.rest;
        let size = piece.len().min(rest.len());
        piece[..size].copy_from_slice(&rest[..size]);
        self.rest = &rest[size..];
        size
    }
}

/// Produces the bytes of the first producer, and then those of the second.
#[derive(Drop)]
pub struct Chain<A: Producer, B: Producer> {
    /// Whose bytes come first.
    pub first: A,
    /// Whose bytes come once the first has none left.
    pub second: B,
}

impl<A: Producer, B: Producer> Producer for Chain<A, B> {
    ghost rest = { λ c. A.rest c.first ++ B.rest c.second };

    fn next(&mut self, piece: &mut [u8]) -> usize {
        if piece.is_empty() {
            return 0;
        }
        let size = self.first.next(piece);
        if size > 0 {
            return size;
        }
        self.second.next(piece)
    }
}

// Fills the piece, or as much of it as the producer has bytes for.
fn fill_piece<P: Producer>(producer: &mut P, piece: &mut [u8; PIECE]) -> usize
    ensures small { result ≤ 4096 }
    ensures len { length piece.new ≡ 4096 }
    ensures gives { P.rest producer.old ≡ take result piece.new ++ P.rest producer.new }
    ensures ends { result < 4096 → P.rest producer.new ≡ [] }
{
    let mut size = 0;
    'parts: loop {
        if size == PIECE {
            return size;
        }
        let given = extend_piece(producer, piece, size);
        if given == 0 {
            return size;
        }
        size += given;
    }
}

// Lets the producer add to the first `size` bytes of the piece.
fn extend_piece<P: Producer>(producer: &mut P, piece: &mut [u8; PIECE], size: usize) -> usize
    requires { size < 4096 }
    ensures small { result ≤ 4096 - size }
    ensures len { length piece.new ≡ 4096 }
    ensures gives { take size piece.old ++ P.rest producer.old ≡ take (size + result) piece.new ++ P.rest producer.new }
    ensures ends { result ≡ 0 → P.rest producer.new ≡ [] }
{
    producer.next(&mut piece[size..])
}

/// Writes all bytes of the producer, in pieces of at most 4,096 bytes, and then syncs.
pub fn write_produced<D: Disk, P: Producer, M: Meanwhile>(
    disk: &mut D,
    at: usize,
    producer: &mut P,
    other: &mut M,
) -> Result<(), DeviceError>
    requires place { at + length (P.rest producer.old) ≤ D.capacity disk.old }
    requires addressable { at + length (P.rest producer.old) < 2 ^ 64 }
    ensures uses { Uses D.Disk disk.old disk.new (IsErr result) }

    // A stop at any moment changes nothing outside the range.
    ensures stop { D.follows_crash_model disk.new → IsSettled (D.trace disk.old).now
        → EachImageSince (D.trace disk.old) (D.trace disk.new)
        (ChangesOnly at (length (P.rest producer.old)) (D.trace disk.old).now.bytes) }

    ensures done { D.follows_crash_model disk.new → IsSettled (D.trace disk.old).now
        → OnOk result (WritesThrough at (P.rest producer.old) (D.trace disk.old).now (D.trace disk.new).now) }

    ensures meanwhile { Passes M.passes other.old other.new }
{
    let mut piece = [0u8; PIECE];
    let mut done = 0;
    'pieces: loop {
        let count = fill_piece(producer, &mut piece);
        if count == 0 {
            disk.sync(other)?;
            return Ok(());
        }
        write_within(disk, at + done, &piece[..count], other)?;
        done += count;
    }
}
