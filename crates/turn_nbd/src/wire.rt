//! A stream, with the record of what passed over it.

ghost use Rattle.std.specs.Prelude.{◌≡◌, ◌+◌, ◌++◌, ◌<◌, ◌≤◌, [], IfOk, OnOk, length, take, drop};
ghost use Rattle.turn_disk.specs.Meanwhile.{Passes};
ghost use Rattle.turn_nbd.specs.Wire.{sent, received};

use crate::error::NbdError;
use crate::record::WireRecord;
use crate::stream::Stream;
use std::marker::Model;
use turn_disk::Meanwhile;

/// A stream, with the record of what passed over it.
pub struct Wire<T: Stream> {
    stream: T,
    noted: WireRecord,
}

// By hand: a derived drop is one step for each field in the proof of each caller.
impl<T: Stream> Drop for Wire<T> {
    fn drop(self) {
        let Wire {
            stream: _,
            noted: _,
        } = self;
    }
}

impl<T: Stream> Model for Wire<T> {
    ghost use Rattle.std.specs.Prelude.{ℕ, Bool, List};

    ghost Value = { List (Bool × ℕ) };

    ghost view = { λ w. w.noted.passed };
}

impl<T: Stream> Wire<T> {
    /// A stream over which nothing has passed.
    pub fn new(stream: T) -> Wire<T>
        ensures { result ≡ [] }
    {
        Wire {
            stream,
            noted: WireRecord::new(),
        }
    }

    /// The stream.
    pub fn stream(&self) -> &T {
        &self.stream
    }

    /// Begins a bounded wait.
    pub fn begin(&mut self)
        ensures { self.new ≡ self.old }
    {
        self.stream.begin();
    }

    // Sends some of the bytes from this position on.
    fn send_part(&mut self, bytes: &[u8], done: usize) -> Result<usize, NbdError>
        requires { done < length bytes.now }
        ensures { IfOk result (λ count. (0 < count) × (done + count ≤ length bytes.now)
            × (self.new ≡ self.old ++ sent (take count (drop done bytes.now)))) }
    {
        let count = self.stream.write(&bytes[done..])?;
        self.noted.note(true, &bytes[done..done + count]);
        Ok(count)
    }

    /// Sends these bytes, all of them.
    pub fn send(&mut self, bytes: &[u8]) -> Result<(), NbdError>
        ensures { OnOk result (self.new ≡ self.old ++ sent bytes.now) }
    {
        let mut done = 0;
        while done < bytes.len() {
            let count = self.send_part(bytes, done)?;
            done += count;
        }
        Ok(())
    }

    // Receives some bytes to this position of the buffer.
    fn receive_part(&mut self, buffer: &mut [u8], done: usize) -> Result<usize, NbdError>
        requires { done < length buffer.old }
        ensures { IfOk result (λ count. (0 < count) × (done + count ≤ length buffer.old)
            × (take done buffer.new ≡ take done buffer.old)
            × (self.new ≡ self.old ++ received (take count (drop done buffer.new)))) }
    {
        let count = self.stream.read(&mut buffer[done..])?;
        self.noted.note(false, &buffer[done..done + count]);
        Ok(count)
    }

    /// Receives as many bytes as the buffer has. After a failure the buffer may hold anything.
    pub fn receive(&mut self, buffer: &mut [u8]) -> Result<(), NbdError>
        ensures { OnOk result (self.new ≡ self.old ++ received buffer.new) }
    {
        let mut done = 0;
        while done < buffer.len() {
            let count = self.receive_part(buffer, done)?;
            done += count;
        }
        Ok(())
    }

    /// Receives so many bytes.
    pub fn receive_array<const N: usize>(&mut self) -> Result<[u8; N], NbdError>
        ensures { IfOk result (λ bytes. self.new ≡ self.old ++ received bytes) }
    {
        let mut bytes = [0; N];
        self.receive(&mut bytes)?;
        Ok(bytes)
    }

    // Receives what is there to this position of the buffer. Where nothing is there, it waits if `pause` is true, at most a millisecond.
    fn try_receive_part(
        &mut self,
        buffer: &mut [u8],
        done: usize,
        pause: bool,
    ) -> Result<usize, NbdError>
        requires { done < length buffer.old }
        ensures { IfOk result (λ count. (done + count ≤ length buffer.old)
            × (take done buffer.new ≡ take done buffer.old)
            × (self.new ≡ self.old ++ received (take count (drop done buffer.new)))) }
    {
        let count = self.stream.try_read(&mut buffer[done..], pause)?;
        self.noted.note(false, &buffer[done..done + count]);
        Ok(count)
    }

    /// Receives as many bytes as the buffer has. While nothing is there the other is done, a piece at a time. After a failure the buffer
    /// may hold anything.
    pub fn receive_while<M: Meanwhile>(
        &mut self,
        buffer: &mut [u8],
        other: &mut M,
    ) -> Result<(), NbdError>
        ensures wire { OnOk result (self.new ≡ self.old ++ received buffer.new) }
        ensures meanwhile { Passes M.passes other.old other.new }
    {
        let mut done = 0;
        let mut more = true;
        'parts: for _ in 0..u32::MAX {
            if buffer.len() <= done {
                return Ok(());
            }
            let count = self.try_receive_part(buffer, done, !more)?;
            if count == 0 {
                more = other.pass();
            }
            done += count;
        }
        Err(NbdError::Late)
    }

    /// Receives so many bytes. While nothing is there the other is done.
    pub fn receive_array_while<const N: usize, M: Meanwhile>(
        &mut self,
        other: &mut M,
    ) -> Result<[u8; N], NbdError>
        ensures wire { IfOk result (λ bytes. self.new ≡ self.old ++ received bytes) }
        ensures meanwhile { Passes M.passes other.old other.new }
    {
        let mut bytes = [0; N];
        self.receive_while(&mut bytes, other)?;
        Ok(bytes)
    }
}
