//! Reads and writes of any length, in requests of at most 32 MiB.

ghost use Rattle.std.specs.Prelude.{◌≡◌, ◌+◌, ◌++◌, ◌<◌, ◌≤◌, ◌^◌, [], ℕ, List, OnOk, length, take, drop};
ghost use Rattle.turn_disk.specs.Meanwhile.{Passes};
ghost use Rattle.turn_nbd.specs.Requests.{exchange, joined, next_cookie, reads, write_kind, writes};
ghost use Rattle.turn_nbd.specs.declared.request.Kind.TheVariants.{Read};

use crate::connection::Connection;
use crate::error::NbdError;
use crate::stream::Stream;
use turn_disk::Meanwhile;

/// The max number of bytes of one request's data, which is that of the protocol's default.
pub const MAX_PIECE: usize = 32 << 20;

// Reads so many bytes to this position of the buffer, in one request.
fn read_piece<T: Stream>(
    connection: &mut Connection<T>,
    at: usize,
    buffer: &mut [u8],
    done: usize,
    count: usize,
) -> Result<(), NbdError>
    requires within { done + count ≤ length buffer.old }
    requires small { count < 2 ^ 32 }
    ensures front { take done buffer.new ≡ take done buffer.old }
    ensures wire { OnOk result (connection.new.wire ≡ connection.old.wire
        ++ exchange Read connection.old.cookie at count [] (take count (drop done buffer.new))) }
    ensures cookie { OnOk result (connection.new.cookie ≡ next_cookie connection.old.cookie) }
{
    connection.read(at, &mut buffer[done..done + count])?;
    Ok(())
}

/// Reads to the buffer from this position of it on, in requests of at most 32 MiB. Position `at` of the export is where the buffer begins.
pub fn read_from<T: Stream>(
    connection: &mut Connection<T>,
    at: usize,
    buffer: &mut [u8],
    done: usize,
) -> Result<(), NbdError>
    requires place { at + length buffer.old < 2 ^ 64 }
    requires within { done ≤ length buffer.old }
    ensures front { take done buffer.new ≡ take done buffer.old }
    ensures wire { OnOk result ((pieces : List (List ℕ)) × (joined pieces ≡ drop done buffer.new)
        × (connection.new.wire ≡ connection.old.wire ++ reads connection.old.cookie (at + done) pieces)) }
{
    let count = MAX_PIECE.min(buffer.len() - done);
    if count == 0 {
        return Ok(());
    }
    read_piece(connection, at + done, buffer, done, count)?;
    read_from(connection, at, buffer, done + count)?;
    Ok(())
}

// Writes so many bytes from this position of them on, in one request.
fn write_piece<T: Stream, M: Meanwhile>(
    connection: &mut Connection<T>,
    at: usize,
    bytes: &[u8],
    done: usize,
    count: usize,
    is_durable: bool,
    other: &mut M,
) -> Result<(), NbdError>
    requires within { done + count ≤ length bytes.now }
    requires small { count < 2 ^ 32 }
    ensures wire { OnOk result (connection.new.wire ≡ connection.old.wire
        ++ exchange (write_kind is_durable) connection.old.cookie at count (take count (drop done bytes.now)) []) }
    ensures cookie { OnOk result (connection.new.cookie ≡ next_cookie connection.old.cookie) }
    ensures meanwhile { Passes M.passes other.old other.new }
{
    connection.write(at, &bytes[done..done + count], is_durable, other)?;
    Ok(())
}

/// Writes these bytes from this position of them on, in requests of at most 32 MiB. Position `at` of the export is where the bytes begin.
/// Where `is_durable` is true, each is durable before its reply comes.
pub fn write_from<T: Stream, M: Meanwhile>(
    connection: &mut Connection<T>,
    at: usize,
    bytes: &[u8],
    done: usize,
    is_durable: bool,
    other: &mut M,
) -> Result<(), NbdError>
    requires place { at + length bytes.now < 2 ^ 64 }
    requires within { done ≤ length bytes.now }
    ensures wire { OnOk result ((pieces : List (List ℕ)) × (joined pieces ≡ drop done bytes.now)
        × (connection.new.wire ≡ connection.old.wire ++ writes is_durable connection.old.cookie (at + done) pieces)) }
    ensures meanwhile { Passes M.passes other.old other.new }
{
    let count = MAX_PIECE.min(bytes.len() - done);
    if count == 0 {
        return Ok(());
    }
    write_piece(connection, at + done, bytes, done, count, is_durable, other)?;
    write_from(connection, at, bytes, done + count, is_durable, other)?;
    Ok(())
}
