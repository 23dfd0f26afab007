//! Fields, read from the front: each function returns the value and the bytes after it, or the first fault.

ghost use Rattle.std.specs.Prelude.{◌≡◌};
ghost use Rattle.std.specs.Int.{w16, w32, w64};
ghost use Rattle.turn_history.specs.ChannelNumber.{is_channel_number};
ghost use Rattle.turn_record.specs.declared.error.DecodeError.TheVariants.{BadValue};
ghost use Rattle.turn_record.specs.Reading.{Gives, byte_at, bytes_at, count_at, endpoint_at, granted_at, checked, moment_at, name_at, name_len_at, number_at, renewed_at, token_at, token_bytes_at, tuple_at, tx_at, begins_with};

use crate::error::{DecodeError, ReadError};
use std::alloc::Allocator;
use turn_history::{ChannelNumber, UserName};
use turn_types::{
    Bounds, DEFAULT_LIFETIME, Endpoint, FiveTuple, MAX_LIFETIME, Moment, Token, TxId,
};

pub(crate) fn byte_of(bytes: &[u8]) -> Result<(u8, &[u8]), ReadError>
    ensures { Gives (λ x. (x.0, x.1.now)) result (byte_at bytes.now) }
{
    match bytes {
        [] => Err(ReadError::Malformed(DecodeError::Short)),
        [b, rest @ ..] => Ok((*b, rest)),
    }
}

pub(crate) fn u16_of(bytes: &[u8]) -> Result<(u16, &[u8]), ReadError>
    ensures { Gives (λ x. (x.0, x.1.now)) result (number_at w16 bytes.now) }
{
    if bytes.len() < 2 {
        return Err(ReadError::Malformed(DecodeError::Short));
    }
    let (front, rest) = bytes.split_at(2);
    Ok((u16::from_be_bytes([front[0], front[1]]), rest))
}

pub(crate) fn u32_of(bytes: &[u8]) -> Result<(u32, &[u8]), ReadError>
    ensures { Gives (λ x. (x.0, x.1.now)) result (number_at w32 bytes.now) }
{
    if bytes.len() < 4 {
        return Err(ReadError::Malformed(DecodeError::Short));
    }
    let (front, rest) = bytes.split_at(4);
    Ok((
        u32::from_be_bytes([front[0], front[1], front[2], front[3]]),
        rest,
    ))
}

pub(crate) fn u64_of(bytes: &[u8]) -> Result<(u64, &[u8]), ReadError>
    ensures { Gives (λ x. (x.0, x.1.now)) result (number_at w64 bytes.now) }
{
    if bytes.len() < 8 {
        return Err(ReadError::Malformed(DecodeError::Short));
    }
    let (front, rest) = bytes.split_at(8);
    let number = u64::from_be_bytes([
        front[0], front[1], front[2], front[3], front[4], front[5], front[6], front[7],
    ]);
    Ok((number, rest))
}

fn bytes_of(n: usize, bytes: &[u8]) -> Result<(&[u8], &[u8]), ReadError>
    ensures { Gives (λ x. (x.0.now, x.1.now)) result (bytes_at n bytes.now) }
{
    if bytes.len() < n {
        return Err(ReadError::Malformed(DecodeError::Short));
    }
    Ok(bytes.split_at(n))
}

#[tactic(auto, unfolding(crate::specs::Reading::moment_at))]
pub(crate) fn moment_of(bytes: &[u8]) -> Result<(Moment, &[u8]), ReadError>
    ensures { Gives (λ x. (x.0, x.1.now)) result (moment_at bytes.now) }
{
    let (seconds, rest) = u64_of(bytes)?;
    match Moment::new(seconds) {
        Some(moment) => Ok((moment, rest)),
        None => Err(ReadError::Malformed(DecodeError::BadValue)),
    }
}

#[tactic(auto, unfolding(crate::specs::Reading::endpoint_at))]
pub(crate) fn endpoint_of(bytes: &[u8]) -> Result<(Endpoint, &[u8]), ReadError>
    ensures { Gives (λ x. (x.0, x.1.now)) result (endpoint_at bytes.now) }
{
    let (ip, rest) = u32_of(bytes)?;
    let (port, rest) = u16_of(rest)?;
    Ok((Endpoint { ip, port }, rest))
}

#[tactic(auto, unfolding(crate::specs::Reading::tuple_at))]
pub(crate) fn tuple_of(bytes: &[u8]) -> Result<(FiveTuple, &[u8]), ReadError>
    ensures { Gives (λ x. (x.0, x.1.now)) result (tuple_at bytes.now) }
{
    let (client, rest) = endpoint_of(bytes)?;
    let (server, rest) = endpoint_of(rest)?;
    Ok((FiveTuple { client, server }, rest))
}

#[tactic(auto, unfolding(crate::specs::Reading::name_len_at))]
fn name_len_of(bounds: Bounds, bytes: &[u8]) -> Result<(u16, &[u8]), ReadError>
    ensures { Gives (λ x. (x.0, x.1.now)) result (name_len_at bounds bytes.now) }
{
    let (n, rest) = u16_of(bytes)?;
    if n == 0 || bounds.name_bytes < n {
        return Err(ReadError::Malformed(DecodeError::BadValue));
    }
    Ok((n, rest))
}

#[tactic(auto, unfolding(crate::specs::Reading::name_at))]
pub(crate) fn name_of<'a, A: Allocator + Copy>(
    alloc: A,
    bounds: Bounds,
    bytes: &'a [u8],
) -> Result<(UserName<A>, &'a [u8]), ReadError>
    ensures { Gives (λ x. (x.0, x.1.now)) result (name_at bounds bytes.now) }
{
    let (n, rest) = name_len_of(bounds, bytes)?;
    let (name, rest) = bytes_of(usize::from(n), rest)?;
    let user = Vec::from_slice(alloc, name)?;
    Ok((UserName::from(user), rest))
}

#[tactic(auto, unfolding(crate::specs::Reading::granted_at))]
pub(crate) fn granted_of(bytes: &[u8]) -> Result<(u32, &[u8]), ReadError>
    ensures { Gives (λ x. (x.0, x.1.now)) result (granted_at bytes.now) }
{
    let (granted, rest) = u32_of(bytes)?;
    if granted < DEFAULT_LIFETIME || MAX_LIFETIME < granted {
        return Err(ReadError::Malformed(DecodeError::BadValue));
    }
    Ok((granted, rest))
}

#[tactic(auto, unfolding(crate::specs::Reading::renewed_at))]
pub(crate) fn renewed_of(bytes: &[u8]) -> Result<(u32, &[u8]), ReadError>
    ensures { Gives (λ x. (x.0, x.1.now)) result (renewed_at bytes.now) }
{
    let (granted, rest) = u32_of(bytes)?;
    if granted != 0 && (granted < DEFAULT_LIFETIME || MAX_LIFETIME < granted) {
        return Err(ReadError::Malformed(DecodeError::BadValue));
    }
    Ok((granted, rest))
}

#[tactic(auto, unfolding(crate::specs::Reading::tx_at))]
pub(crate) fn tx_of(bytes: &[u8]) -> Result<(TxId, &[u8]), ReadError>
    ensures { Gives (λ x. (x.0, x.1.now)) result (tx_at bytes.now) }
{
    let (tx, rest) = bytes_of(12, bytes)?;
    let mut id = [0; 12];
    id.copy_from_slice(tx);
    Ok((TxId(id), rest))
}

#[tactic(auto, unfolding(crate::specs::Reading::token_bytes_at))]
fn token_bytes_of(bytes: &[u8]) -> Result<(Token, &[u8]), ReadError>
    ensures { Gives (λ x. (x.0, x.1.now)) result (token_bytes_at bytes.now) }
{
    let (token, rest) = bytes_of(8, bytes)?;
    let mut id = [0; 8];
    id.copy_from_slice(token);
    Ok((Token(id), rest))
}

/// Whether a token begins with the two bytes of its port.
fn begins_with(port: u16, token: Token) -> bool
    ensures { result ≡ begins_with port token }
{
    u16::from_be_bytes([token.0[0], token.0[1]]) == port
}

#[tactic(auto, unfolding(crate::specs::Reading::token_at))]
pub(crate) fn token_of(port: u16, bytes: &[u8]) -> Result<(Token, &[u8]), ReadError>
    ensures { Gives (λ x. (x.0, x.1.now)) result (token_at port bytes.now) }
{
    let (token, rest) = token_bytes_of(bytes)?;
    if !begins_with(port, token) {
        return Err(ReadError::Malformed(DecodeError::BadValue));
    }
    Ok((token, rest))
}

/// The channel number of a number that was read.
pub(crate) fn channel_number(number: u16) -> Result<ChannelNumber, ReadError>
    ensures { Gives (λ n. n) result (checked (is_channel_number number) BadValue number) }
{
    match ChannelNumber::new(number) {
        Some(number) => Ok(number),
        None => Err(ReadError::Malformed(DecodeError::BadValue)),
    }
}

#[tactic(auto, unfolding(crate::specs::Reading::count_at))]
pub(crate) fn count_of(low: u8, high: u16, bytes: &[u8]) -> Result<(u8, &[u8]), ReadError>
    ensures { Gives (λ x. (x.0, x.1.now)) result (count_at low high bytes.now) }
{
    let (count, rest) = byte_of(bytes)?;
    if count < low || high < u16::from(count) {
        return Err(ReadError::Malformed(DecodeError::BadValue));
    }
    Ok((count, rest))
}
