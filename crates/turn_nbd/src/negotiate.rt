//! The handshake over a stream.

ghost use Rattle.std.specs.Prelude.{◌≡◌, ◌+◌, ◌++◌, ◌≤◌, ◌<◌, ◌^◌, ◌∷◌, [], OnOk, length};
ghost use Rattle.turn_nbd.specs.Wire.{sent, received};
ghost use Rattle.turn_nbd.specs.Handshake.{go, export_name};

use crate::error::NbdError;
use crate::handshake::{
    ACK, EXPORT_NAME, Found, GO, INFO, MAX_NAME, UNKNOWN_OPTION, check_option_reply, client_flags,
    has_no_zeros, option_head, read_greeting, read_told,
};
use crate::stream::Stream;
use crate::wire::Wire;

/// The max number of replies to an option that are read.
const MAX_REPLIES: u32 = 64;

/// The max number of bytes of data of a reply to an option.
const MAX_REPLY: u32 = 65_536;

/// How many bytes follow the reply to `EXPORT_NAME` where zeros weren't left out.
const ZEROS: u32 = 124;

/// The type of the information on an export.
const EXPORT_INFO: [u8; 2] = [0; 2];

/// How many bytes the information on an export has.
const EXPORT_INFO_SIZE: u32 = 12;

/// The bit of a reply's type that says that the option failed.
const ERROR: u32 = 0x8000_0000;

/// Receives so many bytes, and forgets them.
fn skip<T: Stream>(wire: &mut Wire<T>, count: u32) -> Result<(), NbdError> {
    if MAX_REPLY < count {
        return Err(NbdError::Handshake);
    }
    let mut buffer = [0; 256];
    let mut left = count as usize;
    while 0 < left {
        let size = left.min(256);
        wire.receive(&mut buffer[..size])?;
        left -= size;
    }
    Ok(())
}

/// Asks for an export by the option GO.
fn send_go<T: Stream>(wire: &mut Wire<T>, name: &str) -> Result<(), NbdError>
    requires { length name.now ≤ 4096 }
    ensures { OnOk result (wire.new ≡ wire.old ++ sent (go name.now)) }
{
    let count = name.len() as u32;
    wire.send(&option_head(GO, count + 6))?;
    wire.send(&count.to_be_bytes())?;
    wire.send(name.as_bytes())?;
    wire.send(&[0, 0])?;
    Ok(())
}

/// Asks for an export by the option EXPORT_NAME.
fn send_name<T: Stream>(wire: &mut Wire<T>, name: &str) -> Result<(), NbdError>
    requires { length name.now ≤ 4096 }
    ensures { OnOk result (wire.new ≡ wire.old ++ sent (export_name name.now)) }
{
    wire.send(&option_head(EXPORT_NAME, name.len() as u32))?;
    wire.send(name.as_bytes())?;
    Ok(())
}

/// What one reply to GO says.
enum Answer {
    /// What the server tells of the export.
    Told(Found),
    /// Information of another kind.
    Other,
    /// The export is the client's.
    Taken,
    /// The server doesn't know the option.
    Unknown,
}

/// Receives information of so many bytes.
fn receive_information<T: Stream>(wire: &mut Wire<T>, count: u32) -> Result<Answer, NbdError> {
    if count < 2 {
        return Err(NbdError::Handshake);
    }
    let kind: [u8; 2] = wire.receive_array()?;
    if kind != EXPORT_INFO {
        skip(wire, count - 2)?;
        return Ok(Answer::Other);
    }
    if count != EXPORT_INFO_SIZE {
        return Err(NbdError::Handshake);
    }
    let size = wire.receive_array()?;
    let flags = wire.receive_array()?;
    Ok(Answer::Told(read_told(size, flags)))
}

/// Receives a reply to GO.
fn receive_answer<T: Stream>(wire: &mut Wire<T>) -> Result<Answer, NbdError> {
    let magic = wire.receive_array()?;
    let option = wire.receive_array()?;
    check_option_reply(&magic, option, GO)?;
    let kind = u32::from_be_bytes(wire.receive_array()?);
    let count = u32::from_be_bytes(wire.receive_array()?);
    if kind == INFO {
        return receive_information(wire, count);
    }
    skip(wire, count)?;
    if kind == ACK {
        return Ok(Answer::Taken);
    }
    if kind == UNKNOWN_OPTION {
        return Ok(Answer::Unknown);
    }
    if kind & ERROR != 0 {
        return Err(NbdError::NoExport);
    }
    Err(NbdError::Handshake)
}

/// What the server tells of the export, or `None` where it doesn't know the option GO.
fn receive_answers<T: Stream>(wire: &mut Wire<T>) -> Result<Option<Found>, NbdError> {
    let mut told = None;
    for _ in 0..MAX_REPLIES {
        match receive_answer(wire)? {
            Answer::Told(found) => told = Some(found),
            Answer::Other => {}
            Answer::Taken => {
                return match told {
                    Some(found) => Ok(Some(found)),
                    None => Err(NbdError::Handshake),
                };
            }
            Answer::Unknown => return Ok(None),
        }
    }
    Err(NbdError::Handshake)
}

/// Asks for an export by the option that all servers have. One that refuses it ends the connection.
fn negotiate_by_name<T: Stream>(
    wire: &mut Wire<T>,
    name: &str,
    flags: u16,
) -> Result<Found, NbdError>
    requires { length name.now ≤ 4096 }
{
    send_name(wire, name)?;
    let size = match wire.receive_array() {
        Err(NbdError::Closed) => return Err(NbdError::NoExport),
        received => received?,
    };
    let told = read_told(size, wire.receive_array()?);
    if !has_no_zeros(flags) {
        skip(wire, ZEROS)?;
    }
    Ok(told)
}

/// Does the handshake with a server of which nothing was received yet, and asks for the export of this name.
pub fn negotiate<T: Stream>(wire: &mut Wire<T>, name: &str) -> Result<Found, NbdError> {
    if MAX_NAME < name.len() {
        return Err(NbdError::NoExport);
    }
    wire.begin();
    let magic = wire.receive_array()?;
    let flags = read_greeting(&magic, wire.receive_array()?)?;
    wire.send(&client_flags(flags).to_be_bytes())?;
    send_go(wire, name)?;
    match receive_answers(wire)? {
        Some(found) => Ok(found),
        None => negotiate_by_name(wire, name, flags),
    }
}
