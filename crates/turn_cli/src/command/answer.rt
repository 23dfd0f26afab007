//! The words of `turn answer`.

ghost use Rattle.std.specs.Prelude.{IfOk, IfErr, SomeIff};
ghost use Rattle.std.specs.Option.{option_copied};
ghost use Rattle.turn_cli.specs.Command.{IsAnswer, IsAnswerError, IsMomentWord, IsInRange, seconds_at};
ghost use Rattle.turn_cli.specs.Read.{IsRead};

use super::Command;
use super::found::Found;
use super::table::Kind;
use crate::error::CliError;
use std::alloc::Global;
use turn_config::values::{bytes, endpoint, moment};
use turn_types::Moment;

/// The moment of `--at`, 0 if there is no such option.
fn moment_at(text: Option<&[u8]>) -> Option<Moment>
    ensures { SomeIff result (IsMomentWord (option_copied text.entry)) (seconds_at (option_copied text.entry)) }
{
    match text {
        Some(text) => moment(text),
        None => Moment::new(0),
    }
}

/// The command `answer`, by the texts of its values. A datagram that is not hex is checked last.
fn answer(alloc: Global, from: &[u8], at: Option<&[u8]>, hex: &[u8]) -> Result<Command, CliError>
    ensures taken { IfOk result (λ command. IsAnswer from.now (option_copied at.entry) hex.now command) }
    ensures refused { IfErr result (λ fault. IsAnswerError from.now (option_copied at.entry) hex.now fault) }
{
    let Some(from) = endpoint(from) else {
        return Err(CliError::Usage);
    };
    let Some(at) = moment_at(at) else {
        return Err(CliError::Usage);
    };
    let Some(datagram) = bytes(alloc, hex)? else {
        return Err(CliError::BadDatagram);
    };
    Ok(Command::Answer { from, at, datagram })
}

/// The values of `answer`. `Usage` where one is malformed or out of range, `BadDatagram` for the datagram.
pub fn answer_of(alloc: Global, found: &Found<'_, '_>) -> Result<Command, CliError>
    ensures range { IfOk result (λ command. IsInRange command) }
    ensures read { IfOk result (λ command. IsRead found.now command) }
{
    let from = found.bytes("from", Kind::Endpoint).ok_or(CliError::Usage)?;
    let at = found.bytes("at", Kind::Moment);
    let hex = found.bytes("HEX", Kind::Hex).ok_or(CliError::Usage)?;
    answer(alloc, from, at, hex)
}
