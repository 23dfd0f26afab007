//! The line that shows how a command is called.

ghost use Rattle.std.specs.Prelude.{◌≡◌, ◌++◌, IfOk, OnOk, string_bytes};
ghost use Rattle.turn_cli.specs.Table.{line_of, shown_both, shown_part, shown_word};

use super::table::{Part, Synopsis, Word};
use super::words::shown_kind;
use std::alloc::{AllocError, Global};

fn push_word(line: &mut String, word: &Word) -> Result<(), AllocError>
    ensures { OnOk result (string_bytes line.new ≡ string_bytes line.old ++ shown_word word.now) }
{
    match word {
        Word::Flag(name) => {
            line.push_str("--")?;
            line.push_str(name)
        }
        Word::Named(name, kind) => {
            line.push_str("--")?;
            line.push_str(name)?;
            line.push_str(" ")?;
            line.push_str(shown_kind(*kind))
        }
        Word::Value(kind) => line.push_str(shown_kind(*kind)),
    }
}

fn push_both(line: &mut String, one: &Word, other: &Word) -> Result<(), AllocError>
    ensures { OnOk result (string_bytes line.new ≡ string_bytes line.old ++ shown_both one.now other.now) }
{
    push_word(line, one)?;
    line.push_str(" ")?;
    push_word(line, other)
}

fn push_part(line: &mut String, part: &Part) -> Result<(), AllocError>
    ensures { OnOk result (string_bytes line.new ≡ string_bytes line.old ++ shown_part part.now) }
{
    match part {
        Part::Required(word) => {
            line.push_str(" ")?;
            push_word(line, word)
        }
        Part::Optional(word) => {
            line.push_str(" [")?;
            push_word(line, word)?;
            line.push_str("]")
        }
        Part::Many(word) => {
            line.push_str(" [")?;
            push_word(line, word)?;
            line.push_str("]...")
        }
        Part::Either(one, other) => {
            line.push_str(" ")?;
            push_word(line, one)?;
            line.push_str(" | ")?;
            push_word(line, other)
        }
        Part::WithEither(first, one, other, last) => {
            line.push_str(" [")?;
            push_both(line, first, one)?;
            line.push_str(" | ")?;
            push_both(line, first, other)?;
            line.push_str(" | ")?;
            push_word(line, last)?;
            line.push_str("]")
        }
    }
}

/// How a command is called: the program, the command's name and its words.
pub fn line_of(alloc: Global, synopsis: &Synopsis) -> Result<String, AllocError>
    ensures { IfOk result (λ line. string_bytes line ≡ line_of synopsis.now) }
{
    let mut line = String::from_str(alloc, "turn ")?;
    line.push_str(synopsis.name)?;
    for part in synopsis.parts {
        push_part(&mut line, part)?;
    }
    Ok(line)
}
