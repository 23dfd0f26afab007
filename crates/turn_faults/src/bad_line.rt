//! Why a configuration was not read, as a log has it.

use std::alloc::{AllocError, Global};
use std::fmt;
use turn_config::{BadLineReason, Times, bad_line_reason};
use turn_log::ShownName;

/// How many bytes of a value are shown.
const MAX_SHOWN: usize = 80;

/// A part of a line, in quotation marks.
#[derive(Clone, Copy)]
struct Quoted<'a>(&'a [u8]);

impl fmt::Display for Quoted<'_> {
    fn fmt<W: fmt::Write>(&self, f: &mut fmt::Formatter<W>) -> fmt::Result {
        let shown = ShownName(self.0.get(..MAX_SHOWN).unwrap_or(self.0));
        let rest = if MAX_SHOWN < self.0.len() { ".." } else { "" };
        write!(f, "\"{shown}\"{rest}")
    }
}

/// Why a line is bad: how many lines there may be, where that is told by a number, texts one after the other, and a part of the line.
#[derive(Clone, Copy)]
struct Words<'a> {
    most: Option<usize>,
    texts: [&'static str; 4],
    quoted: Option<&'a [u8]>,
}

/// Texts alone.
fn texts_alone<'a>(texts: [&'static str; 4]) -> Words<'a> {
    Words {
        most: None,
        texts,
        quoted: None,
    }
}

/// How a line is one too many.
fn words_of_repeated<'a>(word: &'static str, times: Times) -> Words<'a> {
    match times {
        Times::Once => texts_alone(["a second line \"", word, "\"", ""]),
        Times::OnceAName => texts_alone(["a second line \"", word, "\" of one name", ""]),
        Times::UpTo(most) => Words {
            most: Some(most),
            texts: [" lines \"", word, "\"", ""],
            quoted: None,
        },
    }
}

fn words_of<'a>(reason: BadLineReason<'a>) -> Words<'a> {
    match reason {
        BadLineReason::NoValue => {
            texts_alone(["no word and value with a blank between", "", "", ""])
        }
        BadLineReason::UnknownWord(quoted) => Words {
            most: None,
            texts: [
                "unknown word",
                if quoted.is_some() { " " } else { "" },
                "",
                "",
            ],
            quoted,
        },
        BadLineReason::OtherForm { word, form, value } => Words {
            most: None,
            texts: [
                word,
                " takes ",
                form,
                if value.is_some() { ", not " } else { "" },
            ],
            quoted: value,
        },
        BadLineReason::Repeated { word, times } => words_of_repeated(word, times),
        BadLineReason::Missing(word) => texts_alone(["no line \"", word, "\"", ""]),
    }
}

impl fmt::Display for Words<'_> {
    fn fmt<W: fmt::Write>(&self, f: &mut fmt::Formatter<W>) -> fmt::Result {
        if let Some(most) = self.most {
            write!(f, "more than {most}")?;
        }
        let [first, second, third, last] = self.texts;
        write!(f, "{first}{second}{third}{last}")?;
        match self.quoted {
            Some(quoted) => {
                let quoted = Quoted(quoted);
                write!(f, "{quoted}")
            }
            None => Ok(()),
        }
    }
}

/// The file, and the line where it is one that is there.
fn place_text(alloc: Global, path: &str, number: Option<u64>) -> Result<String, AllocError> {
    let path = ShownName(path.as_bytes());
    match number {
        Some(number) => format!(in alloc; "config {path} line {number}"),
        None => format!(in alloc; "config {path}"),
    }
}

/// What a log says of a configuration with a text whose first bad line has this number.
pub fn bad_line_text(
    alloc: Global,
    path: &str,
    text: &[u8],
    number: u64,
) -> Result<String, AllocError> {
    let reason = bad_line_reason(text, number);
    let place = match reason {
        Some(BadLineReason::Missing(_)) => place_text(alloc, path, None)?,
        _ => place_text(alloc, path, Some(number))?,
    };
    match reason {
        Some(reason) => {
            let words = words_of(reason);
            format!(in alloc; "{place}: {words}")
        }
        None => Ok(place),
    }
}
