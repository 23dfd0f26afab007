//! What the words of a command were given: a value of a word is read only if the command's row of the table has that word, with that
//! kind of value.

ghost use Rattle.std.specs.Prelude.{◌≡◌, ◌==◌, IfOk, Some, false, map, option_map, string_bytes};
ghost use Rattle.std.specs.Option.{option_copied};
ghost use Rattle.turn_cli.specs.Table.{IsFlag, IsFoundIn, all_given, given, has_flag, has_word, is_given, is_met, is_met_part, is_word, kind_number, takes_flag, takes_word};

use super::help::row_of;
use super::table::{Kind, Part, Synopsis, Word};
use super::words::shown_kind;
use crate::error::CliError;
use clap::ArgMatches;
use std::alloc::{AllocError, Global};

/// The words of a command, as they were found.
#[derive(Clone, Copy)]
pub struct Found<'a, 'b> {
    /// The command's row of the table.
    pub synopsis: &'static Synopsis,
    /// What was found.
    pub matches: &'b ArgMatches<'a>,
}

/// Whether two kinds are one.
fn is_kind(kind: Kind, other: Kind) -> bool
    ensures { result ≡ (kind_number kind == kind_number other) }
{
    kind as u8 == other as u8
}

/// Whether a word has this name and this kind of value.
fn is_word(word: &Word, name: &str, kind: Kind) -> bool
    ensures { result ≡ is_word name.now kind word.now }
{
    match word {
        Word::Flag(_) => false,
        Word::Named(own, form) => *own == name && is_kind(*form, kind),
        Word::Value(form) => shown_kind(*form) == name && is_kind(*form, kind),
    }
}

/// Whether a part has a word of this name and this kind of value.
fn has_word(part: &Part, name: &str, kind: Kind) -> bool
    ensures { result ≡ has_word name.now kind part.now }
{
    match part {
        Part::Required(word) | Part::Optional(word) | Part::Many(word) => is_word(word, name, kind),
        Part::Either(one, other) => is_word(one, name, kind) || is_word(other, name, kind),
        Part::WithEither(first, one, other, last) => {
            is_word(first, name, kind)
                || is_word(one, name, kind)
                || is_word(other, name, kind)
                || is_word(last, name, kind)
        }
    }
}

/// Whether a part has this flag.
fn has_flag(part: &Part, name: &str) -> bool
    ensures { result ≡ has_flag name.now part.now }
{
    match part {
        Part::Optional(Word::Flag(own)) => *own == name,
        _ => false,
    }
}

impl<'a> Found<'a, '_> {
    /// Whether the row has a word of this name and this kind of value.
    fn has(&self, name: &str, kind: Kind) -> bool
        ensures { result ≡ takes_word self.now.synopsis.now name.now kind }
    {
        self.synopsis
            .parts
            .iter()
            .any(|part| has_word(part, name, kind))
    }

    /// The text that the word of this name and this kind of value was given, if it was.
    #[tactic(auto, unfolding(crate::specs::Table::given))]
    pub fn text(&self, name: &str, kind: Kind) -> Option<&'a str>
        ensures { option_copied result ≡ given self.now name.now kind }
    {
        if self.has(name, kind) {
            self.matches.get_str(name)
        } else {
            None
        }
    }

    /// The text of a word, as bytes.
    pub fn bytes(&self, name: &str, kind: Kind) -> Option<&'a [u8]>
        ensures { option_copied result ≡ given self.now name.now kind }
    {
        self.text(name, kind).map(|text| text.as_bytes())
    }

    /// The text of a word that has to be there.
    pub fn owned(&self, alloc: Global, name: &str, kind: Kind) -> Result<String, CliError>
        ensures { IfOk result (λ text. given self.now name.now kind ≡ Some (string_bytes text)) }
    {
        let text = self.text(name, kind).ok_or(CliError::Usage)?;
        Ok(String::from_str(alloc, text)?)
    }

    /// The texts that the word of this name and this kind of value was given, if it was.
    #[tactic(auto, unfolding(crate::specs::Table::all_given))]
    pub fn texts(&self, name: &str, kind: Kind) -> Option<&[&'a str]>
        ensures { option_map (λ texts. map (λ text. text.now) texts.now) result ≡ all_given self.now name.now kind }
    {
        if self.has(name, kind) {
            self.matches.get_strs(name)
        } else {
            None
        }
    }

    /// Whether the row has a flag of this name.
    fn has_flag(&self, name: &str) -> bool
        ensures { result ≡ takes_flag self.now.synopsis.now name.now }
    {
        self.synopsis.parts.iter().any(|part| has_flag(part, name))
    }

    /// Whether the flag of this name stands.
    pub fn flag(&self, name: &str) -> bool
        ensures { IsFlag self.now name.now result }
    {
        self.has_flag(name) && self.matches.get_flag(name)
    }
    /// Whether a word stands. A flag may always be left out.
    fn stands(&self, word: &Word) -> bool
        ensures { result ≡ is_given self.now word.now }
    {
        match word {
            Word::Flag(_) => false,
            Word::Named(name, _) => self.matches.get_str(name).is_some(),
            Word::Value(kind) => self.matches.get_str(shown_kind(*kind)).is_some(),
        }
    }

    /// Whether the words of a part stand as the part says.
    fn meets(&self, part: &Part) -> bool
        ensures { result ≡ is_met_part self.now part.now }
    {
        match part {
            Part::Required(word) => self.stands(word),
            Part::Optional(_) | Part::Many(_) => true,
            Part::Either(one, other) => self.stands(one) != self.stands(other),
            Part::WithEither(first, one, other, last) => {
                let (is_first, is_one, is_other) = (
                    self.stands(first),
                    self.stands(one),
                    self.stands(other),
                );
                is_first == (is_one || is_other)
                    && !(is_one && is_other)
                    && !(is_first && self.stands(last))
            }
        }
    }

    /// Whether each part of the row is met: what has to stand does, and of alternatives no two do.
    pub fn is_met(&self) -> bool
        ensures { result ≡ is_met self.now }
    {
        self.synopsis.parts.iter().all(|part| self.meets(part))
    }
}

/// The row that was called, with what its words were given. `Usage` where it isn't met.
pub fn found_in<'a, 'b>(
    synopses: &'static [Synopsis],
    matches: &'b ArgMatches<'a>,
) -> Result<Found<'a, 'b>, CliError>
    ensures { IfOk result (λ found. IsFoundIn synopses.entry.now matches.entry.now found) }
{
    let (name, matches) = matches.subcommand().ok_or(CliError::Usage)?;
    let synopsis = row_of(synopses, name).ok_or(CliError::Usage)?;
    let found = Found { synopsis, matches };
    let is_met = found.is_met();
    if is_met {
        Ok(found)
    } else {
        Err(CliError::Usage)
    }
}

/// A text of its own, if there is one.
pub fn owned(alloc: Global, text: Option<&str>) -> Result<Option<String>, AllocError>
    ensures { IfOk result (λ copy. option_map string_bytes copy ≡ option_copied text.entry) }
{
    match text {
        Some(text) => Ok(Some(String::from_str(alloc, text)?)),
        None => Ok(None),
    }
}
