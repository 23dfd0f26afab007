//! Names as text.

ghost use Rattle.std.specs.Prelude.{◌≡◌, ◌<◌, ◌↔◌, ◌≤◌, ◌≢◌, ◌+◌, IsTrue, Some, flat_map, length, take};
ghost use Rattle.turn_log.specs.Names.{IsCut, digit, shown_byte, shown_name, text_of};

use std::fmt;

/// Whether a byte stands for itself in a word: it is printable ASCII, and no space and no percent sign.
fn is_plain(byte: u8) -> bool
    ensures { IsTrue result ↔ ((33 ≤ byte) × (byte ≤ 126) × (byte ≢ 37)) }
{
    (0x21..=0x7e).contains(&byte) && byte != b'%'
}

/// A digit of a hexadecimal number, in lower case.
fn digit(value: u8) -> char
    requires { value < 16 }
    ensures { result ≡ digit value }
{
    if value < 10 {
        char::from(b'0' + value)
    } else {
        char::from(b'a' + (value - 10))
    }
}

/// A byte of a name as text.
#[derive(Clone, Copy)]
struct ShownByte(u8);

impl fmt::Display for ShownByte {
    ghost output = { λ shown. Some (shown_byte shown.0) };

    fn fmt<W: fmt::Write>(&self, f: &mut fmt::Formatter<W>) -> fmt::Result {
        let byte = self.0;
        if is_plain(byte) {
            let plain = char::from(byte);
            return write!(f, "{plain}");
        }
        let high = digit(byte / 16);
        let low = digit(byte % 16);
        write!(f, "%{high}{low}")
    }
}

/// A user's name as one word of printable ASCII: each other byte, and a percent sign, is `%` with two hex digits, and a name without
/// a byte is `%`.
#[derive(Clone, Copy, Debug)]
pub struct ShownName<'a>(pub &'a [u8]);

impl<'a> fmt::Display for ShownName<'a> {
    ghost output = { λ shown. Some (shown_name shown.0.now) };

    fn fmt<W: fmt::Write>(&self, f: &mut fmt::Formatter<W>) -> fmt::Result {
        if self.0.is_empty() {
            return write!(f, "%");
        }
        for byte in self.0 {
            let shown = ShownByte(*byte);
            write!(f, "{shown}")?;
        }
        Ok(())
    }
}

/// How many characters a byte of a name has as text.
fn width_of(byte: u8) -> usize
    ensures { result ≡ length (shown_byte byte) }
{
    if is_plain(byte) { 1 } else { 3 }
}

/// How many of the first bytes of a name have a text of so many characters, which is as many as fit.
#[tactic(auto, using(crate::proofs::Names::next))]
fn fitting(name: &[u8], most: usize) -> usize
    ensures within { result ≤ length name.now }
    ensures fits { length (flat_map shown_byte (take result name.now)) ≤ most }
    ensures no_more { result < length name.now → most < length (flat_map shown_byte (take result name.now)) + 3 }
    ensures cut { result < length name.now → most < length (flat_map shown_byte name.now) }
{
    let mut left = most;
    for (place, byte) in name.iter().enumerate() {
        let width = width_of(*byte);
        if left < width {
            return place;
        }
        left -= width;
    }
    name.len()
}

/// How many characters of a name of a user are shown at most.
const USERS: usize = 508;

/// How many of a name of somebody who didn't pass.
const STRANGERS: usize = 64;

/// A name as the word of a `ShownName`, cut where it has too many characters: then `..` follows what is shown of it.
#[derive(Clone, Copy, Debug)]
pub struct CutName<'a> {
    shown: ShownName<'a>,
    is_cut: bool,
}

impl<'a> CutName<'a> {
    /// A name of which at most so many characters are shown.
    #[tactic(auto, using(crate::proofs::Names::at_least, crate::proofs::Names::at_most))]
    fn new(name: &'a [u8], most: usize) -> CutName<'a>
        requires { 3 ≤ most }
        ensures bound { length (text_of result) ≤ most + 2 }
        ensures whole { length (shown_name name.now) ≤ most → text_of result ≡ shown_name name.now }
        ensures cut { most < length (shown_name name.now) → IsCut most name.now (text_of result) }
    {
        let count = fitting(name, most);
        CutName {
            shown: ShownName(&name[..count]),
            is_cut: count < name.len(),
        }
    }

    /// A user's name: at most 508 characters of it.
    pub fn of_user(name: &'a [u8]) -> CutName<'a>
        ensures bound { length (text_of result) ≤ 510 }
        ensures whole { length (shown_name name.now) ≤ 508 → text_of result ≡ shown_name name.now }
        ensures cut { 508 < length (shown_name name.now) → IsCut 508 name.now (text_of result) }
    {
        CutName::new(name, USERS)
    }

    /// A name of somebody who didn't pass: at most 64 characters of it.
    pub fn of_stranger(name: &'a [u8]) -> CutName<'a>
        ensures bound { length (text_of result) ≤ 66 }
        ensures whole { length (shown_name name.now) ≤ 64 → text_of result ≡ shown_name name.now }
        ensures cut { 64 < length (shown_name name.now) → IsCut 64 name.now (text_of result) }
    {
        CutName::new(name, STRANGERS)
    }
}

impl<'a> fmt::Display for CutName<'a> {
    ghost output = { λ cut. Some (text_of cut) };

    fn fmt<W: fmt::Write>(&self, f: &mut fmt::Formatter<W>) -> fmt::Result {
        let shown = self.shown;
        if self.is_cut {
            write!(f, "{shown}..")
        } else {
            write!(f, "{shown}")
        }
    }
}
