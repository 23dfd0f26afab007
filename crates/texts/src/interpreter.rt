//! How a text is played.

use std::alloc::AllocError;

/// What plays the lines of a text, one after the other.
pub trait Interpreter {
    /// Plays a line that is neither empty nor a comment. False if what it says doesn't hold, or if it can't be read.
    fn play(&mut self, line: &[u8]) -> Result<bool, AllocError>;

    /// Takes what the last line came to, if that is a text.
    fn found(&mut self) -> Option<String> {
        None
    }
}

/// What came of a text.
pub enum Outcome {
    /// Each line holds: how many there are, without comments and empty lines.
    Holds(u64),
    /// The number of the first line that doesn't, from 1, and what it came to, if that is a text.
    Differs(u64, Option<String>),
}

/// Plays a text to its end, or to its first line that doesn't hold.
pub fn play_text<I: Interpreter>(interpreter: &mut I, text: &[u8]) -> Result<Outcome, AllocError> {
    let mut number = 0_u64;
    let mut held = 0_u64;
    for line in text.split(|byte| *byte == b'\n') {
        number = number.wrapping_add(1);
        if !line.is_empty() && line[0] != b'#' {
            if !interpreter.play(line)? {
                return Ok(Outcome::Differs(number, interpreter.found()));
            }
            held = held.wrapping_add(1);
        }
    }
    Ok(Outcome::Holds(held))
}
