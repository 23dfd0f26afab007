//! Lines of the form `QUESTION = ANSWER`: calls of the libraries, and what they return.

mod credentials;
mod digests;
mod messages;
mod requests;
mod sockets;

use crate::interpreter::Interpreter;
use crate::values::Values;
use credentials::Known;
use std::alloc::{AllocError, Global};

/// What the questions of a text are about.
#[derive(Clone, Copy)]
pub enum Topic {
    Digests,
    Messages,
    Credentials,
    Requests,
    Sockets,
}

/// Asks the questions of a text. A line `let NAME VALUE` gives a value a name, and `user NAME KEY` makes a user known.
#[derive(Drop)]
pub struct Questions {
    topic: Topic,
    values: Values,
    known: Known,
    found: Option<String>,
}

impl Questions {
    /// No names, and no user.
    pub fn new(alloc: Global, topic: Topic) -> Questions {
        Questions {
            topic,
            values: Values::new(alloc),
            known: Known::new(alloc),
            found: None,
        }
    }

    fn answer(&self, words: &[&str]) -> Option<String> {
        match self.topic {
            Topic::Digests => digests::answer(&self.values, words),
            Topic::Messages => messages::answer(&self.values, words),
            Topic::Credentials => credentials::answer(&self.values, &self.known, words),
            Topic::Requests => requests::answer(&self.values, words),
            Topic::Sockets => sockets::answer(&self.values, words),
        }
    }

    fn has_answer(&mut self, question: &str, answer: &str) -> Option<bool> {
        let words = self.values.words(question)?;
        let found = self.answer(&words)?;
        let holds = is_answer(found.as_str(), answer);
        self.found = Some(found);
        Some(holds)
    }

    fn plays(&mut self, line: &str) -> Option<bool> {
        self.found = None;
        if let Some((question, answer)) = line.split_once(" = ") {
            return self.has_answer(question, answer);
        }
        let words = self.values.words(line)?;
        match words.as_slice() {
            ["let", name, value] => self.values.name(name, value)?,
            ["user", name, key] => self.known.add(&self.values, name, key)?,
            _ => return None,
        }
        Some(true)
    }
}

/// Whether the answer is the expected one, or begins with it where that ends with `..`.
fn is_answer(found: &str, expected: &str) -> bool {
    match expected.strip_suffix("..") {
        Some(front) => found.starts_with(front),
        None => found == expected,
    }
}

impl Interpreter for Questions {
    fn play(&mut self, line: &[u8]) -> Result<bool, AllocError> {
        Ok(match str::from_utf8(line) {
            Ok(line) => self.plays(line) == Some(true),
            Err(_) => false,
        })
    }

    fn found(&mut self) -> Option<String> {
        self.found.take()
    }
}
