//! Where the lines of a log go.

ghost use Rattle.std.specs.Prelude.{◌≤◌, IfOk, length, string_bytes};

use crate::name::{CutName, ShownName};
use std::alloc::{AllocError, Global};
use std::cell::RefCell;
use std::io::Write;

/// What stands in place of the name of a user who isn't known.
pub const NOBODY: ShownName<'static> = ShownName(b"-");

/// How many bytes of what a line says are written at most.
const TEXT: usize = 3560;

/// What a line says, up to 3,560 bytes of it.
fn cut(text: &str) -> &str
    ensures { length result.now ≤ 3560 }
{
    if text.len() <= TEXT {
        return text;
    }
    text.get(..TEXT).unwrap_or_default()
}

/// A name as text, up to 508 characters of it.
fn name_of(alloc: Global, user: ShownName<'_>) -> Result<String, AllocError>
    ensures { IfOk result (λ name. length (string_bytes name) ≤ 510) }
{
    let user = CutName::of_user(user.0);
    user.to_string(alloc)
}

/// A line of at most 4,096 bytes: the second, a name, and what it says.
#[tactic(auto, using(crate::proofs::Seconds::digits))]
fn line_of(
    alloc: Global,
    second: u64,
    user: ShownName<'_>,
    text: &str,
) -> Result<String, AllocError>
    ensures { IfOk result (λ line. length (string_bytes line) ≤ 4096) }
{
    let mut line = second.to_string(alloc)?;
    line.push_str(" ")?;
    line.push_str(name_of(alloc, user)?.as_str())?;
    line.push_str(" ")?;
    line.push_str(cut(text))?;
    line.push_str("\n")?;
    Ok(line)
}

/// A log, if one is kept.
#[derive(Drop)]
pub struct Log<L: Write + Drop> {
    alloc: Global,
    out: Option<RefCell<L>>,
}

impl<L: Write + Drop> Log<L> {
    /// A log on a writer, if it is to be kept.
    pub fn new(alloc: Global, out: L, is_kept: bool) -> Log<L> {
        if !is_kept {
            return Log { alloc, out: None };
        }
        Log {
            alloc,
            out: Some(RefCell::new(out)),
        }
    }

    /// Whether anything is written.
    pub fn is_kept(&self) -> bool {
        self.out.is_some()
    }

    /// Writes a line that begins with the second and a name, of which at most 508 characters are shown. False if not all of it could be written.
    pub fn write(&self, second: u64, user: ShownName<'_>, text: &str) -> bool {
        let Some(out) = &self.out else {
            return false;
        };
        let Ok(line) = line_of(self.alloc, second, user, text) else {
            return false;
        };
        match out.try_borrow_mut() {
            Ok(mut out) => out.write_all(line.as_bytes()).is_ok() && out.flush().is_ok(),
            Err(_) => false,
        }
    }

    /// Says something of the server itself.
    pub fn say(&self, second: u64, text: &str) {
        let _ = self.write(second, NOBODY, text);
    }
}
