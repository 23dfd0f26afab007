//! A whole configuration.

ghost use Rattle.std.specs.Prelude.{◌≡◌};

use crate::lines::{ConfigLines, Configured, is_skipped};
use std::alloc::{AllocError, Allocator};
use thiserror::Error;

/// Why a configuration was not read.
#[derive(Clone, Copy, Debug, PartialEq, Eq, Error)]
pub enum ConfigTextError {
    /// The first bad line. A needed line that is missing makes the line after the last one bad.
    #[error("line {0}: bad line")]
    BadLine(u64),
    /// An allocation failed.
    #[error("memory")]
    Memory,
}

impl From<AllocError> for ConfigTextError {
    ghost use Rattle.turn_config.specs.declared.config.ConfigTextError.TheVariants.{Memory};

    ghost from_gives = { λ _ f. f ≡ Memory };

    fn from(_error: AllocError) -> ConfigTextError {
        ConfigTextError::Memory
    }
}

/// Reads a configuration. Its lines are numbered from 1, and a newline at the end opens no further line.
///
/// ```rust
/// use turn_config::{ConfigTextError, read_config};
/// let text = b"realm example.org\nsecret 0000000000000000000000000000000000000000000000000000000000000000\nlisten 192.0.2.100:3478\nrelay 198.51.100.1 50000 50009\n";
/// let configured = read_config(alloc, text)?;
/// assert!(rt; configured.config.quota() == 10 && configured.listen == five_tuple.server);
/// let refused = read_config(alloc, b"realm example.org\nquota 0\n");
/// assert!(rt; matches!(refused, Err(ConfigTextError::BadLine(2))));
/// ```
pub fn read_config<A: Allocator + Copy>(
    alloc: A,
    text: &[u8],
) -> Result<Configured<'_, A>, ConfigTextError> {
    let mut lines = ConfigLines::new(alloc);
    let mut number = 0u64;
    for line in text.split(|byte| *byte == b'\n') {
        number = number.wrapping_add(1);
        if !is_skipped(line) && !lines.take(line)? {
            return Err(ConfigTextError::BadLine(number));
        }
    }
    // What is after the last newline is a line if it isn't empty.
    let is_open = text.last().is_some_and(|byte| *byte != b'\n');
    let after = number.wrapping_add(u64::from(is_open));
    lines.finish()?.ok_or(ConfigTextError::BadLine(after))
}
