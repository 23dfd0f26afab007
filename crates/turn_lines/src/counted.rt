//! What a line says of those that a second had beside it.

use std::alloc::{AllocError, Global};
use std::fmt;
use turn_config::ShownIp;
use turn_log::{About, Counted, LineLimit, Subject};

/// What lines are about, in their counts.
#[derive(Clone, Copy)]
struct ShownAbout(About);

impl fmt::Display for ShownAbout {
    fn fmt<W: fmt::Write>(&self, f: &mut fmt::Formatter<W>) -> fmt::Result {
        match self.0 {
            About::Commit => write!(f, "slow commit"),
            About::Repeat => write!(f, "repeated allocate"),
            About::Error(code) => write!(f, "{code}"),
        }
    }
}

/// How often something came in a second that had one line.
pub(crate) fn repeated_text(alloc: Global, counted: &Counted) -> Result<String, AllocError> {
    let (count, Subject { ip, about, cause }) = (counted.count, counted.subject);
    let (about, from) = (ShownAbout(about), ShownIp(ip));
    match cause {
        Some(cause) => {
            let word = cause.word();
            format!(in alloc; "{count} x {about} {word} from {from}")
        }
        None if ip == 0 => format!(in alloc; "{count} x {about}"),
        None => format!(in alloc; "{count} x {about} from {from}"),
    }
}

/// How often an allocation was refreshed in a second that had one line of it. The key is its relayed port.
pub(crate) fn refreshes_text(alloc: Global, key: &[u8], count: u64) -> Result<String, AllocError> {
    let port = match key {
        [high, low] => u16::from_be_bytes([*high, *low]),
        _ => 0,
    };
    format!(in alloc; "{count} x refresh port={port}")
}

/// How many lines a second lacks, by their codes.
pub(crate) fn left_out_text(
    alloc: Global,
    ended: &LineLimit,
) -> Result<Option<String>, AllocError> {
    let mut total = ended.lost();
    let mut kinds = String::new(alloc);
    for counted in ended.left_out() {
        let (count, about) = (counted.count, ShownAbout(counted.subject.about));
        total = total.saturating_add(count);
        kinds.push_str(format!(in alloc; " {count} x {about}")?.as_str())?;
    }
    if total == 0 {
        return Ok(None);
    }
    if ended.lost() > 0 {
        let lost = ended.lost();
        kinds.push_str(format!(in alloc; " {lost} not written")?.as_str())?;
    }
    Ok(Some(format!(in alloc; "left out {total}:{kinds}")?))
}
