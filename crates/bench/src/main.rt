//! Times calls of the libraries. The first word says which, and without words it does nothing:
//!
//! - `mac COUNT`: digests, codes, and the calls that check them.
//! - `server COUNT`: the reading of messages, and requests and relayed data of a server over a store in memory, beside the rules
//!   without a store, over a table of one allocation and of 1,000.
//! - `records COUNT`: reading and writing snapshots of 1,024 entries.
//! - `store COUNT FILE`: the calls of a store over a file.
//! - `journal FILE APPENDS BYTES`: appends over a file.
//!
//! COUNT is how often each call is made in a round. FILE is made anew, and removed.
#![tactic(auto)]

mod encoded;
mod journal;
mod mac;
mod measured;
mod records;
mod requests;
mod server;
mod store;

use std::{env, io};

/// The word at this index, empty if there is none.
fn word(words: &[String], index: usize) -> &str {
    match words.get(index) {
        Some(word) => word.as_str(),
        None => "",
    }
}

/// The number in the word at this index, 0 if there is none.
fn number(words: &[String], index: usize) -> usize {
    word(words, index).parse().unwrap_or(0)
}

fn main(rt: HostRuntime) -> io::Result<()> {
    let words: Vec<String> = env::args(&rt)?.collect(rt.alloc())?;
    let words = words.as_slice();
    match word(words, 1) {
        "" => Ok(()),
        "mac" => mac::measure_all(&rt, number(words, 2)),
        "server" => server::measure_all(&rt, number(words, 2)),
        "records" => records::measure_all(&rt, number(words, 2)),
        "store" => store::measure_all(&rt, word(words, 3), number(words, 2)),
        "journal" => {
            journal::measure_all(&rt, word(words, 2), number(words, 3), number(words, 4))
        }
        other => eprintln!(rt;
            "bench: the word {other} is none of mac, server, records, store, journal"
        ),
    }
}
