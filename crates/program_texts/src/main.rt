//! Plays the texts in `data`, each of which runs the program `turn` on words, and compares what it writes. Prints how many runs of
//! each text hold, or the first line that doesn't. `stdout` was not written by this program.
#![tactic(auto)]

mod clock;
mod folder;
mod outcome;
mod player;
mod words;

use anyhow::Result;
use player::Player;
use std::fs;

/// The names of the files in `data`, without `.txt`.
const TEXTS: [&str; 15] = [
    "words",
    "values",
    "replies",
    "replays",
    "formats",
    "inspections",
    "ends",
    "checks",
    "starts",
    "carrying",
    "listening",
    "logs",
    "reasons",
    "notes",
    "credentials",
];

/// Plays a text to its end, or to its first line that doesn't hold.
fn play_text(rt: &HostRuntime, name: &str) -> Result<()> {
    let file = format!(in rt.alloc(); "{name}.txt")?;
    let text = fs::read_to_string(rt, file.as_str())?;
    let mut player = Player::new(rt);
    let mut number = 0_u64;
    for line in text.lines() {
        number = number.wrapping_add(1);
        if !player.play(line) {
            println!(rt; "{name}: line {number} differs: {line}")?;
            return Ok(());
        }
    }
    let runs = player.runs();
    println!(rt; "{name}: {runs} runs")?;
    Ok(())
}

fn main(rt: HostRuntime) -> Result<()> {
    for name in &TEXTS {
        play_text(&rt, name)?;
    }
    Ok(())
}
