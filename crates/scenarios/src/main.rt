//! Replays the scenario texts in `data`, in the order of a list, and prints the name of each and its report, or its fault.
//! `stdout` was not written by this program.
#![tactic(auto)]

mod names;

use anyhow::Result;
use names::NAMES;
use std::fs;
use turn_scenario::{Report, ScenarioError, replay};

/// What the text reports without its `expect` lines, up to a line, and how many of those there are before it.
fn report_to(rt: &HostRuntime, text: &[u8], number: u64) -> Result<(Option<Report>, usize)> {
    let (mut acts, mut expected) = (Vec::new(rt.alloc()), 0_usize);
    for (line, _) in text.split(|byte| *byte == b'\n').zip(1..number) {
        if line.starts_with(b"expect ") {
            expected = expected.wrapping_add(1);
        } else {
            acts.extend_from_slice(line)?;
            acts.push(b'\n')?;
        }
    }
    Ok((replay(rt.alloc(), &acts).ok(), expected))
}

/// What an `expect` line that differs was compared with.
fn show_found(rt: &HostRuntime, text: &[u8], number: u64) -> Result<()> {
    let (report, expected) = report_to(rt, text, number)?;
    let Some(report) = report else {
        return Ok(());
    };
    match report.lines.get(expected) {
        Some(line) => println!(rt; "found: {line}")?,
        None => println!(rt; "found: no line")?,
    }
    Ok(())
}

fn replay_file(rt: &HostRuntime, name: &str) -> Result<()> {
    println!(rt; "== {name}")?;
    let file = format!(in rt.alloc(); "{name}.txt")?;
    let text = fs::read(rt, file.as_str())?;
    match replay(rt.alloc(), &text) {
        Ok(report) => {
            for line in &report.lines {
                println!(rt; "{line}")?;
            }
        }
        Err(fault) => {
            println!(rt; "{fault}")?;
            if let ScenarioError::Differs(number) = fault {
                show_found(rt, &text, number)?;
            }
        }
    }
    Ok(())
}

fn main(rt: HostRuntime) -> Result<()> {
    for name in &NAMES {
        replay_file(&rt, name)?;
    }
    Ok(())
}
