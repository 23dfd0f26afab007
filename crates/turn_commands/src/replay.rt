//! `turn replay`.

use crate::fault::fault_of_scenario;
use std::io::Write;
use turn_faults::{Fault, Host, Named, print_lines, read_scenario};
use turn_scenario::replay;

/// Prints the report of the scenario in a file.
pub fn run_replay<R: Host, W: Write>(rt: &R, file: &str, out: &mut W) -> Result<(), Fault> {
    let (alloc, named) = (rt.alloc(), Named::scenario(file));
    let scenario = read_scenario(rt, named)?;
    match replay(alloc, &scenario) {
        Ok(report) => print_lines(alloc, &report.lines, out),
        Err(fault) => Err(Fault::about(alloc, fault_of_scenario(fault), &named)),
    }
}
