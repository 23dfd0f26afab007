//! Servers over stores: the exact bytes of replies and of disks, and which ports are picked and released.

use crate::interpreter::Interpreter;
use std::alloc::{AllocError, Global};
use test_servers::Scenario;

/// The lines of `test_servers::Scenario`.
#[derive(Drop)]
pub struct Servers {
    scenario: Scenario,
    found: Option<String>,
}

impl Servers {
    pub fn new(alloc: Global) -> Servers {
        Servers {
            scenario: Scenario::new(alloc, alloc),
            found: None,
        }
    }
}

impl Interpreter for Servers {
    fn play(&mut self, line: &[u8]) -> Result<bool, AllocError> {
        let holds = self.scenario.play(line);
        self.found = if holds {
            None
        } else {
            self.scenario.found(line)
        };
        Ok(holds)
    }

    fn found(&mut self) -> Option<String> {
        self.found.take()
    }
}
