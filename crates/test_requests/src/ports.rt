//! A generator of relayed ports that records its calls.

use std::alloc::AllocError;
use turn_ports::{PortRange, PortSet, RelayAddressGenerator};

/// How many ports a record holds.
const ROOM: usize = 32;

/// Ports in the order in which they came, the first 32.
#[derive(Clone, Copy)]
struct Record {
    ports: [u16; ROOM],
    count: usize,
}

impl Record {
    const NONE: Record = Record {
        ports: [0; ROOM],
        count: 0,
    };

    fn add(&mut self, port: u16) {
        if self.count < ROOM {
            self.ports[self.count] = port;
            self.count += 1;
        }
    }

    fn as_slice(&self) -> &[u16] {
        if self.count > ROOM {
            return &[];
        }
        &self.ports[..self.count]
    }
}

/// Which of the ports from 50000 to 50009 are picked and not released.
#[derive(Clone, Copy)]
struct Held {
    ports: [bool; 10],
    // Whether each port that was picked was free, and each that was released was held.
    is_sound: bool,
}

impl Held {
    fn has(&self, port: u16) -> bool {
        match self.ports.get(usize::from(port.wrapping_sub(50000))) {
            Some(held) => *held,
            None => false,
        }
    }

    // Picks or releases a port, which has to be the other way round up to now.
    fn set(&mut self, port: u16, is_picked: bool) {
        match self.ports.get_mut(usize::from(port.wrapping_sub(50000))) {
            Some(held) if *held != is_picked => *held = is_picked,
            _ => self.is_sound = false,
        }
    }
}

/// The ports of a range, the lowest first, of which none can be had where it fails.
#[derive(Drop)]
pub struct Ports {
    range: PortRange,
    fails: bool,
    failures: u64,
    picked: Record,
    released: Record,
    held: Held,
}

impl Ports {
    /// The ports of a range, each of which can be had.
    pub fn new(range: PortRange) -> Ports {
        Ports::with(range, false)
    }

    /// The ports of a range, none of which can be had.
    pub fn failing(range: PortRange) -> Ports {
        Ports::with(range, true)
    }

    fn with(range: PortRange, fails: bool) -> Ports {
        Ports {
            range,
            fails,
            failures: 0,
            picked: Record::NONE,
            released: Record::NONE,
            held: Held {
                ports: [false; 10],
                is_sound: true,
            },
        }
    }

    /// Every port that was picked, in order.
    pub fn picked(&self) -> &[u16] {
        self.picked.as_slice()
    }

    /// Every port that was released, in order.
    pub fn released(&self) -> &[u16] {
        self.released.as_slice()
    }

    /// Whether a port from 50000 to 50009 is picked and not released.
    pub fn is_held(&self, port: u16) -> bool {
        self.held.has(port)
    }

    /// Whether each port that was picked was free, and each that was released was held.
    pub fn is_sound(&self) -> bool {
        self.held.is_sound
    }
}

impl RelayAddressGenerator for Ports {
    ghost use Rattle.std.specs.Prelude.{⊤};

    ghost range = { λ p. p.range };

    ghost failures = { λ p. p.failures };

    ghost holds = { λ _ _. ⊤ };

    fn range(&self) -> (u16, u16) {
        self.range.range()
    }

    fn pick<S: PortSet>(&mut self, taken: &S, even: bool) -> Result<Option<u16>, AllocError> {
        if self.fails {
            self.failures = self.failures.wrapping_add(1);
            return Ok(None);
        }
        let port = self.range.pick(taken, even)?;
        if let Some(port) = port {
            self.picked.add(port);
            self.held.set(port, true);
        }
        Ok(port)
    }

    fn pick_pair<S: PortSet>(&mut self, taken: &S) -> Result<Option<u16>, AllocError> {
        if self.fails {
            self.failures = self.failures.wrapping_add(1);
            return Ok(None);
        }
        let port = self.range.pick_pair(taken)?;
        if let Some(port) = port {
            self.picked.add(port);
            self.held.set(port, true);
            self.picked.add(port + 1);
            self.held.set(port + 1, true);
        }
        Ok(port)
    }

    fn release(&mut self, port: u16) {
        self.released.add(port);
        self.held.set(port, false);
    }

    fn failures(&self) -> u64 {
        self.failures
    }
}
