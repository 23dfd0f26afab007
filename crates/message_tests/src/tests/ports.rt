//! A set of ports that finds the lowest free port itself.

use std::cell::Cell;
use std::test::Fail;
use turn_ports::{PortRange, PortSet, RelayAddressGenerator};

/// Each port is in the set. It counts how often it is asked for one.
#[derive(Drop)]
struct Full {
    asked: Cell<u64>,
}

impl PortSet for Full {
    ghost use Rattle.std.specs.Prelude.{true};

    ghost has = { λ _ _. true };

    fn has(&self, _port: u16) -> bool {
        self.asked.set(self.asked.get().wrapping_add(1));
        true
    }

    fn lowest_free(&self, _first: u16, _last: u16, _even: bool) -> Option<u16> {
        None
    }

    fn lowest_free_pair(&self, _first: u16, _last: u16) -> Option<u16> {
        None
    }
}

#[test]
fn a_set_that_finds_free_ports_is_asked_for_no_single_port(rt: HostRuntime) -> Result<(), Fail> {
    let set = Full {
        asked: Cell::new(0),
    };
    let mut ports = PortRange::new(50000, 50009).ok_or("a range")?;
    assert!(rt; ports.pick(&set, false)?.is_none());
    assert!(rt; ports.pick_pair(&set)?.is_none());
    assert_eq!(rt; set.asked.get(), 0);
    Ok(())
}
