//! Which ports are picked, and how often the system is asked.

use failing_alloc::FailingAlloc;
use mio::Poll;
use std::alloc::Allocator;
use std::cell::Cell;
use std::io::{self, Error, ErrorKind};
use std::net::{Net, SocketAddr, TcpListener, TcpStream, UdpSocket};
use std::test::Fail;
use turn_ports::{PortRange, PortSet, RelayAddressGenerator};
use turn_sockets::SocketPorts;

/// 127.0.0.1.
const HOME: u32 = 0x7F00_0001;

/// No port has an allocation.
#[derive(Clone, Copy)]
struct Empty;

impl PortSet for Empty {
    ghost use Rattle.std.specs.Prelude.{false};

    ghost has = { λ _ _. false };

    fn has(&self, _port: u16) -> bool {
        false
    }
}

/// A network that gives no UDP socket at some ports, for this reason, and counts how often it is asked.
#[derive(Drop)]
struct RefusingNet<'a> {
    net: &'a HostRuntime,
    code: i32,
    refused: &'a [u16],
    calls: &'a Cell<u32>,
}

impl Net for RefusingNet<'_> {
    type Stream = TcpStream;

    type Listener = TcpListener;

    fn bind(&self, _addr: SocketAddr) -> io::Result<TcpListener> {
        Err(Error::from(ErrorKind::Unsupported))
    }

    fn connect(&self, _addr: SocketAddr) -> io::Result<TcpStream> {
        Err(Error::from(ErrorKind::Unsupported))
    }

    fn bind_udp(&self, addr: SocketAddr) -> io::Result<UdpSocket> {
        self.calls.set(self.calls.get().wrapping_add(1));
        if self.refused.contains(&addr.port()) {
            return Err(Error::from_raw_os_error(self.code));
        }
        self.net.bind_udp(addr)
    }
}

/// The seed of the worked examples: the numbers from 0 to 31.
const SEED: [u8; 32] = [
    0, 1, 2, 3, 4, 5, 6, 7, 8, 9, 10, 11, 12, 13, 14, 15, 16, 17, 18, 19, 20, 21, 22, 23, 24, 25,
    26, 27, 28, 29, 30, 31,
];

/// The ports from 63,041 to 63,049.
const NINE: [u16; 9] = [
    63_041, 63_042, 63_043, 63_044, 63_045, 63_046, 63_047, 63_048, 63_049,
];

/// How often a network is asked for a socket while no port is found, if it refuses each of nine for this reason.
fn calls_of(rt: &HostRuntime, code: i32, first: u16, last: u16) -> Result<u32, Fail> {
    let calls = Cell::new(0);
    let net = RefusingNet {
        net: rt,
        code,
        refused: &NINE,
        calls: &calls,
    };
    let poll = Poll::new(rt)?;
    let range = PortRange::new(first, last).ok_or("a range")?;
    let registry = poll.registry().try_clone()?;
    let mut ports = SocketPorts::new(rt.alloc(), &net, registry, HOME, range, SEED);
    if ports.pick(&Empty, false)?.is_some() || ports.failures() != 1 {
        return Err(Fail::new("a port, or no failure"));
    }
    Ok(calls.get())
}

/// A reason of the system by its number under Linux, a range, and how often it is asked: of a port in use (98) or a port that is
/// forbidden (13) each port of the range, the one at which the search begins twice; once where too many files are open (24 in this
/// process, 23 in all), or the address isn't this machine's (99); never for port 0.
const REFUSED: [(i32, u16, u16, u32); 6] = [
    (98, 63_041, 63_049, 10),
    (13, 63_041, 63_049, 10),
    (24, 63_041, 63_049, 1),
    (23, 63_041, 63_049, 1),
    (99, 63_041, 63_049, 1),
    (98, 0, 0, 0),
];

#[test]
fn a_search_ends_where_the_system_has_no_socket(rt: HostRuntime) -> Result<(), Fail> {
    for (code, first, last, calls) in &REFUSED {
        if calls_of(&rt, *code, *first, *last)? != *calls {
            return Err(Fail::new(*code));
        }
    }
    Ok(())
}

/// Four ports from 63,095 to 63,099 that are in use, and the other one.
const ONE_LEFT: [([u16; 4], u16); 5] = [
    ([63_096, 63_097, 63_098, 63_099], 63_095),
    ([63_095, 63_097, 63_098, 63_099], 63_096),
    ([63_095, 63_096, 63_098, 63_099], 63_097),
    ([63_095, 63_096, 63_097, 63_099], 63_098),
    ([63_095, 63_096, 63_097, 63_098], 63_099),
];

/// Whether a port is picked forty times, each time from another draw, and never with a failure.
fn is_picked_each_time<R: Net, A: Allocator + Copy>(
    ports: &mut SocketPorts<'_, R, A>,
    left: u16,
) -> bool {
    for _ in 0..40 {
        if ports.pick(&Empty, false) != Ok(Some(left)) {
            return false;
        }
        ports.release(left);
    }
    ports.failures() == 0
}

fn finds_the_one_left(rt: &HostRuntime, refused: &[u16], left: u16) -> Result<bool, Fail> {
    let calls = Cell::new(0);
    let net = RefusingNet {
        net: rt,
        code: 98,
        refused,
        calls: &calls,
    };
    let poll = Poll::new(rt)?;
    let range = PortRange::new(63_095, 63_099).ok_or("a range")?;
    let registry = poll.registry().try_clone()?;
    let mut ports = SocketPorts::new(rt.alloc(), &net, registry, HOME, range, SEED);
    Ok(is_picked_each_time(&mut ports, left))
}

#[test]
fn the_only_port_that_can_be_bound_is_found(rt: HostRuntime) -> Result<(), Fail> {
    for (refused, left) in &ONE_LEFT {
        if !finds_the_one_left(&rt, refused, *left)? {
            return Err(Fail::new(*left));
        }
    }
    Ok(())
}

/// The ports that are picked from 63,031 to 63,039, one after the other, by ChaCha20 of another program: its first words modulo 9 are
/// 1, 8, 2, 8, 2, 6, 1, 2, and a search goes on from there to a port that has no socket.
const PICKED: [u16; 8] = [
    63_032, 63_039, 63_033, 63_031, 63_034, 63_037, 63_035, 63_036,
];

#[test]
fn ports_are_drawn_from_the_seed(rt: HostRuntime) -> Result<(), Fail> {
    let poll = Poll::new(&rt)?;
    let range = PortRange::new(63_031, 63_039).ok_or("a range")?;
    let registry = poll.registry().try_clone()?;
    let mut ports = SocketPorts::new(rt.alloc(), &rt, registry, HOME, range, SEED);
    for port in &PICKED {
        if ports.pick(&Empty, false)? != Some(*port) {
            return Err(Fail::new(*port));
        }
    }
    Ok(())
}

/// The pairs that are picked from 63,071 to 63,079 by the same draws: from the second port on, the last, the third, and the last.
const PAIRS: [u16; 4] = [63_072, 63_074, 63_076, 63_078];

/// Whether these pairs are picked, one after the other, and then none, with a failure; and the second one again, only once both of its
/// ports are released.
fn picks_in_order<R: Net, A: Allocator + Copy>(ports: &mut SocketPorts<'_, R, A>) -> bool {
    for pair in &PAIRS {
        if pick_from(ports) != Some(*pair) {
            return false;
        }
    }
    let is_full = pick_from(ports).is_none() && ports.failures() == 1;
    ports.release(63_074);
    let is_half_free = pick_from(ports).is_none() && ports.failures() == 2;
    ports.release(63_075);
    is_full && is_half_free && pick_from(ports) == Some(63_074) && ports.failures() == 2
}

/// The pair that is picked, `None` after an allocation failure too.
fn pick_from<R: Net, A: Allocator + Copy>(ports: &mut SocketPorts<'_, R, A>) -> Option<u16> {
    match ports.pick_pair(&Empty) {
        Ok(pair) => pair,
        Err(_) => None,
    }
}

#[test]
fn pairs_pass_over_ports_that_have_a_socket(rt: HostRuntime) -> Result<(), Fail> {
    let poll = Poll::new(&rt)?;
    let range = PortRange::new(63_071, 63_079).ok_or("a range")?;
    let registry = poll.registry().try_clone()?;
    let mut ports = SocketPorts::new(rt.alloc(), &rt, registry, HOME, range, SEED);
    assert!(rt; picks_in_order(&mut ports));
    Ok(())
}

/// Whether the ports of a pair have a socket, and no other one of the range.
fn has_only<R: Net, A: Allocator + Copy>(ports: &SocketPorts<'_, R, A>, pair: Option<u16>) -> bool {
    let (first, last) = ports.range();
    (first..=last).all(|port| {
        let is_of_pair = match pair {
            Some(even) => port == even || port == even.wrapping_add(1),
            None => false,
        };
        ports.socket(port).is_some() == is_of_pair
    })
}

/// Whether a pair is picked from a range while a network refuses some ports, with so many failures.
fn picks_pair(
    rt: &HostRuntime,
    net: &RefusingNet<'_>,
    range: (u16, u16),
    pair: Option<u16>,
    failures: u64,
) -> Result<bool, Fail> {
    let poll = Poll::new(rt)?;
    let range = PortRange::new(range.0, range.1).ok_or("a range")?;
    let registry = poll.registry().try_clone()?;
    let mut ports = SocketPorts::new(rt.alloc(), net, registry, HOME, range, SEED);
    let picked = pick_from(&mut ports);
    Ok(picked == pair && ports.failures() == failures && has_only(&ports, pair))
}

/// A reason of the system, the ports that it refuses, the pair that is picked from 63,071 to 63,079, where the search begins at the
/// second port, and how often it is asked. The first port of a pair is released where the second is refused.
const REFUSED_PAIRS: [(i32, &[u16], Option<u16>, u32); 8] = [
    (98, &[], Some(63_072), 2),
    (98, &[63_073], Some(63_074), 4),
    (13, &[63_072, 63_075], Some(63_076), 5),
    (98, &[63_073, 63_075, 63_077], Some(63_078), 8),
    (98, &[63_073, 63_075, 63_077, 63_079], None, 8),
    (24, &[63_072], None, 1),
    (24, &[63_073], None, 2),
    (99, &[63_075], Some(63_072), 2),
];

#[test]
fn neither_port_of_a_pair_is_bound_where_one_is_refused(rt: HostRuntime) -> Result<(), Fail> {
    for (code, refused, pair, asked) in &REFUSED_PAIRS {
        let calls = Cell::new(0);
        let net = RefusingNet {
            net: &rt,
            code: *code,
            refused,
            calls: &calls,
        };
        let failures = u64::from(pair.is_none());
        assert!(rt; picks_pair(&rt, &net, (63_071, 63_079), *pair, failures)?);
        assert!(rt; calls.get() == *asked);
    }
    Ok(())
}

/// A range, the pair that is picked from it, and how many failures are counted: none where the range has no pair.
const RANGES: [((u16, u16), Option<u16>, u64); 7] = [
    ((63_081, 63_081), None, 0),
    ((63_082, 63_082), None, 0),
    ((63_081, 63_082), None, 0),
    ((63_082, 63_083), Some(63_082), 0),
    ((63_081, 63_083), Some(63_082), 0),
    ((63_082, 63_084), Some(63_082), 0),
    ((0, 1), None, 1),
];

#[test]
fn both_ports_of_a_pair_are_of_the_range(rt: HostRuntime) -> Result<(), Fail> {
    let calls = Cell::new(0);
    let net = RefusingNet {
        net: &rt,
        code: 0,
        refused: &[],
        calls: &calls,
    };
    for (range, pair, failures) in &RANGES {
        assert!(rt; picks_pair(&rt, &net, *range, *pair, *failures)?);
    }
    Ok(())
}

/// How many ports of the range have a socket.
fn bound<R: Net, A: Allocator + Copy>(ports: &SocketPorts<'_, R, A>) -> usize {
    let (first, last) = ports.range();
    (first..=last)
        .filter(|port| ports.socket(*port).is_some())
        .count()
}

/// Picks twelve pairs, or until an allocation failure. Whether that left the ports of the pairs before it alone with a socket, and no
/// failure is counted; `None` without one.
fn keeps_pairs<R: Net, A: Allocator + Copy>(ports: &mut SocketPorts<'_, R, A>) -> Option<bool> {
    for pairs in 0..12usize {
        match ports.pick_pair(&Empty) {
            Ok(Some(_)) => {}
            Ok(None) => return Some(false),
            Err(_) => return Some(bound(ports) == 2 * pairs && ports.failures() == 0),
        }
    }
    None
}

/// Whether pairs are kept where so many growths are served and the next one is refused.
fn keeps_pairs_after(rt: &HostRuntime, served: u64) -> Result<Option<bool>, Fail> {
    let refusing = FailingAlloc::new(rt.alloc(), served);
    let poll = Poll::new(rt)?;
    let range = PortRange::new(63_102, 63_125).ok_or("a range")?;
    let registry = poll.registry().try_clone()?;
    let mut ports = SocketPorts::new(&refusing, rt, registry, HOME, range, SEED);
    Ok(keeps_pairs(&mut ports))
}

#[test]
fn a_refused_growth_leaves_no_port_of_a_pair(rt: HostRuntime) -> Result<(), Fail> {
    // The map of sockets grows at the first socket and at later ones, such as the second one of a pair.
    for served in 0..16u64 {
        match keeps_pairs_after(&rt, served)? {
            Some(is_kept) => assert!(rt; is_kept),
            None => return if served > 2 {
                Ok(())
            } else {
                Err(Fail::new(served))
            },
        }
    }
    Err(Fail::new("no end"))
}
