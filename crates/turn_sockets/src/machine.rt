//! The IPv4 addresses of this machine, as the kernel lists them.

ghost use Rattle.std.specs.Prelude.{◌≡◌, ◌<◌, ◌≤◌, ◌++◌, ◌∷◌, [], IfOk, IfSome, OnOk, length};
ghost use Rattle.std.specs.List.{list_any};
ghost use Rattle.turn_sockets.specs.Machine.{head, is_in, is_loopback, is_of_machine};

use std::alloc::{Allocator, Global};
use std::fs::OpenOptions;
use std::io::{self, Error, ErrorKind, Read};
use std::net::Ipv4Addr;
use std::rt::Files;
use std::str;

/// Where the kernel lists its routes over IPv4, among them those of the machine's own addresses.
const ROUTES: &str = "/proc/net/fib_trie";

/// How many bytes of it are read: some 8,000 routes.
const MAX_TEXT: u64 = 1 << 20;

/// How many prefixes there may be.
const MAX_PREFIXES: usize = 512;

/// All addresses that begin with the same bits.
#[derive(Clone, Copy, Debug, PartialEq, Eq)]
pub struct Prefix {
    /// One of them.
    pub address: u32,
    /// How many bits count, at most 32.
    pub bits: u8,
}

/// What a line of the list says.
#[derive(Clone, Copy)]
enum Line {
    /// The next lines are of routes from this address; none where it is malformed.
    Leaf(Option<u32>),
    /// A route to the machine itself, of the addresses that have so many bits in common.
    Local(u8),
    /// Something else.
    Other,
}

/// The first bits of an address.
fn head(ip: u32, bits: u8) -> u64
    ensures { result ≡ head ip bits }
{
    u64::from(ip) >> 32u32.saturating_sub(u32::from(bits))
}

/// Whether an address begins with a prefix.
fn is_in(prefix: &Prefix, ip: u32) -> bool
    ensures { result ≡ is_in prefix.now ip }
{
    head(ip, prefix.bits) == head(prefix.address, prefix.bits)
}

/// How many bits a route counts, as `/32`.
fn bits_of(word: &str) -> Option<u8>
    ensures { IfSome result (λ bits. bits ≤ 32) }
{
    let bits: u8 = word.strip_prefix('/')?.parse().ok()?;
    if bits <= 32 { Some(bits) } else { None }
}

fn ip_of(word: &str) -> Option<u32> {
    match word.parse::<Ipv4Addr>() {
        Ok(ip) => Some(ip.to_bits()),
        Err(_) => None,
    }
}

/// What a line says: `|-- 192.0.2.2`, or `/32 host LOCAL`.
fn line_of(line: &str) -> Line {
    let mut words = line.split_ascii_whitespace();
    let (Some(first), Some(second)) = (words.next(), words.next()) else {
        return Line::Other;
    };
    if first == "|--" {
        return Line::Leaf(ip_of(second));
    }
    match (bits_of(first), words.next()) {
        (Some(bits), Some("LOCAL")) => Line::Local(bits),
        _ => Line::Other,
    }
}

/// The IPv4 addresses of this machine: those at which a socket can be bound.
#[derive(Debug, Drop)]
pub struct MachineAddresses<A: Allocator = Global> {
    prefixes: Vec<Prefix, A>,
}

impl<A: Allocator + Copy> MachineAddresses<A> {
    /// The addresses of a list in the form of `/proc/net/fib_trie`. It is an error if the list has none, or more than 512 prefixes.
    pub fn parse(alloc: A, text: &str) -> io::Result<MachineAddresses<A>>
        ensures { IfOk result (λ machine. (0 < length machine.prefixes.items) × (length machine.prefixes.items ≤ 512)) }
    {
        let mut prefixes = Vec::new(alloc);
        let mut address = None;
        for line in text.lines() {
            match (line_of(line), address) {
                (Line::Leaf(next), _) => address = next,
                (Line::Local(bits), Some(address)) => add(&mut prefixes, Prefix { address, bits })?,
                _ => {}
            }
        }
        if prefixes.is_empty() {
            return Err(Error::from(ErrorKind::InvalidData));
        }
        Ok(MachineAddresses { prefixes })
    }

    /// Reads the machine's addresses of `/proc/net/fib_trie`. It is an error if that can't be read or has more than 1 MiB, as of some
    /// 8,000 routes.
    pub fn read<R: Files>(alloc: A, files: &R) -> io::Result<MachineAddresses<A>>
        ensures { IfOk result (λ machine. (0 < length machine.prefixes.items) × (length machine.prefixes.items ≤ 512)) }
    {
        let mut options = OpenOptions::new();
        options.read(true);
        let file = options.open(files, ROUTES)?;
        let mut text = Vec::new(alloc);
        file.take(MAX_TEXT + 1).read_to_end(&mut text)?;
        if text.len() as u64 > MAX_TEXT {
            return Err(Error::from(ErrorKind::InvalidData));
        }
        match str::from_utf8(&text) {
            Ok(text) => MachineAddresses::parse(alloc, text),
            Err(_) => Err(Error::from(ErrorKind::InvalidData)),
        }
    }
}

/// Adds a prefix. It is an error if there are 512.
fn add<A: Allocator>(prefixes: &mut Vec<Prefix, A>, prefix: Prefix) -> io::Result<()>
    requires { length prefixes.old.items ≤ 512 }
    ensures added { OnOk result (prefixes.new.items ≡ prefixes.old.items ++ prefix ∷ []) }
    ensures most { length prefixes.new.items ≤ 512 }
{
    if MAX_PREFIXES <= prefixes.len() {
        return Err(Error::from(ErrorKind::InvalidData));
    }
    prefixes.push(prefix)?;
    Ok(())
}

fn is_loopback(ip: u32) -> bool
    ensures { result ≡ is_loopback ip }
{
    ip / 0x100_0000 == 127
}

/// Whether an address begins with one of these.
fn have(prefixes: &[Prefix], ip: u32) -> bool
    ensures { result ≡ list_any (λ prefix. is_in prefix ip) prefixes.now }
{
    prefixes.iter().any(|prefix| is_in(prefix, ip))
}

impl<A: Allocator> MachineAddresses<A> {
    /// Whether an address is one of the machine's. Each of 127.0.0.0/8 is.
    pub fn has(&self, ip: u32) -> bool
        ensures { result ≡ is_of_machine self.now.prefixes.items ip }
    {
        is_loopback(ip) || have(&self.prefixes, ip)
    }
}
