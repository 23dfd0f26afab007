//! What a server is made of.

use crate::served::Held;
use std::alloc::{Allocator, Global};
use test_requests::Ports;
use turn_config::{ConfigLines, Configured, is_skipped};
use turn_cred::{AuthHandler, Nonces};
use turn_disk::{Disk, MemoryDisk};
use turn_engine::Server;
use turn_player::Effect;
use turn_record::Version;
use turn_requests::{Request, build_request};
use turn_scenario::Ask;
use turn_store::{format, format_version1};
use turn_types::{Limits, Moment};

/// The lines of a configuration, as a scenario begins with.
#[derive(Drop)]
pub(crate) struct Setup {
    alloc: Global,
    lines: Vec<u8>,
}

/// How a store is opened.
#[derive(Clone, Copy)]
pub(crate) enum Opening {
    /// As it is.
    Plain,
    /// And carried over to version 2 if it can be.
    Carrying,
    /// The same, by a server whose generator has no port.
    WithoutPorts,
}

/// Makes a disk a store of a version.
fn format_as<D: Disk>(disk: &mut D, limits: Limits, version: Version, area: usize) -> Option<()> {
    let size = disk.size();
    if size < 64 || size % 2 != 0 || (size - 64) / 2 != area {
        return None;
    }
    match version {
        Version::V1 => format_version1(disk, limits, area).ok(),
        Version::V2 => format(disk, limits, area).ok(),
    }
}

impl Setup {
    pub(crate) fn new(alloc: Global) -> Setup {
        Setup {
            alloc,
            lines: Vec::new(alloc),
        }
    }

    /// Adds a line, which is read at the next opening.
    pub(crate) fn push(&mut self, line: &[u8]) -> Option<()> {
        self.lines.extend_from_slice(line).ok()?;
        self.lines.push(b'\n').ok()
    }

    /// What the lines say together.
    pub(crate) fn configured(&self) -> Option<Configured<'_>> {
        let mut lines = ConfigLines::new(self.alloc);
        for line in self.lines.split(|byte| *byte == b'\n') {
            if !is_skipped(line) && lines.take(line) != Ok(true) {
                return None;
            }
        }
        lines.finish().ok()?
    }

    /// A disk of zeros that was made a store of a version, with areas of a size.
    pub(crate) fn format<A: Allocator + Copy>(
        &self,
        inner: A,
        version: Version,
        area: u32,
    ) -> Option<MemoryDisk<A>> {
        let limits = self.configured()?.config.limits();
        let area = area as usize;
        let content = Vec::from_elem(inner, 0u8, 64 + 2 * area).ok()?;
        let mut disk = MemoryDisk::new(inner, content);
        format_as(&mut disk, limits, version, area)?;
        Some(disk)
    }

    /// Opens the store of a disk, and returns what comes of it.
    pub(crate) fn open<A: Allocator + Copy>(
        &self,
        inner: A,
        disk: MemoryDisk<A>,
        opening: Opening,
    ) -> Option<(Held<A>, Effect<A>)> {
        let configured = self.configured()?;
        let config = configured.config.try_clone(inner).ok()?;
        let (ports, carry) = match opening {
            Opening::Plain => (Ports::new(configured.ports), false),
            Opening::Carrying => (Ports::new(configured.ports), true),
            Opening::WithoutPorts => (Ports::failing(configured.ports), true),
        };
        match Server::open_as(inner, disk, &config, configured.credentials, ports, carry) {
            Ok(server) => {
                let clock = server.clock();
                Some((Held::Serving(server), Effect::Opened(clock)))
            }
            Err(refused) => Some((Held::Down(refused.disk), Effect::NotOpened(refused.fault))),
        }
    }

    /// The datagram of an `ask` line, with the nonce of a moment.
    pub(crate) fn request(&self, ask: &Ask<'_>, nonce: Moment) -> Option<Vec<u8>> {
        let configured = self.configured()?;
        let key = configured.credentials.key(ask.user, configured.realm)?;
        let attributes = ask.read_attributes(self.alloc, None).ok()??;
        let request = Request {
            method: ask.method,
            tx: ask.tx,
            attributes: &attributes,
            user: ask.user,
            realm: configured.realm,
        };
        let nonce = Nonces::new(*configured.config.secret()).issue(ask.client, nonce);
        build_request(self.alloc, &request, &key.bytes, &nonce).ok()
    }
}
