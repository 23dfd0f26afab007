//! A scenario after its `format` or `format1` line.

ghost use Rattle.std.specs.Prelude.{◌≡◌, ◌≤◌, ◌<◌, ◌+◌, ◌*◌, ◌⊎◌, [], Ok, IfOk, IsErr, OnOk, OnErr};
ghost use Rattle.turn_disk.specs.Counts.{Rises};
ghost use Rattle.turn_store.specs.Superblock.{least_area};
ghost use Rattle.turn_store.specs.Images.{EachImage, RepresentsAt};
ghost use Rattle.turn_scenario.specs.Lived.{IsRefused, Lived, LivesOn};

use crate::error::LineError;
use crate::events::{event_text, event_token};
use crate::line::{Ask, Line, PeerLine, read_line};
use crate::report::{Lines, Report};
use crate::table_lines::put_table;
use std::alloc::{AllocError, Allocator, Global};
use std::collections::BTreeMap;
use turn_config::{Configured, values};
use turn_cred::{AuthHandler, Credentials, Nonces, SharedSecret};
use turn_disk::{Disk, MemoryDisk};
use turn_mac::generate_auth_key;
use turn_player::{Action, Effect, Player};
use turn_ports::{PortRange, RelayAddressGenerator};
use turn_record::Version;
use turn_requests::{Request, build_request, build_send};
use turn_step::Arrival;
use turn_store::{FormatError, format, format_version1};
use turn_types::{Endpoint, FiveTuple, Limits, Moment, Token, TxId};

/// The client's side: what its requests are made of.
#[derive(Drop)]
struct Client<'a, A: Allocator = Global> {
    realm: &'a [u8],
    passwords: BTreeMap<Vec<u8, A>, &'a [u8], A>,
    auth_secret: Option<SharedSecret<A>>,
    nonces: Nonces,
    /// The moment of its nonces, where that is not the moment of the request.
    nonce: Option<Moment>,
    /// The token of the last success that was reported with one.
    token: Option<Token>,
}

/// A scenario after its `format` or `format1` line.
#[derive(Drop)]
pub(crate) struct Running<'a, A: Allocator = Global> {
    alloc: A,
    player: Player<A>,
    client: Client<'a, A>,
    server: Endpoint,
    moment: Moment,
    lines: Lines<A>,
}

/// Makes a disk a store of a version.
fn format_as<D: Disk>(
    disk: &mut D,
    limits: Limits,
    version: Version,
    area: usize,
) -> Result<(), FormatError>
    requires { 64 + 2 * area ≡ D.capacity disk.old }
    ensures done { D.follows_crash_model disk.new
        → OnOk result (EachImage (D.trace disk.new).now (RepresentsAt (record { bounds = limits; area = area }) [] 0)) }
    ensures refused { IsErr result → (area < least_area version limits) ⊎ Rises (D.failed disk.old) (D.failed disk.new) }
{
    match version {
        Version::V1 => format_version1(disk, limits, area),
        Version::V2 => format(disk, limits, area),
    }
}

/// A disk of zeros for two areas of a size, and what came of making it a store of a version.
fn format_disk<A: Allocator + Copy>(
    alloc: A,
    limits: Limits,
    version: Version,
    area: u32,
) -> Result<(MemoryDisk<A>, Result<(), FormatError>), AllocError>
    ensures done { IfOk result (λ made. made.1 ≡ Ok tt
        → EachImage made.0.trace.now (RepresentsAt (record { bounds = limits; area = area }) [] 0)) }
    ensures refused { IfOk result (λ made. IsErr made.1 → (area < least_area version limits) ⊎ Rises 0 made.0.failures) }
{
    let area = area as usize;
    let content = Vec::from_elem(alloc, 0u8, 64 + 2 * area)?;
    let mut disk = MemoryDisk::new(alloc, content);
    let outcome = format_as(&mut disk, limits, version, area);
    Ok((disk, outcome))
}

/// Reports what came of steps, and keeps the last token that is reported.
fn put_events<A: Allocator + Copy>(
    alloc: A,
    lines: &mut Lines<A>,
    token: &mut Option<Token>,
    events: Vec<Effect<A>, A>,
) -> Result<(), LineError> {
    for event in events {
        lines.push(event_text(alloc, &event)?)?;
        if let Some(reported) = event_token(&event) {
            *token = Some(reported);
        }
    }
    Ok(())
}

/// The bytes of a word: `-` for none, or pairs of hex digits.
fn bytes_of<A: Allocator>(alloc: A, word: &[u8]) -> Result<Vec<u8, A>, LineError> {
    match word {
        [] => Err(LineError::Bad),
        b"-" => Ok(Vec::new(alloc)),
        _ => values::bytes(alloc, word)?.ok_or(LineError::Bad),
    }
}

impl<'a, A: Allocator + Copy> Client<'a, A> {
    /// The key of a name: that of its `user` line, or else the one under the secret, whatever the name's form.
    fn key(&self, user: &[u8]) -> Result<[u8; 16], LineError> {
        if let Some(password) = self.passwords.get(user) {
            return Ok(generate_auth_key(user, self.realm, password));
        }
        let secret = self.auth_secret.as_ref().ok_or(LineError::Bad)?;
        let password = secret.password(user);
        Ok(generate_auth_key(user, self.realm, &password))
    }

    /// The datagram of an `ask` line at a moment.
    fn request(&self, alloc: A, ask: &Ask<'_>, moment: Moment) -> Result<Vec<u8, A>, LineError> {
        let key = self.key(ask.user)?;
        let attributes = ask
            .read_attributes(alloc, self.token)?
            .ok_or(LineError::Bad)?;
        let request = Request {
            method: ask.method,
            tx: ask.tx,
            attributes: &attributes,
            user: ask.user,
            realm: self.realm,
        };
        let nonce = self.nonces.issue(ask.client, self.nonce.unwrap_or(moment));
        Ok(build_request(alloc, &request, &key, &nonce)?)
    }
}

impl<'a, A: Allocator + Copy> Running<'a, A> {
    /// Makes a disk of two areas of a size a store of a version, and opens it, as it is, unless the format was refused.
    pub(crate) fn start(
        alloc: A,
        configured: Configured<'a, A>,
        version: Version,
        area: u32,
    ) -> Result<Running<'a, A>, LineError>
        ensures { IfOk result (λ running. Lived ⟦<MemoryDisk<A> as Disk>⟧ ⟦<Credentials<A> as AuthHandler>⟧ ⟦<PortRange as RelayAddressGenerator>⟧ running.player
            ⊎ IsRefused version area running.player) }
    {
        let Configured {
            config,
            credentials,
            listen,
            ports,
            realm,
            passwords,
            auth_secret,
            relay_bind: _,
            local_peers: _,
        } = configured;
        let (disk, outcome) = format_disk(alloc, config.limits(), version, area)?;
        let client = Client {
            realm,
            passwords,
            auth_secret,
            nonces: Nonces::new(*config.secret()),
            nonce: None,
            token: None,
        };
        let mut running = Running {
            alloc,
            player: Player::new(alloc, disk, config, credentials, ports),
            client,
            server: listen,
            moment: Moment::new(0).unwrap(),
            lines: Lines::new(alloc),
        };
        running.open(outcome)?;
        Ok(running)
    }

    fn open(&mut self, formatted: Result<(), FormatError>) -> Result<(), LineError>
        ensures lives { OnOk result (formatted ≡ Ok tt → LivesOn ⟦<MemoryDisk<A> as Disk>⟧ ⟦<Credentials<A> as AuthHandler>⟧ ⟦<PortRange as RelayAddressGenerator>⟧
            self.old.player self.new.player) }
        ensures same { OnOk result (IsErr formatted → self.new.player ≡ self.old.player) }
    {
        match formatted {
            Ok(()) => self.play(&[Action::Reopen { carry: false }]),
            Err(FormatError::Device) => self.say("device"),
            Err(FormatError::AreaTooSmall(needed)) => {
                let line = format!(in self.alloc; "area too small {needed}")?;
                self.lines.push(line)?;
                Ok(())
            }
        }
    }

    fn say(&mut self, text: &str) -> Result<(), LineError>
        ensures { OnOk result (self.new.player ≡ self.old.player) }
    {
        self.lines.push(String::from_str(self.alloc, text)?)?;
        Ok(())
    }

    /// Makes steps, and reports what comes of them.
    fn play(&mut self, steps: &[Action<'_>]) -> Result<(), LineError>
        ensures lives { OnOk result (LivesOn ⟦<MemoryDisk<A> as Disk>⟧ ⟦<Credentials<A> as AuthHandler>⟧ ⟦<PortRange as RelayAddressGenerator>⟧
            self.old.player self.new.player) }
    {
        let events = self.player.run(steps)?;
        put_events(self.alloc, &mut self.lines, &mut self.client.token, events)?;
        Ok(())
    }

    fn submit(&mut self, client: Endpoint, bytes: &[u8]) -> Result<(), LineError>
        ensures lives { OnOk result (LivesOn ⟦<MemoryDisk<A> as Disk>⟧ ⟦<Credentials<A> as AuthHandler>⟧ ⟦<PortRange as RelayAddressGenerator>⟧
            self.old.player self.new.player) }
    {
        let five_tuple = FiveTuple {
            client,
            server: self.server,
        };
        let arrival = Arrival::Client { five_tuple, bytes };
        self.play(&[Action::Arrive(self.moment, arrival)])
    }

    fn ask(&mut self, ask: &Ask<'_>) -> Result<(), LineError>
        ensures lives { OnOk result (LivesOn ⟦<MemoryDisk<A> as Disk>⟧ ⟦<Credentials<A> as AuthHandler>⟧ ⟦<PortRange as RelayAddressGenerator>⟧
            self.old.player self.new.player) }
    {
        let bytes = self.client.request(self.alloc, ask, self.moment)?;
        self.submit(ask.client, &bytes)
    }

    fn send(&mut self, client: Endpoint, peer: Endpoint, word: &[u8]) -> Result<(), LineError>
        ensures lives { OnOk result (LivesOn ⟦<MemoryDisk<A> as Disk>⟧ ⟦<Credentials<A> as AuthHandler>⟧ ⟦<PortRange as RelayAddressGenerator>⟧
            self.old.player self.new.player) }
    {
        let payload = bytes_of(self.alloc, word)?;
        let bytes = build_send(self.alloc, peer, &payload)?;
        self.submit(client, &bytes)
    }

    fn submit_from_peer(&mut self, port: u16, from: Endpoint, bytes: &[u8]) -> Result<(), LineError>
        ensures lives { OnOk result (LivesOn ⟦<MemoryDisk<A> as Disk>⟧ ⟦<Credentials<A> as AuthHandler>⟧ ⟦<PortRange as RelayAddressGenerator>⟧
            self.old.player self.new.player) }
    {
        let id = TxId([0; 12]);
        let arrival = Arrival::Peer {
            port,
            from,
            bytes,
            id,
        };
        self.play(&[Action::Arrive(self.moment, arrival)])
    }

    fn peer(&mut self, line: &PeerLine<'_>) -> Result<(), LineError>
        ensures lives { OnOk result (LivesOn ⟦<MemoryDisk<A> as Disk>⟧ ⟦<Credentials<A> as AuthHandler>⟧ ⟦<PortRange as RelayAddressGenerator>⟧
            self.old.player self.new.player) }
    {
        let bytes = bytes_of(self.alloc, line.hex)?;
        self.submit_from_peer(line.port, line.from, &bytes)
    }

    // The moment of the lines never goes back.
    fn go_to(&mut self, moment: Moment) -> Result<(), LineError>
        ensures ok { OnOk result ((self.old.moment ≤ moment) × (self.new.moment ≡ moment)) }
        ensures refused { OnErr result ((moment < self.old.moment) × (self.new.moment ≡ self.old.moment)) }
        ensures lives { OnOk result (LivesOn ⟦<MemoryDisk<A> as Disk>⟧ ⟦<Credentials<A> as AuthHandler>⟧ ⟦<PortRange as RelayAddressGenerator>⟧
            self.old.player self.new.player) }
    {
        if moment < self.moment {
            return Err(LineError::Bad);
        }
        self.moment = moment;
        Ok(())
    }

    /// Reports the table at the moment, or at the server's clock where that is later.
    fn table(&mut self) -> Result<(), LineError>
        ensures lives { OnOk result (LivesOn ⟦<MemoryDisk<A> as Disk>⟧ ⟦<Credentials<A> as AuthHandler>⟧ ⟦<PortRange as RelayAddressGenerator>⟧
            self.old.player self.new.player) }
    {
        match self.player.server() {
            Ok(server) => {
                let clock = server.clock();
                let moment = if self.moment < clock {
                    clock
                } else {
                    self.moment
                };
                put_table(self.alloc, server.table(), moment, self.lines.all())?;
            }
            Err(event) => self.lines.push(event_text(self.alloc, &event)?)?,
        }
        Ok(())
    }

    fn expect(&mut self, text: &[u8]) -> Result<(), LineError>
        ensures lives { OnOk result (LivesOn ⟦<MemoryDisk<A> as Disk>⟧ ⟦<Credentials<A> as AuthHandler>⟧ ⟦<PortRange as RelayAddressGenerator>⟧
            self.old.player self.new.player) }
    {
        if self.lines.compare(text) {
            Ok(())
        } else {
            Err(LineError::Differs)
        }
    }

    fn do_line(&mut self, line: &Line<'_>) -> Result<(), LineError>
        ensures lives { OnOk result (LivesOn ⟦<MemoryDisk<A> as Disk>⟧ ⟦<Credentials<A> as AuthHandler>⟧ ⟦<PortRange as RelayAddressGenerator>⟧
            self.old.player self.new.player) }
    {
        match line {
            Line::At(moment) => self.go_to(*moment),
            Line::Nonce(moment) => {
                self.client.nonce = Some(*moment);
                Ok(())
            }
            Line::Raw(client, word) => {
                let bytes = bytes_of(self.alloc, word)?;
                self.submit(*client, &bytes)
            }
            Line::Ask(ask) => self.ask(ask),
            Line::Send(client, peer, word) => self.send(*client, *peer, word),
            Line::Peer(line) => self.peer(line),
            Line::Commit => self.play(&[Action::Commit]),
            Line::Fail(call) => self.play(&[Action::Fail(*call)]),
            Line::Stop(call) => self.play(&[Action::Stop(*call)]),
            Line::Crash(outcome) => self.play(&[Action::Crash(*outcome)]),
            Line::Reopen => self.play(&[Action::Reopen { carry: true }]),
            Line::Table => self.table(),
            Line::Expect(text) => self.expect(text),
        }
    }

    /// Does what a line that is not skipped says.
    pub(crate) fn take(&mut self, text: &[u8]) -> Result<(), LineError>
        ensures lives { OnOk result (LivesOn ⟦<MemoryDisk<A> as Disk>⟧ ⟦<Credentials<A> as AuthHandler>⟧ ⟦<PortRange as RelayAddressGenerator>⟧
            self.old.player self.new.player) }
    {
        match read_line(text) {
            Some(line) => self.do_line(&line),
            None => Err(LineError::Bad),
        }
    }

    pub(crate) fn into_report(self) -> Report<A> {
        self.lines.into_report()
    }
}
