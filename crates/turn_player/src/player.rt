//! The player.

ghost use Rattle.std.specs.Prelude.{◌≡◌, ◌++◌, ◌∷◌, [], Some, None, IsOk, IsErr, IfOk, IfErr, OnOk, OnErr, map, max, false};
ghost use Rattle.turn_engine.specs.State.{ServerState};
ghost use Rattle.turn_step.specs.Answer.{Setting};
ghost use Rattle.turn_step.specs.Views.{arrival_of, sent_of};
ghost use Rattle.turn_store.specs.Areas.{Form};
ghost use Rattle.turn_player.specs.Held.{Adds, world_of};
ghost use Rattle.turn_player.specs.Lives as lives;
ghost use Rattle.turn_player.specs.Lives.{Point, handing_out};
ghost use Rattle.turn_player.specs.Plays.{GoesOn, IsCarriedOver, Plays, PlaysAll, Ran, inputs_of_all, said_if, said_of, why_none};
ghost use Rattle.turn_player.specs.Worlds.{Call, Down, Serving, World, disk_of, handler_of, ports_of};

use crate::faulty::Faulty;
use crate::step::{Action, Effect};
use std::alloc::{AllocError, Allocator, Global};
use std::marker::Model;
use turn_cred::{AuthHandler, Credentials};
use turn_disk::{Disk, MemoryDisk};
use turn_engine::{CommitError, Server, ServerOpenError};
use turn_ports::{PortRange, RelayAddressGenerator};
use turn_step::{Arrival, Outgoing};
use turn_types::{Moment, ServerConfig};

/// A server over a disk in memory.
pub type MemoryServer<A = Global> = Server<MemoryDisk<A>, Credentials<A>, PortRange, A>;

/// A disk, with the handler and the generator for the next opening.
#[derive(Drop)]
struct Closed<D: Disk, H: AuthHandler, G: RelayAddressGenerator> {
    disk: D,
    handler: H,
    ports: G,
}

/// What a player holds.
#[derive(Drop)]
enum Held<D: Disk, H: AuthHandler, G: RelayAddressGenerator, A: Allocator = Global> {
    Serving(Server<D, H, G, A>),
    Down(Closed<D, H, G>),
}

/// A server over a disk in memory that goes through steps: arrivals, commits, failures of the disk, crashes and openings.
pub struct Player<A: Allocator = Global> {
    alloc: A,
    config: ServerConfig<A>,
    // `None` after an allocation failure.
    held: Option<Held<MemoryDisk<A>, Credentials<A>, PortRange, A>>,
}

// By hand: a derived drop is one step for each field in the proof of each caller.
impl<A: Allocator> Drop for Player<A> {
    fn drop(self) {
        let Player {
            alloc: _,
            config: _,
            held: _,
        } = self;
    }
}

impl<A: Allocator> Model for Player<A> {
    ghost use Rattle.std.specs.Coded.{codes};
    ghost use Rattle.std.specs.Prelude.{option_map};
    ghost use Rattle.turn_cred.specs.Users.{key_map_code};
    ghost use Rattle.turn_table.specs.State.{state_code};
    ghost use Rattle.turn_player.specs.Held.{world_of};
    ghost use Rattle.turn_player.specs.Plays.{PlayerState};

    ghost Value = { PlayerState };

    ghost coded = { Prim.hlevel (codes, key_map_code, state_code) };

    ghost view = { λ p. record { config = p.config; world = option_map world_of p.held } };
}

fn later_of(first: Moment, second: Moment) -> Moment
    ensures { result ≡ max first second }
{
    if first < second { second } else { first }
}

// Takes an arrival at its moment, or at the clock if that is later. The event says why it was not taken.
fn submit_at<D: Disk, H: AuthHandler, G: RelayAddressGenerator, A: Allocator + Copy>(
    server: &mut Server<D, H, G, A>,
    moment: Moment,
    arrival: &Arrival<'_>,
) -> Option<Effect<A>>
    ensures { (s : Setting) → Call D.Disk H.AuthHandler G.RelayAddressGenerator s (Serving server.old)
        (lives.Arrive moment (arrival_of arrival.now)) (said_if result) (Serving server.new) }
{
    let at = later_of(moment, server.clock());
    match server.submit(at, arrival) {
        Ok(()) => None,
        Err(why) => Some(Effect::Refused(why)),
    }
}

// Adds what a commit hands out.
fn hand_out<A: Allocator + Copy>(
    events: &mut Vec<Effect<A>, A>,
    outgoing: Vec<Outgoing<A>, A>,
) -> Result<(), AllocError>
    ensures { OnOk result (map said_of events.new.items ≡ map said_of events.old.items ++ handing_out (map sent_of outgoing.items)) }
{
    let count = outgoing.len();
    for datagram in outgoing {
        events.push(Effect::Sent(datagram))?;
    }
    events.push(Effect::Committed(count))?;
    Ok(())
}

// Commits, and adds what comes of it.
fn commit_to<D: Disk, H: AuthHandler, G: RelayAddressGenerator, A: Allocator + Copy>(
    server: &mut Server<D, H, G, A>,
    events: &mut Vec<Effect<A>, A>,
) -> Result<(), AllocError>
    ensures { OnOk result ((s : Setting) → Adds (map said_of events.old.items) (map said_of events.new.items)
        (λ said. Call D.Disk H.AuthHandler G.RelayAddressGenerator s (Serving server.old) lives.Commit said (Serving server.new))) }
{
    match server.commit() {
        Ok(outgoing) => hand_out(events, outgoing),
        Err(why) => {
            events.push(Effect::Failed(why))?;
            Ok(())
        }
    }
}

// Adds an event, if there is one.
fn note<A: Allocator>(
    events: &mut Vec<Effect<A>, A>,
    event: Option<Effect<A>>,
) -> Result<(), AllocError>
    ensures { OnOk result (map said_of events.new.items ≡ map said_of events.old.items ++ said_if event) }
{
    if let Some(event) = event {
        events.push(event)?;
    }
    Ok(())
}

impl<
    D: Faulty + Drop,
    H: AuthHandler + Drop,
    G: RelayAddressGenerator + Drop,
    A: Allocator + Copy,
> Held<D, H, G, A> {
    fn disk(&self) -> &D {
        match self {
            Held::Serving(server) => server.disk(),
            Held::Down(closed) => &closed.disk,
        }
    }

    // Closes the server, if one runs.
    fn close(self) -> Closed<D, H, G>
        ensures disk { result.disk ≡ disk_of (world_of self) }
        ensures handler { result.handler ≡ handler_of (world_of self) }
        ensures ports { result.ports ≡ ports_of (world_of self) }
    {
        match self {
            Held::Serving(server) => {
                let (disk, handler, ports) = server.close();
                Closed {
                    disk,
                    handler,
                    ports,
                }
            }
            Held::Down(closed) => closed,
        }
    }

    fn arrive(self, moment: Moment, arrival: &Arrival<'_>) -> (Held<D, H, G, A>, Option<Effect<A>>)
        ensures { (s : Setting) → Call D.Disk H.AuthHandler G.RelayAddressGenerator s
            (world_of self) (lives.Arrive moment (arrival_of arrival.now)) (said_if result.1) (world_of result.0) }
    {
        match self {
            Held::Serving(mut server) => {
                let event = submit_at(&mut server, moment, arrival);
                (Held::Serving(server), event)
            }
            Held::Down(closed) => (Held::Down(closed), Some(Effect::Closed)),
        }
    }

    fn commit(self, events: &mut Vec<Effect<A>, A>) -> Result<Held<D, H, G, A>, AllocError>
        ensures { IfOk result (λ held. (s : Setting) → Adds (map said_of events.old.items) (map said_of events.new.items)
            (λ said. Call D.Disk H.AuthHandler G.RelayAddressGenerator s
            (world_of self) lives.Commit said (world_of held))) }
    {
        match self {
            Held::Serving(mut server) => {
                commit_to(&mut server, events)?;
                Ok(Held::Serving(server))
            }
            Held::Down(closed) => {
                events.push(Effect::Closed)?;
                Ok(Held::Down(closed))
            }
        }
    }
}

impl<D: Disk, H: AuthHandler, G: RelayAddressGenerator> Closed<D, H, G> {
    // Opens the store, and where `carry` is set carries it over to version 2 if it can be.
    fn open<A: Allocator + Copy>(
        self,
        alloc: A,
        config: &ServerConfig<A>,
        carry: bool,
    ) -> (Held<D, H, G, A>, Effect<A>)
        ensures call { (s : Setting) → s.config ≡ config.now
            → Call D.Disk H.AuthHandler G.RelayAddressGenerator s
            (Down self.disk self.handler self.ports) lives.Open (said_of result.1 ∷ []) (world_of result.0) }
        ensures carried { IsCarriedOver D.Disk carry self.disk (world_of result.0) }
    {
        let Closed {
            disk,
            handler,
            ports,
        } = self;
        match Server::open_as(alloc, disk, config, handler, ports, carry) {
            Ok(server) => {
                let clock = server.clock();
                (Held::Serving(server), Effect::Opened(clock))
            }
            Err(
                ServerOpenError {
                    fault,
                    disk,
                    handler,
                    ports,
                },
            ) => {
                let closed = Closed {
                    disk,
                    handler,
                    ports,
                };
                (Held::Down(closed), Effect::NotOpened(fault))
            }
        }
    }
}

// Lets the call of this number fail, where 1 is the next one. There is no call 0.
fn fail_call<D: Faulty>(disk: &D, call: u64) {
    if call > 0 {
        disk.fail_call(call);
    }
}

fn stop_at<D: Faulty>(disk: &D, call: u64) {
    if call > 0 {
        disk.stop_at(call);
    }
}

// Makes one step, and adds what comes of it.
fn play<
    D: Faulty + Drop,
    H: AuthHandler + Drop,
    G: RelayAddressGenerator + Drop,
    A: Allocator + Copy,
>(
    alloc: A,
    config: &ServerConfig<A>,
    held: Held<D, H, G, A>,
    step: &Action<'_>,
    events: &mut Vec<Effect<A>, A>,
) -> Result<Held<D, H, G, A>, AllocError>
    ensures { IfOk result (λ after. (s : Setting) → s.config ≡ config.now → Adds (map said_of events.old.items) (map said_of events.new.items)
        (λ said. Plays D.Disk H.AuthHandler G.RelayAddressGenerator s
        (world_of held) step.now said (world_of after))) }
{
    let (held, event) = match step {
        Action::Arrive(moment, arrival) => held.arrive(*moment, arrival),
        Action::Commit => return held.commit(events),
        Action::Crash(outcome) => {
            let mut closed = held.close();
            closed.disk.crash(*outcome);
            let (held, event) = closed.open(alloc, config, true);
            (held, Some(event))
        }
        Action::Reopen { carry } => {
            let (held, event) = held.close().open(alloc, config, *carry);
            (held, Some(event))
        }
        Action::Fail(call) => {
            fail_call(held.disk(), *call);
            (held, None)
        }
        Action::Stop(call) => {
            stop_at(held.disk(), *call);
            (held, None)
        }
    };
    note(events, event)?;
    Ok(held)
}

// Makes all steps, and adds what comes of them.
fn play_all<
    D: Faulty + Drop,
    H: AuthHandler + Drop,
    G: RelayAddressGenerator + Drop,
    A: Allocator + Copy,
>(
    alloc: A,
    config: &ServerConfig<A>,
    held: Held<D, H, G, A>,
    steps: &[Action<'_>],
    events: &mut Vec<Effect<A>, A>,
) -> Result<Held<D, H, G, A>, AllocError>
    ensures { IfOk result (λ after. (s : Setting) → s.config ≡ config.now → Adds (map said_of events.old.items) (map said_of events.new.items)
        (λ said. PlaysAll D.Disk H.AuthHandler G.RelayAddressGenerator s
        (world_of held) steps.now said (world_of after))) }
{
    let mut held = held;
    for step in steps {
        held = play(alloc, config, held, step, events)?;
    }
    Ok(held)
}

impl<A: Allocator + Copy> Player<A> {
    /// A player over a disk as it is, with no store open.
    pub fn new(
        alloc: A,
        disk: MemoryDisk<A>,
        config: ServerConfig<A>,
        credentials: Credentials<A>,
        ports: PortRange,
    ) -> Player<A>
        ensures { result ≡ record { config = config; world = Some (Down disk credentials ports) } }
    {
        let closed = Closed {
            disk,
            handler: credentials,
            ports,
        };
        Player {
            alloc,
            config,
            held: Some(Held::Down(closed)),
        }
    }

    /// Makes the steps in order and returns what comes of them, in order. Where an allocation for the list of events fails, this
    /// call and all later ones return the error.
    ///
    /// ```rust
    /// let mut player = Player::new(alloc, disk, config, Credentials::new(users, None), ports);
    /// let arrival = Arrival::Client { five_tuple, bytes: &allocate };
    /// let effects = player.run(&[Action::Reopen { carry: true }, Action::Arrive(moment, arrival), Action::Commit])?;
    /// assert!(rt; matches!(effects.as_slice(), [Effect::Opened(_), Effect::Sent(_), Effect::Committed(1)]));
    /// ```
    pub fn run(&mut self, steps: &[Action<'_>]) -> Result<Vec<Effect<A>, A>, AllocError>
        ensures config { self.new.config ≡ self.old.config }
        ensures spent { OnErr result (self.new.world ≡ None) }
        ensures for_good { self.old.world ≡ None → IsErr result }

        // Just these steps, in order.
        ensures plays { IfOk result (λ events. (s : Setting) → s.config ≡ self.old.config
            → Ran ⟦<MemoryDisk<A> as Disk>⟧ ⟦<Credentials<A> as AuthHandler>⟧ ⟦<PortRange as RelayAddressGenerator>⟧ s
            self.old.world steps.now (map said_of events.items) self.new.world) }

        // Every life at whose end the player stands goes on by them.
        ensures lives { IfOk result (λ events. (form : Form) (s : Setting) (p : Point) → s.config ≡ self.old.config → form.bounds ≡ s.config.limits
            → GoesOn ⟦<MemoryDisk<A> as Disk>⟧ ⟦<Credentials<A> as AuthHandler>⟧ ⟦<PortRange as RelayAddressGenerator>⟧ form s p
            self.old.world (inputs_of_all steps.now) (map said_of events.items) self.new.world) }
    {
        let Some(held) = self.held.take() else {
            return Err(AllocError);
        };
        let mut events = Vec::new(self.alloc);
        let held = play_all(self.alloc, &self.config, held, steps, &mut events)?;
        self.held = Some(held);
        Ok(events)
    }

    /// The server, or why there is none: `Closed`, or `Failed(Stopped)` after a commit that failed.
    pub fn server(&self) -> Result<&MemoryServer<A>, Effect<A>>
        ensures found { IfOk result (λ server. (self.now.world ≡ Some (Serving server.now)) × (server.now.store.stopped ≡ false)) }
        ensures runs { (server : ServerState _ _ _) → self.now.world ≡ Some (Serving server) → server.store.stopped ≡ false → IsOk result }
        ensures none { IfErr result (λ event. said_of event ≡ why_none self.now.world) }
    {
        match &self.held {
            Some(Held::Serving(server)) => {
                if server.is_stopped() {
                    Err(Effect::Failed(CommitError::Stopped))
                } else {
                    Ok(server)
                }
            }
            _ => Err(Effect::Closed),
        }
    }
}
