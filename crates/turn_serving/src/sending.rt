//! What a server sends, by its sockets.

ghost use Rattle.std.specs.Prelude.{◌≡◌, ◌≢◌, ◌↔◌, ◌⊎◌, ◌++◌, All, IfNone, IfSome, IsTrue, List, map, option_map, false, true};
ghost use Rattle.std.specs.Option.{option_to_list};
ghost use Rattle.turn_sockets.specs.Machine.{is_of_machine};
ghost use Rattle.turn_sockets.specs.Own.{IsListening, IsLost, IsNamed, IsOwnIp, MayBeLost, has_any, is_closed};
ghost use Rattle.turn_sockets.specs.Wire.{Passed};
ghost use Rattle.turn_step.specs.Views.{sent_of};
ghost use Rattle.turn_serving.specs.Sending.{SendsEach, SendsOne, addresses_of, port_sockets};

use crate::listening::Listening;
use crate::relay_sockets::RelaySockets;
use crate::watch::Watch;
use std::alloc::Allocator;
use std::io;
use turn_cred::AuthHandler;
use turn_disk::Disk;
use turn_engine::{Beside, Server};
use turn_sockets::{MachineAddresses, OwnAddresses, SocketRecord};
use turn_step::{Arrival, Outgoing};
use turn_table::Table;
use turn_types::Endpoint;

/// Whether an address is one of this machine. Before its addresses are known each counts as one.
fn is_local<A: Allocator>(machine: &Option<MachineAddresses<A>>, ip: u32) -> bool
    ensures known { IfSome machine.now (λ m. result ≡ is_of_machine m.prefixes.items ip) }
    ensures unknown { IfNone machine.now (result ≡ true) }
{
    match machine {
        Some(machine) => machine.has(ip),
        None => true,
    }
}

/// Whether what a relay port sends to a peer would come to a socket that clients send to. Where only one with the address 0.0.0.0
/// may be meant, the peer's has to be one of this machine.
#[tactic(auto, using(crate::proofs::Named::by_name, crate::proofs::Named::listens))]
fn is_listening<A: Allocator>(
    own: &OwnAddresses,
    machine: &Option<MachineAddresses<A>>,
    peer: Endpoint,
) -> bool
    ensures only { IsTrue result → IsListening own.now peer }
    ensures named { All (λ a. a.ip ≢ 0) own.now.listening → (IsTrue result ↔ IsListening own.now peer) }
    ensures by_name { IsNamed own.now peer → IsTrue result }
    // A peer is meant by 0.0.0.0 alone if its address is the machine's.
    ensures any { IsListening own.now peer → ¬ IsNamed own.now peer → IfSome machine.now (λ m. result ≡ is_of_machine m.prefixes.items peer.ip) }
    // Before these are known each address may be.
    ensures unknown { IsListening own.now peer → IfNone machine.now (result ≡ true) }
{
    own.is_listening(peer) && (own.is_named(peer) || is_local(machine, peer.ip))
}

/// Shows the watch what the system refused to send.
fn tell_unsent<A: Allocator + Copy, W: Watch + Drop>(
    watch: &W,
    table: &Table<A>,
    outgoing: &Outgoing<A>,
    refusal: Option<io::Error>,
) {
    if let Some(reason) = refusal {
        watch.unsent(table, outgoing, reason);
    }
}

/// Shows the watch what is lost that was for another program of the server's machine.
fn tell_lost<A: Allocator + Copy, W: Watch + Drop>(
    listening: &Listening<W, A>,
    table: &Table<A>,
    port: u16,
    to: Endpoint,
) {
    if !is_listening(&listening.own, &listening.machine, to) {
        listening.watch.lost(table, port, to);
    }
}

/// Whether an IP address is the server's own: by its name, or as one of this machine, where one of the server's addresses is 0.0.0.0. Before
/// the machine's addresses are known only those with a name are its own.
fn is_own_ip<A: Allocator>(
    own: &OwnAddresses,
    machine: &Option<MachineAddresses<A>>,
    ip: u32,
) -> bool
    ensures only { IsTrue result → IsOwnIp own.now ip ⊎ (has_any own.now ≡ true) }
    ensures named { IsOwnIp own.now ip → IsTrue result }
    ensures any { has_any own.now ≡ true → IfSome machine.now (λ m. is_of_machine m.prefixes.items ip ≡ true → IsTrue result) }
    ensures others { ¬ IsOwnIp own.now ip → IfSome machine.now (λ m. IsTrue result → is_of_machine m.prefixes.items ip ≡ true) }
    ensures unknown { ¬ IsOwnIp own.now ip → IfNone machine.now (result ≡ false) }
{
    if own.has_ip(ip) {
        return true;
    }
    match machine {
        Some(machine) => own.has_any() && machine.has(ip),
        None => false,
    }
}

/// Whether what a relay port sends to an address is lost: it would come to a socket that clients send to, or, at an address of the server's
/// own, to a port that no relay port has and no local peer.
fn is_lost<A: Allocator>(
    own: &OwnAddresses,
    machine: &Option<MachineAddresses<A>>,
    to: Endpoint,
) -> bool
    ensures only { IsTrue result → MayBeLost own.now to }
    ensures lost { IsLost own.now to → IsTrue result }
    // At a closed port it is lost at each address of the machine too, where these count and are known.
    ensures any { is_closed own.now to ≡ true → has_any own.now ≡ true → IfSome machine.now (λ m. is_of_machine m.prefixes.items to.ip ≡ true → IsTrue result) }
{
    is_listening(own, machine, to) || (own.is_closed(to) && is_own_ip(own, machine, to.ip))
}

/// Sends a datagram, to a client by the socket that its five-tuple names. One that can't be sent is lost, as on any link; so is one
/// from a relay port to the server itself or to another program at an address of its own, and one to a client of an address that no socket
/// has any more.
fn send<G: RelaySockets, A: Allocator + Copy, W: Watch + Drop>(
    listening: &Listening<W, A>,
    ports: &G,
    table: &Table<A>,
    record: &mut SocketRecord,
    outgoing: &Outgoing<A>,
)
    ensures { (out : List Passed) × (record.new.passed ≡ record.old.passed ++ out) × SendsOne (port_sockets G.has_socket G.bound) (addresses_of listening.now.sockets.items listening.now.own)
        ports.now (sent_of outgoing.now) out }
{
    match outgoing {
        Outgoing::ToClient { five_tuple, bytes } => {
            // The address that the client sent to.
            if let Some(socket) = listening.socket_of(*five_tuple) {
                let refusal = socket.send(record, bytes.as_slice(), five_tuple.client);
                tell_unsent(&listening.watch, table, outgoing, refusal);
            }
        }
        Outgoing::ToPeer { port, peer, bytes } => {
            let to = listening.own.sent_to(*peer);
            if is_lost(&listening.own, &listening.machine, to) {
                tell_lost(listening, table, *port, to);
                return;
            }
            if let Some(socket) = ports.socket(*port) {
                let refusal = socket.send(record, bytes.as_slice(), to);
                tell_unsent(&listening.watch, table, outgoing, refusal);
            }
        }
    }
}

/// Sends what a commit handed out, in its order. Then the watch sees it.
pub(crate) fn send_all<
    D: Disk,
    H: AuthHandler,
    G: RelaySockets,
    A: Allocator + Copy,
    W: Watch + Drop,
>(
    listening: &Listening<W, A>,
    server: &Server<D, H, G, A>,
    record: &mut SocketRecord,
    outgoing: &[Outgoing<A>],
)
    ensures { (out : List Passed) × (record.new.passed ≡ record.old.passed ++ out) × SendsEach (port_sockets G.has_socket G.bound) (addresses_of listening.now.sockets.items listening.now.own)
        server.now.machine.ports (map sent_of outgoing.now) out }
{
    for datagram in outgoing {
        send(listening, server.ports(), server.table(), record, datagram);
    }
    if let Some(number) = server.ports().take_exhausted() {
        listening.watch.exhausted(server.clock(), number);
    }
    listening
        .watch
        .sent(server.clock(), server.table(), outgoing);
}

/// Sends the answer to an arrival that was answered beside what is staged, if there is one. Then the watch sees it.
pub(crate) fn send_answer<H: AuthHandler, G: RelaySockets, A: Allocator + Copy, W: Watch + Drop>(
    listening: &Listening<W, A>,
    beside: &Beside<'_, '_, H, G, A>,
    record: &mut SocketRecord,
    arrival: &Arrival<'_>,
    answer: &Option<Outgoing<A>>,
)
    ensures { (out : List Passed) × (record.new.passed ≡ record.old.passed ++ out) × SendsEach (port_sockets G.has_socket G.bound) (addresses_of listening.now.sockets.items listening.now.own)
        beside.now.machine.ports (option_to_list (option_map sent_of answer.now)) out }
{
    if let Some(datagram) = answer {
        send(listening, beside.ports(), beside.table(), record, datagram);
    }
    listening
        .watch
        .answered(beside.table(), arrival, answer.as_ref());
}
