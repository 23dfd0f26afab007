//! What is done with the datagrams that sockets receive: each is offered to what answers beside the store, and what that leaves waits
//! for a commit.

ghost use Rattle.std.specs.Prelude.{◌≡◌, ◌≢◌, ◌≤◌, ◌++◌, ◌∷◌, [], ◌⊎◌, ℕ, IsTrue, List, OnOk, Some, false, is_ok};
ghost use Rattle.turn_sockets.specs.Backlog.{if_same, waiting_of};
ghost use Rattle.turn_sockets.specs.Schedule.{with_all_ready};
ghost use Rattle.turn_sockets.specs.Wire.{Passed};
ghost use Rattle.turn_sockets.specs.Wire.{Received as received};
ghost use Rattle.turn_step.specs.Views.{arrival_of};
ghost use Rattle.turn_types.specs.declared.address.FiveTuple.{FiveTuple};
ghost use Rattle.turn_serving.specs.Manner.{reads_of};
ghost use Rattle.turn_serving.specs.Reading.{IsFound, MakesVisits, Replies};
ghost use Rattle.turn_serving.specs.Sending.{addresses_of, port_sockets};
ghost use Rattle.turn_serving.specs.Visits.{IsVisited, Visited, begun_by, flow, has_more, listening_at};

use crate::error::TurnError;
use crate::listening::{Listening, Waiting};
use crate::manner::{Commits, Manner};
use crate::relay_sockets::RelaySockets;
use crate::sending::send_answer;
use crate::watch::Watch;
use std::alloc::{Allocator, Global};
use std::time::Duration;
use turn_cred::AuthHandler;
use turn_engine::{Beside, Relayed, Unanswered};
use turn_ports::RelayAddressGenerator;
use turn_sockets::{
    Backlog, BoundSocket, Buffer, DataIds, LISTENING, Received, Schedule, SocketRecord,
};
use turn_step::{Arrival, Outgoing};
use turn_types::{Endpoint, FiveTuple};

/// What sockets are read with, and the datagrams of clients that wait for a commit.
#[derive(Drop)]
pub(crate) struct Intake<A: Allocator = Global> {
    pub(crate) buffer: Buffer<A>,
    pub(crate) ids: DataIds,
    pub(crate) backlog: Backlog<A>,
    // What passed at the sockets.
    pub(crate) record: SocketRecord,
}

/// What came of a read of a socket.
#[derive(Drop)]
pub(crate) enum Found {
    /// A datagram that was answered, or is of the server itself. Whether data was relayed.
    Answered { is_data: bool },
    /// A client's datagram that waits, or for which there was no room.
    Kept,
    /// A datagram for whose answer there was no memory.
    Lost(Unanswered),
    /// None, though some may wait: the system failed.
    Failed,
    /// None, since what comes there can't be answered now.
    Held,
    /// None waits, or there is no socket any more.
    Nothing,
}

/// What was found in some reads.
#[derive(Clone, Copy)]
pub(crate) struct Tally {
    /// Whether any datagram was.
    pub(crate) any: bool,
    /// Whether data was relayed.
    pub(crate) data: bool,
}

impl Tally {
    pub(crate) const NOTHING: Tally = Tally {
        any: false,
        data: false,
    };

    fn count(&mut self, found: &Found) {
        match found {
            Found::Answered { is_data } => {
                self.any = true;
                self.data |= *is_data;
            }
            Found::Kept | Found::Lost(_) => self.any = true,
            Found::Failed | Found::Held | Found::Nothing => {}
        }
    }
}

/// Whether an answer is data that is relayed, and no reply to a client.
fn is_data<A: Allocator>(arrival: &Arrival<'_>, answer: &Option<Outgoing<A>>) -> bool {
    match (arrival, answer) {
        (_, None) => false,
        (Arrival::Peer { .. }, Some(_)) => true,
        (Arrival::Client { .. }, Some(answer)) => matches!(answer, Outgoing::ToPeer { .. }),
    }
}

/// What reads the sockets of a server.
#[derive(Clone, Copy)]
pub(crate) struct Reader<'l, W: Watch + Drop, A: Allocator = Global> {
    pub(crate) listening: &'l Listening<W, A>,
    pub(crate) manner: Manner,
}

/// What came of an arrival that was to be answered beside what is staged.
#[derive(Drop)]
pub(crate) enum Reply {
    /// It was answered, and the answer was sent, if there is one. Whether data was relayed.
    Sent { is_data: bool },
    /// It has to be submitted.
    Waits,
    /// There was no memory for the answer.
    Lost(Unanswered),
}

impl<'l, W: Watch + Drop, A: Allocator + Copy> Reader<'l, W, A> {
    /// Looks which sockets got a datagram, for so long if there is none, and begins a round.
    pub(crate) fn begin(
        &self,
        waiting: &mut Waiting<A>,
        schedule: &mut Schedule<A>,
        timeout: Duration,
    ) -> Result<(), TurnError>
        ensures { OnOk result ((ready : List ℕ) × (schedule.new ≡ begun_by self.now.manner.commits (with_all_ready schedule.old ready))) }
    {
        waiting.look(schedule, timeout)?;
        match self.manner.commits {
            Commits::EachTurn => schedule.begin_for_each()?,
            Commits::Paced => schedule.begin(),
        }
        Ok(())
    }

    // Answers an arrival beside what is staged, and sends the answer.
    fn answer<H: AuthHandler, G: RelaySockets>(
        &self,
        beside: &Beside<'_, '_, H, G, A>,
        record: &mut SocketRecord,
        arrival: &Arrival<'_>,
    ) -> Reply
        ensures { Replies H.AuthHandler G.RelayAddressGenerator (port_sockets G.has_socket G.bound) (addresses_of self.now.listening.now.sockets.items self.now.listening.now.own)
            beside.now (arrival_of arrival.now) result record.old.passed record.new.passed }
    {
        match beside.relay(arrival) {
            Ok(Relayed::Waits) => Reply::Waits,
            Ok(Relayed::Answered(answer)) => {
                send_answer(self.listening, beside, record, arrival, &answer);
                Reply::Sent {
                    is_data: is_data(arrival, &answer),
                }
            }
            Err(evidence) => Reply::Lost(evidence),
        }
    }

    // Whether something of a client's five-tuple waits.
    fn has_some(backlog: &Backlog<A>, five_tuple: FiveTuple) -> bool
        ensures some { IsTrue result → waiting_of backlog.now five_tuple ≢ [] }
        ensures none { result ≡ false → waiting_of backlog.now five_tuple ≡ [] }
    {
        backlog.has(five_tuple)
    }

    // Keeps a client's datagram for the next commit. One for which there is no room, or no memory, is dropped.
    fn keep<H: AuthHandler, G: RelayAddressGenerator>(
        &self,
        beside: &Beside<'_, '_, H, G, A>,
        backlog: &mut Backlog<A>,
        five_tuple: FiveTuple,
        bytes: &[u8],
    )
        ensures { ((g : FiveTuple) → waiting_of backlog.new g ≡ waiting_of backlog.old g ++ if_same five_tuple g bytes.now) ⊎ (backlog.new ≡ backlog.old) }
    {
        if backlog.push(five_tuple, bytes) != Ok(true) {
            self.listening.watch.shed(beside.table().moment());
        }
    }

    // Takes a client's datagram that the socket of a token received: it is answered, or waits.
    fn take_from_client<H: AuthHandler, G: RelaySockets>(
        &self,
        beside: &Beside<'_, '_, H, G, A>,
        backlog: &mut Backlog<A>,
        record: &mut SocketRecord,
        socket: &BoundSocket,
        bytes: &[u8],
        from: Endpoint,
    ) -> Found
        ensures { (token : ℕ) (before : List Passed) → listening_at self.now.listening.now.sockets.items token ≡ Some socket.now
            → record.old.passed ≡ before ++ received socket.now from bytes.now ∷ []
            → IsFound H.AuthHandler G.RelayAddressGenerator (port_sockets G.has_socket G.bound) (addresses_of self.now.listening.now.sockets.items self.now.listening.now.own)
            beside.now token result (flow backlog.old before) (flow backlog.new record.new.passed) }
    {
        let Some(five_tuple) = self.listening.five_tuple_of(socket, from) else {
            return Found::Answered { is_data: false };
        };
        if Self::has_some(backlog, five_tuple) {
            self.keep(beside, backlog, five_tuple, bytes);
            return Found::Kept;
        }
        let arrival = Arrival::Client { five_tuple, bytes };
        match self.answer(beside, record, &arrival) {
            Reply::Sent { is_data } => Found::Answered { is_data },
            Reply::Waits => {
                self.keep(beside, backlog, five_tuple, bytes);
                Found::Kept
            }
            Reply::Lost(evidence) => Found::Lost(evidence),
        }
    }

    // Reads a datagram of the listening socket of a token.
    fn take_of_client<H: AuthHandler, G: RelaySockets>(
        &self,
        beside: &Beside<'_, '_, H, G, A>,
        intake: &mut Intake<A>,
        token: usize,
    ) -> Found
        requires { 65536 ≤ token }
        ensures { IsFound H.AuthHandler G.RelayAddressGenerator (port_sockets G.has_socket G.bound) (addresses_of self.now.listening.now.sockets.items self.now.listening.now.own)
            beside.now token result (flow intake.old.backlog intake.old.record.passed) (flow intake.new.backlog intake.new.record.passed) }
    {
        let Some(socket) = self.listening.sockets.get(token - LISTENING) else {
            return Found::Nothing;
        };
        match intake.buffer.receive(socket, &mut intake.record) {
            Received::Datagram { bytes, from } => self.take_from_client(
                beside,
                &mut intake.backlog,
                &mut intake.record,
                socket,
                bytes,
                from,
            ),
            Received::Failed => Found::Failed,
            Received::Nothing => Found::Nothing,
        }
    }

    // Reads a datagram of a relay port's socket, if what comes there can be answered now, whatever it is.
    fn take_of_peer<H: AuthHandler, G: RelaySockets>(
        &self,
        beside: &Beside<'_, '_, H, G, A>,
        intake: &mut Intake<A>,
        port: u16,
    ) -> Found
        ensures { IsFound H.AuthHandler G.RelayAddressGenerator (port_sockets G.has_socket G.bound) (addresses_of self.now.listening.now.sockets.items self.now.listening.now.own)
            beside.now port result (flow intake.old.backlog intake.old.record.passed) (flow intake.new.backlog intake.new.record.passed) }
    {
        let Some(socket) = beside.ports().socket(port) else {
            return Found::Nothing;
        };
        if !beside.relays_at(port) {
            return Found::Held;
        }
        let (bytes, from) = match intake.buffer.receive(socket, &mut intake.record) {
            Received::Datagram { bytes, from } => (bytes, from),
            Received::Failed => return Found::Failed,
            Received::Nothing => return Found::Nothing,
        };
        let arrival = Arrival::Peer {
            port,
            from: self.listening.own.come_from(from),
            bytes,
            id: intake.ids.next(beside.table().moment()),
        };
        match self.answer(beside, &mut intake.record, &arrival) {
            Reply::Sent { is_data } => Found::Answered { is_data },
            Reply::Waits => unreachable!(),
            Reply::Lost(evidence) => Found::Lost(evidence),
        }
    }

    // Reads a datagram of the socket of a token.
    fn take<H: AuthHandler, G: RelaySockets>(
        &self,
        beside: &Beside<'_, '_, H, G, A>,
        intake: &mut Intake<A>,
        token: usize,
    ) -> Found
        ensures { IsFound H.AuthHandler G.RelayAddressGenerator (port_sockets G.has_socket G.bound) (addresses_of self.now.listening.now.sockets.items self.now.listening.now.own)
            beside.now token result (flow intake.old.backlog intake.old.record.passed) (flow intake.new.backlog intake.new.record.passed) }
    {
        match u16::try_from(token) {
            Ok(port) => self.take_of_peer(beside, intake, port),
            Err(_) => self.take_of_client(beside, intake, token),
        }
    }

    // Reads the socket of a token until nothing is left, a read fails, or as many datagrams were read as a visit may read. Whether it may
    // have more.
    fn visit<H: AuthHandler, G: RelaySockets>(
        &self,
        beside: &Beside<'_, '_, H, G, A>,
        intake: &mut Intake<A>,
        token: usize,
        tally: &mut Tally,
    ) -> bool
        ensures { (v : Visited) × (v.token ≡ token) × (has_more v ≡ result)
            × IsVisited H.AuthHandler G.RelayAddressGenerator (port_sockets G.has_socket G.bound) (addresses_of self.now.listening.now.sockets.items self.now.listening.now.own)
            beside.now (reads_of self.now.manner) v (flow intake.old.backlog intake.old.record.passed) (flow intake.new.backlog intake.new.record.passed) }
    {
        for _read in 0..self.manner.reads() {
            let found = self.take(beside, intake, token);
            tally.count(&found);
            match found {
                Found::Answered { .. } | Found::Kept | Found::Lost(_) => {}
                Found::Failed => return true,
                Found::Held => return true,
                Found::Nothing => return false,
            }
        }
        true
    }

    /// Visits sockets to the end of a round.
    pub(crate) fn round<H: AuthHandler, G: RelaySockets>(
        &self,
        beside: &Beside<'_, '_, H, G, A>,
        intake: &mut Intake<A>,
        schedule: &mut Schedule<A>,
    ) -> Result<Tally, TurnError>
        ensures { MakesVisits H.AuthHandler G.RelayAddressGenerator (port_sockets G.has_socket G.bound) (addresses_of self.now.listening.now.sockets.items self.now.listening.now.own)
            (reads_of self.now.manner) beside.now (is_ok result) schedule.old (flow intake.old.backlog intake.old.record.passed)
            schedule.new (flow intake.new.backlog intake.new.record.passed) }
    {
        let mut tally = Tally::NOTHING;
        while let Some(token) = schedule.next() {
            if self.visit(beside, intake, token, &mut tally) {
                schedule.put_back(token)?;
            }
        }
        Ok(tally)
    }
}
