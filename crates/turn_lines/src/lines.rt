//! The lines of a log, and what decides which there are.

ghost use Rattle.std.specs.Prelude.{◌≡◌, ◌↔◌, ◌⊎◌, ◌<◌, ◌≤◌, IfNone, IfSome, IsSome, IsTrue, None, Some, false, max, true};
ghost use Rattle.std.specs.Option.{option_map_or};
ghost use Rattle.turn_log.specs.declared.counts.About.TheVariants as matters;
ghost use Rattle.turn_lines.specs.declared.done.Done.TheVariants as successes;
ghost use Rattle.turn_log.specs.declared.limit.Line.TheVariants as lines;
ghost use Rattle.turn_log.specs.declared.response.Response.TheVariants as responses;

use crate::asked::Asked;
use crate::counted::{left_out_text, refreshes_text, repeated_text};
use crate::done::{Done, done_of};
use crate::fields::{
    Answer, Known, asked_text, at_text, name_text, peers_text, port_text, reason_text,
    response_text,
};
use crate::usage::{Usage, Usages};
use std::alloc::{AllocError, Allocator, Global};
use std::io::{self, Write};
use std::marker::Model;
use std::mem;
use std::time::Duration;
use turn_codec::{AttributeType, Message};
use turn_config::{ShownEndpoint, ShownIp};
use turn_log::{
    About, Challenged, Counted, DroppedCount, Line, LineLimit, Log, NOBODY, Response, Room,
    ShownName, Subject, Tally, is_slow, peers_left_out, response_of,
};
use turn_step::{Arrival, Outgoing};
use turn_table::Table;
use turn_types::{Endpoint, FiveTuple, Method, Moment};

/// What is said of an allocation that expired.
fn expired_text(
    alloc: Global,
    five_tuple: FiveTuple,
    port: u16,
    usage: Option<&Usage>,
    second: u64,
) -> Result<String, AllocError> {
    let client = ShownEndpoint(five_tuple.client);
    let end = end_text(alloc, usage, second)?;
    format!(in alloc; "client {client} expired port={port}{end}")
}

fn end_text(alloc: Global, usage: Option<&Usage>, second: u64) -> Result<String, AllocError> {
    match usage {
        Some(usage) => usage.text(alloc, second),
        None => Ok(String::new(alloc)),
    }
}

/// What the line of a success is, of a client with this address. `before` is the relayed port of the allocation that the client had
/// before the request, `entry` the port of the one that it has now, with its user. An Allocate of a client that had its allocation
/// before is a repeat: nothing is written for it, so there may be any number.
fn line_of_success<'a>(
    client: u32,
    done: Done,
    before: Option<u16>,
    entry: Option<(u16, &'a [u8])>,
) -> Line<'a>
    ensures end { done ≡ successes.End → result ≡ lines.OfUser }
    ensures allocation { done ≡ successes.Allocate → before ≡ None → result ≡ lines.OfUser }
    ensures repeat { done ≡ successes.Allocate → IsSome before
        → result ≡ lines.Of (record { ip = client; about = matters.Repeat; cause = None }) }
    ensures refresh { done ≡ successes.Refresh → IfSome entry.entry (λ e. result ≡ lines.OfRefresh e.0) }
    ensures peers { done ≡ successes.Peers → IfSome entry.entry (λ e. result ≡ lines.OfPeers e.1) }
{
    match (done, before, entry) {
        (Done::Allocate, Some(_), _) => Line::Of(Subject {
            ip: client,
            about: About::Repeat,
            cause: None,
        }),
        (Done::Refresh, _, Some((port, _))) => Line::OfRefresh(port),
        (Done::Peers, _, Some((_, user))) => Line::OfPeers(user),
        _ => Line::OfUser,
    }
}

/// What the line of an error is about a subject, to a client whose credentials passed or didn't.
fn line_of_error(subject: Subject, has_passed: bool) -> Line<'static>
    ensures user { IsTrue has_passed → result ≡ lines.Of subject }
    ensures stranger { ¬ (IsTrue has_passed) → result ≡ lines.OfStranger subject }
{
    if has_passed {
        Line::Of(subject)
    } else {
        Line::OfStranger(subject)
    }
}

/// Whether a line has the peers of the request: not of one whose credentials didn't pass.
fn has_peers<A: Allocator + Copy>(answer: Answer<'_, A>, response: Response) -> bool
    ensures success { response ≡ responses.Success → result ≡ true }
    ensures stranger { (response ≡ responses.Error 401) ⊎ (response ≡ responses.Error 438) → result ≡ false }
{
    match response {
        Response::Success => true,
        Response::Error(code) => answer.has_passed(code),
    }
}

/// Whether what goes to a client is data of a peer, and no response.
fn is_data(bytes: &[u8]) -> bool {
    bytes.first() != Some(&1)
}

/// Whether a log has a line of an allocation that expired: since the process was started, since a table was looked at last, and by now.
/// What expired before the start was told by the process that ran then, if one did.
fn is_told(expiry: u64, started: u64, looked: u64, now: u64) -> bool
    ensures { IsTrue result ↔ ((started < expiry) × (looked < expiry) × (expiry ≤ now)) }
{
    started < expiry && looked < expiry && expiry <= now
}

/// The lines of a server's log.
#[derive(Drop)]
pub struct Lines<'l, L: Write + Drop> {
    alloc: Global,
    log: &'l Log<L>,
    limit: LineLimit,
    dropped: DroppedCount,
    // What the system refused to send, and the newest reason.
    unsent: DroppedCount,
    refusal: Option<io::Error>,
    // The second of the newest line of a relay port without a socket.
    exhausted: u64,
    challenged: Challenged,
    // The second at which the process was started.
    started: u64,
    // The moment up to which expired allocations are told.
    looked: Option<Moment>,
    known: Option<Known>,
    usages: Usages,
    // The requests since something was sent last.
    asked: Vec<Asked>,
}

// Clauses see the moment up to which expired allocations are told, and nothing else.
impl<'l, L: Write + Drop> Model for Lines<'l, L> {
    ghost use Rattle.std.specs.Prelude.{Option, ℕ};

    ghost Value = { Option ℕ };

    ghost view = { λ l. l.looked };
}

impl<'l, L: Write + Drop> Lines<'l, L> {
    /// The lines of a server of which nothing is known yet.
    pub fn new(alloc: Global, log: &'l Log<L>) -> Lines<'l, L>
        ensures { result ≡ None }
    {
        Lines {
            alloc,
            log,
            limit: LineLimit::new(alloc, 0),
            dropped: DroppedCount::new(),
            unsent: DroppedCount::new(),
            refusal: None,
            exhausted: 0,
            challenged: Challenged::new(),
            started: 0,
            looked: None,
            known: None,
            usages: Usages::none(alloc),
            asked: Vec::new(alloc),
        }
    }

    /// Learns what it says of a server. From this second on it counts what is relayed by ports of the range, and tells which allocations
    /// expire.
    pub fn know(&mut self, known: Known, ports: (u16, u16), second: u64) -> Result<(), AllocError>
        ensures { self.new ≡ self.old }
    {
        self.usages = Usages::new(self.alloc, ports, second)?;
        self.known = Some(known);
        self.started = second;
        Ok(())
    }

    /// Learns whether the server's clock is ahead of the system's.
    pub fn set_ahead(&mut self, is_ahead: bool)
        ensures { self.new ≡ self.old }
    {
        if let Some(known) = &mut self.known {
            known.is_ahead = is_ahead;
        }
    }

    /// Writes a line. If that can't be done it is counted.
    fn put(&mut self, second: u64, user: ShownName<'_>, text: Result<String, AllocError>)
        ensures { self.new ≡ self.old }
    {
        let done = match text {
            Ok(text) => self.log.write(second, user, text.as_str()),
            Err(_) => false,
        };
        if !done {
            self.limit.lose(1);
        }
    }

    // Says how often that came of which a second had one line.
    fn tell_repeats(&mut self, second: u64, counts: &[Counted])
        ensures { self.new ≡ self.old }
    {
        for counted in counts {
            if counted.count > 1 {
                let text = repeated_text(self.alloc, counted);
                self.put(second, NOBODY, text);
            }
        }
    }

    // Says how often each allocation was refreshed that had one line for it.
    fn tell_refreshes(&mut self, second: u64, refreshes: &Tally)
        ensures { self.new ≡ self.old }
    {
        for (key, count) in refreshes.counts() {
            if *count > 1 {
                let text = refreshes_text(self.alloc, key.as_slice(), *count);
                self.put(second, NOBODY, text);
            }
        }
    }

    // Says how many lines of peers of each user were left out.
    fn tell_peers(&mut self, second: u64, peers: &Tally)
        ensures { self.new ≡ self.old }
    {
        for (user, count) in peers.counts() {
            if let Some(left_out) = peers_left_out(*count) {
                let text = format!(in self.alloc; "left out {left_out} x permit or bind");
                self.put(second, ShownName(user.as_slice()), text);
            }
        }
    }

    fn tell_left_out(&mut self, second: u64, ended: &LineLimit)
        ensures { self.new ≡ self.old }
    {
        match left_out_text(self.alloc, ended) {
            Ok(None) => {}
            Ok(Some(text)) => {
                if !self.log.write(second, NOBODY, text.as_str()) {
                    self.limit.lose(ended.lost().saturating_add(1));
                }
            }
            Err(_) => self.limit.lose(ended.lost().saturating_add(1)),
        }
    }

    fn tell_dropped(&mut self, second: u64)
        ensures { self.new ≡ self.old }
    {
        let dropped = self.dropped.begin(second);
        if dropped == 0 {
            return;
        }
        let text = format!(in self.alloc; "dropped {dropped} requests: too many wait for the disk");
        let done = match text {
            Ok(text) => self.log.write(second, NOBODY, text.as_str()),
            Err(_) => false,
        };
        if !done {
            self.dropped.add(dropped);
        }
    }

    fn tell_unsent(&mut self, second: u64)
        ensures { self.new ≡ self.old }
    {
        let unsent = self.unsent.begin(second);
        let Some(reason) = self.refusal else {
            return;
        };
        if 0 < unsent {
            let text = format!(in self.alloc; "{unsent} datagrams not sent: {reason}");
            self.put(second, NOBODY, text);
        }
    }

    // Begins a second, and says what was repeated, left out and dropped in the one before.
    fn begin(&mut self, second: u64)
        ensures { self.new ≡ self.old }
    {
        if let Some(ended) = self.limit.begin(second) {
            self.tell_repeats(second, ended.commits());
            self.tell_repeats(second, ended.users());
            self.tell_repeats(second, ended.strangers());
            self.tell_refreshes(second, ended.refreshes());
            self.tell_peers(second, ended.peers());
            self.tell_left_out(second, &ended);
        }
        self.tell_dropped(second);
        self.tell_unsent(second);
    }

    // What a line of an error is about. None where it has no line: of a 401 by which a client gets the realm and a nonce.
    fn subject<A: Allocator + Copy>(
        &mut self,
        second: u64,
        answer: Answer<'_, A>,
        code: u16,
    ) -> Option<Subject>
        // Only a 401 may have no line.
        ensures none { IfNone result (code ≡ 401) }
        ensures some { IfSome result (λ s. (s.ip ≡ answer.entry.five_tuple.client.ip) × (s.about ≡ matters.Error code)) }
        ensures same { self.new ≡ self.old }
    {
        let cause = match (&self.known, answer.message()) {
            (Some(known), Some(message)) if code == 401 => known.cause(&message, second),
            _ => None,
        };
        if code == 401 && cause.is_none() && !self.challenged.note(answer.five_tuple) {
            return None;
        }
        Some(Subject {
            ip: answer.five_tuple.client.ip,
            about: About::Error(code),
            cause,
        })
    }

    fn success_text<A: Allocator + Copy>(
        &self,
        second: u64,
        answer: Answer<'_, A>,
        message: &Message<'_>,
    ) -> Result<String, AllocError> {
        match (answer.entry(), answer.asked) {
            (None, Some(asked)) => {
                let usage = match asked.port() {
                    Some(port) => self.usages.get(port),
                    None => None,
                };
                end_text(self.alloc, usage, second)
            }
            _ => asked_text(self.alloc, message, answer.bytes),
        }
    }

    // What a line has of the request, behind the response.
    fn rest_text<A: Allocator + Copy>(
        &self,
        second: u64,
        known: &Known,
        answer: Answer<'_, A>,
        message: &Message<'_>,
        response: Response,
    ) -> Result<String, AllocError> {
        match response {
            Response::Success => self.success_text(second, answer, message),
            Response::Error(code) => {
                let has_passed = answer.has_passed(code);
                let name = name_text(self.alloc, answer, message, has_passed)?;
                let reason = reason_text(self.alloc, known, answer, message, code, second)?;
                format!(in self.alloc; "{name}{reason}")
            }
        }
    }

    // The address, the port and the peers of a request.
    fn place_text<A: Allocator + Copy>(
        &self,
        known: &Known,
        answer: Answer<'_, A>,
        message: &Message<'_>,
        response: Response,
    ) -> Result<String, AllocError> {
        let is_in_response = response == Response::Success && message.method() == Method::ALLOCATE;
        let at = at_text(self.alloc, known, answer.five_tuple)?;
        let port = port_text(self.alloc, answer, is_in_response)?;
        let peers = if has_peers(answer, response) {
            peers_text(self.alloc, message)?
        } else {
            String::new(self.alloc)
        };
        format!(in self.alloc; "{at}{port}{peers}")
    }

    fn text<A: Allocator + Copy>(
        &self,
        second: u64,
        answer: Answer<'_, A>,
        response: Response,
    ) -> Result<String, AllocError> {
        let front = response_text(self.alloc, answer.five_tuple, answer.bytes)?;
        let (Some(known), Some(message)) = (&self.known, answer.message()) else {
            return Ok(front);
        };
        let place = self.place_text(known, answer, &message, response)?;
        let rest = self.rest_text(second, known, answer, &message, response)?;
        format!(in self.alloc; "{front}{place}{rest}")
    }

    // Begins to count for an allocation that was made, and anew where one ended.
    fn recount<A: Allocator + Copy>(&mut self, second: u64, answer: Answer<'_, A>)
        ensures { self.new ≡ self.old }
    {
        let Some(asked) = answer.asked else {
            return;
        };
        match (asked.port(), answer.entry()) {
            (None, Some(entry)) => self.usages.begin(entry.port(), second),
            (Some(port), None) => self.usages.begin(port, second),
            _ => {}
        }
    }

    fn put_answer<A: Allocator + Copy>(
        &mut self,
        second: u64,
        answer: Answer<'_, A>,
        response: Response,
    )
        ensures { self.new ≡ self.old }
    {
        let text = self.text(second, answer, response);
        let message = answer.message();
        let user = match (answer.entry(), &message) {
            (Some(entry), _) => ShownName(entry.user()),
            (None, Some(message)) if response == Response::Success => ShownName(
                message
                    .seen_value(AttributeType::USERNAME)
                    .unwrap_or_default(),
            ),
            _ => NOBODY,
        };
        self.put(second, user, text);
    }

    // Says what a client got, if that is logged.
    fn respond<A: Allocator + Copy>(
        &mut self,
        second: u64,
        answer: Answer<'_, A>,
        response: Response,
    )
        ensures { self.new ≡ self.old }
    {
        let line = match response {
            Response::Success => {
                self.challenged.forget(answer.five_tuple);
                line_of_success(
                    answer.five_tuple.client.ip,
                    done_of(answer.bytes),
                    answer.port_before(),
                    answer.entry().map(|entry| (entry.port(), entry.user())),
                )
            }
            Response::Error(code) => match self.subject(second, answer, code) {
                Some(subject) => line_of_error(subject, answer.has_passed(code)),
                None => return,
            },
        };
        // One for which there is no memory to count it has a line, as the first.
        if self.limit.take(line).unwrap_or(Room::Written) == Room::Written {
            self.put_answer(second, answer, response);
        }
        if response == Response::Success {
            self.recount(second, answer);
        }
    }

    // The second of what is sent: that of its moment, or of a later one at which a table was looked at since, so that the log's seconds
    // never go back.
    fn second_of(&self, moment: Moment) -> u64
        ensures { result ≡ option_map_or (λ looked. max looked moment) self.now moment }
    {
        match self.looked {
            Some(looked) if moment < looked => looked.seconds(),
            _ => moment.seconds(),
        }
    }

    // Counts data that was relayed to a client.
    fn count_to_client<A: Allocator + Copy>(
        &mut self,
        table: &Table<A>,
        five_tuple: FiveTuple,
        bytes: usize,
    )
        ensures { self.new ≡ self.old }
    {
        if let Some(entry) = table.get(five_tuple) {
            self.usages.count_to_client(entry.port(), bytes);
        }
    }

    // Sees a reply to a client: a response to one of these requests, or one that has no line. Returns how many of them come before the next
    // response.
    fn see_to_client<A: Allocator + Copy>(
        &mut self,
        second: u64,
        answer: Answer<'_, A>,
        asked: &[Asked],
    ) -> usize
        ensures { self.new ≡ self.old }
    {
        let Answer {
            five_tuple,
            bytes,
            ..
        } = answer;
        let Some(response) = response_of(bytes) else {
            return 0;
        };
        self.begin(second);
        match asked
            .iter()
            .position(|a| a.is_answered_by(five_tuple, bytes))
        {
            Some(place) => {
                let asked = asked.get(place);
                self.respond(second, Answer { asked, ..answer }, response);
                place.saturating_add(1)
            }
            None => {
                self.respond(second, answer, response);
                0
            }
        }
    }

    fn see_each<'t, A: Allocator + Copy>(
        &mut self,
        second: u64,
        table: &'t Table<A>,
        outgoing: &'t [Outgoing<A>],
        asked: &[Asked],
    )
        ensures { self.new ≡ self.old }
    {
        let mut rest = asked;
        for datagram in outgoing {
            match datagram {
                Outgoing::ToClient { five_tuple, bytes } => {
                    let answer = Answer {
                        table,
                        five_tuple: *five_tuple,
                        bytes: bytes.as_slice(),
                        asked: None,
                    };
                    let passed = self.see_to_client(second, answer, rest);
                    rest = rest.get(passed..).unwrap_or_default();
                }
                Outgoing::ToPeer { port, bytes, .. } => {
                    self.usages.count_to_peer(*port, bytes.len());
                }
            }
        }
    }

    /// Sees what a commit handed out and was sent: replies to requests that waited, and data to peers that came after them.
    pub fn see<A: Allocator + Copy>(
        &mut self,
        moment: Moment,
        table: &Table<A>,
        outgoing: &[Outgoing<A>],
    )
        ensures { self.new ≡ self.old }
    {
        let second = self.second_of(moment);
        let mut asked = mem::replace(&mut self.asked, Vec::new(self.alloc));
        self.see_each(second, table, outgoing, asked.as_slice());
        asked.clear();
        self.asked = asked;
    }

    /// Sees what is submitted next, of which it remembers a request. One for which memory lacks has a line with less.
    pub fn see_submitted<A: Allocator + Copy>(&mut self, table: &Table<A>, arrival: &Arrival<'_>)
        ensures { self.new ≡ self.old }
    {
        let Arrival::Client { five_tuple, bytes } = arrival else {
            return;
        };
        if let Ok(Some(asked)) = Asked::new(self.alloc, table, *five_tuple, bytes) {
            let _ = self.asked.push(asked);
        }
    }

    // Says that a peer's data is dropped, if that is for want of a permission under a channel.
    fn hear<A: Allocator + Copy>(&mut self, table: &Table<A>, port: u16, from: Endpoint)
        ensures { self.new ≡ self.old }
    {
        if !self.usages.may_be_cut_off(port) {
            return;
        }
        let (Some(looked), Some((five_tuple, entry))) = (self.looked, table.by_port(port)) else {
            return;
        };
        let second = looked.seconds();
        if self.usages.is_cut_off(entry, from, second) {
            let (client, peer) = (ShownEndpoint(five_tuple.client), ShownEndpoint(from));
            let text = format!(in self.alloc;
                "client {client} drops data port={port} peer={peer}: its permission has expired"
            );
            self.put(second, ShownName(entry.user()), text);
        }
    }

    // Sees the reply to a request that was answered without a commit.
    fn see_reply<'t, A: Allocator + Copy>(
        &mut self,
        table: &'t Table<A>,
        five_tuple: FiveTuple,
        request: &[u8],
        reply: &'t [u8],
    )
        ensures { self.new ≡ self.old }
    {
        let second = self.second_of(table.moment());
        let asked = Asked::new(self.alloc, table, five_tuple, request).unwrap_or_default();
        let answer = Answer {
            table,
            five_tuple,
            bytes: reply,
            asked: None,
        };
        self.see_to_client(second, answer, asked.as_slice());
    }

    /// Sees an arrival that was answered without a commit, and the answer that was sent, if there is one. What is remembered of requests
    /// stays.
    pub fn see_answered<A: Allocator + Copy>(
        &mut self,
        table: &Table<A>,
        arrival: &Arrival<'_>,
        answer: Option<&Outgoing<A>>,
    )
        ensures { self.new ≡ self.old }
    {
        match (arrival, answer) {
            (Arrival::Peer { port, from, .. }, None) => self.hear(table, *port, *from),
            (Arrival::Client { .. }, None) => {}
            (_, Some(Outgoing::ToPeer { port, bytes, .. })) => {
                self.usages.count_to_peer(*port, bytes.len());
            }
            (Arrival::Peer { .. }, Some(Outgoing::ToClient { five_tuple, bytes })) => {
                self.count_to_client(table, *five_tuple, bytes.len());
            }
            (
                Arrival::Client { bytes: request, .. },
                Some(Outgoing::ToClient { five_tuple, bytes }),
            ) => self.see_reply(table, *five_tuple, request, bytes.as_slice()),
        }
    }

    /// Counts a request that was dropped. A line of a later second has how many were.
    pub fn count_dropped(&mut self, moment: Moment)
        ensures { self.new ≡ self.old }
    {
        let second = self.second_of(moment);
        self.begin(second);
        self.dropped.add(1);
    }

    /// Counts what the system refused to send, which isn't relayed. A line of a later second has how much that was, and the newest reason.
    pub fn count_unsent<A: Allocator + Copy>(
        &mut self,
        table: &Table<A>,
        outgoing: &Outgoing<A>,
        reason: io::Error,
    )
        ensures { self.new ≡ self.old }
    {
        let second = self.second_of(table.moment());
        self.begin(second);
        self.unsent.add(1);
        self.refusal = Some(reason);
        match outgoing {
            Outgoing::ToPeer { port, bytes, .. } => {
                self.usages.count_unsent_to_peer(*port, bytes.len());
            }
            Outgoing::ToClient { five_tuple, bytes } => {
                if let (None, Some(entry)) = (
                    response_of(bytes.as_slice()),
                    table.get(*five_tuple),
                ) {
                    self.usages
                        .count_unsent_to_client(entry.port(), bytes.len());
                }
            }
        }
    }

    /// Says that data is lost which was for an address of the server's own, once for an allocation, with the line that allows it.
    pub fn note_lost<A: Allocator + Copy>(&mut self, table: &Table<A>, port: u16, to: Endpoint)
        ensures { self.new ≡ self.old }
    {
        if !self.usages.is_first_lost(port) {
            return;
        }
        if let Some((five_tuple, entry)) = table.by_port(port) {
            let second = self.second_of(table.moment());
            let (client, peer) = (ShownEndpoint(five_tuple.client), ShownEndpoint(to));
            let (ip, at) = (ShownIp(to.ip), to.port);
            let text = format!(in self.alloc;
                "client {client} loses data port={port} peer={peer}: an address of the server's own, without a line local-peer {ip} {at} {at}"
            );
            self.put(second, ShownName(entry.user()), text);
        }
    }

    /// Says that the system had no socket for a relay port, by this number, once a second.
    pub fn note_exhausted(&mut self, moment: Moment, number: i32)
        ensures { self.new ≡ self.old }
    {
        let second = self.second_of(moment);
        self.begin(second);
        if self.exhausted < second {
            self.exhausted = second;
            let reason = io::Error::from_raw_os_error(number);
            let text = format!(in self.alloc; "no socket for a relay port: {reason}");
            self.put(second, NOBODY, text);
        }
    }

    /// Says how long a commit took, if that is logged.
    pub fn note_commit(&mut self, moment: Moment, took: Duration)
        ensures { self.new ≡ self.old }
    {
        let second = self.second_of(moment);
        self.begin(second);
        if is_slow(took) && matches!(self.limit.take(Line::OfCommit), Ok(Room::Written)) {
            let millis = took.as_millis();
            let text = format!(in self.alloc; "commit took {millis} ms");
            self.put(second, NOBODY, text);
        }
    }

    // Says which allocations of a table expired after a second, up to another one.
    fn tell_expired<A: Allocator + Copy>(&mut self, after: u64, second: u64, table: &Table<A>)
        ensures { self.new ≡ self.old }
    {
        for (five_tuple, entry) in table.entries() {
            let (expiry, port) = (entry.expiry(), entry.port());
            if is_told(expiry, self.started, after, second) {
                let text = expired_text(
                    self.alloc,
                    five_tuple,
                    port,
                    self.usages.get(port),
                    second,
                );
                self.put(second, ShownName(entry.user()), text);
                self.usages.begin(port, second);
            }
        }
    }

    /// Looks at a table before what comes at a moment changes it. An allocation that has expired by then ends: nothing that comes can
    /// refresh it.
    pub fn look<A: Allocator + Copy>(&mut self, moment: Moment, table: &Table<A>)
        ensures { self.new ≡ Some moment }
    {
        let looked = self.looked.unwrap_or(table.moment());
        if looked < moment {
            let second = moment.seconds();
            self.begin(second);
            self.tell_expired(looked.seconds(), second, table);
            self.usages.look(table, second);
        }
        self.looked = Some(moment);
    }
}
