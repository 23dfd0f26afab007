//! Which lines a log has in a second.

ghost use Rattle.std.specs.Prelude.{◌≡◌, ◌≤◌, ◌<◌, ◌+◌, ◌-◌, ◌^◌, ◌==◌, IfOk, None, Ok, OnErr, OnOk, Some, false, if◌then◌else◌, min, nat_lt};
ghost use Rattle.turn_log.specs.Lines.{LinesState, begun, is_of_stranger, key_of, left_out_after, peers_at_most, room_of, taken};
ghost use Rattle.turn_log.specs.Tallies.{count_of, one_more};
ghost use Rattle.turn_log.specs.declared.counts.Subject.{Subject};
ghost use Rattle.turn_log.specs.declared.limit.Line.{Line};
ghost use Rattle.turn_log.specs.declared.counts.Room.TheVariants as rooms;
ghost use Rattle.turn_log.specs.declared.limit.Line.TheVariants as lines;

use crate::counts::{About, Counted, Counts, Room, Subject};
use crate::tally::Tally;
use std::alloc::{AllocError, Global};
use std::marker::Model;
use std::mem;

/// How many subjects of strangers have a line in a second, and in the next one a line of how often they came.
const STRANGERS: usize = 25;

/// How many subjects of users have. With those of strangers and of commits there are at most 172 lines a second, which leaves room
/// below 200 for the lines of the server itself.
const USERS: usize = 60;

/// How many lines of peers a user has in a second.
const PEERS: u64 = 20;

/// How many matters of lines that were left out are told apart. There are fourteen.
const MATTERS: usize = 16;

/// What a slow commit is about.
const COMMIT: Subject = Subject {
    ip: 0,
    about: About::Commit,
    cause: None,
};

/// A line that may be written.
#[derive(Clone, Copy, Debug)]
pub enum Line<'a> {
    /// Of an allocation that a user made, and of the end of one.
    OfUser,
    /// Of a Refresh of the allocation with this relayed port, which goes on.
    OfRefresh(u16),
    /// Of peers to which the user of this name got permissions, or a channel.
    OfPeers(&'a [u8]),
    /// Of a commit that took long.
    OfCommit,
    /// Of an error to a client whose credentials passed, and of an Allocate that was repeated.
    Of(Subject),
    /// Of an error to a client whose credentials didn't pass.
    OfStranger(Subject),
}

/// The lines of a second. Those of allocations and of ends are all written. Of each allocation there is one line of a Refresh, of
/// each user 20 of peers. Of each other subject there is one. What comes beyond that is counted. Strangers, users and slow commits
/// have places of their own; a subject that finds none is counted by what it is about.
#[derive(Drop)]
pub struct LineLimit {
    alloc: Global,
    second: u64,
    strangers: Counts<STRANGERS>,
    users: Counts<USERS>,
    commits: Counts<1>,
    refreshes: Tally,
    peers: Tally,
    left_out: Counts<MATTERS>,
    lost: u64,
}

impl Model for LineLimit {
    ghost use Rattle.std.specs.Coded.{codes};
    ghost use Rattle.turn_log.specs.Lines.{LinesState};
    ghost use Rattle.turn_log.specs.Tallies.{tallied_code};

    ghost Value = { LinesState };

    ghost coded = { Prim.hlevel (codes, tallied_code) };

    ghost view = { λ l. record {
      second = l.second;
      strangers = l.strangers;
      users = l.users;
      commits = l.commits;
      refreshes = l.refreshes;
      peers = l.peers;
      left_out = l.left_out;
      lost = l.lost;
    } };
}

impl LineLimit {
    /// A second without a line.
    pub fn new(alloc: Global, second: u64) -> LineLimit
        ensures { result ≡ begun second }
    {
        LineLimit {
            alloc,
            second,
            strangers: Counts::new(),
            users: Counts::new(),
            commits: Counts::new(),
            refreshes: Tally::new(alloc),
            peers: Tally::new(alloc),
            left_out: Counts::new(),
            lost: 0,
        }
    }

    /// Begins a second, unless it has begun. Returns what there was of the one before.
    pub fn begin(&mut self, second: u64) -> Option<LineLimit>
        ensures goes_on { second ≤ self.old.second → (result ≡ None) × (self.new ≡ self.old) }
        ensures begins { self.old.second < second → (result ≡ Some self.old) × (self.new ≡ begun second) }
    {
        if second <= self.second {
            return None;
        }
        Some(mem::replace(self, LineLimit::new(self.alloc, second)))
    }

    /// Counts by its matter a line about a subject for which there was no place.
    fn leave_out(&mut self, room: Room, subject: Subject)
        ensures { self.new ≡ record self.old { left_out = left_out_after self.old.left_out room subject } }
    {
        if let Room::LeftOut = room {
            let _ = self.left_out.count(Subject {
                ip: 0,
                about: subject.about,
                cause: None,
            });
        }
    }

    /// Counts a Refresh of a port. Its first one in a second is written.
    fn take_refresh(&mut self, port: u16) -> Result<Room, AllocError>
        ensures room { IfOk result (λ room. room ≡ if count_of self.old.refreshes (key_of port) == 0 then rooms.Written else rooms.Repeated) }
        ensures counted { OnOk result (self.new ≡ record self.old { refreshes = one_more self.old.refreshes (key_of port) }) }
        ensures err { OnErr result (self.new ≡ self.old) }
    {
        let is_first = self.refreshes.count(&port.to_be_bytes())? == 0;
        Ok(if is_first {
            Room::Written
        } else {
            Room::Repeated
        })
    }

    /// Counts a line of peers of a user. The first 20 in a second are written.
    fn take_peers(&mut self, user: &[u8]) -> Result<Room, AllocError>
        ensures room { IfOk result (λ room. room ≡ if nat_lt (count_of self.old.peers user.now) peers_at_most then rooms.Written else rooms.Repeated) }
        ensures counted { OnOk result (self.new ≡ record self.old { peers = one_more self.old.peers user.now }) }
        ensures err { OnErr result (self.new ≡ self.old) }
    {
        let has_room = self.peers.count(user)? < PEERS;
        Ok(if has_room {
            Room::Written
        } else {
            Room::Repeated
        })
    }

    /// What comes of a line. It counts as written then, as a repeat, or as left out. After an `Err`, for a Refresh or peers alone, it
    /// isn't counted.
    pub fn take(&mut self, line: Line<'_>) -> Result<Room, AllocError>
        // No line of an allocation or of an end is left out, whatever else there is.
        ensures of_user { line.entry ≡ lines.OfUser → (result ≡ Ok rooms.Written) × (self.new ≡ self.old) }
        ensures room { IfOk result (λ room. room ≡ room_of self.old line.entry) }
        ensures taken { OnOk result (self.new ≡ taken self.old line.entry) }
        ensures err { OnErr result (self.new ≡ self.old) }
    {
        let (room, subject) = match line {
            Line::OfUser => return Ok(Room::Written),
            Line::OfRefresh(port) => return self.take_refresh(port),
            Line::OfPeers(user) => return self.take_peers(user),
            Line::OfCommit => (self.commits.count(COMMIT), COMMIT),
            Line::Of(subject) => (self.users.count(subject), subject),
            Line::OfStranger(subject) => (self.strangers.count(subject), subject),
        };
        self.leave_out(room, subject);
        Ok(room)
    }

    /// Counts lines that could not be written.
    pub fn lose(&mut self, count: u64)
        ensures { self.new ≡ record self.old { lost = min (self.old.lost + count) (2 ^ 64 - 1) } }
    {
        self.lost = self.lost.saturating_add(count);
    }

    /// How often each subject of strangers came that had a line.
    pub fn strangers(&self) -> &[Counted]
        ensures { result.now ≡ self.now.strangers }
    {
        self.strangers.as_slice()
    }

    /// How often each subject of users came that had a line.
    pub fn users(&self) -> &[Counted]
        ensures { result.now ≡ self.now.users }
    {
        self.users.as_slice()
    }

    /// How many slow commits there were, one of which had a line.
    pub fn commits(&self) -> &[Counted]
        ensures { result.now ≡ self.now.commits }
    {
        self.commits.as_slice()
    }

    /// How often each relayed port, in two bytes, was refreshed. The first time had a line.
    pub fn refreshes(&self) -> &Tally
        ensures { result.now ≡ self.now.refreshes }
    {
        &self.refreshes
    }

    /// How many lines of peers each user would have had, of which 20 were written.
    pub fn peers(&self) -> &Tally
        ensures { result.now ≡ self.now.peers }
    {
        &self.peers
    }

    /// How many lines were left out, by what each is about.
    pub fn left_out(&self) -> &[Counted]
        ensures { result.now ≡ self.now.left_out }
    {
        self.left_out.as_slice()
    }

    /// How many lines could not be written.
    pub fn lost(&self) -> u64
        ensures { result ≡ self.now.lost }
    {
        self.lost
    }
}

/// How many lines of peers of a user were left out in a second that would have had so many, if any were.
pub fn peers_left_out(count: u64) -> Option<u64>
    ensures none { count ≤ peers_at_most → result ≡ None }
    ensures some { peers_at_most < count → result ≡ Some (count - peers_at_most) }
{
    match count.checked_sub(PEERS) {
        None | Some(0) => None,
        left_out => left_out,
    }
}

/// What strangers sent decides of no line of a user, nor of a slow commit, whether it is written.
pub fn strangers_hide_no_line_of_a_user()
    ensures { (l : LinesState) (s : Subject) (line : Line) → is_of_stranger line ≡ false
        → room_of (taken l (lines.OfStranger s)) line ≡ room_of l line }
{}
