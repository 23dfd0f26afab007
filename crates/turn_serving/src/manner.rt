//! How turns are taken.

ghost use Rattle.std.specs.Prelude.{◌≡◌};
ghost use Rattle.turn_serving.specs.Manner.{reads_of};

use std::time::Duration;

/// When the requests of clients that change something are committed, and in which order sockets are read. All else is answered as soon as
/// it is read.
#[derive(Clone, Copy, Debug, PartialEq, Eq)]
pub enum Commits {
    /// Requests are committed at the end of each turn. A turn reads each socket that has a datagram once, up to `burst` datagrams of it.
    /// If none has one it waits for one first, at most 50 ms.
    EachTurn,
    /// Requests are committed together, so that a sync seldom holds up data. Up to a batch of them is committed if all that came was
    /// read and no data since the last commit, or if the pause after that is over (four times as long as it took, at most 50 ms). What
    /// comes from a five-tuple after a request that waits, waits too.
    ///
    /// While the disk of a commit lets others pass, as that of an export does, sockets are read too, and then there is no pause.
    ///
    /// Sockets are read in rounds, as `turn_sockets::Schedule` says, an eighth of `burst` datagrams a visit. If none has one a turn
    /// waits for one, at most a second.
    Paced,
}

/// How many visits of sockets that have more there are in a round: together they read `burst` datagrams.
const VISITS: u8 = 8;

/// How turns are taken.
#[derive(Clone, Copy)]
pub(crate) struct Manner {
    pub(crate) commits: Commits,
    /// How many datagrams a turn reads of each socket or, in rounds, of all that have more.
    pub(crate) burst: u8,
}

impl Manner {
    /// How many datagrams are read in a visit of a socket.
    pub(crate) fn reads(self) -> u8
        ensures { result ≡ reads_of self }
    {
        match self.commits {
            Commits::EachTurn => self.burst,
            Commits::Paced => (self.burst / VISITS).max(1),
        }
    }

    /// How long a turn waits at most if no socket has a datagram.
    pub(crate) fn patience(self) -> Duration {
        match self.commits {
            Commits::EachTurn => Duration::from_millis(50),
            Commits::Paced => Duration::from_secs(1),
        }
    }
}
