//! Who sees what a server takes and sends.

use std::alloc::Allocator;
use std::io;
use std::time::Duration;
use turn_step::{Arrival, Outgoing};
use turn_table::Table;
use turn_types::{Endpoint, Moment};

/// Sees the turns of a server, and what they send. Nothing that it does changes what a turn does with the server.
pub trait Watch {
    /// The table is brought to this moment next. It is the one before that; what of it has expired by then can't be refreshed any
    /// more.
    fn taking<A: Allocator + Copy>(&self, moment: Moment, table: &Table<A>);

    /// An arrival was answered without a commit, and the answer sent, if there is one. The table has what is staged.
    fn answered<A: Allocator + Copy>(
        &self,
        table: &Table<A>,
        arrival: &Arrival<'_>,
        answer: Option<&Outgoing<A>>,
    );

    /// This is submitted next. The table is the one before it.
    fn submitted<A: Allocator + Copy>(&self, table: &Table<A>, arrival: &Arrival<'_>);

    /// These were handed out by a commit and sent, in this order. The moment is that of the last arrival.
    fn sent<A: Allocator + Copy>(&self, moment: Moment, table: &Table<A>, outgoing: &[Outgoing<A>]);

    /// The system refused to send this, for this reason. It is one of those that `answered` or `sent` shows next.
    fn unsent<A: Allocator + Copy>(
        &self,
        table: &Table<A>,
        outgoing: &Outgoing<A>,
        reason: io::Error,
    );

    /// What the relay port was to send to this address is lost: another program of the server's machine may be there, which is no local peer.
    /// It is one of those that `answered` or `sent` shows next.
    fn lost<A: Allocator + Copy>(&self, table: &Table<A>, port: u16, to: Endpoint);

    /// The system refused a socket for a relay port at this moment, by this number: no other port would have changed that.
    fn exhausted(&self, moment: Moment, number: i32);

    /// A client's datagram was dropped at this moment, since nothing more may wait for a commit.
    fn shed(&self, moment: Moment);

    /// A commit of requests took so long. The moment is that of the last arrival.
    fn committed(&self, moment: Moment, took: Duration);
}

/// Sees nothing.
#[derive(Clone, Copy, Debug)]
pub struct Silent;

impl Watch for Silent {
    fn taking<A: Allocator + Copy>(&self, _moment: Moment, _table: &Table<A>) {}

    fn answered<A: Allocator + Copy>(
        &self,
        _table: &Table<A>,
        _arrival: &Arrival<'_>,
        _answer: Option<&Outgoing<A>>,
    ) {}

    fn submitted<A: Allocator + Copy>(&self, _table: &Table<A>, _arrival: &Arrival<'_>) {}

    fn sent<A: Allocator + Copy>(
        &self,
        _moment: Moment,
        _table: &Table<A>,
        _outgoing: &[Outgoing<A>],
    ) {}

    fn unsent<A: Allocator + Copy>(
        &self,
        _table: &Table<A>,
        _outgoing: &Outgoing<A>,
        _reason: io::Error,
    ) {}

    fn lost<A: Allocator + Copy>(&self, _table: &Table<A>, _port: u16, _to: Endpoint) {}

    fn exhausted(&self, _moment: Moment, _number: i32) {}

    fn shed(&self, _moment: Moment) {}

    fn committed(&self, _moment: Moment, _took: Duration) {}
}
