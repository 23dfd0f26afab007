//! What is done with the sockets while a commit waits for its disk.

ghost use Rattle.std.specs.Prelude.{is_ok};
ghost use Rattle.turn_serving.specs.Reading.{ReadsBeside, ReadsRound};
ghost use Rattle.turn_serving.specs.Sending.{port_sockets};

use crate::error::TurnError;
use crate::listening::Waiting;
use crate::reader::{Intake, Reader, Tally};
use crate::relay_sockets::RelaySockets;
use crate::watch::Watch;
use std::alloc::{Allocator, Global};
use std::marker::{Model, PhantomData};
use std::time::Duration;
use turn_cred::AuthHandler;
use turn_disk::Disk;
use turn_engine::{Beside, WhileCommitting};
use turn_sockets::Schedule;

/// The sockets that may have datagrams, and what they are read with.
#[derive(Drop)]
pub(crate) struct Traffic<A: Allocator = Global> {
    pub(crate) schedule: Schedule<A>,
    pub(crate) intake: Intake<A>,
}

/// The sockets as they are read while a commit waits for its disk.
pub(crate) struct Meanwhile<'l, D: Disk, W: Watch + Drop, A: Allocator = Global> {
    pub(crate) reader: Reader<'l, W, A>,
    pub(crate) waiting: &'l mut Waiting<A>,
    pub(crate) traffic: Traffic<A>,
    // Whether the disk let anything be read.
    pub(crate) is_asked: bool,
    // The first failure of a wait. After it nothing is read.
    pub(crate) fault: Option<TurnError>,
    // Of the server that commits.
    pub(crate) marker: PhantomData<D>,
}

impl<'l, D: Disk, W: Watch + Drop, A: Allocator> Model for Meanwhile<'l, D, W, A> {
    ghost use Rattle.turn_serving.specs.Reading.{MeanwhileState};
    ghost use Rattle.turn_serving.specs.Sending.{addresses_of};

    ghost Value = { MeanwhileState };

    ghost view = { λ m. record { addresses = addresses_of m.reader.listening.now.sockets.items m.reader.listening.now.own; manner = m.reader.manner; backlog = m.traffic.intake.backlog; agenda = m.traffic.schedule; passed = m.traffic.intake.record.passed; fault = m.fault } };
}

impl<'l, D: Disk, W: Watch + Drop, A: Allocator + Copy> Meanwhile<'l, D, W, A> {
    // Looks which sockets got a datagram, and takes a round. If no socket may have more it waits for one, or for the disk's answer, where
    // that ends a wait. Whether anything was taken, or it waited.
    fn round<H: AuthHandler, G: RelaySockets>(
        &mut self,
        beside: &Beside<'_, '_, H, G, A>,
    ) -> Result<bool, TurnError>
        ensures { ReadsRound H.AuthHandler G.RelayAddressGenerator (port_sockets G.has_socket G.bound) beside.now (is_ok result) self.old self.new }
    {
        let Traffic { schedule, intake } = &mut self.traffic;
        let wait = if schedule.is_empty() {
            self.waiting.beside()
        } else {
            Duration::ZERO
        };
        self.reader.begin(self.waiting, schedule, wait)?;
        let Tally { any, .. } = self.reader.round(beside, intake, schedule)?;
        Ok(any || wait != Duration::ZERO)
    }
}

impl<
    'l,
    D: Disk,
    W: Watch + Drop,
    H: AuthHandler,
    G: RelaySockets,
    A: Allocator + Copy,
> WhileCommitting<H, G, A> for Meanwhile<'l, D, W, A> {
    ghost passes = { λ beside old new. ReadsBeside H.AuthHandler G.RelayAddressGenerator (port_sockets G.has_socket G.bound) beside old new };

    fn pass(&mut self, beside: &Beside<'_, '_, H, G, A>) -> bool {
        self.is_asked = true;
        if self.fault.is_some() || !beside.is_at_clock() {
            return false;
        }
        match self.round(beside) {
            Ok(any) => any,
            Err(fault) => {
                self.fault = Some(fault);
                false
            }
        }
    }
}
