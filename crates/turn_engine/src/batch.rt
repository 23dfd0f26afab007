//! The acts that are to be written, as the payload of a frame.

ghost use Rattle.std.specs.Prelude.{◌≡◌, ◌∷◌, [], ◌++◌, ◌+◌, ◌≤◌, ◌<◌, List, IfOk, length, slice_index};
ghost use Rattle.turn_history.specs.Act.{act_of};
ghost use Rattle.turn_history.specs.Fitting.{IsInRange};
ghost use Rattle.turn_history.specs.History.{Event};
ghost use Rattle.turn_record.specs.Bytes as bytes;
ghost use Rattle.turn_record.specs.Records.{Writes, max_payload};

use std::alloc::{AllocError, Allocator, Global};
use std::marker::Model;
use turn_history::Act;
use turn_record::{Version, max_payload, write_act};
use turn_types::{FiveTuple, Limits, Moment};

/// The payload of the acts since the last commit: their number in one byte, and the act entries. Beside it are their five-tuples.
#[derive(Drop)]
pub struct Batch<A: Allocator = Global> {
    limits: Limits,
    version: Version,
    payload: Vec<u8, A>,
    acts: u16,
    tuples: Vec<FiveTuple, A>,
}

impl<A: Allocator> Model for Batch<A> {
    ghost use Rattle.turn_engine.specs.Staged.{Staged, IsSound};
    ghost use Rattle.std.specs.Prelude.{vec_capacity};

    ghost Value = { Staged };

    ghost view = { λ b. record { bounds = b.limits; version = b.version; payload = b.payload.items; acts = b.acts; tuples = b.tuples.items } };

    ghost invariant = { λ b. IsSound b.version b.limits b.acts b.payload.items (vec_capacity b.payload) b.tuples.items (vec_capacity b.tuples) };
}

impl<A: Allocator + Copy> Batch<A> {
    /// A batch of records of a version, without acts, with the memory for as many as the limits allow.
    pub fn new(alloc: A, version: Version, limits: Limits) -> Result<Batch<A>, AllocError>
        ensures { IfOk result (λ b. b ≡ record { bounds = limits; version = version; payload = 0 ∷ []; acts = 0; tuples = [] }) }
    {
        // For the proof: the limits are in their ranges.
        let _bounds = limits.bounds();
        let mut payload = Vec::with_capacity(alloc, max_payload(version, limits))?;
        payload.push(0)?;
        let tuples = Vec::with_capacity(alloc, usize::from(limits.acts()))?;
        Ok(Batch {
            limits,
            version,
            payload,
            acts: 0,
            tuples,
        })
    }
}

impl<A: Allocator> Batch<A> {
    /// How many acts there are.
    pub fn acts(&self) -> u16
        ensures value { result ≡ self.now.acts }
        ensures few { result ≤ self.now.bounds.acts }
        ensures counted { slice_index self.now.payload 0 ≡ self.now.acts }
    {
        self.acts
    }

    /// The payload of a frame with the acts.
    pub fn payload(&self) -> &[u8]
        ensures value { result.now ≡ self.now.payload }
        ensures short { length result.now ≤ max_payload self.now.version self.now.bounds }
    {
        &self.payload
    }

    /// The five-tuples of the acts, in their order.
    pub fn tuples(&self) -> &[FiveTuple]
        ensures { result.now ≡ self.now.tuples }
    {
        &self.tuples
    }

    /// Adds an act, for which there is room and which the version can hold. It takes no memory.
    pub fn push<B: Allocator>(&mut self, moment: Moment, five_tuple: FiveTuple, act: &Act<B>)
        requires few { self.old.acts < self.old.bounds.acts }
        requires in_range { IsInRange self.old.bounds (record { moment = moment; tuple = five_tuple; act = act_of act.now }) }
        requires writes { Writes self.old.version (act_of act.now) }
        ensures bounds { self.new.bounds ≡ self.old.bounds }
        ensures version { self.new.version ≡ self.old.version }
        ensures acts { self.new.acts ≡ self.old.acts + 1 }
        ensures tuples { self.new.tuples ≡ self.old.tuples ++ five_tuple ∷ [] }
        ensures payload { (es : List Event) → self.old.payload ≡ bytes.payload es
            → self.new.payload ≡ bytes.payload (es ++ record { moment = moment; tuple = five_tuple; act = act_of act.now } ∷ []) }
    {
        let Ok(()) = write_act(
            &mut self.payload,
            self.version,
            self.limits,
            moment,
            five_tuple,
            act,
        ) else {
            unreachable!()
        };
        let Ok(()) = self.tuples.push(five_tuple) else {
            unreachable!()
        };
        self.acts += 1;
        self.payload[0] = self.acts as u8;
    }

    /// Removes all acts.
    pub fn clear(&mut self)
        ensures { self.new ≡ record { bounds = self.old.bounds; version = self.old.version; payload = 0 ∷ []; acts = 0; tuples = [] } }
    {
        self.payload.truncate(1);
        self.payload[0] = 0;
        self.acts = 0;
        self.tuples.clear();
    }
}
