//! The table.

ghost use Rattle.std.specs.Prelude.{◌≡◌, ℕ, ◌+◌, ◌-◌, ◌^◌, ◌≤◌, ◌<◌, ◌↔◌, IsTrue, IsSome, IsSomeAnd, IfSome, IfNone, OnSome, OnOk, OnErr, MatchOption, Some, None, false, ◌==◌, ◌++◌, ◌∷◌, [], length, slice_get, option_map, option_copied};
ghost use Rattle.std.specs.FinMap as fin;
ghost use Rattle.std.specs.Iterator.{YieldsFirstBy, item_count};
ghost use Rattle.std.specs.List.{count_by};
ghost use Rattle.std.specs.Option.{option_and_then};
ghost use Rattle.std.specs.Str.{bytes_eq};
ghost use Rattle.turn_ports.specs.Ports.{IsLowestFree};
ghost use Rattle.turn_table.specs.Order.{room_of};
ghost use Rattle.turn_table.specs.State.{State};
ghost use Rattle.turn_table.specs.Table.{Agrees, AgreesOncePurged, BecomesFree, IsAbove, IsAboveReserved, RemovesExpired, RemovesReservation, freed_by, port_of_token, room_for, with_allocation, with_entry, with_reserved, without_entry};
ghost use Rattle.turn_history.specs.Act.{act_of};
ghost use Rattle.turn_history.specs.Fitting.{Fits, FitsReservation, Follows, IsInRange, IsReservationInRange, IsUnreserved, PortIsFree, has_port, is_taken};
ghost use Rattle.turn_history.specs.declared.reservation.Reservation.{Reservation};
ghost use Rattle.turn_types.specs.declared.message.Token.{Token};
ghost use Rattle.turn_history.specs.History.{History, Event, Permits, Binds};
ghost use Rattle.turn_history.specs.Laws.{HasChannel, HasPermission, IsEntryAt, IsTableAt};
ghost use Rattle.turn_history.specs.Table.{table, applied, purged, renewed, permitting, binding, no_contents};
ghost use Rattle.turn_history.specs.Table as tables;
ghost use Rattle.turn_types.specs.Limits.{AreInRange};
ghost use Rattle.turn_types.specs.declared.address.FiveTuple.{FiveTuple};

use crate::allocations::Allocations;
use crate::edit::Reserved;
use crate::entry::Entry;
use crate::fits::{fits_channel, fits_permissions};
use crate::search::{expired_reservation_of, named_port_of};
use crate::sorted_map::SortedMap;
use std::alloc::{AllocError, Allocator, Global};
use std::marker::Model;
use turn_history::{Act, ChannelNumber, Reservation};
use turn_ports::PortSet;
use turn_types::{
    Endpoint, FiveTuple, Limits, Moment, PERMISSION_LIFETIME, RESERVATION_LIFETIME, Token,
};

/// The allocations that live at a moment, and the reserved ports.
pub struct Table<A: Allocator = Global> {
    limits: Limits,
    moment: Moment,
    /// The second before which nothing expires, so that a purge before it has nothing to look for.
    quiet_until: u64,
    allocations: Allocations<A>,
    reserved: SortedMap<u16, Reservation, A>,
    room: Option<Reserved>,
}

impl<A: Allocator> Model for Table<A> {
    ghost use Rattle.std.specs.Prelude.{option_map};
    ghost use Rattle.std.specs.Ordering.{nat_cmp};
    ghost use Rattle.turn_table.specs.Kept.{map_in};
    ghost use Rattle.turn_table.specs.Order.{state_of, room_of, IsReady};
    ghost use Rattle.turn_table.specs.State.{State, state_code};

    ghost Value = { State };

    ghost coded = { state_code };

    ghost view = { λ t. state_of t.limits t.moment t.allocations.held (map_in nat_cmp t.reserved) (option_map room_of t.room) };

    ghost invariant = { λ t. IsReady t.limits t.moment t.quiet_until t.allocations (map_in nat_cmp t.reserved) t.reserved.1 (option_map room_of t.room) };
}

// By hand: a derived drop is one step for each field in the proof of each caller.
impl<A: Allocator> Drop for Table<A> {
    fn drop(self) {
        let Table {
            limits: _,
            moment: _,
            quiet_until: _,
            allocations: _,
            reserved: _,
            room: _,
        } = self;
    }
}

/// The entries of a table that are left, ascending by five-tuple.
#[derive(Drop)]
pub struct Entries<'a, A: Allocator = Global> {
    rest: &'a [(FiveTuple, u16)],
    allocations: &'a Allocations<A>,
}

impl<'a, A: Allocator> Model for Entries<'a, A> {
    ghost use Rattle.std.specs.Prelude.{List, IsSome};
    ghost use Rattle.std.specs.Coded.{coded×, coded_list};
    ghost use Rattle.std.specs.FinMap as fin;
    ghost use Rattle.std.specs.List.{AllByRecursion};
    ghost use Rattle.turn_history.specs.Codes.{tuple_code, entry_code};
    ghost use Rattle.turn_history.specs.Table.{Entry};
    ghost use Rattle.turn_types.specs.declared.address.FiveTuple.{FiveTuple};
    ghost use Rattle.turn_table.specs.Live.{listed};

    ghost Value = { List (FiveTuple × Entry) };

    ghost coded = { coded_list (coded× tuple_code entry_code) };

    ghost view = { λ a. listed a.allocations.now.held a.rest.now };

    ghost invariant = { λ a. AllByRecursion (λ p. IsSome (fin.get a.allocations.now.held p.0)) a.rest.now };
}

impl<'a, A: Allocator> Iterator for Entries<'a, A> {
    type Item = (FiveTuple, &'a Entry<A>);

    ghost next_gives = { YieldsFirstBy (λ x. (x.0, x.1.now.entry)) (λ s. s) };

    ghost remaining = { item_count (λ s. s) };

    fn next(&mut self) -> Option<(FiveTuple, &'a Entry<A>)> {
        match self.rest {
            [first, rest @ ..] => {
                self.rest = rest;
                let entry = self.allocations.get(first.0)?;
                Some((first.0, entry))
            }
            [] => None,
        }
    }
}

impl<A: Allocator + Copy> Table<A> {
    /// A table at a moment, without entries.
    ///
    /// ```rust
    /// let table = Table::new(alloc, Limits::MAX, moment);
    /// assert!(rt; table.is_empty() && table.moment() == moment);
    /// ```
    pub fn new(alloc: A, limits: Limits, moment: Moment) -> Table<A>
        ensures { result ≡ record { bounds = limits; moment = moment; contents = no_contents; room = None } }
    {
        // For the proof: limits are in their ranges.
        let _bounds = limits.bounds();
        Table {
            limits,
            moment,
            quiet_until: moment.seconds(),
            allocations: Allocations::new(alloc),
            reserved: SortedMap::new(alloc),
            room: None,
        }
    }

    /// The most that the table may hold.
    pub fn limits(&self) -> Limits
        ensures value { result ≡ self.now.bounds }
        ensures range { AreInRange self.now.bounds }
    {
        self.limits
    }

    /// The moment at which the entries are those that live.
    pub fn moment(&self) -> Moment
        ensures value { result ≡ self.now.moment }
        ensures at { IsTableAt self.now.bounds self.now.moment self.now.contents }
    {
        self.moment
    }

    /// How many entries it has.
    pub fn len(&self) -> usize
        ensures { result ≡ fin.len self.now.contents.entries }
    {
        self.allocations.len()
    }

    /// Whether it has no entry. Ports may be reserved all the same.
    pub fn is_empty(&self) -> bool
        ensures { IsTrue result ↔ (fin.len self.now.contents.entries ≡ 0) }
    {
        self.len() == 0
    }

    /// How many ports are reserved.
    pub fn reserved_len(&self) -> usize
        ensures { result ≡ fin.len self.now.contents.reserved }
    {
        self.reserved.len()
    }

    /// Whether it has as many entries as its limits allow.
    pub fn is_full(&self) -> bool
        ensures { IsTrue result ↔ (self.now.bounds.allocations ≤ fin.len self.now.contents.entries) }
    {
        self.limits.allocations() as usize <= self.len()
    }

    /// The entries, ascending by five-tuple.
    ///
    /// ```rust
    /// machine.step(moment, &Arrival::Client { five_tuple, bytes: &allocate })?;
    /// for (at, entry) in machine.table().entries() {
    ///     assert!(rt; at == five_tuple && entry.permissions().is_empty());
    /// }
    /// assert_eq!(rt; machine.table().len(), 1);
    /// ```
    pub fn entries(&self) -> Entries<'_, A>
        ensures { result ≡ fin.entries self.now.contents.entries }
    {
        Entries {
            rest: self.allocations.order(),
            allocations: &self.allocations,
        }
    }

    /// The last five-tuple, in their order, that has an entry.
    pub fn last(&self) -> Option<FiveTuple>
        ensures { let all = fin.entries self.now.contents.entries in
            result ≡ option_map (λ p. p.0) (slice_get all (length all - 1)) }
    {
        match self.allocations.order().last() {
            Some(slot) => Some(slot.0),
            None => None,
        }
    }

    /// The entry of a five-tuple.
    ///
    /// ```rust
    /// machine.step(moment, &Arrival::Client { five_tuple, bytes: &allocate })?;
    /// let entry = machine.table().get(five_tuple).context("entry")?;
    /// assert_eq!(rt; entry.user(), b"alice".as_slice());
    /// assert_eq!(rt; (entry.port(), entry.expiry()), (50000, 1600));
    /// ```
    pub fn get(&self, tuple: FiveTuple) -> Option<&Entry<A>>
        ensures { option_map (λ e. e.entry) (option_copied result) ≡ fin.get self.now.contents.entries tuple }
    {
        self.allocations.get(tuple)
    }

    /// An entry with a relayed port, and its five-tuple.
    pub fn by_port(&self, port: u16) -> Option<(FiveTuple, &Entry<A>)>
        ensures { MatchOption result (PortIsFree self.now.contents port) (λ x.
            (fin.get self.now.contents.entries x.0 ≡ Some x.1.now.entry) × (x.1.now.entry.port ≡ port)) }
    {
        self.allocations.by_port(port)
    }

    /// Whether an entry has a relayed port.
    pub fn has_port(&self, port: u16) -> bool
        ensures value { result ≡ has_port self.now.contents port }
        ensures free { result ≡ false → PortIsFree self.now.contents port }
    {
        self.by_port(port).is_some()
    }

    /// The reservation of a port (RFC 8656, section 7.2).
    pub fn reserved(&self, port: u16) -> Option<Reservation>
        ensures { result ≡ fin.get self.now.contents.reserved port }
    {
        self.reserved.get(port)
    }

    /// The reserved ports, ascending, each with its reservation.
    pub fn reserved_ports(&self) -> &[(u16, Reservation)]
        ensures { result.now ≡ fin.entries self.now.contents.reserved }
    {
        self.reserved.items()
    }

    /// The reserved port that a token names. No entry has it.
    pub fn by_token(&self, token: &Token) -> Option<u16>
        ensures port { result ≡ port_of_token self.now.contents token.now.0 }
        ensures free { IfSome result (PortIsFree self.now.contents) }
    {
        let ports = self.reserved.items();
        match named_port_of(ports, token) {
            Some(i) => Some(ports[i].0),
            None => None,
        }
    }

    /// How many entries a user made.
    ///
    /// ```rust
    /// machine.step(moment, &Arrival::Client { five_tuple, bytes: &allocate })?;
    /// assert_eq!(rt; machine.table().count_of_user(b"alice"), 1);
    /// assert_eq!(rt; machine.table().count_of_user(b"bob"), 0);
    /// ```
    pub fn count_of_user(&self, user: &[u8]) -> usize
        ensures { result ≡ count_by (λ p. bytes_eq p.1.user user.now) (fin.entries self.now.contents.entries) }
    {
        self.allocations.count_of_user(user)
    }

    /// Whether an address has a permission (RFC 8656, section 9).
    pub fn permitted(&self, tuple: FiveTuple, ip: u32) -> bool
        ensures { IsTrue result ↔ HasPermission self.now.contents tuple ip }
    {
        match self.get(tuple) {
            Some(entry) => entry.is_permitted(ip),
            None => false,
        }
    }

    /// The peer of the channel of a number, which may be any that ChannelData has (RFC 8656, section 12).
    pub fn peer_of(&self, tuple: FiveTuple, number: u16) -> Option<Endpoint>
        ensures { result ≡ option_and_then (λ e. option_map (λ c. c.peer) (fin.get e.channels number)) (fin.get self.now.contents.entries tuple) }
    {
        match self.get(tuple) {
            Some(entry) => match entry.channel(number) {
                Some(channel) => Some(channel.peer),
                None => None,
            },
            None => None,
        }
    }

    /// A channel number that is bound to a peer.
    pub fn channel_to(&self, tuple: FiveTuple, peer: Endpoint) -> Option<ChannelNumber>
        ensures { MatchOption result ((n : ℕ) → ¬ HasChannel self.now.contents tuple n peer) (λ n. HasChannel self.now.contents tuple n peer) }
    {
        match self.get(tuple) {
            Some(entry) => entry.channel_to(peer),
            None => None,
        }
    }

    /// Whether a five-tuple may get an allocation with a port.
    fn fits_allocation(&self, tuple: FiveTuple, port: u16) -> bool
        ensures { IsTrue result ↔ ((fin.get self.now.contents.entries tuple ≡ None) × PortIsFree self.now.contents port
            × (fin.len self.now.contents.entries < self.now.bounds.allocations)) }
    {
        self.get(tuple).is_none() && self.by_port(port).is_none() && !self.is_full()
    }

    /// Whether the port after one may be reserved.
    fn fits_reservation(&self, port: u16) -> bool
        ensures { (token : Token) → (IsTrue result ↔ FitsReservation self.now.bounds self.now.contents port (Some token)) }
    {
        port < u16::MAX
            && self.by_port(port + 1).is_none()
            && self.reserved(port + 1).is_none()
            && self.reserved_len() < self.limits.allocations() as usize
    }

    /// Whether an act of a five-tuple may be the next change.
    pub fn fits(&self, tuple: FiveTuple, act: &Act<A>) -> bool
        ensures { IsTrue result ↔ Fits self.now.bounds self.now.contents tuple (act_of act.now) }
    {
        match act {
            Act::Alloc { port, .. } => self.fits_allocation(tuple, *port),
            Act::AllocEven { port, .. } => {
                self.fits_allocation(tuple, *port) && self.fits_reservation(*port)
            }
            Act::Renew { .. } => self.get(tuple).is_some(),
            Act::Permit { addresses } => match self.get(tuple) {
                Some(entry) => {
                    fits_permissions(entry, addresses.as_slice(), self.limits.permissions())
                }
                None => false,
            },
            Act::Bind { number, peer } => match self.get(tuple) {
                Some(entry) => fits_channel(entry, self.limits, *number, *peer),
                None => false,
            },
        }
    }

    /// Makes room for an act of a five-tuple, which has to be the next change. After an `Err` the limits, the moment
    /// and the entries are as before, and there is room for no act.
    pub fn reserve_for(&mut self, tuple: FiveTuple, act: &Act<A>) -> Result<(), AllocError>
        ensures ok { OnOk result (self.new ≡ record self.old { room = Some (room_for tuple (act_of act.now)) }) }
        ensures err { OnErr result (self.new ≡ record self.old { room = None }) }
    {
        self.reserve(Reserved::for_act(tuple, act))
    }

    /// Makes the room that was asked for.
    fn reserve(&mut self, room: Reserved) -> Result<(), AllocError>
        ensures ok { OnOk result (self.new ≡ record self.old { room = Some (room_of room) }) }
        ensures err { OnErr result (self.new ≡ record self.old { room = None }) }
    {
        self.room = None;
        self.allocations.make_room(room)?;
        self.reserved.reserve(room.ports)?;
        self.room = Some(room);
        Ok(())
    }

    /// Adds the entry of a five-tuple that is above all others, so that a snapshot is restored in the order of its
    /// entries. After an `Err` the limits, the moment and the entries are as before. There is room for no act
    /// afterwards.
    pub fn restore(&mut self, tuple: FiveTuple, entry: Entry<A>) -> Result<(), AllocError>
        requires entry { IsEntryAt self.old.bounds self.old.moment tuple entry.entry }
        requires above { IsAbove self.old.contents tuple }
        requires free { PortIsFree self.old.contents entry.entry.port }
        requires unreserved { IsUnreserved self.old.contents entry.entry.port }
        requires few { fin.len self.old.contents.entries < self.old.bounds.allocations }
        ensures ok { OnOk result (self.new ≡ with_entry self.old tuple entry.entry) }
        ensures entries { OnOk result (fin.entries self.new.contents.entries ≡ fin.entries self.old.contents.entries ++ (tuple, entry.entry) ∷ []) }
        ensures err { OnErr result (self.new ≡ record self.old { room = None }) }
    {
        self.reserve(Reserved::for_entry(tuple))?;
        self.insert_entry(tuple, entry);
        Ok(())
    }

    /// Adds the entry of a five-tuple that has none.
    fn insert_entry(&mut self, tuple: FiveTuple, entry: Entry<A>)
        requires room { IsSomeAnd self.old.room (λ r. r.tuple ≡ tuple) }
        requires absent { fin.get self.old.contents.entries tuple ≡ None }
        requires entry { IsEntryAt self.old.bounds self.old.moment tuple entry.entry }
        requires free { PortIsFree self.old.contents entry.entry.port }
        requires unreserved { IsUnreserved self.old.contents entry.entry.port }
        requires few { fin.len self.old.contents.entries < self.old.bounds.allocations }
        ensures { self.new ≡ with_entry self.old tuple entry.entry }
    {
        self.room = None;
        self.quiet_until = self.quiet_until.min(entry.earliest());
        self.allocations.insert(tuple, entry);
    }

    /// Reserves a port that is above all reserved ports, so that a snapshot is restored in the order of its ports. After
    /// an `Err` the limits, the moment, the entries and the reserved ports are as before. There is room for no act
    /// afterwards.
    pub fn restore_reserved(
        &mut self,
        port: u16,
        reservation: Reservation,
    ) -> Result<(), AllocError>
        requires range { IsReservationInRange self.old.moment port reservation }
        requires above { IsAboveReserved self.old.contents port }
        requires free { PortIsFree self.old.contents port }
        requires few { fin.len self.old.contents.reserved < self.old.bounds.allocations }
        ensures ok { OnOk result (self.new ≡ with_reserved self.old port reservation) }
        ensures ports { OnOk result (fin.entries self.new.contents.reserved ≡ fin.entries self.old.contents.reserved ++ (port, reservation) ∷ []) }
        ensures err { OnErr result (self.new ≡ record self.old { room = None }) }
    {
        self.room = None;
        self.reserved.reserve(1)?;
        self.quiet_until = self.quiet_until.min(reservation.expiry);
        self.reserved.put(port, reservation);
        Ok(())
    }

    /// Adds the entry of a new allocation. It ends the reservation of its port, and makes one of the next port if it has
    /// a token.
    fn allocate(&mut self, tuple: FiveTuple, entry: Entry<A>)
        requires room { IsSomeAnd self.old.room (λ r. (r.tuple ≡ tuple) × IfSome entry.entry.token (λ _. 1 ≤ r.ports)) }
        requires absent { fin.get self.old.contents.entries tuple ≡ None }
        requires free { PortIsFree self.old.contents entry.entry.port }
        requires next { FitsReservation self.old.bounds self.old.contents entry.entry.port entry.entry.token }
        requires at { IsTableAt self.old.bounds self.old.moment (with_allocation self.old tuple entry.entry).contents }
        ensures { self.new ≡ with_allocation self.old tuple entry.entry }
    {
        let (port, token) = (entry.port(), entry.token());
        self.room = None;
        self.quiet_until = self.quiet_until.min(entry.earliest());
        self.allocations.insert(tuple, entry);
        self.reserved.remove(port);
        if let Some(token) = token {
            let expiry = self.moment.seconds() + RESERVATION_LIFETIME;
            self.quiet_until = self.quiet_until.min(expiry);
            self.reserved.put(port + 1, Reservation { token, expiry });
        }
    }

    /// Removes the reservation of a port.
    fn end_reservation(&mut self, reserved_port: u16)
        ensures { self.new ≡ record self.old { contents = record self.old.contents { reserved = fin.remove self.old.contents.reserved reserved_port }; room = None } }
    {
        self.room = None;
        self.reserved.remove(reserved_port);
    }

    /// Removes the entry of a five-tuple, and returns its port.
    fn remove_entry(&mut self, tuple: FiveTuple) -> u16
        requires { IsSome (fin.get self.old.contents.entries tuple) }
        ensures state { self.new ≡ without_entry self.old tuple }
        ensures port { IsSomeAnd (fin.get self.old.contents.entries tuple) (λ e. e.port ≡ result) }
    {
        self.room = None;
        self.allocations.remove(tuple).unwrap()
    }

    /// Sets the expiry time of an entry, in seconds.
    fn renew(&mut self, tuple: FiveTuple, expiry: u64)
        requires { IsSomeAnd (fin.get self.old.contents.entries tuple) (λ e. IsTableAt self.old.bounds self.old.moment (with_entry self.old tuple (renewed expiry e)).contents) }
        ensures { IsSomeAnd (fin.get self.old.contents.entries tuple) (λ e. self.new ≡ with_entry self.old tuple (renewed expiry e)) }
    {
        self.room = None;
        self.quiet_until = self.quiet_until.min(expiry);
        self.allocations.renew(tuple, expiry);
    }

    /// Installs permissions in an entry.
    fn permit(&mut self, tuple: FiveTuple, addresses: &[u32], expiry: u64)
        requires at { IsSomeAnd (fin.get self.old.contents.entries tuple) (λ e. IsTableAt self.old.bounds self.old.moment (with_entry self.old tuple (permitting expiry addresses.now e)).contents) }
        requires room { self.old.room ≡ Some (room_for tuple (Permits addresses.now)) }
        ensures { IsSomeAnd (fin.get self.old.contents.entries tuple) (λ e. self.new ≡ with_entry self.old tuple (permitting expiry addresses.now e)) }
    {
        self.room = None;
        self.quiet_until = self.quiet_until.min(expiry);
        self.allocations.permit(tuple, addresses, expiry);
    }

    /// Binds a channel of an entry.
    fn bind(&mut self, tuple: FiveTuple, number: ChannelNumber, peer: Endpoint)
        requires at { IsSomeAnd (fin.get self.old.contents.entries tuple) (λ e. IsTableAt self.old.bounds self.old.moment (with_entry self.old tuple (binding self.old.moment number peer e)).contents) }
        requires room { self.old.room ≡ Some (room_for tuple (Binds number peer)) }
        ensures { IsSomeAnd (fin.get self.old.contents.entries tuple) (λ e. self.new ≡ with_entry self.old tuple (binding self.old.moment number peer e)) }
    {
        self.room = None;
        let seconds = self.moment.seconds();
        self.quiet_until = self.quiet_until.min(seconds + PERMISSION_LIFETIME);
        self.allocations.bind(tuple, number, peer, seconds);
    }

    /// Applies an act of a five-tuple at the table's moment, in the room that was made for it. Returns the port that
    /// became free, which a Renew of 0 has.
    pub fn apply(&mut self, tuple: FiveTuple, act: Act<A>) -> Option<u16>
        requires reserved { self.old.room ≡ Some (room_for tuple (act_of act)) }
        requires fits { Fits self.old.bounds self.old.contents tuple (act_of act) }
        requires range { IsInRange self.old.bounds (record { moment = self.old.moment; tuple = tuple; act = act_of act }) }
        ensures state { self.new ≡ record self.old { contents = applied self.old.moment tuple (act_of act) self.old.contents; room = None } }
        ensures freed { result ≡ freed_by (act_of act) (fin.get self.old.contents.entries tuple) }
        ensures free { IfSome result (BecomesFree self.old.contents self.new.contents) }
        ensures agrees { (h : History) →
            let e : Event = record { moment = self.old.moment; tuple = tuple; act = act_of act } in
            Follows self.old.bounds h e → Agrees self.old h → Agrees self.new (h ++ e ∷ []) }
    {
        let alloc = self.allocations.allocator();
        let moment = self.moment;
        match act {
            Act::Alloc {
                user,
                port,
                granted,
                tx,
            } => {
                let entry = Entry::allocated(alloc, moment, user, port, granted, tx, None);
                self.allocate(tuple, entry);
                None
            }
            Act::AllocEven {
                user,
                port,
                granted,
                tx,
                token,
            } => {
                let entry = Entry::allocated(alloc, moment, user, port, granted, tx, Some(token));
                self.allocate(tuple, entry);
                None
            }
            Act::Renew { granted } => {
                if granted == 0 {
                    return Some(self.remove_entry(tuple));
                }
                self.renew(tuple, moment.seconds() + u64::from(granted));
                None
            }
            Act::Permit { addresses } => {
                self.permit(
                    tuple,
                    addresses.as_slice(),
                    moment.seconds() + PERMISSION_LIFETIME,
                );
                None
            }
            Act::Bind { number, peer } => {
                self.bind(tuple, number, peer);
                None
            }
        }
    }

    /// Removes an entry, and if there is none a reservation, that has expired by a moment that is not before the table's,
    /// and returns its port. If neither is left, drops the permissions and channels that have expired, and moves the table to the moment. Call it
    /// until `None`; in between the table agrees with no history, but would once it is purged.
    pub fn purge(&mut self, moment: Moment) -> Option<u16>
        requires { self.old.moment ≤ moment }
        ensures one { IfSome result (RemovesExpired moment self.old.contents self.new.contents) }
        ensures free { IfSome result (BecomesFree self.old.contents self.new.contents) }
        ensures others { OnSome result (self.new ≡ record self.old { contents = self.new.contents; room = None }) }
        ensures rest { OnSome result (purged moment self.new.contents ≡ purged moment self.old.contents) }
        ensures fewer { OnSome result (fin.len self.new.contents.entries + fin.len self.new.contents.reserved + 1
            ≡ fin.len self.old.contents.entries + fin.len self.old.contents.reserved) }
        ensures all { IfNone result (self.new ≡ record self.old { moment = moment; contents = purged moment self.old.contents; room = None }) }
        ensures kept { IfNone result (((f : FiveTuple) (e : tables.Entry) → fin.get self.old.contents.entries f ≡ Some e → moment < e.expiry)
            × ((port : ℕ) (r : Reservation) → fin.get self.old.contents.reserved port ≡ Some r → moment < r.expiry)) }
        ensures begins { (h : History) → Agrees self.old h → AgreesOncePurged moment self.old h }
        ensures agrees { (h : History) → AgreesOncePurged moment self.old h →
            MatchOption result (Agrees self.new h) (λ _. AgreesOncePurged moment self.new h) }
    {
        match self.expired(moment) {
            Some(tuple) => Some(self.remove_entry(tuple)),
            None => self.purge_reserved(moment),
        }
    }

    /// The same of reservations, where no entry has expired.
    fn purge_reserved(&mut self, moment: Moment) -> Option<u16>
        requires late { self.old.moment ≤ moment }
        requires entries { (f : FiveTuple) (e : tables.Entry) → fin.get self.old.contents.entries f ≡ Some e → moment < e.expiry }
        ensures one { IfSome result (RemovesReservation moment self.old.contents self.new.contents) }
        ensures others { OnSome result (self.new ≡ record self.old { contents = self.new.contents; room = None }) }
        ensures all { IfNone result (self.new ≡ record self.old { moment = moment; contents = purged moment self.old.contents; room = None }) }
        ensures kept { IfNone result ((port : ℕ) (r : Reservation) → fin.get self.old.contents.reserved port ≡ Some r → moment < r.expiry) }
    {
        match self.expired_reservation(moment) {
            Some(port) => {
                self.end_reservation(port);
                Some(port)
            }
            None => {
                self.settle(moment);
                None
            }
        }
    }

    /// A five-tuple whose entry has expired by a moment.
    fn expired(&self, moment: Moment) -> Option<FiveTuple>
        ensures { MatchOption result ((f : FiveTuple) (e : tables.Entry) → fin.get self.now.contents.entries f ≡ Some e → moment < e.expiry)
            (λ f. IsSomeAnd (fin.get self.now.contents.entries f) (λ e. e.expiry ≤ moment)) }
    {
        if moment.seconds() < self.quiet_until {
            return None;
        }
        self.allocations.expired(moment.seconds())
    }

    /// A port whose reservation has expired by a moment.
    fn expired_reservation(&self, moment: Moment) -> Option<u16>
        ensures { MatchOption result ((port : ℕ) (r : Reservation) → fin.get self.now.contents.reserved port ≡ Some r → moment < r.expiry)
            (λ port. IsSomeAnd (fin.get self.now.contents.reserved port) (λ r. r.expiry ≤ moment)) }
    {
        if moment.seconds() < self.quiet_until {
            return None;
        }
        let ports = self.reserved.items();
        match expired_reservation_of(ports, moment.seconds()) {
            Some(i) => Some(ports[i].0),
            None => None,
        }
    }

    /// Moves a table without expired entries and reservations to a moment.
    fn settle(&mut self, moment: Moment)
        requires late { self.old.moment ≤ moment }
        requires reserved { (port : ℕ) (r : Reservation) → fin.get self.old.contents.reserved port ≡ Some r → moment < r.expiry }
        requires entries { (f : FiveTuple) (e : tables.Entry) → fin.get self.old.contents.entries f ≡ Some e → moment < e.expiry }
        ensures { self.new ≡ record self.old { moment = moment; contents = purged moment self.old.contents; room = None } }
    {
        self.room = None;
        self.moment = moment;
        if self.quiet_until <= moment.seconds() {
            self.allocations.purge(moment.seconds());
            self.quiet_until = self.allocations.quiet_until().min(self.reserved.earliest());
        }
    }
}

impl<A: Allocator + Copy> PortSet for Table<A> {
    ghost has = { λ t port. is_taken t.contents port };

    /// Whether an entry has the port, or it is reserved.
    fn has(&self, port: u16) -> bool
        ensures value { result ≡ is_taken self.now.contents port }
        ensures free { result ≡ false → PortIsFree self.now.contents port }
        ensures unreserved { result ≡ false → IsUnreserved self.now.contents port }
    {
        self.has_port(port) || self.reserved.get(port).is_some()
    }

    /// By halves over the ports that follow one another from the first on, then port by port; after a reserved port again,
    /// from there on.
    fn lowest_free(&self, first: u16, last: u16, even: bool) -> Option<u16>
        ensures { IsLowestFree (first, last) (is_taken self.now.contents) even result }
    {
        let mut from = first;
        loop {
            let port = self.allocations.lowest_free(from, last, even)?;
            if self.reserved.get(port).is_none() {
                return Some(port);
            }
            if port == last {
                return None;
            }
            from = port + 1;
        }
    }
}
