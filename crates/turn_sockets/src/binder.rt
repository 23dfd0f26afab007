//! What binds relay ports, and searches for one that can be bound.

ghost use Rattle.std.specs.Prelude.{◌≡◌, ◌≢◌, ◌<◌, ◌≤◌, ◌+◌, ◌^◌, ◌⊎◌, ◌++◌, ◌∷◌, [], ℕ, Ok, Some, None, IfOk, OnErr};
ghost use Rattle.std.specs.BTreeMap.{IsUnchanged, get};
ghost use Rattle.std.specs.Ordering.{nat_cmp};
ghost use Rattle.turn_sockets.specs.Ports.{AreBound, Binds, Inserts, IsBound, IsExhausted, Keeps, LeavesOut, LeavesOutEach, LeavesOutFrom, Searches, Tries, WasRefused, bound_port, found_port};
ghost use Rattle.turn_sockets.specs.declared.ports.Bound.TheVariants as binds;
ghost use Rattle.turn_sockets.specs.declared.ports.Wanted.TheVariants as wants;

use crate::bind_record::BindRecord;
use crate::ports::{Bound, Search, Wanted};
use crate::socket::BoundSocket;
use crate::socket_option::RECEIVE_BUFFER;
use mio::Registry;
use std::alloc::{AllocError, Allocator};
use std::cell::Cell;
use std::collections::BTreeMap;
use std::io::{self, Error, ErrorKind};
use std::net::Net;
use turn_ports::PortSet;
use turn_types::Endpoint;

/// What opens the sockets of one address.
#[derive(Drop)]
pub(crate) struct Binder<'a, R: Net> {
    pub(crate) net: &'a R,
    pub(crate) registry: Registry,
    // The address on which sockets are bound.
    pub(crate) ip: u32,
    // The number of the system's newest refusal, and of the newest that no port would change. No contract speaks of these.
    pub(crate) refusal: Cell<Option<i32>>,
    pub(crate) exhausted: Cell<Option<i32>>,
}

/// Whether an error of a bind is of its port alone.
fn is_of_port(error: &Error) -> bool {
    matches!(
        error.kind(),
        ErrorKind::AddrInUse | ErrorKind::PermissionDenied
    )
}

impl<'a, R: Net> Binder<'a, R> {
    fn open(&self, port: u16) -> io::Result<BoundSocket>
        ensures { port ≢ 0 → IfOk result (λ s. s ≡ record { ip = self.now.ip; port = port }) }
    {
        let mut socket = BoundSocket::bind(self.net, Endpoint { ip: self.ip, port })?;
        socket.watch(&self.registry, usize::from(port))?;
        // A smaller buffer is no fault.
        let _ = socket.set_receive_buffer(RECEIVE_BUFFER);
        Ok(socket)
    }

    // Port 0 isn't bound, since the system would take another one.
    fn ask<A: Allocator + Copy>(
        &self,
        sockets: &mut BTreeMap<u16, BoundSocket, A>,
        port: u16,
    ) -> Result<Bound, AllocError>
        requires { get nat_cmp sockets.old port ≡ None }
        ensures bound { result ≡ Ok binds.Done → IsBound self.now.ip sockets.old sockets.new port }
        ensures inserted { result ≡ Ok binds.Done → Inserts sockets.old sockets.new port }
        ensures refused { result ≢ Ok binds.Done → IsUnchanged sockets.old sockets.new }
        ensures never { port ≡ 0 → result ≢ Ok binds.Done }
    {
        if port == 0 {
            return Ok(Bound::Unavailable);
        }
        let error = match self.open(port) {
            Ok(socket) => {
                sockets.insert(port, socket)?;
                return Ok(Bound::Done);
            }
            Err(error) => error,
        };
        self.refusal.set(error.raw_os_error());
        if is_of_port(&error) {
            Ok(Bound::Unavailable)
        } else {
            self.exhausted.set(error.raw_os_error());
            Ok(Bound::Exhausted)
        }
    }

    // Binds a port that has no socket yet, and notes what came of it. Port 0 is unavailable.
    pub(crate) fn bind<A: Allocator + Copy>(
        &self,
        sockets: &mut BTreeMap<u16, BoundSocket, A>,
        asked: &mut BindRecord,
        port: u16,
    ) -> Result<Bound, AllocError>
        requires { get nat_cmp sockets.old port ≡ None }
        ensures bound { result ≡ Ok binds.Done → IsBound self.now.ip sockets.old sockets.new port }
        ensures inserted { result ≡ Ok binds.Done → Inserts sockets.old sockets.new port }
        ensures refused { result ≢ Ok binds.Done → IsUnchanged sockets.old sockets.new }
        ensures never { port ≡ 0 → result ≢ Ok binds.Done }
        ensures noted { IfOk result (λ bound. asked.new.latest ≡ asked.old.latest ++ (port, bound) ∷ []) }
        ensures unavailable { result ≡ Ok binds.Unavailable → WasRefused asked.new.latest port }
        ensures exhausted { result ≡ Ok binds.Exhausted → IsExhausted asked.new.latest }
        ensures keeps { Keeps asked.old.latest asked.new.latest }
        ensures earlier { asked.new.earlier ≡ asked.old.earlier }
    {
        let bound = self.ask(sockets, port)?;
        asked.note(port, bound);
        Ok(bound)
    }

    // Binds a port and the next one, which have no socket yet, or neither of them.
    fn bind_both<A: Allocator + Copy>(
        &self,
        sockets: &mut BTreeMap<u16, BoundSocket, A>,
        asked: &mut BindRecord,
        port: u16,
    ) -> Result<Bound, AllocError>
        requires next { port + 1 < 2 ^ 16 }
        requires unbound { (get nat_cmp sockets.old port ≡ None) × (get nat_cmp sockets.old (port + 1) ≡ None) }
        ensures bound { result ≡ Ok binds.Done → AreBound self.now.ip sockets.old sockets.new port }
        ensures refused { result ≢ Ok binds.Done → IsUnchanged sockets.old sockets.new }
        ensures never { port ≡ 0 → result ≢ Ok binds.Done }
        ensures unavailable { result ≡ Ok binds.Unavailable → WasRefused asked.new.latest port ⊎ WasRefused asked.new.latest (port + 1) }
        ensures exhausted { result ≡ Ok binds.Exhausted → IsExhausted asked.new.latest }
        ensures keeps { Keeps asked.old.latest asked.new.latest }
        ensures earlier { asked.new.earlier ≡ asked.old.earlier }
    {
        let first = self.bind(sockets, asked, port)?;
        if first != Bound::Done {
            return Ok(first);
        }
        let second = self.bind(sockets, asked, port + 1);
        let is_bound = second == Ok(Bound::Done);
        if !is_bound {
            let _ = sockets.remove(&port);
        }
        second
    }

    // Binds a port if it is free, and even where `even` asks for it; `None` where it isn't.
    fn bind_free<A: Allocator + Copy, S: PortSet>(
        &self,
        sockets: &mut BTreeMap<u16, BoundSocket, A>,
        asked: &mut BindRecord,
        range: (u16, u16),
        port: u16,
        taken: &S,
        even: bool,
    ) -> Result<Option<Bound>, AllocError>
        requires { (range.0 ≤ port) × (port ≤ range.1) }
        ensures tried { IfOk result (Tries range (S.has taken.now) (wants.Port even) port) }
        ensures left { IfOk result (LeavesOut (WasRefused asked.new.latest) (IsExhausted asked.new.latest) sockets.old (wants.Port even) port) }
        ensures bound { IfOk result (λ tried. Binds self.now.ip (wants.Port even) sockets.old sockets.new (bound_port port tried)) }
        ensures never { IfOk result (λ tried. bound_port port tried ≢ Some 0) }
        ensures err { OnErr result (IsUnchanged sockets.old sockets.new) }
        ensures keeps { Keeps asked.old.latest asked.new.latest }
        ensures earlier { asked.new.earlier ≡ asked.old.earlier }
    {
        if even && port % 2 == 1 {
            return Ok(None);
        }
        // A look-up here costs less than one in the table.
        if sockets.contains_key(&port) {
            return Ok(Some(Bound::Unavailable));
        }
        if taken.has(port) {
            return Ok(None);
        }
        Ok(Some(self.bind(sockets, asked, port)?))
    }

    // Binds a port and the next one if they are a free pair; `None` where they aren't.
    fn bind_pair<A: Allocator + Copy, S: PortSet>(
        &self,
        sockets: &mut BTreeMap<u16, BoundSocket, A>,
        asked: &mut BindRecord,
        range: (u16, u16),
        port: u16,
        taken: &S,
    ) -> Result<Option<Bound>, AllocError>
        requires { (range.0 ≤ port) × (port ≤ range.1) }
        ensures tried { IfOk result (Tries range (S.has taken.now) wants.Pair port) }
        ensures left { IfOk result (LeavesOut (WasRefused asked.new.latest) (IsExhausted asked.new.latest) sockets.old wants.Pair port) }
        ensures bound { IfOk result (λ tried. Binds self.now.ip wants.Pair sockets.old sockets.new (bound_port port tried)) }
        ensures never { IfOk result (λ tried. bound_port port tried ≢ Some 0) }
        ensures err { OnErr result (IsUnchanged sockets.old sockets.new) }
        ensures keeps { Keeps asked.old.latest asked.new.latest }
        ensures earlier { asked.new.earlier ≡ asked.old.earlier }
    {
        if port % 2 == 1 || range.1 <= port {
            return Ok(None);
        }
        if sockets.contains_key(&port) || sockets.contains_key(&(port + 1)) {
            return Ok(Some(Bound::Unavailable));
        }
        if taken.has(port) || taken.has(port + 1) {
            return Ok(None);
        }
        Ok(Some(self.bind_both(sockets, asked, port)?))
    }

    // Binds what is wanted at a port of a range; `None` where it isn't free. What has a socket and no allocation isn't available.
    fn bind_wanted<A: Allocator + Copy, S: PortSet>(
        &self,
        sockets: &mut BTreeMap<u16, BoundSocket, A>,
        asked: &mut BindRecord,
        range: (u16, u16),
        port: u16,
        taken: &S,
        wanted: Wanted,
    ) -> Result<Option<Bound>, AllocError>
        requires { (range.0 ≤ port) × (port ≤ range.1) }
        ensures tried { IfOk result (Tries range (S.has taken.now) wanted port) }
        ensures left { IfOk result (LeavesOut (WasRefused asked.new.latest) (IsExhausted asked.new.latest) sockets.old wanted port) }
        ensures bound { IfOk result (λ tried. Binds self.now.ip wanted sockets.old sockets.new (bound_port port tried)) }
        ensures never { IfOk result (λ tried. bound_port port tried ≢ Some 0) }
        ensures err { OnErr result (IsUnchanged sockets.old sockets.new) }
        ensures keeps { Keeps asked.old.latest asked.new.latest }
        ensures earlier { asked.new.earlier ≡ asked.old.earlier }
    {
        match wanted {
            Wanted::Port { even } => self.bind_free(sockets, asked, range, port, taken, even),
            Wanted::Pair => self.bind_pair(sockets, asked, range, port, taken),
        }
    }

    // Binds what is wanted at the first port from one to another, both included. Ends where the system has no socket for any port.
    #[tactic(auto, using(crate::proofs::Finding::left_keeps))]
    fn search<A: Allocator + Copy, S: PortSet>(
        &self,
        sockets: &mut BTreeMap<u16, BoundSocket, A>,
        asked: &mut BindRecord,
        from: u16,
        to: u16,
        taken: &S,
        wanted: Wanted,
    ) -> Result<Search, AllocError>
        ensures found { IfOk result (Searches (from, to) (S.has taken.now) wanted) }
        ensures left { IfOk result (LeavesOutEach (WasRefused asked.new.latest) (IsExhausted asked.new.latest) sockets.old (from, to) (S.has taken.now) wanted) }
        ensures bound { IfOk result (λ search. Binds self.now.ip wanted sockets.old sockets.new (found_port search)) }
        ensures never { IfOk result (λ search. found_port search ≢ Some 0) }
        ensures err { OnErr result (IsUnchanged sockets.old sockets.new) }
        ensures keeps { Keeps asked.old.latest asked.new.latest }
        ensures earlier { asked.new.earlier ≡ asked.old.earlier }
    {
        let mut has_failed = false;
        for port in from..=to {
            match self.bind_wanted(sockets, asked, (from, to), port, taken, wanted)? {
                None => {}
                Some(Bound::Done) => return Ok(Search::Found(port)),
                Some(Bound::Unavailable) => has_failed = true,
                Some(Bound::Exhausted) => return Ok(Search::Exhausted),
            }
        }
        if has_failed {
            Ok(Search::Failed)
        } else {
            Ok(Search::Nothing)
        }
    }

    // Binds what is wanted at the first port of a range from one of its ports on, or else at the first one below. A pair that begins
    // below that port ends at it or below, so it is in one of both parts.
    #[tactic(auto, using(crate::proofs::Finding::searched))]
    pub(crate) fn search_around<A: Allocator + Copy, S: PortSet>(
        &self,
        sockets: &mut BTreeMap<u16, BoundSocket, A>,
        asked: &mut BindRecord,
        range: (u16, u16),
        from: u16,
        taken: &S,
        wanted: Wanted,
    ) -> Result<Search, AllocError>
        requires { (range.0 ≤ from) × (from ≤ range.1) }
        ensures found { IfOk result (Searches range (S.has taken.now) wanted) }
        ensures left { IfOk result (LeavesOutFrom (WasRefused asked.new.latest) (IsExhausted asked.new.latest) sockets.old range from (S.has taken.now) wanted) }
        ensures bound { IfOk result (λ search. Binds self.now.ip wanted sockets.old sockets.new (found_port search)) }
        ensures never { IfOk result (λ search. found_port search ≢ Some 0) }
        ensures err { OnErr result (IsUnchanged sockets.old sockets.new) }
        ensures keeps { Keeps asked.old.latest asked.new.latest }
        ensures earlier { asked.new.earlier ≡ asked.old.earlier }
    {
        let (first, last) = range;
        let upper = self.search(sockets, asked, from, last, taken, wanted)?;
        if let Search::Found(_) | Search::Exhausted = upper {
            return Ok(upper);
        }
        let lower = self.search(sockets, asked, first, from, taken, wanted)?;
        match lower {
            Search::Nothing => Ok(upper),
            Search::Found(_) | Search::Failed | Search::Exhausted => Ok(lower),
        }
    }
}
