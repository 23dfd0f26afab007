//! Relay ports with sockets.

ghost use Rattle.std.specs.Prelude.{◌≡◌, ℕ, Bool, IfSome, is_some};
ghost use Rattle.std.specs.BTreeMap.{get};
ghost use Rattle.std.specs.Ordering.{nat_cmp};

use std::alloc::Allocator;
use std::net::Net;
use std::rt::Files;
use turn_ports::RelayAddressGenerator;
use turn_sockets::{BoundSocket, MachineAddresses, SocketPorts};

/// Relay ports with sockets.
pub trait RelaySockets: RelayAddressGenerator {
    /// Whether a port has a socket.
    ghost has_socket: { Self → ℕ → Bool };

    /// The IP address at which the sockets are bound.
    ghost bound: { Self → ℕ };

    /// The socket of a port.
    fn socket(&self, port: u16) -> Option<&BoundSocket>
        ensures found { is_some result ≡ has_socket self.now port }
        ensures at { IfSome result (λ s. s.now ≡ record { ip = bound self.now; port = port }) };

    /// The number of the system's newest refusal to bind a socket that no other port would have changed, as of too many open files, if there
    /// was one since the last call.
    fn take_exhausted(&self) -> Option<i32>;

    /// Reads the addresses of this machine. `None` if the system doesn't list them.
    fn machine<B: Allocator + Copy>(&self, alloc: B) -> Option<MachineAddresses<B>>;
}

impl<'a, R: Net + Files, A: Allocator + Copy> RelaySockets for SocketPorts<'a, R, A> {
    ghost has_socket = { λ ports port. is_some (get nat_cmp ports.sockets port) };

    ghost bound = { λ ports. ports.binder.ip };

    fn socket(&self, port: u16) -> Option<&BoundSocket> {
        self.socket(port)
    }

    fn take_exhausted(&self) -> Option<i32> {
        self.take_exhausted()
    }

    fn machine<B: Allocator + Copy>(&self, alloc: B) -> Option<MachineAddresses<B>> {
        self.machine(alloc).ok()
    }
}
