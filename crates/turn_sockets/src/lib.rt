//! What a server needs of UDP sockets (RFC 8656, over IPv4): relay ports with a socket each, which socket is read next,
//! datagrams as they are received, what waits for a commit, and the moment of a turn.
#![tactic(auto)]

mod address;
mod backlog;
mod bind_record;
mod binder;
mod buffer;
mod held;
mod laws;
mod listening;
mod machine;
mod moment;
mod notify;
mod own;
mod pace;
mod ports;
mod record;
mod schedule;
mod socket;
mod socket_option;

pub use address::{address_of, endpoint_of};
pub use backlog::{Backlog, Room};
pub use buffer::{Buffer, DataIds, DatagramSocket, Received};
pub use held::{HeldFault, MAX_HELD, are_at, held_count, place_fault, take_held};
pub use laws::relay_ports_are_one_address;
pub use listening::{ListeningAddresses, MAX_LISTENING};
pub use machine::{MachineAddresses, Prefix};
pub use moment::{Time, moment_at, moment_now};
pub use notify::notify_ready;
pub use own::OwnAddresses;
pub use pace::Pace;
pub use ports::{Bound, SocketPorts};
pub use record::SocketRecord;
pub use schedule::{
    LISTENING, Schedule, each_listed_socket_is_visited, fresh_sockets_come_first, no_socket_starves,
};
pub use socket::BoundSocket;
pub use socket_option::RECEIVE_BUFFER;
pub use turn_local::{LocalPeer, LocalPeers};
