//! A server over UDP sockets and any disk: how it is started, and the turns that it takes.

pub use turn_serving::{
    Commits, ListeningSockets, Needed, RelaySockets, Serving, Setup, SetupError, Silent,
    SocketFault, SocketServing, StartError, TurnError, Watch,
};
pub use turn_sockets::{
    BoundSocket, ListeningAddresses, LocalPeer, LocalPeers, MAX_LISTENING, SocketPorts, Time,
};
