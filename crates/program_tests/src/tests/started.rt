//! A server that is started over a disk.

use std::alloc::Global;
use std::rt::Clock;
use turn_config::Configured;
use turn_cred::Credentials;
use turn_disk::Disk;
use turn_serving::{Commits, ListeningSockets, Setup, SocketServing, StartError, Watch};
use turn_sockets::ListeningAddresses;

/// Starts a server as a configuration says. A visit of a socket reads one datagram.
pub fn start<'a, D: Disk + Drop, C: Clock, W: Watch + Drop>(
    rt: &'a HostRuntime,
    configured: Configured<'_>,
    commits: Commits,
    system: &C,
    disk: D,
    watch: W,
) -> Result<SocketServing<'a, D, Credentials, HostRuntime, Global, W>, StartError> {
    let Configured {
        config,
        credentials,
        listen,
        ports,
        local_peers,
        ..
    } = configured;
    let setup = Setup {
        config: &config,
        listen: &ListeningAddresses::one(listen),
        ports,
        relay_bind: None,
        local_peers: &local_peers,
        burst: 1,
        commits,
        seed: [0; 32],
        awaited: None,
    };
    match setup.start(
        rt.alloc(),
        rt,
        system,
        disk,
        credentials,
        ListeningSockets::Bound,
        watch,
    ) {
        Ok(serving) => Ok(serving),
        Err(refused) => Err(refused.fault),
    }
}
