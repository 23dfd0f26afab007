//! What a log counts of each allocation.

use std::alloc::{AllocError, Allocator, Global};
use std::mem;
use turn_log::Traffic;
use turn_table::{Entry, Table};
use turn_types::Endpoint;

/// What was relayed for the allocation of a port.
#[derive(Clone, Copy, Debug, Default)]
pub(crate) struct Usage {
    /// The second from which on it counts: that of the allocation, or that at which this process was started.
    since: u64,
    to_peers: Traffic,
    to_client: Traffic,
    // What of these the system refused to send.
    unsent_to_peers: Traffic,
    unsent_to_client: Traffic,
    // Whether a channel had no permission when the table was looked at last.
    is_lapsed: bool,
    // Whether there was a line of data that is dropped for it.
    is_told: bool,
    // Whether there was a line of data that is lost, since it was for an address of the server's own.
    is_lost_told: bool,
}

impl Usage {
    fn new(second: u64) -> Usage {
        Usage {
            since: second,
            ..Usage::default()
        }
    }

    /// What the line of the end of an allocation has: its age in seconds, and what was relayed.
    pub(crate) fn text(&self, alloc: Global, second: u64) -> Result<String, AllocError> {
        let age = second.saturating_sub(self.since);
        let out = self.to_peers.without(self.unsent_to_peers);
        let back = self.to_client.without(self.unsent_to_client);
        let (sent, sent_bytes) = (out.datagrams, out.bytes);
        let (returned, returned_bytes) = (back.datagrams, back.bytes);
        format!(in alloc;
            " age={age} to-peers={sent}/{sent_bytes} to-client={returned}/{returned_bytes}"
        )
    }
}

/// Whether peers of an address have a permission at a second.
fn permits<A: Allocator + Copy>(entry: &Entry<A>, ip: u32, second: u64) -> bool {
    entry
        .permissions()
        .iter()
        .any(|(at, expiry)| *at == ip && second < *expiry)
}

/// Whether an allocation has a channel at a second to a peer that has no permission.
fn is_lapsed<A: Allocator + Copy>(entry: &Entry<A>, second: u64) -> bool {
    entry.channels().iter().any(|(_, channel)| second < channel.expiry
        && !permits(entry, channel.peer.ip, second))
}

/// The usage of each relayed port.
#[derive(Drop)]
pub(crate) struct Usages {
    first: u16,
    usages: Vec<Usage>,
}

impl Usages {
    /// Of no ports.
    pub(crate) fn none(alloc: Global) -> Usages {
        Usages {
            first: 0,
            usages: Vec::new(alloc),
        }
    }

    /// Of a range of ports, from the first to the last, counted from a second on.
    pub(crate) fn new(alloc: Global, ports: (u16, u16), second: u64) -> Result<Usages, AllocError> {
        let (first, last) = ports;
        let mut usages = Vec::new(alloc);
        usages.resize(
            usize::from(last.saturating_sub(first)) + 1,
            Usage::new(second),
        )?;
        Ok(Usages { first, usages })
    }

    fn place(&self, port: u16) -> Option<usize> {
        Some(usize::from(port.checked_sub(self.first)?))
    }

    pub(crate) fn get(&self, port: u16) -> Option<&Usage> {
        self.usages.get(self.place(port)?)
    }

    fn get_mut(&mut self, port: u16) -> Option<&mut Usage> {
        let place = self.place(port)?;
        self.usages.get_mut(place)
    }

    /// Begins anew for a port, where an allocation began or ended.
    pub(crate) fn begin(&mut self, port: u16, second: u64) {
        if let Some(usage) = self.get_mut(port) {
            *usage = Usage::new(second);
        }
    }

    /// Counts a datagram to a peer.
    pub(crate) fn count_to_peer(&mut self, port: u16, bytes: usize) {
        if let Some(usage) = self.get_mut(port) {
            usage.to_peers.add(bytes);
        }
    }

    /// Counts a datagram to the client.
    pub(crate) fn count_to_client(&mut self, port: u16, bytes: usize) {
        if let Some(usage) = self.get_mut(port) {
            usage.to_client.add(bytes);
        }
    }

    /// Counts a datagram to a peer that the system refused to send.
    pub(crate) fn count_unsent_to_peer(&mut self, port: u16, bytes: usize) {
        if let Some(usage) = self.get_mut(port) {
            usage.unsent_to_peers.add(bytes);
        }
    }

    /// Counts a datagram to the client that the system refused to send.
    pub(crate) fn count_unsent_to_client(&mut self, port: u16, bytes: usize) {
        if let Some(usage) = self.get_mut(port) {
            usage.unsent_to_client.add(bytes);
        }
    }

    /// Whether data of a port is lost for the first time.
    pub(crate) fn is_first_lost(&mut self, port: u16) -> bool {
        match self.get_mut(port) {
            Some(usage) => !mem::replace(&mut usage.is_lost_told, true),
            None => false,
        }
    }

    /// Notes which allocations have channels to peers without a permission.
    pub(crate) fn look<A: Allocator + Copy>(&mut self, table: &Table<A>, second: u64) {
        for (_, entry) in table.entries() {
            if let Some(usage) = self.get_mut(entry.port()) {
                usage.is_lapsed = is_lapsed(entry, second);
            }
        }
    }

    /// Whether data of a peer at a relayed port is dropped because a permission ran out while a channel is bound, for the first time.
    pub(crate) fn is_cut_off<A: Allocator + Copy>(
        &mut self,
        entry: &Entry<A>,
        from: Endpoint,
        second: u64,
    ) -> bool {
        let Some(usage) = self.get_mut(entry.port()) else {
            return false;
        };
        if usage.is_told || entry.channel_to(from).is_none() || permits(entry, from.ip, second) {
            return false;
        }
        usage.is_told = true;
        true
    }

    /// Whether that may be so.
    pub(crate) fn may_be_cut_off(&self, port: u16) -> bool {
        match self.get(port) {
            Some(usage) => usage.is_lapsed && !usage.is_told,
            None => false,
        }
    }
}
