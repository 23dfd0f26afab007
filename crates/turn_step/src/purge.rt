//! The moment of the table, and ports that are released.

ghost use Rattle.std.specs.Prelude.{◌≡◌, ◌≤◌, ◌<◌, ◌||◌, ℕ, Bool, IfSome, MatchOption, true};
ghost use Rattle.turn_history.specs.Fitting.{is_taken};
ghost use Rattle.turn_history.specs.Laws.{PortsApart, ReservedApart};
ghost use Rattle.turn_ports.specs.Ports.{without_port};
ghost use Rattle.turn_rules.specs.Taking.{is_picked};
ghost use Rattle.turn_step.specs.Holding.{ArePicked};
ghost use Rattle.turn_step.specs.State.{at_moment, IsPurged};

use std::alloc::Allocator;
use turn_ports::RelayAddressGenerator;
use turn_rules::Need;
use turn_table::Table;
use turn_types::Moment;

/// Releases a port, if there is one.
pub(crate) fn release<G: RelayAddressGenerator>(ports: &mut G, port: Option<u16>)
    ensures range { G.range ports.new ≡ G.range ports.old }
    ensures failures { G.failures ports.new ≡ G.failures ports.old }
    ensures held { (held : ℕ → Bool) → G.holds ports.old held →
        MatchOption port (G.holds ports.new held) (λ p. held p ≡ true → G.holds ports.new (without_port held p)) }
{
    if let Some(freed) = port {
        ports.release(freed);
    }
}

/// Releases what was picked for a need, if anything was: of a pair both ports.
pub(crate) fn release_for<G: RelayAddressGenerator>(
    ports: &mut G,
    need: Option<Need>,
    port: Option<u16>,
)
    ensures range { G.range ports.new ≡ G.range ports.old }
    ensures failures { G.failures ports.new ≡ G.failures ports.old }
    // What is left are the ports beside which it was picked.
    ensures held { (held : ℕ → Bool) → IfSome port (ArePicked held need) →
        G.holds ports.old (λ q. is_picked need port q || held q) → G.holds ports.new held }
{
    let Some(first) = port else {
        return;
    };
    ports.release(first);
    if need == Some(Need::Pair) {
        ports.release(first.wrapping_add(1));
    }
}

/// Removes what has expired by a moment, and releases the ports of the allocations that have, and the reserved ports.
fn purge<G: RelayAddressGenerator, A: Allocator + Copy>(
    table: &mut Table<A>,
    ports: &mut G,
    moment: Moment,
)
    requires { table.old.moment ≤ moment }
    ensures table { table.new ≡ at_moment moment table.old }
    ensures range { G.range ports.new ≡ G.range ports.old }
    ensures failures { G.failures ports.new ≡ G.failures ports.old }
    ensures held { PortsApart table.old.contents → ReservedApart table.old.contents →
        G.holds ports.old (is_taken table.old.contents) → G.holds ports.new (is_taken table.new.contents) }
{
    while let Some(port) = table.purge(moment) {
        release(ports, Some(port));
    }
}

/// Brings the table to a moment. Where it is at that moment already nothing has expired, and it isn't searched.
pub(crate) fn advance<G: RelayAddressGenerator, A: Allocator + Copy>(
    table: &mut Table<A>,
    ports: &mut G,
    moment: Moment,
)
    requires { table.old.moment ≤ moment }
    ensures table { IsPurged moment table.old table.new }
    ensures range { G.range ports.new ≡ G.range ports.old }
    ensures failures { G.failures ports.new ≡ G.failures ports.old }
    ensures held { G.holds ports.old (is_taken table.old.contents) → G.holds ports.new (is_taken table.new.contents) }
{
    if table.moment() < moment {
        purge(table, ports, moment);
    }
}
