//! The reply of the server to one datagram of a client, over an empty table.

ghost use Rattle.std.specs.Prelude.{◌≡◌, IfOk, None, option_map};
ghost use Rattle.turn_codec.specs.Grammar.{Content, Encodes};
ghost use Rattle.turn_history.specs.Table.{no_contents};
ghost use Rattle.turn_commands.specs.Profile.{answer, profile, reply_in};
ghost use Rattle.turn_step.specs.Views.{sent_of};

use std::alloc::{AllocError, Allocator};
use turn_cred::{AuthHandler, Key};
use turn_ports::PortRange;
use turn_step::{Arrival, Machine, Outgoing, Pairs};
use turn_table::Table;
use turn_types::{ConfigError, FiveTuple, Limits, Moment, ServerConfig, Settings};

/// The relay address 198.51.100.1, which no answer over an empty table names.
const RELAY: u32 = 0xC633_6401;

/// Knows no user.
#[derive(Clone, Copy)]
struct NoUsers;

impl AuthHandler for NoUsers {
    ghost key_of = { λ _ _ _. None };

    fn key(&self, _username: &[u8], _realm: &[u8]) -> Option<Key> {
        None
    }
}

fn make_config<A: Allocator + Copy>(alloc: A) -> Result<ServerConfig<A>, AllocError>
    ensures { IfOk result (λ c. c ≡ profile) }
{
    match ServerConfig::new(
        alloc,
        Settings {
            realm: b"example.org",
            secret: [0; 32],
            relay: RELAY,
            quota: 10,
            denied: &[],
            limits: Limits::MAX,
        },
    ) {
        Ok(config) => Ok(config),
        Err(ConfigError::Memory) => Err(AllocError),
        Err(_) => unreachable!(),
    }
}

/// A server without users, over an empty table.
fn make_machine<A: Allocator + Copy>(
    alloc: A,
    moment: Moment,
) -> Result<Machine<NoUsers, PortRange, A>, AllocError>
    ensures config { IfOk result (λ m. m.config ≡ profile) }
    ensures table { IfOk result (λ m. m.table ≡ record { bounds = profile.limits; moment = moment; contents = no_contents; room = None }) }
{
    let config = make_config(alloc)?;
    let ports = PortRange::new(50000, 59999).unwrap();
    let table = Table::new(alloc, config.limits(), moment);
    Ok(Machine::new(alloc, config, NoUsers, ports, table, Pairs::Refused)?)
}

/// The bytes that are sent to the client, if any are.
fn to_client<A: Allocator>(outgoing: Option<Outgoing<A>>) -> Option<Vec<u8, A>>
    ensures { option_map (λ v. v.items) result ≡ reply_in (option_map sent_of outgoing) }
{
    match outgoing? {
        Outgoing::ToClient { bytes, .. } => Some(bytes),
        Outgoing::ToPeer { .. } => None,
    }
}

/// The reply to a datagram at a moment, or `None` if it is dropped.
pub fn reply_to<A: Allocator + Copy>(
    alloc: A,
    five_tuple: FiveTuple,
    moment: Moment,
    datagram: &[u8],
) -> Result<Option<Vec<u8, A>>, AllocError>
    ensures message { (m : Content) → Encodes datagram.now m → IfOk result (λ r. option_map (λ v. v.items) r
        ≡ answer five_tuple moment (record { bytes = datagram.now; content = m })) }
    ensures malformed { ((m : Content) → ¬ (Encodes datagram.now m)) → IfOk result (λ r. r ≡ None) }
{
    let mut machine = make_machine(alloc, moment)?;
    let arrival = Arrival::Client {
        five_tuple,
        bytes: datagram,
    };
    Ok(to_client(machine.step(moment, &arrival)?))
}
