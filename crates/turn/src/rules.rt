//! The rules of a server, without a store: what an arrival sends, and what it does to the table.

pub use turn_cred::{AuthHandler, Credentials, Key, Nonces, SharedSecret, Users};
pub use turn_history::{Act, Addresses, Channel, ChannelNumber, Reservation, UserName};
pub use turn_mac::generate_auth_key;
pub use turn_ports::{PortRange, PortSet, RelayAddressGenerator};
pub use turn_step::{Answer, Arrival, Machine, MachineError, Outgoing, Pairs, Step};
pub use turn_table::{Entries, Entry, Table};
pub use turn_types::{
    Bounds, ConfigError, Endpoint, ErrorCode, FiveTuple, IpRange, Limits, Moment, ServerConfig,
    Settings, Token, TxId,
};
