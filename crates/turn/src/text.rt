//! Addresses as text: `192.0.2.1`, and with a port `192.0.2.1:3478`.

pub use turn_config::values::{endpoint, ip, port};
pub use turn_config::{ShownEndpoint, ShownIp};
