mod codec;
mod cred;
mod mac;
mod ports;
mod requests;
mod types;
