mod backlog;
mod machine;
mod ports;
mod received;
mod schedule;
