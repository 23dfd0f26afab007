//! A TURN server (RFC 8656 over UDP and IPv4, in this project's profile), over UDP sockets or for programs that bring their own. It has no
//! function of its own: each item is that of a crate below, with its contract.
//!
//! - `rules`: what an arrival sends, and what it does to the table of allocations.
//! - `engine`: the same over a store on a disk, which survives stops at any moment.
//! - `messages`: what a client writes and reads, for tests and for clients.
//! - `scenarios`: servers over a disk in memory that fails and crashes when it is told to, by steps or by a text.
//! - `serving`: the engine over UDP sockets.
//! - `text`: addresses as text.
//!
//! # What a program does, in order
//!
//! 1. A configuration: `ServerConfig::new`, of `Settings` that are in range. `Limits` bound what a server holds.
//! 2. A handler, which knows the keys of users: `Users` (a list), `SharedSecret` (time-limited names), `Credentials` (both), or an
//!    `AuthHandler` of its own, as in `example_handler`. A user's key is `generate_auth_key` of name, realm and password.
//! 3. A generator of relayed ports: `PortRange`, which binds nothing, or a `RelayAddressGenerator` of its own, which may hold a socket for
//!    each port that it gives out.
//! 4. A machine or a server. `Machine::new` is over a `Table` in memory, as in `example_step`. `Server::open` is over a `Disk` with a
//!    store, as in `example_crash`. `format` makes a disk a store once: it has `64 + 2 * area` bytes, and `area` is at least
//!    `least_area` of the limits. `FileDisk` is a file, and `MemoryDisk` is for tests.
//! 5. Datagrams in, each as an `Arrival` at a `Moment`. The moments of a machine or a server never go back, nor do those of all servers over
//!    one store: `Machine::step` requires a moment that is not before `Machine::moment`, and `Server::submit` one that is not before
//!    `Server::clock`.
//! 6. Datagrams out, each as an `Outgoing`. An arrival leads to at most one. `Machine::step` returns it. `Server::submit` stages it, and
//!    `Server::commit` returns all that are staged, in their order.
//!
//! Steps 5 and 6 are these lines of `example_crash`, for a client's request that came at a moment:
//!
//! ```
//! if moment < server.clock() {
//!     bail!("the clock went back");
//! }
//! let arrival = Arrival::Client {
//!     five_tuple: user.five_tuple(),
//!     bytes: &bytes,
//! };
//! server.submit(moment, &arrival)?;
//! match server.commit()?.pop() {
//!     Some(Outgoing::ToClient { bytes, .. }) => Ok(bytes),
//!     _ => bail!("no answer"),
//! }
//! ```
//!
//! A success response may be sent once `Server::commit` has returned it: only then is what it says durable. A commit that fails returns
//! nothing, and the server is stopped: each later call is refused. Then `Server::close` returns the disk, which may be opened
//! again. A program that stores acts itself does so between `Machine::prepare`, which decides, and `Machine::apply`, which returns
//! what is to be sent.
//!
//! Data needn't wait for a commit, nor does a request whose answer is the same for every table: a Binding, or one that is refused for its
//! form or its credentials. `Server::beside` answers these beside what is staged, where they are of a five-tuple of which no act is
//! staged, and what it returns may be sent at once; `Server::commit_while` lends it to a `WhileCommitting`, which is called while the
//! disk's calls wait. They are answered at the clock, which `Server::advance` brings to a later moment, once nothing is staged.
//!
//! # What a program over sockets does
//!
//! In place of steps 4 to 6: `Setup::start`, over a formatted disk, opens the store and binds the sockets, and `Serving::turns` takes what
//! comes and sends what comes of it, as in `example_serve`. A server that ends is one whose turns are counted, with `Commits::EachTurn`;
//! one that stays takes `u64::MAX` turns, with `Commits::Paced`. A `Watch` is told of all that is sent, to log or count it; `Silent` is
//! none.
//!
//! # Examples of calls
//!
//! The documentation of a call that programs make has an example, in the crate that the call is of; `README.md` lists them. The script
//! `tests/doc_examples` compiles each by `rt try` and runs it, without a proof: a program also has to prove what a call requires, as
//! that a moment isn't before the clock. Names are those of this crate's modules, `Context`, `Result` and `bail!` those of `anyhow`.
//! An example is lines of a function that returns a `Result`. What it names and doesn't make is given to it, made as the examples of
//! its call and of others show:
//!
//! - `rt`, the runtime, and `alloc`, its allocator;
//! - `moment`, second 1000; a `peer`; the `five_tuple` of a client; a transaction id, `tx`;
//! - `settings`, and the `config` of these; `users`, of which there is alice, her `key`, and `ports`;
//! - `table`, which is empty, and a `machine` over it; `disk`, with an empty store, and a `server` over it; `serving`, a server over
//!   sockets that listens at `listen`, and its `clock`;
//! - a `nonce` for that client, and `allocate`, the bytes of alice's Allocate with it.
//!
//! # Units
//!
//! - A `Moment` is a number of seconds, below 2^40 - 3,600, since any start that all moments share. Lifetimes are in seconds.
//! - An IPv4 address is a `u32` whose highest byte is the address's first: 192.0.2.1 is `0xC000_0201`. A port is its number.
//! - The bytes of an arrival and of an outgoing datagram are the whole payload of a UDP datagram, as on the wire: numbers in them are in
//!   network byte order. `text::ip` and `text::endpoint` read `192.0.2.1` and `192.0.2.1:3478`; `ShownIp` and `ShownEndpoint` print them.
//! - Sizes and positions on a disk are in bytes.
//!
//! # Errors
//!
//! Calls that allocate return an error where memory is out. After `SubmitError::Memory`, and after an `Err` of `Machine::step`, the
//! clock is at the arrival's moment, what has expired by then is gone, nothing else has changed, and further arrivals are taken.
//! `SubmitError::BatchFull` comes once as many arrivals are staged as `Limits::acts` says, 1 to 64, until the next commit.
#![tactic(auto)]

pub mod engine;
pub mod messages;
pub mod rules;
pub mod scenarios;
pub mod serving;
pub mod text;
