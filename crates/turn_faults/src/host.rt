//! The system that the program runs on.

use std::alloc::AllocGlobal;
use std::env::Env;
use std::fs::File;
use std::net::Net;
use std::random::RandomSource;
use std::rt::Files;

/// The system that the program runs on: its files, sockets, random bytes and environment.
pub trait Host: Files<File = File> + Net + RandomSource + Env + Drop + AllocGlobal {}

impl<R: Files<File = File> + Net + RandomSource + Env + Drop + AllocGlobal> Host for R {}
