//! A system whose files of `/proc` are those of a test.

use std::alloc::{Allocator, Global};
use std::env::{Env, FillError};
use std::fs::{File, Files, Metadata, OpenOptions};
use std::io::{self, Empty, Error, ErrorKind};
use std::net::{Net, SocketAddr, TcpListener, TcpStream, UdpSocket};
use std::random::RandomSource;

/// The system, but that a file of `/proc` is the one with its name in the folder that a test runs in. So what a program says of a
/// machine is what the test says, and nothing where there is no such file.
#[derive(Clone, Copy, Drop)]
pub struct ProcInFolder<'a>(pub &'a HostRuntime);

/// Where a file is.
fn place_of(path: &str) -> &str {
    if !path.starts_with("/proc/") {
        return path;
    }
    match path.rsplit_once('/') {
        Some((_, name)) => name,
        None => path,
    }
}

fn unsupported() -> Error {
    Error::from(ErrorKind::Unsupported)
}

impl Files for ProcInFolder<'_> {
    type File = File;

    type Dir = Empty;

    fn open_file(&self, how: &OpenOptions, path: &str) -> io::Result<File> {
        self.0.open_file(how, place_of(path))
    }

    fn open_dir(&self, _path: &str) -> io::Result<Empty> {
        Err(unsupported())
    }

    fn metadata(&self, path: &str) -> io::Result<Metadata> {
        self.0.metadata(place_of(path))
    }

    fn symlink_metadata(&self, _path: &str) -> io::Result<Metadata> {
        Err(unsupported())
    }

    fn copy(&self, _from: &str, _to: &str) -> io::Result<u64> {
        Err(unsupported())
    }

    fn rename(&self, _from: &str, _to: &str) -> io::Result<()> {
        Err(unsupported())
    }

    fn remove_file(&self, _path: &str) -> io::Result<()> {
        Err(unsupported())
    }

    fn create_dir(&self, _path: &str) -> io::Result<()> {
        Err(unsupported())
    }

    fn remove_dir(&self, _path: &str) -> io::Result<()> {
        Err(unsupported())
    }

    fn remove_dir_all<B: Allocator>(&self, _alloc: B, _path: &str) -> io::Result<()> {
        Err(unsupported())
    }
}

impl Net for ProcInFolder<'_> {
    type Stream = TcpStream;

    type Listener = TcpListener;

    fn bind(&self, _addr: SocketAddr) -> io::Result<TcpListener> {
        Err(unsupported())
    }

    fn connect(&self, _addr: SocketAddr) -> io::Result<TcpStream> {
        Err(unsupported())
    }

    fn bind_udp(&self, addr: SocketAddr) -> io::Result<UdpSocket> {
        self.0.bind_udp(addr)
    }
}

impl Env for ProcInFolder<'_> {
    fn arg(&self, i: usize, buf: &mut [u8]) -> Result<usize, FillError> {
        self.0.arg(i, buf)
    }

    fn var(&self, name: &str, buf: &mut [u8]) -> Result<usize, FillError> {
        self.0.var(name, buf)
    }

    fn var_at(&self, i: usize, buf: &mut [u8]) -> Result<usize, FillError> {
        self.0.var_at(i, buf)
    }
}

impl RandomSource for ProcInFolder<'_> {
    fn fill_bytes(&self, buf: &mut [u8]) -> io::Result<()> {
        self.0.fill_bytes(buf)
    }
}

impl Alloc for ProcInFolder<'_> {
    type A = Global;

    fn alloc(&self) -> Global {
        self.0.alloc()
    }
}
