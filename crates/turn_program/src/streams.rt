//! The descriptors of standard input, output and error.

use libc::net::{MSG_NOSIGNAL, POLLERR, POLLHUP, POLLNVAL, POLLOUT, poll, send};
use libc::types::pollfd;
use libc::write;
use std::convert::AsStr;
use std::fs::{self, File, FileType, Files, OpenOptions};
use std::io::{self, ErrorKind, Write};
use std::os::fd::{AsRawFd, IntoRawFd, RawFd};
use std::os::unix::fs::FileTypeExt;
use turn_disk::is_apart;

/// Opens the folder `/` for each of standard input, output and error that is closed, until the process ends: so no file
/// that is opened later gets its descriptor. A folder can neither be read nor written, so what uses that stream fails.
pub fn fill_streams<R: Files<File = File>>(files: &R) {
    // The system gives the lowest descriptor that is free.
    for _ in 0..3 {
        match File::open(files, "/") {
            Ok(folder) if !is_apart(folder.as_raw_fd()) => {
                let _descriptor = folder.into_raw_fd();
            }
            _ => return,
        }
    }
}

/// The descriptor of standard error.
const STANDARD_ERROR: RawFd = 2;

/// The path by which Linux opens anew what standard error is.
const STANDARD_ERROR_PATH: &str = "/proc/self/fd/2";

/// What kind of file standard error is, if the system tells.
fn standard_error_type<R: Files<File = File>>(files: &R) -> Option<FileType> {
    match fs::metadata(files, STANDARD_ERROR_PATH) {
        Ok(there) => Some(there.file_type()),
        Err(_) => None,
    }
}

/// Opens standard error anew, to be read and written.
fn open_anew<R: Files<File = File>>(files: &R) -> Option<File> {
    let mut options = OpenOptions::new();
    options.read(true).write(true);
    options.open(files, STANDARD_ERROR_PATH).ok()
}

/// Whether a descriptor takes some bytes within so many milliseconds, and somebody reads them.
fn takes_bytes(descriptor: RawFd, millis: i32) -> bool {
    let mut asked = [pollfd {
        fd: descriptor,
        events: POLLOUT,
        revents: 0,
    }];
    poll(&mut asked, millis) > 0
        && asked[0].revents & (POLLOUT | POLLERR | POLLHUP | POLLNVAL) == POLLOUT
}

/// Standard error as a log has it. Where a write would wait, or nobody reads, it fails, and raises no signal: a pipe is opened anew
/// to be read too, so that it has a reader as long as the process runs. A pipe that can't be opened, as that of another user, is
/// written to where it has a reader just before.
#[derive(Drop)]
pub struct LogStream {
    is_socket: bool,
    pipe: Option<File>,
}

impl LogStream {
    /// Looks at what standard error is, and opens it anew if it is a pipe.
    pub fn open<R: Files<File = File>>(files: &R) -> LogStream {
        let (is_socket, is_pipe) = match standard_error_type(files) {
            Some(kind) => (kind.is_socket(), kind.is_fifo()),
            None => (false, false),
        };
        LogStream {
            is_socket,
            pipe: if is_pipe { open_anew(files) } else { None },
        }
    }

    fn descriptor(&self) -> RawFd {
        match &self.pipe {
            Some(pipe) => pipe.as_raw_fd(),
            None => STANDARD_ERROR,
        }
    }
}

impl Write for LogStream {
    fn write(&mut self, buf: &[u8]) -> io::Result<usize> {
        let descriptor = self.descriptor();
        if !takes_bytes(descriptor, 0) {
            return Err(io::Error::from(ErrorKind::WouldBlock));
        }
        let count = if self.is_socket {
            unsafe { send(descriptor, buf, MSG_NOSIGNAL) }
        } else {
            write(descriptor, buf)
        };
        match usize::try_from(count) {
            Ok(count) if count <= buf.len() => Ok(count),
            _ => Err(io::Error::from(ErrorKind::Other)),
        }
    }

    fn flush(&mut self) -> io::Result<()> {
        Ok(())
    }
}

/// How long a write of a server's own lines waits for who reads them, in milliseconds.
const PATIENCE: i32 = 1_000;

/// How many bytes a pipe takes at once, without a wait, where it takes any (`PIPE_BUF`).
const AT_ONCE: usize = 4_096;

/// Whether words, the program's name first, call a server.
pub fn is_server<S: AsStr>(words: &[S]) -> bool {
    match words.get(1) {
        Some(word) => word.as_str() == "serve",
        None => false,
    }
}

/// Standard output or standard error. That of a server isn't waited for without end: where its reader takes nothing for a second, a
/// write fails, and so does each one after it.
#[derive(Drop)]
pub struct LineStream<W: Write + Drop> {
    inner: W,
    // None where it is waited for without end.
    descriptor: Option<RawFd>,
    is_stuck: bool,
}

impl<W: Write + Drop> LineStream<W> {
    /// A writer over that of standard output (1) or standard error (2).
    pub fn new(inner: W, descriptor: RawFd, is_server: bool) -> LineStream<W> {
        LineStream {
            inner,
            descriptor: if is_server { Some(descriptor) } else { None },
            is_stuck: false,
        }
    }
}

impl<W: Write + Drop> Write for LineStream<W> {
    fn write(&mut self, buf: &[u8]) -> io::Result<usize> {
        let Some(descriptor) = self.descriptor else {
            return self.inner.write(buf);
        };
        if self.is_stuck || !takes_bytes(descriptor, PATIENCE) {
            self.is_stuck = true;
            return Err(io::Error::from(ErrorKind::WouldBlock));
        }
        self.inner.write(buf.get(..AT_ONCE).unwrap_or(buf))
    }

    fn flush(&mut self) -> io::Result<()> {
        self.inner.flush()
    }
}
