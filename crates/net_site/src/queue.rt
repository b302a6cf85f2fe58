//! What a till is sent and its socket hasn't taken yet.
ghost use Rattle.std.specs.Prelude.{◌≡◌, ◌≤◌, drop};
ghost use Rattle.std.specs.Vec.{vec_len};

use crate::connection;
use std::alloc::{AllocError, Global};
use std::io::{self, ErrorKind};
use std::net::TcpStream;

/// The most bytes that wait for one till: as many as two of the longest messages have.
const MOST: usize = 131_072;

/// The bytes that wait, with room for all that may.
#[derive(Drop)]
pub(crate) struct Queue {
    bytes: Vec<u8>,
}

/// Drops the first `count` bytes, and moves the others to the beginning.
fn drop_prefix(bytes: &mut Vec<u8>, count: usize)
    requires { count ≤ vec_len bytes.old }
    ensures { bytes.new.items ≡ drop count bytes.old.items }
{
    let end = bytes.len();
    bytes.copy_within(count..end, 0);
    bytes.truncate(end - count);
}

impl Queue {
    /// Nothing waits. No later call takes memory.
    pub(crate) fn new(alloc: Global) -> Result<Queue, AllocError> {
        let bytes = Vec::with_capacity(alloc, MOST)?;
        Ok(Queue { bytes })
    }

    /// Whether nothing waits.
    pub(crate) fn is_empty(&self) -> bool {
        self.bytes.is_empty()
    }

    /// Writes what the socket takes at once of what waits. Where the connection has ended nothing waits any more.
    pub(crate) fn flush(&mut self, stream: &TcpStream) -> io::Result<()> {
        if self.is_empty() {
            return Ok(());
        }
        match connection::write(stream, &self.bytes) {
            Ok(count) => {
                drop_prefix(&mut self.bytes, count);
                Ok(())
            }
            Err(error) => {
                self.bytes.clear();
                Err(error)
            }
        }
    }

    /// Keeps bytes, or fails where they don't fit.
    fn keep(&mut self, bytes: &[u8]) -> io::Result<()> {
        if bytes.len() > MOST.saturating_sub(self.bytes.len()) {
            return Err(io::Error::from(ErrorKind::WouldBlock));
        }
        self.bytes.extend_from_slice(bytes)?;
        Ok(())
    }

    /// Sends bytes after those that wait: what the socket takes is written at once, and the rest waits. Fails where that
    /// doesn't fit.
    pub(crate) fn send(&mut self, stream: &TcpStream, bytes: &[u8]) -> io::Result<()> {
        self.flush(stream)?;
        if !self.is_empty() {
            return self.keep(bytes);
        }
        let count = connection::write(stream, bytes)?;
        self.keep(&bytes[count..])
    }
}
