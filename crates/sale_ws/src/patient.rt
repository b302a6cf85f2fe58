//! A TCP stream whose writes wait for their peer, for a bounded time.
ghost use Rattle.std.specs.Prelude.{◌≡◌, ◌≤◌, ◌+◌, IfOk, IsOk, OnOk, false, if◌then◌else◌, length, nat_lt};

use libc::net::{POLLOUT, poll};
use libc::types::pollfd;
use std::io::{self, ErrorKind, Read, Write};
use std::net::TcpStream;
use std::os::fd::AsRawFd;

/// How long one wait lasts at most, in milliseconds.
const WAIT: i32 = 5;

/// How often the writes between two reads wait at most, all of them together.
const MOST_WAITS: u8 = 20;

/// A TCP stream that is set to return at once, whose writes wait all the same until their peer takes bytes: 100 milliseconds at most between two
/// reads of it, however many writes there are. Then a write fails, so a peer that reads slowly or not at all holds nobody up for
/// longer.
///
/// Reads don't wait. After one that brought bytes the next finds nothing, whatever has come: who reads until a message is whole comes
/// to an end even if the peer sends parts of one without an end, and reads on when it is asked again.
#[derive(Drop)]
pub struct Patient {
    stream: TcpStream,
    waits: u8,
    has_heard: bool,
}

impl Patient {
    /// This stream.
    pub fn new(stream: TcpStream) -> Patient
        ensures { result ≡ record { stream = stream; waits = 0; has_heard = false } }
    {
        Patient {
            stream,
            waits: 0,
            has_heard: false,
        }
    }

    /// The stream.
    pub fn stream(&self) -> &TcpStream
        ensures { result.now ≡ self.now.stream }
    {
        &self.stream
    }

    /// Waits until the peer may take bytes. False if it has waited too often.
    fn wait(&mut self) -> bool
        ensures allowed { result ≡ nat_lt self.old.waits 20 }
        ensures counted { self.new.waits ≡ (if result then self.old.waits + 1 else self.old.waits) }
    {
        if self.waits >= MOST_WAITS {
            return false;
        }
        self.waits += 1;
        let mut asked = [pollfd {
            fd: self.stream.as_raw_fd(),
            events: POLLOUT,
            revents: 0,
        }];
        let _ = poll(&mut asked, WAIT);
        true
    }

    /// One write that doesn't wait.
    fn write_now(&self, bytes: &[u8]) -> io::Result<usize>
        ensures { IfOk result (λ count. count ≤ length bytes.now) }
    {
        let mut writer = &self.stream;
        writer.write(bytes)
    }

    /// One write, which waits for the peer if need be, as often as there are waits left.
    fn write_waiting(&mut self, bytes: &[u8]) -> io::Result<usize>
        ensures bound { IfOk result (λ count. count ≤ length bytes.now) }
        ensures waits { self.old.waits ≤ self.new.waits }
    {
        for _ in 0..=MOST_WAITS {
            match self.write_now(bytes) {
                Ok(count) => return Ok(count),
                Err(error) => {
                    if error.kind() != ErrorKind::WouldBlock {
                        return Err(error);
                    }
                }
            }
            if !self.wait() {
                return Err(io::Error::from(ErrorKind::TimedOut));
            }
        }
        Err(io::Error::from(ErrorKind::TimedOut))
    }
}

impl Read for Patient {
    fn read(&mut self, buf: &mut [u8]) -> io::Result<usize>
        ensures bound { IfOk result (λ count. count ≤ length buf.new) }
        ensures waits { self.new.waits ≡ 0 }
        ensures heard { IfOk result (λ count. self.new.has_heard ≡ nat_lt 0 count) }
        ensures next { OnOk result (self.old.has_heard ≡ false) }
    {
        self.waits = 0;
        if self.has_heard {
            self.has_heard = false;
            return Err(io::Error::from(ErrorKind::WouldBlock));
        }
        let mut reader = &self.stream;
        let count = reader.read(buf)?;
        self.has_heard = count > 0;
        Ok(count)
    }
}

impl Write for Patient {
    fn write(&mut self, buf: &[u8]) -> io::Result<usize>
        ensures bound { IfOk result (λ count. count ≤ length buf.now) }
        ensures waits { self.old.waits ≤ self.new.waits }
    {
        self.write_waiting(buf)
    }

    fn flush(&mut self) -> io::Result<()>
        ensures done { IsOk result }
    {
        Ok(())
    }
}
