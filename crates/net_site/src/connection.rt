//! Reads and writes of one connection, none of which waits.
ghost use Rattle.std.specs.Prelude.{◌≡◌, ◌≤◌, length, IfOk};
ghost use Rattle.net_site.specs.inner.Received.{HasCount};

use gw_bytes::LONGEST_CHUNK;
use libc::net::{
    IPPROTO_TCP, SO_KEEPALIVE, SOL_SOCKET, TCP_KEEPCNT, TCP_KEEPIDLE, TCP_KEEPINTVL,
    TCP_USER_TIMEOUT, setsockopt,
};
use std::io::{self, ErrorKind, Read, Write};
use std::net::TcpStream;
use std::os::fd::AsRawFd;

/// After how many seconds of silence the system first asks a peer whether it is still there.
const IDLE: i32 = 30;

/// How many seconds later it asks again.
const INTERVAL: i32 = 10;

/// How often it asks before it gives the connection up.
const PROBES: i32 = 3;

/// How long the system waits for a peer that doesn't acknowledge what was sent, or takes nothing, in milliseconds.
const PATIENCE: i32 = 50_000;

/// The most bytes that a read brings.
const MOST: usize = 512;

/// How many it brings of a peer that has sent more than that. All messages that they complete are handled before another peer is heard:
/// few bytes keep that short where a peer sends many small messages without an end.
const OF_MANY: usize = 128;

/// What a read brings.
#[derive(Clone, Copy)]
pub(crate) enum Received {
    Bytes(usize),
    End,
    NotYet,
}

/// The value of a socket's option that is a number.
fn value_of(number: i32) -> [u8; 16] {
    let mut value = [0; 16];
    value[..4].copy_from_slice(&number.to_ne_bytes());
    value
}

/// Fails where the system has refused an option.
fn check_option(status: i32) -> io::Result<()> {
    if status == 0 {
        Ok(())
    } else {
        Err(io::Error::from(ErrorKind::Other))
    }
}

/// Has the system ask a peer that is silent whether it is still there. A peer that lost its power closes no connection:
/// it would be held for ever.
fn keep_alive(stream: &TcpStream) -> io::Result<()> {
    let fd = stream.as_raw_fd();
    unsafe {
        check_option(setsockopt(fd, SOL_SOCKET, SO_KEEPALIVE, &value_of(1), 4))?;
        check_option(setsockopt(fd, IPPROTO_TCP, TCP_KEEPIDLE, &value_of(IDLE), 4))?;
        check_option(setsockopt(fd, IPPROTO_TCP, TCP_KEEPINTVL, &value_of(INTERVAL), 4))?;
        check_option(setsockopt(fd, IPPROTO_TCP, TCP_KEEPCNT, &value_of(PROBES), 4))?;
        check_option(setsockopt(fd, IPPROTO_TCP, TCP_USER_TIMEOUT, &value_of(PATIENCE), 4))
    }
}

/// Sets a connection so that reads and writes return at once, that what is written is sent at once (Nagle's
/// algorithm would hold a small write back until the peer has acknowledged the one before), and that a peer which is gone
/// without a word is noticed.
pub(crate) fn set_up(stream: &TcpStream) -> io::Result<()> {
    stream.set_nonblocking(true)?;
    stream.set_nodelay(true)?;
    keep_alive(stream)
}

/// How many bytes the next read brings at most.
fn at_once(stream: &TcpStream) -> usize
    ensures { result ≤ 512 }
{
    let mut waiting = [0; MOST + 1];
    match stream.peek(&mut waiting) {
        Ok(count) if count > MOST => OF_MANY,
        Ok(_) | Err(_) => MOST,
    }
}

/// Reads at most so many bytes.
fn read(stream: &TcpStream, buf: &mut [u8; LONGEST_CHUNK], most: usize) -> io::Result<usize>
    requires { most ≤ 512 }
    ensures buf { length buf.new ≡ 4096 }
    ensures count { IfOk result (λ count. count ≤ 4096) }
{
    let mut reader = stream;
    reader.read(&mut buf[..most])
}

/// What one read brings.
///
/// A peer that closed its sending half has ended the connection as one that closed or reset it: each message asks for a
/// reply, and who takes no message any more reads none.
pub(crate) fn hear(stream: &TcpStream, buf: &mut [u8; LONGEST_CHUNK]) -> Received
    ensures buf { length buf.new ≡ 4096 }
    ensures count { HasCount result }
{
    match read(stream, buf, at_once(stream)) {
        Ok(0) => Received::End,
        Ok(count) => Received::Bytes(count),
        Err(error) => match error.kind() {
            ErrorKind::WouldBlock | ErrorKind::Interrupted => Received::NotYet,
            _ => Received::End,
        },
    }
}

/// Reads and drops what has come, some 64 kilobytes at most. False once the connection has ended.
pub(crate) fn skip(stream: &TcpStream) -> bool {
    let mut reader = stream;
    let mut buf = [0; LONGEST_CHUNK];
    for _ in 0..16 {
        match reader.read(&mut buf) {
            Ok(0) => return false,
            Ok(_) => {}
            Err(error) => {
                return match error.kind() {
                    ErrorKind::WouldBlock | ErrorKind::Interrupted => true,
                    _ => false,
                };
            }
        }
    }
    true
}

/// Writes what the socket takes at once, and returns how many bytes that is.
pub(crate) fn write(stream: &TcpStream, bytes: &[u8]) -> io::Result<usize>
    ensures { IfOk result (λ count. count ≤ length bytes.now) }
{
    let mut writer = stream;
    match writer.write(bytes) {
        Ok(count) => Ok(count),
        Err(error) => match error.kind() {
            ErrorKind::WouldBlock | ErrorKind::Interrupted => Ok(0),
            _ => Err(error),
        },
    }
}

/// Sends all of the bytes at once, or fails.
///
/// The system keeps what its peer hasn't read yet: some ten thousand bytes at least, where a command has some hundred. So a peer for
/// which it keeps no more reads nothing.
pub(crate) fn send(stream: &TcpStream, bytes: &[u8]) -> io::Result<()> {
    if write(stream, bytes)? < bytes.len() {
        return Err(io::Error::from(ErrorKind::WouldBlock));
    }
    Ok(())
}
