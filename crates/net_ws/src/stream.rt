//! How a connection is set up.
use libc::net::{
    IPPROTO_TCP, SO_KEEPALIVE, SOL_SOCKET, TCP_KEEPCNT, TCP_KEEPIDLE, TCP_KEEPINTVL,
    TCP_USER_TIMEOUT, setsockopt,
};
use std::io::{self, ErrorKind};
use std::net::TcpStream;
use std::os::fd::AsRawFd;

/// After how many seconds of silence the system first asks a peer whether it is still there.
const IDLE: i32 = 30;

/// How many seconds later it asks again.
const INTERVAL: i32 = 10;

/// How often it asks before it gives the connection up.
const PROBES: i32 = 3;

/// How long the system waits for a peer that doesn't acknowledge what was sent, or takes nothing, in milliseconds.
const LONGEST: i32 = 50_000;

/// The value of a socket's option that is a number.
fn value_of(number: i32) -> [u8; 16] {
    let mut value = [0; 16];
    value[..4].copy_from_slice(&number.to_ne_bytes());
    value
}

/// Fails where the system has refused an option.
fn check_option(status: i32) -> io::Result<()> {
    if status == 0 {
        Ok(())
    } else {
        Err(io::Error::from(ErrorKind::Other))
    }
}

/// Has the system ask a peer that is silent whether it is still there. A peer that lost its power closes no connection:
/// it would keep its seat for ever.
fn keep_alive(stream: &TcpStream) -> io::Result<()> {
    let fd = stream.as_raw_fd();
    unsafe {
        check_option(setsockopt(fd, SOL_SOCKET, SO_KEEPALIVE, &value_of(1), 4))?;
        check_option(setsockopt(fd, IPPROTO_TCP, TCP_KEEPIDLE, &value_of(IDLE), 4))?;
        check_option(setsockopt(fd, IPPROTO_TCP, TCP_KEEPINTVL, &value_of(INTERVAL), 4))?;
        check_option(setsockopt(fd, IPPROTO_TCP, TCP_KEEPCNT, &value_of(PROBES), 4))?;
        check_option(setsockopt(fd, IPPROTO_TCP, TCP_USER_TIMEOUT, &value_of(LONGEST), 4))
    }
}

/// Sets a connection so that reads and writes return at once, that what is written is sent at once, and that a peer which is
/// gone without a word is noticed.
pub(crate) fn set_up(stream: &TcpStream) -> io::Result<()> {
    stream.set_nonblocking(true)?;
    stream.set_nodelay(true)?;
    keep_alive(stream)
}
