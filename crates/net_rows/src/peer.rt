//! The other ends of a site's connections, by calls that give plain values.
use std::io::{ErrorKind, Read, Write};
use std::net::{TcpListener, TcpStream};
use std::time::Duration;

/// Whether a peer's send succeeds.
pub(crate) fn sends(peer: &mut TcpStream, bytes: &[u8]) -> bool {
    peer.write_all(bytes).is_ok()
}

/// The next three bytes that a peer gets, if it gets them within five seconds a read.
pub(crate) fn three_of(peer: &mut TcpStream) -> Option<[u8; 3]> {
    let mut three = [0; 3];
    if peer.set_read_timeout(Some(Duration::from_secs(5))).is_err() {
        return None;
    }
    match peer.read_exact(&mut three) {
        Ok(()) => Some(three),
        Err(_) => None,
    }
}

/// Whether these are the next three bytes that a peer gets.
pub(crate) fn gets(peer: &mut TcpStream, bytes: &[u8; 3]) -> bool {
    match three_of(peer) {
        Some(three) => three == *bytes,
        None => false,
    }
}

/// The connection that a listener has waiting.
pub(crate) fn accepted(listener: &TcpListener) -> Result<TcpStream, &'static str> {
    match listener.accept() {
        Ok((peer, _)) => Ok(peer),
        Err(_) => Err("a connection waits"),
    }
}

/// What a read of a peer brings that doesn't wait.
pub(crate) enum Part {
    Bytes(u64),
    Nothing,
    End,
    /// Bytes that are not those expected.
    Wrong,
}

/// The last byte of a number.
pub(crate) fn last_byte(number: u64) -> u8 {
    number.to_le_bytes()[0]
}

/// Whether byte by byte these are the ones from an offset on, of which each 4,096 are one more than those before.
fn are_numbered(bytes: &[u8], offset: u64) -> bool {
    for (index, byte) in bytes.iter().enumerate() {
        if *byte != last_byte(offset.saturating_add(index as u64) / 4096) {
            return false;
        }
    }
    true
}

/// The next bytes that a peer gets, from an offset on.
pub(crate) fn read_part(peer: &mut TcpStream, offset: u64) -> Part {
    let mut buf = [0; 4096];
    match peer.read(&mut buf) {
        Ok(0) => Part::End,
        Ok(count) if are_numbered(&buf[..count], offset) => Part::Bytes(count as u64),
        Ok(_) => Part::Wrong,
        Err(error) if error.kind() == ErrorKind::WouldBlock => Part::Nothing,
        Err(_) => Part::Wrong,
    }
}
