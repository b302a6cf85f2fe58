//! The connections of tills.
ghost use Rattle.std.specs.Prelude.{◌≡◌, ◌<◌, ◌≤◌, ◌+◌, [], length, vec_capacity, IfSome, OnErr, IfOk, None, Contains, slice_index_or};
ghost use Rattle.gw_site.specs.Turns.{IsWithinBuf};
ghost use Rattle.net_site.specs.inner.Received.{TillHears, connections_without};
ghost use Rattle.net_site.specs.Holding.{with_next, without_till};

use crate::closing::ClosingList;
use crate::connection::{self, Received};
use crate::queue::Queue;
use gw_bytes::{LONGEST_CHUNK, MOST_TILLS};
use gw_site::What;
use libc::net::{POLLIN, POLLOUT};
use libc::types::pollfd;
use std::alloc::{AllocError, Global};
use std::io::{self, ErrorKind};
use std::marker::Model;
use std::net::{TcpListener, TcpStream};
use std::os::fd::AsRawFd;

/// The most connections that are held: one above the gateway's limit, so that the gateway can refuse it. Further ones wait
/// in the system's queue.
pub(crate) const MOST: usize = MOST_TILLS + 1;

#[derive(Drop)]
struct Connection {
    till: u64,
    stream: TcpStream,
    queue: Queue,
}

impl Connection {
    /// Sends bytes after those that wait. Returns whether some wait.
    fn send(&mut self, bytes: &[u8]) -> io::Result<bool>
        ensures { self.new.till ≡ self.old.till }
    {
        self.queue.send(&self.stream, bytes)?;
        Ok(!self.queue.is_empty())
    }

    /// What poll(2) is asked: a till is heard again once it has taken what waits for it.
    fn events(&self) -> i16 {
        if self.queue.is_empty() {
            POLLIN
        } else {
            POLLOUT
        }
    }
}

/// The tills that are connected, each by its number, and the last number that was given.
#[derive(Drop)]
pub(crate) struct Tills {
    connections: Vec<Connection>,
    last: u64,
    closing: ClosingList,
    alloc: Global,
    ghost room: { 65 ≤ vec_capacity connections },
}

impl Model for Tills {
    ghost use Rattle.std.specs.Prelude.{map};
    ghost use Rattle.net_site.specs.Holding.{TillNumbers};

    ghost Value = { TillNumbers };

    ghost view = { λ tills. record {
      connected = map (λ connection. connection.till) tills.connections.items;
      last = tills.last;
    } };
}

/// Closes the connection of this till.
fn keep_others(connections: &mut Vec<Connection>, till: u64)
    ensures others { connections.new.items ≡ connections_without connections.old.items till }
    ensures room { vec_capacity connections.new ≡ vec_capacity connections.old }
{
    connections.retain(|connection| connection.till != till);
}

/// Takes out the connection of this till, if there is one.
fn take_out(connections: &mut Vec<Connection>, till: u64) -> Option<Connection>
    ensures others { connections_without connections.new.items till ≡ connections_without connections.old.items till }
    ensures room { vec_capacity connections.new ≡ vec_capacity connections.old }
{
    for index in 0..connections.len() {
        if connections[index].till == till {
            return Some(connections.remove(index));
        }
    }
    None
}

/// Lets what waits for a connection go out, if there is one.
fn let_out(closing: &mut ClosingList, connection: Option<Connection>) {
    if let Some(connection) = connection {
        closing.add(connection.stream, connection.queue);
    }
}

impl Tills {
    /// No till, with room for all.
    pub(crate) fn new(alloc: Global) -> Result<Tills, AllocError>
        ensures { IfOk result (λ tills. tills ≡ record { connected = []; last = 0 }) }
    {
        let connections = Vec::with_capacity(alloc, MOST)?;
        let closing = ClosingList::new(alloc)?;
        Ok(Tills {
            connections,
            last: 0,
            closing,
            alloc,
        })
    }

    /// Closes all connections.
    pub(crate) fn clear(&mut self)
        ensures { self.new ≡ record self.old { connected = [] } }
    {
        self.connections.clear();
        self.closing.clear();
    }

    /// Whether one more can be taken: there is room, and a number that none had.
    pub(crate) fn has_room(&self) -> bool {
        self.connections.len() < MOST && self.last < u64::MAX
    }

    /// What poll(2) is asked of the connection at this index. Where there is none the descriptor is -1, which is passed over.
    pub(crate) fn asked(&self, index: usize) -> pollfd {
        match self.connections.get(index) {
            Some(connection) => pollfd {
                fd: connection.stream.as_raw_fd(),
                events: connection.events(),
                revents: 0,
            },
            None => pollfd {
                fd: -1,
                events: 0,
                revents: 0,
            },
        }
    }

    /// Takes a connection that waits, if there is one and room for it.
    pub(crate) fn accept(&mut self, listener: &TcpListener) -> Option<u64>
        ensures opened { IfSome result (λ till. (length self.old.connected < 65) × (till ≡ self.old.last + 1) × (self.new ≡ with_next self.old)) }
        ensures none { result ≡ None → self.new ≡ self.old }
    {
        if self.connections.len() >= MOST || self.last == u64::MAX {
            return None;
        }
        let Ok(queue) = Queue::new(self.alloc) else {
            return None;
        };
        let stream = match listener.accept() {
            Ok((stream, _)) => stream,
            Err(_) => return None,
        };
        // A connection that its peer has reset by now can't be set up, and is no till.
        if connection::set_up(&stream).is_err() {
            return None;
        }
        let till = self.last + 1;
        self.connections.push_reserved(Connection {
            till,
            stream,
            queue,
        });
        self.last = till;
        Some(till)
    }

    /// What the connection at this index brings.
    pub(crate) fn hear(&mut self, index: usize, buf: &mut [u8; LONGEST_CHUNK]) -> What
        ensures hears { TillHears self.old self.new result }
        ensures buf { length buf.new ≡ 4096 }
        ensures count { IsWithinBuf result }
    {
        let Some(connection) = self.connections.get(index) else {
            return What::Nothing;
        };
        let till = connection.till;
        match connection::hear(&connection.stream, buf) {
            Received::NotYet => What::Nothing,
            Received::Bytes(count) => What::TillBytes(till, count),
            Received::End => {
                self.close(till);
                What::TillClosed(till)
            }
        }
    }

    /// The index of this till's connection.
    fn find(&self, till: u64) -> Option<usize>
        ensures { IfSome result (λ index. (index < length self.now.connected) × (slice_index_or self.now.connected index till ≡ till)) }
    {
        for index in 0..self.connections.len() {
            if self.connections[index].till == till {
                return Some(index);
            }
        }
        None
    }

    /// Closes the connection of this till, once what waits for it has gone out.
    pub(crate) fn close(&mut self, till: u64)
        ensures { self.new ≡ without_till self.old till }
    {
        let closed = take_out(&mut self.connections, till);
        keep_others(&mut self.connections, till);
        let_out(&mut self.closing, closed);
    }

    /// Goes on with the connections that close, at the moment of a poll.
    pub(crate) fn go_on_closing(&mut self, now: i64)
        ensures { self.new ≡ self.old }
    {
        self.closing.go_on(now);
    }

    /// Sends bytes to the till at this index. Returns whether some wait.
    fn send_at(&mut self, index: usize, bytes: &[u8]) -> io::Result<bool>
        requires { index < length self.old.connected }
        ensures { self.new ≡ self.old }
    {
        self.connections[index].send(bytes)
    }

    /// Writes what waits for the till at this index, as its socket takes it.
    pub(crate) fn flush(&mut self, index: usize)
        ensures { self.new ≡ self.old }
    {
        if index < self.connections.len() {
            let _ = self.send_at(index, &[]);
        }
    }

    /// Sends bytes to a till, or keeps them until its socket takes them; fails where it isn't there, or where they don't fit. Returns
    /// whether some wait.
    pub(crate) fn send(&mut self, till: u64, bytes: &[u8]) -> io::Result<bool>
        ensures same { self.new ≡ self.old }
        ensures held { IfOk result (λ done. Contains self.old.connected till) }
    {
        match self.find(till) {
            Some(index) => self.send_at(index, bytes),
            None => Err(io::Error::from(ErrorKind::NotConnected)),
        }
    }
}
