//! Connections of tills that are closed, while what waits for them goes out.
ghost use Rattle.std.specs.Prelude.{◌≤◌, vec_capacity};

use crate::connection;
use crate::queue::Queue;
use std::alloc::{AllocError, Global};
use std::net::{Shutdown, TcpStream};

/// The most of them: where there is one more, the first is dropped.
const MOST: usize = 16;

/// How many seconds each has.
const TIME: i64 = 2;

/// A connection that closes, and its last moment.
#[derive(Drop)]
struct Closing {
    stream: TcpStream,
    queue: Queue,
    until: i64,
}

impl Closing {
    /// Writes what waits, then ends the sending half, and drops what comes. False once nothing is left to do.
    ///
    /// A connection that is closed while bytes of its peer lie unread is reset, and the peer may lose what it hasn't read yet.
    fn goes_on(&mut self, now: i64) -> bool {
        if now >= self.until || self.queue.flush(&self.stream).is_err() {
            return false;
        }
        if self.queue.is_empty() && self.stream.shutdown(Shutdown::Write).is_err() {
            return false;
        }
        connection::skip(&self.stream) || !self.queue.is_empty()
    }
}

/// The connections that close, in the order in which that began.
#[derive(Drop)]
pub(crate) struct ClosingList {
    connections: Vec<Closing>,
    /// The moment of the last poll.
    now: i64,
    ghost room: { 16 ≤ vec_capacity connections },
}

impl ClosingList {
    /// None, with room for all.
    pub(crate) fn new(alloc: Global) -> Result<ClosingList, AllocError> {
        let connections = Vec::with_capacity(alloc, MOST)?;
        Ok(ClosingList {
            connections,
            now: 0,
        })
    }

    /// Drops all of them.
    pub(crate) fn clear(&mut self) {
        self.connections.clear();
    }

    /// Closes one more, as far as it can be at once.
    pub(crate) fn add(&mut self, stream: TcpStream, queue: Queue) {
        let mut closing = Closing {
            stream,
            queue,
            until: self.now.saturating_add(TIME),
        };
        if !closing.goes_on(self.now) {
            return;
        }
        if self.connections.len() >= MOST {
            let _ = self.connections.remove(0);
        }
        self.connections.push_reserved(closing);
    }

    /// Goes on with each, at the moment of a poll.
    pub(crate) fn go_on(&mut self, now: i64) {
        self.now = now;
        self.connections.retain_mut(|closing| closing.goes_on(now));
    }
}
