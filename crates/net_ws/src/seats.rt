//! The sockets that are open at the same time, and the loop that goes on with them.
ghost use Rattle.std.specs.Prelude.{◌≡◌, ◌<◌, ◌≤◌, ◌+◌, length, true, IfOk, OnOk};

use crate::seat::Seat;
use crate::words::Route;
use libc::net::{POLLIN, poll};
use libc::types::pollfd;
use std::alloc::{AllocError, Global};
use std::io::{self, ErrorKind};
use std::net::{Net, SocketAddr, TcpListener, TcpStream};
use std::os::fd::AsRawFd;
use std::time::{Clock, Duration};

/// How long a poll waits at most where nothing has come, in milliseconds.
const WAIT: i32 = 1_000;

/// The sockets, and what is known of those still to come.
#[derive(Drop)]
pub(crate) struct Seats {
    alloc: Global,
    listener: TcpListener,
    gateway: SocketAddr,
    seats: Vec<Seat>,
    /// The most sockets at the same time.
    most: usize,
    /// How many sockets are still accepted.
    left: u64,
    /// Whether the listener is left out of the next poll.
    skips_listener: bool,
    /// What poll(2) is asked, and what it reported last: of the listener, then of each seat its socket and its connection to the gateway.
    asked: Vec<pollfd>,
    /// The monotonic clock, as the last poll returned.
    clock: Duration,
    ghost few: { length seats.items ≤ most },
}

/// What poll(2) is asked of a listener.
fn asked(fd: i32) -> pollfd {
    pollfd {
        fd,
        events: POLLIN,
        revents: 0,
    }
}

/// Puts one entry in the place of another.
fn put(entries: &mut [pollfd], at: usize, entry: pollfd) {
    if let Some(old) = entries.get_mut(at) {
        *old = entry;
    }
}

/// Whether poll(2) has reported something of this entry.
fn is_ready(entries: &[pollfd], at: usize) -> bool {
    match entries.get(at) {
        Some(entry) => entry.revents != 0,
        None => false,
    }
}

/// Where the two entries of a seat are.
fn places_of(index: usize) -> [usize; 2] {
    let socket = index.saturating_mul(2).saturating_add(1);
    [socket, socket.saturating_add(1)]
}

/// So many entries, none of which asks for anything.
fn entries(alloc: Global, count: usize) -> Result<Vec<pollfd>, AllocError> {
    let mut entries = Vec::new(alloc);
    entries.resize(count, asked(-1))?;
    Ok(entries)
}

/// Listens at an address, if there is one.
fn listen<R: Net<Listener = TcpListener, Stream = TcpStream>>(
    rt: &R,
    address: Option<SocketAddr>,
) -> io::Result<TcpListener> {
    let Some(address) = address else {
        return Err(io::Error::from(ErrorKind::InvalidInput));
    };
    let listener = TcpListener::bind(rt, address)?;
    // A connection may be gone again between poll(2) and accept(2), which would then wait for the next.
    listener.set_nonblocking(true)?;
    Ok(listener)
}

impl Seats {
    /// Listens for at most `most` sockets at the same time. It fails where it can't listen, where the process may not have as many
    /// descriptors as poll(2) is asked for, and where there is no memory.
    pub(crate) fn open<R: Net<Listener = TcpListener, Stream = TcpStream>>(
        rt: &R,
        alloc: Global,
        route: &Route,
        most: usize,
    ) -> io::Result<Seats>
        ensures { IfOk result (λ seats. (seats.left ≡ route.now.sockets) × (seats.most ≡ most)) }
    {
        let mut entries = entries(alloc, most.saturating_mul(2).saturating_add(1))?;
        let listener = listen(rt, route.listen)?;
        if poll(&mut entries, 0) < 0 {
            return Err(io::Error::from(ErrorKind::InvalidInput));
        }
        Ok(Seats {
            alloc,
            listener,
            gateway: route.gateway,
            seats: Vec::new(alloc),
            most,
            left: route.sockets,
            skips_listener: false,
            asked: entries,
            clock: Duration::ZERO,
        })
    }

    /// Whether the last socket that is accepted has ended.
    fn is_done(&self) -> bool
        ensures { result ≡ true → self.now.left ≡ 0 }
    {
        self.left == 0 && self.seats.is_empty()
    }

    /// The listener's descriptor, or -1 where no socket is accepted now, which poll(2) passes over.
    ///
    /// It is left out once after `accept` failed: poll(2) would return at once for a connection that can't be taken, again and again.
    fn listening(&self) -> i32 {
        if self.has_room() && !self.skips_listener {
            self.listener.as_raw_fd()
        } else {
            -1
        }
    }

    /// Writes down what poll(2) is asked.
    fn ask(&mut self)
        ensures { (self.new.left ≡ self.old.left) × (self.new.most ≡ self.old.most) }
    {
        for entry in self.asked.iter_mut() {
            *entry = asked(-1);
        }
        let listening = self.listening();
        put(&mut self.asked, 0, asked(listening));
        for (index, seat) in self.seats.iter().enumerate() {
            let [socket, gate] = seat.asked();
            let [first, second] = places_of(index);
            put(&mut self.asked, first, socket);
            put(&mut self.asked, second, gate);
        }
        self.skips_listener = false;
    }

    /// Whether a seat may have more than poll(2) knows of.
    fn is_busy(&self) -> bool {
        self.seats.iter().any(|seat| seat.is_busy())
    }

    /// Waits until one of them has something, or a second has passed.
    fn wait<R: Clock>(&mut self, rt: &R)
        ensures { (self.new.left ≡ self.old.left) × (self.new.most ≡ self.old.most) }
    {
        let millis = if self.is_busy() { 0 } else { WAIT };
        self.ask();
        let _ = poll(&mut self.asked, millis);
        if let Ok(now) = rt.monotonic() {
            self.clock = now;
        }
    }

    /// Goes on with the seat at an index.
    fn go_on_at<R: Net>(&mut self, rt: &R, index: usize)
        ensures { (self.new.left ≡ self.old.left) × (self.new.most ≡ self.old.most) }
    {
        let [socket, gate] = places_of(index);
        let is_asked = is_ready(&self.asked, socket) || is_ready(&self.asked, gate);
        if let Some(seat) = self.seats.get_mut(index) {
            if is_asked || seat.is_busy() {
                seat.go_on(rt, self.alloc, self.gateway);
            }
            seat.end_if_late(self.clock);
        }
    }

    /// Whether one more socket may be accepted.
    fn has_room(&self) -> bool
        ensures { result ≡ true → (length self.now.seats.items < self.now.most) × (0 < self.now.left) }
    {
        self.seats.len() < self.most && self.left > 0
    }

    /// Accepts the socket that waits. It counts as one, whatever becomes of it.
    fn accept(&mut self) -> io::Result<()>
        requires { (length self.old.seats.items < self.old.most) × (0 < self.old.left) }
        ensures counted { OnOk result (self.new.left + 1 ≡ self.old.left) }
        ensures bounds { (self.new.left ≤ self.old.left) × (self.new.most ≡ self.old.most) }
    {
        let (stream, _) = self.listener.accept()?;
        self.left -= 1;
        let seat = Seat::new(self.alloc, stream, self.clock)?;
        self.seats.push(seat)?;
        Ok(())
    }

    /// Accepts one socket, where one waits.
    fn accept_one(&mut self)
        ensures { (self.new.left ≤ self.old.left) × (self.new.most ≡ self.old.most) }
    {
        if is_ready(&self.asked, 0) && self.has_room() && self.accept().is_err() {
            self.skips_listener = true;
        }
    }

    /// One round over all of them.
    fn go_on<R: Net + Clock>(&mut self, rt: &R)
        ensures { (self.new.left ≤ self.old.left) × (self.new.most ≡ self.old.most) }
    {
        self.wait(rt);
        for index in 0..self.seats.len() {
            self.go_on_at(rt, index);
        }
        self.seats.retain(|seat| !seat.is_over());
        self.accept_one();
    }

    /// Goes on until the last socket has ended.
    ///
    /// The loop has an end only so that the function has one: 2^64 rounds take longer than any process runs.
    pub(crate) fn serve<R: Net + Clock>(&mut self, rt: &R)
        ensures { (self.new.left ≤ self.old.left) × (self.new.most ≡ self.old.most) }
    {
        for _ in 0..u64::MAX {
            if self.is_done() {
                return;
            }
            self.go_on(rt);
        }
    }
}
