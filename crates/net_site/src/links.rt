//! The links to terminals. Connections are begun before the loop asks for the links, all together, and are made while the gateway does other work.
ghost use Rattle.std.specs.Prelude.{◌≡◌, ◌<◌, ◌≤◌, [], ◌++◌, ◌∷◌, All, length, vec_capacity, slice_set, true, false, IfOk, OnErr, OnOk, Bool};
ghost use Rattle.gw_site.specs.Turns.{IsWithinBuf};
ghost use Rattle.net_site.specs.Link.{is_up};
ghost use Rattle.net_site.specs.inner.Received.{LinkHears};
ghost use Rattle.net_site.specs.Holding.{IsLinked};

use crate::connection::{self, Received};
use gw_base::Pt;
use gw_bytes::{LONGEST_CHUNK, MOST_TERMINALS};
use gw_site::What;
use libc::net::{POLLOUT, POLLRDHUP, poll};
use libc::types::pollfd;
use std::alloc::{AllocError, Global};
use std::io::{self, ErrorKind};
use std::marker::Model;
use std::mem;
use std::net::{Net, SocketAddr, TcpStream};
use std::os::fd::AsRawFd;
use std::time::{Clock, Instant};

/// How long all links together may wait for their peers between two polls, in microseconds.
const WAIT: u16 = 20_000;

/// How many seconds after a link was lost a connection is begun, and after an attempt that failed another one: two less than pass before
/// the loop asks for the link.
const REST: i64 = 3;

/// After how many seconds a connection that isn't made is begun anew. The system asks a peer that is silent ever more seldom: at last once
/// in a minute.
const LONGEST: i64 = 10;

#[derive(Drop)]
enum Link {
    Down,
    /// A connection on which nothing is sent yet, and the moment at which it was begun.
    Making(mio::net::TcpStream, i64),
    Up(TcpStream),
}

#[derive(Drop)]
struct Terminal {
    address: SocketAddr,
    link: Link,
    /// When its link was lost, or last asked for.
    since: i64,
}

/// The terminals, in the order of their numbers. A contract sees of each whether it is linked.
#[derive(Drop)]
pub(crate) struct Links {
    terminals: Vec<Terminal>,
    /// How long a link may still wait before the next poll, in microseconds.
    patience: u16,
    /// The moment of the last poll.
    moment: i64,
    /// The last moment at which each terminal was looked at.
    looked: i64,
    ghost room: { 32 ≤ vec_capacity terminals },
    ghost few: { length terminals.items ≤ 32 },
}

impl Model for Links {
    ghost use Rattle.std.specs.Prelude.{List, map, Bool};
    ghost use Rattle.net_site.specs.Link.{is_up};

    ghost Value = { List Bool };

    ghost view = { λ links. map (λ terminal. is_up terminal.link) links.terminals.items };
}

/// Whether two addresses are those of one device: an IPv4 address may be written as an IPv6 address, too.
fn is_same(one: SocketAddr, other: SocketAddr) -> bool {
    one.port() == other.port() && one.ip().to_canonical() == other.ip().to_canonical()
}

/// How far a connection has come that was begun.
#[derive(Clone, Copy)]
enum Progress {
    NotYet,
    Made,
    /// The peer has accepted it, and has closed it again.
    Closed,
}

/// How far a connection has come, at the latest after so many milliseconds. It fails where there is no such peer, or where it was
/// refused.
fn progress_of(stream: &mio::net::TcpStream, millis: i32) -> io::Result<Progress> {
    let mut fds = [pollfd {
        fd: stream.as_raw_fd(),
        events: POLLOUT | POLLRDHUP,
        revents: 0,
    }];
    if poll(&mut fds, millis) <= 0 {
        return Ok(Progress::NotYet);
    }
    if let Some(error) = stream.take_error()? {
        return Err(error);
    }
    if fds[0].revents & POLLRDHUP != 0 {
        return Ok(Progress::Closed);
    }
    let _ = stream.peer_addr()?;
    Ok(Progress::Made)
}

/// Takes up a connection that is made. What its peer has sent before is dropped: it belongs to no command of this link.
fn take_up(stream: mio::net::TcpStream) -> io::Result<Link> {
    let stream = TcpStream::from(stream);
    connection::set_up(&stream)?;
    if connection::skip(&stream) {
        return Ok(Link::Up(stream));
    }
    Err(io::Error::from(ErrorKind::ConnectionReset))
}

/// Whether a connection that was begun so many seconds ago is to be begun anew.
fn is_over(stream: &mio::net::TcpStream, seconds: i64) -> bool {
    match progress_of(stream, 0) {
        Ok(Progress::Made) => false,
        Ok(Progress::NotYet) => seconds >= LONGEST,
        Ok(Progress::Closed) | Err(_) => seconds >= REST,
    }
}

/// Begins a connection, for which nobody waits.
fn begun<R: Net>(rt: &R, address: SocketAddr, now: i64) -> Link
    ensures { is_up result ≡ false }
{
    match mio::net::TcpStream::connect(rt, address) {
        Ok(stream) => Link::Making(stream, now),
        Err(_) => Link::Down,
    }
}

impl Terminal {
    /// Whether a connection to it is to be begun at this moment.
    fn is_to_begin(&self, now: i64) -> bool
        ensures { result ≡ true → is_up self.now.link ≡ false }
    {
        match &self.link {
            Link::Down => now.saturating_sub(self.since) >= REST,
            Link::Making(stream, begun) => is_over(stream, now.saturating_sub(*begun)),
            Link::Up(_) => false,
        }
    }

    /// Begins a connection to it, where that is to be done at this moment.
    fn go_on<R: Net>(&mut self, rt: &R, now: i64)
        ensures { is_up self.new.link ≡ is_up self.old.link }
    {
        if self.is_to_begin(now) {
            // The old connection is closed first: a terminal has one at a time.
            self.link = Link::Down;
            self.link = begun(rt, self.address, now);
            self.since = now;
        }
    }
}

/// How far a connection has come that was begun at this moment, and the connection; it is waited for so many milliseconds at most.
fn taken(stream: mio::net::TcpStream, begun: i64, millis: i32) -> io::Result<Link> {
    match progress_of(&stream, millis)? {
        Progress::Made => take_up(stream),
        Progress::NotYet => Ok(Link::Making(stream, begun)),
        Progress::Closed => Err(io::Error::from(ErrorKind::ConnectionReset)),
    }
}

/// Begins a connection, and waits for it.
fn begin<R: Net>(rt: &R, address: SocketAddr, now: i64, millis: i32) -> io::Result<Link> {
    let stream = mio::net::TcpStream::connect(rt, address)?;
    taken(stream, now, millis)
}

/// Takes up the connection that was begun before, or begins one.
///
/// One that was begun at this moment is waited for, as those are that the first poll began. One that was begun earlier isn't: so terminals
/// that are switched off leave the time to the others.
fn go_on<R: Net>(
    rt: &R,
    old: Link,
    address: SocketAddr,
    now: i64,
    millis: i32,
) -> io::Result<Link> {
    let Link::Making(stream, begun) = old else {
        return begin(rt, address, now, millis);
    };
    let (wait, rest) = if begun == now {
        (millis, 0)
    } else {
        (0, millis)
    };
    match taken(stream, begun, wait) {
        Ok(link) => Ok(link),
        Err(_) => begin(rt, address, now, rest),
    }
}

impl Links {
    /// No terminal, with room for all.
    pub(crate) fn new(alloc: Global) -> Result<Links, AllocError>
        ensures { IfOk result (λ links. links ≡ []) }
    {
        let terminals = Vec::with_capacity(alloc, MOST_TERMINALS)?;
        Ok(Links {
            terminals,
            patience: WAIT,
            moment: 0,
            looked: 0,
        })
    }

    /// Forgets all terminals and closes their connections.
    pub(crate) fn clear(&mut self)
        ensures { self.new ≡ [] }
    {
        self.terminals.clear();
        self.looked = 0;
    }

    /// How many there are.
    fn len(&self) -> usize
        ensures { result ≡ length self.now }
    {
        self.terminals.len()
    }

    /// Whether a terminal has this address.
    fn has(&self, address: SocketAddr) -> bool {
        for terminal in &self.terminals {
            if is_same(terminal.address, address) {
                return true;
            }
        }
        false
    }

    /// Takes one more terminal, which isn't linked. Its address is an IP address and a port: to look a name up can
    /// take seconds. No other terminal has it: the one device at it would be asked for two.
    fn add(&mut self, pt: &Pt) -> io::Result<()>
        ensures ok { OnOk result (self.new ≡ self.old ++ false ∷ []) }
        ensures err { OnErr result (self.new ≡ self.old) }
    {
        let Ok(address) = pt.address.as_str().parse::<SocketAddr>() else {
            return Err(io::Error::from(ErrorKind::InvalidInput));
        };
        if self.terminals.len() >= MOST_TERMINALS || self.has(address) {
            return Err(io::Error::from(ErrorKind::InvalidInput));
        }
        self.terminals.push_reserved(Terminal {
            address,
            link: Link::Down,
            since: 0,
        });
        Ok(())
    }

    /// Takes these terminals, none of them linked.
    pub(crate) fn set(&mut self, terminals: &[Pt]) -> io::Result<()>
        requires { self.old ≡ [] }
        ensures down { All (λ up. up ≡ false) self.new }
        ensures count { OnOk result (length self.new ≡ length terminals.now) }
    {
        for pt in terminals {
            self.add(pt)?;
        }
        Ok(())
    }

    /// Begins the connection of the terminal of this number, where that is to be done.
    fn go_on_with<R: Net>(&mut self, rt: &R, at: usize)
        requires { at < length self.old }
        ensures { self.new ≡ self.old }
    {
        let now = self.moment;
        self.terminals[at].go_on(rt, now);
    }

    /// Begins the connections that are to be begun.
    fn look<R: Net>(&mut self, rt: &R)
        ensures { self.new ≡ self.old }
    {
        for at in 0..self.len() {
            self.go_on_with(rt, at);
        }
    }

    /// At the moment of a poll gives links their time to wait anew, and begins connections: at the first poll those to all terminals, and
    /// then one where a link was lost or an attempt failed some seconds ago. So the connection is there when the loop asks for the link.
    pub(crate) fn go_on<R: Net>(&mut self, rt: &R, now: i64)
        ensures { self.new ≡ self.old }
    {
        self.patience = WAIT;
        self.moment = now;
        if now > self.looked {
            self.looked = now;
            self.look(rt);
        }
    }

    /// The descriptor of a terminal that is linked, or -1, which poll(2) passes over.
    pub(crate) fn descriptor(&self, at: usize) -> i32 {
        match self.terminals.get(at) {
            Some(terminal) => match &terminal.link {
                Link::Up(stream) => stream.as_raw_fd(),
                Link::Down | Link::Making(_, _) => -1,
            },
            None => -1,
        }
    }

    /// Replaces a link, whose connection is closed.
    fn put(&mut self, at: usize, link: Link)
        requires { at < length self.old }
        ensures { self.new ≡ slice_set self.old at (is_up link) }
    {
        let now = self.moment;
        let terminal = &mut self.terminals[at];
        terminal.link = link;
        terminal.since = now;
    }

    /// Takes a link out, and leaves the terminal without one.
    fn take(&mut self, at: usize) -> Link
        requires { at < length self.old }
        ensures { self.new ≡ slice_set self.old at false }
    {
        let now = self.moment;
        let terminal = &mut self.terminals[at];
        terminal.since = now;
        mem::replace(&mut terminal.link, Link::Down)
    }

    /// Takes up or begins the connection of a terminal, and counts the time that it waited: at most half of what is left, so that
    /// something is left for those after it.
    fn made<R: Net + Clock>(&mut self, rt: &R, old: Link, at: usize) -> io::Result<Link>
        requires { at < length self.old }
        ensures { self.new ≡ self.old }
    {
        let start = Instant::now(rt)?;
        let millis = i32::from(self.patience / 2000);
        let link = go_on(rt, old, self.terminals[at].address, self.moment, millis);
        let passed = u16::try_from(start.elapsed(rt)?.as_micros()).unwrap_or(u16::MAX);
        self.patience = self.patience.saturating_sub(passed);
        link
    }

    /// Links a terminal. An earlier connection of it is replaced; one that was begun before is taken up.
    #[tactic(auto, using(crate::proofs::ListLemmas::set_again))]
    pub(crate) fn make<R: Net + Clock>(&mut self, rt: &R, pt: u16) -> io::Result<()>
        ensures ok { OnOk result ((pt < length self.old) × (self.new ≡ slice_set self.old pt true)) }
        ensures err { OnErr result (self.new ≡ slice_set self.old pt false) }
    {
        let at = usize::from(pt);
        if at >= self.len() {
            return Err(io::Error::from(ErrorKind::NotFound));
        }
        let old = self.take(at);
        match self.made(rt, old, at)? {
            Link::Up(stream) => {
                self.put(at, Link::Up(stream));
                Ok(())
            }
            link => {
                self.put(at, link);
                Err(io::Error::from(ErrorKind::TimedOut))
            }
        }
    }

    /// What the terminal of this number brings.
    pub(crate) fn hear(&mut self, at: usize, buf: &mut [u8; LONGEST_CHUNK]) -> What
        ensures hears { LinkHears self.old self.new result }
        ensures buf { length buf.new ≡ 4096 }
        ensures count { IsWithinBuf result }
    {
        let Some(terminal) = self.terminals.get(at) else {
            return What::Nothing;
        };
        let Link::Up(stream) = &terminal.link else {
            return What::Nothing;
        };
        let pt = at as u16;
        match connection::hear(stream, buf) {
            Received::NotYet => What::Nothing,
            Received::Bytes(count) => What::PtBytes(pt, count),
            Received::End => {
                self.put(at, Link::Down);
                What::PtClosed(pt)
            }
        }
    }

    /// Closes the connection of a terminal.
    pub(crate) fn close(&mut self, pt: u16)
        ensures { self.new ≡ slice_set self.old pt false }
    {
        let at = usize::from(pt);
        if at < self.len() {
            self.put(at, Link::Down);
        }
    }

    /// Sends bytes to a terminal; fails where it isn't linked.
    pub(crate) fn send(&self, pt: u16, bytes: &[u8]) -> io::Result<()>
        ensures { IfOk result (λ done. IsLinked self.now pt) }
    {
        match self.terminals.get(usize::from(pt)) {
            Some(terminal) => match &terminal.link {
                Link::Up(stream) => connection::send(stream, bytes),
                Link::Down | Link::Making(_, _) => Err(io::Error::from(ErrorKind::NotConnected)),
            },
            None => Err(io::Error::from(ErrorKind::NotConnected)),
        }
    }
}
