//! The site.
ghost use Rattle.std.specs.Prelude.{◌≡◌, ◌↔◌, ◌<◌, ◌≤◌, All, length, [], None, true, false, IfOk, IsErr, is_ok, OnOk, OnErr, Contains, slice_set};
ghost use Rattle.gw_site.specs.Failures.{HasCause, faults_after};
ghost use Rattle.gw_site.specs.Turns.{IsWithinBuf};
ghost use Rattle.net_site.specs.Holding.{AllGone, Brings, IsLinked, MakesLink, OpensSite, UsesDisk, closed, without_till};

use crate::disk::Disk;
use crate::file;
use crate::links::Links;
use crate::moments::Moments;
use crate::tills::{self, Tills};
use gw_base::Setup;
use gw_bytes::{LONGEST_CHUNK, MOST_TERMINALS};
use gw_site::{Failed, Polled, Site, What};
use libc::net::{POLLIN, POLLOUT, poll};
use libc::types::pollfd;
use std::alloc::{AllocError, Global};
use std::fs::File;
use std::io::{self, ErrorKind};
use std::marker::Model;
use std::net::{Net, SocketAddr, TcpListener, TcpStream};
use std::os::fd::AsRawFd;
use std::rt::Files;
use std::time::Clock;

/// How long a poll waits at most where nothing has come, in milliseconds.
const WAIT: i32 = 50;

/// A poll asks the tills, then the listener, then the terminals.
const LISTENER: usize = tills::MOST;

const FIRST_LINK: usize = LISTENER + 1;

const ASKED: usize = FIRST_LINK + MOST_TERMINALS;

/// Sockets and a file, whose log no proof observes.
///
/// Memory is taken when it is made, and for what may wait for a till as it opens: a till for which there is none isn't taken. No other
/// call takes any, so once it serves it can't fail for lack of memory.
#[derive(Drop)]
pub struct NetSite<R: Drop> {
    rt: R,
    listener: Option<TcpListener>,
    /// Whether poll(2) took its entries when it was last tried.
    can_poll: bool,
    /// Whether the listener is left out of the next poll.
    skips_listener: bool,
    tills: Tills,
    links: Links,
    disk: Disk,
    /// What has descriptors 0 to 2 where the process began without them.
    standard: Vec<File>,
    /// What poll(2) is asked, and what it reported last. Of a till or a terminal the descriptor changes only where its
    /// connection is made or closed.
    asked: [pollfd; ASKED],
    /// Whether what poll(2) is asked of the tills is to be written anew.
    asks_tills_anew: bool,
    /// Where the next poll begins with the tills and the listener.
    next_till: usize,
    /// Where it begins with the terminals. In one pass over them each that is ready is heard once.
    next_link: usize,
    /// Whether it asks the terminals first.
    is_links_turn: bool,
    moments: Moments,
    /// The moment as the pass over the terminals began.
    began: i64,
    now: i64,
    faults: u64,
}

impl<R: Drop> Model for NetSite<R> {
    ghost use Rattle.net_site.specs.Holding.{Holding};
    ghost use Rattle.std.specs.Prelude.{is_some};

    ghost Value = { Holding };

    ghost view = { λ site. record {
      tills = site.tills;
      links = site.links;
      listens = is_some site.listener;
      can_poll = site.can_poll;
      disk = site.disk;
      faults = site.faults;
    } };
}

/// What poll(2) is asked of a descriptor.
fn asked(fd: i32) -> pollfd {
    pollfd {
        fd,
        events: POLLIN,
        revents: 0,
    }
}

/// Whether poll(2) has reported anything but that a socket takes bytes.
fn is_ready(entry: pollfd) -> bool {
    entry.revents & !POLLOUT != 0
}

/// Whether poll(2) was asked whether a socket takes bytes, and has reported something.
fn may_be_written(entry: pollfd) -> bool {
    entry.events & POLLOUT != 0 && entry.revents != 0
}

/// Asks poll(2) for each till.
fn ask_for_each(fds: &mut [pollfd; ASKED], tills: &Tills) {
    for (index, fd) in fds[..LISTENER].iter_mut().enumerate() {
        *fd = tills.asked(index);
    }
}

/// Listens at an IP address and a port.
fn listen<R: Net<Listener = TcpListener, Stream = TcpStream>>(
    rt: &R,
    address: &str,
) -> io::Result<TcpListener> {
    let Ok(address) = address.parse::<SocketAddr>() else {
        return Err(io::Error::from(ErrorKind::InvalidInput));
    };
    let listener = TcpListener::bind(rt, address)?;
    // A connection may be gone again between poll(2) and accept(2), which would then wait for the next.
    listener.set_nonblocking(true)?;
    Ok(listener)
}

impl<R: Drop> NetSite<R> {
    /// A site on which nothing is open yet.
    pub fn new(rt: R, alloc: Global) -> Result<NetSite<R>, AllocError>
        ensures { IfOk result (λ site. site ≡ record { tills = record { connected = []; last = 0 }; links = []; listens = false; can_poll = false; disk = record { is_open = false; failed = false }; faults = 0 }) }
    {
        let tills = Tills::new(alloc)?;
        let links = Links::new(alloc)?;
        let disk = Disk::new(alloc)?;
        let standard = Vec::with_capacity(alloc, 3)?;
        Ok(NetSite {
            rt,
            listener: None,
            can_poll: false,
            skips_listener: false,
            tills,
            links,
            disk,
            standard,
            asked: [asked(-1); ASKED],
            asks_tills_anew: false,
            next_till: 0,
            next_link: FIRST_LINK,
            is_links_turn: false,
            moments: Moments::new(),
            began: 0,
            now: 0,
            faults: 0,
        })
    }

    /// The result of a call, whose failure is counted.
    fn counted<T>(&mut self, done: io::Result<T>) -> Result<T, Failed>
        ensures same { IsErr result ↔ IsErr done }
        ensures cause { HasCause self.old.faults self.new.faults result }
        ensures site { self.new ≡ record self.old { faults = faults_after self.old.faults result } }
    {
        match done {
            Ok(value) => Ok(value),
            Err(_) => {
                self.faults = self.faults.saturating_add(1);
                Err(Failed)
            }
        }
    }

    /// Closes all connections, the listener and the file.
    fn close(&mut self)
        ensures { self.new ≡ closed self.old }
    {
        self.listener = None;
        self.tills.clear();
        self.links.clear();
        self.asked = [asked(-1); ASKED];
        self.disk.close();
    }

    /// Closes all where an opening failed.
    fn close_unless(&mut self, is_open: bool)
        requires { AllGone self.old }
        ensures gone { AllGone self.new }
        ensures numbers { self.new.tills ≡ self.old.tills }
        ensures failed { self.new.disk.failed ≡ self.old.disk.failed }
        ensures faults { self.new.faults ≡ self.old.faults }
        ensures kept { is_open ≡ true → self.new ≡ self.old }
        ensures closed { is_open ≡ false → self.new ≡ closed self.old }
    {
        if !is_open {
            self.close();
        }
    }

    /// The listener's descriptor, or -1, which poll(2) passes over.
    ///
    /// It is left out while no more tills are taken, and once after `accept` failed: poll(2) would return at once for a
    /// connection that can't be taken, again and again.
    fn listening(&self) -> i32 {
        match &self.listener {
            Some(listener) if !self.skips_listener && self.tills.has_room() => listener.as_raw_fd(),
            _ => -1,
        }
    }

    /// Asks for a terminal anew, after its connection was made or closed.
    fn ask_for_terminal(&mut self, pt: u16)
        ensures { self.new ≡ self.old }
    {
        let at = usize::from(pt);
        if at < MOST_TERMINALS {
            self.asked[FIRST_LINK + at] = asked(self.links.descriptor(at));
        }
    }

    /// Asks anew for what an event has changed.
    fn ask_anew(&mut self, what: What)
        ensures { self.new ≡ self.old }
    {
        match what {
            What::TillOpened(_) | What::TillClosed(_) => self.asks_tills_anew = true,
            What::PtClosed(pt) => self.ask_for_terminal(pt),
            What::TillBytes(_, _) | What::PtBytes(_, _) | What::Nothing | What::Stopped => {}
        }
    }

    /// Sees whether poll(2) can be asked, without waiting.
    ///
    /// It refuses more entries than a process may have open descriptors. Then each poll would return at once, and nothing
    /// would ever be heard.
    fn try_poll(&mut self) -> io::Result<()>
        ensures { self.new ≡ record self.old { can_poll = is_ok result } }
    {
        self.can_poll = poll(&mut self.asked, 0) >= 0;
        if !self.can_poll {
            return Err(io::Error::from(ErrorKind::InvalidInput));
        }
        Ok(())
    }

    /// Waits until one of them has something, at most 50 ms. Returns whether one has.
    fn wait(&mut self) -> bool
        ensures { self.new ≡ self.old }
    {
        if self.asks_tills_anew {
            ask_for_each(&mut self.asked, &self.tills);
            self.asks_tills_anew = false;
        }
        self.asked[LISTENER] = asked(self.listening());
        self.skips_listener = false;
        poll(&mut self.asked, WAIT) > 0
    }

    /// Writes what waits for the till at an index, where its socket takes something.
    fn flush_till(&mut self, index: usize)
        requires { index < 65 }
        ensures { self.new ≡ self.old }
    {
        if may_be_written(self.asked[index]) {
            self.tills.flush(index);
            self.asks_tills_anew = true;
        }
    }

    /// Writes what waits for tills, as their sockets take it.
    fn flush_tills(&mut self)
        ensures { self.new ≡ self.old }
    {
        for index in 0..LISTENER {
            self.flush_till(index);
        }
    }

    /// Takes a till that waits.
    fn accept(&mut self) -> What
        ensures brings { Brings self.old self.new result }
        ensures count { IsWithinBuf result }
    {
        if let Some(listener) = &self.listener
            && let Some(till) = self.tills.accept(listener)
        {
            return What::TillOpened(till);
        }
        self.skips_listener = true;
        What::Nothing
    }

    /// What there is at an index.
    fn hear(&mut self, index: usize, buf: &mut [u8; LONGEST_CHUNK]) -> What
        ensures brings { Brings self.old self.new result }
        ensures buf { length buf.new ≡ 4096 }
        ensures count { IsWithinBuf result }
    {
        if index < LISTENER {
            self.tills.hear(index, buf)
        } else if index > LISTENER {
            self.links.hear(index - FIRST_LINK, buf)
        } else {
            self.accept()
        }
    }

    /// Goes on after an index, and lets the others have the next turn: tills where it is that of a terminal, and else terminals.
    fn go_past(&mut self, index: usize)
        requires { index < 98 }
        ensures { self.new ≡ self.old }
    {
        self.is_links_turn = index < FIRST_LINK;
        if self.is_links_turn {
            self.next_till = index + 1;
        } else {
            self.next_link = index + 1;
        }
    }

    /// The first thing that there is at the indices from `first` to `end`.
    fn hear_first(&mut self, first: usize, end: usize, buf: &mut [u8; LONGEST_CHUNK]) -> What
        requires { end ≤ 98 }
        ensures brings { Brings self.old self.new result }
        ensures buf { length buf.new ≡ 4096 }
        ensures count { IsWithinBuf result }
    {
        for index in first..end {
            if !is_ready(self.asked[index]) {
                continue;
            }
            let what = self.hear(index, buf);
            if what != What::Nothing {
                self.go_past(index);
                return what;
            }
        }
        What::Nothing
    }

    /// The first thing of tills and the listener, from the index on at which the last poll stopped: else a connection that talks
    /// without end would keep the ones after it from being heard.
    fn ask_tills(&mut self, buf: &mut [u8; LONGEST_CHUNK]) -> What
        ensures brings { Brings self.old self.new result }
        ensures buf { length buf.new ≡ 4096 }
        ensures count { IsWithinBuf result }
    {
        let next = self.next_till.min(FIRST_LINK);
        match self.hear_first(next, FIRST_LINK, buf) {
            What::Nothing => self.hear_first(0, next, buf),
            what => what,
        }
    }

    /// The first thing of terminals in this pass.
    fn ask_links(&mut self, buf: &mut [u8; LONGEST_CHUNK]) -> What
        ensures brings { Brings self.old self.new result }
        ensures buf { length buf.new ≡ 4096 }
        ensures count { IsWithinBuf result }
    {
        self.hear_first(self.next_link, ASKED, buf)
    }

    /// The first thing that there is. Tills and terminals take turns.
    fn take_turns(&mut self, buf: &mut [u8; LONGEST_CHUNK]) -> What
        ensures brings { Brings self.old self.new result }
        ensures buf { length buf.new ≡ 4096 }
        ensures count { IsWithinBuf result }
    {
        if self.is_links_turn {
            match self.ask_links(buf) {
                What::Nothing => self.ask_tills(buf),
                what => what,
            }
        } else {
            match self.ask_tills(buf) {
                What::Nothing => self.ask_links(buf),
                what => what,
            }
        }
    }

    /// The first thing that there is, once what waits for tills was written.
    fn ask(&mut self, buf: &mut [u8; LONGEST_CHUNK]) -> What
        ensures brings { Brings self.old self.new result }
        ensures buf { length buf.new ≡ 4096 }
        ensures count { IsWithinBuf result }
    {
        if !self.wait() {
            self.next_link = ASKED;
            return What::Nothing;
        }
        self.flush_tills();
        self.take_turns(buf)
    }

    /// Whether a terminal is ready that wasn't heard in this pass.
    fn is_link_ready(&self) -> bool {
        for index in self.next_link..ASKED {
            if is_ready(self.asked[index]) {
                return true;
            }
        }
        false
    }

    /// Ends the pass over the terminals where each that was ready has been heard. The moment is then the clock as the pass began:
    /// so the loop, which judges a terminal's silence by it, has had all that came before it.
    fn end_pass(&mut self)
        ensures { self.new ≡ self.old }
    {
        if !self.is_link_ready() {
            self.next_link = FIRST_LINK;
            self.now = self.began;
        }
    }
}

impl<
    R: Net<Listener = TcpListener, Stream = TcpStream> + Files<File = File> + Clock + Drop,
> NetSite<R> {
    /// Opens the file at this path.
    fn open_file(&mut self, path: &str) -> io::Result<()>
        ensures same { self.new ≡ record self.old { disk = self.new.disk } }
        ensures disk { self.new.disk.failed ≡ self.old.disk.failed }
        ensures file { OnOk result (self.new.disk.is_open ≡ true) }
        ensures failed { self.old.disk.failed ≡ true → IsErr result }
    {
        self.disk.open(&self.rt, path)
    }

    /// Listens at this address, once descriptors 0 to 2 are taken.
    fn listen_at(&mut self, address: &str) -> io::Result<()>
        ensures same { self.new ≡ record self.old { listens = self.new.listens } }
        ensures listens { OnOk result (self.new.listens ≡ true) }
    {
        file::take_standard(&self.rt, &mut self.standard)?;
        self.listener = Some(listen(&self.rt, address)?);
        Ok(())
    }

    /// Reads the clock where a pass over the terminals begins.
    fn begin_pass(&mut self)
        ensures { self.new ≡ self.old }
    {
        if self.next_link == FIRST_LINK {
            self.began = self.moments.read(&self.rt);
        }
    }

    /// Takes the terminals, listens and opens the file, where poll(2) can be asked for all of them. The file comes last: none is made
    /// where the setup can't be served.
    fn start(&mut self, setup: &Setup) -> io::Result<()>
        requires { self.old.links ≡ [] }
        ensures tills { self.new.tills ≡ self.old.tills }
        ensures links { All (λ up. up ≡ false) self.new.links }
        ensures disk { self.new.disk.failed ≡ self.old.disk.failed }
        ensures faults { self.new.faults ≡ self.old.faults }
        ensures terminals { OnOk result (length self.new.links ≡ length setup.now.terminals) }
        ensures listens { OnOk result (self.new.listens ≡ true) }
        ensures file { OnOk result (self.new.disk.is_open ≡ true) }
        ensures polls { OnOk result (self.new.can_poll ≡ true) }
        ensures failed { self.old.disk.failed ≡ true → IsErr result }
    {
        self.try_poll()?;
        self.links.set(setup.terminals.as_slice())?;
        self.listen_at(setup.listen.as_str())?;
        self.open_file(setup.journal.as_str())
    }
}

impl<R: Net<Listener = TcpListener, Stream = TcpStream> + Files<File = File> + Clock + Drop> Site
    for NetSite<R> {
    ghost observed = { λ site. record { log = None; faults = site.faults; dark = false; origin = []; plan = None } };

    fn open(&mut self, setup: &Setup) -> Result<(), Failed>
        ensures opens { OpensSite setup.now self.old self.new result }
        ensures cause { HasCause self.old.faults self.new.faults result }
        ensures failed { self.old.disk.failed ≡ true → IsErr result }
    {
        self.close();
        let done = self.start(setup);
        self.close_unless(done.is_ok());
        self.counted(done)
    }

    fn poll(&mut self, buf: &mut [u8; LONGEST_CHUNK]) -> Polled
        ensures brings { Brings self.old self.new result.what }
        ensures buf { length buf.new ≡ 4096 }
        ensures count { IsWithinBuf result.what }
    {
        self.tills.go_on_closing(self.now);
        self.begin_pass();
        self.links.go_on(&self.rt, self.began);
        let what = self.ask(buf);
        self.ask_anew(what);
        self.end_pass();
        Polled {
            now: self.now,
            what,
        }
    }

    fn send_till(&mut self, till: u64, bytes: &[u8]) -> Result<(), Failed>
        ensures held { IfOk result (λ done. Contains self.old.tills.connected till) }
        ensures cause { HasCause self.old.faults self.new.faults result }
        ensures site { self.new ≡ record self.old { faults = faults_after self.old.faults result } }
    {
        let done = self.tills.send(till, bytes);
        match self.counted(done) {
            Ok(waits) => {
                self.asks_tills_anew |= waits;
                Ok(())
            }
            Err(failed) => Err(failed),
        }
    }

    fn send_pt(&mut self, pt: u16, bytes: &[u8]) -> Result<(), Failed>
        ensures linked { IfOk result (λ done. IsLinked self.old.links pt) }
        ensures cause { HasCause self.old.faults self.new.faults result }
        ensures site { self.new ≡ record self.old { faults = faults_after self.old.faults result } }
    {
        let done = self.links.send(pt, bytes);
        self.counted(done)
    }

    fn link_pt(&mut self, pt: u16) -> Result<(), Failed>
        ensures links { MakesLink self.old self.new pt result }
        ensures cause { HasCause self.old.faults self.new.faults result }
    {
        let done = self.links.make(&self.rt, pt);
        self.ask_for_terminal(pt);
        self.counted(done)
    }

    fn cut_till(&mut self, till: u64)
        ensures { self.new ≡ record self.old { tills = without_till self.old.tills till } }
    {
        self.tills.close(till);
        self.asks_tills_anew = true;
    }

    fn cut_pt(&mut self, pt: u16)
        ensures { self.new ≡ record self.old { links = slice_set self.old.links pt false } }
    {
        self.links.close(pt);
        self.ask_for_terminal(pt);
    }

    fn length(&mut self) -> Result<u64, Failed>
        ensures disk { UsesDisk self.old self.new result }
        ensures cause { HasCause self.old.faults self.new.faults result }
    {
        let done = self.disk.length();
        self.counted(done)
    }

    fn read_at(&mut self, pos: u64, buf: &mut [u8]) -> Result<(), Failed>
        ensures disk { UsesDisk self.old self.new result }
        ensures cause { HasCause self.old.faults self.new.faults result }
    {
        let done = self.disk.read_at(pos, buf);
        self.counted(done)
    }

    fn write_at(&mut self, pos: u64, bytes: &[u8]) -> Result<(), Failed>
        ensures disk { UsesDisk self.old self.new result }
        ensures cause { HasCause self.old.faults self.new.faults result }
    {
        let done = self.disk.write_at(&self.rt, pos, bytes);
        self.counted(done)
    }

    fn sync(&mut self) -> Result<(), Failed>
        ensures disk { UsesDisk self.old self.new result }
        ensures cause { HasCause self.old.faults self.new.faults result }
    {
        let done = self.disk.sync();
        self.counted(done)
    }
}
