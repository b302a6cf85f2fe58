//! A site whose calls give plain values, so that the tests need nothing of its contracts.
use crate::fixture::{address, path, setup};
use gw_base::Setup;
use gw_site::{Polled, Site, What};
use net_site::NetSite;
use std::net::{SocketAddr, TcpStream};
use std::test::Fail;
use std::time::{Clock, Duration, Instant};
use std::{fs, io};

/// The moment, in seconds.
fn seconds(rt: &HostRuntime) -> io::Result<i64> {
    Ok(i64::try_from(rt.since_1970()?.as_secs()).unwrap_or(i64::MAX))
}

/// A site with an address and a file of its own.
///
/// The site is in a box: it is large, and a function that has it by value takes far longer to prove.
#[derive(Drop)]
pub struct Rig<'a> {
    rt: &'a HostRuntime,
    port: u16,
    journal: String,
    /// The site itself, for what takes one.
    pub site: Box<NetSite<&'a HostRuntime>>,
}

fn new_site(rt: &HostRuntime) -> Result<Box<NetSite<&HostRuntime>>, Fail> {
    let site = NetSite::new(rt, rt.alloc())?;
    Ok(Box::new(rt.alloc(), site)?)
}

impl<'a> Rig<'a> {
    /// A site on which nothing is open yet.
    pub fn new(rt: &'a HostRuntime, name: &str, port: u16) -> Result<Rig<'a>, Fail> {
        let journal = path(rt, name)?;
        let site = new_site(rt)?;
        Ok(Rig {
            rt,
            port,
            journal,
            site,
        })
    }

    /// A site that was opened, with terminals at these addresses.
    pub fn opened(
        rt: &'a HostRuntime,
        name: &str,
        port: u16,
        far: &[SocketAddr],
    ) -> Result<Rig<'a>, Fail> {
        let mut rig = Rig::new(rt, name, port)?;
        check!(rig.open(far)?, "it wasn't opened");
        Ok(rig)
    }

    /// Whether it opens with this setup.
    pub fn open_with(&mut self, setup: &Setup) -> Result<bool, Fail> {
        if !setup.is_within_limits() {
            return Err(Fail::from("the setup isn't within the limits"));
        }
        Ok(self.site.open(setup).is_ok())
    }

    /// A setup of its address and its file, with terminals at these addresses.
    pub fn setup(&self, far: &[SocketAddr]) -> Result<Setup, Fail> {
        self.setup_of(self.journal.as_str(), far)
    }

    /// Its address.
    fn near(&self) -> SocketAddr {
        address(self.rt, self.port)
    }

    /// A setup of its address and this file.
    fn setup_of(&self, journal: &str, far: &[SocketAddr]) -> Result<Setup, Fail> {
        let near = format!(in self.rt.alloc(); "{}", self.near())?;
        setup(self.rt, near.as_str(), journal, far)
    }

    /// Whether it opens, with terminals at these addresses.
    pub fn open(&mut self, far: &[SocketAddr]) -> Result<bool, Fail> {
        let setup = self.setup(far)?;
        self.open_with(&setup)
    }

    /// Whether it opens with another file.
    pub fn open_file(&mut self, journal: &str) -> Result<bool, Fail> {
        let setup = self.setup_of(journal, &[])?;
        self.open_with(&setup)
    }

    /// The path of its file.
    pub fn journal(&self) -> &str {
        self.journal.as_str()
    }

    /// Removes its file.
    pub fn remove_file(&self) -> Result<(), Fail> {
        fs::remove_file(self.rt, self.journal.as_str())?;
        Ok(())
    }

    /// A peer that connects as a till does.
    pub fn connect(&self) -> Result<TcpStream, &'static str> {
        match TcpStream::connect(self.rt, self.near()) {
            Ok(peer) => Ok(peer),
            Err(_) => Err("a till connects"),
        }
    }

    /// What the next poll brings, and the moment.
    fn polled(&mut self, buf: &mut [u8; 4096]) -> Polled {
        self.site.poll(buf)
    }

    /// What the next poll brings.
    pub fn poll(&mut self, buf: &mut [u8; 4096]) -> What {
        self.polled(buf).what
    }

    /// What the next poll brings that brings something, within a few seconds.
    fn next(&mut self, buf: &mut [u8; 4096]) -> What {
        for _ in 0..100 {
            let what = self.poll(buf);
            if what != What::Nothing {
                return what;
            }
        }
        What::Nothing
    }

    /// Whether the next poll brings this.
    pub fn brings(&mut self, what: What) -> bool {
        let mut buf = [0; 4096];
        self.next(&mut buf) == what
    }

    /// Whether the next poll brings so many bytes, and these.
    pub fn brings_bytes(&mut self, what: What, bytes: &[u8]) -> bool {
        let mut buf = [0; 4096];
        self.next(&mut buf) == what && buf.starts_with(bytes)
    }

    /// Whether a poll brings nothing, at the moment that the clock says.
    fn is_quiet(&mut self) -> io::Result<bool> {
        let mut buf = [0; 4096];
        let before = seconds(self.rt)?;
        let polled = self.polled(&mut buf);
        let after = seconds(self.rt)?;
        Ok(polled.what == What::Nothing && before <= polled.now && polled.now <= after)
    }

    /// How long four polls took that brought nothing.
    pub fn four_quiet_polls(&mut self) -> Result<Duration, Fail> {
        let start = Instant::now(self.rt)?;
        for _ in 0..4 {
            check!(
                self.is_quiet()?,
                "nothing comes, and the moment is the clock's"
            );
        }
        Ok(start.elapsed(self.rt)?)
    }

    /// Whether a send to this till succeeds.
    pub fn sends_till(&mut self, till: u64, bytes: &[u8]) -> bool {
        self.site.send_till(till, bytes).is_ok()
    }

    /// Whether a send to this terminal succeeds.
    pub fn sends_pt(&mut self, pt: u16, bytes: &[u8]) -> bool {
        self.site.send_pt(pt, bytes).is_ok()
    }

    /// Whether a link to this terminal is made.
    pub fn links(&mut self, pt: u16) -> bool {
        self.site.link_pt(pt).is_ok()
    }

    /// Cuts a till's connection.
    pub fn cut_till(&mut self, till: u64) {
        self.site.cut_till(till);
    }

    /// Cuts the link to a terminal.
    pub fn cut_pt(&mut self, pt: u16) {
        self.site.cut_pt(pt);
    }

    /// The length of its file.
    pub fn length(&mut self) -> Option<u64> {
        self.site.length().ok()
    }

    /// Whether a read of its file succeeds.
    pub fn reads(&mut self, offset: u64, buf: &mut [u8]) -> bool {
        self.site.read_at(offset, buf).is_ok()
    }

    /// Whether a write to its file succeeds.
    pub fn writes(&mut self, offset: u64, bytes: &[u8]) -> bool {
        self.site.write_at(offset, bytes).is_ok()
    }

    /// Whether a sync of its file succeeds.
    pub fn syncs(&mut self) -> bool {
        self.site.sync().is_ok()
    }
}
