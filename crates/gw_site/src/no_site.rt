//! A site that isn't there.
ghost use Rattle.std.specs.Prelude.{◌≡◌, pos, length, [], None, false};
ghost use Rattle.gw_site.specs.Failures.{HasFailed};

use crate::{Failed, Polled, Site, What};
use gw_base::Setup;

/// Every call that can fail fails, and a poll brings `Stopped` at the moment 0. A proof observes no log of it.
#[derive(Drop)]
pub struct NoSite {
    faults: u64,
}

impl NoSite {
    /// A site that isn't there, and at which no call has failed yet.
    pub fn new() -> NoSite
        ensures { result.faults ≡ 0 }
    {
        NoSite { faults: 0 }
    }

    /// Counts a failure and returns it.
    fn fail<T>(&mut self) -> Result<T, Failed>
        ensures { HasFailed self.old.faults self.new.faults result }
    {
        self.faults = self.faults.saturating_add(1);
        Err(Failed)
    }
}

impl Default for NoSite {
    fn default() -> NoSite
        ensures { result.faults ≡ 0 }
    {
        NoSite::new()
    }
}

impl Site for NoSite {
    ghost observed = { λ site. record { log = None; faults = site.faults; dark = false; origin = []; plan = None } };

    fn open(&mut self, _setup: &Setup) -> Result<(), Failed>
        ensures { HasFailed self.old.faults self.new.faults result }
    {
        self.fail()
    }

    fn poll(&mut self, _buf: &mut [u8; 4096]) -> Polled
        ensures stopped { result ≡ record { now = pos 0; what = What.Stopped } }
        ensures buf { _buf.new ≡ _buf.old }
        ensures size { length _buf.new ≡ 4096 }
        ensures site { self.new.faults ≡ self.old.faults }
    {
        Polled {
            now: 0,
            what: What::Stopped,
        }
    }

    fn send_till(&mut self, _till: u64, _bytes: &[u8]) -> Result<(), Failed>
        ensures { HasFailed self.old.faults self.new.faults result }
    {
        self.fail()
    }

    fn send_pt(&mut self, _pt: u16, _bytes: &[u8]) -> Result<(), Failed>
        ensures { HasFailed self.old.faults self.new.faults result }
    {
        self.fail()
    }

    fn link_pt(&mut self, _pt: u16) -> Result<(), Failed>
        ensures { HasFailed self.old.faults self.new.faults result }
    {
        self.fail()
    }

    fn cut_till(&mut self, _till: u64)
        ensures { self.new.faults ≡ self.old.faults }
    {}

    fn cut_pt(&mut self, _pt: u16)
        ensures { self.new.faults ≡ self.old.faults }
    {}

    fn length(&mut self) -> Result<u64, Failed>
        ensures { HasFailed self.old.faults self.new.faults result }
    {
        self.fail::<u64>()
    }

    fn read_at(&mut self, _pos: u64, _buf: &mut [u8]) -> Result<(), Failed>
        ensures failed { HasFailed self.old.faults self.new.faults result }
        ensures buf { _buf.new ≡ _buf.old }
    {
        self.fail()
    }

    fn write_at(&mut self, _pos: u64, _bytes: &[u8]) -> Result<(), Failed>
        ensures { HasFailed self.old.faults self.new.faults result }
    {
        self.fail()
    }

    fn sync(&mut self) -> Result<(), Failed>
        ensures { HasFailed self.old.faults self.new.faults result }
    {
        self.fail()
    }
}
