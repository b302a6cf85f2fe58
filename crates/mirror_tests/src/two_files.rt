//! A pair of disks in memory.
ghost use Rattle.std.specs.Prelude.{◌≡◌, ◌≤◌, true, false, Ok, length};
ghost use Rattle.gw_site.specs.Failures.{Rose};
ghost use Rattle.jrn_mirror.specs.PairObserved.{is_lost};

use crate::file::File;
use gw_base::Setup;
use gw_site::{Failed, Polled, What};
use jrn_mirror::{Half, Pair};

/// Two files in memory, and connections on which nothing happens. A proof observes no log of it.
#[derive(Drop)]
pub struct TwoFiles {
    first: File,
    second: File,
    faults: u64,
    /// How many writes were made.
    writes: u64,
}

impl TwoFiles {
    ghost use Rattle.mirror_tests.specs.FilesObserved.{files_observed};

    /// A pair of these files.
    pub fn new(first: File, second: File) -> TwoFiles
        ensures faults { result.faults ≡ 0 }
    {
        TwoFiles {
            first,
            second,
            faults: 0,
            writes: 0,
        }
    }

    /// The file on this disk.
    pub fn file(&self, disk: Half) -> &File {
        match disk {
            Half::First => &self.first,
            Half::Second => &self.second,
        }
    }

    /// How many writes were made.
    pub fn writes(&self) -> u64 {
        self.writes
    }

    /// Whether a call on this disk fails, which is counted.
    fn fails(&mut self, disk: Half) -> bool
        ensures first { self.old.first.lost ≡ true → self.new.first.lost ≡ true }
        ensures second { self.old.second.lost ≡ true → self.new.second.lost ≡ true }
        ensures lost { is_lost (files_observed self.old) disk ≡ true → result ≡ true }
        ensures loses { result ≡ true → is_lost (files_observed self.new) disk ≡ true }
        ensures counted { result ≡ true → Rose self.old.faults self.new.faults }
        ensures later { self.old.faults ≤ self.new.faults }
    {
        let fails = match disk {
            Half::First => self.first.fails(),
            Half::Second => self.second.fails(),
        };
        if fails {
            self.faults = self.faults.saturating_add(1);
        }
        fails
    }
}

impl Pair for TwoFiles {
    ghost use Rattle.mirror_tests.specs.FilesObserved.{files_observed};

    ghost observed = { files_observed };

    fn open(&mut self, _setup: &Setup) -> Result<(), Failed>
        ensures still { self.new ≡ self.old }
        ensures ok { result ≡ Ok tt }
    {
        Ok(())
    }

    fn poll(&mut self, _buf: &mut [u8; 4096]) -> Polled
        ensures still { self.new ≡ self.old }
        ensures nothing { result.what ≡ What.Nothing }
        ensures buf { length _buf.new ≡ 4096 }
    {
        Polled {
            now: 0,
            what: What::Nothing,
        }
    }

    fn send_till(&mut self, _till: u64, _bytes: &[u8]) -> Result<(), Failed>
        ensures still { self.new ≡ self.old }
        ensures ok { result ≡ Ok tt }
    {
        Ok(())
    }

    fn send_pt(&mut self, _pt: u16, _bytes: &[u8]) -> Result<(), Failed>
        ensures still { self.new ≡ self.old }
        ensures ok { result ≡ Ok tt }
    {
        Ok(())
    }

    fn link_pt(&mut self, _pt: u16) -> Result<(), Failed>
        ensures still { self.new ≡ self.old }
        ensures ok { result ≡ Ok tt }
    {
        Ok(())
    }

    fn cut_till(&mut self, _till: u64)
        ensures { self.new ≡ self.old }
    {}

    fn cut_pt(&mut self, _pt: u16)
        ensures { self.new ≡ self.old }
    {}

    fn length(&mut self, disk: Half) -> Result<u64, Failed> {
        if self.fails(disk) {
            return Err(Failed);
        }
        Ok(self.file(disk).size())
    }

    fn read_at(&mut self, disk: Half, offset: u64, buf: &mut [u8]) -> Result<(), Failed> {
        if self.fails(disk) {
            return Err(Failed);
        }
        self.file(disk).take(offset, buf);
        Ok(())
    }

    fn write_at(&mut self, disk: Half, offset: u64, bytes: &[u8]) -> Result<(), Failed> {
        if self.fails(disk) {
            return Err(Failed);
        }
        self.writes = self.writes.saturating_add(1);
        match disk {
            Half::First => self.first.put(offset, bytes),
            Half::Second => self.second.put(offset, bytes),
        }
        Ok(())
    }

    fn sync(&mut self, disk: Half) -> Result<(), Failed> {
        if self.fails(disk) {
            return Err(Failed);
        }
        Ok(())
    }
}
