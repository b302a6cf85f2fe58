//! A site that has a real file and no connections, and whose log no proof observes.
ghost use Rattle.std.specs.Prelude.{◌≡◌, ◌≤◌, None, false, IsErr, length, []};
ghost use Rattle.gw_site.specs.Failures.{HasCause, Rose};

use gw_base::Setup;
use gw_site::{Failed, Polled, Site, What};
use std::fs::File;
use std::io::{self, Read, Seek, SeekFrom, Write};

/// A site over a file. Every call on a connection fails, and a poll brings `Stopped` at the moment 0.
#[derive(Drop)]
pub(crate) struct FileSite {
    file: File,
    failures: u64,
}

/// Fills the buffer with the file's bytes from an offset on, and zeros past its end.
fn read_full(file: &mut File, offset: u64, buf: &mut [u8]) -> io::Result<()> {
    file.seek(SeekFrom::Start(offset))?;
    let mut filled = 0;
    for _ in 0..u64::MAX {
        if filled == buf.len() {
            break;
        }
        let count = file.read(&mut buf[filled..])?;
        if count == 0 {
            break;
        }
        filled += count;
    }
    for byte in buf[filled..].iter_mut() {
        *byte = 0;
    }
    Ok(())
}

/// Writes bytes at an offset of the file.
fn write_whole(file: &mut File, offset: u64, bytes: &[u8]) -> io::Result<()> {
    file.seek(SeekFrom::Start(offset))?;
    file.write_all(bytes)
}

impl FileSite {
    /// A site over this file, at which no call has failed yet.
    pub(crate) fn new(file: File) -> FileSite
        ensures { result.failures ≡ 0 }
    {
        FileSite { file, failures: 0 }
    }

    fn fail<T>(&mut self) -> Result<T, Failed>
        ensures rose { Rose self.old.failures self.new.failures }
        ensures later { self.old.failures ≤ self.new.failures }
        ensures failed { IsErr result }
    {
        self.failures = self.failures.saturating_add(1);
        Err(Failed)
    }

    /// The result of a call, whose failure is counted.
    fn counted<T>(&mut self, done: io::Result<T>) -> Result<T, Failed>
        ensures { HasCause self.old.failures self.new.failures result }
    {
        match done {
            Ok(value) => Ok(value),
            Err(_) => self.fail(),
        }
    }
}

impl Site for FileSite {
    ghost observed = { λ site. record { log = None; faults = site.failures; dark = false; origin = []; plan = None } };

    fn open(&mut self, _setup: &Setup) -> Result<(), Failed> {
        self.fail()
    }

    fn poll(&mut self, _buf: &mut [u8; 4096]) -> Polled {
        Polled {
            now: 0,
            what: What::Stopped,
        }
    }

    fn send_till(&mut self, _till: u64, _bytes: &[u8]) -> Result<(), Failed> {
        self.fail()
    }

    fn send_pt(&mut self, _pt: u16, _bytes: &[u8]) -> Result<(), Failed> {
        self.fail()
    }

    fn link_pt(&mut self, _pt: u16) -> Result<(), Failed> {
        self.fail()
    }

    fn cut_till(&mut self, _till: u64) {}

    fn cut_pt(&mut self, _pt: u16) {}

    fn length(&mut self) -> Result<u64, Failed> {
        let done = self.file.metadata();
        Ok(self.counted(done)?.len())
    }

    fn read_at(&mut self, pos: u64, buf: &mut [u8]) -> Result<(), Failed> {
        let done = read_full(&mut self.file, pos, buf);
        self.counted(done)
    }

    fn write_at(&mut self, pos: u64, bytes: &[u8]) -> Result<(), Failed> {
        let done = write_whole(&mut self.file, pos, bytes);
        self.counted(done)
    }

    fn sync(&mut self) -> Result<(), Failed> {
        // The bytes and the length: no reader asks for the file's times.
        let done = self.file.sync_data();
        self.counted(done)
    }
}
