//! The disk: one file. Once a call on it has failed, every later call fails.
ghost use Rattle.std.specs.Prelude.{◌≡◌, length, true, false, IsErr, OnErr, OnOk, None, IfOk};
ghost use Rattle.net_site.specs.Holding.{IsUsable, failed_disk};
ghost use Rattle.net_site.specs.inner.Uses.{IsUseOf};

use crate::file;
use std::alloc::{AllocError, Global};
use std::fs::File;
use std::io::{self, ErrorKind};
use std::marker::Model;
use std::rt::Files;

/// The most bytes of a path (Linux's PATH_MAX, without the 0 at its end).
const PATH: usize = 4095;

/// The journal's file while it is open, and whether a call on it has failed.
///
/// After a failed sync Linux takes the pages that it couldn't write for written, and the next sync returns Ok. So no result
/// of a call after a failed one can be relied on.
#[derive(Drop)]
pub(crate) struct Disk {
    opened: Option<File>,
    path: String,
    failed: bool,
}

impl Model for Disk {
    ghost use Rattle.std.specs.Prelude.{is_some};
    ghost use Rattle.net_site.specs.Holding.{DiskState};

    ghost Value = { DiskState };

    ghost view = { λ disk. record {
      is_open = is_some disk.opened;
      failed = disk.failed;
    } };
}

impl Disk {
    /// No file yet, with room for a path.
    pub(crate) fn new(alloc: Global) -> Result<Disk, AllocError>
        ensures { IfOk result (λ disk. disk ≡ record { is_open = false; failed = false }) }
    {
        let path = String::with_capacity(alloc, PATH)?;
        Ok(Disk {
            opened: None,
            path,
            failed: false,
        })
    }

    /// Closes the file, which gives its lock up.
    pub(crate) fn close(&mut self)
        ensures { self.new ≡ record self.old { is_open = false } }
    {
        self.opened = None;
    }

    /// Opens the file at this path. It fails where a call on the disk has failed before.
    pub(crate) fn open<R: Files<File = File>>(&mut self, rt: &R, path: &str) -> io::Result<()>
        ensures same { self.new.failed ≡ self.old.failed }
        ensures file { OnOk result (self.new.is_open ≡ true) }
        ensures failed { self.old.failed ≡ true → IsErr result }
    {
        if self.failed || path.len() > PATH {
            return Err(io::Error::from(ErrorKind::InvalidInput));
        }
        self.path.clear();
        self.path.push_str(path)?;
        self.opened = Some(file::open_journal(rt, path)?);
        Ok(())
    }

    /// The file, where it is open and no call on it has failed.
    fn file(&self) -> io::Result<&File>
        ensures { OnOk result (IsUsable self.now) }
    {
        if self.failed {
            return Err(io::Error::from(ErrorKind::BrokenPipe));
        }
        match &self.opened {
            Some(file) => Ok(file),
            None => Err(io::Error::from(ErrorKind::NotConnected)),
        }
    }

    fn read_length(&self) -> io::Result<u64>
        ensures { OnOk result (IsUsable self.now) }
    {
        match self.file() {
            Ok(file) => Ok(file.metadata()?.len()),
            Err(error) => Err(error),
        }
    }

    fn read(&self, offset: u64, buf: &mut [u8]) -> io::Result<()>
        ensures usable { OnOk result (IsUsable self.now) }
        ensures size { length buf.new ≡ length buf.old }
    {
        match self.file() {
            Ok(file) => file::read_full(file, offset, buf),
            Err(error) => Err(error),
        }
    }

    fn write<R: Files<File = File>>(&self, rt: &R, offset: u64, bytes: &[u8]) -> io::Result<()>
        ensures { OnOk result (IsUsable self.now) }
    {
        match self.file() {
            Ok(file) => file::write_named(rt, file, self.path.as_str(), offset, bytes),
            Err(error) => Err(error),
        }
    }

    fn write_back(&self) -> io::Result<()>
        ensures { OnOk result (IsUsable self.now) }
    {
        match self.file() {
            Ok(file) => file.sync_data(),
            Err(error) => Err(error),
        }
    }

    /// Remembers a failure.
    fn noted<T>(&mut self, done: io::Result<T>) -> io::Result<T>
        ensures same { result ≡ done }
        ensures ok { OnOk result (self.new ≡ self.old) }
        ensures err { OnErr result (self.new ≡ failed_disk self.old) }
    {
        if done.is_err() {
            self.failed = true;
        }
        done
    }

    /// The file's length.
    pub(crate) fn length(&mut self) -> io::Result<u64>
        ensures { IsUseOf self.old self.new result }
    {
        let done = self.read_length();
        self.noted(done)
    }

    /// Fills the buffer from an offset on, with zeros past the file's end.
    pub(crate) fn read_at(&mut self, offset: u64, buf: &mut [u8]) -> io::Result<()>
        ensures uses { IsUseOf self.old self.new result }
        ensures size { length buf.new ≡ length buf.old }
    {
        let done = self.read(offset, buf);
        self.noted(done)
    }

    /// Writes all of the bytes at an offset.
    pub(crate) fn write_at<R: Files<File = File>>(
        &mut self,
        rt: &R,
        offset: u64,
        bytes: &[u8],
    ) -> io::Result<()>
        ensures { IsUseOf self.old self.new result }
    {
        let done = self.write(rt, offset, bytes);
        self.noted(done)
    }

    /// Writes what is cached to the disk.
    pub(crate) fn sync(&mut self) -> io::Result<()>
        ensures { IsUseOf self.old self.new result }
    {
        let done = self.write_back();
        self.noted(done)
    }
}
