//! A program's standard streams.
ghost use Rattle.std.specs.Prelude.{◌≡◌, ◌≤◌, None, IfOk, length};
ghost use Rattle.gw_site.specs.Failures.{faults_after, HasCause};

use crate::{Failed, Sink, Source};
use std::io::{ErrorKind, Print, Read};

/// One read; where a signal interrupts it, it is made again.
///
/// The loop has an end only so that the function has one: no program is interrupted 2^64 times.
fn read_on<R: Read>(reader: &mut R, buf: &mut [u8; 4096]) -> Result<usize, Failed>
    ensures bound { IfOk result (λ count. count ≤ 4096) }
    ensures buf { length buf.new ≡ 4096 }
{
    for _ in 0..u64::MAX {
        match reader.read(buf) {
            Ok(count) => return Ok(count),
            Err(error) => {
                if error.kind() != ErrorKind::Interrupted {
                    return Err(Failed);
                }
            }
        }
    }
    Err(Failed)
}

/// A source over a reader, such as standard input. A proof observes nothing of its bytes.
#[derive(Drop)]
pub struct StdSource<R: Read + Drop> {
    reader: R,
    faults: u64,
}

impl<R: Read + Drop> StdSource<R> {
    /// A source of what the reader gives.
    pub fn new(reader: R) -> StdSource<R>
        ensures { result.faults ≡ 0 }
    {
        StdSource { reader, faults: 0 }
    }
}

impl<R: Read + Drop> Source for StdSource<R> {
    ghost left = { λ source. None };

    ghost faults = { λ source. source.faults };

    fn read(&mut self, buf: &mut [u8; 4096]) -> Result<usize, Failed>
        ensures bound { IfOk result (λ count. count ≤ 4096) }
        ensures buf { length buf.new ≡ 4096 }
        ensures cause { HasCause self.old.faults self.new.faults result }
        ensures faults { self.new.faults ≡ faults_after self.old.faults result }
    {
        match read_on(&mut self.reader, buf) {
            Ok(count) => Ok(count),
            Err(Failed) => {
                self.faults = self.faults.saturating_add(1);
                Err(Failed)
            }
        }
    }
}

/// A sink over a writer that needs no `&mut`, such as standard output. A proof observes nothing of its bytes.
#[derive(Drop)]
pub struct StdSink<W: Print + Drop> {
    writer: W,
    faults: u64,
}

impl<W: Print + Drop> StdSink<W> {
    /// A sink that writes to the writer.
    pub fn new(writer: W) -> StdSink<W>
        ensures { result.faults ≡ 0 }
    {
        StdSink { writer, faults: 0 }
    }
}

impl<W: Print + Drop> Sink for StdSink<W> {
    ghost written = { λ sink. None };

    ghost faults = { λ sink. sink.faults };

    fn write(&mut self, bytes: &[u8]) -> Result<(), Failed>
        ensures cause { HasCause self.old.faults self.new.faults result }
        ensures faults { self.new.faults ≡ faults_after self.old.faults result }
    {
        match self.writer.write_all(bytes) {
            Ok(()) => Ok(()),
            Err(_) => {
                self.faults = self.faults.saturating_add(1);
                Err(Failed)
            }
        }
    }
}
