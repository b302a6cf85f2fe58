//! A connection to the gateway over a stream.
ghost use Rattle.std.specs.Prelude.{◌≡◌, ◌≤◌, None, IfOk, IfSome, OnOk, length};
ghost use Rattle.std.specs.Io.KnownBytes.{Appends};
ghost use Rattle.gw_site.specs.Failures.{HasCause};
ghost use Rattle.gw_site.specs.Streams.{AddsTo};
ghost use Rattle.sale_ws.specs.Gateway.{TakesChunk, heard_of};
ghost use Rattle.sale_ws.specs.Stream.{TakesBytes};

use crate::gate::Gate;
use gw_site::Failed;
use std::io::{ErrorKind, Read, Write};

/// What one read of a stream brings: `None` where it would wait, or a signal interrupted it.
fn read_now<S: Read>(stream: &mut S, buf: &mut [u8; 4096]) -> Result<Option<usize>, Failed>
    ensures bound { IfOk result (λ brought. IfSome brought (λ count. count ≤ 4096)) }
    ensures buf { length buf.new ≡ 4096 }
    ensures took { TakesBytes (S.remaining stream.old) (S.remaining stream.new) buf.new result }
{
    match stream.read(buf) {
        Ok(count) => Ok(Some(count)),
        Err(error) => match error.kind() {
            ErrorKind::WouldBlock | ErrorKind::Interrupted => Ok(None),
            _ => Err(Failed),
        },
    }
}

/// A connection to the gateway over a stream whose reads don't wait, such as a TCP stream that is set so. A proof observes nothing of its bytes.
#[derive(Drop)]
pub struct StreamGate<S: Read + Write + Drop> {
    stream: S,
    faults: u64,
}

impl<S: Read + Write + Drop> StreamGate<S> {
    /// A connection over the stream.
    pub fn new(stream: S) -> StreamGate<S>
        ensures stream { result.stream ≡ stream }
        ensures faults { result.faults ≡ 0 }
    {
        StreamGate { stream, faults: 0 }
    }

    /// The stream.
    pub fn stream(&self) -> &S
        ensures { result.now ≡ self.now.stream }
    {
        &self.stream
    }

    /// The result of a call, whose failure is counted.
    fn counted<T>(&mut self, done: Result<T, Failed>) -> Result<T, Failed>
        ensures same { result ≡ done }
        ensures cause { HasCause self.old.faults self.new.faults result }
        ensures stream { self.new.stream ≡ self.old.stream }
    {
        if done.is_err() {
            self.faults = self.faults.saturating_add(1);
        }
        done
    }
}

impl<S: Read + Write + Drop> Gate for StreamGate<S> {
    ghost observed = { λ gate. record { left = None; sent = None; faults = gate.faults } };

    fn read(&mut self, buf: &mut [u8; 4096]) -> Result<Option<usize>, Failed>
        ensures chunk { TakesChunk None None (heard_of buf.new result) }
        ensures bound { IfOk result (λ brought. IfSome brought (λ count. count ≤ 4096)) }
        ensures buf { length buf.new ≡ 4096 }
        ensures cause { HasCause self.old.faults self.new.faults result }
        ensures took { TakesBytes (S.remaining self.old.stream) (S.remaining self.new.stream) buf.new result }
    {
        let brought = read_now(&mut self.stream, buf);
        self.counted(brought)
    }

    fn write(&mut self, bytes: &[u8]) -> Result<(), Failed>
        ensures bytes { AddsTo None None bytes.now result }
        ensures cause { HasCause self.old.faults self.new.faults result }
        ensures wrote { OnOk result (Appends (S.contents self.old.stream) (S.contents self.new.stream) bytes.now) }
    {
        let done = match self.stream.write_all(bytes) {
            Ok(()) => Ok(()),
            Err(_) => Err(Failed),
        };
        self.counted(done)
    }
}
