//! A connection to the gateway in memory, whose bytes a proof observes, and of which one call fails if that is asked.
ghost use Rattle.std.specs.Prelude.{◌≡◌, ◌≤◌, All, IsErr, IfOk, IfSome, [], length, take, Some};
ghost use Rattle.gw_site.specs.Failures.{HasCause};
ghost use Rattle.gw_site.specs.Streams.{AddsTo};
ghost use Rattle.sale_ws.specs.Gateway.{TakesChunk, heard_of};
ghost use Rattle.sale_ws.specs.Memory.{CountsCall, FailsByNumber, FitsRead};

use crate::gate::Gate;
use gw_base::Bytes;
use gw_site::Failed;
use std::alloc::Global;
use std::marker::Model;

/// What the reads of a connection bring, one each: a chunk of at most 4,096 bytes, an empty one for the end, or `None` for nothing now.
#[derive(Drop)]
pub struct Pieces {
    inner: Vec<Option<Bytes>>,
}

impl Model for Pieces {
    ghost use Rattle.std.specs.Prelude.{List, Option, ℕ};

    ghost Value = { List (Option (List ℕ)) };

    ghost view = { λ pieces. pieces.inner.items };
}

impl Pieces {
    /// Those of this vector.
    pub fn new(inner: Vec<Option<Bytes>>) -> Pieces
        ensures { result ≡ inner.items }
    {
        Pieces { inner }
    }

    /// The vector.
    pub fn inner(&self) -> &Vec<Option<Bytes>>
        ensures { result.now.items ≡ self.now }
    {
        &self.inner
    }
}

/// Makes these the first bytes of the buffer.
fn fill(buf: &mut [u8; 4096], bytes: &[u8])
    requires { length bytes.now ≤ 4096 }
    ensures bytes { take (length bytes.now) buf.new ≡ bytes.now }
    ensures buf { length buf.new ≡ 4096 }
{
    buf[..bytes.len()].copy_from_slice(bytes);
}

/// A connection to the gateway that brings what is there already.
#[derive(Drop)]
pub struct MemGate {
    pieces: Pieces,
    /// The index of the next one.
    next: usize,
    sent: Bytes,
    calls: u64,
    fails: Option<u64>,
    faults: u64,
}

impl Model for MemGate {
    ghost use Rattle.std.specs.Prelude.{◌≤◌, All, drop, length};
    ghost use Rattle.sale_ws.specs.Memory.{FitsRead, GateInMemory};

    ghost Value = { GateInMemory };

    ghost view = { λ gate. record {
      left = drop gate.next gate.pieces;
      sent = gate.sent;
      calls = gate.calls;
      fails = gate.fails;
      faults = gate.faults;
    } };

    ghost invariant = { λ gate. (gate.next ≤ length gate.pieces) × All FitsRead gate.pieces };
}

impl MemGate {
    /// A connection whose reads bring these in turn, and then nothing. Of its calls that of number `fails`, counted from 0, fails.
    pub fn new(alloc: Global, pieces: Pieces, fails: Option<u64>) -> MemGate
        requires { All FitsRead pieces }
        ensures { result ≡ record { left = pieces; sent = []; calls = 0; fails = fails; faults = 0 } }
    {
        MemGate {
            pieces,
            next: 0,
            sent: Bytes::new(Vec::new(alloc)),
            calls: 0,
            fails,
            faults: 0,
        }
    }

    /// What was written.
    pub fn sent(&self) -> &Bytes
        ensures { result.now ≡ self.now.sent }
    {
        &self.sent
    }
}

impl Gate for MemGate {
    ghost observed = { λ gate. record { left = Some gate.left; sent = Some gate.sent; faults = gate.faults } };

    fn read(&mut self, buf: &mut [u8; 4096]) -> Result<Option<usize>, Failed>
        ensures chunk { TakesChunk (Some self.old.left) (Some self.new.left) (heard_of buf.new result) }
        ensures sent { Some self.new.sent ≡ Some self.old.sent }
        ensures bound { IfOk result (λ brought. IfSome brought (λ count. count ≤ 4096)) }
        ensures buf { length buf.new ≡ 4096 }
        ensures cause { HasCause self.old.faults self.new.faults result }
        ensures failed { FailsByNumber self.old.calls self.new.calls self.old.fails self.new.fails (IsErr result) }
    {
        let call = self.calls;
        self.calls = self.calls.saturating_add(1);
        if self.fails == Some(call) {
            self.faults = self.faults.saturating_add(1);
            return Err(Failed);
        }
        let Some(chunk) = self.pieces.inner().get(self.next) else {
            return Ok(None);
        };
        self.next += 1;
        let Some(bytes) = chunk else {
            return Ok(None);
        };
        fill(buf, bytes.as_slice());
        Ok(Some(bytes.as_slice().len()))
    }

    /// A write that finds no memory fails, and takes nothing.
    fn write(&mut self, bytes: &[u8]) -> Result<(), Failed>
        ensures bytes { AddsTo (Some self.old.sent) (Some self.new.sent) bytes.now result }
        ensures left { Some self.new.left ≡ Some self.old.left }
        ensures cause { HasCause self.old.faults self.new.faults result }
        ensures failed { self.old.fails ≡ Some self.old.calls → IsErr result }
        ensures counted { CountsCall self.old.calls self.new.calls self.old.fails self.new.fails }
    {
        let call = self.calls;
        self.calls = self.calls.saturating_add(1);
        if self.fails == Some(call) {
            self.faults = self.faults.saturating_add(1);
            return Err(Failed);
        }
        match self.sent.extend(bytes) {
            Ok(()) => Ok(()),
            Err(_) => {
                self.faults = self.faults.saturating_add(1);
                Err(Failed)
            }
        }
    }
}
