//! A socket in memory, whose messages a proof observes, and of which one call fails if that is asked.
ghost use Rattle.std.specs.Prelude.{◌≡◌, IfOk, [], Some, Err};
ghost use Rattle.sale_ws.specs.Memory.{FailsByNumber};
ghost use Rattle.sale_ws.specs.Socket.{AddsMessages, HasWireCause, TakesGot, message_sent};
ghost use Rattle.sale_ws.specs.declared.wire.WireFault.TheVariants.{Failed as TheFailure};

use crate::wire::{Got, Wire, WireFault};
use gw_base::Bytes;
use std::alloc::{AllocError, Global};
use std::marker::Model;

/// What the reads of a socket give, one each.
#[derive(Drop)]
pub struct Gots {
    inner: Vec<Got>,
}

impl Model for Gots {
    ghost use Rattle.std.specs.Prelude.{List};
    ghost use Rattle.sale_ws.specs.declared.wire.Got.{Got};

    ghost Value = { List Got };

    ghost view = { λ gots. gots.inner.items };
}

impl Gots {
    /// Those of this vector.
    pub fn new(inner: Vec<Got>) -> Gots
        ensures { result ≡ inner.items }
    {
        Gots { inner }
    }

    /// The vector.
    pub fn inner(&self) -> &Vec<Got>
        ensures { result.now.items ≡ self.now }
    {
        &self.inner
    }
}

/// A copy of what a read gives.
fn copied(alloc: Global, got: &Got) -> Result<Got, AllocError>
    ensures { IfOk result (λ copy. copy ≡ got.now) }
{
    match got {
        Got::Message(bytes) => Ok(Got::Message(Bytes::copied(alloc, bytes.as_slice())?)),
        Got::Control => Ok(Got::Control),
        Got::Nothing => Ok(Got::Nothing),
        Got::End => Ok(Got::End),
    }
}

/// A socket that gives what is there already.
#[derive(Drop)]
pub struct MemWire {
    gots: Gots,
    /// The index of the next one.
    next: usize,
    sent: Vec<Bytes>,
    calls: u64,
    fails: Option<u64>,
    faults: u64,
}

impl Model for MemWire {
    ghost use Rattle.std.specs.Prelude.{◌≤◌, drop, length};
    ghost use Rattle.sale_ws.specs.Memory.{WireInMemory};

    ghost Value = { WireInMemory };

    ghost view = { λ wire. record {
      left = drop wire.next wire.gots;
      sent = wire.sent.items;
      calls = wire.calls;
      fails = wire.fails;
      faults = wire.faults;
    } };

    ghost invariant = { λ wire. wire.next ≤ length wire.gots };
}

impl MemWire {
    /// A socket whose reads give these in turn, and then the end. Of its calls that of number `fails`, counted from 0, fails.
    pub fn new(alloc: Global, gots: Gots, fails: Option<u64>) -> MemWire
        ensures { result ≡ record { left = gots; sent = []; calls = 0; fails = fails; faults = 0 } }
    {
        MemWire {
            gots,
            next: 0,
            sent: Vec::new(alloc),
            calls: 0,
            fails,
            faults: 0,
        }
    }

    /// The messages that were sent, in order.
    pub fn sent(&self) -> &[Bytes]
        ensures { result.now ≡ self.now.sent }
    {
        &self.sent
    }
}

impl Wire for MemWire {
    ghost observed = { λ wire. record { left = Some wire.left; sent = Some wire.sent; faults = wire.faults } };

    fn read(&mut self, alloc: Global) -> Result<Got, WireFault>
        ensures got { TakesGot (Some self.old.left) (Some self.new.left) result }
        ensures sent { Some self.new.sent ≡ Some self.old.sent }
        ensures cause { HasWireCause self.old.faults self.new.faults result }
        ensures failed { FailsByNumber self.old.calls self.new.calls self.old.fails self.new.fails (result ≡ Err TheFailure) }
    {
        let call = self.calls;
        self.calls = self.calls.saturating_add(1);
        if self.fails == Some(call) {
            self.faults = self.faults.saturating_add(1);
            return Err(WireFault::Failed);
        }
        let Some(got) = self.gots.inner().get(self.next) else {
            return Ok(Got::End);
        };
        match copied(alloc, got) {
            Ok(copy) => {
                self.next += 1;
                Ok(copy)
            }
            Err(AllocError) => Err(WireFault::Memory),
        }
    }

    fn send(&mut self, alloc: Global, message: &[u8]) -> Result<(), WireFault>
        ensures message { AddsMessages (Some self.old.sent) (Some self.new.sent) (message_sent message.now result) }
        ensures left { Some self.new.left ≡ Some self.old.left }
        ensures cause { HasWireCause self.old.faults self.new.faults result }
        ensures failed { FailsByNumber self.old.calls self.new.calls self.old.fails self.new.fails (result ≡ Err TheFailure) }
    {
        let call = self.calls;
        self.calls = self.calls.saturating_add(1);
        if self.fails == Some(call) {
            self.faults = self.faults.saturating_add(1);
            return Err(WireFault::Failed);
        }
        match Bytes::copied(alloc, message) {
            Ok(copy) => match self.sent.push(copy) {
                Ok(()) => Ok(()),
                Err(_) => Err(WireFault::Memory),
            },
            Err(AllocError) => Err(WireFault::Memory),
        }
    }
}
