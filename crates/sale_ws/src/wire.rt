//! The socket of a till, as a trait.
ghost use Rattle.std.specs.Prelude.{◌≡◌, ⊤, List, ℕ, Result};
ghost use Rattle.sale_ws.specs.Socket.{AddsMessages, HasWireCause, ObservedWire, TakesGot, message_sent};

use gw_base::Bytes;
use std::alloc::Global;

/// What a read of a socket gives.
#[derive(Drop)]
pub enum Got {
    /// A message of the till.
    Message(Bytes),
    /// What has no message for the gateway: a ping or a pong.
    Control,
    /// Nothing is there now.
    Nothing,
    /// No message can come any more.
    End,
}

/// Why a call on a socket failed.
#[derive(Clone, Copy, Debug, PartialEq, Eq)]
pub enum WireFault {
    /// The socket has failed, or its peer broke the protocol; the count of failures rose in the call.
    Failed,
    /// Memory was refused.
    Memory,
}

/// A socket of a till, whose messages are whole. No call waits for a message.
pub trait Wire {
    ghost use Rattle.sale_ws.specs.declared.wire.Got.{Got};
    ghost use Rattle.sale_ws.specs.declared.wire.WireFault.{WireFault};

    /// What is left to be read and what was sent, where a proof may observe them, and the count of failures.
    ghost observed: { Self → ObservedWire };

    /// What a read with this result says of the socket before and after it.
    ghost reads: { Self → Self → Result Got WireFault → Type 0 } = { λ _ _ _. ⊤ };

    /// What a send of these bytes with this result says of the socket before and after it.
    ghost sends: { Self → Self → List ℕ → Result (Unit {0}) WireFault → Type 0 } = { λ _ _ _ _. ⊤ };

    /// One read.
    fn read(&mut self, alloc: Global) -> Result<Got, WireFault>
        ensures got { TakesGot (observed self.old).left (observed self.new).left result }
        ensures sent { (observed self.new).sent ≡ (observed self.old).sent }
        ensures reads { reads self.old self.new result }
        ensures cause { HasWireCause (observed self.old).faults (observed self.new).faults result };

    /// Sends one message.
    fn send(&mut self, alloc: Global, message: &[u8]) -> Result<(), WireFault>
        ensures message { AddsMessages (observed self.old).sent (observed self.new).sent (message_sent message.now result) }
        ensures left { (observed self.new).left ≡ (observed self.old).left }
        ensures sends { sends self.old self.new message.now result }
        ensures cause { HasWireCause (observed self.old).faults (observed self.new).faults result };
}
