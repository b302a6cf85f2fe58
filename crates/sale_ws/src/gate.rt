//! The connection to the gateway, as a trait.
ghost use Rattle.std.specs.Prelude.{◌≡◌, ◌≤◌, length, IfOk, IfSome};
ghost use Rattle.gw_site.specs.Failures.{HasCause};
ghost use Rattle.gw_site.specs.Streams.{AddsTo};
ghost use Rattle.sale_ws.specs.Gateway.{ObservedGate, TakesChunk, heard_of};

use gw_site::Failed;

/// One till's connection to the gateway. No call waits for bytes.
pub trait Gate {
    /// What is left to be read and what was written, where a proof may observe them, and the count of failures.
    ghost observed: { Self → ObservedGate };

    /// Fills the first bytes of the buffer and returns how many; 0 is the end, and `None` that nothing is there now.
    fn read(&mut self, buf: &mut [u8; 4096]) -> Result<Option<usize>, Failed>
        ensures chunk { TakesChunk (observed self.old).left (observed self.new).left (heard_of buf.new result) }
        ensures sent { (observed self.new).sent ≡ (observed self.old).sent }
        ensures bound { IfOk result (λ brought. IfSome brought (λ count. count ≤ 4096)) }
        ensures buf { length buf.new ≡ 4096 }
        ensures cause { HasCause (observed self.old).faults (observed self.new).faults result };

    /// Writes all of the bytes, or fails and has written a prefix of them.
    fn write(&mut self, bytes: &[u8]) -> Result<(), Failed>
        ensures bytes { AddsTo (observed self.old).sent (observed self.new).sent bytes.now result }
        ensures left { (observed self.new).left ≡ (observed self.old).left }
        ensures cause { HasCause (observed self.old).faults (observed self.new).faults result };
}
