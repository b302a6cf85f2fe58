//! What a program reads from and writes to.
ghost use Rattle.std.specs.Prelude.{◌≡◌, ◌≤◌, List, ℕ, Option, length, IfOk};
ghost use Rattle.gw_site.specs.Failures.{HasCause};
ghost use Rattle.gw_site.specs.Streams.{TakesFrom, EndsAt, AddsTo};

use crate::Failed;

/// Bytes to be read once, in order.
pub trait Source {
    /// The bytes that are left, where a proof may observe them.
    ghost left: { Self → Option (List ℕ) };

    /// How often a read has failed.
    ghost faults: { Self → ℕ };

    /// Fills the first bytes of the buffer and returns how many; 0 is the end.
    fn read(&mut self, buf: &mut [u8; 4096]) -> Result<usize, Failed>
        ensures bytes { TakesFrom (left self.old) (left self.new) buf.new result }
        ensures end { EndsAt (left self.old) result }
        ensures bound { IfOk result (λ count. count ≤ 4096) }
        ensures buf { length buf.new ≡ 4096 }
        ensures cause { HasCause (faults self.old) (faults self.new) result };
}

/// Where bytes are written, in order.
pub trait Sink {
    /// The bytes that were written, where a proof may observe them.
    ghost written: { Self → Option (List ℕ) };

    /// How often a write has failed.
    ghost faults: { Self → ℕ };

    /// Writes all of the bytes, or fails and has written a prefix of them.
    fn write(&mut self, bytes: &[u8]) -> Result<(), Failed>
        ensures bytes { AddsTo (written self.old) (written self.new) bytes.now result }
        ensures cause { HasCause (faults self.old) (faults self.new) result };
}
