//! The trait of a pair: the connections and two disks.
ghost use Rattle.std.specs.Prelude.{◌≡◌, ◌≤◌, true, length, IsErr, IfOk};
ghost use Rattle.gw_base.specs.Setup.{IsSetup};
ghost use Rattle.gw_site.specs.Failures.{HasCause};
ghost use Rattle.gw_site.specs.Outside.{file_part};
ghost use Rattle.gw_site.specs.Turns.{PolledTurns, IsPromised, IsWithinBuf, SentTillTurns, SentPtTurns, LinkTurns, IsTurn};
ghost use Rattle.gw_site.specs.declared.turn.Turn.TheVariants.{CutTill, CutPt};
ghost use Rattle.jrn_mirror.specs.PairOutside.{disk_of, pair_outside_of};
ghost use Rattle.jrn_mirror.specs.PairObserved.{PairObserved, IfLogged, PairGrows, FailsSo, LineTurns, PairOpenTurns, PairDiskTurns, PairWroteTurns, PairSyncedTurns};

use crate::Half;
use gw_base::Setup;
use gw_site::{Failed, Polled, What};

/// Connections and two disks as one object. What is said of a site holds of its connections, and of each disk by itself. A
/// call that fails on a disk loses it for good, in later runs too: it doesn't come back with the content that it had.
pub trait Pair {
    /// The log, the count of failures, whether the pair is dark, and which disks are lost.
    ghost observed: { Self → PairObserved };

    /// Begins a run with this setup. No connection is open.
    fn open(&mut self, setup: &Setup) -> Result<(), Failed>
        requires { IsSetup setup.now }
        ensures turns { PairGrows (observed self.old) (observed self.new) (PairOpenTurns setup.now result) }
        ensures cause { HasCause (observed self.old).faults (observed self.new).faults result }
        ensures dark { (observed self.old).dark ≡ true → IsErr result };

    /// What happened since the last poll, and the moment.
    fn poll(&mut self, buf: &mut [u8; 4096]) -> Polled
        ensures turns { PairGrows (observed self.old) (observed self.new) (LineTurns (PolledTurns result buf.new)) }
        ensures promise { IfLogged (observed self.old) (λ log. IsPromised (pair_outside_of log).lines result.what) }
        ensures count { IsWithinBuf result.what }
        ensures buf { length buf.new ≡ 4096 }
        ensures cause { (observed self.old).faults ≤ (observed self.new).faults }
        ensures dark { (observed self.old).dark ≡ true → result.what ≡ What.Stopped };

    /// Sends all of the bytes to the till, or fails after a prefix of them.
    fn send_till(&mut self, till: u64, bytes: &[u8]) -> Result<(), Failed>
        ensures turns { PairGrows (observed self.old) (observed self.new) (LineTurns (SentTillTurns till bytes.now result)) }
        ensures cause { HasCause (observed self.old).faults (observed self.new).faults result }
        ensures dark { (observed self.old).dark ≡ true → IsErr result };

    /// Sends all of the bytes to the terminal, or fails after a prefix of them.
    fn send_pt(&mut self, pt: u16, bytes: &[u8]) -> Result<(), Failed>
        ensures turns { PairGrows (observed self.old) (observed self.new) (LineTurns (SentPtTurns pt bytes.now result)) }
        ensures cause { HasCause (observed self.old).faults (observed self.new).faults result }
        ensures dark { (observed self.old).dark ≡ true → IsErr result };

    /// Connects the terminal of this number in the setup's order.
    fn link_pt(&mut self, pt: u16) -> Result<(), Failed>
        ensures turns { PairGrows (observed self.old) (observed self.new) (LineTurns (LinkTurns pt result)) }
        ensures cause { HasCause (observed self.old).faults (observed self.new).faults result }
        ensures dark { (observed self.old).dark ≡ true → IsErr result };

    /// Closes the till's connection.
    fn cut_till(&mut self, till: u64)
        ensures turns { PairGrows (observed self.old) (observed self.new) (LineTurns (IsTurn (CutTill till))) }
        ensures cause { (observed self.old).faults ≤ (observed self.new).faults };

    /// Closes the terminal's connection.
    fn cut_pt(&mut self, pt: u16)
        ensures turns { PairGrows (observed self.old) (observed self.new) (LineTurns (IsTurn (CutPt pt))) }
        ensures cause { (observed self.old).faults ≤ (observed self.new).faults };

    /// The length in bytes of this disk's file.
    fn length(&mut self, disk: Half) -> Result<u64, Failed>
        ensures turns { PairGrows (observed self.old) (observed self.new) (PairDiskTurns disk result) }
        ensures fails { FailsSo (observed self.old) (observed self.new) disk result }
        ensures length { IfLogged (observed self.old) (λ log. IfOk result (λ count. count ≡ length (disk_of (pair_outside_of log) disk).outside.file)) }
        ensures cause { HasCause (observed self.old).faults (observed self.new).faults result };

    /// The bytes of this disk's file from an offset on, with zeros past its end.
    fn read_at(&mut self, disk: Half, offset: u64, buf: &mut [u8]) -> Result<(), Failed>
        ensures turns { PairGrows (observed self.old) (observed self.new) (PairDiskTurns disk result) }
        ensures fails { FailsSo (observed self.old) (observed self.new) disk result }
        ensures bytes { IfLogged (observed self.old) (λ log. IfOk result (λ done. buf.new ≡ file_part (disk_of (pair_outside_of log) disk).outside.file offset (length buf.old))) }
        ensures size { length buf.new ≡ length buf.old }
        ensures cause { HasCause (observed self.old).faults (observed self.new).faults result };

    /// Writes over what is there and past the file's end; a gap is filled with zeros.
    fn write_at(&mut self, disk: Half, offset: u64, bytes: &[u8]) -> Result<(), Failed>
        ensures turns { PairGrows (observed self.old) (observed self.new) (PairWroteTurns disk offset bytes.now result) }
        ensures fails { FailsSo (observed self.old) (observed self.new) disk result }
        ensures cause { HasCause (observed self.old).faults (observed self.new).faults result };

    /// Once it returns Ok, a power failure leaves what was written to this disk up to now.
    fn sync(&mut self, disk: Half) -> Result<(), Failed>
        ensures turns { PairGrows (observed self.old) (observed self.new) (PairSyncedTurns disk result) }
        ensures fails { FailsSo (observed self.old) (observed self.new) disk result }
        ensures cause { HasCause (observed self.old).faults (observed self.new).faults result };
}
