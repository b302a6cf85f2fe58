//! The trait of a site: the connections and the disk.
ghost use Rattle.std.specs.Prelude.{◌≡◌, ◌≤◌, true, length, IsErr, IfOk};
ghost use Rattle.gw_base.specs.Setup.{IsSetup};
ghost use Rattle.gw_site.specs.Failures.{HasCause};
ghost use Rattle.gw_site.specs.Outside.{outside_of, file_part};
ghost use Rattle.gw_site.specs.Observed.{Observed, Grows, GrowsWhole, IfObserved, IsStep};
ghost use Rattle.gw_site.specs.Steps.{OpenCall, PollCall, SendTillCall, SendPtCall, LinkCall, CutTillCall, CutPtCall, LengthCall, ReadCall, WriteCall, SyncCall};
ghost use Rattle.gw_site.specs.Turns.{OpenTurns, PolledTurns, IsPromised, IsWithinBuf, SentTillTurns, SentPtTurns, LinkTurns, DiskTurns, WroteTurns, SyncedTurns, IsTurn};
ghost use Rattle.gw_site.specs.declared.turn.Turn.TheVariants.{CutTill, CutPt};

use gw_base::Setup;

/// A call on the outside has failed; the object's count of failures rose in it.
#[derive(Clone, Copy, Debug, PartialEq, Eq)]
pub struct Failed;

/// What a poll brings. A count is that of the first bytes of the buffer.
#[derive(Clone, Copy, PartialEq, Eq)]
pub enum What {
    TillOpened(u64),
    TillBytes(u64, usize),
    TillClosed(u64),
    PtBytes(u16, usize),
    PtClosed(u16),
    Nothing,
    Stopped,
}

/// What a poll brings, and when, in seconds since 1970-01-01T00:00:00Z.
#[derive(Clone, Copy, PartialEq, Eq)]
pub struct Polled {
    pub now: i64,
    pub what: What,
}

/// Connections and disk as one object, so that the order of a sync and a send is that of one log.
///
/// Each call says what it appends to the log, where a proof may observe one. A site becomes dark by a power failure, or in
/// memory where its own log could not grow. A dark site stays dark and appends nothing; in the call in which it goes dark
/// it appends a prefix of its turns.
pub trait Site {
    /// The log, the count of failures, whether the site is dark, the script that determines what it plays, and the turns of
    /// further steps.
    ghost observed: { Self → Observed };

    /// Begins a run with this setup. No connection is open.
    fn open(&mut self, setup: &Setup) -> Result<(), Failed>
        requires { IsSetup setup.now }
        ensures turns { GrowsWhole (observed self.old) (observed self.new) (OpenTurns setup.now result) }
        ensures step { IsStep (observed self.old) (observed self.new) (OpenCall setup.now) }
        ensures cause { HasCause (observed self.old).faults (observed self.new).faults result }
        ensures dark { (observed self.old).dark ≡ true → IsErr result };

    /// What happened since the last poll, and the moment. The buffer is the caller's, so that a poll takes no memory.
    fn poll(&mut self, buf: &mut [u8; 4096]) -> Polled
        ensures turns { Grows (observed self.old) (observed self.new) (PolledTurns result buf.new) }
        ensures step { IsStep (observed self.old) (observed self.new) PollCall }
        ensures promise { IfObserved (observed self.old) (λ log. IsPromised (outside_of log) result.what) }
        ensures count { IsWithinBuf result.what }
        ensures buf { length buf.new ≡ 4096 }
        ensures cause { (observed self.old).faults ≤ (observed self.new).faults }
        ensures dark { (observed self.old).dark ≡ true → result.what ≡ What.Stopped };

    /// Sends all of the bytes to the till, or fails after a prefix of them.
    fn send_till(&mut self, till: u64, bytes: &[u8]) -> Result<(), Failed>
        ensures turns { Grows (observed self.old) (observed self.new) (SentTillTurns till bytes.now result) }
        ensures step { IsStep (observed self.old) (observed self.new) (SendTillCall till bytes.now) }
        ensures cause { HasCause (observed self.old).faults (observed self.new).faults result }
        ensures dark { (observed self.old).dark ≡ true → IsErr result };

    /// Sends all of the bytes to the terminal, or fails after a prefix of them.
    fn send_pt(&mut self, pt: u16, bytes: &[u8]) -> Result<(), Failed>
        ensures turns { Grows (observed self.old) (observed self.new) (SentPtTurns pt bytes.now result) }
        ensures step { IsStep (observed self.old) (observed self.new) (SendPtCall pt bytes.now) }
        ensures cause { HasCause (observed self.old).faults (observed self.new).faults result }
        ensures dark { (observed self.old).dark ≡ true → IsErr result };

    /// Connects the terminal of this number in the setup's order. An earlier connection of it is replaced.
    fn link_pt(&mut self, pt: u16) -> Result<(), Failed>
        ensures turns { Grows (observed self.old) (observed self.new) (LinkTurns pt result) }
        ensures step { IsStep (observed self.old) (observed self.new) (LinkCall pt) }
        ensures cause { HasCause (observed self.old).faults (observed self.new).faults result }
        ensures dark { (observed self.old).dark ≡ true → IsErr result };

    /// Closes the till's connection.
    fn cut_till(&mut self, till: u64)
        ensures turns { Grows (observed self.old) (observed self.new) (IsTurn (CutTill till)) }
        ensures step { IsStep (observed self.old) (observed self.new) (CutTillCall till) }
        ensures cause { (observed self.old).faults ≤ (observed self.new).faults };

    /// Closes the terminal's connection.
    fn cut_pt(&mut self, pt: u16)
        ensures turns { Grows (observed self.old) (observed self.new) (IsTurn (CutPt pt)) }
        ensures step { IsStep (observed self.old) (observed self.new) (CutPtCall pt) }
        ensures cause { (observed self.old).faults ≤ (observed self.new).faults };

    /// The file's length in bytes.
    fn length(&mut self) -> Result<u64, Failed>
        ensures turns { Grows (observed self.old) (observed self.new) (DiskTurns result) }
        ensures step { IsStep (observed self.old) (observed self.new) LengthCall }
        ensures length { IfObserved (observed self.old) (λ log. IfOk result (λ count. count ≡ length (outside_of log).file)) }
        ensures cause { HasCause (observed self.old).faults (observed self.new).faults result }
        ensures dark { (observed self.old).dark ≡ true → IsErr result };

    /// The file's bytes from an offset on, with zeros past its end.
    fn read_at(&mut self, pos: u64, buf: &mut [u8]) -> Result<(), Failed>
        ensures turns { Grows (observed self.old) (observed self.new) (DiskTurns result) }
        ensures step { IsStep (observed self.old) (observed self.new) (ReadCall pos (length buf.old)) }
        ensures bytes { IfObserved (observed self.old) (λ log. IfOk result (λ done. buf.new ≡ file_part (outside_of log).file pos (length buf.old))) }
        ensures cause { HasCause (observed self.old).faults (observed self.new).faults result }
        ensures dark { (observed self.old).dark ≡ true → IsErr result };

    /// Writes over what is there and past the file's end; a gap is filled with zeros.
    fn write_at(&mut self, pos: u64, bytes: &[u8]) -> Result<(), Failed>
        ensures turns { Grows (observed self.old) (observed self.new) (WroteTurns pos bytes.now result) }
        ensures step { IsStep (observed self.old) (observed self.new) (WriteCall pos bytes.now) }
        ensures cause { HasCause (observed self.old).faults (observed self.new).faults result }
        ensures dark { (observed self.old).dark ≡ true → IsErr result };

    /// Once it returns Ok, a power failure leaves what was written up to now.
    fn sync(&mut self) -> Result<(), Failed>
        ensures turns { Grows (observed self.old) (observed self.new) (SyncedTurns result) }
        ensures step { IsStep (observed self.old) (observed self.new) SyncCall }
        ensures cause { HasCause (observed self.old).faults (observed self.new).faults result }
        ensures dark { (observed self.old).dark ≡ true → IsErr result };
}
