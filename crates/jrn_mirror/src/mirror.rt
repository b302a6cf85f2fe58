//! The site of one disk that stands for a pair of disks.
ghost use Rattle.std.specs.Prelude.{◌≡◌, ◌||◌, true, false, IsErr, IfOk, OnErr, length};
ghost use Rattle.gw_base.specs.Setup.{IsSetup};
ghost use Rattle.gw_site.specs.Observed.{Grows, GrowsWhole, IfObserved, IsStep};
ghost use Rattle.gw_site.specs.Steps.{OpenCall, PollCall, SendTillCall, SendPtCall, LinkCall, CutTillCall, CutPtCall, LengthCall, ReadCall, WriteCall, SyncCall};
ghost use Rattle.gw_site.specs.Outside.{file_part, outside_of};
ghost use Rattle.gw_site.specs.Turns.{OpenTurns, DiskTurns, WroteTurns, SyncedTurns, SentTillTurns, SentPtTurns, LinkTurns, IsTurn, PolledTurns, IsPromised, IsWithinBuf};
ghost use Rattle.gw_site.specs.declared.turn.Turn.TheVariants.{CutTill, CutPt};
ghost use Rattle.jrn_mirror.specs.PairObserved.{PairObserved, IfLogged};
ghost use Rattle.jrn_mirror.specs.Mirrored.{IsMirrored};
ghost use Rattle.jrn_mirror.specs.MirrorObserved.{mirror_observed, MirrorSound, CanMirror, IsBeyondUse, IsOpeningBeyondUse, IsPassedOn, IsFailureCounted, sound-prop};
ghost use Rattle.jrn_mirror.specs.inner.Halves.{ok_if};

use crate::Pair;
use crate::halves::{length_there, read_there, sync_there, write_there};
use crate::opening::open_there;
use gw_base::Setup;
use gw_site::{Failed, Polled, Site, What};

/// Two disks that are used as one.
///
/// Before an opening has returned Ok it may only be opened: after any other call it is dark for good. A disk that was
/// lost must not come back with the content that it had.
#[derive(Drop)]
pub struct Mirror<P: Pair> {
    pair: P,
    faults: u64,
    /// The first disk was not found to be lost.
    first: bool,
    second: bool,
    opened: bool,
    broken: bool,
    ghost sound: { MirrorSound (P.observed pair) first second opened broken } by { sound-prop (P.observed pair) first second opened broken },
}

/// The result as it is; a failure is counted.
fn counted(given: Result<(), Failed>, faults: &mut u64) -> Result<(), Failed>
    ensures same { result ≡ given }
    ensures counted { IsFailureCounted faults.old faults.new result }
{
    match given {
        Ok(()) => Ok(()),
        Err(Failed) => {
            *faults = faults.saturating_add(1);
            Err(Failed)
        }
    }
}

/// Ok where one of the disks is there, else a failure that is counted.
fn outcome(first: bool, second: bool, faults: &mut u64) -> Result<(), Failed>
    ensures outcome { result ≡ ok_if (first || second) }
    ensures counted { IsFailureCounted faults.old faults.new result }
{
    if first | second {
        Ok(())
    } else {
        *faults = faults.saturating_add(1);
        Err(Failed)
    }
}

impl<P: Pair> Mirror<P> {
    /// The two disks of this pair as one.
    pub fn new(pair: P) -> Mirror<P>
        requires { CanMirror (P.observed pair) }
        ensures pair { result.pair ≡ pair }
        ensures faults { result.faults ≡ 0 }
        ensures whole { result.broken ≡ false }
    {
        Mirror {
            pair,
            faults: 0,
            first: true,
            second: true,
            opened: false,
            broken: false,
        }
    }

    /// The pair as it is.
    pub fn into_pair(self) -> P
        ensures pair { result ≡ self.pair }
        ensures mirrored { IfLogged (P.observed result) IsMirrored }
    {
        self.pair
    }

    /// A call that is made without an opening fails, and the mirror is dark from here on.
    fn refuse(&mut self) -> Result<(), Failed>
        requires { self.old.opened ≡ false }
        ensures failed { IsErr result }
        ensures counted { IsFailureCounted self.old.faults self.new.faults result }
        ensures pair { self.new.pair ≡ self.old.pair }
        ensures broken { self.new.broken ≡ true }
    {
        self.broken = true;
        self.faults = self.faults.saturating_add(1);
        Err(Failed)
    }
}

impl<P: Pair> Site for Mirror<P> {
    ghost observed = { λ mirror. mirror_observed (P.observed mirror.pair) mirror.faults mirror.broken };

    /// Opens the pair, copies the longer file over the other, and syncs each disk that is there.
    fn open(&mut self, setup: &Setup) -> Result<(), Failed>
        requires { IsSetup setup.now }
        ensures turns { GrowsWhole (mirror_observed (P.observed self.old.pair) self.old.faults self.old.broken) (mirror_observed (P.observed self.new.pair) self.new.faults self.new.broken) (OpenTurns setup.now result) }
        ensures step { IsStep (mirror_observed (P.observed self.old.pair) self.old.faults self.old.broken) (mirror_observed (P.observed self.new.pair) self.new.faults self.new.broken) (OpenCall setup.now) }
        ensures counted { IsFailureCounted self.old.faults self.new.faults result }
        ensures dark { (mirror_observed (P.observed self.old.pair) self.old.faults self.old.broken).dark ≡ true → IsErr result }
        ensures lost { OnErr result (IsOpeningBeyondUse (P.observed self.old.pair) (P.observed self.new.pair) self.old.broken) }
    {
        if self.broken {
            return outcome(false, false, &mut self.faults);
        }
        match open_there(&mut self.pair, setup, self.first, self.second) {
            Ok((first, second)) => {
                self.first = first;
                self.second = second;
                self.opened = first | second;
                outcome(first, second, &mut self.faults)
            }
            Err(Failed) => {
                self.opened = false;
                outcome(false, false, &mut self.faults)
            }
        }
    }

    /// What happened since the last poll, and the moment. Without an opening it is the end.
    fn poll(&mut self, buf: &mut [u8; 4096]) -> Polled
        ensures turns { Grows (mirror_observed (P.observed self.old.pair) self.old.faults self.old.broken) (mirror_observed (P.observed self.new.pair) self.new.faults self.new.broken) (PolledTurns result buf.new) }
        ensures step { IsStep (mirror_observed (P.observed self.old.pair) self.old.faults self.old.broken) (mirror_observed (P.observed self.new.pair) self.new.faults self.new.broken) PollCall }
        ensures promise { IfObserved (mirror_observed (P.observed self.old.pair) self.old.faults self.old.broken) (λ log. IsPromised (outside_of log) result.what) }
        ensures count { IsWithinBuf result.what }
        ensures buf { length buf.new ≡ 4096 }
        ensures faults { self.new.faults ≡ self.old.faults }
        ensures dark { (mirror_observed (P.observed self.old.pair) self.old.faults self.old.broken).dark ≡ true → result.what ≡ What.Stopped }
    {
        if self.opened {
            self.pair.poll(buf)
        } else {
            self.broken = true;
            Polled {
                now: 0,
                what: What::Stopped,
            }
        }
    }

    /// Sends all of the bytes to the till, or fails after a prefix of them.
    fn send_till(&mut self, till: u64, bytes: &[u8]) -> Result<(), Failed>
        ensures turns { Grows (mirror_observed (P.observed self.old.pair) self.old.faults self.old.broken) (mirror_observed (P.observed self.new.pair) self.new.faults self.new.broken) (SentTillTurns till bytes.now result) }
        ensures step { IsStep (mirror_observed (P.observed self.old.pair) self.old.faults self.old.broken) (mirror_observed (P.observed self.new.pair) self.new.faults self.new.broken) (SendTillCall till bytes.now) }
        ensures counted { IsFailureCounted self.old.faults self.new.faults result }
        ensures dark { (mirror_observed (P.observed self.old.pair) self.old.faults self.old.broken).dark ≡ true → IsErr result }
        ensures passed { OnErr result (IsPassedOn (P.observed self.old.pair) (P.observed self.new.pair) self.old.opened) }
    {
        if self.opened {
            let made = self.pair.send_till(till, bytes);
            counted(made, &mut self.faults)
        } else {
            self.refuse()
        }
    }

    /// Sends all of the bytes to the terminal, or fails after a prefix of them.
    fn send_pt(&mut self, pt: u16, bytes: &[u8]) -> Result<(), Failed>
        ensures turns { Grows (mirror_observed (P.observed self.old.pair) self.old.faults self.old.broken) (mirror_observed (P.observed self.new.pair) self.new.faults self.new.broken) (SentPtTurns pt bytes.now result) }
        ensures step { IsStep (mirror_observed (P.observed self.old.pair) self.old.faults self.old.broken) (mirror_observed (P.observed self.new.pair) self.new.faults self.new.broken) (SendPtCall pt bytes.now) }
        ensures counted { IsFailureCounted self.old.faults self.new.faults result }
        ensures dark { (mirror_observed (P.observed self.old.pair) self.old.faults self.old.broken).dark ≡ true → IsErr result }
        ensures passed { OnErr result (IsPassedOn (P.observed self.old.pair) (P.observed self.new.pair) self.old.opened) }
    {
        if self.opened {
            let made = self.pair.send_pt(pt, bytes);
            counted(made, &mut self.faults)
        } else {
            self.refuse()
        }
    }

    /// Connects the terminal of this number.
    fn link_pt(&mut self, pt: u16) -> Result<(), Failed>
        ensures turns { Grows (mirror_observed (P.observed self.old.pair) self.old.faults self.old.broken) (mirror_observed (P.observed self.new.pair) self.new.faults self.new.broken) (LinkTurns pt result) }
        ensures step { IsStep (mirror_observed (P.observed self.old.pair) self.old.faults self.old.broken) (mirror_observed (P.observed self.new.pair) self.new.faults self.new.broken) (LinkCall pt) }
        ensures counted { IsFailureCounted self.old.faults self.new.faults result }
        ensures dark { (mirror_observed (P.observed self.old.pair) self.old.faults self.old.broken).dark ≡ true → IsErr result }
        ensures passed { OnErr result (IsPassedOn (P.observed self.old.pair) (P.observed self.new.pair) self.old.opened) }
    {
        if self.opened {
            let made = self.pair.link_pt(pt);
            counted(made, &mut self.faults)
        } else {
            self.refuse()
        }
    }

    /// Closes this connection.
    fn cut_till(&mut self, till: u64)
        ensures turns { Grows (mirror_observed (P.observed self.old.pair) self.old.faults self.old.broken) (mirror_observed (P.observed self.new.pair) self.new.faults self.new.broken) (IsTurn (CutTill till)) }
        ensures step { IsStep (mirror_observed (P.observed self.old.pair) self.old.faults self.old.broken) (mirror_observed (P.observed self.new.pair) self.new.faults self.new.broken) (CutTillCall till) }
        ensures faults { self.new.faults ≡ self.old.faults }
    {
        if self.opened {
            self.pair.cut_till(till);
        } else {
            self.broken = true;
        }
    }

    /// Closes this connection.
    fn cut_pt(&mut self, pt: u16)
        ensures turns { Grows (mirror_observed (P.observed self.old.pair) self.old.faults self.old.broken) (mirror_observed (P.observed self.new.pair) self.new.faults self.new.broken) (IsTurn (CutPt pt)) }
        ensures step { IsStep (mirror_observed (P.observed self.old.pair) self.old.faults self.old.broken) (mirror_observed (P.observed self.new.pair) self.new.faults self.new.broken) (CutPtCall pt) }
        ensures faults { self.new.faults ≡ self.old.faults }
    {
        if self.opened {
            self.pair.cut_pt(pt);
        } else {
            self.broken = true;
        }
    }

    /// The file's length in bytes, as the first disk that is there has it.
    fn length(&mut self) -> Result<u64, Failed>
        ensures turns { Grows (mirror_observed (P.observed self.old.pair) self.old.faults self.old.broken) (mirror_observed (P.observed self.new.pair) self.new.faults self.new.broken) (DiskTurns result) }
        ensures step { IsStep (mirror_observed (P.observed self.old.pair) self.old.faults self.old.broken) (mirror_observed (P.observed self.new.pair) self.new.faults self.new.broken) LengthCall }
        ensures length { IfObserved (mirror_observed (P.observed self.old.pair) self.old.faults self.old.broken) (λ log. IfOk result (λ count. count ≡ length (outside_of log).file)) }
        ensures counted { IsFailureCounted self.old.faults self.new.faults result }
        ensures dark { (mirror_observed (P.observed self.old.pair) self.old.faults self.old.broken).dark ≡ true → IsErr result }
        ensures lost { OnErr result (IsBeyondUse (P.observed self.new.pair) self.old.opened) }
    {
        if self.opened {
            let (count, first, second) = length_there(&mut self.pair, self.first, self.second);
            self.first = first;
            self.second = second;
            match count {
                Some(count) => Ok(count),
                None => {
                    self.faults = self.faults.saturating_add(1);
                    Err(Failed)
                }
            }
        } else {
            let _failed = self.refuse();
            Err(Failed)
        }
    }

    /// The file's bytes from an offset on, as the first disk that is there has them.
    fn read_at(&mut self, offset: u64, buf: &mut [u8]) -> Result<(), Failed>
        ensures turns { Grows (mirror_observed (P.observed self.old.pair) self.old.faults self.old.broken) (mirror_observed (P.observed self.new.pair) self.new.faults self.new.broken) (DiskTurns result) }
        ensures step { IsStep (mirror_observed (P.observed self.old.pair) self.old.faults self.old.broken) (mirror_observed (P.observed self.new.pair) self.new.faults self.new.broken) (ReadCall offset (length buf.old)) }
        ensures bytes { IfObserved (mirror_observed (P.observed self.old.pair) self.old.faults self.old.broken) (λ log. IfOk result (λ done. buf.new ≡ file_part (outside_of log).file offset (length buf.old))) }
        ensures counted { IsFailureCounted self.old.faults self.new.faults result }
        ensures dark { (mirror_observed (P.observed self.old.pair) self.old.faults self.old.broken).dark ≡ true → IsErr result }
        ensures lost { OnErr result (IsBeyondUse (P.observed self.new.pair) self.old.opened) }
    {
        if self.opened {
            let (first, second) = read_there(&mut self.pair, self.first, self.second, offset, buf);
            self.first = first;
            self.second = second;
            outcome(first, second, &mut self.faults)
        } else {
            self.refuse()
        }
    }

    /// Writes to the disks that are there.
    fn write_at(&mut self, offset: u64, bytes: &[u8]) -> Result<(), Failed>
        ensures turns { Grows (mirror_observed (P.observed self.old.pair) self.old.faults self.old.broken) (mirror_observed (P.observed self.new.pair) self.new.faults self.new.broken) (WroteTurns offset bytes.now result) }
        ensures step { IsStep (mirror_observed (P.observed self.old.pair) self.old.faults self.old.broken) (mirror_observed (P.observed self.new.pair) self.new.faults self.new.broken) (WriteCall offset bytes.now) }
        ensures counted { IsFailureCounted self.old.faults self.new.faults result }
        ensures dark { (mirror_observed (P.observed self.old.pair) self.old.faults self.old.broken).dark ≡ true → IsErr result }
        ensures lost { OnErr result (IsBeyondUse (P.observed self.new.pair) self.old.opened) }
    {
        if self.opened {
            let (first, second) = write_there(
                &mut self.pair,
                self.first,
                self.second,
                offset,
                bytes,
            );
            self.first = first;
            self.second = second;
            outcome(first, second, &mut self.faults)
        } else {
            self.refuse()
        }
    }

    /// Syncs the disks that are there.
    fn sync(&mut self) -> Result<(), Failed>
        ensures turns { Grows (mirror_observed (P.observed self.old.pair) self.old.faults self.old.broken) (mirror_observed (P.observed self.new.pair) self.new.faults self.new.broken) (SyncedTurns result) }
        ensures step { IsStep (mirror_observed (P.observed self.old.pair) self.old.faults self.old.broken) (mirror_observed (P.observed self.new.pair) self.new.faults self.new.broken) SyncCall }
        ensures counted { IsFailureCounted self.old.faults self.new.faults result }
        ensures dark { (mirror_observed (P.observed self.old.pair) self.old.faults self.old.broken).dark ≡ true → IsErr result }
        ensures lost { OnErr result (IsBeyondUse (P.observed self.new.pair) self.old.opened) }
    {
        if self.opened {
            let (first, second) = sync_there(&mut self.pair, self.first, self.second);
            self.first = first;
            self.second = second;
            outcome(first, second, &mut self.faults)
        } else {
            self.refuse()
        }
    }
}
