//! The journal over a site.
ghost use Rattle.std.specs.Prelude.{◌≡◌, ◌+◌, ◌-◌, ◌*◌, ◌^◌, ◌<◌, ◌≤◌, [], ◌∷◌, ◌++◌, List, ℕ, length, false, Ok, Err, IfOk, OnOk, OnErr, IsTrue, ◌↔◌};
ghost use Rattle.gw_site.specs.Failures.{HasCause, Rose};
ghost use Rattle.gw_site.specs.Outside.{outside_of};
ghost use Rattle.gw_site.specs.Observed.{Added, Grows, GrowsBy, IfObserved};
ghost use Rattle.jrn_log.specs.Slots.{AreSlots};
ghost use Rattle.jrn_log.specs.Journal.{AreKept, StandsFor};
ghost use Rattle.jrn_log.specs.JournalTurns.{AppendTurns, OpeningTurns};
ghost use Rattle.jrn_log.specs.JournalSteps.{Phase, ToSync, ToMeasure, ToWrite, Done, TakesSteps, RestsDark, reached, measured_phase, opening_reaches, TakesOpening, TakesAppend};
ghost use Rattle.jrn_log.specs.Opening.{OpensWith, IsExactlyTooLong, IsExactlyTruncated};
ghost use Rattle.jrn_log.specs.Images.{AppendImages, OpeningImages};
ghost use Rattle.jrn_log.specs.inner.FileReader.{IsFileRead, TurnsAfterLength, SyncedLengthTurns};

use crate::fault::{AppendFault, OpenFault};
use crate::layout::{CLOSED, SLOT_SIZE};
use crate::read::read_bodies;
use crate::write::{keep_body, write_synced};
use gw_base::Bodies;
use gw_site::{Failed, Site};
use std::alloc::Global;
use std::marker::Model;

/// Syncs, and returns the file's length.
///
/// The sync comes first: what an opening reads must be what a power failure leaves, and a run before may have left
/// writes that were never synced.
fn synced_length<S: Site>(site: &mut S) -> Result<u64, Failed>
    ensures size { IfObserved (S.observed site.old) (λ log. IfOk result (λ size. size ≡ length (outside_of log).file)) }
    ensures turns { Grows (S.observed site.old) (S.observed site.new) (SyncedLengthTurns result) }
    ensures steps { (rest : Phase) → IfObserved (S.observed site.old) (λ before. TakesSteps (ToSync (ToMeasure rest)) (reached rest result) before (S.observed site.old) (S.observed site.new)) }
    ensures rests { RestsDark (S.observed site.old) (S.observed site.new) }
    ensures cause { HasCause (S.observed site.old).faults (S.observed site.new).faults result }
{
    match site.sync() {
        Ok(()) => site.length(),
        Err(Failed) => Err(Failed),
    }
}

/// Writes the first gate, closed, of a file that has no bodies.
fn begin_file<S: Site>(alloc: Global, site: &mut S) -> Result<Bodies, OpenFault>
    ensures none { IfOk result (λ bodies. bodies ≡ []) }
    ensures turns { Grows (S.observed site.old) (S.observed site.new) (TurnsAfterLength 0 result) }
    ensures steps { IfObserved (S.observed site.old) (λ before. TakesSteps (ToWrite 0 (0 ∷ []) (ToSync Done)) (reached Done result) before (S.observed site.old) (S.observed site.new)) }
    ensures rests { RestsDark (S.observed site.old) (S.observed site.new) }
    ensures disk { OnErr result (result ≡ Err OpenFault.Disk) }
    ensures cause { HasCause (S.observed site.old).faults (S.observed site.new).faults result }
{
    match write_synced(site, 0, &[CLOSED]) {
        Ok(()) => Ok(Bodies::new(Vec::new(alloc))),
        Err(Failed) => Err(OpenFault::Disk),
    }
}

/// The bodies of the site's file, which has `size` bytes and was synced.
fn sized_bodies<S: Site>(
    alloc: Global,
    site: &mut S,
    slots: u32,
    size: u64,
) -> Result<Bodies, OpenFault>
    ensures few { IfOk result (λ bodies. length bodies ≤ slots) }
    ensures sized { IfObserved (S.observed site.old) (λ log. size ≡ length (outside_of log).file → IsFileRead slots (outside_of log).file result) }
    ensures turns { Grows (S.observed site.old) (S.observed site.new) (TurnsAfterLength size result) }
    ensures steps { IfObserved (S.observed site.old) (λ before. size ≡ length (outside_of before).file → TakesSteps (measured_phase slots size) (opening_reaches size result) before (S.observed site.old) (S.observed site.new)) }
    ensures rests { RestsDark (S.observed site.old) (S.observed site.new) }
    ensures disk { result ≡ Err OpenFault.Disk → Rose (S.observed site.old).faults (S.observed site.new).faults }
    ensures later { (S.observed site.old).faults ≤ (S.observed site.new).faults }
{
    if size > SLOT_SIZE as u64 * u64::from(slots) + 1 {
        return Err(OpenFault::TooLong { length: size });
    }
    if size <= 1 {
        return begin_file(alloc, site);
    }
    read_bodies(alloc, site, size)
}

/// A journal that was opened on a site.
///
/// Its file is slots of 256 bytes, each a gate and a body of 255. A slot is open where its gate is `A5` and every slot
/// below is open. The bodies of the open slots are the journal's.
#[derive(Drop)]
pub struct Journal {
    len: u32,
    slots: u32,
    opened: u64,
}

impl Model for Journal {
    ghost use Rattle.std.specs.Prelude.{◌≤◌};
    ghost use Rattle.jrn_log.specs.Journal.{JournalValue};

    ghost Value = { JournalValue };

    ghost view = { λ journal. record {
      len = journal.len;
      slots = journal.slots;
      opened = journal.opened;
    } };

    ghost invariant = { λ journal. journal.len ≤ journal.slots };
}

impl Journal {
    /// Opens the journal of a site's file, with at most so many slots, and gives its bodies.
    ///
    /// A file of at most one byte has no open slot and gets its first gate. A failure of the disk is reported before a
    /// fault of the file.
    pub fn open<S: Site>(
        alloc: Global,
        site: &mut S,
        slots: u32,
    ) -> Result<(Journal, Bodies), OpenFault>
        ensures bodies { IfObserved (S.observed site.old) (λ log. IfOk result (OpensWith slots (outside_of log).file)) }
        ensures too_long { IfObserved (S.observed site.old) (λ log. IsExactlyTooLong slots (outside_of log).file result) }
        ensures truncated { IfObserved (S.observed site.old) (λ log. IsExactlyTruncated slots (outside_of log).file result) }
        ensures disk { result ≡ Err OpenFault.Disk → Rose (S.observed site.old).faults (S.observed site.new).faults }
        ensures later { (S.observed site.old).faults ≤ (S.observed site.new).faults }
        ensures count { IfOk result (λ opened. opened.0.len ≡ length opened.1) }
        ensures limit { IfOk result (λ opened. opened.0.slots ≡ slots) }

        // What it adds to the log, what it leaves, and what a power failure in it leaves.
        ensures turns { GrowsBy Added (S.observed site.old) (S.observed site.new) (λ before. OpeningTurns (outside_of before).file result) }
        ensures steps { IfObserved (S.observed site.old) (λ before. TakesOpening slots (length (outside_of before).file) before (S.observed site.old) (S.observed site.new) result) }
        ensures rests { RestsDark (S.observed site.old) (S.observed site.new) }
        ensures stands { IfOk result (λ opened. StandsFor opened.0 (S.observed site.new)) }
        ensures images { IfObserved (S.observed site.old) (λ before. IfObserved (S.observed site.new) (λ after. (bodies : List (List ℕ))
            → AreSlots (outside_of before).file bodies → OpeningImages before after bodies)) }
    {
        match synced_length(site) {
            Err(Failed) => Err(OpenFault::Disk),
            Ok(size) => match sized_bodies(alloc, site, slots, size) {
                Err(fault) => Err(fault),
                Ok(bodies) => {
                    let len = bodies.as_slice().len() as u32;
                    let journal = Journal {
                        len,
                        slots,
                        opened: size,
                    };
                    Ok((journal, bodies))
                }
            },
        }
    }

    /// Keeps a body in the next slot, and gives the slot.
    ///
    /// After a fault the journal is as before, and is opened again before it is used.
    pub fn append<S: Site>(&mut self, site: &mut S, body: &[u8; 255]) -> Result<u32, AppendFault>
        requires room { self.old.len < self.old.slots }
        requires stands { StandsFor self.old (S.observed site.old) }
        ensures slot { IfOk result (λ slot. slot ≡ self.old.len) }
        ensures ok { OnOk result (self.new ≡ record self.old { len = self.old.len + 1 }) }
        ensures err { OnErr result (self.new ≡ self.old) }
        ensures cause { HasCause (S.observed site.old).faults (S.observed site.new).faults result }

        // What it adds to the log, what it leaves, and what a power failure in it leaves.
        ensures turns { Grows (S.observed site.old) (S.observed site.new) (AppendTurns self.old.len body.now result) }
        ensures steps { IfObserved (S.observed site.old) (λ before. TakesAppend self.old.len body.now before (S.observed site.old) (S.observed site.new) result) }
        ensures rests { RestsDark (S.observed site.old) (S.observed site.new) }
        ensures stands { OnOk result (StandsFor self.new (S.observed site.new)) }
        ensures kept { OnOk result ((S.observed site.new).dark ≡ false → IfObserved (S.observed site.old) (λ before. IfObserved (S.observed site.new) (λ after. (bodies : List (List ℕ))
            → AreKept before bodies → AreKept after (bodies ++ body.now ∷ [])))) }
        ensures images { (S.observed site.old).dark ≡ false → IfObserved (S.observed site.old) (λ before. IfObserved (S.observed site.new) (λ after. (bodies : List (List ℕ))
            → AreKept before bodies → AppendImages before after bodies body.now)) }
    {
        match keep_body(site, self.len, body) {
            Err(Failed) => Err(AppendFault::Disk),
            Ok(()) => {
                let slot = self.len;
                self.len = slot + 1;
                Ok(slot)
            }
        }
    }

    /// How many bodies the journal has.
    pub fn len(&self) -> u32
        ensures { result ≡ self.now.len }
    {
        self.len
    }

    /// Whether the journal has no bodies.
    pub fn is_empty(&self) -> bool
        ensures { IsTrue result ↔ (self.now.len ≡ 0) }
    {
        self.len == 0
    }

    /// How many more bodies it may have.
    pub fn room(&self) -> u32
        ensures { result ≡ self.now.slots - self.now.len }
    {
        self.slots - self.len
    }

    /// The length in bytes of the file as the journal was opened.
    pub fn opened(&self) -> u64
        ensures { result ≡ self.now.opened }
    {
        self.opened
    }
}
