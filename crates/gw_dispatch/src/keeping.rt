//! Keeping a record: four calls on the disk, each of which may fail, and then the ledger has it. After a failure there is no further call.
ghost use Rattle.std.specs.Prelude.{◌≡◌, ◌+◌, ◌<◌, ◌≤◌, ◌++◌, ◌∷◌, [], ℕ, ℤ, IfSome, OnOk, OnErr, List, Some, length, option_to_list};
ghost use Rattle.gw_base.specs.declared.setup.Setup.{Setup};
ghost use Rattle.jrn_record.specs.declared.records.Record.{Record as TheRecord};
ghost use Rattle.jrn_log.specs.Journal.{StandsFor};
ghost use Rattle.gw_owes.specs.Calls.{OwedCall};
ghost use Rattle.gw_owes.specs.Core.{Core};
ghost use Rattle.gw_owes.specs.Items.{RoundItem};
ghost use Rattle.gw_core.specs.IsRow.{MayBeKept, keeping_calls};
ghost use Rattle.gw_rules.specs.Scene.{Scene};
ghost use Rattle.gw_rules.specs.Triple.{Triple};
ghost use Rattle.gw_owes.specs.RecordLaws.{memory_of};
ghost use Rattle.gw_dispatch.specs.RunState.{HasSlotsFor, KeepsWithLedger, UnlessBroken};
ghost use Rattle.gw_dispatch.specs.Growth.{HasGoneOn, HasBroken};
ghost use Rattle.gw_dispatch.specs.Keeping.{Kept, OwesKeeping};
ghost use Rattle.gw_dispatch.specs.MidRound.{AreHeard, MidRound};
ghost use Rattle.gw_dispatch.specs.declared.tills.Till.{Till};

use crate::records::Records;
use gw_site::{Failed, Site};
use jrn_log::AppendFault;
use jrn_record::{Record, to_body};

impl Records {
    /// Adds a record to the ledger that the journal has.
    fn add(&mut self, the_record: &Record)
        requires may { MayBeKept self.old.ledger.records the_record.now }
        requires few { length self.old.ledger.records < 1000000 }
        requires spare { memory_of the_record.now ≤ self.old.ledger.spare }
        ensures records { self.new.ledger.records ≡ self.old.ledger.records ++ the_record.now ∷ [] }
        ensures journal { self.new.journal ≡ self.old.journal }
        ensures spare { self.new.ledger.spare + memory_of the_record.now ≡ self.old.ledger.spare }
    {
        match the_record {
            Record::Intent(intent) => {
                self.ledger.accept(intent);
            }
            Record::Outcome(outcome) => self.ledger.resolve(outcome),
            Record::Settled(settled) => {
                self.ledger.settle(settled);
            }
        }
    }

    /// Keeps a record in the next slot of the journal.
    ///
    /// After Ok the record is on the disk, and the ledger has it. After a failure the journal is opened again before it is used.
    pub fn keep<S: Site>(&mut self, site: &mut S, the_record: &Record) -> Result<(), Failed>
        requires room { HasSlotsFor self.old the_record.now }
        requires stands { StandsFor self.old.journal (S.observed site.old) }
        ensures kept { OnOk result (KeepsWithLedger self.old self.new (Some the_record.now)) }
        ensures stands { OnOk result (StandsFor self.new.journal (S.observed site.new)) }
        ensures goes_on { HasGoneOn (S.observed site.old) (S.observed site.new) }
        ensures failed { OnErr result (HasBroken (S.observed site.old) (S.observed site.new)) }
        ensures triple { (scene : Scene) (calls : List OwedCall) (items : List RoundItem) → Triple (S.observed site.old) (S.observed site.new)
            (OwesKeeping scene (length self.old.ledger.records) the_record.now calls items)
            (Kept result scene (length self.old.ledger.records) the_record.now calls items) }
    {
        match self.journal.append(site, &to_body(the_record)) {
            Ok(_) => {
                self.add(the_record);
                Ok(())
            }
            Err(AppendFault::Disk) => Err(Failed),
        }
    }

    /// Keeps the record that is wanted, where there is one.
    pub(crate) fn keep_wanted<S: Site>(
        &mut self,
        site: &mut S,
        wanted: &Option<Record>,
    ) -> Result<(), Failed>
        requires room { IfSome wanted.now (HasSlotsFor self.old) }
        requires count { self.old.journal.len ≡ length self.old.ledger.records }
        requires stands { StandsFor self.old.journal (S.observed site.old) }
        ensures kept { OnOk result (KeepsWithLedger self.old self.new wanted.now) }
        ensures stands { OnOk result (StandsFor self.new.journal (S.observed site.new)) }
        ensures goes_on { HasGoneOn (S.observed site.old) (S.observed site.new) }
        ensures failed { OnErr result (HasBroken (S.observed site.old) (S.observed site.new)) }
        ensures triple { (setup : Setup) (core : Core) (tills : List Till) (polls : ℕ) (now : ℤ) (heard : ℕ → List ℕ) (calls : List OwedCall) (items : List RoundItem)
            → Triple (S.observed site.old) (S.observed site.new)
            (MidRound setup core self.old.ledger.records tills polls now (AreHeard heard) (keeping_calls (length self.old.ledger.records) wanted.now ++ calls) items)
            (UnlessBroken result (λ done. MidRound setup core self.new.ledger.records tills polls now (AreHeard heard) calls items)) }
    {
        match wanted {
            Some(the_record) => self.keep(site, the_record),
            None => Ok(()),
        }
    }
}
