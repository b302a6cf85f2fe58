//! The ledger: its tables by slot and by terminal, and the table of keys.
ghost use Rattle.std.specs.Prelude.{◌≡◌, ◌+◌, ◌<◌, ◌≤◌, [], ◌∷◌, ◌++◌, length, IsTrue, OnOk, OnErr, IfOk, IfErr};
ghost use Rattle.gw_base.specs.Key.{key_cmp};
ghost use Rattle.jrn_record.specs.Limits.{IsIntent, IsOutcome, IsSettled};
ghost use Rattle.jrn_record.specs.declared.records.Record.{Record};
ghost use Rattle.gw_ledger.specs.Accounts.{is_settled, last_number_of};
ghost use Rattle.gw_ledger.specs.Fold.{AreBodiesOf, AreFolded, IfBad, IsFirstBad, fits, found_of, last_entry, open_entry};
ghost use Rattle.gw_ledger.specs.Keys.{slot_of};
ghost use Rattle.gw_ledger.specs.KeyTable.{AreKeyRows, AreKeys, HaveTheirKeys};
ghost use Rattle.gw_ledger.specs.Slots.{entry_at, is_reversed};
ghost use Rattle.gw_ledger.specs.Sums.{open_count_of, tally_of, totals_of};
ghost use Rattle.gw_ledger.specs.Table.{IsTable};
ghost use Rattle.gw_ledger.specs.Transaction.{named_of};

use crate::blocks::Blocks;
use crate::entry::{Entry, Found};
use crate::fault::{BadRecord, LedgerFault};
use crate::records::{key_of_intent, key_of_settled};
use crate::sorted::{SortedKeys, tables_of};
use crate::tables::Tables;
use crate::totals::{Tally, Totals};
use gw_base::{Bodies, Currency, Ident, Key};
use jrn_record::{Intent, Outcome, Settled, law_bodies};
use std::alloc::{AllocError, Global};
use std::marker::Model;

/// The fold of the records of a journal.
///
/// A contract sees the records, and for how many more Intents or Settled it has room.
#[derive(Drop)]
pub struct Ledger {
    tables: Tables,
    /// The slots of the records that have a key, sorted by it.
    slots: Blocks,
}

impl Model for Ledger {
    ghost use Rattle.std.specs.Prelude.{◌≤◌};
    ghost use Rattle.gw_ledger.specs.Fold.{AreFolded, LedgerValue};

    ghost Value = { LedgerValue };

    ghost use Rattle.gw_ledger.specs.KeyTable.{AreKeys, HaveTheirKeys};

    ghost view = { λ l. record { records = l.tables.records; spare = l.tables.spare } };

    ghost invariant = { λ l. AreFolded l.tables.records × AreKeys l.tables.records l.slots.slots
        × HaveTheirKeys l.tables.records l.slots.firsts × (l.tables.spare ≤ l.slots.spare) };
}

/// The slots of these keys in their order, with room for as many more as the tables have.
fn sorted_slots(alloc: Global, tables: &Tables, keys: &SortedKeys) -> Result<Blocks, AllocError>
    requires table { IsTable key_cmp keys.now }
    requires rows { AreKeyRows tables.now.records keys.now }
    ensures keys { IfOk result (λ slots. AreKeys tables.now.records slots.slots) }
    ensures firsts { IfOk result (λ slots. HaveTheirKeys tables.now.records slots.firsts) }
    ensures spare { IfOk result (λ slots. tables.now.spare ≤ slots.spare) }
{
    let order = keys.slots(alloc)?;
    let mut slots = Blocks::of(alloc, tables, &order)?;
    slots.reserve(tables.spare())?;
    Ok(slots)
}

impl Ledger {
    /// The ledger of the records of these bodies, or the first slot that is no record or one that may not come next.
    ///
    /// Each record is added whatever its key, as far as each may come next, and then the keys are sorted once. So the first
    /// record that may not come next is the first whose key an earlier one has, or the one after those that were added.
    pub fn from_records(alloc: Global, bodies: &Bodies) -> Result<Ledger, LedgerFault>
        requires { length bodies.now ≤ 1000000 }
        ensures folded { IfOk result (λ ledger. AreBodiesOf bodies.now ledger.records) }
        ensures bad { IfErr result (IfBad (IsFirstBad bodies.now)) }
    {
        law_bodies();
        let tables = match tables_of(alloc, bodies) {
            Ok(tables) => tables,
            Err(_) => return Err(LedgerFault::Memory),
        };
        let keys = match SortedKeys::of(alloc, &tables) {
            Ok(keys) => keys,
            Err(_) => return Err(LedgerFault::Memory),
        };
        tables.law_folded();
        match keys.least_fall() {
            Some(slot) => return Err(LedgerFault::BadRecord(BadRecord { slot })),
            None => {}
        }
        if (tables.count() as usize) < bodies.as_slice().len() {
            let slot = tables.count();
            return Err(LedgerFault::BadRecord(BadRecord { slot }));
        }
        match Ledger::sorted(alloc, tables, &keys) {
            Ok(ledger) => Ok(ledger),
            Err(_) => Err(LedgerFault::Memory),
        }
    }

    /// The ledger of these tables, whose keys these are in their order.
    fn sorted(alloc: Global, tables: Tables, keys: &SortedKeys) -> Result<Ledger, AllocError>
        requires table { IsTable key_cmp keys.now }
        requires rows { AreKeyRows tables.records keys.now }
        ensures { IfOk result (λ ledger. ledger.records ≡ tables.records) }
    {
        let slots = sorted_slots(alloc, &tables, keys)?;
        tables.law_folded();
        Ok(Ledger { tables, slots })
    }

    /// The slot of the Intent or Settled that has the key.
    fn slot_of(&self, key: &Key) -> Option<u32>
        ensures { result ≡ slot_of self.now.records key.now }
    {
        self.slots.get(&self.tables, key)
    }

    /// Makes room for so many more Intents or Settled, with the Outcome of each.
    // Each table keeps its own handle to memory, so the one that callers pass isn't needed.
    pub fn reserve(&mut self, _alloc: Global, more: usize) -> Result<(), AllocError>
        ensures records { self.new.records ≡ self.old.records }
        ensures ok { OnOk result (more ≤ self.new.spare) }
        ensures err { OnErr result (self.new ≡ self.old) }
    {
        // The slots first: where the tables have no memory, the room here is not seen.
        self.slots.reserve(more)?;
        self.tables.reserve(more)
    }

    /// Adds an Intent, and returns its slot.
    pub fn accept(&mut self, intent: &Intent) -> u32
        requires spare { 1 ≤ self.old.spare }
        requires few { length self.old.records < 1000000 }
        requires within { IsIntent intent.now }
        requires fits { IsTrue (fits self.old.records (Record.Intent intent.now)) }
        ensures slot { result ≡ length self.old.records }
        ensures records { self.new.records ≡ self.old.records ++ Record.Intent intent.now ∷ [] }
        ensures spare { self.new.spare + 1 ≡ self.old.spare }
    {
        let slot = self.tables.accept(intent);
        self.slots
            .insert(&self.tables, &key_of_intent(intent), slot);
        slot
    }

    /// Adds the Outcome of an open Intent, for which there is room since that was accepted.
    pub fn resolve(&mut self, outcome: &Outcome)
        requires few { length self.old.records < 1000000 }
        requires within { IsOutcome outcome.now }
        requires fits { IsTrue (fits self.old.records (Record.Outcome outcome.now)) }
        ensures records { self.new.records ≡ self.old.records ++ Record.Outcome outcome.now ∷ [] }
        ensures spare { self.new.spare ≡ self.old.spare }
    {
        self.tables.resolve(outcome);
    }

    /// Adds a Settled, and returns the terminal's totals in its currency up to it.
    pub fn settle(&mut self, settled: &Settled) -> Totals
        requires spare { 1 ≤ self.old.spare }
        requires few { length self.old.records < 1000000 }
        requires within { IsSettled settled.now }
        requires fits { IsTrue (fits self.old.records (Record.Settled settled.now)) }
        ensures totals { result ≡ totals_of self.old.records settled.now.poi settled.now.currency }
        ensures records { self.new.records ≡ self.old.records ++ Record.Settled settled.now ∷ [] }
        ensures spare { self.new.spare + 1 ≡ self.old.spare }
    {
        let slot = self.tables.count();
        let totals = self.tables.settle(settled);
        self.slots
            .insert(&self.tables, &key_of_settled(settled), slot);
        totals
    }

    /// What has the key: an entry, open or with its Outcome, or a reconciliation.
    pub fn find(&self, key: &Key) -> Option<Found>
        ensures { result ≡ found_of self.now.records key.now }
    {
        match self.slot_of(key) {
            Some(slot) => self.tables.found(slot),
            None => None,
        }
    }

    /// The entry whose Intent is at this slot, open or with its Outcome.
    pub fn entry(&self, slot: u32) -> Option<Entry>
        ensures { result ≡ entry_at self.now.records slot }
    {
        self.tables.entry(slot)
    }

    /// The entry that a text names at a terminal, where it has its Outcome.
    pub fn named(&self, poi: &Ident<40>, text: &[u8]) -> Option<Entry>
        ensures { result ≡ named_of self.now.records poi.now text.now }
    {
        self.tables.named(poi, text)
    }

    /// The entry of the last Intent of this till at this terminal.
    pub fn last_of(&self, sale: &Ident<40>, poi: &Ident<40>) -> Option<Entry>
        ensures { result ≡ last_entry self.now.records sale.now poi.now }
    {
        self.tables.last_of(sale, poi)
    }

    /// The open entry of the terminal.
    pub fn open_at(&self, poi: &Ident<40>) -> Option<Entry>
        ensures { result ≡ open_entry self.now.records poi.now }
    {
        self.tables.open_at(poi)
    }

    /// The greatest trace number in the terminal's records, else 0.
    pub fn last_number(&self, poi: &Ident<40>) -> u32
        ensures { result ≡ last_number_of self.now.records poi.now }
    {
        self.tables.last_number(poi)
    }

    /// The terminal's totals since its last Settled, in this currency.
    pub fn totals(&self, poi: &Ident<40>, currency: Currency) -> Totals
        ensures { result ≡ totals_of self.now.records poi.now currency }
    {
        self.tables.totals(poi, currency)
    }

    /// The number of Intents, of approved, declined and open entries, and the minor units of the approved ones.
    pub fn tally(&self) -> Tally
        ensures { result ≡ tally_of self.now.records }
    {
        self.tables.tally()
    }

    /// Whether the slot is that of a payment's Intent and the payment is reversed.
    pub fn reversed(&self, slot: u32) -> bool
        ensures { result ≡ is_reversed self.now.records slot }
    {
        self.tables.reversed(slot)
    }

    /// Whether the slot is that of a payment's Intent and the payment is settled.
    pub fn settled(&self, slot: u32) -> bool
        ensures { result ≡ is_settled self.now.records slot }
    {
        self.tables.settled(slot)
    }

    /// How many records are folded.
    pub fn records(&self) -> u32
        ensures { result ≡ length self.now.records }
    {
        self.tables.count()
    }

    /// The records of a ledger are folded.
    pub fn law_folded(&self)
        ensures { AreFolded self.now.records }
    {
        // The proof needs that the records are those of the type's invariant.
        let _tables = &self.tables;
    }

    /// A ledger has at most as many records as a journal has slots.
    pub fn law_few(&self)
        ensures { length self.now.records ≤ 1000000 }
    {
        self.tables.law_few();
    }

    /// How many keys are open.
    pub fn open_count(&self) -> u32
        ensures { result ≡ open_count_of self.now.records }
    {
        self.tables.open_count()
    }
}
