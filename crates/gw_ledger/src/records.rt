//! The records by slot, those of each kind in a vector of their own.
ghost use Rattle.std.specs.Prelude.{◌≡◌, ◌+◌, ◌<◌, ◌≤◌, [], ◌∷◌, ◌++◌, length, OnOk, slice_get};
ghost use Rattle.std.specs.declared.cmp.Ordering.{Ordering};
ghost use Rattle.gw_base.specs.Key.{key_cmp};
ghost use Rattle.jrn_record.specs.declared.records.Record.{Record};
ghost use Rattle.gw_ledger.specs.Keys.{intent_key, key_at, settled_key};
ghost use Rattle.gw_ledger.specs.KeyTable.{compare_record};
ghost use Rattle.gw_ledger.specs.Slots.{intent_at, outcome_at, settled_at};

use crate::table::push;
use gw_base::{Ident, Key};
use jrn_record::{Intent, Outcome, Settled};
use std::alloc::{AllocError, Global};
use std::cmp::Ordering;
use std::marker::Model;

/// The index of a slot's record among those of its kind.
#[derive(Clone, Copy)]
pub enum Index {
    Intent(u32),
    Outcome(u32),
    Settled(u32),
}

/// The records of a journal.
// An Intent takes eight times the memory of an Outcome, so one vector of records would waste most of each second element.
#[derive(Drop)]
pub struct Records {
    /// By slot.
    indices: Vec<Index>,
    intents: Vec<Intent>,
    outcomes: Vec<Outcome>,
    reconciliations: Vec<Settled>,
}

impl Model for Records {
    ghost use Rattle.gw_ledger.specs.Records.{AreIndexed, RecordsValue, records_value};

    ghost Value = { RecordsValue };

    ghost view = { λ l. records_value l.indices l.intents l.outcomes l.reconciliations };

    ghost invariant = { λ l. AreIndexed l.intents.items l.outcomes.items l.reconciliations.items l.indices.items };
}

impl Records {
    /// No records.
    pub fn new(alloc: Global) -> Records
        ensures { result.records ≡ [] }
    {
        Records {
            indices: Vec::new(alloc),
            intents: Vec::new(alloc),
            outcomes: Vec::new(alloc),
            reconciliations: Vec::new(alloc),
        }
    }

    /// How many there are.
    pub fn len(&self) -> u32
        ensures { result ≡ length self.now.records }
    {
        self.indices.len() as u32
    }

    /// The Intent at this slot.
    pub fn intent_at(&self, slot: u32) -> Option<Intent>
        ensures { result ≡ intent_at self.now.records slot }
    {
        match self.indices.get(slot as usize) {
            Some(Index::Intent(at)) => Some(self.intents[*at as usize]),
            Some(Index::Outcome(_)) | Some(Index::Settled(_)) | None => None,
        }
    }

    /// The Outcome at this slot.
    pub fn outcome_at(&self, slot: u32) -> Option<Outcome>
        ensures { result ≡ outcome_at self.now.records slot }
    {
        match self.indices.get(slot as usize) {
            Some(Index::Outcome(at)) => Some(self.outcomes[*at as usize]),
            Some(Index::Intent(_)) | Some(Index::Settled(_)) | None => None,
        }
    }

    /// The Settled at this slot.
    pub fn settled_at(&self, slot: u32) -> Option<Settled>
        ensures { result ≡ settled_at self.now.records slot }
    {
        match self.indices.get(slot as usize) {
            Some(Index::Settled(at)) => Some(self.reconciliations[*at as usize]),
            Some(Index::Intent(_)) | Some(Index::Outcome(_)) | None => None,
        }
    }

    /// The key of the record at this slot.
    pub fn key_at(&self, slot: u32) -> Option<Key>
        ensures { result ≡ key_at self.now.records slot }
    {
        match self.indices.get(slot as usize) {
            Some(Index::Intent(at)) => Some(key_of_intent(&self.intents[*at as usize])),
            Some(Index::Settled(at)) => Some(key_of_settled(&self.reconciliations[*at as usize])),
            Some(Index::Outcome(_)) | None => None,
        }
    }

    /// How the key of the record at this slot compares with another.
    pub fn compare_key(&self, slot: u32, key: &Key) -> Ordering
        ensures { result ≡ compare_record (slice_get self.now.records slot) key.now }
    {
        match self.indices.get(slot as usize) {
            Some(Index::Intent(at)) => compare_intent(&self.intents[*at as usize], key),
            Some(Index::Settled(at)) => compare_settled(&self.reconciliations[*at as usize], key),
            Some(Index::Outcome(_)) | None => Ordering::Less,
        }
    }

    /// Adds an Intent, for which there is room.
    pub fn add_intent(&mut self, intent: &Intent)
        requires few { length self.old.records < 1000000 }
        requires slots { 1 ≤ self.old.slots }
        requires intents { 1 ≤ self.old.intents }
        ensures records { self.new.records ≡ self.old.records ++ Record.Intent intent.now ∷ [] }
        ensures slots { self.old.slots ≤ self.new.slots + 1 }
        ensures intents { self.old.intents ≤ self.new.intents + 1 }
        ensures outcomes { self.new.outcomes ≡ self.old.outcomes }
        ensures reconciliations { self.new.reconciliations ≡ self.old.reconciliations }
    {
        let at = self.intents.len() as u32;
        push(&mut self.intents, *intent);
        push(&mut self.indices, Index::Intent(at));
    }

    /// Adds an Outcome, for which there is room.
    pub fn add_outcome(&mut self, outcome: &Outcome)
        requires few { length self.old.records < 1000000 }
        requires slots { 1 ≤ self.old.slots }
        requires outcomes { 1 ≤ self.old.outcomes }
        ensures records { self.new.records ≡ self.old.records ++ Record.Outcome outcome.now ∷ [] }
        ensures slots { self.old.slots ≤ self.new.slots + 1 }
        ensures outcomes { self.old.outcomes ≤ self.new.outcomes + 1 }
        ensures intents { self.new.intents ≡ self.old.intents }
        ensures reconciliations { self.new.reconciliations ≡ self.old.reconciliations }
    {
        let at = self.outcomes.len() as u32;
        push(&mut self.outcomes, *outcome);
        push(&mut self.indices, Index::Outcome(at));
    }

    /// Adds a Settled, for which there is room.
    pub fn add_settled(&mut self, settled: &Settled)
        requires few { length self.old.records < 1000000 }
        requires slots { 1 ≤ self.old.slots }
        requires reconciliations { 1 ≤ self.old.reconciliations }
        ensures records { self.new.records ≡ self.old.records ++ Record.Settled settled.now ∷ [] }
        ensures slots { self.old.slots ≤ self.new.slots + 1 }
        ensures reconciliations { self.old.reconciliations ≤ self.new.reconciliations + 1 }
        ensures intents { self.new.intents ≡ self.old.intents }
        ensures outcomes { self.new.outcomes ≡ self.old.outcomes }
    {
        let at = self.reconciliations.len() as u32;
        push(&mut self.reconciliations, *settled);
        push(&mut self.indices, Index::Settled(at));
    }

    /// Makes room for so many more Intents or Settled and for so many Outcomes, of these slots.
    pub fn reserve(&mut self, slots: usize, begun: usize, outcomes: usize) -> Result<(), AllocError>
        ensures records { self.new.records ≡ self.old.records }
        ensures slots { self.old.slots ≤ self.new.slots }
        ensures intents { self.old.intents ≤ self.new.intents }
        ensures outcomes { self.old.outcomes ≤ self.new.outcomes }
        ensures reconciliations { self.old.reconciliations ≤ self.new.reconciliations }
        ensures enough_slots { OnOk result (slots ≤ self.new.slots) }
        ensures enough_intents { OnOk result (begun ≤ self.new.intents) }
        ensures enough_outcomes { OnOk result (outcomes ≤ self.new.outcomes) }
        ensures enough_reconciliations { OnOk result (begun ≤ self.new.reconciliations) }
    {
        self.indices.reserve(slots)?;
        self.intents.reserve(begun)?;
        self.outcomes.reserve(outcomes)?;
        self.reconciliations.reserve(begun)?;
        Ok(())
    }
}

/// The key of an Intent.
pub fn key_of_intent(intent: &Intent) -> Key
    ensures { result ≡ intent_key intent.now }
{
    Key {
        sale: intent.sale,
        poi: intent.poi,
        service: intent.service,
    }
}

/// The key of a Settled.
pub fn key_of_settled(settled: &Settled) -> Key
    ensures { result ≡ settled_key settled.now }
{
    Key {
        sale: settled.sale,
        poi: settled.poi,
        service: settled.service,
    }
}

/// How the key of an Intent compares with another.
fn compare_intent(intent: &Intent, key: &Key) -> Ordering
    ensures { result ≡ key_cmp (intent_key intent.now) key.now }
{
    compare(&intent.sale, &intent.poi, &intent.service, key)
}

/// How the key of a Settled compares with another.
fn compare_settled(settled: &Settled, key: &Key) -> Ordering
    ensures { result ≡ key_cmp (settled_key settled.now) key.now }
{
    compare(&settled.sale, &settled.poi, &settled.service, key)
}

/// How a key compares with another.
fn compare(sale: &Ident<40>, poi: &Ident<40>, service: &Ident<10>, key: &Key) -> Ordering
    ensures { result ≡ key_cmp (record { sale = sale.now; poi = poi.now; service = service.now }) key.now }
{
    sale.cmp(&key.sale)
        .then(poi.cmp(&key.poi).then(service.cmp(&key.service)))
}
