//! The tables by slot and by terminal: what the ledger is, but for its keys.
ghost use Rattle.std.specs.Prelude.{◌≡◌, ◌+◌, ◌<◌, ◌≤◌, ◌*◌, ◌^◌, ℕ, List, [], ◌∷◌, ◌++◌, length, max, IsTrue, None, true, false, if◌then◌else◌, OnOk, OnErr, IfOk, IfErr, Some, IfSome, vec_len, vec_capacity, slice_get, option_and_then, ◌-◌};
ghost use Rattle.std.specs.declared.cmp.Ordering.{Ordering};
ghost use Rattle.gw_base.specs.Key.{key_cmp};
ghost use Rattle.jrn_record.specs.Limits.{IsIntent, IsOutcome, IsRecord, IsSettled};
ghost use Rattle.gw_ledger.specs.Accounts.{is_settled, last_number_of};
ghost use Rattle.gw_ledger.specs.Fold.{AreFoldedBesideKeys, IsBodyAdded, IsRefusedBesideKey, fits_beside_key, found_by, has_fitting_original, is_approved_payment, is_approved_with, last_entry, may_reverse, open_entry};
ghost use Rattle.gw_ledger.specs.History.{same_text};
ghost use Rattle.gw_ledger.specs.Keys.{intent_key, key_at, last_slot, settled_key};
ghost use Rattle.gw_ledger.specs.Table.{IsTable, value_at};
ghost use Rattle.gw_ledger.specs.KeyTable.{compare_record};
ghost use Rattle.gw_ledger.specs.Slots.{is_reversible, entry_at, intent_at, is_reversed, outcome_at, settled_at};
ghost use Rattle.gw_ledger.specs.Transaction.{is_named, named_of};
ghost use Rattle.gw_ledger.specs.Sums.{open_count_of, tally_of, totals_of};
ghost use Rattle.gw_ledger.specs.Tables.{pair_cmp};
ghost use Rattle.gw_ledger.specs.Steps.{changed_at, ended_mark, marks_reversed, marks_with, reversed_mark, tally_with};

use crate::account::{Desk, asked, closed, desk_in, ordinal_of, resolved, totals_at};
use crate::ended::Ended;
use crate::entry::{Closed, Entry, Found};
use crate::records::Records;
use crate::table;
use crate::table::push;
use crate::totals::{Tally, Totals};
use crate::transaction::{is_named, slot_in};
use gw_base::{Currency, Ident, Key};
use jrn_record::{Deal, Intent, Outcome, Record, Settled, from_body, law_bodies};
use std::alloc::{AllocError, Global};
use std::cmp::Ordering;
use std::marker::Model;

/// Where the Outcome of a slot's Intent is, and whether that is reversed.
#[derive(Clone, Copy)]
pub struct Mark {
    pub ended: Ended,
    pub reversed: bool,
}

impl Mark {
    /// The mark of a new slot.
    const NEW: Mark = Mark {
        ended: Ended::NONE,
        reversed: false,
    };
}

/// The records with what each leaves at its slot and at its terminal, whatever their keys.
// The tables are sorted vectors, since their room can be reserved: a record is written to the journal only once nothing
// that follows can be refused memory.
#[derive(Drop)]
pub struct Tables {
    records: Records,
    /// By slot.
    marks: Vec<Mark>,
    /// By till and terminal, the slot of the last Intent.
    lasts: Vec<((Ident<40>, Ident<40>), u32)>,
    /// By terminal.
    desks: Vec<(Ident<40>, Desk)>,
    /// By the slot of a Settled, the totals before it.
    closings: Vec<(u32, Totals)>,
    tally: Tally,
    spare: usize,
}

impl Model for Tables {
    ghost use Rattle.std.specs.Prelude.{◌≤◌};
    ghost use Rattle.gw_ledger.specs.Fold.{LedgerValue};

    ghost Value = { LedgerValue };

    ghost use Rattle.gw_ledger.specs.Tables.{AreTables, HaveRoom};

    ghost view = { λ l. record { records = l.records.records; spare = l.spare } };

    ghost invariant = { λ l. AreTables l.records.records l.marks.items l.lasts.items l.desks.items l.closings.items l.tally
        × HaveRoom l.records l.marks l.lasts l.desks l.closings l.tally.unresolved l.spare };
}

impl Tables {
    /// The tables of no records.
    pub fn new(alloc: Global) -> Tables
        ensures records { result.records ≡ [] }
        ensures spare { result.spare ≡ 0 }
    {
        Tables {
            records: Records::new(alloc),
            marks: Vec::new(alloc),
            lasts: Vec::new(alloc),
            desks: Vec::new(alloc),
            closings: Vec::new(alloc),
            tally: Tally {
                accepted: 0,
                approved: 0,
                declined: 0,
                unresolved: 0,
                sum: 0,
            },
            spare: 0,
        }
    }

    /// How many records there are.
    pub fn count(&self) -> u32
        ensures { result ≡ length self.now.records }
    {
        self.records.len()
    }

    /// Adds the record of a body, whatever its key, where it may come next; otherwise nothing changes.
    pub fn take_body(&mut self, body: &[u8; 255]) -> Result<bool, AllocError>
        requires { length self.old.records < 1000000 }
        ensures added { IfOk result (λ added. IsTrue added → IsBodyAdded self.old.records body.now self.new.records) }
        ensures refused { IfOk result (λ added. added ≡ false → self.new.records ≡ self.old.records) }
        ensures cause { IfOk result (λ added. added ≡ false → IsRefusedBesideKey self.old.records body.now) }
    {
        law_bodies();
        let the_record = match from_body(body) {
            Ok(the_record) => the_record,
            Err(_) => return Ok(false),
        };
        if !self.fits_beside_key(&the_record) {
            return Ok(false);
        }
        self.reserve(1)?;
        self.add(&the_record);
        Ok(true)
    }

    /// Adds a record.
    pub fn add(&mut self, the_record: &Record)
        requires spare { 1 ≤ self.old.spare }
        requires few { length self.old.records < 1000000 }
        requires within { IsRecord the_record.now }
        requires fits { IsTrue (fits_beside_key self.old.records the_record.now) }
        ensures { self.new.records ≡ self.old.records ++ the_record.now ∷ [] }
    {
        match the_record {
            Record::Intent(intent) => {
                let _slot = self.accept(intent);
            }
            Record::Outcome(outcome) => self.resolve(outcome),
            Record::Settled(settled) => {
                let _totals = self.settle(settled);
            }
        }
    }

    /// Whether the record may come next, whatever its key.
    pub fn fits_beside_key(&self, the_record: &Record) -> bool
        ensures { result ≡ fits_beside_key self.now.records the_record.now }
    {
        match the_record {
            Record::Intent(intent) => self.fits_intent(intent),
            Record::Outcome(outcome) => self.fits_outcome(outcome),
            Record::Settled(_) => true,
        }
    }

    /// Whether the Intent may come next, whatever its key.
    fn fits_intent(&self, intent: &Intent) -> bool
        ensures { result ≡ fits_beside_key self.now.records (Record.Intent intent.now) }
    {
        let account = desk_in(&self.desks, &intent.poi).account;
        account.unresolved.is_none()
            && account.trace <= intent.before
            && self.has_fitting_original(intent)
    }

    /// Whether a reversal has an original that it may reverse.
    fn has_fitting_original(&self, intent: &Intent) -> bool
        ensures { result ≡ has_fitting_original self.now.records intent.now intent.now.what }
    {
        match intent.what {
            Deal::Payment => true,
            Deal::Reversal => match intent.original {
                Some(slot) => self.may_reverse(intent, slot),
                None => false,
            },
        }
    }

    /// Whether the entry at this slot may be reversed by the Intent.
    fn may_reverse(&self, intent: &Intent, slot: u32) -> bool
        ensures { result ≡ may_reverse self.now.records intent.now (Some slot) }
    {
        match self.entry(slot) {
            Some(entry) => {
                is_approved_payment(&entry, intent) && !self.reversed(slot) && !self.settled(slot)
            }
            None => false,
        }
    }

    /// Whether the Outcome is of an open Intent, and has a greater trace number where it is approved.
    fn fits_outcome(&self, outcome: &Outcome) -> bool
        ensures { result ≡ fits_beside_key self.now.records (Record.Outcome outcome.now) }
    {
        match self.records.intent_at(outcome.slot) {
            Some(intent) => {
                self.marks[outcome.slot as usize].ended.get().is_none()
                    && (!outcome.approved || intent.before < outcome.number)
            }
            None => false,
        }
    }

    /// Makes room for so many more Intents or Settled, with the Outcome of each.
    pub fn reserve(&mut self, more: usize) -> Result<(), AllocError>
        ensures records { self.new.records ≡ self.old.records }
        ensures ok { OnOk result (self.new.spare ≡ max self.old.spare more) }
        ensures err { OnErr result (self.new ≡ self.old) }
    {
        if more <= self.spare {
            return Ok(());
        }
        // Each new Intent has an Outcome, and those that are open have theirs still to come.
        let slots = match room_for(more, self.tally.unresolved) {
            Some(slots) => slots,
            None => return Err(AllocError),
        };
        self.records.reserve(slots, more, slots - more)?;
        self.marks.reserve(slots)?;
        self.lasts.reserve(more)?;
        self.desks.reserve(more)?;
        self.closings.reserve(more)?;
        self.spare = more;
        Ok(())
    }

    /// Adds an Intent, and returns its slot.
    pub fn accept(&mut self, intent: &Intent) -> u32
        requires spare { 1 ≤ self.old.spare }
        requires few { length self.old.records < 1000000 }
        requires within { IsIntent intent.now }
        requires fits { IsTrue (fits_beside_key self.old.records (Record.Intent intent.now)) }
        ensures slot { result ≡ length self.old.records }
        ensures records { self.new.records ≡ self.old.records ++ Record.Intent intent.now ∷ [] }
        ensures spare { self.new.spare + 1 ≡ self.old.spare }
    {
        let slot = self.records.len();
        self.records.add_intent(intent);
        push(&mut self.marks, Mark::NEW);
        table::put(&mut self.lasts, (intent.sale, intent.poi), slot);
        let desk = desk_in(&self.desks, &intent.poi);
        table::put(
            &mut self.desks,
            intent.poi,
            asked(desk, slot, intent.before),
        );
        self.tally.accepted += 1;
        self.tally.unresolved += 1;
        self.spare -= 1;
        slot
    }

    /// Adds the Outcome of an open Intent, for which there is room since that was accepted.
    pub fn resolve(&mut self, outcome: &Outcome)
        requires few { length self.old.records < 1000000 }
        requires within { IsOutcome outcome.now }
        requires fits { IsTrue (fits_beside_key self.old.records (Record.Outcome outcome.now)) }
        ensures records { self.new.records ≡ self.old.records ++ Record.Outcome outcome.now ∷ [] }
        ensures spare { self.new.spare ≡ self.old.spare }
    {
        let at = self.records.len();
        let Some(intent) = self.records.intent_at(outcome.slot) else {
            unreachable!()
        };
        let desk = desk_in(&self.desks, &intent.poi);
        self.records.add_outcome(outcome);
        push_outcome(&mut self.marks, outcome, intent.original, at);
        table::put(
            &mut self.desks,
            intent.poi,
            resolved(desk, &intent, outcome),
        );
        self.tally = counted(self.tally, outcome);
    }

    /// Adds a Settled, and returns the terminal's totals in its currency up to it.
    pub fn settle(&mut self, settled: &Settled) -> Totals
        requires spare { 1 ≤ self.old.spare }
        requires few { length self.old.records < 1000000 }
        requires within { IsSettled settled.now }
        ensures totals { result ≡ totals_of self.old.records settled.now.poi settled.now.currency }
        ensures records { self.new.records ≡ self.old.records ++ Record.Settled settled.now ∷ [] }
        ensures spare { self.new.spare + 1 ≡ self.old.spare }
    {
        let slot = self.records.len();
        let desk = desk_in(&self.desks, &settled.poi);
        let totals = totals_at(&desk, settled.currency);
        self.records.add_settled(settled);
        push(&mut self.marks, Mark::NEW);
        table::put(&mut self.desks, settled.poi, closed(desk, slot + 1));
        table::put(&mut self.closings, slot, totals);
        self.spare -= 1;
        totals
    }

    /// The records are folded, whatever their keys.
    pub fn law_folded(&self)
        ensures { AreFoldedBesideKeys self.now.records }
    {
        // The proof needs that the records are those of the type's invariant.
        let _records = &self.records;
    }

    /// There are at most as many records as a journal has slots.
    pub fn law_few(&self)
        ensures { length self.now.records ≤ 1000000 }
    {
        // The proof needs that the records are those of the type's invariant.
        let _records = &self.records;
    }

    /// For how many more Intents or Settled there is room.
    pub fn spare(&self) -> usize
        ensures { result ≡ self.now.spare }
    {
        self.spare
    }

    /// By till and terminal, the slot of the last Intent.
    pub fn lasts(&self, alloc: Global) -> Result<Vec<((Ident<40>, Ident<40>), u32)>, AllocError>
        ensures table { IfOk result (λ lasts. IsTable pair_cmp lasts.items) }
        ensures values { IfOk result (λ lasts. (sale poi : List ℕ) → value_at pair_cmp lasts.items (sale, poi) ≡ last_slot self.now.records sale poi) }
    {
        let mut lasts = Vec::new(alloc);
        lasts.extend_from_slice(&self.lasts)?;
        Ok(lasts)
    }

    /// The Settled at this slot.
    pub fn settled_at(&self, slot: u32) -> Option<Settled>
        ensures { result ≡ settled_at self.now.records slot }
    {
        self.records.settled_at(slot)
    }

    /// The key of the record at this slot.
    pub fn key_at(&self, slot: u32) -> Option<Key>
        ensures { result ≡ key_at self.now.records slot }
    {
        self.records.key_at(slot)
    }

    /// How the key of the record at this slot compares with another.
    pub fn compare_key(&self, slot: u32, key: &Key) -> Ordering
        ensures { result ≡ compare_record (slice_get self.now.records slot) key.now }
    {
        self.records.compare_key(slot, key)
    }

    /// The entry whose Intent is at this slot.
    pub fn entry(&self, slot: u32) -> Option<Entry>
        ensures { result ≡ entry_at self.now.records slot }
    {
        match self.records.intent_at(slot) {
            Some(intent) => Some(Entry {
                slot,
                intent,
                result: self.outcome_of(self.marks[slot as usize].ended.get()),
            }),
            None => None,
        }
    }

    /// The Outcome at a slot, where there is one.
    fn outcome_of(&self, ended: Option<u32>) -> Option<Outcome>
        ensures { result ≡ option_and_then (outcome_at self.now.records) ended }
    {
        match ended {
            Some(at) => self.records.outcome_at(at),
            None => None,
        }
    }

    /// What the record at this slot has begun.
    pub fn found(&self, slot: u32) -> Option<Found>
        ensures { result ≡ option_and_then (found_by self.now.records slot) (slice_get self.now.records slot) }
    {
        match self.records.settled_at(slot) {
            Some(settled) => match table::get(&self.closings, &slot) {
                Some(totals) => Some(Found::Closed(Closed {
                    slot,
                    settled,
                    totals,
                })),
                None => unreachable!(),
            },
            None => match self.entry(slot) {
                Some(entry) => Some(Found::Entry(entry)),
                None => None,
            },
        }
    }

    /// The entry that a text names at a terminal, where it has its Outcome.
    ///
    /// The slot is read from the text, and then the text is compared: no other entry is looked at.
    pub fn named(&self, poi: &Ident<40>, text: &[u8]) -> Option<Entry>
        ensures { result ≡ named_of self.now.records poi.now text.now }
    {
        // The proof needs that the tables are the fold.
        let _records = &self.records;
        match slot_in(text) {
            Some(slot) => self.named_at(slot, poi, text),
            None => None,
        }
    }

    /// The entry whose Intent is at this slot, where the text names it.
    fn named_at(&self, slot: u32, poi: &Ident<40>, text: &[u8]) -> Option<Entry>
        ensures { result ≡ (if is_named poi.now text.now (entry_at self.now.records slot) then entry_at self.now.records slot else None) }
    {
        match self.entry(slot) {
            Some(entry) => {
                if is_named(&entry, poi, text) {
                    Some(entry)
                } else {
                    None
                }
            }
            None => None,
        }
    }

    /// The entry of the last Intent of this till at this terminal.
    pub fn last_of(&self, sale: &Ident<40>, poi: &Ident<40>) -> Option<Entry>
        ensures { result ≡ last_entry self.now.records sale.now poi.now }
    {
        match table::get(&self.lasts, &(*sale, *poi)) {
            Some(slot) => self.entry(slot),
            None => None,
        }
    }

    /// The open entry of the terminal.
    pub fn open_at(&self, poi: &Ident<40>) -> Option<Entry>
        ensures { result ≡ open_entry self.now.records poi.now }
    {
        match desk_in(&self.desks, poi).account.unresolved {
            Some(slot) => self.entry(slot),
            None => None,
        }
    }

    /// The greatest trace number in the terminal's records, else 0.
    pub fn last_number(&self, poi: &Ident<40>) -> u32
        ensures { result ≡ last_number_of self.now.records poi.now }
    {
        desk_in(&self.desks, poi).account.trace
    }

    /// The terminal's totals since its last Settled, in this currency.
    pub fn totals(&self, poi: &Ident<40>, currency: Currency) -> Totals
        ensures { result ≡ totals_of self.now.records poi.now currency }
    {
        let desk = desk_in(&self.desks, poi);
        totals_at(&desk, currency)
    }

    /// The number of Intents, of approved, declined and open entries, and the minor units of the approved ones.
    pub fn tally(&self) -> Tally
        ensures { result ≡ tally_of self.now.records }
    {
        self.tally
    }

    /// Whether the slot is that of a payment's Intent and the payment is reversed.
    pub fn reversed(&self, slot: u32) -> bool
        ensures { result ≡ is_reversed self.now.records slot }
    {
        match self.records.intent_at(slot) {
            Some(intent) => is_reversible(intent.what) && self.marks[slot as usize].reversed,
            None => false,
        }
    }

    /// Whether the slot is that of a payment's Intent and the payment is settled.
    pub fn settled(&self, slot: u32) -> bool
        ensures { result ≡ is_settled self.now.records slot }
    {
        let Some(intent) = self.records.intent_at(slot) else {
            return false;
        };
        match self.marks[slot as usize].ended.get() {
            Some(at) => is_reversible(intent.what)
                && at < desk_in(&self.desks, &intent.poi).account.settled,
            None => false,
        }
    }

    /// How many keys are open.
    pub fn open_count(&self) -> u32
        ensures { result ≡ open_count_of self.now.records }
    {
        self.tally.unresolved
    }
}

/// The records that so many more Intents and the open ones bring, each with its Outcome; `None` where there is no such number.
fn room_for(more: usize, unresolved: u32) -> Option<usize>
    ensures { IfSome result (λ slots. slots ≡ 2 * more + unresolved) }
{
    more.checked_mul(2)?.checked_add(unresolved as usize)
}

/// Whether what is asked may be reversed, once it is approved.
pub fn is_reversible(what: Deal) -> bool
    ensures { result ≡ is_reversible what }
{
    match what {
        Deal::Payment => true,
        Deal::Reversal => false,
    }
}

/// The marks after an Outcome at this slot.
fn push_outcome(marks: &mut Vec<Mark>, outcome: &Outcome, original: Option<u32>, at: u32)
    requires inside { outcome.now.slot < vec_len marks.old }
    requires few { at < 1000000 }
    requires room { vec_len marks.old < vec_capacity marks.old }
    ensures len { vec_len marks.new ≡ vec_len marks.old + 1 }
    ensures capacity { vec_capacity marks.old ≤ vec_capacity marks.new }
    ensures marks { marks.new.items ≡ marks_with outcome.now original at marks.old.items ++ record { ended = None; reversed = false } ∷ [] }
{
    mark_ended(marks, outcome.slot, at);
    mark_original(marks, outcome.approved, original);
    push(marks, Mark::NEW);
}

/// Marks the slot as one whose Outcome is at another.
fn mark_ended(marks: &mut Vec<Mark>, slot: u32, at: u32)
    requires inside { slot < vec_len marks.old }
    requires few { at < 1000000 }
    ensures len { vec_len marks.new ≡ vec_len marks.old }
    ensures capacity { vec_capacity marks.new ≡ vec_capacity marks.old }
    ensures marks { marks.new.items ≡ changed_at (ended_mark at) slot marks.old.items }
{
    marks[slot as usize].ended = Ended::at(at);
}

/// Marks the original of an approved reversal.
fn mark_original(marks: &mut Vec<Mark>, approved: bool, original: Option<u32>)
    ensures len { vec_len marks.new ≡ vec_len marks.old }
    ensures capacity { vec_capacity marks.new ≡ vec_capacity marks.old }
    ensures marks { marks.new.items ≡ marks_reversed approved original marks.old.items }
{
    if !approved {
        return;
    }
    match original {
        Some(original) => mark_reversed(marks, original),
        None => {}
    }
}

/// Marks the slot as reversed, where there is such a slot.
fn mark_reversed(marks: &mut Vec<Mark>, original: u32)
    ensures len { vec_len marks.new ≡ vec_len marks.old }
    ensures capacity { vec_capacity marks.new ≡ vec_capacity marks.old }
    ensures marks { marks.new.items ≡ changed_at reversed_mark original marks.old.items }
{
    if (original as usize) < marks.len() {
        marks[original as usize].reversed = true;
    }
}

/// The tally after an Outcome.
fn counted(tally: Tally, outcome: &Outcome) -> Tally
    requires approved { tally.approved < 2 ^ 31 }
    requires declined { tally.declined < 2 ^ 31 }
    requires open { 1 ≤ tally.unresolved }
    requires sum { tally.sum + outcome.now.amount < 2 ^ 64 }
    ensures { result ≡ tally_with outcome.now tally }
{
    let unresolved = tally.unresolved - 1;
    if outcome.approved {
        Tally {
            accepted: tally.accepted,
            approved: tally.approved + 1,
            declined: tally.declined,
            unresolved,
            sum: tally.sum + outcome.amount,
        }
    } else {
        Tally {
            accepted: tally.accepted,
            approved: tally.approved,
            declined: tally.declined + 1,
            unresolved,
            sum: tally.sum,
        }
    }
}

/// Whether the entry is the approved payment that the Intent would reverse.
fn is_approved_payment(entry: &Entry, intent: &Intent) -> bool
    ensures { result ≡ is_approved_payment intent.now.poi intent.now.currency intent.now.amount (Some entry.now) }
{
    is_reversible(entry.intent.what)
        && same_poi(&intent.poi, &entry.intent.poi)
        && ordinal_of(intent.currency) == ordinal_of(entry.intent.currency)
        && is_approved_with(intent.amount, &entry.result)
}

/// Whether the Outcome approves this amount.
fn is_approved_with(amount: u64, ending: &Option<Outcome>) -> bool
    ensures { result ≡ is_approved_with amount ending.now }
{
    match ending {
        Some(outcome) => outcome.approved && outcome.amount == amount,
        None => false,
    }
}

/// Whether two terminals are the same.
fn same_poi(a: &Ident<40>, b: &Ident<40>) -> bool
    ensures { result ≡ same_text a.now b.now }
{
    match a.cmp(b) {
        Ordering::Equal => true,
        Ordering::Less | Ordering::Greater => false,
    }
}
