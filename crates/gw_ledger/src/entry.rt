//! Entries and reconciliations, as the ledger returns them.
use crate::totals::Totals;
use jrn_record::{Intent, Outcome, Settled};

/// A payment or reversal: its Intent with that record's slot, and its Outcome once it has one.
#[derive(Clone, Copy, PartialEq, Eq)]
pub struct Entry {
    pub slot: u32,
    pub intent: Intent,
    pub result: Option<Outcome>,
}

/// A reconciliation, with the totals up to it.
#[derive(Clone, Copy, PartialEq, Eq)]
pub struct Closed {
    pub slot: u32,
    pub settled: Settled,
    pub totals: Totals,
}

/// What has a key.
#[derive(Clone, Copy, PartialEq, Eq)]
pub enum Found {
    Entry(Entry),
    Closed(Closed),
}
