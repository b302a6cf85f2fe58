//! Totals of a terminal and the tally of all records.
use gw_base::Currency;

/// The count and the minor units of approved payments, and of approved reversals.
#[derive(Clone, Copy, PartialEq, Eq)]
pub struct Totals {
    pub debit: (u32, u64),
    pub reversed: (u32, u64),
    pub currency: Currency,
}

/// How many Intents there are, how many entries are approved, declined and open, and the minor units of the
/// approved ones.
#[derive(Clone, Copy, PartialEq, Eq)]
pub struct Tally {
    pub accepted: u32,
    pub approved: u32,
    pub declined: u32,
    pub unresolved: u32,
    pub sum: u64,
}
