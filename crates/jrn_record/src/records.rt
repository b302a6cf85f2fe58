//! The records of the journal, as values.
use gw_base::{Condition, Currency, Ident};

/// What is asked of a terminal.
#[derive(Clone, Copy, PartialEq, Eq, Debug)]
pub enum Deal {
    Payment,
    Reversal,
}

/// A payment or reversal that is about to be asked of a terminal.
#[derive(Clone, Copy, PartialEq, Eq, Debug)]
pub struct Intent {
    pub what: Deal,
    pub sale: Ident<40>,
    pub poi: Ident<40>,
    pub service: Ident<10>,
    /// The till's transaction, of a payment alone.
    pub transaction: Option<Ident<80>>,
    /// The till's time of the transaction, of a payment alone.
    pub stamp: Option<Ident<35>>,
    /// Minor units, of the original for a reversal.
    pub amount: u64,
    pub currency: Currency,
    /// The terminal's last trace number before the request is sent: what its enquiry reported, a later approval's,
    /// or that of the last status of a later decline.
    pub before: u32,
    /// The slot of the original's Intent, of a reversal alone.
    pub original: Option<u32>,
    /// Seconds since 1970-01-01T00:00:00Z.
    pub moment: i64,
}

/// What became of an Intent.
#[derive(Clone, Copy, PartialEq, Eq, Debug)]
pub struct Outcome {
    pub approved: bool,
    /// The slot of the Intent.
    pub slot: u32,
    /// The terminal's trace number; 0 where declined.
    pub number: u32,
    /// The terminal's receipt number; 0 where declined.
    pub receipt: u16,
    /// Minor units; 0 where declined.
    pub amount: u64,
    /// Why it was declined.
    pub condition: Option<Condition>,
    /// Seconds since 1970-01-01T00:00:00Z.
    pub moment: i64,
}

/// Whose reconciliation it was.
#[derive(Clone, Copy, PartialEq, Eq, Debug)]
pub enum How {
    Sale,
    Acquirer,
}

/// A reconciliation of a terminal.
#[derive(Clone, Copy, PartialEq, Eq, Debug)]
pub struct Settled {
    pub how: How,
    pub sale: Ident<40>,
    pub poi: Ident<40>,
    pub service: Ident<10>,
    pub currency: Currency,
    /// Seconds since 1970-01-01T00:00:00Z.
    pub moment: i64,
}

/// A record of the journal.
#[derive(Clone, Copy, PartialEq, Eq, Debug)]
pub enum Record {
    Intent(Intent),
    Outcome(Outcome),
    Settled(Settled),
}
