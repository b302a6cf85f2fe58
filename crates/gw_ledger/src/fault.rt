//! Why the bodies of a journal give no ledger.

/// The first slot that is no record, or a record that does not fit those before it.
#[derive(Clone, Copy, PartialEq, Eq, Debug)]
pub struct BadRecord {
    pub slot: u32,
}

/// Why the bodies of a journal give no ledger.
#[derive(Clone, Copy, PartialEq, Eq, Debug)]
pub enum LedgerFault {
    BadRecord(BadRecord),
    Memory,
}
