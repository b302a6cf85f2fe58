//! The ledger: what the records of the journal say of each key and each terminal.
#![tactic(auto)]

mod account;
mod blocks;
mod ended;
mod entry;
mod fault;
mod keys;
mod laws;
mod ledger;
mod records;
mod sorted;
mod table;
mod tables;
mod totals;
mod transaction;

pub use entry::{Closed, Entry, Found};
pub use fault::{BadRecord, LedgerFault};
pub use laws::{
    law_examples, law_fits, law_last_number, law_named, law_next, law_open, law_reversed_once,
    law_settled, law_settling, law_within,
};
pub use ledger::Ledger;
pub use tables::is_reversible;
pub use totals::{Tally, Totals};
